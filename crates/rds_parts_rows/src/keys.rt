//! Rows on names and keys.
use crate::words::text;
use rds_names::{Fault, Key, Name};
use rds_rows::told::{said, said_if};
use rds_rows::words::cut;
use std::alloc::Global;
use std::hash::{DefaultHasher, Hash, Hasher};

/// Answers a row on a name.
pub fn answer_name(alloc: Global, written: &str) -> Result<String, Fault> {
    let text = text(alloc, written)?;
    let name = Name::new(text.as_str())?;
    said(alloc, name.as_str())
}

/// Answers a row on keys.
pub fn answer(alloc: Global, asked: &str, rest: &str) -> Result<String, Fault> {
    match asked {
        "new" => made(alloc, rest),
        "copy" => copied(alloc, rest),
        "is" => is_key(alloc, rest),
        "least" => least(alloc, rest),
        "hash" => hashed_alike(alloc, rest),
        _ => Err(Fault::Usage),
    }
}

/// The key of a text between quotes.
pub fn key(alloc: Global, written: &str) -> Result<Key, Fault> {
    let text = text(alloc, written)?;
    Key::new(alloc, text.as_str())
}

fn made(alloc: Global, rest: &str) -> Result<String, Fault> {
    said(alloc, key(alloc, rest)?.as_str())
}

fn copied(alloc: Global, rest: &str) -> Result<String, Fault> {
    let copy = key(alloc, rest)?.copy(alloc)?;
    said(alloc, copy.as_str())
}

fn is_key(alloc: Global, rest: &str) -> Result<String, Fault> {
    let text = text(alloc, rest)?;
    said_if(alloc, Key::is_key(text.as_str()))
}

fn least(alloc: Global, rest: &str) -> Result<String, Fault> {
    let (left, right) = cut(rest)?;
    let least = lesser(key(alloc, left)?, key(alloc, right)?);
    said(alloc, least.as_str())
}

/// The lesser of the two, as an order says.
fn lesser<K: Ord + Drop>(left: K, right: K) -> K {
    if right < left { right } else { left }
}

/// Whether two keys have one hash.
fn hashed_alike(alloc: Global, rest: &str) -> Result<String, Fault> {
    let (left, right) = cut(rest)?;
    let left = hash_of(&key(alloc, left)?);
    let right = hash_of(&key(alloc, right)?);
    said_if(alloc, left == right)
}

fn hash_of(key: &Key) -> u64 {
    let mut state = DefaultHasher::new();
    key.hash(&mut state);
    state.finish()
}
