//! Rows on paths.
use crate::keys::key;
use crate::words::{push, text};
use rds_names::{Fault, Key, Path};
use rds_rows::told::{said, said_if};
use rds_rows::words::{cut, number};
use std::alloc::Global;

/// Answers a row on paths.
pub fn answer(alloc: Global, asked: &str, rest: &str) -> Result<String, Fault> {
    match asked {
        "new" => shown(alloc, &path(alloc, rest)?),
        "copy" => shown(alloc, &path(alloc, rest)?.copy(alloc)?),
        "root" => said_if(alloc, path(alloc, rest)?.is_empty()),
        "key" => key_at(alloc, rest),
        "same" => same(alloc, rest),
        "begins" => begins(alloc, rest),
        "keys" => of_keys(alloc, rest),
        _ => Err(Fault::Usage),
    }
}

/// The path of a text between quotes.
pub fn path(alloc: Global, written: &str) -> Result<Path, Fault> {
    let text = text(alloc, written)?;
    Path::new(alloc, text.as_str())
}

/// The path's keys behind their number.
pub fn shown(alloc: Global, path: &Path) -> Result<String, Fault> {
    let count = path.len();
    let mut line = format!(in alloc; "{count}")?;
    for key in path.keys() {
        push(&mut line, key.as_str())?;
    }
    Ok(line)
}

/// The key at a place of a path, as `1 "m/k/r"`.
fn key_at(alloc: Global, rest: &str) -> Result<String, Fault> {
    let (place, written) = cut(rest)?;
    let place = number(place)? as usize;
    match path(alloc, written)?.key(place) {
        Some(key) => said(alloc, key.as_str()),
        None => said(alloc, "none"),
    }
}

fn same(alloc: Global, rest: &str) -> Result<String, Fault> {
    let (left, right) = cut(rest)?;
    let left = path(alloc, left)?;
    let right = path(alloc, right)?;
    said_if(alloc, left == right)
}

fn begins(alloc: Global, rest: &str) -> Result<String, Fault> {
    let (whole, first) = cut(rest)?;
    let whole = path(alloc, whole)?;
    let first = path(alloc, first)?;
    said_if(alloc, whole.begins_with(&first))
}

/// The path that has a key a number of times, as `8 "k"`.
fn of_keys(alloc: Global, rest: &str) -> Result<String, Fault> {
    let (count, written) = cut(rest)?;
    let keys = keys(alloc, number(count)?, written)?;
    shown(alloc, &Path::from_keys(keys)?)
}

fn keys(alloc: Global, count: u64, written: &str) -> Result<Vec<Key>, Fault> {
    let mut keys = Vec::new(alloc);
    for _ in 0..count {
        keys.push(key(alloc, written)?)?;
    }
    Ok(keys)
}
