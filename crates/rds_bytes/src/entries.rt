//! An entry: its path, its kind and its value.
ghost use Rattle.std.specs.Prelude.{◌≡◌, ◌≤◌, length, fold, IfOk};
ghost use Rattle.rds_bytes.specs.Reading.{Reads, ReadsExactly, kind_at, entry_at, keyed_entry_at};
ghost use Rattle.rds_bytes.specs.Values.{IsEntry};
ghost use Rattle.rds_bytes.specs.Spelling.{entry_text, byte_text, kind_byte};
ghost use Rattle.rds_bytes.specs.Writing.{Adds};

use crate::numbers::{put_byte, read_byte};
use crate::paths::{keys_length, put_keys, read_path};
use crate::scalars::{put_scalar, read_scalar, scalar_length};
use crate::sources::{KeySource, SpelledKeys};
use rds_names::{Entry, Fault, Kind};
use std::alloc::{AllocError, Global};

#[tactic(auto, unfolding(crate::specs::Reading::kind_at))]
fn read_kind(bytes: &[u8]) -> Result<(Kind, &[u8]), Fault>
    ensures { ReadsExactly (λ x. (x.0, x.1.now)) result (kind_at bytes.now) }
{
    let (kind, rest) = read_byte(bytes)?;
    match kind {
        1 => Ok((Kind::Reg, rest)),
        2 => Ok((Kind::Elem, rest)),
        _ => Err(Fault::Bad),
    }
}

/// An entry, wherever its keys come from.
#[tactic(auto, unfolding(crate::specs::Reading::keyed_entry_at))]
pub fn read_keyed_entry<'a, K: KeySource>(
    alloc: Global,
    keys: &mut K,
    bytes: &'a [u8],
) -> Result<(Entry, &'a [u8]), Fault>
    ensures read { Reads (λ x. (x.0, x.1.now)) result (keyed_entry_at (K.reader keys.old) bytes.now) }
    ensures after { IfOk result (λ x. keys.new ≡ fold K.after keys.old x.0.path) }
{
    let (path, rest) = read_path(alloc, keys, bytes)?;
    let (kind, rest) = read_kind(rest)?;
    let (value, rest) = read_scalar(alloc, rest)?;
    match Entry::new(path, kind, value) {
        Ok(entry) => Ok((entry, rest)),
        Err(_) => Err(Fault::Bad),
    }
}

/// An entry of which each key is a short text.
pub fn read_entry(alloc: Global, bytes: &[u8]) -> Result<(Entry, &[u8]), Fault>
    ensures { Reads (λ x. (x.0, x.1.now)) result (entry_at bytes.now) }
{
    let mut keys = SpelledKeys;
    read_keyed_entry(alloc, &mut keys, bytes)
}

/// The length of an entry.
pub fn entry_length(entry: &Entry) -> usize
    ensures length { result ≡ length (entry_text entry.now) }
    ensures most { result ≤ 1549 }
    ensures is_entry { IsEntry entry.now }
{
    2 + keys_length(entry.path.keys()) + scalar_length(&entry.value)
}

/// A kind.
pub fn put_kind(out: &mut Vec<u8>, kind: Kind) -> Result<(), AllocError>
    ensures { Adds out.old.items out.new.items (byte_text (kind_byte kind)) result }
{
    match kind {
        Kind::Reg => put_byte(out, 1),
        Kind::Elem => put_byte(out, 2),
    }
}

/// An entry.
pub fn put_entry(out: &mut Vec<u8>, entry: &Entry) -> Result<(), AllocError>
    ensures { Adds out.old.items out.new.items (entry_text entry.now) result }
{
    let keys = entry.path.keys();
    put_byte(out, keys.len() as u8)?;
    put_keys(out, keys)?;
    put_kind(out, entry.kind)?;
    put_scalar(out, &entry.value)
}
