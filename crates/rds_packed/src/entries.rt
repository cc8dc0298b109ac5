//! An entry: its head, its keys and its value.
ghost use Rattle.std.specs.Prelude.{◌≡◌, ◌≤◌, [], length, fold, IfOk};
ghost use Rattle.rds_bytes.specs.Reading.{Reads, rows_after};
ghost use Rattle.rds_bytes.specs.Writing.{Adds};
ghost use Rattle.rds_packed.specs.PackedReading.{packed_path_at, packed_entry_at};
ghost use Rattle.rds_packed.specs.PackedTexts.{packed_numbers_text, numbers_entry_text};

use crate::heads::{entry_head, head_kind, read_head};
use crate::scalars::{payload_length, put_payload, read_payload};
use rds_bytes::{KeySource, packed_length, put_byte, put_packed};
use rds_names::{Entry, Fault, Key, Path};
use std::alloc::{AllocError, Global};

/// As many keys as are asked for. Room is made for each as it comes.
fn read_keys<'a, K: KeySource>(
    alloc: Global,
    keys: &mut K,
    count: u8,
    bytes: &'a [u8],
) -> Result<(Vec<Key>, &'a [u8]), Fault>
    ensures read { Reads (λ x. (x.0.items, x.1.now)) result (rows_after (λ _. K.reader keys.old) [] count bytes.now) }
    ensures after { IfOk result (λ x. keys.new ≡ fold K.after keys.old x.0.items) }
{
    let mut found = Vec::new(alloc);
    let mut rest = bytes;
    for _ in 0..count {
        let (key, after) = keys.read(alloc, rest)?;
        found.push(key)?;
        rest = after;
    }
    Ok((found, rest))
}

/// A path of so many keys.
#[tactic(auto, unfolding(crate::specs::PackedReading::packed_path_at))]
fn read_path<'a, K: KeySource>(
    alloc: Global,
    keys: &mut K,
    count: u8,
    bytes: &'a [u8],
) -> Result<(Path, &'a [u8]), Fault>
    ensures read { Reads (λ x. (x.0, x.1.now)) result (packed_path_at (K.reader keys.old) count bytes.now) }
    ensures after { IfOk result (λ x. keys.new ≡ fold K.after keys.old x.0) }
{
    let (found, rest) = read_keys(alloc, keys, count, bytes)?;
    match Path::from_keys(found) {
        Ok(path) => Ok((path, rest)),
        Err(Fault::Memory) => Err(Fault::Memory),
        Err(_) => Err(Fault::Bad),
    }
}

/// An entry, wherever its keys come from.
#[tactic(auto, unfolding(crate::specs::PackedReading::packed_entry_at))]
pub fn read_entry<'a, K: KeySource>(
    alloc: Global,
    keys: &mut K,
    bytes: &'a [u8],
) -> Result<(Entry, &'a [u8]), Fault>
    ensures read { Reads (λ x. (x.0, x.1.now)) result (packed_entry_at (K.reader keys.old) bytes.now) }
    ensures after { IfOk result (λ x. keys.new ≡ fold K.after keys.old x.0.path) }
{
    let (head, rest) = read_head(bytes)?;
    let (path, rest) = read_path(alloc, keys, head % 8 + 1, rest)?;
    let (value, rest) = read_payload(alloc, head / 16, rest)?;
    match Entry::new(path, head_kind(head), value) {
        Ok(entry) => Ok((entry, rest)),
        Err(_) => Err(Fault::Bad),
    }
}

/// The length of numbers, each packed.
fn numbers_length(mut numbers: &[u32]) -> usize
    requires { length numbers.now ≤ 8 }
    ensures length { result ≡ length (packed_numbers_text numbers.entry.now) }
    ensures most { result ≤ 56 }
{
    let mut total = 0;
    'measuring: loop {
        let (number, later) = match numbers.split_first() {
            Some(parts) => parts,
            None => return total,
        };
        total += packed_length(u64::from(*number));
        numbers = later;
    }
}

/// The length of an entry with these numbers in place of its keys.
pub fn entry_length(entry: &Entry, numbers: &[u32]) -> usize
    requires { length numbers.now ≡ length entry.now.path }
    ensures length { result ≡ length (numbers_entry_text entry.now numbers.now) }
    ensures most { result ≤ 1088 }
{
    1 + numbers_length(numbers) + payload_length(&entry.value)
}

/// Numbers, each packed.
fn put_numbers(out: &mut Vec<u8>, mut numbers: &[u32]) -> Result<(), AllocError>
    ensures { Adds out.old.items out.new.items (packed_numbers_text numbers.entry.now) result }
{
    'writing: loop {
        let (number, later) = match numbers.split_first() {
            Some(parts) => parts,
            None => return Ok(()),
        };
        put_packed(out, u64::from(*number))?;
        numbers = later;
    }
}

/// An entry with these numbers in place of its keys.
pub fn put_entry(out: &mut Vec<u8>, entry: &Entry, numbers: &[u32]) -> Result<(), AllocError>
    ensures { Adds out.old.items out.new.items (numbers_entry_text entry.now numbers.now) result }
{
    put_byte(out, entry_head(entry))?;
    put_numbers(out, numbers)?;
    put_payload(out, &entry.value)
}
