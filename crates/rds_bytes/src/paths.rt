//! A path: how many keys it has, and the keys.
ghost use Rattle.std.specs.Prelude.{◌≡◌, true, ◌≤◌, [], length, fold, IfOk};
ghost use Rattle.std.specs.List.{flat_map, list_all};
ghost use Rattle.rds_bytes.specs.Reading.{Reads, rows_after, keyed_path_at};
ghost use Rattle.rds_bytes.specs.Values.{is_key_text};
ghost use Rattle.rds_bytes.specs.Spelling.{short_text};
ghost use Rattle.rds_bytes.specs.Writing.{Adds};

use crate::keys::{key_length, put_key};
use crate::numbers::read_length;
use crate::sources::KeySource;
use rds_names::{Fault, Key, Path};
use std::alloc::{AllocError, Global};

/// As many keys as are asked for. Room is made for each as it comes.
fn read_keys<'a, K: KeySource>(
    alloc: Global,
    keys: &mut K,
    count: u8,
    bytes: &'a [u8],
) -> Result<(Vec<Key>, &'a [u8]), Fault>
    ensures read { Reads (λ x. (x.0.items, x.1.now)) result (rows_after (λ _. K.reader keys.old) [] count bytes.now) }
    ensures after { IfOk result (λ x. keys.new ≡ fold K.after keys.old x.0.items) }
{
    let mut found = Vec::new(alloc);
    let mut rest = bytes;
    for _ in 0..count {
        let (key, after) = keys.read(alloc, rest)?;
        found.push(key)?;
        rest = after;
    }
    Ok((found, rest))
}

/// A path of 1 to 8 keys.
#[tactic(auto, unfolding(crate::specs::Reading::keyed_path_at))]
pub fn read_path<'a, K: KeySource>(
    alloc: Global,
    keys: &mut K,
    bytes: &'a [u8],
) -> Result<(Path, &'a [u8]), Fault>
    ensures read { Reads (λ x. (x.0, x.1.now)) result (keyed_path_at (K.reader keys.old) bytes.now) }
    ensures after { IfOk result (λ x. keys.new ≡ fold K.after keys.old x.0) }
{
    let (count, rest) = read_length(1, 8, bytes)?;
    let (found, rest) = read_keys(alloc, keys, count, rest)?;
    match Path::from_keys(found) {
        Ok(path) => Ok((path, rest)),
        Err(Fault::Memory) => Err(Fault::Memory),
        Err(_) => Err(Fault::Bad),
    }
}

/// The length of the keys, without their number.
pub fn keys_length(keys: &[Key]) -> usize
    requires { length keys.now ≤ 8 }
    ensures length { result ≡ length (flat_map short_text keys.now) }
    ensures most { result ≤ 520 }
    ensures are_keys { list_all is_key_text keys.now ≡ true }
{
    let mut total = 0;
    for key in keys {
        total += key_length(key);
    }
    total
}

/// The keys, without their number.
pub fn put_keys(out: &mut Vec<u8>, keys: &[Key]) -> Result<(), AllocError>
    ensures { Adds out.old.items out.new.items (flat_map short_text keys.now) result }
{
    for key in keys {
        put_key(out, key)?;
    }
    Ok(())
}
