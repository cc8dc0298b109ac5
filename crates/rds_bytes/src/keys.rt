//! A key, which is a short string.
ghost use Rattle.std.specs.Prelude.{◌≡◌, true, ◌≤◌, length};
ghost use Rattle.rds_bytes.specs.Reading.{Reads, key_at};
ghost use Rattle.rds_bytes.specs.Values.{is_key_text};
ghost use Rattle.rds_bytes.specs.Spelling.{short_text};
ghost use Rattle.rds_bytes.specs.Writing.{Adds};

use crate::numbers::{put, put_byte};
use crate::strings::read_short;
use rds_names::{Fault, Key};
use std::alloc::{AllocError, Global};

/// A key.
#[tactic(auto, unfolding(crate::specs::Reading::key_at))]
pub fn read_key(alloc: Global, bytes: &[u8]) -> Result<(Key, &[u8]), Fault>
    ensures { Reads (λ x. (x.0, x.1.now)) result (key_at bytes.now) }
{
    let (text, rest) = read_short(1, 64, bytes)?;
    match Key::new(alloc, text) {
        Ok(key) => Ok((key, rest)),
        Err(Fault::Memory) => Err(Fault::Memory),
        Err(_) => Err(Fault::Bad),
    }
}

/// The length of a key's text.
pub fn key_length(key: &Key) -> usize
    ensures length { result ≡ length (short_text key.now) }
    ensures most { result ≤ 65 }
    ensures is_key { is_key_text key.now ≡ true }
{
    1 + key.as_bytes().len()
}

/// A key.
pub fn put_key(out: &mut Vec<u8>, key: &Key) -> Result<(), AllocError>
    ensures { Adds out.old.items out.new.items (short_text key.now) result }
{
    put_byte(out, key.as_bytes().len() as u8)?;
    put(out, key.as_bytes())
}
