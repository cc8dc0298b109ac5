//! UTF-8 after its length, which is one byte (short) or two.
ghost use Rattle.std.specs.Prelude.{◌≡◌, true, false, MatchResult, ◌<◌, ◌^◌, length};
ghost use Rattle.std.specs.Int.{w16};
ghost use Rattle.std.specs.Str.{is_utf8};
ghost use Rattle.rds_names.specs.declared.fault.Fault.TheVariants.{Bad};
ghost use Rattle.rds_bytes.specs.Reading.{ReadsExactly, number_at, short_at, when_at, is_between, text_at};
ghost use Rattle.rds_bytes.specs.Spelling.{short_text, text_text};
ghost use Rattle.rds_bytes.specs.Writing.{Adds};

use crate::numbers::{put, put_byte, put_u16, read_bytes, read_length, read_u16};
use rds_names::Fault;
use std::alloc::AllocError;

/// The bytes as text.
pub fn text_of(bytes: &[u8]) -> Result<&str, Fault>
    ensures { MatchResult result (λ text. (text.now ≡ bytes.now) × (is_utf8 bytes.now ≡ true))
        (λ fault. (fault ≡ Bad) × (is_utf8 bytes.now ≡ false)) }
{
    match str::from_utf8(bytes) {
        Ok(text) => Ok(text),
        Err(_) => Err(Fault::Bad),
    }
}

/// A text after a byte of length, which is from one number to another.
#[tactic(auto, unfolding(crate::specs::Reading::short_at))]
pub fn read_short(least: u8, most: u8, bytes: &[u8]) -> Result<(&str, &[u8]), Fault>
    ensures { ReadsExactly (λ x. (x.0.now, x.1.now)) result (short_at least most bytes.now) }
{
    let (length, rest) = read_length(least, most, bytes)?;
    let (text, rest) = read_bytes(usize::from(length), rest)?;
    let text = text_of(text)?;
    Ok((text, rest))
}

fn read_text_length(bytes: &[u8]) -> Result<(u16, &[u8]), Fault>
    ensures { ReadsExactly (λ x. (x.0, x.1.now)) result (when_at (is_between 0 1024) (number_at w16) bytes.now) }
{
    let (length, rest) = read_u16(bytes)?;
    if 1024 < length {
        return Err(Fault::Bad);
    }
    Ok((length, rest))
}

/// A text after two bytes of length, which is at most 1024.
#[tactic(auto, unfolding(crate::specs::Reading::text_at))]
pub fn read_text(bytes: &[u8]) -> Result<(&str, &[u8]), Fault>
    ensures { ReadsExactly (λ x. (x.0.now, x.1.now)) result (text_at bytes.now) }
{
    let (length, rest) = read_text_length(bytes)?;
    let (text, rest) = read_bytes(usize::from(length), rest)?;
    let text = text_of(text)?;
    Ok((text, rest))
}

/// A text after its length in a byte.
pub fn put_short(out: &mut Vec<u8>, text: &str) -> Result<(), AllocError>
    requires { length text.now < 256 }
    ensures { Adds out.old.items out.new.items (short_text text.now) result }
{
    put_byte(out, text.len() as u8)?;
    put(out, text.as_bytes())
}

/// A text after its length in two bytes.
pub fn put_text(out: &mut Vec<u8>, text: &str) -> Result<(), AllocError>
    requires { length text.now < 2 ^ 16 }
    ensures { Adds out.old.items out.new.items (text_text text.now) result }
{
    put_u16(out, text.len() as u16)?;
    put(out, text.as_bytes())
}
