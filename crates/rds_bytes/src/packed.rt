//! Packed numbers: seven bits a byte, the lowest first, and 128 more on each byte but the last.
ghost use Rattle.std.specs.Prelude.{◌≡◌, ◌≤◌, ◌<◌, ◌^◌, suc, length, IfOk};
ghost use Rattle.rds_bytes.specs.Packed.{packed_up_to, packed_text_up_to, packed_at, packed_text};
ghost use Rattle.rds_bytes.specs.Reading.{ReadsExactly};
ghost use Rattle.rds_bytes.specs.Writing.{Adds};

use crate::numbers::{put_byte, read_byte};
use rds_names::Fault;
use std::alloc::AllocError;

/// The greatest packed number.
pub const MAX_PACKED: u64 = 562_949_953_421_311;

/// The most bytes that come after the first.
const MOST_MORE: u8 = 6;

/// A number of one byte, and so many more at most.
fn read_up_to(more: u8, bytes: &[u8]) -> Result<(u64, &[u8]), Fault>
    requires { more ≤ 6 }
    ensures limit { IfOk result (λ x. x.0 < 128 ^ suc more) }
    ensures read { ReadsExactly (λ x. (x.0, x.1.now)) result (packed_up_to more bytes.now) }
{
    let (byte, rest) = read_byte(bytes)?;
    if byte < 128 {
        return Ok((u64::from(byte), rest));
    }
    if more == 0 {
        return Err(Fault::Bad);
    }
    let (high, rest) = read_up_to(more - 1, rest)?;
    if high == 0 {
        return Err(Fault::Bad);
    }
    Ok((u64::from(byte - 128) + 128 * high, rest))
}

/// A packed number, which has one byte to seven.
pub fn read_packed(bytes: &[u8]) -> Result<(u64, &[u8]), Fault>
    ensures read { ReadsExactly (λ x. (x.0, x.1.now)) result (packed_at bytes.now) }
    ensures most { IfOk result (λ x. x.0 ≤ MAX_PACKED) }
{
    let (number, rest) = read_up_to(MOST_MORE, bytes)?;
    Ok((number, rest))
}

/// The length of a number of one byte, and so many more at most.
fn length_up_to(more: u8, number: u64) -> usize
    requires { number < 128 ^ suc more }
    ensures length { result ≡ length (packed_text_up_to more number) }
    ensures most { result ≤ suc more }
{
    if number < 128 {
        return 1;
    }
    1 + length_up_to(more - 1, number / 128)
}

/// The length of a packed number.
pub fn packed_length(number: u64) -> usize
    requires { number ≤ MAX_PACKED }
    ensures length { result ≡ length (packed_text number) }
    ensures most { result ≤ 7 }
{
    length_up_to(MOST_MORE, number)
}

/// A number of one byte, and so many more at most, below the power of 128 that these can hold.
fn put_up_to(out: &mut Vec<u8>, more: u8, number: u64) -> Result<(), AllocError>
    requires { number < 128 ^ suc more }
    ensures { Adds out.old.items out.new.items (packed_text_up_to more number) result }
{
    if number < 128 {
        return put_byte(out, number as u8);
    }
    put_byte(out, (128 + number % 128) as u8)?;
    put_up_to(out, more - 1, number / 128)
}

/// A packed number.
pub fn put_packed(out: &mut Vec<u8>, number: u64) -> Result<(), AllocError>
    requires { number ≤ MAX_PACKED }
    ensures { Adds out.old.items out.new.items (packed_text number) result }
{
    put_up_to(out, MOST_MORE, number)
}
