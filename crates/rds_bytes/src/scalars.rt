//! A scalar: its tag, and what it holds.
ghost use Rattle.std.specs.Prelude.{◌≡◌, ◌≤◌, length};
ghost use Rattle.std.specs.Int.{w64, to_be_bytes, cast_unsigned};
ghost use Rattle.rds_bytes.specs.Reading.{Reads, ReadsExactly, int_at, text_scalar_at, scalar_at};
ghost use Rattle.rds_bytes.specs.Values.{IsScalar};
ghost use Rattle.rds_bytes.specs.Spelling.{scalar_text};
ghost use Rattle.rds_bytes.specs.Writing.{Adds};

use crate::numbers::{put_byte, put_u64, read_byte, read_u64};
use crate::strings::{put_text, read_text};
use rds_names::{Fault, Scalar};
use std::alloc::{AllocError, Global};

#[tactic(auto, unfolding(crate::specs::Reading::int_at))]
fn read_int(bytes: &[u8]) -> Result<(i64, &[u8]), Fault>
    ensures { ReadsExactly (λ x. (x.0, x.1.now)) result (int_at bytes.now) }
{
    let (number, rest) = read_u64(bytes)?;
    Ok((number.cast_signed(), rest))
}

#[tactic(auto, unfolding(crate::specs::Reading::text_scalar_at))]
fn read_text_scalar(alloc: Global, bytes: &[u8]) -> Result<(Scalar, &[u8]), Fault>
    ensures { Reads (λ x. (x.0, x.1.now)) result (text_scalar_at bytes.now) }
{
    let (text, rest) = read_text(bytes)?;
    match Scalar::text(alloc, text) {
        Ok(scalar) => Ok((scalar, rest)),
        Err(Fault::Memory) => Err(Fault::Memory),
        Err(_) => Err(Fault::Bad),
    }
}

/// A scalar.
#[tactic(auto, unfolding(crate::specs::Reading::scalar_at))]
pub fn read_scalar(alloc: Global, bytes: &[u8]) -> Result<(Scalar, &[u8]), Fault>
    ensures { Reads (λ x. (x.0, x.1.now)) result (scalar_at bytes.now) }
{
    let (tag, rest) = read_byte(bytes)?;
    match tag {
        0 => Ok((Scalar::Null, rest)),
        1 => Ok((Scalar::Bool(false), rest)),
        2 => Ok((Scalar::Bool(true), rest)),
        3 => {
            let (number, rest) = read_int(rest)?;
            Ok((Scalar::Int(number), rest))
        }
        4 => {
            let (scalar, rest) = read_text_scalar(alloc, rest)?;
            Ok((scalar, rest))
        }
        _ => Err(Fault::Bad),
    }
}

/// The length of a scalar.
pub fn scalar_length(value: &Scalar) -> usize
    ensures length { result ≡ length (scalar_text value.now) }
    ensures most { result ≤ 1027 }
    ensures is_scalar { IsScalar value.now }
{
    match value {
        Scalar::Null | Scalar::Bool(_) => 1,
        Scalar::Int(number) => {
            // An i64: its range shows where it is read.
            let _number = *number;
            9
        }
        Scalar::Text(text) => 3 + text.as_str().len(),
    }
}

fn put_int(out: &mut Vec<u8>, number: i64) -> Result<(), AllocError>
    ensures { Adds out.old.items out.new.items (to_be_bytes w64 (cast_unsigned w64 number)) result }
{
    put_u64(out, number.cast_unsigned())
}

/// A scalar.
pub fn put_scalar(out: &mut Vec<u8>, value: &Scalar) -> Result<(), AllocError>
    ensures { Adds out.old.items out.new.items (scalar_text value.now) result }
{
    match value {
        Scalar::Null => put_byte(out, 0),
        Scalar::Bool(false) => put_byte(out, 1),
        Scalar::Bool(true) => put_byte(out, 2),
        Scalar::Int(number) => {
            put_byte(out, 3)?;
            put_int(out, *number)
        }
        Scalar::Text(text) => {
            put_byte(out, 4)?;
            put_text(out, text.as_str())
        }
    }
}
