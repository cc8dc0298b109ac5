//! What a scalar has beside its tag.
ghost use Rattle.std.specs.Prelude.{◌≡◌, ◌≤◌, ◌++◌, length, true, false, MatchResult};
ghost use Rattle.std.specs.Str.{is_utf8};
ghost use Rattle.rds_names.specs.declared.fault.Fault.TheVariants.{Bad};
ghost use Rattle.rds_names.specs.declared.scalar.Scalar.TheVariants.{Int};
ghost use Rattle.rds_bytes.specs.Packed.{packed_at, packed_text};
ghost use Rattle.rds_bytes.specs.Reading.{Reads, ReadsExactly, made_at, when_at, is_between, bytes_at, int_at};
ghost use Rattle.rds_bytes.specs.Writing.{Adds};
ghost use Rattle.rds_packed.specs.PackedReading.{
  packed_string_at,
  packed_text_scalar_at,
  wide_at,
  rising_scalar,
  falling_scalar,
  payload_at,
};
ghost use Rattle.rds_packed.specs.PackedTexts.{value_tag, payload_text};
ghost use Rattle.rds_packed.specs.Wholes.{IsWholeOf};

use rds_bytes::{MAX_PACKED, packed_length, put_packed, put_u64, read_packed, read_u64};
use rds_names::{Fault, Scalar};
use std::alloc::{AllocError, Global};

/// How a whole number is written.
#[derive(Clone, Copy)]
pub enum Whole {
    /// Packed: it is 0 or more.
    Rising(u64),
    /// As its packed distance from -1, which is 0 or more.
    Falling(u64),
    /// As eight bytes.
    Wide(u64),
}

/// How a whole number is written.
fn whole_of(number: i64) -> Whole
    ensures { IsWholeOf number result }
{
    let bits = number.cast_unsigned();
    if bits <= MAX_PACKED {
        return Whole::Rising(bits);
    }
    let down = u64::MAX - bits;
    if down <= MAX_PACKED {
        return Whole::Falling(down);
    }
    Whole::Wide(bits)
}

fn int_tag(number: i64) -> u8
    ensures tag { result ≡ value_tag (Int number) }
    ensures most { result ≤ 6 }
{
    match whole_of(number) {
        Whole::Rising(_) => 4,
        Whole::Falling(_) => 5,
        Whole::Wide(_) => 6,
    }
}

/// The tag of a scalar.
pub fn value_tag(value: &Scalar) -> u8
    ensures tag { result ≡ value_tag value.now }
    ensures most { result ≤ 6 }
{
    match value {
        Scalar::Null => 0,
        Scalar::Bool(false) => 1,
        Scalar::Bool(true) => 2,
        Scalar::Text(_) => 3,
        Scalar::Int(number) => int_tag(*number),
    }
}

/// The bytes as text.
pub fn text_of(bytes: &[u8]) -> Result<&str, Fault>
    ensures { MatchResult result (λ text. (text.now ≡ bytes.now) × (is_utf8 bytes.now ≡ true))
        (λ fault. (fault ≡ Bad) × (is_utf8 bytes.now ≡ false)) }
{
    match str::from_utf8(bytes) {
        Ok(text) => Ok(text),
        Err(_) => Err(Fault::Bad),
    }
}

fn read_text_length(bytes: &[u8]) -> Result<(u64, &[u8]), Fault>
    ensures { ReadsExactly (λ x. (x.0, x.1.now)) result (when_at (is_between 0 1024) packed_at bytes.now) }
{
    let (length, rest) = read_packed(bytes)?;
    if 1024 < length {
        return Err(Fault::Bad);
    }
    Ok((length, rest))
}

/// As many bytes as are asked for.
pub fn read_bytes(count: usize, bytes: &[u8]) -> Result<(&[u8], &[u8]), Fault>
    ensures { ReadsExactly (λ x. (x.0.now, x.1.now)) result (bytes_at count bytes.now) }
{
    if bytes.len() < count {
        return Err(Fault::Cut);
    }
    Ok(bytes.split_at(count))
}

/// A text after its packed length.
#[tactic(auto, unfolding(crate::specs::PackedReading::packed_string_at))]
fn read_string(bytes: &[u8]) -> Result<(&str, &[u8]), Fault>
    ensures { ReadsExactly (λ x. (x.0.now, x.1.now)) result (packed_string_at bytes.now) }
{
    let (length, rest) = read_text_length(bytes)?;
    let (text, rest) = read_bytes(length as usize, rest)?;
    let text = text_of(text)?;
    Ok((text, rest))
}

#[tactic(auto, unfolding(crate::specs::PackedReading::packed_text_scalar_at))]
fn read_text_scalar(alloc: Global, bytes: &[u8]) -> Result<(Scalar, &[u8]), Fault>
    ensures { Reads (λ x. (x.0, x.1.now)) result (packed_text_scalar_at bytes.now) }
{
    let (text, rest) = read_string(bytes)?;
    match Scalar::text(alloc, text) {
        Ok(scalar) => Ok((scalar, rest)),
        Err(Fault::Memory) => Err(Fault::Memory),
        Err(_) => Err(Fault::Bad),
    }
}

#[tactic(auto, unfolding(rds_bytes::specs::Reading::int_at))]
fn read_int(bytes: &[u8]) -> Result<(i64, &[u8]), Fault>
    ensures { ReadsExactly (λ x. (x.0, x.1.now)) result (int_at bytes.now) }
{
    let (number, rest) = read_u64(bytes)?;
    Ok((number.cast_signed(), rest))
}

/// A whole number of eight bytes, which isn't packed.
#[tactic(auto, unfolding(crate::specs::PackedReading::wide_at))]
fn read_wide(bytes: &[u8]) -> Result<(i64, &[u8]), Fault>
    ensures { ReadsExactly (λ x. (x.0, x.1.now)) result (wide_at bytes.now) }
{
    let (number, rest) = read_int(bytes)?;
    match whole_of(number) {
        Whole::Wide(_) => Ok((number, rest)),
        _ => Err(Fault::Bad),
    }
}

/// A whole number that is packed.
fn read_rising(bytes: &[u8]) -> Result<(Scalar, &[u8]), Fault>
    ensures { ReadsExactly (λ x. (x.0, x.1.now)) result (made_at rising_scalar packed_at bytes.now) }
{
    let (number, rest) = read_packed(bytes)?;
    Ok((Scalar::Int(number as i64), rest))
}

/// A whole number whose distance from -1 is packed.
fn read_falling(bytes: &[u8]) -> Result<(Scalar, &[u8]), Fault>
    ensures { ReadsExactly (λ x. (x.0, x.1.now)) result (made_at falling_scalar packed_at bytes.now) }
{
    let (number, rest) = read_packed(bytes)?;
    Ok((Scalar::Int(-1 - number as i64), rest))
}

/// What follows a tag.
#[tactic(auto, unfolding(crate::specs::PackedReading::payload_at))]
pub fn read_payload(alloc: Global, tag: u8, bytes: &[u8]) -> Result<(Scalar, &[u8]), Fault>
    ensures { Reads (λ x. (x.0, x.1.now)) result (payload_at tag bytes.now) }
{
    match tag {
        0 => Ok((Scalar::Null, bytes)),
        1 => Ok((Scalar::Bool(false), bytes)),
        2 => Ok((Scalar::Bool(true), bytes)),
        3 => {
            let (scalar, rest) = read_text_scalar(alloc, bytes)?;
            Ok((scalar, rest))
        }
        4 => {
            let (scalar, rest) = read_rising(bytes)?;
            Ok((scalar, rest))
        }
        5 => {
            let (scalar, rest) = read_falling(bytes)?;
            Ok((scalar, rest))
        }
        6 => {
            let (number, rest) = read_wide(bytes)?;
            Ok((Scalar::Int(number), rest))
        }
        _ => Err(Fault::Bad),
    }
}

fn int_length(number: i64) -> usize
    ensures length { result ≡ length (payload_text (Int number)) }
    ensures most { result ≤ 8 }
{
    match whole_of(number) {
        Whole::Rising(n) | Whole::Falling(n) => packed_length(n),
        Whole::Wide(_) => 8,
    }
}

/// The length of what follows the tag of a scalar.
pub fn payload_length(value: &Scalar) -> usize
    ensures length { result ≡ length (payload_text value.now) }
    ensures most { result ≤ 1031 }
{
    match value {
        Scalar::Null | Scalar::Bool(_) => 0,
        Scalar::Int(number) => int_length(*number),
        Scalar::Text(text) => {
            let text = text.as_str();
            packed_length(text.len() as u64) + text.len()
        }
    }
}

fn put_int(out: &mut Vec<u8>, number: i64) -> Result<(), AllocError>
    ensures { Adds out.old.items out.new.items (payload_text (Int number)) result }
{
    match whole_of(number) {
        Whole::Rising(n) | Whole::Falling(n) => put_packed(out, n),
        Whole::Wide(bits) => put_u64(out, bits),
    }
}

fn put_text(out: &mut Vec<u8>, text: &str) -> Result<(), AllocError>
    requires { length text.now ≤ 1024 }
    ensures { Adds out.old.items out.new.items (packed_text (length text.now) ++ text.now) result }
{
    put_packed(out, text.len() as u64)?;
    out.extend_from_slice(text.as_bytes())?;
    Ok(())
}

/// What follows the tag of a scalar.
pub fn put_payload(out: &mut Vec<u8>, value: &Scalar) -> Result<(), AllocError>
    ensures { Adds out.old.items out.new.items (payload_text value.now) result }
{
    match value {
        Scalar::Null | Scalar::Bool(_) => Ok(()),
        Scalar::Int(number) => put_int(out, *number),
        Scalar::Text(text) => put_text(out, text.as_str()),
    }
}
