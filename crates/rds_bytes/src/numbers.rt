//! Bytes, and numbers of one, two, four and eight bytes, big-endian.
ghost use Rattle.std.specs.Int.{w16, w32, w64, to_be_bytes};
ghost use Rattle.rds_bytes.specs.Reading.{ReadsExactly, byte_at, number_at, bytes_at, when_at, is_between};
ghost use Rattle.rds_bytes.specs.Spelling.{byte_text};
ghost use Rattle.rds_bytes.specs.Writing.{Adds};

use byteorder::{BigEndian, ByteOrder};
use rds_names::Fault;
use std::alloc::AllocError;

/// A byte.
pub fn read_byte(bytes: &[u8]) -> Result<(u8, &[u8]), Fault>
    ensures { ReadsExactly (λ x. (x.0, x.1.now)) result (byte_at bytes.now) }
{
    match bytes {
        [] => Err(Fault::Cut),
        [byte, rest @ ..] => Ok((*byte, rest)),
    }
}

/// As many bytes as are asked for.
pub fn read_bytes(count: usize, bytes: &[u8]) -> Result<(&[u8], &[u8]), Fault>
    ensures { ReadsExactly (λ x. (x.0.now, x.1.now)) result (bytes_at count bytes.now) }
{
    if bytes.len() < count {
        return Err(Fault::Cut);
    }
    Ok(bytes.split_at(count))
}

/// A number of two bytes.
pub fn read_u16(bytes: &[u8]) -> Result<(u16, &[u8]), Fault>
    ensures { ReadsExactly (λ x. (x.0, x.1.now)) result (number_at w16 bytes.now) }
{
    if bytes.len() < 2 {
        return Err(Fault::Cut);
    }
    let (front, rest) = bytes.split_at(2);
    let number = u16::from_be_bytes([front[0], front[1]]);
    Ok((number, rest))
}

/// A number of four bytes.
pub fn read_u32(bytes: &[u8]) -> Result<(u32, &[u8]), Fault>
    ensures { ReadsExactly (λ x. (x.0, x.1.now)) result (number_at w32 bytes.now) }
{
    if bytes.len() < 4 {
        return Err(Fault::Cut);
    }
    let (front, rest) = bytes.split_at(4);
    let number = u32::from_be_bytes([front[0], front[1], front[2], front[3]]);
    Ok((number, rest))
}

/// A number of eight bytes.
pub fn read_u64(bytes: &[u8]) -> Result<(u64, &[u8]), Fault>
    ensures { ReadsExactly (λ x. (x.0, x.1.now)) result (number_at w64 bytes.now) }
{
    if bytes.len() < 8 {
        return Err(Fault::Cut);
    }
    let (front, rest) = bytes.split_at(8);
    let number = u64::from_be_bytes([
        front[0], front[1], front[2], front[3], front[4], front[5], front[6], front[7],
    ]);
    Ok((number, rest))
}

/// A byte from one number to another.
pub fn read_length(least: u8, most: u8, bytes: &[u8]) -> Result<(u8, &[u8]), Fault>
    ensures { ReadsExactly (λ x. (x.0, x.1.now)) result (when_at (is_between least most) byte_at bytes.now) }
{
    let (length, rest) = read_byte(bytes)?;
    if length < least || most < length {
        return Err(Fault::Bad);
    }
    Ok((length, rest))
}

/// These bytes.
pub fn put(out: &mut Vec<u8>, bytes: &[u8]) -> Result<(), AllocError>
    ensures { Adds out.old.items out.new.items bytes.now result }
{
    out.extend_from_slice(bytes)?;
    Ok(())
}

/// A byte.
pub fn put_byte(out: &mut Vec<u8>, byte: u8) -> Result<(), AllocError>
    ensures { Adds out.old.items out.new.items (byte_text byte) result }
{
    put(out, &[byte])
}

/// A number of two bytes.
pub fn put_u16(out: &mut Vec<u8>, number: u16) -> Result<(), AllocError>
    ensures { Adds out.old.items out.new.items (to_be_bytes w16 number) result }
{
    let mut bytes = [0u8; 2];
    BigEndian::write_u16(&mut bytes, number);
    put(out, &bytes)
}

/// A number of four bytes.
pub fn put_u32(out: &mut Vec<u8>, number: u32) -> Result<(), AllocError>
    ensures { Adds out.old.items out.new.items (to_be_bytes w32 number) result }
{
    let mut bytes = [0u8; 4];
    BigEndian::write_u32(&mut bytes, number);
    put(out, &bytes)
}

/// A number of eight bytes.
pub fn put_u64(out: &mut Vec<u8>, number: u64) -> Result<(), AllocError>
    ensures { Adds out.old.items out.new.items (to_be_bytes w64 number) result }
{
    let mut bytes = [0u8; 8];
    BigEndian::write_u64(&mut bytes, number);
    put(out, &bytes)
}
