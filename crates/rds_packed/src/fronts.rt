//! A key after another, whose front it shares.
ghost use Rattle.std.specs.Prelude.{◌≡◌, ◌≤◌, ◌+◌, ◌++◌, nat_le, true, length, IfOk, IfErr};
ghost use Rattle.rds_names.specs.declared.fault.Fault.TheVariants.{Memory};
ghost use Rattle.rds_bytes.specs.Reading.{Reads, ReadsExactly, when_at, is_between, byte_at};
ghost use Rattle.rds_bytes.specs.Values.{is_key_text};
ghost use Rattle.rds_bytes.specs.Writing.{Adds};
ghost use Rattle.rds_packed.specs.FrontTexts.{shared, front_text, own_at, is_front, front_bytes_at, front_key_at};

use crate::scalars::{read_bytes, text_of};
use rds_bytes::{key_length, put_byte, read_byte};
use rds_names::{Fault, Key};
use std::alloc::{AllocError, Global};

/// How many bytes two keys have in common before they differ.
fn shared(before: &[u8], key: &[u8]) -> usize
    ensures shared { result ≡ shared before.now key.now }
    ensures own { result ≤ length key.now }
    ensures other { result ≤ length before.now }
{
    let mut count = 0;
    'sharing: while count < before.len() && count < key.len() {
        if before[count] != key[count] {
            return count;
        }
        count += 1;
    }
    count
}

/// The length of a key after another.
pub fn front_length(before: &[u8], key: &Key) -> usize
    ensures length { result ≡ length (front_text before.now key.now) }
    ensures most { result ≤ 66 }
    ensures is_key { is_key_text key.now ≡ true }
{
    let count = shared(before, key.as_bytes());
    1 + key_length(key) - count
}

/// A key after another.
pub fn put_front(out: &mut Vec<u8>, before: &[u8], key: &Key) -> Result<(), AllocError>
    ensures { Adds out.old.items out.new.items (front_text before.now key.now) result }
{
    let bytes = key.as_bytes();
    let count = shared(before, bytes);
    let (_front, own) = bytes.split_at(count);
    put_byte(out, count as u8)?;
    put_byte(out, own.len() as u8)?;
    out.extend_from_slice(own)?;
    Ok(())
}

/// How many bytes of the key before are shared.
fn read_count<'a>(before: &[u8], bytes: &'a [u8]) -> Result<(u8, &'a [u8]), Fault>
    ensures { ReadsExactly (λ x. (x.0, x.1.now)) result
        (when_at (λ n. nat_le n (length before.now)) byte_at bytes.now) }
{
    let (count, rest) = read_byte(bytes)?;
    if usize::from(count) > before.len() {
        return Err(Fault::Bad);
    }
    Ok((count, rest))
}

/// How many bytes follow those that are shared: a key has 1 to 64 with them.
fn read_length(count: u8, bytes: &[u8]) -> Result<(u8, &[u8]), Fault>
    ensures { ReadsExactly (λ x. (x.0, x.1.now)) result
        (when_at (λ n. is_between 1 64 (count + n)) byte_at bytes.now) }
{
    let (length, rest) = read_byte(bytes)?;
    let whole = u16::from(count) + u16::from(length);
    if whole < 1 || 64 < whole {
        return Err(Fault::Bad);
    }
    Ok((length, rest))
}

/// The bytes that follow those that are shared.
fn read_own(count: u8, bytes: &[u8]) -> Result<(&[u8], &[u8]), Fault>
    ensures { ReadsExactly (λ x. (x.0.now, x.1.now)) result (own_at count bytes.now) }
{
    let (length, rest) = read_length(count, bytes)?;
    let (own, rest) = read_bytes(usize::from(length), rest)?;
    Ok((own, rest))
}

/// Whether bytes that follow so many of the key before share no more of it.
fn is_front(before: &[u8], count: u8, own: &[u8]) -> bool
    requires { count ≤ length before.now }
    ensures { result ≡ is_front before.now (count, own.now) }
{
    let (_front, later) = before.split_at(usize::from(count));
    shared(later, own) == 0
}

/// The bytes of a front and those that follow it.
fn join(alloc: Global, front: &[u8], own: &[u8]) -> Result<Vec<u8>, Fault>
    ensures ok { IfOk result (λ bytes. bytes.items ≡ front.now ++ own.now) }
    ensures memory { IfErr result (λ fault. fault ≡ Memory) }
{
    let mut bytes = Vec::new(alloc);
    bytes.extend_from_slice(front)?;
    bytes.extend_from_slice(own)?;
    Ok(bytes)
}

/// The bytes of a key that comes after another.
#[tactic(auto, unfolding(crate::specs::FrontTexts::front_bytes_at))]
fn read_joined<'a>(
    alloc: Global,
    before: &[u8],
    bytes: &'a [u8],
) -> Result<(Vec<u8>, &'a [u8]), Fault>
    ensures { Reads (λ x. (x.0.items, x.1.now)) result (front_bytes_at before.now bytes.now) }
{
    let (count, rest) = read_count(before, bytes)?;
    let (own, rest) = read_own(count, rest)?;
    if !is_front(before, count, own) {
        return Err(Fault::Bad);
    }
    let (front, _later) = before.split_at(usize::from(count));
    let joined = join(alloc, front, own)?;
    Ok((joined, rest))
}

/// A key that comes after another.
#[tactic(auto, unfolding(crate::specs::FrontTexts::front_key_at))]
pub fn read_front<'a>(
    alloc: Global,
    before: &[u8],
    bytes: &'a [u8],
) -> Result<(Key, &'a [u8]), Fault>
    ensures { Reads (λ x. (x.0, x.1.now)) result (front_key_at before.now bytes.now) }
{
    let (joined, rest) = read_joined(alloc, before, bytes)?;
    let text = text_of(&joined)?;
    match Key::new(alloc, text) {
        Ok(key) => Ok((key, rest)),
        Err(Fault::Memory) => Err(Fault::Memory),
        Err(_) => Err(Fault::Bad),
    }
}
