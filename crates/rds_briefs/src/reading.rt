//! The lives of dots in a row, read into a set.
//!
//! What is read here is written again and compared where a brief is judged. So each contract says only that what is
//! written is read again; what is no text may be read as anything, or be refused.
ghost use Rattle.std.specs.Prelude.{◌≡◌, ◌≤◌, ◌<◌, ◌+◌, ℕ, List, ◌++◌, length, IfOk};
ghost use Rattle.rds_dots.specs.declared.dot.TheConstants.{MAX_SEQ};
ghost use Rattle.rds_bytes.specs.declared.packed.TheConstants.{MAX_PACKED};
ghost use Rattle.rds_bytes.specs.Packed.{packed_text};
ghost use Rattle.rds_briefs.specs.Lives.{Lives, byte_from};
ghost use Rattle.rds_briefs.specs.BriefTexts.{lengths_text, bits_text, lives_text};
ghost use Rattle.rds_briefs.specs.ReadLives.{HasLives};
ghost use Rattle.rds_briefs.specs.Readers.{OrMemory};

use crate::writing::in_a_byte;
use rds_bytes::{packed_numbers_have_one_text, read_byte, read_packed};
use rds_dots::{Dot, DotSet, Run};
use rds_names::Fault;

/// A packed number, and the bytes after it.
pub fn take_packed(bytes: &[u8]) -> Result<(u64, &[u8]), Fault>
    ensures text { (n : ℕ) (rest : List ℕ) → n ≤ MAX_PACKED → bytes.now ≡ packed_text n ++ rest
        → OrMemory (λ x. (x.0 ≡ n) × (x.1.now ≡ rest)) result }
    ensures fewer { IfOk result (λ x. length x.1.now < length bytes.now) }
{
    packed_numbers_have_one_text();
    let (number, rest) = read_packed(bytes)?;
    Ok((number, rest))
}

/// Reads the lengths of stretches of so many dots from one on, and puts the live ones into the set.
fn read_lengths<'a, S: DotSet>(
    live: &mut S,
    first: Dot,
    count: u64,
    bytes: &'a [u8],
) -> Result<&'a [u8], Fault>
    requires from_one { 1 ≤ first.seq }
    requires some { 1 ≤ count }
    requires most { first.seq + count ≤ MAX_SEQ + 1 }
    ensures { (f : Lives) (rest : List ℕ) → bytes.now ≡ lengths_text f first.seq count ++ rest
        → OrMemory (λ left. (left.now ≡ rest)
        × HasLives f first.replica first.seq count (S.contents live.old) (S.contents live.new)) result }
{
    let mut rest = bytes;
    let mut seq = first.seq;
    let mut left = count;
    let mut is_live = true;
    'reading: while left > 0 {
        let (length, after) = take_packed(rest)?;
        if left < length {
            return Err(Fault::Bad);
        }
        put_stretch(live, first.replica, seq, length, is_live)?;
        rest = after;
        seq += length;
        left -= length;
        is_live = !is_live;
    }
    Ok(rest)
}

/// Puts so many dots of a replica from one on into the set, if they are live.
fn put_stretch<S: DotSet>(
    live: &mut S,
    replica: u8,
    seq: u64,
    length: u64,
    is_live: bool,
) -> Result<(), Fault>
    requires from_one { 1 ≤ seq }
    requires most { seq + length ≤ MAX_SEQ + 1 }
    ensures { OrMemory (λ _. HasLives (λ _. is_live) replica seq length (S.contents live.old) (S.contents live.new))
        result }
{
    if !is_live || length == 0 {
        return Ok(());
    }
    live.insert_run(Run {
        replica,
        lo: seq,
        hi: seq + length - 1,
    })
}

/// Puts those of so many dots from one on that the bits of a byte tell, the first one lowest, into the set.
fn put_byte<S: DotSet>(live: &mut S, first: Dot, count: u64, byte: u8) -> Result<(), Fault>
    requires from_one { 1 ≤ first.seq }
    requires most { first.seq + count ≤ MAX_SEQ + 1 }
    ensures { (f : Lives) → byte ≡ byte_from f first.seq count
        → OrMemory (λ _. HasLives f first.replica first.seq count (S.contents live.old) (S.contents live.new)) result }
{
    let mut seq = first.seq;
    let mut left = count;
    let mut bits = byte;
    'reading: while left > 0 {
        put_stretch(live, first.replica, seq, 1, bits % 2 == 1)?;
        bits /= 2;
        seq += 1;
        left -= 1;
    }
    Ok(())
}

/// Reads the bits of so many dots from one on, and puts the live ones into the set.
fn read_bits<'a, S: DotSet>(
    live: &mut S,
    first: Dot,
    count: u64,
    bytes: &'a [u8],
) -> Result<&'a [u8], Fault>
    requires from_one { 1 ≤ first.seq }
    requires most { first.seq + count ≤ MAX_SEQ + 1 }
    ensures { (f : Lives) (rest : List ℕ) → bytes.now ≡ bits_text f first.seq count ++ rest
        → OrMemory (λ left. (left.now ≡ rest)
        × HasLives f first.replica first.seq count (S.contents live.old) (S.contents live.new)) result }
{
    let mut rest = bytes;
    let mut seq = first.seq;
    let mut left = count;
    'reading: while left > 0 {
        let (byte, after) = read_byte(rest)?;
        let here = Dot {
            replica: first.replica,
            seq,
        };
        let many = in_a_byte(left);
        put_byte(live, here, many, byte)?;
        rest = after;
        seq += many;
        left -= many;
    }
    Ok(rest)
}

/// Reads the lives of so many dots from one on, and puts the live ones into the set.
pub fn read_lives<'a, S: DotSet>(
    live: &mut S,
    first: Dot,
    count: u64,
    bytes: &'a [u8],
) -> Result<&'a [u8], Fault>
    requires from_one { 1 ≤ first.seq }
    requires some { 1 ≤ count }
    requires most { first.seq + count ≤ MAX_SEQ + 1 }
    ensures { (f : Lives) (rest : List ℕ) → bytes.now ≡ lives_text f first.seq count ++ rest
        → OrMemory (λ left. (left.now ≡ rest)
        × HasLives f first.replica first.seq count (S.contents live.old) (S.contents live.new)) result }
{
    let (form, rest) = read_byte(bytes)?;
    if form == 0 {
        return read_lengths(live, first, count, rest);
    }
    if form == 1 {
        return read_bits(live, first, count, rest);
    }
    Err(Fault::Bad)
}
