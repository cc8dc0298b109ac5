//! Dots, each told from the one before it.
ghost use Rattle.std.specs.Prelude.{◌≡◌, ◌≤◌, length, nat_lt};
ghost use Rattle.std.specs.FinSet as set;
ghost use Rattle.rds_bytes.specs.Packed.{packed_at};
ghost use Rattle.rds_bytes.specs.Reading.{
  ReadsExactly,
  byte_at,
  when_at,
  pair_at,
  made_at,
  dot_by,
  dot_of_row,
  last,
};
ghost use Rattle.rds_bytes.specs.Writing.{Adds};
ghost use Rattle.rds_packed.specs.PackedReading.{dot_before, place_after, packed_dot_at};
ghost use Rattle.rds_packed.specs.PackedTexts.{zeroth_dot, dot_step_text, CanStep};

use rds_bytes::{packed_length, put_byte, put_packed, read_byte, read_packed};
use rds_dots::{Dot, DotSet};
use rds_names::{Entry, Fault};
use std::alloc::AllocError;

/// What the first dot is told from.
pub fn zeroth_dot() -> Dot
    ensures { result ≡ zeroth_dot }
{
    Dot { replica: 0, seq: 0 }
}

/// The dot of the last row, if there is one.
fn last_dot(rows: &[(Dot, Entry)]) -> Option<Dot>
    ensures { result ≡ dot_of_row (last rows.now) }
{
    rows.last().map(|row| row.0)
}

/// What the next dot is told from.
fn dot_before(rows: &[(Dot, Entry)]) -> Dot
    ensures { result ≡ dot_before rows.now }
{
    match last_dot(rows) {
        Some(dot) => dot,
        None => zeroth_dot(),
    }
}

/// A dot of a replica above that of another.
fn read_above(from: Dot, bytes: &[u8]) -> Result<(Dot, &[u8]), Fault>
    ensures { ReadsExactly (λ x. (x.0, x.1.now)) result
        (made_at dot_by (pair_at (when_at (nat_lt from.replica) byte_at) packed_at) bytes.now) }
{
    let (replica, rest) = read_byte(bytes)?;
    if replica <= from.replica {
        return Err(Fault::Bad);
    }
    let (seq, rest) = read_packed(rest)?;
    Ok((Dot { replica, seq }, rest))
}

/// The dot that follows such a distance, which was seen.
fn read_after<'a, S: DotSet>(
    seen: &S,
    from: Dot,
    distance: u64,
    bytes: &'a [u8],
) -> Result<(Dot, &'a [u8]), Fault>
    ensures { ReadsExactly (λ x. (x.0, x.1.now)) result
        (when_at (set.contains (S.contents seen.now)) (made_at dot_by (place_after from distance)) bytes.now) }
{
    if distance == 0 {
        let (dot, rest) = read_above(from, bytes)?;
        if !seen.contains(dot) {
            return Err(Fault::Bad);
        }
        return Ok((dot, rest));
    }
    let seq = from.seq.saturating_add(distance);
    let dot = Dot {
        replica: from.replica,
        seq,
    };
    if !seen.contains(dot) {
        return Err(Fault::Bad);
    }
    Ok((dot, bytes))
}

/// The dot of the next row, which was seen.
pub fn read_dot<'a, S: DotSet>(
    seen: &S,
    before: &[(Dot, Entry)],
    bytes: &'a [u8],
) -> Result<(Dot, &'a [u8]), Fault>
    ensures { ReadsExactly (λ x. (x.0, x.1.now)) result (packed_dot_at (S.contents seen.now) before.now bytes.now) }
{
    let (distance, rest) = read_packed(bytes)?;
    read_after(seen, dot_before(before), distance, rest)
}

/// The length of a dot that is told from another.
pub fn step_length(from: Dot, dot: Dot) -> usize
    requires { CanStep from dot }
    ensures length { result ≡ length (dot_step_text from dot) }
    ensures most { result ≤ 9 }
{
    if dot.replica == from.replica {
        return packed_length(dot.seq - from.seq);
    }
    2 + packed_length(dot.seq)
}

/// A dot that is told from another.
pub fn put_step(out: &mut Vec<u8>, from: Dot, dot: Dot) -> Result<(), AllocError>
    requires { CanStep from dot }
    ensures { Adds out.old.items out.new.items (dot_step_text from dot) result }
{
    if dot.replica == from.replica {
        return put_packed(out, dot.seq - from.seq);
    }
    put_byte(out, 0)?;
    put_byte(out, dot.replica)?;
    put_packed(out, dot.seq)
}
