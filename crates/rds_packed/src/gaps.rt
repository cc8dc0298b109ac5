//! The gaps of a replica's dots, each told from the one before it, and what stands before them.
ghost use Rattle.std.specs.Prelude.{◌≡◌, ◌+◌, ◌≤◌, ◌<◌, ◌^◌, [], length, IfOk};
ghost use Rattle.rds_bytes.specs.DotRows.{gap_before};
ghost use Rattle.rds_bytes.specs.Reading.{ReadsExactly, byte_at, when_at, is_next_replica, least_lo};
ghost use Rattle.rds_bytes.specs.Writing.{Adds};
ghost use Rattle.rds_packed.specs.SeenReading.{further_at, packed_gap_at, packed_head_at, packed_top_at};
ghost use Rattle.rds_packed.specs.SeenTexts.{gap_end, end_before, packed_gaps_text};

use crate::keys::read_packed_u32;
use rds_bytes::{Gap, RowHead, packed_length, put_packed, read_byte, read_packed};
use rds_dots::MAX_SEQ;
use rds_names::Fault;
use std::alloc::AllocError;

/// A number so far past another.
fn read_further(from: u64, bytes: &[u8]) -> Result<(u64, &[u8]), Fault>
    requires { from ≤ 2 ^ 60 }
    ensures read { ReadsExactly (λ x. (x.0, x.1.now)) result (further_at from bytes.now) }
    ensures most { IfOk result (λ x. x.0 < from + 2 ^ 49) }
{
    let (distance, rest) = read_packed(bytes)?;
    Ok((from + distance, rest))
}

/// Where a gap ends, and 0 where there is none.
fn gap_end(before: Option<Gap>) -> u64
    ensures { result ≡ gap_end before }
{
    match before {
        Some(gap) => gap.hi,
        None => 0,
    }
}

/// The least number at which the next gap may begin.
fn least_lo(before: Option<Gap>) -> u64
    requires { gap_end before ≤ MAX_SEQ }
    ensures { result ≡ least_lo before }
{
    match before {
        Some(gap) => gap.hi + 2,
        None => 1,
    }
}

/// The next gap below a top, with a dot between it and the one before it.
#[tactic(auto, unfolding(crate::specs::SeenReading::packed_gap_at))]
pub fn read_gap(top: u64, before: Option<Gap>, bytes: &[u8]) -> Result<(Gap, &[u8]), Fault>
    requires { gap_end before ≤ MAX_SEQ }
    ensures { ReadsExactly (λ x. (x.0, x.1.now)) result (packed_gap_at top before bytes.now) }
{
    let (lo, rest) = read_further(gap_end(before), bytes)?;
    if lo < least_lo(before) {
        return Err(Fault::Bad);
    }
    let (hi, rest) = read_further(lo, rest)?;
    if hi < lo || top <= hi {
        return Err(Fault::Bad);
    }
    Ok((Gap { lo, hi }, rest))
}

/// The replica of the next row: one of so many, from a least one on.
fn read_replica(replicas: u16, least: u16, bytes: &[u8]) -> Result<(u8, &[u8]), Fault>
    ensures { ReadsExactly (λ x. (x.0, x.1.now)) result
        (when_at (is_next_replica replicas least) byte_at bytes.now) }
{
    let (replica, rest) = read_byte(bytes)?;
    let number = u16::from(replica);
    if number < least || replicas <= number {
        return Err(Fault::Bad);
    }
    Ok((replica, rest))
}

/// A top: the number of a dot.
fn read_top(bytes: &[u8]) -> Result<(u64, &[u8]), Fault>
    ensures { ReadsExactly (λ x. (x.0, x.1.now)) result (packed_top_at bytes.now) }
{
    let (top, rest) = read_packed(bytes)?;
    if top < 1 || MAX_SEQ < top {
        return Err(Fault::Bad);
    }
    Ok((top, rest))
}

/// What a row begins with, of one of so many replicas, from a least one on.
#[tactic(auto, unfolding(crate::specs::SeenReading::packed_head_at))]
pub fn read_row_head(replicas: u16, least: u16, bytes: &[u8]) -> Result<(RowHead, &[u8]), Fault>
    ensures { ReadsExactly (λ x. (x.0, x.1.now)) result (packed_head_at replicas least bytes.now) }
{
    let (replica, rest) = read_replica(replicas, least, bytes)?;
    let (top, rest) = read_top(rest)?;
    let (gaps, rest) = read_packed_u32(rest)?;
    Ok((RowHead { replica, top, gaps }, rest))
}

/// How many gaps there are from a least number on, before a run.
pub fn count_gap(least: u64, lo: u64) -> u64
    ensures gap { result ≡ length (gap_before least lo []) }
    ensures one { result ≤ 1 }
{
    if least < lo { 1 } else { 0 }
}

/// Where the last gap ends after the numbers from a least one on, before a run, where it ended so before them.
pub fn end_before(from: u64, least: u64, lo: u64) -> u64
    ensures { result ≡ end_before from least lo }
{
    if least < lo { lo - 1 } else { from }
}

/// The length of the gap from a least number on, before a run, if there is one.
pub fn gap_length(from: u64, least: u64, lo: u64) -> usize
    requires past { from ≤ least }
    requires within { lo ≤ MAX_SEQ }
    ensures length { result ≡ length (packed_gaps_text from (gap_before least lo [])) }
    ensures most { result ≤ 14 }
{
    if least < lo {
        return packed_length(least - from) + packed_length(lo - 1 - least);
    }
    0
}

/// The gap from a least number on, before a run, if there is one.
pub fn put_gap_before(out: &mut Vec<u8>, from: u64, least: u64, lo: u64) -> Result<(), AllocError>
    requires past { from ≤ least }
    requires within { lo ≤ MAX_SEQ }
    ensures { Adds out.old.items out.new.items (packed_gaps_text from (gap_before least lo [])) result }
{
    if least < lo {
        put_packed(out, least - from)?;
        put_packed(out, lo - 1 - least)?;
    }
    Ok(())
}
