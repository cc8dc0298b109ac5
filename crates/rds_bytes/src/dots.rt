//! A set of dots: a row for each replica, of its top and the gaps below it.
//!
//! Rows are written by the maximal runs of the set, which are walked and not kept. What a row begins with and each of its
//! gaps are read by themselves.
ghost use Rattle.std.specs.Prelude.{◌≡◌, ◌≤◌, ◌<◌, [], IfOk, ◌+◌, ◌^◌, length};
ghost use Rattle.std.specs.List.{flat_map};
ghost use Rattle.std.specs.Int.{w64};
ghost use Rattle.rds_dots.specs.Runs.{runs_of};
ghost use Rattle.rds_dots.specs.Dots.{IsRun, last_of as last_dot};
ghost use Rattle.rds_bytes.specs.Reading.{
  ReadsExactly,
  number_at,
  byte_at,
  when_at,
  is_between,
  least_lo as lo_after,
  gap_at,
  is_next_replica,
};
ghost use Rattle.rds_bytes.specs.DotRows.{a_gap, gap_before, rows_from, row_of_run, row_end, CanCountAll, Follows};
ghost use Rattle.rds_bytes.specs.Spelling.{gap_text, dot_row_text, dots_text};
ghost use Rattle.rds_bytes.specs.Writing.{Adds};

use crate::numbers::{put_byte, put_u16, put_u32, put_u64, read_byte, read_u64};
use rds_dots::{Dot, DotSet, MAX_SEQ, Run};
use rds_names::Fault;
use std::alloc::AllocError;
use std::marker::Model;

/// Numbers that are lacking below a top.
#[derive(Clone, Copy)]
pub struct Gap {
    pub lo: u64,
    pub hi: u64,
}

/// Gaps in their order.
#[derive(Drop)]
pub struct Gaps {
    pub gaps: Vec<Gap>,
}

impl Model for Gaps {
    ghost use Rattle.std.specs.Prelude.{List};
    ghost use Rattle.rds_bytes.specs.declared.dots.Gap.{Gap};

    ghost Value = { List Gap };

    ghost view = { λ g. g.gaps.items };
}

/// The dots of one replica: the numbers from 1 to the top, but for the gaps. A set is read and written without any.
#[derive(Drop)]
pub struct DotRow {
    pub replica: u8,
    pub top: u64,
    pub gaps: Gaps,
}

/// The least number at which the next gap may begin.
fn least_lo(before: Option<Gap>) -> u128
    ensures { result ≡ lo_after before }
{
    match before {
        Some(gap) => u128::from(gap.hi) + 2,
        None => 1,
    }
}

/// The next gap below a top, with a dot between it and the one before it.
#[tactic(auto, unfolding(crate::specs::Reading::gap_at))]
pub fn read_gap(top: u64, before: Option<Gap>, bytes: &[u8]) -> Result<(Gap, &[u8]), Fault>
    ensures read { ReadsExactly (λ x. (x.0, x.1.now)) result (gap_at top before bytes.now) }
    ensures rises { IfOk result (λ x. x.0.lo ≤ x.0.hi) }
    ensures below { IfOk result (λ x. x.0.hi < top) }
{
    let (lo, rest) = read_u64(bytes)?;
    if u128::from(lo) < least_lo(before) {
        return Err(Fault::Bad);
    }
    let (hi, rest) = read_u64(rest)?;
    if hi < lo || top <= hi {
        return Err(Fault::Bad);
    }
    Ok((Gap { lo, hi }, rest))
}

/// A top: the number of a dot.
pub fn read_top(bytes: &[u8]) -> Result<(u64, &[u8]), Fault>
    ensures read { ReadsExactly (λ x. (x.0, x.1.now)) result
        (when_at (is_between 1 MAX_SEQ) (number_at w64) bytes.now) }
    ensures from_one { IfOk result (λ x. 1 ≤ x.0) }
    ensures within { IfOk result (λ x. x.0 ≤ MAX_SEQ) }
{
    let (top, rest) = read_u64(bytes)?;
    if top < 1 || MAX_SEQ < top {
        return Err(Fault::Bad);
    }
    Ok((top, rest))
}

/// The replica of the next row: one of so many, from a least one on.
pub fn read_replica(replicas: u16, least: u16, bytes: &[u8]) -> Result<(u8, &[u8]), Fault>
    ensures { ReadsExactly (λ x. (x.0, x.1.now)) result
        (when_at (is_next_replica replicas least) byte_at bytes.now) }
{
    let (replica, rest) = read_byte(bytes)?;
    let number = u16::from(replica);
    if number < least || replicas <= number {
        return Err(Fault::Bad);
    }
    Ok((replica, rest))
}

fn last_of(run: Run) -> Dot
    ensures { result ≡ last_dot run }
{
    Dot {
        replica: run.replica,
        seq: run.hi,
    }
}

/// The next run, if it is of the same replica.
fn next_in<S: DotSet>(seen: &S, run: Run) -> Option<Run>
    ensures { Follows (S.contents seen.now) run result }
{
    seen.run_after(Some(last_of(run)))
        .filter(|next| next.replica == run.replica)
}

/// How many gaps there are from a least number on, before a run.
fn count_gap(least: u64, lo: u64) -> u64
    ensures gap { result ≡ length (gap_before least lo []) }
    ensures one { result ≤ 1 }
{
    if least < lo { 1 } else { 0 }
}

/// The top of the row that begins with a run, and how many gaps are below it.
fn numbers_of<S: DotSet>(seen: &S, first: Run) -> (u64, u64)
    requires { IsRun first }
    ensures top { result.0 ≡ (row_of_run (S.contents seen.now) first).top }
    ensures gaps { result.1 ≡ length (row_of_run (S.contents seen.now) first).gaps }
    ensures within { result.1 < 2 ^ 48 }
{
    let mut run = first;
    let mut gaps = count_gap(1, first.lo);
    'walking: while let Some(next) = next_in(seen, run) {
        gaps += count_gap(run.hi + 1, next.lo);
        run = next;
    }
    (run.hi, gaps)
}

/// How many rows a set has, and the length of their text.
fn measure_rows<S: DotSet>(seen: &S) -> (u16, u128)
    ensures rows { result.0 ≡ length (rows_from 0 (runs_of (S.contents seen.now))) }
    ensures length { result.1 ≡ length (flat_map dot_row_text (rows_from 0 (runs_of (S.contents seen.now)))) }
    ensures few { result.1 ≤ 2 ^ 100 }
{
    let mut rows = 0;
    let mut length = 0;
    let mut after = None;
    'walking: while let Some(run) = seen.run_after(after) {
        let (top, gaps) = numbers_of(seen, run);
        rows += 1;
        length += 13 + 16 * u128::from(gaps);
        after = Some(Dot {
            replica: run.replica,
            seq: top,
        });
    }
    (rows, length)
}

/// How many rows a set has, and the length of its text.
#[tactic(auto, unfolding(crate::specs::Spelling::dots_text))]
pub fn measure_dots<S: DotSet>(seen: &S) -> (u16, u128)
    ensures rows { result.0 ≡ length (rows_from 0 (runs_of (S.contents seen.now))) }
    ensures length { result.1 ≡ length (dots_text (S.contents seen.now)) }
    ensures few { result.1 ≤ 2 + 2 ^ 100 }
{
    let (rows, length) = measure_rows(seen);
    (rows, 2 + length)
}

fn put_gap(out: &mut Vec<u8>, lo: u64, hi: u64) -> Result<(), AllocError>
    ensures { Adds out.old.items out.new.items (gap_text (a_gap lo hi)) result }
{
    put_u64(out, lo)?;
    put_u64(out, hi)
}

/// The gap from a least number on, before a run, if there is one.
fn put_gap_before(out: &mut Vec<u8>, least: u64, lo: u64) -> Result<(), AllocError>
    ensures { Adds out.old.items out.new.items (flat_map gap_text (gap_before least lo [])) result }
{
    if least < lo {
        put_gap(out, least, lo - 1)?;
    }
    Ok(())
}

/// The gaps of the row that begins with a run.
fn put_gaps<S: DotSet>(out: &mut Vec<u8>, seen: &S, first: Run) -> Result<(), AllocError>
    requires { IsRun first }
    ensures { Adds out.old.items out.new.items
        (flat_map gap_text (row_of_run (S.contents seen.now) first).gaps) result }
{
    put_gap_before(out, 1, first.lo)?;
    let mut run = first;
    'walking: while let Some(next) = next_in(seen, run) {
        put_gap_before(out, run.hi + 1, next.lo)?;
        run = next;
    }
    Ok(())
}

/// The row that begins with a run. The answer is its last dot.
fn put_row<S: DotSet>(out: &mut Vec<u8>, seen: &S, first: Run) -> Result<Dot, AllocError>
    requires run { IsRun first }
    requires few { length (row_of_run (S.contents seen.now) first).gaps < 2 ^ 32 }
    ensures text { Adds out.old.items out.new.items (dot_row_text (row_of_run (S.contents seen.now) first)) result }
    ensures last { IfOk result (λ d. d ≡ row_end (row_of_run (S.contents seen.now) first)) }
{
    let (top, gaps) = numbers_of(seen, first);
    put_byte(out, first.replica)?;
    put_u64(out, top)?;
    put_u32(out, gaps as u32)?;
    put_gaps(out, seen, first)?;
    Ok(Dot {
        replica: first.replica,
        seq: top,
    })
}

fn put_rows<S: DotSet>(out: &mut Vec<u8>, seen: &S) -> Result<(), AllocError>
    requires { CanCountAll (rows_from 0 (runs_of (S.contents seen.now))) }
    ensures { Adds out.old.items out.new.items
        (flat_map dot_row_text (rows_from 0 (runs_of (S.contents seen.now)))) result }
{
    let mut after = None;
    'walking: while let Some(run) = seen.run_after(after) {
        let last = put_row(out, seen, run)?;
        after = Some(last);
    }
    Ok(())
}

/// A set of dots: the number of its rows, and the rows.
#[tactic(auto, unfolding(crate::specs::Spelling::dots_text))]
pub fn put_dots<S: DotSet>(out: &mut Vec<u8>, seen: &S, rows: u16) -> Result<(), AllocError>
    requires rows { rows ≡ length (rows_from 0 (runs_of (S.contents seen.now))) }
    requires few { CanCountAll (rows_from 0 (runs_of (S.contents seen.now))) }
    ensures { Adds out.old.items out.new.items (dots_text (S.contents seen.now)) result }
{
    put_u16(out, rows)?;
    put_rows(out, seen)
}
