//! A set of dots in few bytes: its length, and writing it.
//!
//! Rows are written by the maximal runs of the set, which are walked and not kept.
ghost use Rattle.std.specs.Prelude.{◌≡◌, ◌≤◌, ◌<◌, ◌+◌, ◌*◌, ◌^◌, length, IfOk};
ghost use Rattle.std.specs.List.{flat_map};
ghost use Rattle.rds_dots.specs.Dots.{IsRun, last_of as last_dot};
ghost use Rattle.rds_dots.specs.Runs.{runs_of};
ghost use Rattle.rds_bytes.specs.DotRows.{rows_from, row_of_run, row_end, Follows};
ghost use Rattle.rds_bytes.specs.Packed.{packed_text};
ghost use Rattle.rds_bytes.specs.Writing.{Adds};
ghost use Rattle.rds_packed.specs.SeenTexts.{packed_gaps_text, packed_dot_row_text, packed_dots_text};

use crate::gaps::{count_gap, end_before, gap_length, put_gap_before};
use rds_bytes::{packed_length, put_byte, put_packed};
use rds_dots::{Dot, DotSet, MAX_SEQ, Run};
use std::alloc::AllocError;

/// The top of a row, how many gaps are below it, and the bytes that these take.
#[derive(Clone, Copy)]
pub struct RowSize {
    pub top: u64,
    pub gaps: u64,
    pub bytes: u64,
}

fn last_of(run: Run) -> Dot
    ensures { result ≡ last_dot run }
{
    Dot {
        replica: run.replica,
        seq: run.hi,
    }
}

/// The next run, if it is of the same replica.
fn next_in<S: DotSet>(seen: &S, run: Run) -> Option<Run>
    ensures { Follows (S.contents seen.now) run result }
{
    seen.run_after(Some(last_of(run)))
        .filter(|next| next.replica == run.replica)
}

/// The size of the row that begins with a run.
fn measure_row<S: DotSet>(seen: &S, first: Run) -> RowSize
    requires { IsRun first }
    ensures top { result.top ≡ (row_of_run (S.contents seen.now) first).top }
    ensures gaps { result.gaps ≡ length (row_of_run (S.contents seen.now) first).gaps }
    ensures bytes { result.bytes ≡ length (packed_gaps_text 0 (row_of_run (S.contents seen.now) first).gaps) }
    ensures within { result.top ≤ MAX_SEQ }
    ensures few { result.gaps ≤ result.top }
    ensures most { result.bytes ≤ 14 * result.top }
{
    let mut run = first;
    let mut from = end_before(0, 1, first.lo);
    let mut gaps = count_gap(1, first.lo);
    let mut bytes = gap_length(0, 1, first.lo) as u64;
    'walking: while let Some(next) = next_in(seen, run) {
        let least = run.hi + 1;
        gaps += count_gap(least, next.lo);
        bytes += gap_length(from, least, next.lo) as u64;
        from = end_before(from, least, next.lo);
        run = next;
    }
    RowSize {
        top: run.hi,
        gaps,
        bytes,
    }
}

/// The length of a row of such a size.
fn row_length(size: RowSize) -> u64
    requires within { size.top ≤ MAX_SEQ }
    requires few { size.gaps ≤ size.top }
    requires most { size.bytes ≤ 14 * size.top }
    ensures length { result ≡ 1 + length (packed_text size.top) + length (packed_text size.gaps) + size.bytes }
    ensures most { result ≤ 2 ^ 53 }
{
    1 + packed_length(size.top) as u64 + packed_length(size.gaps) as u64 + size.bytes
}

/// How many rows a set has, and the length of their text.
fn measure_rows<S: DotSet>(seen: &S) -> (u16, u128)
    ensures rows { result.0 ≡ length (rows_from 0 (runs_of (S.contents seen.now))) }
    ensures length { result.1 ≡ length (flat_map packed_dot_row_text (rows_from 0 (runs_of (S.contents seen.now)))) }
    ensures few { result.0 ≤ 256 }
    ensures most { result.1 ≤ 2 ^ 62 }
{
    let mut rows = 0;
    let mut length = 0;
    let mut after = None;
    'walking: while let Some(run) = seen.run_after(after) {
        let size = measure_row(seen, run);
        rows += 1;
        length += u128::from(row_length(size));
        after = Some(Dot {
            replica: run.replica,
            seq: size.top,
        });
    }
    (rows, length)
}

/// How many rows a set has, and the length of its text.
#[tactic(auto, unfolding(crate::specs::SeenTexts::packed_dots_text))]
pub fn measure_packed_dots<S: DotSet>(seen: &S) -> (u16, u128)
    ensures rows { result.0 ≡ length (rows_from 0 (runs_of (S.contents seen.now))) }
    ensures length { result.1 ≡ length (packed_dots_text (S.contents seen.now)) }
    ensures few { result.0 ≤ 256 }
    ensures most { result.1 ≤ 2 ^ 63 }
{
    let (rows, length) = measure_rows(seen);
    (rows, packed_length(u64::from(rows)) as u128 + length)
}

/// The gaps of the row that begins with a run.
fn put_gaps<S: DotSet>(out: &mut Vec<u8>, seen: &S, first: Run) -> Result<(), AllocError>
    requires { IsRun first }
    ensures { Adds out.old.items out.new.items
        (packed_gaps_text 0 (row_of_run (S.contents seen.now) first).gaps) result }
{
    put_gap_before(out, 0, 1, first.lo)?;
    let mut run = first;
    let mut from = end_before(0, 1, first.lo);
    'walking: while let Some(next) = next_in(seen, run) {
        let least = run.hi + 1;
        put_gap_before(out, from, least, next.lo)?;
        from = end_before(from, least, next.lo);
        run = next;
    }
    Ok(())
}

/// The row that begins with a run. The answer is its last dot.
fn put_row<S: DotSet>(out: &mut Vec<u8>, seen: &S, first: Run) -> Result<Dot, AllocError>
    requires { IsRun first }
    ensures text { Adds out.old.items out.new.items
        (packed_dot_row_text (row_of_run (S.contents seen.now) first)) result }
    ensures last { IfOk result (λ d. d ≡ row_end (row_of_run (S.contents seen.now) first)) }
{
    let size = measure_row(seen, first);
    put_byte(out, first.replica)?;
    put_packed(out, size.top)?;
    put_packed(out, size.gaps)?;
    put_gaps(out, seen, first)?;
    Ok(Dot {
        replica: first.replica,
        seq: size.top,
    })
}

fn put_rows<S: DotSet>(out: &mut Vec<u8>, seen: &S) -> Result<(), AllocError>
    ensures { Adds out.old.items out.new.items
        (flat_map packed_dot_row_text (rows_from 0 (runs_of (S.contents seen.now)))) result }
{
    let mut after = None;
    'walking: while let Some(run) = seen.run_after(after) {
        let last = put_row(out, seen, run)?;
        after = Some(last);
    }
    Ok(())
}

/// A set of dots: the number of its rows, and the rows.
#[tactic(auto, unfolding(crate::specs::SeenTexts::packed_dots_text))]
pub fn put_packed_dots<S: DotSet>(out: &mut Vec<u8>, seen: &S, rows: u16) -> Result<(), AllocError>
    requires { rows ≡ length (rows_from 0 (runs_of (S.contents seen.now))) }
    ensures { Adds out.old.items out.new.items (packed_dots_text (S.contents seen.now)) result }
{
    put_packed(out, u64::from(rows))?;
    put_rows(out, seen)
}
