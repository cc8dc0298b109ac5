//! Ascending lists of dots.
ghost use Rattle.std.specs.Prelude.{◌≡◌, ◌+◌, ◌-◌, ◌≤◌, not, List, [], ◌∷◌, ◌++◌, Option, Some, true, IsTrue, IfOk};
ghost use Rattle.std.specs.Prelude.{OnOk, OnErr, slice_get};
ghost use Rattle.std.specs.List.{list_all};
ghost use Rattle.rds_dots.specs.declared.dot.Run.{Run};
ghost use Rattle.rds_dots.specs.declared.dot.Dot.{Dot};
ghost use Rattle.rds_dots.specs.Ascending.{ascends};
ghost use Rattle.rds_dots.specs.Dots.{IsRun, comes_after, first_of, last_of};
ghost use Rattle.rds_dots.specs.Drawn.{put_run, leads_by, put_dots};
ghost use Rattle.rds_dots.specs.Listed.{lists, dots_of, without};
ghost use Rattle.rds_dots.specs.Merged.{merge_of};
ghost use Rattle.rds_dots.specs.Runs.{first_after, runs_of_dots};

use crate::dot::{Dot, Run};
use std::alloc::{AllocError, Global};
use std::cmp::Ordering;

/// Whether the list has the dot.
pub(crate) fn has(dots: &[Dot], dot: Dot) -> bool
    requires { IsTrue (ascends dots.now) }
    ensures { result ≡ lists dots.now dot }
{
    dots.binary_search(&dot).is_ok()
}

/// The dots that don't come after the given one, and those that do.
pub(crate) fn split_after(dots: &[Dot], after: Option<Dot>) -> (&[Dot], &[Dot])
    requires { IsTrue (ascends dots.now) }
    ensures whole { result.0.now ++ result.1.now ≡ dots.now }
    ensures upto { IsTrue (list_all (λ d. not (comes_after after d)) result.0.now) }
    ensures later { IsTrue (list_all (comes_after after) result.1.now) }
{
    match after {
        None => dots.split_at(0),
        Some(last) => dots.split_at(dots.partition_point(|dot| *dot <= last)),
    }
}

/// Puts the dots of a run behind a list, which stays as it is where there is no room.
pub(crate) fn push_run(dots: &mut Vec<Dot>, run: Run) -> Result<(), AllocError>
    requires { IsRun run }
    ensures ok { OnOk result (dots.new.items ≡ dots.old.items ++ dots_of run) }
    ensures err { OnErr result (dots.new.items ≡ dots.old.items) }
{
    dots.reserve((run.hi + 1 - run.lo) as usize)?;
    for seq in run.lo..run.hi + 1 {
        dots.push(Dot {
            replica: run.replica,
            seq,
        })?;
    }
    Ok(())
}

/// The dots of both lists.
pub(crate) fn union_of(
    alloc: Global,
    mut left: &[Dot],
    mut right: &[Dot],
) -> Result<Vec<Dot>, AllocError>
    ensures { IfOk result (λ dots. dots.items ≡ merge_of left.entry.now right.entry.now) }
{
    let mut dots = Vec::new(alloc);
    'merging: loop {
        let Some((x, xs)) = left.split_first() else {
            dots.extend_from_slice(right)?;
            return Ok(dots);
        };
        let Some((y, ys)) = right.split_first() else {
            dots.extend_from_slice(left)?;
            return Ok(dots);
        };
        match x.cmp(y) {
            Ordering::Less => {
                dots.push(*x)?;
                left = xs;
            }
            Ordering::Equal => {
                dots.push(*x)?;
                left = xs;
                right = ys;
            }
            Ordering::Greater => {
                dots.push(*y)?;
                right = ys;
            }
        }
    }
}

/// The dots of the first list that the second lacks.
pub(crate) fn difference_of(
    alloc: Global,
    mut left: &[Dot],
    mut right: &[Dot],
) -> Result<Vec<Dot>, AllocError>
    requires left { IsTrue (ascends left.now) }
    requires right { IsTrue (ascends right.now) }
    ensures { IfOk result (λ dots. dots.items ≡ without left.entry.now right.entry.now) }
{
    let mut dots = Vec::new(alloc);
    'taking: loop {
        let Some((x, xs)) = left.split_first() else {
            return Ok(dots);
        };
        let Some((y, ys)) = right.split_first() else {
            dots.extend_from_slice(left)?;
            return Ok(dots);
        };
        match x.cmp(y) {
            Ordering::Less => {
                dots.push(*x)?;
                left = xs;
            }
            Ordering::Equal => {
                left = xs;
                right = ys;
            }
            Ordering::Greater => right = ys,
        }
    }
}

/// Whether a dot is so many numbers past another of its replica.
fn is_ahead(dot: Dot, steps: u64, later: Dot) -> bool
    ensures { result ≡ leads_by steps dot later }
{
    dot.replica == later.replica && dot.seq <= later.seq && later.seq - dot.seq == steps
}

/// The run, drawn on through the dots that follow it. A dot is among these where it is as far past the
/// run's last as it comes later in the list, and then those between are, too: a binary search.
fn drawn_on(mut run: Run, rest: &[Dot]) -> Run
    requires { IsTrue (ascends (last_of run ∷ rest.now)) }
    ensures first { first_of result ≡ first_of run }
    ensures longer { run.hi ≤ result.hi }
    ensures whole { slice_get (put_run run (runs_of_dots rest.now)) 0 ≡ Some result }
{
    let last = run.last();
    let mut low = 0;
    let mut high = rest.len();
    'searching: while low < high {
        let middle = low + (high - low) / 2;
        let dot = rest[middle];
        if is_ahead(last, middle as u64 + 1, dot) {
            run.hi = dot.seq;
            low = middle + 1;
        } else {
            high = middle;
        }
    }
    run
}

/// The run, drawn back through the dots that lead up to it, found as those that follow it are. Where none
/// of the dots before it comes after the given one, and its own last dot does, it is the first to end there.
fn drawn_back(before: &[Dot], mut run: Run) -> Run
    requires { IsTrue (ascends (before.now ++ (first_of run ∷ []))) }
    ensures { (after : Option Dot) (rs : List Run)
        → IsTrue (list_all (λ d. not (comes_after after d)) before.now)
        → IsTrue (comes_after after (last_of run))
        → first_after after (put_dots before.now (run ∷ rs)) ≡ Some result }
{
    let first = run.first();
    let mut low = 0;
    let mut high = before.len();
    'searching: while low < high {
        let middle = low + (high - low) / 2;
        let dot = before[middle];
        if is_ahead(dot, (before.len() - middle) as u64, first) {
            run.lo = dot.seq;
            high = middle;
        } else {
            low = middle + 1;
        }
    }
    run
}

/// The first maximal run whose last dot comes after the given one.
pub(crate) fn run_after(dots: &[Dot], after: Option<Dot>) -> Option<Run>
    requires { IsTrue (ascends dots.now) }
    ensures { result ≡ first_after after (runs_of_dots dots.now) }
{
    let (before, from) = split_after(dots, after);
    let (first, rest) = from.split_first()?;
    let run = Run {
        replica: first.replica,
        lo: first.seq,
        hi: first.seq,
    };
    Some(drawn_back(before, drawn_on(run, rest)))
}
