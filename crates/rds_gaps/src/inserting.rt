//! A run in its place among maximal runs.
ghost use Rattle.std.specs.Prelude.{◌≡◌, ◌+◌, ◌-◌, ◌≤◌, ◌<◌, nat_le, length, ℕ, true, IsTrue, OnOk, OnErr};
ghost use Rattle.std.specs.Prelude.{slice_index_or};
ghost use Rattle.std.specs.List.{remove_range};
ghost use Rattle.rds_dots.specs.declared.dot.Run.{Run};
ghost use Rattle.rds_dots.specs.Runs.{start, stop, is_run, are_maximal};
ghost use Rattle.rds_gaps.specs.Added.{last_start};
ghost use Rattle.rds_gaps.specs.Inserted.{hull, insertion, IsCoalesced, ReachesRun};

use crate::merging::add_run;
use crate::order::{begins_first, is_apart};
use crate::searching::index_after;
use rds_dots::{Dot, Run};
use std::alloc::AllocError;

/// Whether the last of the runs begins no later than another run.
fn begins_last(runs: &[Run], run: &Run) -> bool
    requires runs_are { IsTrue (are_maximal runs.now) }
    requires run_is { IsTrue (is_run run.now) }
    ensures { result ≡ nat_le (last_start runs.now) (start run.now) }
{
    match runs.last() {
        Some(last) => begins_first(last, run),
        None => true,
    }
}

/// The least run around two of one replica.
fn hull(other: &Run, run: Run) -> Run
    ensures { result ≡ hull other.now run }
{
    Run {
        replica: run.replica,
        lo: if other.lo < run.lo { other.lo } else { run.lo },
        hi: if run.hi < other.hi { other.hi } else { run.hi },
    }
}

/// The run, made one with those from a place on that it meets or touches, and the place where the others
/// begin. None of those from the place on ends too early for that.
fn coalesced(runs: &[Run], from: usize, run: Run) -> (usize, Run)
    requires runs_are { IsTrue (are_maximal runs.now) }
    requires run_is { IsTrue (is_run run) }
    requires bound { from ≤ length runs.now }
    requires reaches { ReachesRun runs.now from run }
    ensures { IsCoalesced runs.now from run result.0 result.1 }
{
    let mut to = from;
    let mut whole = run;
    'coalescing: while to < runs.len() {
        let other = &runs[to];
        if is_apart(&whole, other) {
            return (to, whole);
        }
        whole = hull(other, whole);
        to += 1;
    }
    (to, whole)
}

/// Takes the runs from one place up to another out.
fn remove_between(runs: &mut Vec<Run>, from: usize, to: usize)
    requires from { from ≤ to }
    requires bound { to ≤ length runs.old.items }
    ensures { runs.new.items ≡ remove_range runs.old.items from to }
{
    runs.drain(from..to);
}

/// Puts a run in its place among runs, made one with those that it meets or touches: in amortized constant
/// time where it begins no earlier than the last, else by a binary search and a move of the runs behind it.
pub(crate) fn insert_run(runs: &mut Vec<Run>, run: Run) -> Result<(), AllocError>
    requires runs_are { IsTrue (are_maximal runs.old.items) }
    requires run_is { IsTrue (is_run run) }
    ensures ok { OnOk result (runs.new.items ≡ insertion runs.old.items run) }
    ensures err { OnErr result (runs.new.items ≡ runs.old.items) }
{
    if begins_last(runs, &run) {
        return add_run(runs, run);
    }
    // a run that ends at `lo - 1` touches this one
    let before = Dot {
        replica: run.replica,
        seq: run.lo.saturating_sub(2),
    };
    let from = index_after(runs, before);
    let (to, whole) = coalesced(runs, from, run);
    if from == to {
        runs.insert(from, run)?;
    } else {
        runs[from] = whole;
        remove_between(runs, from + 1, to);
    }
    Ok(())
}
