//! Look-ups among maximal runs: each a binary search.
ghost use Rattle.std.specs.Prelude.{◌≡◌, ◌+◌, ◌-◌, ◌≤◌, ◌<◌, length, true, IsTrue, slice_get, Some};
ghost use Rattle.rds_dots.specs.Runs.{runs_cover, are_maximal, first_after};
ghost use Rattle.rds_gaps.specs.Lookup.{IsParted, IsTopOf};

use crate::order::ends_after;
use rds_dots::{Dot, MAX_SEQ, Run};

/// The place of the first run whose last dot comes after the given one.
pub(crate) fn index_after(runs: &[Run], dot: Dot) -> usize
    requires { IsTrue (are_maximal runs.now) }
    ensures bound { result ≤ length runs.now }
    ensures found { slice_get runs.now result ≡ first_after (Some dot) runs.now }
    ensures parted { IsParted (Some dot) runs.now result }
{
    runs.partition_point(|run| !ends_after(run, dot))
}

/// The first run whose last dot comes after the given one.
pub(crate) fn run_after(runs: &[Run], dot: Dot) -> Option<Run>
    requires { IsTrue (are_maximal runs.now) }
    ensures { result ≡ first_after (Some dot) runs.now }
{
    runs.get(index_after(runs, dot)).copied()
}

/// Whether one of the runs has the dot.
pub(crate) fn has(runs: &[Run], dot: Dot) -> bool
    requires { IsTrue (are_maximal runs.now) }
    ensures { result ≡ runs_cover runs.now dot }
{
    if dot.seq == 0 {
        return false;
    }
    let before = Dot {
        replica: dot.replica,
        seq: dot.seq - 1,
    };
    match run_after(runs, before) {
        Some(run) => run.replica == dot.replica && run.lo <= dot.seq,
        None => false,
    }
}

/// The greatest number of a replica, 0 where it has none.
pub(crate) fn top(runs: &[Run], replica: u8) -> u64
    requires { IsTrue (are_maximal runs.now) }
    ensures { IsTopOf runs.now replica result }
{
    let last = Dot {
        replica,
        seq: MAX_SEQ,
    };
    let end = index_after(runs, last);
    if end == 0 {
        return 0;
    }
    let run = runs[end - 1];
    if run.replica == replica { run.hi } else { 0 }
}
