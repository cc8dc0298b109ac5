//! Differences of maximal runs.
ghost use Rattle.std.specs.Prelude.{◌≡◌, ◌+◌, ◌-◌, ◌≤◌, ◌<◌, ◌++◌, length, true, IsTrue, IfOk, OnOk};
ghost use Rattle.rds_dots.specs.Runs.{start, stop, is_run, are_maximal};
ghost use Rattle.rds_gaps.specs.Cut.{before_cut};
ghost use Rattle.rds_gaps.specs.Operations.{IsDifference};

use crate::order::{ends_before, ends_past};
use rds_dots::Run;
use std::alloc::{AllocError, Global};

/// Puts what a run has before the cut begins behind runs.
fn add_before(runs: &mut Vec<Run>, run: &Run, cut: &Run) -> Result<(), AllocError>
    requires run_is { IsTrue (is_run run.now) }
    requires cut_is { IsTrue (is_run cut.now) }
    requires reaches { start run.now ≤ stop cut.now }
    ensures { OnOk result (runs.new.items ≡ runs.old.items ++ before_cut run.now cut.now) }
{
    if ends_before(run, cut) {
        runs.push(*run)?;
    } else if run.lo < cut.lo {
        runs.push(Run {
            replica: run.replica,
            lo: run.lo,
            hi: cut.lo - 1,
        })?;
    }
    Ok(())
}

/// The maximal runs of the dots of the first list that the second lacks: one pass over both.
pub(crate) fn difference_of(
    alloc: Global,
    left: &[Run],
    mut right: &[Run],
) -> Result<Vec<Run>, AllocError>
    requires left_are { IsTrue (are_maximal left.now) }
    requires right_are { IsTrue (are_maximal right.now) }
    ensures { IfOk result (λ runs. IsDifference left.now right.entry.now runs.items) }
{
    let mut runs = Vec::new(alloc);
    let Some((first, mut rest)) = left.split_first() else {
        return Ok(runs);
    };
    let mut run = *first;
    'cutting: loop {
        let Some((cut, later)) = right.split_first() else {
            runs.push(run)?;
            runs.extend_from_slice(rest)?;
            return Ok(runs);
        };
        if ends_before(cut, &run) {
            right = later;
            continue;
        }
        add_before(&mut runs, &run, cut)?;
        if ends_past(&run, cut) {
            run.lo = cut.hi + 1;
            right = later;
        } else {
            let Some((next, others)) = rest.split_first() else {
                return Ok(runs);
            };
            run = *next;
            rest = others;
        }
    }
}
