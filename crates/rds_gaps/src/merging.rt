//! Unions of maximal runs.
ghost use Rattle.std.specs.Prelude.{◌≡◌, ◌+◌, ◌-◌, ◌≤◌, ◌<◌, length, true, IsTrue, IfOk, OnOk, OnErr};
ghost use Rattle.rds_dots.specs.Runs.{is_run, are_maximal};
ghost use Rattle.rds_gaps.specs.Added.{addition, last_start, begins_from};
ghost use Rattle.rds_gaps.specs.Operations.{IsUnion};

use crate::order::{begins_first, is_apart};
use rds_dots::Run;
use std::alloc::{AllocError, Global};

/// Puts a run behind runs, and joins it to the last of them where they meet or touch. The last begins
/// no later than it.
pub(crate) fn add_run(runs: &mut Vec<Run>, run: Run) -> Result<(), AllocError>
    requires runs_are { IsTrue (are_maximal runs.old.items) }
    requires run_is { IsTrue (is_run run) }
    ensures ok { OnOk result (runs.new.items ≡ addition runs.old.items run) }
    ensures err { OnErr result (runs.new.items ≡ runs.old.items) }
{
    let count = runs.as_slice().len();
    if count > 0 {
        let last = runs[count - 1];
        if !is_apart(&last, &run) {
            if last.hi < run.hi {
                runs[count - 1] = Run { hi: run.hi, ..last };
            }
            return Ok(());
        }
    }
    runs.push(run)?;
    Ok(())
}

/// Puts runs behind runs, of which the last begins no later than the first of them.
fn add_all(runs: &mut Vec<Run>, rest: &[Run]) -> Result<(), AllocError>
    requires runs_are { IsTrue (are_maximal runs.old.items) }
    requires rest_are { IsTrue (are_maximal rest.now) }
    requires later { IsTrue (begins_from (last_start runs.old.items) rest.now) }
    ensures { OnOk result (IsUnion runs.old.items rest.now runs.new.items) }
{
    for run in rest {
        add_run(runs, *run)?;
    }
    Ok(())
}

/// The maximal runs of the dots of both lists: one pass over them.
pub(crate) fn union_of(
    alloc: Global,
    mut left: &[Run],
    mut right: &[Run],
) -> Result<Vec<Run>, AllocError>
    requires left_are { IsTrue (are_maximal left.now) }
    requires right_are { IsTrue (are_maximal right.now) }
    ensures { IfOk result (λ runs. IsUnion left.entry.now right.entry.now runs.items) }
{
    let mut runs = Vec::new(alloc);
    'merging: loop {
        let Some((x, xs)) = left.split_first() else {
            add_all(&mut runs, right)?;
            return Ok(runs);
        };
        let Some((y, ys)) = right.split_first() else {
            add_all(&mut runs, left)?;
            return Ok(runs);
        };
        if begins_first(x, y) {
            add_run(&mut runs, *x)?;
            left = xs;
        } else {
            add_run(&mut runs, *y)?;
            right = ys;
        }
    }
}
