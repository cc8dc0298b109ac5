//! Whether a set has all dots of another.
ghost use Rattle.std.specs.Prelude.{◌≡◌, ◌↔◌, IsTrue, true};
ghost use Rattle.std.specs.FinSet as set;
ghost use Rattle.rds_dots.specs.declared.dot.Dot.{Dot};
ghost use Rattle.rds_dots.specs.Dots.{IsRun, in_run};
ghost use Rattle.rds_delta.specs.Digested.{IsInside};

use crate::stretches::stretch_from;
use rds_dots::{Dot, DotSet, Run, runs};

/// Whether each dot of the first set is in the second: one look-up there for each run of the first.
pub fn is_inside<S: DotSet>(inner: &S, outer: &S) -> bool
    ensures { IsTrue result ↔ IsInside (S.contents inner.now) (S.contents outer.now) }
{
    'testing: for run in runs(inner) {
        if !has_run(outer, run) {
            return false;
        }
    }
    true
}

/// Whether the set has all dots of a run.
fn has_run<S: DotSet>(dots: &S, run: Run) -> bool
    requires { IsRun run }
    ensures { IsTrue result ↔ ((d : Dot) → in_run run d ≡ true → set.contains (S.contents dots.now) d ≡ true) }
{
    let first = Dot {
        replica: run.replica,
        seq: run.lo,
    };
    let stretch = stretch_from(dots, first);
    stretch.has && run.hi <= stretch.until
}
