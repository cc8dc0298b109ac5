//! Going over a set by its maximal runs.
ghost use Rattle.std.specs.Prelude.{◌≡◌, List};
ghost use Rattle.rds_dots.specs.declared.dot.Run.{Run};
ghost use Rattle.rds_dots.specs.Runs.{AreRuns, runs_of};

use crate::set::DotSet;
use crate::walk::Runs;

/// The maximal runs of a set, in order: all of its dots, and a gap before each next run.
/// No other list of runs is like that.
pub fn runs<S: DotSet>(set: &S) -> Runs<'_, S>
    ensures all { result ≡ runs_of (S.contents set.now) }
    ensures maximal { AreRuns (S.contents set.now) result }
    ensures unique { (rs : List Run) → AreRuns (S.contents set.now) rs → rs ≡ result }
{
    Runs { set, after: None }
}
