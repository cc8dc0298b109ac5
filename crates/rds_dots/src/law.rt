//! What holds of dots, and of all sets of them together.
ghost use Rattle.std.specs.Prelude.{◌≡◌};
ghost use Rattle.rds_dots.specs.declared.dot.TheConstants.{MAX_SEQ};
ghost use Rattle.rds_dots.specs.Runs.{runs_of};

use crate::over::runs;
use crate::set::DotSet;
use crate::walk::Runs;

/// The maximal runs of two sets. Where the contents are equal, so are the runs, however each is kept.
pub fn equal_sets_have_equal_runs<'a, S: DotSet, T: DotSet>(
    left: &'a S,
    right: &'a T,
) -> (Runs<'a, S>, Runs<'a, T>)
    ensures left { result.0 ≡ runs_of (S.contents left.now) }
    ensures right { result.1 ≡ runs_of (T.contents right.now) }
    ensures equal { S.contents left.now ≡ T.contents right.now → result.0 ≡ result.1 }
{
    (runs(left), runs(right))
}

/// The greatest number of a dot: 48 bits. The function does nothing: its contract is this limit.
pub fn limit_of_dots()
    ensures seq { MAX_SEQ ≡ 281474976710655 }
{}
