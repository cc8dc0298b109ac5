//! What holds of all lives.
ghost use Rattle.std.specs.Prelude.{◌≡◌, ◌≢◌, Option, Result, Err};
ghost use Rattle.rds_names.specs.declared.fault.Fault.{Fault};
ghost use Rattle.rds_names.specs.declared.fault.Fault.TheVariants.{Memory};
ghost use Rattle.rds_dots.specs.declared.dot.Dot.{Dot};
ghost use Rattle.rds_life.specs.Life.{Lived, Conflicts, IsJoin, IsLeastAbove, MergeGives};

/// What [`Lives::merge`](crate::Lives::merge) says of its result and of its answer is met by no second one, but that
/// memory may run out; and there is one least dot in conflict, or none. So these contracts refuse each wrong result.
/// The function does nothing: its contract is this law.
pub fn a_merge_of_lives_has_one_result()
    ensures joins { (a b v w : Lived) → IsJoin a b v → IsJoin a b w → v ≡ w }
    ensures least { (a b v w : Lived) → IsLeastAbove a b v → IsLeastAbove a b w → v ≡ w }
    ensures answers { (a b : Lived) (r s : Result (Unit {0}) Fault) → MergeGives a b r → MergeGives a b s
        → r ≢ Err Memory → s ≢ Err Memory → r ≡ s }
    ensures conflicts { (a b : Lived) (r s : Option Dot) → Conflicts a b r → Conflicts a b s → r ≡ s }
{}
