//! What holds of all counters.
ghost use Rattle.std.specs.Prelude.{◌≡◌, max};
ghost use Rattle.rds_counts.specs.Counted.{Counted, number};
ghost use Rattle.rds_counts.specs.Place.{Place};
ghost use Rattle.rds_counts.specs.declared.row.TheConstants.{MAX_COUNT};

/// The greatest number that a replica counts under one key: 48 bits. The function does nothing: its contract is this
/// limit.
pub fn limit_of_counts()
    ensures count { MAX_COUNT ≡ 281474976710655 }
{}

/// What [`Counts::merge`](crate::Counts::merge) says of its result is met by no second one. So it refuses each wrong
/// result, and counters merged in two ways are the same value. The function does nothing: its contract is this law.
pub fn a_merge_of_counts_has_one_result()
    ensures { (a b v w : Counted) → ((q : Place) → number v q ≡ max (number a q) (number b q))
        → ((q : Place) → number w q ≡ max (number a q) (number b q)) → v ≡ w }
{}
