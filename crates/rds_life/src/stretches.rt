//! How far the dots after one are in a set, and how far they aren't.
ghost use Rattle.std.specs.Prelude.{◌≡◌, ◌<◌, ◌≤◌, ℕ, true, false};
ghost use Rattle.std.specs.FinSet as set;
ghost use Rattle.rds_dots.specs.Lacking.{dot_of};

use rds_dots::{Dot, DotSet};

/// A number up to which the set has all dots of a replica after the given one.
pub fn has_until<S: DotSet>(dots: &S, dot: Dot) -> u64
    ensures from { dot.seq ≤ result }
    ensures has { (n : ℕ) → dot.seq < n → n ≤ result
        → set.contains (S.contents dots.now) (dot_of dot.replica n) ≡ true }
{
    match dots.run_after(Some(dot)) {
        Some(run) if run.replica == dot.replica && run.lo - 1 <= dot.seq => run.hi,
        _ => dot.seq,
    }
}

/// A number up to which the set has no dot of a replica after the given one.
pub fn lacks_until<S: DotSet>(dots: &S, dot: Dot) -> u64
    ensures from { dot.seq ≤ result }
    ensures lacks { (n : ℕ) → dot.seq < n → n ≤ result
        → set.contains (S.contents dots.now) (dot_of dot.replica n) ≡ false }
{
    match dots.run_after(Some(dot)) {
        Some(run) if run.replica == dot.replica => dot.seq.max(run.lo - 1),
        _ => u64::MAX,
    }
}
