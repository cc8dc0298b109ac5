//! What a set of dots does, however it is kept.
ghost use Rattle.std.specs.Prelude.{◌≡◌, ◌||◌, Bool, true, IfOk, IfErr, OnOk, OnErr};
ghost use Rattle.std.specs.FinSet as set;
ghost use Rattle.rds_names.specs.declared.fault.Fault.TheVariants.{Memory};
ghost use Rattle.rds_dots.specs.declared.dot.Dot.{Dot};
ghost use Rattle.rds_dots.specs.Dots.{Dots, is_dot, in_run, IsRun, IsTop};
ghost use Rattle.rds_dots.specs.Runs.{runs_of, first_after};

use crate::dot::{Dot, Run};
use rds_names::Fault;
use std::alloc::Global;

/// A finite set of dots: a causal context (Almeida, Shoker, Baquero 2018).
///
/// No call goes dot by dot by its contract, so a set may keep long runs as their two ends.
/// A call that takes memory is refused `Memory` alone, and then nothing has changed.
pub trait DotSet: Drop {
    /// The set, however it is kept.
    ghost contents: { Self → Dots };

    /// The set without dots.
    fn empty(alloc: Global) -> Self
        ensures { contents result ≡ set.empty };

    /// Whether the dot is in the set.
    fn contains(&self, dot: Dot) -> bool
        ensures { result ≡ set.contains (contents self.now) dot };

    /// The greatest number of a replica's dots, 0 where it has none.
    fn top(&self, replica: u8) -> u64
        ensures { IsTop (contents self.now) replica result };

    /// How many dots the set has.
    fn count(&self) -> u64
        ensures { result ≡ set.len (contents self.now) };

    /// Puts all dots of a run into the set, those that are there already too.
    fn insert_run(&mut self, run: Run) -> Result<(), Fault>
        requires { IsRun run }
        ensures ok { OnOk result ((d : Dot) → set.contains (contents self.new) d
            ≡ (in_run run d || set.contains (contents self.old) d)) }
        ensures err { OnErr result (contents self.new ≡ contents self.old) }
        ensures memory { IfErr result (λ e. e ≡ Memory) };

    /// A new set of the dots that are in either.
    fn union(&self, alloc: Global, other: &Self) -> Result<Self, Fault>
        ensures ok { IfOk result
            (λ s. contents s ≡ set.union (contents self.now) (contents other.now)) }
        ensures memory { IfErr result (λ e. e ≡ Memory) };

    /// A new set of the dots that are here and not in the other.
    fn minus(&self, alloc: Global, other: &Self) -> Result<Self, Fault>
        ensures ok { IfOk result
            (λ s. contents s ≡ set.difference (contents self.now) (contents other.now)) }
        ensures memory { IfErr result (λ e. e ≡ Memory) };

    /// A new set of the same dots.
    fn copy(&self, alloc: Global) -> Result<Self, Fault>
        ensures ok { IfOk result (λ s. contents s ≡ contents self.now) }
        ensures memory { IfErr result (λ e. e ≡ Memory) };

    /// The first maximal run whose last dot comes after the given one; the first of all for `None`.
    fn run_after(&self, after: Option<Dot>) -> Option<Run>
        ensures { result ≡ first_after after (runs_of (contents self.now)) };

    /// A set has dots alone.
    ghost within: { (s : Self) (d : Dot) → set.contains (contents s) d ≡ true → is_dot d ≡ true };
}
