//! The dead dots of lives that are indexed.
ghost use Rattle.std.specs.Prelude.{◌≡◌, ◌||◌, ◌<◌, ◌≤◌, ℕ, true, false, IfOk, IfErr, OnOk};
ghost use Rattle.std.specs.FinSet as set;
ghost use Rattle.std.specs.Ordering.{eq_by_cmp};
ghost use Rattle.rds_names.specs.declared.fault.Fault.TheVariants.{Memory};
ghost use Rattle.rds_dots.specs.Dots.{dot_cmp, is_dot};
ghost use Rattle.rds_dots.specs.Lacking.{dot_of};
ghost use Rattle.rds_life.specs.KnownDead.{HasMore};

use crate::dots::insert_dot;
use crate::stretches::lacks_until;
use rds_dots::{Dot, DotSet};
use rds_names::Fault;
use std::alloc::Global;
use std::marker::Model;

/// After how many additions the recent dots join the settled ones.
const MOST_RECENT: u64 = 512;

/// Dead dots, seen as their set. To put a dot into a large set moves the runs behind it: so it goes to a small one first,
/// and from there to the large one with many others.
pub struct DeadDots<S: DotSet> {
    settled: S,
    recent: S,
    additions: u64,
}

impl<S: DotSet> Drop for DeadDots<S> {
    fn drop(self) {
        let DeadDots {
            settled: _settled,
            recent: _recent,
            additions: _additions,
        } = self;
    }
}

impl<S: DotSet> Model for DeadDots<S> {
    ghost use Rattle.std.specs.FinSet as set;
    ghost use Rattle.rds_dots.specs.Dots.{Dots};
    ghost use Rattle.rds_life.specs.Code.{coded_dots};

    ghost Value = { Dots };

    ghost coded = { coded_dots };

    ghost view = { λ d. set.union (S.contents d.settled) (S.contents d.recent) };
}

impl<S: DotSet> DeadDots<S> {
    /// The dots of a set. Takes no memory.
    pub fn of(alloc: Global, dots: S) -> DeadDots<S>
        ensures { result ≡ S.contents dots }
    {
        DeadDots {
            settled: dots,
            recent: S::empty(alloc),
            additions: 0,
        }
    }

    /// Adds a dot.
    fn add(&mut self, alloc: Global, dot: Dot) -> Result<(), Fault>
        requires { is_dot dot ≡ true }
        ensures { OnOk result
            ((d : Dot) → set.contains self.new d ≡ (eq_by_cmp dot_cmp d dot || set.contains self.old d)) }
    {
        insert_dot(&mut self.recent, dot)?;
        self.settle(alloc, 1)
    }

    /// Adds the dots of a set.
    fn add_all(&mut self, alloc: Global, dots: &S) -> Result<(), Fault>
        ensures { OnOk result ((d : Dot)
            → set.contains self.new d ≡ (set.contains (S.contents dots.now) d || set.contains self.old d)) }
    {
        self.recent = self.recent.union(alloc, dots)?;
        self.settle(alloc, dots.count())
    }

    /// Counts additions, and has the recent dots join the settled ones where there were many.
    fn settle(&mut self, alloc: Global, additions: u64) -> Result<(), Fault>
        ensures { OnOk result (self.new ≡ self.old) }
    {
        self.additions = self.additions.saturating_add(additions);
        if self.additions < MOST_RECENT {
            return Ok(());
        }
        self.settled = self.settled.union(alloc, &self.recent)?;
        self.recent = S::empty(alloc);
        self.additions = 0;
        Ok(())
    }

    /// The dots as one set.
    pub fn dots(&self, alloc: Global) -> Result<S, Fault>
        ensures ok { IfOk result (λ dots. S.contents dots ≡ self.now) }
        ensures memory { IfErr result (λ fault. fault ≡ Memory) }
    {
        self.settled.union(alloc, &self.recent)
    }

    /// A number up to which there is no dot of a replica after the given one.
    pub fn lacks_until(&self, dot: Dot) -> u64
        ensures from { dot.seq ≤ result }
        ensures lacks { (n : ℕ) → dot.seq < n → n ≤ result → set.contains self.now (dot_of dot.replica n) ≡ false }
    {
        lacks_until(&self.settled, dot).min(lacks_until(&self.recent, dot))
    }
}

/// The dead dots with one more. Where memory ends, they are kept no more.
pub fn with_dot<S: DotSet>(
    dead: Option<DeadDots<S>>,
    alloc: Global,
    dot: Dot,
) -> Option<DeadDots<S>>
    requires { is_dot dot ≡ true }
    ensures { HasMore (λ d. eq_by_cmp dot_cmp d dot) dead result }
{
    let mut known = match dead {
        Some(known) => known,
        None => return None,
    };
    match known.add(alloc, dot) {
        Ok(()) => Some(known),
        Err(_) => None,
    }
}

/// The dead dots with those of a set. Where memory ends, they are kept no more.
pub fn with_dots<S: DotSet>(
    dead: Option<DeadDots<S>>,
    alloc: Global,
    dots: &S,
) -> Option<DeadDots<S>>
    ensures { HasMore (set.contains (S.contents dots.now)) dead result }
{
    let mut known = match dead {
        Some(known) => known,
        None => return None,
    };
    match known.add_all(alloc, dots) {
        Ok(()) => Some(known),
        Err(_) => None,
    }
}
