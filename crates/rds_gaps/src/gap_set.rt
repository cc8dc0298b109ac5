//! A set of dots as its maximal runs.
ghost use Rattle.std.specs.Prelude.{◌≡◌, ◌≤◌, ◌+◌, ◌-◌, ◌||◌, true, IsTrue, IfOk, IfErr, OnOk, OnErr};
ghost use Rattle.std.specs.FinSet as set;
ghost use Rattle.rds_dots.specs.Dots.{IsRun};
ghost use Rattle.rds_dots.specs.Runs.{are_maximal};

use crate::counting::count;
use crate::cutting::difference_of;
use crate::inserting::insert_run;
use crate::merging::union_of;
use crate::searching::{has, run_after, top};
use rds_dots::{Dot, DotSet, Run};
use rds_names::Fault;
use std::alloc::Global;

/// A set of dots as its maximal runs, in order.
///
/// This is how interval sets are kept: as intervals that rise and neither meet nor touch, of which no two
/// could be one. A causal context (Almeida, Shoker, Baquero 2018) mostly has long runs, and so takes room
/// for its gaps here, not for its dots.
///
/// A look-up, the greatest number of a replica and the first run after a dot are binary searches. A run
/// that begins no earlier than the last one is put behind it, or joined to it, in amortized constant time;
/// another one takes a binary search and a move of the runs behind it. Union, difference, count and copy are
/// one pass over the runs.
#[derive(Debug, Drop)]
pub struct GapSet {
    runs: Vec<Run>,
    pub ghost maximal: { IsTrue (are_maximal runs.items) },
}

impl DotSet for GapSet {
    ghost use Rattle.rds_gaps.specs.RunSets.{set_of, within_runs};

    ghost contents = { λ s. set_of s.runs.items };

    ghost within = { λ s d has. within_runs s.runs.items s.maximal d has };

    fn empty(alloc: Global) -> GapSet {
        GapSet {
            runs: Vec::new(alloc),
        }
    }

    fn contains(&self, dot: Dot) -> bool {
        has(&self.runs, dot)
    }

    fn top(&self, replica: u8) -> u64 {
        top(&self.runs, replica)
    }

    fn count(&self) -> u64 {
        count(&self.runs)
    }

    fn insert_run(&mut self, run: Run) -> Result<(), Fault> {
        insert_run(&mut self.runs, run)?;
        Ok(())
    }

    fn union(&self, alloc: Global, other: &GapSet) -> Result<GapSet, Fault> {
        Ok(GapSet {
            runs: union_of(alloc, &self.runs, &other.runs)?,
        })
    }

    fn minus(&self, alloc: Global, other: &GapSet) -> Result<GapSet, Fault> {
        Ok(GapSet {
            runs: difference_of(alloc, &self.runs, &other.runs)?,
        })
    }

    fn copy(&self, alloc: Global) -> Result<GapSet, Fault> {
        Ok(GapSet {
            runs: Vec::from_slice(alloc, &self.runs)?,
        })
    }

    fn run_after(&self, after: Option<Dot>) -> Option<Run> {
        match after {
            Some(dot) => run_after(&self.runs, dot),
            None => self.runs.as_slice().first().copied(),
        }
    }
}
