//! A set of dots as an ascending list.
ghost use Rattle.std.specs.Prelude.{◌≡◌, ◌+◌, ◌-◌, ◌||◌, [], true, IsTrue, IfOk, IfErr, OnOk, OnErr};
ghost use Rattle.std.specs.List.{list_all};
ghost use Rattle.std.specs.FinSet as set;
ghost use Rattle.rds_dots.specs.Ascending.{ascends};
ghost use Rattle.rds_dots.specs.Dots.{dot_cmp, is_dot};

use crate::dot::{Dot, MAX_SEQ, Run};
use crate::lists::{difference_of, has, push_run, run_after, split_after, union_of};
use crate::set::DotSet;
use rds_names::Fault;
use std::alloc::Global;

/// A set of dots as a sorted list of them.
///
/// A look-up is a binary search, and so is finding where a run begins and where it ends, so that the
/// first run after a dot takes no longer where runs are long. A run that is inserted past the last dot
/// is appended; union and difference are one pass over both lists.
#[derive(Debug, Drop)]
pub struct ListSet {
    dots: Vec<Dot>,
    ghost ascending: { IsTrue (ascends dots.items) },
    ghost are_dots: { IsTrue (list_all is_dot dots.items) },
}

impl DotSet for ListSet {
    ghost use Rattle.rds_dots.specs.Sets.{within_list};

    ghost contents = { λ s. set.from_list s.dots.items };

    ghost within = { λ s d has. within_list s.dots.items s.are_dots d has };

    fn empty(alloc: Global) -> ListSet {
        ListSet {
            dots: Vec::new(alloc),
        }
    }

    fn contains(&self, dot: Dot) -> bool {
        has(&self.dots, dot)
    }

    fn top(&self, replica: u8) -> u64 {
        let greatest = Dot {
            replica,
            seq: MAX_SEQ,
        };
        let (upto, _) = split_after(&self.dots, Some(greatest));
        let Some(last) = upto.last() else {
            return 0;
        };
        if last.replica == replica { last.seq } else { 0 }
    }

    fn count(&self) -> u64 {
        self.dots.as_slice().len() as u64
    }

    fn insert_run(&mut self, run: Run) -> Result<(), Fault> {
        let previous = Dot {
            replica: run.replica,
            seq: run.lo - 1,
        };
        let (before, from) = split_after(&self.dots, Some(previous));
        if from.is_empty() {
            push_run(&mut self.dots, run)?;
            return Ok(());
        }
        let (_, later) = split_after(from, Some(run.last()));
        let mut dots = Vec::from_slice(*self.dots.allocator(), before)?;
        push_run(&mut dots, run)?;
        dots.extend_from_slice(later)?;
        *self = ListSet { dots };
        Ok(())
    }

    fn union(&self, alloc: Global, other: &ListSet) -> Result<ListSet, Fault> {
        Ok(ListSet {
            dots: union_of(alloc, &self.dots, &other.dots)?,
        })
    }

    fn minus(&self, alloc: Global, other: &ListSet) -> Result<ListSet, Fault> {
        Ok(ListSet {
            dots: difference_of(alloc, &self.dots, &other.dots)?,
        })
    }

    fn copy(&self, alloc: Global) -> Result<ListSet, Fault> {
        Ok(ListSet {
            dots: Vec::from_slice(alloc, &self.dots)?,
        })
    }

    fn run_after(&self, after: Option<Dot>) -> Option<Run> {
        run_after(&self.dots, after)
    }
}
