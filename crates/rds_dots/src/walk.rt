//! A walk over the maximal runs of a set.

use crate::dot::{Dot, Run};
use crate::set::DotSet;
use std::marker::Model;

/// The maximal runs of a set that are still to come, in order.
#[derive(Drop)]
pub struct Runs<'a, S: DotSet> {
    pub(crate) set: &'a S,
    pub(crate) after: Option<Dot>,
}

impl<'a, S: DotSet> Model for Runs<'a, S> {
    ghost use Rattle.std.specs.Prelude.{List};
    ghost use Rattle.rds_dots.specs.declared.dot.Run.{Run};
    ghost use Rattle.rds_dots.specs.Runs.{runs_of};
    ghost use Rattle.rds_dots.specs.RunsAfter.{runs_left};

    ghost Value = { List Run };

    ghost view = { λ r. runs_left r.after (runs_of (S.contents r.set.now)) };
}

impl<'a, S: DotSet> Iterator for Runs<'a, S> {
    type Item = Run;

    ghost use Rattle.std.specs.Iterator.{YieldsFirst, item_count};

    ghost next_gives = { YieldsFirst (λ left. left) };

    ghost remaining = { item_count (λ left. left) };

    fn next(&mut self) -> Option<Run> {
        let run = self.set.run_after(self.after)?;
        self.after = Some(run.last());
        Some(run)
    }
}
