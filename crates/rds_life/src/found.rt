//! Live dots that were found beforehand.
ghost use Rattle.std.specs.Prelude.{◌≡◌, Bool};
ghost use Rattle.std.specs.FinMap as map;
ghost use Rattle.rds_names.specs.declared.entry.Entry.{Entry};
ghost use Rattle.rds_dots.specs.declared.dot.Dot.{Dot};
ghost use Rattle.rds_life.specs.Killed.{killed_by, but_for};

use crate::lives::Lives;
use rds_dots::{Dot, DotSet};

/// Live dots that were found, so that they are made dead without a look at the others.
pub trait Found {
    /// Whether a live dot with this entry was found.
    ghost found: { Self → Dot → Entry → Bool };

    /// Makes the dots dead that were found, but the one that is to stay. Want of memory does no harm.
    fn kill_in<S: DotSet>(&self, lives: &mut Lives<S>, but: Option<Dot>)
        ensures { (d : Dot) → map.get lives.new d ≡ killed_by (but_for but (found self.now)) d (map.get lives.old d) };
}
