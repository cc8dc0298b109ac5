//! Going over the live rows.
ghost use Rattle.std.specs.Prelude.{◌≡◌, true, IfSome};
ghost use Rattle.rds_life.specs.Life.{keys};
ghost use Rattle.rds_life.specs.Past.{rows_past};
ghost use Rattle.rds_dots.specs.Ascending.{ascends};

use crate::row_map::{MappedRows, RowMap};
use crate::rows::past;
use rds_dots::Dot;
use rds_names::Entry;
use std::marker::Model;

/// How the rows that are still to come are kept.
#[derive(Drop)]
enum Rest<'a> {
    /// In a list.
    Listed(&'a [(Dot, Entry)]),
    /// In a map.
    Mapped(MappedRows<'a>),
}

/// The live dots that are still to come with their entries, in the order of the dots.
#[derive(Drop)]
pub struct LiveRows<'a> {
    rest: Rest<'a>,
}

impl<'a> Model for LiveRows<'a> {
    ghost use Rattle.std.specs.Prelude.{◌≡◌, true, List};
    ghost use Rattle.rds_names.specs.declared.entry.Entry.{Entry};
    ghost use Rattle.rds_dots.specs.declared.dot.Dot.{Dot};
    ghost use Rattle.rds_dots.specs.Ascending.{ascends};
    ghost use Rattle.rds_life.specs.Life.{keys};

    ghost Value = { List (Dot × Entry) };

    ghost use Rattle.rds_life.specs.Rests.{rows_to_come};

    ghost view = { λ r. rows_to_come r.rest };

    ghost invariant = { λ r. ascends (keys (rows_to_come r.rest)) ≡ true };
}

impl<'a> LiveRows<'a> {
    /// The rows of a list.
    pub(crate) fn listed(rows: &'a [(Dot, Entry)]) -> LiveRows<'a>
        requires { ascends (keys rows.now) ≡ true }
        ensures { result ≡ rows.now }
    {
        LiveRows {
            rest: Rest::Listed(rows),
        }
    }

    /// The rows of a map.
    pub(crate) fn mapped(rows: &'a RowMap) -> LiveRows<'a>
        ensures { result ≡ rows.now }
    {
        LiveRows {
            rest: Rest::Mapped(rows.iter()),
        }
    }

    /// The rows that are still to come, where they are kept in a list; inside an index they aren't.
    pub fn as_slice(&self) -> Option<&'a [(Dot, Entry)]>
        ensures { IfSome result (λ rows. rows.now ≡ self.now) }
    {
        match &self.rest {
            Rest::Listed(rows) => Some(*rows),
            Rest::Mapped(_) => None,
        }
    }

    /// Leaves out the rows up to the given dot and of the dot itself: a search, whose cost grows
    /// with the logarithm of how many rows there are.
    pub fn skip_past(&mut self, dot: Dot)
        ensures past { self.new ≡ rows_past dot self.old }
        ensures ascending { ascends (keys self.new) ≡ true }
    {
        match &mut self.rest {
            Rest::Listed(rows) => *rows = past(rows, dot),
            Rest::Mapped(rows) => rows.skip_past(dot),
        }
    }
}

impl<'a> Iterator for LiveRows<'a> {
    type Item = (Dot, &'a Entry);

    ghost use Rattle.std.specs.Iterator.{YieldsFirstBy, item_count};

    ghost next_gives = { YieldsFirstBy (λ item. (item.0, item.1.now)) (λ rest. rest) };

    ghost remaining = { item_count (λ rest. rest) };

    fn next(&mut self) -> Option<(Dot, &'a Entry)> {
        match &mut self.rest {
            Rest::Listed(rows) => {
                let (row, later) = rows.split_first()?;
                *rows = later;
                Some((row.0, &row.1))
            }
            Rest::Mapped(rows) => rows.next(),
        }
    }
}
