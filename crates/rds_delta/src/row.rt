//! The rows of a certificate.
ghost use Rattle.std.specs.Prelude.{◌≡◌};

use rds_counts::Which;
use rds_dots::{Dot, Run};
use rds_names::Key;
use std::marker::Model;

/// What the digested side has in place of one or more components of a delta. Any row can be written down; what is said
/// here of each holds in a certificate that `check` accepts.
#[derive(Debug, Drop)]
pub enum Row {
    /// The dot is live in the delta, and unseen there.
    Live(Dot),
    /// The dots of the run are dead in the delta, and there they all have this rank: 0 where they are unseen, 1
    /// where they are live.
    Dead(Run, u8),
    /// A number of the delta is above the one there.
    Count {
        /// The counter's key.
        key: Key,
        /// The replica's number.
        replica: u8,
        /// Whether it is the sum of its increments or of its decrements.
        which: Which,
        /// The delta's number.
        sent: u64,
        /// The number there, which is less.
        peer: u64,
    },
}

/// The rows that say for each component of a delta what the digested side has in its place, and so that each is
/// needed: the dots in their order, then the numbers by key, replica, increments before decrements.
pub struct Certificate {
    rows: Vec<Row>,
}

impl Drop for Certificate {
    fn drop(self) {
        let Certificate { rows: _rows } = self;
    }
}

impl Model for Certificate {
    ghost use Rattle.std.specs.Prelude.{List};
    ghost use Rattle.rds_delta.specs.declared.row.Row.{Row};

    ghost Value = { List Row };

    ghost view = { λ c. c.rows.items };
}

impl Certificate {
    /// A certificate of these rows, which `check` is to judge. Takes no memory.
    pub fn new(rows: Vec<Row>) -> Certificate
        ensures { result ≡ rows.items }
    {
        Certificate { rows }
    }

    /// The rows in order.
    pub fn rows(&self) -> &[Row]
        ensures { result.now ≡ self.now }
    {
        &self.rows
    }
}
