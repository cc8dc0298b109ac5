//! What a delta has of a replica's own that the replica lacks.
ghost use Rattle.std.specs.Prelude.{◌≡◌};
ghost use Rattle.rds_counts.specs.Counted.{number};
ghost use Rattle.rds_state.specs.Ahead.{Ahead, SeqAhead, NumberAhead};
ghost use Rattle.rds_state.specs.RowsAhead.{rows_ahead};

use crate::state::State;
use rds_counts::{CountRow, Counts};
use rds_dots::{DotSet, first_lacking};
use rds_life::Lives;
use rds_names::Own;

/// The least own dot, else the first own number, that the delta has and the replica lacks.
pub fn own_ahead<S: DotSet>(state: &State<S>, own: u8, delta: &State<S>) -> Option<Own>
    ensures { Ahead state.now own delta.now result }
{
    match seq_ahead(state.lives(), own, delta.lives()) {
        Some(seq) => Some(Own::Seq(seq)),
        None => number_above(state.counts(), own, delta.counts()),
    }
}

fn seq_ahead<S: DotSet>(lives: &Lives<S>, own: u8, delta: &Lives<S>) -> Option<u64>
    ensures { SeqAhead lives.now own delta.now result }
{
    first_lacking(lives.seen(), delta.seen(), own)
}

fn number_above(counts: &Counts, own: u8, delta: &Counts) -> Option<Own>
    ensures { NumberAhead (number counts.now) own (number delta.now) result }
{
    first_above(counts, own, delta.rows())
}

fn first_above(counts: &Counts, own: u8, rows: &[CountRow]) -> Option<Own>
    ensures { result ≡ rows_ahead (number counts.now) own rows.now }
{
    let mut rest = rows;
    'looking: loop {
        let (row, later) = rest.split_first()?;
        if row.replica == own {
            let (p, n) = counts.pair(&row.key, row.replica);
            if p < row.p {
                return Some(Own::Plus(row.p));
            }
            if n < row.n {
                return Some(Own::Minus(row.n));
            }
        }
        rest = later;
    }
}
