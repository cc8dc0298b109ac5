//! Counters, which are read row by row.
ghost use Rattle.std.specs.Prelude.{◌≡◌, ℕ, List, Ok};
ghost use Rattle.rds_counts.specs.Counted.{AreCountRows, counts_of};
ghost use Rattle.rds_bytes.specs.Reading.{counters_at};
ghost use Rattle.rds_feeds.specs.CountRows.{no_count_rows, count_rows_go_on};

use crate::listed::{Listed, RowReader, Rows, rows};
use crate::made::{Made, Making};
use crate::many::CountWidth;
use crate::unfinished::Unfinished;
use rds_bytes::CountRowReader;
use rds_counts::{CountRow, Counts};
use rds_names::Fault;
use std::alloc::Global;

impl RowReader<CountRow> for CountRowReader {
    ghost are_rows = { λ _ rows. AreCountRows rows };

    ghost begins = { λ _. no_count_rows };

    ghost goes_on = { λ r rows row are read. count_rows_go_on r.replicas rows row are read };
}

/// The counters of rows that were read.
#[derive(Drop)]
pub struct RowsAreCounts {}

impl Making<Listed<CountRowReader, CountRow>> for RowsAreCounts {
    type Made = Counts;

    ghost made = { λ _ l. Ok (counts_of l.1) };

    fn make(self, whole: Listed<CountRowReader, CountRow>) -> Result<Counts, Fault> {
        let Listed { reader: _, rows } = whole;
        Ok(Counts::with_rows(rows))
    }
}

/// Counters that are being read. No more than one row is held.
pub type UnfinishedCounters = Made<Rows<CountRowReader, CountRow>, RowsAreCounts>;

/// The counters of so many replicas, of which nothing was read.
#[tactic(auto, unfolding(rds_bytes::specs::Reading::counters_at))]
pub fn unfinished_counters(alloc: Global, replicas: u16) -> UnfinishedCounters
    ensures { (bytes : List ℕ) → ⟦<UnfinishedCounters as Unfinished>⟧.finish result bytes
        ≡ counters_at replicas bytes }
{
    let from = rows(alloc, CountWidth::Four, CountRowReader { replicas });
    Made {
        from,
        maker: RowsAreCounts {},
    }
}
