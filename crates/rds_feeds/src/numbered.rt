//! Lives and counters whose keys are numbers of a table, read row by row.
ghost use Rattle.std.specs.Prelude.{◌≡◌, ℕ, List, true, false, MatchOption, IfSome, Ok};
ghost use Rattle.rds_life.specs.Life.{AreRows, lives_of, live_rows};
ghost use Rattle.rds_counts.specs.Counted.{AreCountRows, counts_of};
ghost use Rattle.rds_counts.specs.RowsOf.{count_rows};
ghost use Rattle.rds_bytes.specs.Reading.{
  made_at,
  keyed_live_row_at,
  keyed_live_rows_at,
  keyed_count_row_at,
  keyed_counters_at,
};
ghost use Rattle.rds_bytes.specs.SteadyParts.{keyed_live_row_steady, keyed_count_row_steady};
ghost use Rattle.rds_bytes.specs.SteadyTables.{numbered_steady};
ghost use Rattle.rds_bytes.specs.Table.{live_keys, used_keys};
ghost use Rattle.rds_bytes.specs.TableTexts.{numbered_at};
ghost use Rattle.rds_feeds.specs.CountRows.{no_count_rows, numbered_counts_go_on};
ghost use Rattle.rds_feeds.specs.LiveRows.{no_live_rows, keyed_rows_go_on};
ghost use Rattle.rds_feeds.specs.Numbered.{met_of, has_own_table};

use crate::made::{Made, Making};
use crate::meeting::{MeetingReader, MeetingRows, MetRows, meeting_rows};
use crate::unfinished::Unfinished;
use rds_bytes::{Table, TableKeys, read_keyed_count_row, read_keyed_live_row};
use rds_counts::{CountRow, Counts};
use rds_dots::{Dot, DotSet};
use rds_life::Lives;
use rds_names::{Entry, Fault};
use std::alloc::Global;
use std::marker::Model;

/// A table, and lives whose keys are its numbers.
#[derive(Drop)]
pub struct NumberedLives<S: DotSet> {
    table: Table,
    lives: Lives<S>,
    met: Option<usize>,
}

impl<S: DotSet> Model for NumberedLives<S> {
    ghost use Rattle.std.specs.Prelude.{◌≡◌};
    ghost use Rattle.rds_life.specs.Life.{live_rows};
    ghost use Rattle.rds_bytes.specs.Table.{live_keys};
    ghost use Rattle.rds_feeds.specs.Numbered.{TabledLives, coded_tabled_lives, met_of};

    ghost Value = { TabledLives };

    ghost coded = { coded_tabled_lives };

    ghost view = { λ l. (l.table, l.lives) };

    ghost invariant = { λ l. l.met ≡ met_of l.table (live_keys (live_rows l.lives)) };
}

impl<S: DotSet> NumberedLives<S> {
    /// What the live rows met of the table.
    fn met(&self) -> Option<usize>
        ensures { result ≡ met_of self.now.0 (live_keys (live_rows self.now.1)) }
    {
        self.met
    }

    /// The keys of the table, of which so much was met.
    fn keys(&self, met: Option<usize>) -> TableKeys<'_>
        ensures { result ≡ record { keys = self.now.0; met = met } }
    {
        self.table.keys(met)
    }

    /// The counters beside them, after which so much was met.
    fn with_counts(self, counts: Counts, met: Option<usize>) -> NumberedParts<S>
        requires { met ≡ met_of self.0 (used_keys (live_rows self.1) (count_rows counts)) }
        ensures { result ≡ (self.0, (self.1, counts)) }
    {
        let NumberedLives {
            table,
            lives,
            met: _,
        } = self;
        NumberedParts {
            table,
            lives,
            counts,
            met,
        }
    }
}

/// A table, and lives and counters whose keys are its numbers.
#[derive(Drop)]
pub struct NumberedParts<S: DotSet> {
    table: Table,
    lives: Lives<S>,
    counts: Counts,
    met: Option<usize>,
}

impl<S: DotSet> Model for NumberedParts<S> {
    ghost use Rattle.std.specs.Prelude.{◌≡◌};
    ghost use Rattle.rds_feeds.specs.Numbered.{TabledParts, coded_tabled_parts, met_of, keys_of};

    ghost Value = { TabledParts };

    ghost coded = { coded_tabled_parts };

    ghost view = { λ p. (p.table, (p.lives, p.counts)) };

    ghost invariant = { λ p. p.met ≡ met_of p.table (keys_of (p.lives, p.counts)) };
}

impl<S: DotSet> NumberedParts<S> {
    /// The lives and the counters, where the table has exactly the keys that they use, in the order of first use; else
    /// `None`.
    pub fn into_tabled(self) -> Option<(Lives<S>, Counts)>
        ensures exact { MatchOption result (has_own_table self ≡ false) (λ _. has_own_table self ≡ true) }
        ensures parts { IfSome result (λ parts. parts ≡ self.1) }
    {
        let NumberedParts {
            table,
            lives,
            counts,
            met,
        } = self;
        if !table.keys(met).is_met() {
            return None;
        }
        Some((lives, counts))
    }
}

/// Reads the rows of live dots by the numbers of a table, and has the set of the dots that were seen.
#[derive(Drop)]
pub struct NumberedLiveReader<S: DotSet> {
    table: Table,
    seen: S,
}

impl<S: DotSet> MeetingReader<(Dot, Entry)> for NumberedLiveReader<S> {
    ghost reader = { λ r before. keyed_live_row_at (numbered_at r.table) (S.contents r.seen) before };

    ghost met_by = { λ r rows. met_of r.table (live_keys rows) };

    fn read<'a>(
        &self,
        alloc: Global,
        before: &[(Dot, Entry)],
        met: Option<usize>,
        bytes: &'a [u8],
    ) -> Result<(((Dot, Entry), Option<usize>), &'a [u8]), Fault> {
        let mut keys = self.table.keys(met);
        let (row, rest) = read_keyed_live_row(alloc, &mut keys, &self.seen, before, bytes)?;
        Ok(((row, keys.into_met()), rest))
    }

    ghost are_rows = { λ r rows. AreRows (S.contents r.seen) rows };

    ghost begins = { λ r. no_live_rows (S.contents r.seen) };

    ghost goes_on = { λ r rows row are read.
        keyed_rows_go_on (numbered_at r.table) (S.contents r.seen) rows row are read };

    ghost steady = { λ r before.
        keyed_live_row_steady (numbered_at r.table) (numbered_steady r.table) (S.contents r.seen) before };
}

/// The lives of rows that were read, beside their table.
#[derive(Drop)]
pub struct RowsAreNumberedLives {}

impl<S: DotSet> Making<MetRows<NumberedLiveReader<S>, (Dot, Entry)>> for RowsAreNumberedLives {
    type Made = NumberedLives<S>;

    ghost made = { λ _ m. Ok (m.0.table, lives_of (S.contents m.0.seen) m.1) };

    fn make(
        self,
        whole: MetRows<NumberedLiveReader<S>, (Dot, Entry)>,
    ) -> Result<NumberedLives<S>, Fault> {
        let MetRows { reader, rows, met } = whole;
        let NumberedLiveReader { table, seen } = reader;
        let lives = Lives::with_rows(seen, rows);
        Ok(NumberedLives { table, lives, met })
    }
}

/// Lives by the numbers of a table that are being read. No more than one live row is held.
pub type UnfinishedNumberedLives<S> = Made<
    MeetingRows<NumberedLiveReader<S>, (Dot, Entry)>,
    RowsAreNumberedLives,
>;

/// The lives of the dots that were seen, of which no live row was read, by the numbers of a table.
pub fn unfinished_numbered_lives<S: DotSet>(
    alloc: Global,
    table: Table,
    seen: S,
) -> UnfinishedNumberedLives<S>
    ensures { (bytes : List ℕ) → ⟦<UnfinishedNumberedLives<S> as Unfinished>⟧.finish result bytes
        ≡ made_at (λ rows. (table, lives_of (S.contents seen) rows))
        (keyed_live_rows_at (numbered_at table) (S.contents seen)) bytes }
{
    let from = meeting_rows(alloc, NumberedLiveReader { table, seen }, Some(0));
    Made {
        from,
        maker: RowsAreNumberedLives {},
    }
}

/// Reads the rows of counters of so many replicas by the numbers of a table, after the lives by the same table.
#[derive(Drop)]
pub struct NumberedCountReader<S: DotSet> {
    lives: NumberedLives<S>,
    replicas: u16,
}

impl<S: DotSet> MeetingReader<CountRow> for NumberedCountReader<S> {
    ghost reader = { λ r before. keyed_count_row_at (numbered_at r.lives.0) r.replicas before };

    ghost met_by = { λ r rows. met_of r.lives.0 (used_keys (live_rows r.lives.1) rows) };

    fn read<'a>(
        &self,
        alloc: Global,
        before: &[CountRow],
        met: Option<usize>,
        bytes: &'a [u8],
    ) -> Result<((CountRow, Option<usize>), &'a [u8]), Fault> {
        let mut keys = self.lives.keys(met);
        let (row, rest) = read_keyed_count_row(alloc, &mut keys, self.replicas, before, bytes)?;
        Ok(((row, keys.into_met()), rest))
    }

    ghost are_rows = { λ _ rows. AreCountRows rows };

    ghost begins = { λ _. no_count_rows };

    ghost goes_on = { λ r rows row are read. numbered_counts_go_on r.lives.0 r.replicas rows row are read };

    ghost steady = { λ r before.
        keyed_count_row_steady (numbered_at r.lives.0) (numbered_steady r.lives.0) r.replicas before };
}

/// The counters of rows that were read, beside their table and the lives.
#[derive(Drop)]
pub struct RowsAreNumberedCounts {}

impl<S: DotSet> Making<MetRows<NumberedCountReader<S>, CountRow>> for RowsAreNumberedCounts {
    type Made = NumberedParts<S>;

    ghost made = { λ _ m. Ok (m.0.lives.0, (m.0.lives.1, counts_of m.1)) };

    fn make(
        self,
        whole: MetRows<NumberedCountReader<S>, CountRow>,
    ) -> Result<NumberedParts<S>, Fault> {
        let MetRows { reader, rows, met } = whole;
        let NumberedCountReader { lives, replicas: _ } = reader;
        Ok(lives.with_counts(Counts::with_rows(rows), met))
    }
}

/// Counters by the numbers of a table that are being read, after the lives. No more than one row is held.
pub type UnfinishedNumberedCounters<S> = Made<
    MeetingRows<NumberedCountReader<S>, CountRow>,
    RowsAreNumberedCounts,
>;

/// The counters of so many replicas, of which nothing was read, by the numbers of the table of the lives before them.
pub fn unfinished_numbered_counters<S: DotSet>(
    alloc: Global,
    lives: NumberedLives<S>,
    replicas: u16,
) -> UnfinishedNumberedCounters<S>
    ensures { (bytes : List ℕ) → ⟦<UnfinishedNumberedCounters<S> as Unfinished>⟧.finish result bytes
        ≡ made_at (λ counts. (lives.0, (lives.1, counts))) (keyed_counters_at (numbered_at lives.0) replicas) bytes }
{
    let met = lives.met();
    let from = meeting_rows(alloc, NumberedCountReader { lives, replicas }, met);
    Made {
        from,
        maker: RowsAreNumberedCounts {},
    }
}
