//! Lives whose keys are packed numbers of a table, read row by row.
ghost use Rattle.std.specs.Prelude.{◌≡◌, ℕ, List, [], ◌∷◌, ◌++◌, Ok};
ghost use Rattle.rds_life.specs.Life.{lives_of, live_rows};
ghost use Rattle.rds_bytes.specs.Reading.{made_at};
ghost use Rattle.rds_bytes.specs.SteadyLaws.{made_steady};
ghost use Rattle.rds_bytes.specs.Table.{live_keys};
ghost use Rattle.rds_feeds.specs.Chained.{then_finish};
ghost use Rattle.rds_feeds.specs.Numbered.{met_of, with_met};
ghost use Rattle.rds_feeds.specs.Parts.{makes};
ghost use Rattle.rds_packed.specs.GoOn.{few_rows};
ghost use Rattle.rds_packed.specs.PackedReading.{packed_key_at, packed_row_at, packed_lives_at};
ghost use Rattle.rds_packed.specs.PackedSteady.{packed_key_steady, packed_row_steady};

use crate::keys::PackedKeys;
use crate::rows::read_row;
use rds_bytes::{Table, TableKeys};
use rds_dots::{Dot, DotSet};
use rds_feeds::{
    Following, Gathering, Made, Making, Many, Once, Part, Progress, Then, Unfinished,
    UnfinishedPacked, unfinished_packed,
};
use rds_life::Lives;
use rds_names::{Entry, Fault};
use std::alloc::Global;
use std::marker::Model;

/// A table, and lives whose keys are its packed numbers.
#[derive(Drop)]
pub struct PackedLives<S: DotSet> {
    table: Table,
    lives: Lives<S>,
    met: Option<usize>,
}

impl<S: DotSet> Model for PackedLives<S> {
    ghost use Rattle.std.specs.Prelude.{◌≡◌};
    ghost use Rattle.rds_life.specs.Life.{live_rows};
    ghost use Rattle.rds_bytes.specs.Table.{live_keys};
    ghost use Rattle.rds_feeds.specs.Numbered.{TabledLives, coded_tabled_lives, met_of};

    ghost Value = { TabledLives };

    ghost coded = { coded_tabled_lives };

    ghost view = { λ l. (l.table, l.lives) };

    ghost invariant = { λ l. l.met ≡ met_of l.table (live_keys (live_rows l.lives)) };
}

impl<S: DotSet> PackedLives<S> {
    /// What the live rows met of the table.
    pub(crate) fn met(&self) -> Option<usize>
        ensures { result ≡ met_of self.now.0 (live_keys (live_rows self.now.1)) }
    {
        self.met
    }

    /// The keys of the table, of which so much was met.
    pub(crate) fn keys(&self, met: Option<usize>) -> TableKeys<'_>
        ensures { result ≡ record { keys = self.now.0; met = met } }
    {
        self.table.keys(met)
    }

    /// The table, the lives, and how many keys of the table they met in turn.
    pub fn into_parts(self) -> (Table, Lives<S>, Option<usize>)
        ensures table { result.0 ≡ self.0 }
        ensures lives { result.1 ≡ self.1 }
        ensures met { result.2 ≡ met_of self.0 (live_keys (live_rows self.1)) }
    {
        let PackedLives { table, lives, met } = self;
        (table, lives, met)
    }
}

/// What live rows are read by: a table, and the set of the dots that were seen.
#[derive(Drop)]
pub struct LivesBy<S: DotSet> {
    table: Table,
    seen: S,
}

/// The live rows that were read, and how many keys of the table they met in turn.
#[derive(Drop)]
pub struct LivesSoFar<S: DotSet> {
    by: LivesBy<S>,
    rows: Vec<(Dot, Entry)>,
    met: Option<usize>,
}

impl<S: DotSet> Model for LivesSoFar<S> {
    ghost use Rattle.std.specs.Prelude.{◌≡◌, List};
    ghost use Rattle.rds_names.specs.declared.entry.Entry.{Entry};
    ghost use Rattle.rds_dots.specs.declared.dot.Dot.{Dot};
    ghost use Rattle.rds_life.specs.Life.{AreRows};
    ghost use Rattle.rds_bytes.specs.Table.{live_keys};
    ghost use Rattle.rds_feeds.specs.Numbered.{met_of};
    ghost use Rattle.rds_packed.specs.declared.lives.LivesBy.{LivesBy};

    ghost Value = { LivesBy S × List (Dot × Entry) };

    ghost view = { λ l. (l.by, l.rows.items) };

    ghost invariant = { λ l. (l.met ≡ met_of l.by.table (live_keys l.rows.items))
        × AreRows (S.contents l.by.seen) l.rows.items };
}

impl<S: DotSet> Part for LivesSoFar<S> {
    type Read = ((Dot, Entry), Option<usize>);

    type Whole = LivesSoFar<S>;

    ghost reader = { λ l. made_at (with_met (λ rows. met_of l.0.table (live_keys rows)) l.1)
        (packed_row_at (packed_key_at l.0.table) (S.contents l.0.seen) l.1) };

    ghost made = { λ l read. (l.0, l.1 ++ read.0 ∷ []) };

    fn read<'a>(
        &self,
        alloc: Global,
        bytes: &'a [u8],
    ) -> Result<(((Dot, Entry), Option<usize>), &'a [u8]), Fault> {
        let mut keys = PackedKeys::new(self.by.table.keys(self.met));
        let (row, rest) = read_row(alloc, &mut keys, &self.by.seen, &self.rows, bytes)?;
        Ok(((row, keys.into_met()), rest))
    }

    fn make(self, part: ((Dot, Entry), Option<usize>)) -> Result<LivesSoFar<S>, Fault> {
        let mut whole = self;
        whole.add(part, 0, 0)?;
        Ok(whole)
    }

    ghost steady = { λ l. made_steady (with_met (λ rows. met_of l.0.table (live_keys rows)) l.1)
        (packed_row_at (packed_key_at l.0.table) (S.contents l.0.seen) l.1)
        (packed_row_steady (packed_key_at l.0.table) (packed_key_steady l.0.table) (S.contents l.0.seen) l.1) };
}

impl<S: DotSet> Gathering for LivesSoFar<S> {
    fn add(
        &mut self,
        part: ((Dot, Entry), Option<usize>),
        _coming: u32,
        _bytes: usize,
    ) -> Result<(), Fault> {
        let (row, met) = part;
        self.rows.push(row)?;
        self.met = met;
        Ok(())
    }
}

/// The lives of rows that were read, beside their table.
#[derive(Drop)]
pub struct RowsArePackedLives {}

impl<S: DotSet> Making<LivesSoFar<S>> for RowsArePackedLives {
    type Made = PackedLives<S>;

    ghost made = { λ _ m. Ok (m.0.table, lives_of (S.contents m.0.seen) m.1) };

    fn make(self, whole: LivesSoFar<S>) -> Result<PackedLives<S>, Fault> {
        let LivesSoFar { by, rows, met } = whole;
        let LivesBy { table, seen } = by;
        let lives = Lives::with_rows(seen, rows);
        Ok(PackedLives { table, lives, met })
    }
}

type RowsToRead<S> = Many<Once<LivesSoFar<S>>, LivesSoFar<S>>;

/// The rows that follow their number.
#[derive(Drop)]
pub struct RowsFollow<S: DotSet> {
    rows: LivesSoFar<S>,
}

impl<S: DotSet> Following<u64> for RowsFollow<S> {
    type Next = RowsToRead<S>;

    ghost after = { λ f count. few_rows ⟦<RowsToRead<S> as Unfinished>⟧.finish f.rows count };

    fn start(self, _alloc: Global, first: u64) -> Result<RowsToRead<S>, Fault> {
        if first > u64::from(u32::MAX) {
            return Err(Fault::Bad);
        }
        let RowsFollow { rows } = self;
        Ok(Many::Rows(first as u32, rows))
    }
}

type CountedRows<S> = Then<UnfinishedPacked, RowsFollow<S>, RowsToRead<S>>;

type LivesParts<S> = Made<CountedRows<S>, RowsArePackedLives>;

/// Lives by the packed numbers of a table that are being read. No more than one live row is held.
#[derive(Drop)]
pub struct UnfinishedPackedLives<S: DotSet> {
    parts: LivesParts<S>,
}

impl<S: DotSet> Unfinished for UnfinishedPackedLives<S> {
    type Whole = PackedLives<S>;

    ghost finish = { λ u. makes (then_finish ⟦<UnfinishedPacked as Unfinished>⟧.finish
        (λ f count. few_rows ⟦<RowsToRead<S> as Unfinished>⟧.finish f.rows count)
        ⟦<RowsToRead<S> as Unfinished>⟧.finish u.parts.from)
        (λ m. Ok (m.0.table, lives_of (S.contents m.0.seen) m.1)) };

    fn read_on<'a>(
        self,
        alloc: Global,
        bytes: &'a [u8],
    ) -> Result<(Progress<Self, PackedLives<S>>, &'a [u8]), Fault> {
        let (progress, rest) = self.parts.read_on(alloc, bytes)?;
        match progress {
            Progress::More(parts) => Ok((Progress::More(UnfinishedPackedLives { parts }), rest)),
            Progress::Whole(lives) => Ok((Progress::Whole(lives), rest)),
        }
    }
}

/// The lives of the dots that were seen, of which no live row was read, by the packed numbers of a table.
pub fn unfinished_packed_lives<S: DotSet>(
    alloc: Global,
    table: Table,
    seen: S,
) -> UnfinishedPackedLives<S>
    ensures { (bytes : List ℕ) → ⟦<UnfinishedPackedLives<S> as Unfinished>⟧.finish result bytes
        ≡ made_at (λ rows. (table, lives_of (S.contents seen) rows))
        (packed_lives_at (packed_key_at table) (S.contents seen)) bytes }
{
    let rows = LivesSoFar {
        by: LivesBy { table, seen },
        rows: Vec::new(alloc),
        met: Some(0),
    };
    UnfinishedPackedLives {
        parts: Made {
            from: Then::First(unfinished_packed(), RowsFollow { rows }),
            maker: RowsArePackedLives {},
        },
    }
}
