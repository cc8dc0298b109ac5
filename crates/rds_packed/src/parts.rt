//! Lives and counters whose keys are packed numbers of a table: the counters are read row by row after the lives.
ghost use Rattle.std.specs.Prelude.{◌≡◌, ℕ, List, true, false, MatchOption, IfSome, [], ◌∷◌, ◌++◌, Ok};
ghost use Rattle.rds_life.specs.Life.{live_rows};
ghost use Rattle.rds_counts.specs.Counted.{counts_of};
ghost use Rattle.rds_bytes.specs.Reading.{made_at};
ghost use Rattle.rds_bytes.specs.SteadyLaws.{made_steady};
ghost use Rattle.rds_bytes.specs.Table.{used_keys};
ghost use Rattle.rds_feeds.specs.Chained.{then_finish};
ghost use Rattle.rds_feeds.specs.Numbered.{met_of, with_met, has_own_table};
ghost use Rattle.rds_feeds.specs.Parts.{makes};
ghost use Rattle.rds_packed.specs.CountSteady.{packed_count_row_steady};
ghost use Rattle.rds_packed.specs.CountTexts.{packed_count_row_at, packed_counters_at};
ghost use Rattle.rds_packed.specs.GoOn.{few_rows};
ghost use Rattle.rds_packed.specs.PackedReading.{packed_key_at};
ghost use Rattle.rds_packed.specs.PackedSteady.{packed_key_steady};

use crate::counters::read_count_row;
use crate::keys::PackedKeys;
use crate::lives::PackedLives;
use rds_bytes::Table;
use rds_counts::{CountRow, Counts};
use rds_dots::DotSet;
use rds_feeds::{
    Following, Gathering, Made, Making, Many, Once, Part, Progress, Then, Unfinished,
    UnfinishedPacked, unfinished_packed,
};
use rds_life::Lives;
use rds_names::Fault;
use std::alloc::Global;
use std::marker::Model;

/// A table, and lives and counters whose keys are its packed numbers.
#[derive(Drop)]
pub struct PackedParts<S: DotSet> {
    table: Table,
    lives: Lives<S>,
    counts: Counts,
    met: Option<usize>,
}

impl<S: DotSet> Model for PackedParts<S> {
    ghost use Rattle.std.specs.Prelude.{◌≡◌};
    ghost use Rattle.rds_feeds.specs.Numbered.{TabledParts, coded_tabled_parts, met_of, keys_of};

    ghost Value = { TabledParts };

    ghost coded = { coded_tabled_parts };

    ghost view = { λ p. (p.table, (p.lives, p.counts)) };

    ghost invariant = { λ p. p.met ≡ met_of p.table (keys_of (p.lives, p.counts)) };
}

impl<S: DotSet> PackedParts<S> {
    /// The lives and the counters, where the table has exactly the keys that they use, in the order of first use; else
    /// `None`.
    pub fn into_tabled(self) -> Option<(Lives<S>, Counts)>
        ensures exact { MatchOption result (has_own_table self ≡ false) (λ _. has_own_table self ≡ true) }
        ensures parts { IfSome result (λ parts. parts ≡ self.1) }
    {
        let PackedParts {
            table,
            lives,
            counts,
            met,
        } = self;
        if !table.keys(met).is_met() {
            return None;
        }
        Some((lives, counts))
    }
}

/// The rows of counters that were read, and how many keys of the table they met in turn after the lives.
#[derive(Drop)]
pub struct CountsSoFar<S: DotSet> {
    lives: PackedLives<S>,
    replicas: u16,
    rows: Vec<CountRow>,
    met: Option<usize>,
}

impl<S: DotSet> Model for CountsSoFar<S> {
    ghost use Rattle.std.specs.Prelude.{◌≡◌};
    ghost use Rattle.rds_counts.specs.Counted.{AreCountRows};
    ghost use Rattle.rds_life.specs.Life.{live_rows};
    ghost use Rattle.rds_bytes.specs.Table.{used_keys};
    ghost use Rattle.rds_feeds.specs.Numbered.{met_of};
    ghost use Rattle.rds_packed.specs.CountsValue.{CountsValue, coded_counts_value};

    ghost Value = { CountsValue };

    ghost coded = { coded_counts_value };

    ghost view = { λ c. ((c.lives, c.replicas), c.rows.items) };

    ghost invariant = { λ c. (c.met ≡ met_of c.lives.0 (used_keys (live_rows c.lives.1) c.rows.items))
        × AreCountRows c.rows.items };
}

impl<S: DotSet> Part for CountsSoFar<S> {
    type Read = (CountRow, Option<usize>);

    type Whole = CountsSoFar<S>;

    ghost reader = { λ c. made_at
        (with_met (λ rows. met_of c.0.0.0 (used_keys (live_rows c.0.0.1) rows)) c.1)
        (packed_count_row_at (packed_key_at c.0.0.0) c.0.1 c.1) };

    ghost made = { λ c read. (c.0, c.1 ++ read.0 ∷ []) };

    fn read<'a>(
        &self,
        alloc: Global,
        bytes: &'a [u8],
    ) -> Result<((CountRow, Option<usize>), &'a [u8]), Fault> {
        let mut keys = PackedKeys::new(self.lives.keys(self.met));
        let (row, rest) = read_count_row(alloc, &mut keys, self.replicas, &self.rows, bytes)?;
        Ok(((row, keys.into_met()), rest))
    }

    fn make(self, part: (CountRow, Option<usize>)) -> Result<CountsSoFar<S>, Fault> {
        let mut whole = self;
        whole.add(part, 0, 0)?;
        Ok(whole)
    }

    ghost steady = { λ c. made_steady
        (with_met (λ rows. met_of c.0.0.0 (used_keys (live_rows c.0.0.1) rows)) c.1)
        (packed_count_row_at (packed_key_at c.0.0.0) c.0.1 c.1)
        (packed_count_row_steady (packed_key_at c.0.0.0) (packed_key_steady c.0.0.0) c.0.1 c.1) };
}

impl<S: DotSet> Gathering for CountsSoFar<S> {
    fn add(
        &mut self,
        part: (CountRow, Option<usize>),
        _coming: u32,
        _bytes: usize,
    ) -> Result<(), Fault> {
        let (row, met) = part;
        self.rows.push(row)?;
        self.met = met;
        Ok(())
    }
}

/// The counters of rows that were read, beside their table and the lives.
#[derive(Drop)]
pub struct RowsArePackedCounts {}

impl<S: DotSet> Making<CountsSoFar<S>> for RowsArePackedCounts {
    type Made = PackedParts<S>;

    ghost made = { λ _ c. Ok (c.0.0.0, (c.0.0.1, counts_of c.1)) };

    fn make(self, whole: CountsSoFar<S>) -> Result<PackedParts<S>, Fault> {
        let CountsSoFar {
            lives,
            replicas: _,
            rows,
            met,
        } = whole;
        let counts = Counts::with_rows(rows);
        let (table, lives, _met) = lives.into_parts();
        Ok(PackedParts {
            table,
            lives,
            counts,
            met,
        })
    }
}

type CountsToRead<S> = Many<Once<CountsSoFar<S>>, CountsSoFar<S>>;

/// The rows that follow their number.
#[derive(Drop)]
pub struct CountsFollow<S: DotSet> {
    counts: CountsSoFar<S>,
}

impl<S: DotSet> Following<u64> for CountsFollow<S> {
    type Next = CountsToRead<S>;

    ghost after = { λ f count. few_rows ⟦<CountsToRead<S> as Unfinished>⟧.finish f.counts count };

    fn start(self, _alloc: Global, first: u64) -> Result<CountsToRead<S>, Fault> {
        if first > u64::from(u32::MAX) {
            return Err(Fault::Bad);
        }
        let CountsFollow { counts } = self;
        Ok(Many::Rows(first as u32, counts))
    }
}

type CountersParts<S> = Made<
    Then<UnfinishedPacked, CountsFollow<S>, CountsToRead<S>>,
    RowsArePackedCounts,
>;

/// Counters by the packed numbers of a table that are being read, after the lives. No more than one row is held.
#[derive(Drop)]
pub struct UnfinishedPackedCounters<S: DotSet> {
    parts: CountersParts<S>,
}

impl<S: DotSet> Unfinished for UnfinishedPackedCounters<S> {
    type Whole = PackedParts<S>;

    ghost finish = { λ u. makes (then_finish ⟦<UnfinishedPacked as Unfinished>⟧.finish
        (λ f count. few_rows ⟦<CountsToRead<S> as Unfinished>⟧.finish f.counts count)
        ⟦<CountsToRead<S> as Unfinished>⟧.finish u.parts.from)
        (λ c. Ok (c.0.0.0, (c.0.0.1, counts_of c.1))) };

    fn read_on<'a>(
        self,
        alloc: Global,
        bytes: &'a [u8],
    ) -> Result<(Progress<Self, PackedParts<S>>, &'a [u8]), Fault> {
        let (progress, rest) = self.parts.read_on(alloc, bytes)?;
        match progress {
            Progress::More(parts) => Ok((Progress::More(UnfinishedPackedCounters { parts }), rest)),
            Progress::Whole(parts) => Ok((Progress::Whole(parts), rest)),
        }
    }
}

/// The counters of so many replicas, of which nothing was read, by the packed numbers of the table of the lives before
/// them.
pub fn unfinished_packed_counters<S: DotSet>(
    alloc: Global,
    lives: PackedLives<S>,
    replicas: u16,
) -> UnfinishedPackedCounters<S>
    ensures { (bytes : List ℕ) → ⟦<UnfinishedPackedCounters<S> as Unfinished>⟧.finish result bytes
        ≡ made_at (λ counts. (lives.0, (lives.1, counts))) (packed_counters_at (packed_key_at lives.0) replicas) bytes }
{
    let met = lives.met();
    let counts = CountsSoFar {
        lives,
        replicas,
        rows: Vec::new(alloc),
        met,
    };
    UnfinishedPackedCounters {
        parts: Made {
            from: Then::First(unfinished_packed(), CountsFollow { counts }),
            maker: RowsArePackedCounts {},
        },
    }
}
