//! The text of a state of format 2: a table of its keys, and then its parts, which have the keys by their numbers.
ghost use Rattle.std.specs.Prelude.{◌≡◌, ℕ, List, ◌≤◌, ◌^◌, IfOk, IfErr, length, map as each};
ghost use Rattle.rds_names.specs.declared.fault.Fault.TheVariants.{Memory};
ghost use Rattle.rds_dots.specs.Runs.{runs_of};
ghost use Rattle.rds_life.specs.Life.{live_rows, seen_of};
ghost use Rattle.rds_bytes.specs.DotRows.{rows_from};
ghost use Rattle.rds_bytes.specs.Numbers.{AreMeasured};
ghost use Rattle.rds_bytes.specs.Table.{table_number};
ghost use Rattle.rds_bytes.specs.Writing.{Adds};
ghost use Rattle.rds_codec.specs.StateTexts.{IsStateOf, keys_in, state_at_in, state_text_in, table_in};
ghost use Rattle.rds_codec.specs.declared.formats.Format.TheVariants.{Two};
ghost use Rattle.rds_codec.specs.declared.limits.TheConstants.{LIMIT};
ghost use Rattle.rds_codec.specs.FormatTwo.{lives_after, counters_after, state_with_table};
ghost use Rattle.rds_feeds.specs.Chained.{then_finish};
ghost use Rattle.rds_feeds.specs.Parts.{makes};
ghost use Rattle.rds_state.specs.Fits.{Fits};
ghost use Rattle.rds_state.specs.Value.{coordinates};

use rds_bytes::{
    NumberedKeys, Table, measure_dots, number_keys, numbered_counters_length, put_dots,
    put_numbered, put_table, table_length,
};
use rds_dots::DotSet;
use rds_feeds::{
    Following, Made, Making, NumberedLives, NumberedParts, Pair, Progress, SeenDots, Then,
    Unfinished, UnfinishedDots, UnfinishedNumberedCounters, UnfinishedNumberedLives,
    UnfinishedTable, pair, unfinished_dots, unfinished_numbered_counters,
    unfinished_numbered_lives, unfinished_table,
};
use rds_names::Fault;
use rds_state::State;
use std::alloc::{AllocError, Global};

/// The live rows after a table and the seen dots.
#[derive(Drop)]
pub struct LivesFollow {}

impl<S: DotSet> Following<(Table, SeenDots<S>)> for LivesFollow {
    type Next = UnfinishedNumberedLives<S>;

    ghost after = { λ _ p. lives_after p };

    fn start(
        self,
        alloc: Global,
        first: (Table, SeenDots<S>),
    ) -> Result<UnfinishedNumberedLives<S>, Fault> {
        let (table, seen) = first;
        Ok(unfinished_numbered_lives(alloc, table, seen.into_set()))
    }
}

type TableAndDots<S> = Pair<UnfinishedTable, UnfinishedDots<S>>;

type LivesParts<S> = Then<TableAndDots<S>, LivesFollow, UnfinishedNumberedLives<S>>;

/// A table, the seen dots and then the live rows, which are being read.
#[derive(Drop)]
pub struct UnfinishedTableLives<S: DotSet> {
    parts: LivesParts<S>,
}

impl<S: DotSet> Unfinished for UnfinishedTableLives<S> {
    type Whole = NumberedLives<S>;

    ghost finish = { λ u. then_finish ⟦<TableAndDots<S> as Unfinished>⟧.finish (λ _ p. lives_after p)
        ⟦<UnfinishedNumberedLives<S> as Unfinished>⟧.finish u.parts };

    fn read_on<'a>(
        self,
        alloc: Global,
        bytes: &'a [u8],
    ) -> Result<(Progress<Self, NumberedLives<S>>, &'a [u8]), Fault> {
        let (progress, rest) = self.parts.read_on(alloc, bytes)?;
        match progress {
            Progress::More(parts) => Ok((Progress::More(UnfinishedTableLives { parts }), rest)),
            Progress::Whole(lives) => Ok((Progress::Whole(lives), rest)),
        }
    }
}

/// The rows of counters after lives, of so many replicas.
#[derive(Drop)]
pub struct CountersFollow {
    replicas: u16,
}

impl<S: DotSet> Following<NumberedLives<S>> for CountersFollow {
    type Next = UnfinishedNumberedCounters<S>;

    ghost after = { λ f lives. counters_after f.replicas lives };

    fn start(
        self,
        alloc: Global,
        first: NumberedLives<S>,
    ) -> Result<UnfinishedNumberedCounters<S>, Fault> {
        Ok(unfinished_numbered_counters(alloc, first, self.replicas))
    }
}

/// The state of lives and counters, where the table has exactly their keys.
#[derive(Drop)]
pub struct PartsHaveTable {}

impl<S: DotSet> Making<NumberedParts<S>> for PartsHaveTable {
    type Made = State<S>;

    ghost made = { λ _ p. state_with_table p };

    fn make(self, whole: NumberedParts<S>) -> Result<State<S>, Fault> {
        match whole.into_tabled() {
            Some((lives, counts)) => Ok(State::from_parts(lives, counts)),
            None => Err(Fault::Bad),
        }
    }
}

type TwoParts<S> = Made<
    Then<UnfinishedTableLives<S>, CountersFollow, UnfinishedNumberedCounters<S>>,
    PartsHaveTable,
>;

/// A state of format 2 that is being read. The table is held, and no more than one row or gap beside it.
#[derive(Drop)]
pub struct UnfinishedTwo<S: DotSet> {
    parts: TwoParts<S>,
}

impl<S: DotSet> Unfinished for UnfinishedTwo<S> {
    type Whole = State<S>;

    ghost finish = { λ u. makes (then_finish ⟦<UnfinishedTableLives<S> as Unfinished>⟧.finish
        (λ f lives. counters_after f.replicas lives)
        ⟦<UnfinishedNumberedCounters<S> as Unfinished>⟧.finish u.parts.from) state_with_table };

    fn read_on<'a>(
        self,
        alloc: Global,
        bytes: &'a [u8],
    ) -> Result<(Progress<Self, State<S>>, &'a [u8]), Fault> {
        let (progress, rest) = self.parts.read_on(alloc, bytes)?;
        match progress {
            Progress::More(parts) => Ok((Progress::More(UnfinishedTwo { parts }), rest)),
            Progress::Whole(state) => Ok((Progress::Whole(state), rest)),
        }
    }
}

/// A state of format 2 of so many replicas, of which nothing was read.
pub fn unfinished_two<S: DotSet>(alloc: Global, replicas: u16) -> UnfinishedTwo<S>
    ensures { (bytes : List ℕ) → ⟦<UnfinishedTwo<S> as Unfinished>⟧.finish result bytes
        ≡ state_at_in Two replicas bytes }
{
    let keys = pair(unfinished_table(alloc), unfinished_dots(alloc, replicas));
    let lives = UnfinishedTableLives {
        parts: Then::First(keys, LivesFollow {}),
    };
    UnfinishedTwo {
        parts: Made {
            from: Then::First(lives, CountersFollow { replicas }),
            maker: PartsHaveTable {},
        },
    }
}

/// The keys of the state, numbered in the order of first use.
pub fn number_state<S: DotSet>(alloc: Global, state: &State<S>) -> Result<NumberedKeys, Fault>
    ensures keys { IfOk result (λ numbered. numbered.keys.items ≡ table_in state.now) }
    ensures numbers { IfOk result (λ numbered. numbered.numbers.items
        ≡ each (table_number (table_in state.now)) (keys_in state.now)) }
    ensures measured { IfOk result (λ numbered. AreMeasured numbered.lives_length (live_rows state.now.lives)) }
    ensures memory { IfErr result (λ fault. fault ≡ Memory) }
{
    number_keys(alloc, state.lives(), state.counts())
}

/// The number of rows of the seen dots, and the length of the text, whose keys are numbered so.
pub fn measure_two<S: DotSet>(state: &State<S>, numbered: &NumberedKeys) -> (u16, u128)
    requires keys { numbered.now.keys.items ≡ table_in state.now }
    requires measured { AreMeasured numbered.now.lives_length (live_rows state.now.lives) }
    ensures rows { result.0 ≡ length (rows_from 0 (runs_of (seen_of state.now.lives))) }
    ensures length { result.1 ≡ length (state_text_in Two state.now) }
    ensures few { result.1 ≤ 2 ^ 101 }
    ensures value { (replicas : ℕ) → Fits replicas (coordinates state.now) → IsStateOf replicas state.now }
{
    let lives = state.lives();
    let counts = state.counts();
    // That the rows of counters are within their limits shows where they are at hand.
    let _rows = counts.rows();
    let (rows, dots_length) = measure_dots(lives.seen());
    let keys_length = table_length(&numbered.keys);
    (
        rows,
        keys_length + dots_length + numbered.lives_length + numbered_counters_length(counts),
    )
}

/// The table, the dots, the live rows and the counters.
pub fn put_two<S: DotSet>(
    out: &mut Vec<u8>,
    state: &State<S>,
    rows: u16,
    numbered: &NumberedKeys,
) -> Result<(), AllocError>
    requires rows { rows ≡ length (rows_from 0 (runs_of (seen_of state.now.lives))) }
    requires keys { numbered.now.keys.items ≡ table_in state.now }
    requires numbers { numbered.now.numbers.items ≡ each (table_number (table_in state.now)) (keys_in state.now) }
    requires within { length (state_text_in Two state.now) ≤ LIMIT }
    ensures { Adds out.old.items out.new.items (state_text_in Two state.now) result }
{
    let lives = state.lives();
    put_table(out, &numbered.keys)?;
    put_dots(out, lives.seen(), rows)?;
    put_numbered(out, lives, state.counts(), &numbered.numbers)
}
