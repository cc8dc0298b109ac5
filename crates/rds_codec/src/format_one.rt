//! The text of a state of format 1, in which each key is spelled out wherever it stands.
ghost use Rattle.std.specs.Prelude.{◌≡◌, ◌≤◌, ◌^◌, ℕ, List, length, Ok};
ghost use Rattle.rds_dots.specs.Runs.{runs_of};
ghost use Rattle.rds_life.specs.Life.{seen_of};
ghost use Rattle.rds_state.specs.Fits.{Fits};
ghost use Rattle.rds_state.specs.Value.{coordinates};
ghost use Rattle.rds_bytes.specs.DotRows.{rows_from};
ghost use Rattle.rds_bytes.specs.Values.{AreDotsOf};
ghost use Rattle.rds_bytes.specs.Writing.{Adds};
ghost use Rattle.rds_codec.specs.StateTexts.{IsStateOf, state_at_in, state_text_in};
ghost use Rattle.rds_codec.specs.declared.formats.Format.TheVariants.{One};
ghost use Rattle.rds_codec.specs.declared.limits.TheConstants.{LIMIT};

use rds_bytes::{
    counters_length, live_rows_length, measure_dots, put_counters, put_dots, put_live_rows,
};
use rds_counts::Counts;
use rds_dots::DotSet;
use rds_feeds::{
    Made, Making, Pair, Progress, Unfinished, UnfinishedCounters, UnfinishedSeen, pair,
    unfinished_counters, unfinished_seen,
};
use rds_life::Lives;
use rds_names::Fault;
use rds_state::State;
use std::alloc::{AllocError, Global};

/// The state of lives and counters.
#[derive(Drop)]
pub struct PartsAreState {}

impl<S: DotSet> Making<(Lives<S>, Counts)> for PartsAreState {
    type Made = State<S>;

    ghost made = { λ _ p. Ok (record { lives = p.0; counts = p.1 }) };

    fn make(self, whole: (Lives<S>, Counts)) -> Result<State<S>, Fault> {
        let (lives, counts) = whole;
        Ok(State::from_parts(lives, counts))
    }
}

type StateParts<S> = Made<Pair<UnfinishedSeen<S>, UnfinishedCounters>, PartsAreState>;

/// A state of format 1 that is being read. No more than one row or gap is held.
#[derive(Drop)]
pub struct UnfinishedOne<S: DotSet> {
    parts: StateParts<S>,
}

impl<S: DotSet> Unfinished for UnfinishedOne<S> {
    type Whole = State<S>;

    ghost finish = { λ u. ⟦<StateParts<S> as Unfinished>⟧.finish u.parts };

    fn read_on<'a>(
        self,
        alloc: Global,
        bytes: &'a [u8],
    ) -> Result<(Progress<Self, State<S>>, &'a [u8]), Fault> {
        let (progress, rest) = self.parts.read_on(alloc, bytes)?;
        match progress {
            Progress::More(parts) => Ok((Progress::More(UnfinishedOne { parts }), rest)),
            Progress::Whole(state) => Ok((Progress::Whole(state), rest)),
        }
    }
}

/// A state of format 1 of so many replicas, of which nothing was read.
pub fn unfinished_one<S: DotSet>(alloc: Global, replicas: u16) -> UnfinishedOne<S>
    ensures { (bytes : List ℕ) → ⟦<UnfinishedOne<S> as Unfinished>⟧.finish result bytes
        ≡ state_at_in One replicas bytes }
{
    let seen = unfinished_seen(alloc, replicas);
    let counters = unfinished_counters(alloc, replicas);
    UnfinishedOne {
        parts: Made {
            from: pair(seen, counters),
            maker: PartsAreState {},
        },
    }
}

/// The number of rows of the seen dots, and the length of the text.
pub fn measure_one<S: DotSet>(state: &State<S>) -> (u16, u128)
    ensures rows { result.0 ≡ length (rows_from 0 (runs_of (seen_of state.now.lives))) }
    ensures length { result.1 ≡ length (state_text_in One state.now) }
    ensures few { result.1 ≤ 2 ^ 101 }
    ensures dots { (replicas : ℕ) → Fits replicas (coordinates state.now)
        → AreDotsOf replicas (seen_of state.now.lives) }
    ensures value { (replicas : ℕ) → Fits replicas (coordinates state.now) → IsStateOf replicas state.now }
{
    let lives = state.lives();
    let (rows, dots_length) = measure_dots(lives.seen());
    let live_length = 4 + live_rows_length(lives);
    (
        rows,
        dots_length + live_length + counters_length(state.counts()),
    )
}

/// The dots, the live rows and the counters.
pub fn put_one<S: DotSet>(out: &mut Vec<u8>, state: &State<S>, rows: u16) -> Result<(), AllocError>
    requires rows { rows ≡ length (rows_from 0 (runs_of (seen_of state.now.lives))) }
    requires within { length (state_text_in One state.now) ≤ LIMIT }
    ensures { Adds out.old.items out.new.items (state_text_in One state.now) result }
{
    let lives = state.lives();
    put_dots(out, lives.seen(), rows)?;
    put_live_rows(out, lives)?;
    put_counters(out, state.counts())
}
