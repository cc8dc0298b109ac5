//! The text of a state in either format: the dots that were seen, the entries of those that live, and the counters. In
//! format 2 a table of the keys stands in front.
ghost use Rattle.std.specs.Prelude.{◌≡◌, ℕ, List};
ghost use Rattle.rds_life.specs.Life.{seen_of};
ghost use Rattle.rds_state.specs.Fits.{Fits};
ghost use Rattle.rds_state.specs.Value.{coordinates};
ghost use Rattle.rds_bytes.specs.Values.{AreDotsOf};
ghost use Rattle.rds_codec.specs.Decoding.{Decodes, ReadsAll};
ghost use Rattle.rds_codec.specs.FormatTexts.{state_text_in, state_at_in, state_kind_in};
ghost use Rattle.rds_codec.specs.FormatWriting.{EncodesIn, EncodesTabled};
ghost use Rattle.rds_codec.specs.Kinds.{state_kind};
ghost use Rattle.rds_codec.specs.StateTexts.{IsStateOf, state_at, state_text};

use crate::fed::read_whole;
use crate::format_one::{UnfinishedOne, measure_one, unfinished_one};
use crate::format_two::{UnfinishedTwo, unfinished_two};
use crate::formats::Format;
use crate::in_format::InFormat;
use crate::limits::room_for;
use crate::measured::{measure, put_state};
use rds_dots::DotSet;
use rds_feeds::{Progress, Unfinished};
use rds_names::Fault;
use rds_state::State;
use std::alloc::Global;

type FormatParts<S> = InFormat<UnfinishedOne<S>, UnfinishedTwo<S>>;

/// A state in a format, which is being read. No more than one row or gap is held, and in format 2 the table.
#[derive(Drop)]
pub struct UnfinishedState<S: DotSet> {
    parts: FormatParts<S>,
}

impl<S: DotSet> Unfinished for UnfinishedState<S> {
    type Whole = State<S>;

    ghost finish = { λ u. ⟦<FormatParts<S> as Unfinished>⟧.finish u.parts };

    fn read_on<'a>(
        self,
        alloc: Global,
        bytes: &'a [u8],
    ) -> Result<(Progress<Self, State<S>>, &'a [u8]), Fault> {
        let (progress, rest) = self.parts.read_on(alloc, bytes)?;
        match progress {
            Progress::More(parts) => Ok((Progress::More(UnfinishedState { parts }), rest)),
            Progress::Whole(state) => Ok((Progress::Whole(state), rest)),
        }
    }
}

/// A state of so many replicas in a format, of which nothing was read.
pub fn unfinished_state<S: DotSet>(
    alloc: Global,
    format: Format,
    replicas: u16,
) -> UnfinishedState<S>
    ensures { (bytes : List ℕ) → ⟦<UnfinishedState<S> as Unfinished>⟧.finish result bytes
        ≡ state_at_in format replicas bytes }
{
    match format {
        Format::One => UnfinishedState {
            parts: InFormat::One(unfinished_one(alloc, replicas)),
        },
        Format::Two => UnfinishedState {
            parts: InFormat::Two(unfinished_two(alloc, replicas)),
        },
    }
}

/// The state whose text in a format the bytes are, where the roster has so many replicas. Refused are bytes as
/// [`decode_snapshot`] does. In format 2 these are `Bad` too: a number outside the table, and
/// a table that hasn't exactly the keys of the state, each once in the order of first use.
pub fn decode_state_in<S: DotSet>(
    alloc: Global,
    format: Format,
    replicas: u16,
    bytes: &[u8],
) -> Result<State<S>, Fault>
    ensures text { Decodes (state_kind_in format replicas) bytes.now result }
    ensures read { ReadsAll (state_at_in format replicas) bytes.now result }
{
    read_whole(alloc, unfinished_state::<S>(alloc, format, replicas), bytes)
}

/// The text of the state in a format. Above the limit it is refused (`TooLong`). In format 1 it is so before any memory
/// is taken, in format 2 after memory was taken to number its keys.
pub fn encode_state_in<S: DotSet>(
    alloc: Global,
    format: Format,
    state: &State<S>,
) -> Result<Vec<u8>, Fault>
    ensures text { EncodesIn format (state_text_in format state.now) result }
{
    let measured = measure(alloc, format, state)?;
    let mut out = room_for(alloc, measured.text_length)?;
    put_state(&mut out, state, &measured)?;
    Ok(out)
}

/// The state whose text the bytes are, where the roster has so many replicas. Refused are bytes as
/// [`decode_state_in`] refuses those of format 2.
pub fn decode_state<S: DotSet>(
    alloc: Global,
    replicas: u16,
    bytes: &[u8],
) -> Result<State<S>, Fault>
    ensures text { Decodes (state_kind replicas) bytes.now result }
    ensures read { ReadsAll (state_at replicas) bytes.now result }
{
    decode_state_in(alloc, Format::Two, replicas, bytes)
}

/// The text of the state. Its keys are numbered first, which takes memory. Above the limit the text is refused then
/// (`TooLong`); within it all memory that it needs is taken at once.
pub fn encode_state<S: DotSet>(alloc: Global, state: &State<S>) -> Result<Vec<u8>, Fault>
    ensures text { EncodesTabled (state_text state.now) result }
{
    encode_state_in(alloc, Format::Two, state)
}

/// In either format the text of a state that fits so many replicas is read again by a roster of these. The function
/// only measures: its contract is this law.
pub fn states_have_texts<S: DotSet>(state: &State<S>)
    ensures dots { (replicas : ℕ) → Fits replicas (coordinates state.now)
        → AreDotsOf replicas (seen_of state.now.lives) }
    ensures value { (replicas : ℕ) → Fits replicas (coordinates state.now) → IsStateOf replicas state.now }
{
    measure_one(state);
}
