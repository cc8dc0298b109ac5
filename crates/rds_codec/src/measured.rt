//! The text of a state in any format: it is measured, and then written where there is room for it.
ghost use Rattle.std.specs.Prelude.{◌≡◌, ◌≤◌, ◌^◌, ℕ, IfOk, IfErr};
ghost use Rattle.rds_state.specs.Fits.{Fits};
ghost use Rattle.rds_state.specs.Value.{coordinates};
ghost use Rattle.rds_bytes.specs.Writing.{Adds};
ghost use Rattle.rds_codec.specs.Measured.{IsMeasured, IsUnmeasured, format_with};
ghost use Rattle.rds_codec.specs.StateTexts.{IsStateOf, state_text_in};
ghost use Rattle.rds_codec.specs.declared.limits.TheConstants.{LIMIT};

use crate::format_one::{measure_one, put_one};
use crate::format_two::{measure_two, number_state, put_two};
use crate::formats::Format;
use rds_bytes::NumberedKeys;
use rds_dots::DotSet;
use rds_names::Fault;
use rds_state::State;
use std::alloc::{AllocError, Global};

/// How the keys of a state are written.
#[derive(Drop)]
pub enum Keys {
    /// Each is spelled out, in format 1.
    Spelled,
    /// Each is its number in a table, in format 2.
    Numbered(NumberedKeys),
}

impl Keys {
    /// The format that writes keys so.
    pub fn format(&self) -> Format
        ensures { result ≡ format_with self.now }
    {
        match self {
            Keys::Spelled => Format::One,
            Keys::Numbered(_) => Format::Two,
        }
    }
}

/// A state that was measured for writing.
#[derive(Drop)]
pub struct Measured {
    pub keys: Keys,
    /// The number of rows of the seen dots.
    pub rows: u16,
    /// The bytes of its text.
    pub text_length: u128,
}

/// Measures a state for writing in a format. In format 2 its keys are numbered, which takes memory.
pub fn measure<S: DotSet>(
    alloc: Global,
    format: Format,
    state: &State<S>,
) -> Result<Measured, Fault>
    ensures measured { IfOk result (IsMeasured state.now) }
    ensures format { IfOk result (λ measured. format_with measured.keys ≡ format) }
    ensures few { IfOk result (λ measured. measured.text_length ≤ 2 ^ 101) }
    ensures value { IfOk result (λ _. (replicas : ℕ) → Fits replicas (coordinates state.now)
        → IsStateOf replicas state.now) }
    ensures memory { IfErr result (IsUnmeasured format) }
{
    match format {
        Format::One => {
            let (rows, text_length) = measure_one(state);
            Ok(Measured {
                keys: Keys::Spelled,
                rows,
                text_length,
            })
        }
        Format::Two => {
            let numbered = number_state(alloc, state)?;
            let (rows, text_length) = measure_two(state, &numbered);
            Ok(Measured {
                keys: Keys::Numbered(numbered),
                rows,
                text_length,
            })
        }
    }
}

/// The text of a state that was measured.
pub fn put_state<S: DotSet>(
    out: &mut Vec<u8>,
    state: &State<S>,
    measured: &Measured,
) -> Result<(), AllocError>
    requires measured { IsMeasured state.now measured.now }
    requires within { measured.now.text_length ≤ LIMIT }
    ensures { Adds out.old.items out.new.items (state_text_in (format_with measured.now.keys) state.now) result }
{
    match &measured.keys {
        Keys::Spelled => put_one(out, state, measured.rows),
        Keys::Numbered(numbered) => put_two(out, state, measured.rows, numbered),
    }
}
