//! What stands at a key, as bare lines.
ghost use Rattle.std.specs.Prelude.{◌≡◌, ◌++◌, ◌∷◌, [], Some, IfErr, IfOk, OnOk, filter, string_bytes};
ghost use Rattle.rds_listing.specs.Pieces.{lines_text};
ghost use Rattle.rds_listing.specs.Raw.{GivesRaw, IsRaw, lines_at, raw_line, sum_lines, values_lines, wanted_lines};
ghost use Rattle.rds_listing.specs.declared.bare.Wanted.TheVariants.{Any};
ghost use Rattle.rds_names.specs.declared.fault.Fault.TheVariants.{Memory};
ghost use Rattle.rds_tree.specs.Row.{is_filled};
ghost use Rattle.rds_tree.specs.Shown.{shown_view};

use crate::pieces::push_line;
use rds_dots::DotSet;
use rds_json::{counter_at, values_at};
use rds_names::{Fault, Key, Path, Scalar};
use rds_state::State;
use rds_tree::{View, view_of_key};
use std::alloc::Global;

/// Of which kinds values are wanted.
#[derive(Clone, Copy, Debug, PartialEq, Eq)]
pub enum Wanted {
    /// Whichever stands there, if it is one alone.
    Any,
    /// The register.
    Register,
    /// The set.
    Set,
    /// The counter.
    Counter,
}

/// What stands at a key, of the kinds that are wanted.
#[derive(Debug, Drop)]
pub enum Raw {
    /// Nothing.
    Nothing,
    /// Values of one kind, each on a line of its own: a text is its bytes, all else is written as in JSON.
    Text(String),
    /// Values of several kinds.
    Several,
}

/// The values that stand at a key below a path of a state's document, in the order of the view.
pub fn raw_values<S: DotSet>(
    alloc: Global,
    state: &State<S>,
    above: &Path,
    key: &Key,
    wanted: Wanted,
) -> Result<Raw, Fault>
    ensures raw { IfOk result (GivesRaw state.now above.now key.now wanted) }
    ensures memory { IfErr result (λ fault. fault ≡ Memory) }
{
    let shape = view_of_key(alloc, state, above, key)?;
    raw_at(alloc, &shape, key, wanted)
}

// The values at a key of a view.
fn raw_at(alloc: Global, shape: &View, key: &Key, wanted: Wanted) -> Result<Raw, Fault>
    ensures raw { IfOk result (IsRaw (lines_at wanted key.now (shown_view shape.now))) }
    ensures memory { IfErr result (λ fault. fault ≡ Memory) }
{
    let reg = values_at(&shape.regs, key);
    let set = values_at(&shape.sets, key);
    raw_of(alloc, wanted, reg, set, counter_at(&shape.counters, key))
}

/// The values that are wanted of those of a place: its register's, its set's and its counter's.
pub fn raw_of(
    alloc: Global,
    wanted: Wanted,
    reg: &[Scalar],
    set: &[Scalar],
    counter: Option<i64>,
) -> Result<Raw, Fault>
    ensures raw { IfOk result (IsRaw (filter is_filled (wanted_lines wanted reg.now set.now counter))) }
    ensures memory { IfErr result (λ fault. fault ≡ Memory) }
{
    match wanted {
        Wanted::Any => raw_of_any(alloc, reg, set, counter),
        Wanted::Register => raw_of_values(alloc, reg),
        Wanted::Set => raw_of_values(alloc, set),
        Wanted::Counter => raw_of_sum(alloc, counter),
    }
}

// Those of whichever kind there is.
fn raw_of_any(
    alloc: Global,
    reg: &[Scalar],
    set: &[Scalar],
    counter: Option<i64>,
) -> Result<Raw, Fault>
    ensures raw { IfOk result (IsRaw (filter is_filled (wanted_lines Any reg.now set.now counter))) }
    ensures memory { IfErr result (λ fault. fault ≡ Memory) }
{
    match (reg.is_empty(), set.is_empty(), counter) {
        (false, true, None) => raw_of_values(alloc, reg),
        (true, _, None) => raw_of_values(alloc, set),
        (true, true, Some(_)) => raw_of_sum(alloc, counter),
        _ => Ok(Raw::Several),
    }
}

// Those of a register or of a set.
fn raw_of_values(alloc: Global, values: &[Scalar]) -> Result<Raw, Fault>
    ensures raw { IfOk result (IsRaw (filter is_filled (values_lines values.now ∷ []))) }
    ensures memory { IfErr result (λ fault. fault ≡ Memory) }
{
    if values.is_empty() {
        return Ok(Raw::Nothing);
    }
    Ok(Raw::Text(values_text(alloc, values)?))
}

// That of a counter.
fn raw_of_sum(alloc: Global, counter: Option<i64>) -> Result<Raw, Fault>
    ensures raw { IfOk result (IsRaw (filter is_filled (sum_lines counter ∷ []))) }
    ensures memory { IfErr result (λ fault. fault ≡ Memory) }
{
    match counter {
        Some(sum) => Ok(Raw::Text(sum_text(alloc, sum)?)),
        None => Ok(Raw::Nothing),
    }
}

// The line of a counter.
fn sum_text(alloc: Global, sum: i64) -> Result<String, Fault>
    ensures text { IfOk result (λ text. string_bytes text ≡ lines_text (sum_lines (Some sum))) }
    ensures memory { IfErr result (λ fault. fault ≡ Memory) }
{
    Ok(format!(in alloc; "{sum}\n")?)
}

// The lines of values.
fn values_text(alloc: Global, values: &[Scalar]) -> Result<String, Fault>
    ensures text { IfOk result (λ text. string_bytes text ≡ lines_text (values_lines values.now)) }
    ensures memory { IfErr result (λ fault. fault ≡ Memory) }
{
    let mut text = String::new(alloc);
    for value in values {
        push_raw(alloc, &mut text, value)?;
    }
    Ok(text)
}

// Adds the line of a value.
fn push_raw(alloc: Global, text: &mut String, value: &Scalar) -> Result<(), Fault>
    ensures text { OnOk result (string_bytes text.new ≡ string_bytes text.old ++ (raw_line value.now ++ 10 ∷ [])) }
    ensures memory { IfErr result (λ fault. fault ≡ Memory) }
{
    match value {
        Scalar::Null => push_line(text, "null"),
        Scalar::Bool(true) => push_line(text, "true"),
        Scalar::Bool(false) => push_line(text, "false"),
        Scalar::Int(number) => push_line(text, format!(in alloc; "{number}")?.as_str()),
        Scalar::Text(value) => push_line(text, value.as_str()),
    }
}
