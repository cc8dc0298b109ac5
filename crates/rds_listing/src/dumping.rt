//! The edits that make a document, as lines.
ghost use Rattle.std.specs.Prelude.{◌≡◌, ◌++◌, ◌∷◌, [], false, map, IfErr, IfOk, OnOk, string_bytes};
ghost use Rattle.std.specs.List.{flat_map};
ghost use Rattle.rds_json.specs.Show.{scalar_data};
ghost use Rattle.rds_json.specs.Spelling.{line_of_word, path_data};
ghost use Rattle.rds_listing.specs.Dump.{
  amounts,
  count_line,
  counter_edits,
  counts_as_lines,
  dump_edits,
  dump_text,
  line_of_edit,
  edits_text,
  standing_edits,
  sum_edits,
  value_edit,
  values_edits,
};
ghost use Rattle.rds_names.specs.declared.fault.Fault.TheVariants.{Memory};
ghost use Rattle.rds_tree.specs.Shown.{shown_view};
ghost use Rattle.rds_tree.specs.Shows.{counters_in};
ghost use Rattle.serde_json.specs.Data.{string};
ghost use Rattle.serde_json.specs.View.{view};
ghost use Rattle.serde_json.specs.Written.{compact_text, has_float};

use crate::pieces::{path_text, push_line, scalar_value};
use crate::standings::{Standing, standings_of};
use rds_dots::DotSet;
use rds_names::{Fault, Key, Kind, Path, Scalar};
use rds_state::State;
use rds_tree::{View, view, view_of_key};
use serde_json::Value;
use std::alloc::Global;

/// The most that a line raises a counter by.
const MOST: u64 = 281_474_976_710_655;

/// The edits that make a state's document, each as a line that names no replica: a register is set to each of its
/// values, so the last stays; each element is added; and each counter is raised, or lowered, to what it stands at.
pub fn dump<S: DotSet>(alloc: Global, state: &State<S>) -> Result<String, Fault>
    ensures text { IfOk result (λ text. string_bytes text ≡ dump_text state.now []) }
    ensures memory { IfErr result (λ fault. fault ≡ Memory) }
{
    let root = Path::new(alloc, "")?;
    dump_shown(alloc, &view(alloc, state, &root)?)
}

/// The same of what stands under a key of a path, and below it, but without counters: it is what a `clear` of that takes
/// away.
pub fn dump_part<S: DotSet>(
    alloc: Global,
    state: &State<S>,
    above: &Path,
    key: &Key,
) -> Result<String, Fault>
    ensures text { IfOk result (λ text. string_bytes text ≡ dump_text state.now (above.now ++ key.now ∷ [])) }
    ensures memory { IfErr result (λ fault. fault ≡ Memory) }
{
    let shape = view_of_key(alloc, state, above, key)?;
    let text = dump_values(alloc, above, &shape)?;
    Ok(text)
}

/// The lines of what a document shows.
pub fn dump_shown(alloc: Global, shape: &View) -> Result<String, Fault>
    ensures text { IfOk result (λ text. string_bytes text ≡ edits_text (dump_edits (shown_view shape.now))) }
    ensures memory { IfErr result (λ fault. fault ≡ Memory) }
{
    let all = standings_of(alloc, &[], shape)?;
    let mut text = String::new(alloc);
    push_standings(alloc, &mut text, all.as_slice())?;
    push_counters(alloc, &mut text, shape)?;
    Ok(text)
}

/// The lines of the registers and sets that a document shows at a path.
pub fn dump_values(alloc: Global, path: &Path, shape: &View) -> Result<String, Fault>
    ensures text { IfOk result (λ text. string_bytes text ≡ edits_text (values_edits path.now (shown_view shape.now))) }
    ensures memory { IfErr result (λ fault. fault ≡ Memory) }
{
    let all = standings_of(alloc, path.keys(), shape)?;
    let mut text = String::new(alloc);
    push_standings(alloc, &mut text, all.as_slice())?;
    Ok(text)
}

// Adds the lines of registers and sets.
fn push_standings(alloc: Global, text: &mut String, all: &[Standing]) -> Result<(), Fault>
    ensures text { OnOk result
        (string_bytes text.new ≡ string_bytes text.old ++ edits_text (flat_map standing_edits all.now)) }
    ensures memory { IfErr result (λ fault. fault ≡ Memory) }
{
    for standing in all {
        push_standing(alloc, text, standing)?;
    }
    Ok(())
}

// Adds the lines of one.
fn push_standing(alloc: Global, text: &mut String, standing: &Standing) -> Result<(), Fault>
    ensures text { OnOk result
        (string_bytes text.new ≡ string_bytes text.old ++ edits_text (standing_edits standing.now)) }
    ensures memory { IfErr result (λ fault. fault ≡ Memory) }
{
    let (path, values) = (standing.path.as_slice(), standing.values.as_slice());
    push_values(alloc, text, path, standing.kind, values)
}

// Adds the lines of values at a path.
fn push_values(
    alloc: Global,
    text: &mut String,
    path: &[Key],
    kind: Kind,
    values: &[Scalar],
) -> Result<(), Fault>
    ensures text { OnOk result
        (string_bytes text.new ≡ string_bytes text.old ++ edits_text (map (value_edit path.now kind) values.now)) }
    ensures memory { IfErr result (λ fault. fault ≡ Memory) }
{
    for value in values {
        push_line(text, value_line(alloc, path, kind, value)?.as_str())?;
    }
    Ok(())
}

// The line of a value.
fn value_line(alloc: Global, path: &[Key], kind: Kind, value: &Scalar) -> Result<String, Fault>
    ensures text { IfOk result (λ text. string_bytes text ≡ line_of_edit (value_edit path.now kind value.now)) }
    ensures memory { IfErr result (λ fault. fault ≡ Memory) }
{
    match kind {
        Kind::Reg => pathed_line(alloc, "set", path, value),
        Kind::Elem => pathed_line(alloc, "add", path, value),
    }
}

// `[WORD, PATH, VALUE]`
fn pathed_line(alloc: Global, word: &str, path: &[Key], value: &Scalar) -> Result<String, Fault>
    ensures text { IfOk result (λ text. string_bytes text
        ≡ compact_text (line_of_word word.now (path_data path.now ∷ scalar_data value.now ∷ []))) }
    ensures memory { IfErr result (λ fault. fault ≡ Memory) }
{
    let path = path_text(alloc, path)?;
    let value = scalar_value(alloc, value)?;
    line_text(alloc, word, path.as_str(), value)
}

// `[WORD, TEXT, VALUE]`
fn line_text(alloc: Global, word: &str, text: &str, value: Value) -> Result<String, Fault>
    ensures text { IfOk result (λ line. has_float (view value) ≡ false
        → string_bytes line ≡ compact_text (line_of_word word.now (string text.now ∷ view value ∷ []))) }
    ensures memory { IfErr result (λ fault. fault ≡ Memory) }
{
    let line = line_value(alloc, word, text, value)?;
    Ok(line.to_string(alloc)?)
}

fn line_value(alloc: Global, word: &str, text: &str, value: Value) -> Result<Value, Fault>
    ensures ok { IfOk result (λ line. view line ≡ line_of_word word.now (string text.now ∷ view value ∷ [])) }
    ensures memory { IfErr result (λ fault. fault ≡ Memory) }
{
    let mut members = Vec::new(alloc);
    members.push(Value::String(String::from_str(alloc, word)?))?;
    members.push(Value::String(String::from_str(alloc, text)?))?;
    members.push(value)?;
    Ok(Value::Array(members))
}

// Adds the lines of counters, where there are any.
fn push_counters(alloc: Global, text: &mut String, shape: &View) -> Result<(), Fault>
    ensures text { OnOk result (string_bytes text.new
        ≡ string_bytes text.old ++ edits_text (counter_edits (counters_in (shown_view shape.now)))) }
    ensures memory { IfErr result (λ fault. fault ≡ Memory) }
{
    match &shape.counters {
        Some(sums) => push_sums(alloc, text, sums.rows()),
        None => Ok(()),
    }
}

fn push_sums(alloc: Global, text: &mut String, rows: &[(Key, i64)]) -> Result<(), Fault>
    ensures text { OnOk result (string_bytes text.new
        ≡ string_bytes text.old ++ edits_text (flat_map (λ row. sum_edits row.0 row.1) rows.now)) }
    ensures memory { IfErr result (λ fault. fault ≡ Memory) }
{
    for row in rows {
        push_sum(alloc, text, &row.0, row.1)?;
    }
    Ok(())
}

// Adds the lines of a counter.
fn push_sum(alloc: Global, text: &mut String, key: &Key, sum: i64) -> Result<(), Fault>
    ensures text { OnOk result (string_bytes text.new ≡ string_bytes text.old ++ edits_text (sum_edits key.now sum)) }
    ensures memory { IfErr result (λ fault. fault ≡ Memory) }
{
    let amount = sum.unsigned_abs();
    if amount == 0 {
        push_count(alloc, text, "inc", key, 1)?;
        push_count(alloc, text, "dec", key, 1)?;
        return Ok(());
    }
    if sum < 0 {
        push_amounts(alloc, text, "dec", key, amount - 1)?;
        return Ok(());
    }
    push_amounts(alloc, text, "inc", key, amount - 1)?;
    Ok(())
}

// Adds the lines of amounts that make up one more than this one.
fn push_amounts(
    alloc: Global,
    text: &mut String,
    word: &str,
    key: &Key,
    below: u64,
) -> Result<(), Fault>
    ensures text { OnOk result
        (string_bytes text.new ≡ string_bytes text.old ++ counts_as_lines word.now key.now (amounts below)) }
    ensures memory { IfErr result (λ fault. fault ≡ Memory) }
{
    let times = below / MOST;
    for _turn in 0..times {
        push_count(alloc, text, word, key, MOST)?;
    }
    push_count(alloc, text, word, key, below % MOST + 1)?;
    Ok(())
}

// Adds the line of an amount.
fn push_count(alloc: Global, text: &mut String, word: &str, key: &Key, by: u64) -> Result<(), Fault>
    ensures text { OnOk result
        (string_bytes text.new ≡ string_bytes text.old ++ (count_line word.now key.now by ++ 10 ∷ [])) }
    ensures memory { IfErr result (λ fault. fault ≡ Memory) }
{
    let line = line_text(alloc, word, key.as_str(), Value::from(by))?;
    push_line(text, line.as_str())
}
