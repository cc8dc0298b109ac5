//! What a site tells of its document, read again.
use rds_json::scalar;
use rds_listing::{Raw, Wanted, raw_of};
use rds_names::{Fault, Scalar};
use serde_json::Value;
use std::alloc::Global;
use std::str;

/// What the line of a refusal begins with.
const REFUSAL: &str = "{\"fault\":";

/// What stands alone in what a site tells of a place, as `get` prints it. `OutOfTurn` where that isn't so printed.
pub fn raw_in(alloc: Global, told: &[u8], wanted: Wanted) -> Result<Raw, Fault> {
    let place = value_in(alloc, told)?;
    let reg = scalars_in(alloc, place.get("reg"))?;
    let set = scalars_in(alloc, place.get("set"))?;
    let counter = place.get("counter").and_then(Value::as_i64);
    raw_of(alloc, wanted, &reg, &set, counter)
}

/// What a site tells as `show` prints it, on many lines, as `show --pretty` does. `OutOfTurn` where it is no JSON.
pub fn pretty_in(alloc: Global, told: &[u8]) -> Result<String, Fault> {
    Ok(value_in(alloc, told)?.to_string_pretty(alloc)?)
}

// The value of JSON that a site tells.
fn value_in(alloc: Global, told: &[u8]) -> Result<Value, Fault> {
    match Value::from_slice(alloc, told) {
        Ok(value) => Ok(value),
        Err(error) if error.is_memory() => Err(Fault::Memory),
        Err(_) => Err(Fault::OutOfTurn),
    }
}

// The scalars of an array.
fn scalars_in(alloc: Global, array: Option<&Value>) -> Result<Vec<Scalar>, Fault> {
    let Some(values) = array.and_then(Value::as_array) else {
        return Err(Fault::OutOfTurn);
    };
    let mut scalars = Vec::new(alloc);
    for value in values {
        scalars.push(scalar(alloc, value)?)?;
    }
    Ok(scalars)
}

/// The fault by which a line of JSON refuses an edit, in words, as `fault 8: CounterFull`.
pub fn refusal_in(alloc: Global, line: &[u8]) -> Result<Option<String>, Fault> {
    match fault_in(line) {
        Some((number, name)) => Ok(Some(format!(in alloc; "fault {number}: {name}")?)),
        None => Ok(None),
    }
}

// The number and the name of that fault.
fn fault_in(line: &[u8]) -> Option<(&str, &str)> {
    let rest = str::from_utf8(line).ok()?.strip_prefix(REFUSAL)?;
    let (number, rest) = rest.split_once(",\"name\":\"")?;
    let (name, _) = rest.split_once('"')?;
    Some((number, name))
}

/// Which line of an input a line of JSON refuses, and by which fault.
pub fn refused_line(answer: &str) -> Option<(u64, Fault)> {
    let (number, rest) = answer.strip_prefix(REFUSAL)?.split_once(",\"name\":\"")?;
    let (_, line) = rest.split_once("\",\"line\":")?;
    let line = line.strip_suffix('}')?.parse::<u64>().ok()?;
    Some((line, fault_of_line(number)?))
}

// The fault of this number, where lines are refused by it.
fn fault_of_line(number: &str) -> Option<Fault> {
    match number {
        "1" => Some(Fault::Memory),
        "3" => Some(Fault::BadKey),
        "4" => Some(Fault::BadPath),
        "5" => Some(Fault::BadScalar),
        "7" => Some(Fault::SeqFull),
        "8" => Some(Fault::CounterFull),
        "25" => Some(Fault::BadLine),
        _ => None,
    }
}

/// Whether a line of JSON among these is a refusal.
pub fn has_refusal(lines: &[u8]) -> bool {
    let Ok(text) = str::from_utf8(lines) else {
        return false;
    };
    for line in text.lines() {
        if line.starts_with(REFUSAL) {
            return true;
        }
    }
    false
}
