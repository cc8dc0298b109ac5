//! What stands behind the word of a line, by the shapes that there are. Members are counted and their kinds judged
//! first, then the members from left to right.
ghost use Rattle.std.specs.Prelude.{◌≡◌};
ghost use Rattle.rds_json.specs.MayGive.{MayGive};
ghost use Rattle.rds_json.specs.Parts.{answer_from, counter_from, growth_at, named_answer, named_counter, named_growth, named_place, named_value, number_alone, place_from, replica_from, value_at};
ghost use Rattle.serde_json.specs.View.{view};

use crate::members::{member_count, number_at, text_at};
use crate::scalars::scalar;
use rds_names::{Fault, Key, Name, Path, Scalar};
use serde_json::Value;
use std::alloc::Global;

/// A replica and an ask's number.
#[derive(Debug, Drop)]
pub struct AnswerAt {
    pub name: Name,
    pub ask: u64,
}

/// A replica and the name of a new one.
#[derive(Debug, Drop)]
pub struct GrowthAt {
    pub name: Name,
    pub newcomer: Name,
}

/// A replica and a path.
#[derive(Debug, Drop)]
pub struct PlaceAt {
    pub name: Name,
    pub path: Path,
}

/// A replica, a path and a value.
#[derive(Debug, Drop)]
pub struct ValueAt {
    pub name: Name,
    pub path: Path,
    pub value: Scalar,
}

/// A replica, a counter's key and an amount.
#[derive(Debug, Drop)]
pub struct CounterAt {
    pub name: Name,
    pub key: Key,
    pub by: u64,
}

/// `[WORD, W]`
pub fn replica_at(line: &Value) -> Result<Name, Fault>
    ensures { result ≡ replica_from (view line.now) }
{
    if member_count(line) != 2 {
        return Err(Fault::BadLine);
    }
    match text_at(line, 1) {
        Some(name) => Name::new(name),
        None => Err(Fault::BadLine),
    }
}

/// `[WORD, K]`
pub fn number_alone(line: &Value) -> Result<u64, Fault>
    ensures { result ≡ number_alone (view line.now) }
{
    if member_count(line) != 2 {
        return Err(Fault::BadLine);
    }
    number_at(line, 1).ok_or(Fault::BadLine)
}

/// `[WORD, W, K]`
pub fn answer_at(line: &Value) -> Result<AnswerAt, Fault>
    ensures { result ≡ answer_from (view line.now) }
{
    if member_count(line) != 3 {
        return Err(Fault::BadLine);
    }
    match (text_at(line, 1), number_at(line, 2)) {
        (Some(name), Some(ask)) => named_answer(name, ask),
        _ => Err(Fault::BadLine),
    }
}

/// `[WORD, W, NAME]`
pub fn growth_at(line: &Value) -> Result<GrowthAt, Fault>
    ensures { result ≡ growth_at (view line.now) }
{
    if member_count(line) != 3 {
        return Err(Fault::BadLine);
    }
    match (text_at(line, 1), text_at(line, 2)) {
        (Some(name), Some(newcomer)) => named_growth(name, newcomer),
        _ => Err(Fault::BadLine),
    }
}

/// `[WORD, W, PATH]`
pub fn place_at(alloc: Global, line: &Value) -> Result<PlaceAt, Fault>
    ensures { MayGive result (place_from (view line.now)) }
{
    if member_count(line) != 3 {
        return Err(Fault::BadLine);
    }
    match (text_at(line, 1), text_at(line, 2)) {
        (Some(name), Some(path)) => named_place(alloc, name, path),
        _ => Err(Fault::BadLine),
    }
}

/// `[WORD, W, PATH, VALUE]`
pub fn value_at(alloc: Global, line: &Value) -> Result<ValueAt, Fault>
    ensures { MayGive result (value_at (view line.now)) }
{
    if member_count(line) != 4 {
        return Err(Fault::BadLine);
    }
    match (text_at(line, 1), text_at(line, 2), line.get(3)) {
        (Some(name), Some(path), Some(value)) => named_value(alloc, name, path, value),
        _ => Err(Fault::BadLine),
    }
}

/// `[WORD, W, KEY, BY]`
pub fn counter_at(alloc: Global, line: &Value) -> Result<CounterAt, Fault>
    ensures { MayGive result (counter_from (view line.now)) }
{
    if member_count(line) != 4 {
        return Err(Fault::BadLine);
    }
    match (text_at(line, 1), text_at(line, 2), number_at(line, 3)) {
        (Some(name), Some(key), Some(by)) => named_counter(alloc, name, key, by),
        _ => Err(Fault::BadLine),
    }
}

fn named_answer(name: &str, ask: u64) -> Result<AnswerAt, Fault>
    ensures { result ≡ named_answer name.now ask }
{
    Ok(AnswerAt {
        name: Name::new(name)?,
        ask,
    })
}

fn named_growth(name: &str, newcomer: &str) -> Result<GrowthAt, Fault>
    ensures { result ≡ named_growth name.now newcomer.now }
{
    Ok(GrowthAt {
        name: Name::new(name)?,
        newcomer: Name::new(newcomer)?,
    })
}

fn named_place(alloc: Global, name: &str, path: &str) -> Result<PlaceAt, Fault>
    ensures { MayGive result (named_place name.now path.now) }
{
    Ok(PlaceAt {
        name: Name::new(name)?,
        path: Path::new(alloc, path)?,
    })
}

fn named_value(alloc: Global, name: &str, path: &str, value: &Value) -> Result<ValueAt, Fault>
    ensures { MayGive result (named_value name.now path.now (view value.now)) }
{
    Ok(ValueAt {
        name: Name::new(name)?,
        path: Path::new(alloc, path)?,
        value: scalar(alloc, value)?,
    })
}

fn named_counter(alloc: Global, name: &str, key: &str, by: u64) -> Result<CounterAt, Fault>
    ensures { MayGive result (named_counter name.now key.now by) }
{
    Ok(CounterAt {
        name: Name::new(name)?,
        key: Key::new(alloc, key)?,
        by,
    })
}
