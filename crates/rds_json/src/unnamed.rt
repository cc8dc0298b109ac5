//! Lines that edit a replica which they don't name. Members are counted and their kinds judged first, then the members
//! from left to right.
ghost use Rattle.rds_json.specs.MayGive.{MayGive};
ghost use Rattle.rds_json.specs.Unnamed.{counted_at, edit_by, edit_in, keyed_count, pathed_value, part_at, valued_at};
ghost use Rattle.serde_json.specs.View.{view};

use crate::members::{member_count, number_at, text_at};
use crate::scalars::scalar;
use crate::verb::{EditVerb, Verb, verb_of};
use rds_names::{Fault, Key, Path, Scalar};
use rds_state::Command;
use serde_json::Value;
use std::alloc::Global;

/// A path and a value.
#[derive(Debug, Drop)]
pub struct ValuedAt {
    pub path: Path,
    pub value: Scalar,
}

/// A counter's key and an amount.
#[derive(Debug, Drop)]
pub struct CountedAt {
    pub key: Key,
    pub by: u64,
}

/// The edit that a line asks for, of the value that it is.
pub(crate) fn edit_in(alloc: Global, line: &Value) -> Result<Command, Fault>
    ensures { MayGive result (edit_in (view line.now)) }
{
    let word = match text_at(line, 0) {
        Some(word) => word,
        None => return Err(Fault::BadLine),
    };
    match verb_of(word) {
        Some(Verb::Edit(verb)) => edit_by(alloc, verb, line),
        _ => Err(Fault::BadLine),
    }
}

fn edit_by(alloc: Global, verb: EditVerb, line: &Value) -> Result<Command, Fault>
    ensures { MayGive result (edit_by verb (view line.now)) }
{
    match verb {
        EditVerb::Set => {
            let at = valued_at(alloc, line)?;
            Ok(Command::Set(at.path, at.value))
        }
        EditVerb::Add => {
            let at = valued_at(alloc, line)?;
            Ok(Command::Add(at.path, at.value))
        }
        EditVerb::Del => {
            let at = valued_at(alloc, line)?;
            Ok(Command::Del(at.path, at.value))
        }
        EditVerb::Clear => Ok(Command::Clear(part_at(alloc, line)?)),
        EditVerb::Inc => {
            let at = counted_at(alloc, line)?;
            Ok(Command::Inc(at.key, at.by))
        }
        EditVerb::Dec => {
            let at = counted_at(alloc, line)?;
            Ok(Command::Dec(at.key, at.by))
        }
    }
}

/// `[WORD, PATH]`
fn part_at(alloc: Global, line: &Value) -> Result<Path, Fault>
    ensures { MayGive result (part_at (view line.now)) }
{
    if member_count(line) != 2 {
        return Err(Fault::BadLine);
    }
    match text_at(line, 1) {
        Some(path) => Path::new(alloc, path),
        None => Err(Fault::BadLine),
    }
}

/// `[WORD, PATH, VALUE]`
fn valued_at(alloc: Global, line: &Value) -> Result<ValuedAt, Fault>
    ensures { MayGive result (valued_at (view line.now)) }
{
    if member_count(line) != 3 {
        return Err(Fault::BadLine);
    }
    match (text_at(line, 1), line.get(2)) {
        (Some(path), Some(value)) => pathed_value(alloc, path, value),
        _ => Err(Fault::BadLine),
    }
}

/// `[WORD, KEY, BY]`
fn counted_at(alloc: Global, line: &Value) -> Result<CountedAt, Fault>
    ensures { MayGive result (counted_at (view line.now)) }
{
    if member_count(line) != 3 {
        return Err(Fault::BadLine);
    }
    match (text_at(line, 1), number_at(line, 2)) {
        (Some(key), Some(by)) => keyed_count(alloc, key, by),
        _ => Err(Fault::BadLine),
    }
}

fn pathed_value(alloc: Global, path: &str, value: &Value) -> Result<ValuedAt, Fault>
    ensures { MayGive result (pathed_value path.now (view value.now)) }
{
    Ok(ValuedAt {
        path: Path::new(alloc, path)?,
        value: scalar(alloc, value)?,
    })
}

fn keyed_count(alloc: Global, key: &str, by: u64) -> Result<CountedAt, Fault>
    ensures { MayGive result (keyed_count key.now by) }
{
    Ok(CountedAt {
        key: Key::new(alloc, key)?,
        by,
    })
}
