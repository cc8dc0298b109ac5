//! Rows on rosters.
use crate::words::{push, said_number};
use rds_names::{Fault, Key, Name, Roster};
use rds_rows::told::{said, said_if};
use rds_rows::words::{names, number, parted, roster, small};
use std::alloc::Global;

/// Answers a row on rosters.
pub fn answer(alloc: Global, asked: &str, rest: &str) -> Result<String, Fault> {
    match asked {
        "new" => shown(alloc, &roster(alloc, rest)?),
        "number" => number_of(alloc, rest),
        "name" => name_of(alloc, rest),
        "copy" => copied(alloc, rest),
        "same" => same(alloc, rest),
        "names" => named(alloc, &roster(alloc, rest)?),
        "begins" => begins(alloc, rest),
        "grown" => grown(alloc, rest),
        "grown_many" => grown_many(alloc, rest),
        "many" => shown(alloc, &many(alloc, rest)?),
        "number_of_many" => number_of_many(alloc, rest),
        _ => Err(Fault::Usage),
    }
}

fn shown(alloc: Global, roster: &Roster) -> Result<String, Fault> {
    let count = roster.len();
    let group = roster.group().as_str();
    Ok(format!(in alloc; "{count} of {group}")?)
}

/// The number of a name, as `c in g a b c`.
fn number_of(alloc: Global, rest: &str) -> Result<String, Fault> {
    let (name, written) = parted(rest, " in ")?;
    let roster = roster(alloc, written)?;
    said_number(alloc, roster.number_of(Name::new(name)?).map(u64::from))
}

/// The name that has a number, as `1 in g a b c`.
fn name_of(alloc: Global, rest: &str) -> Result<String, Fault> {
    let (number, written) = parted(rest, " in ")?;
    let roster = roster(alloc, written)?;
    match roster.name_of(small(number)?) {
        Some(name) => said(alloc, name.as_str()),
        None => said(alloc, "none"),
    }
}

/// Whether a copy equals its roster.
fn copied(alloc: Global, rest: &str) -> Result<String, Fault> {
    let roster = roster(alloc, rest)?;
    let copy = roster.copy(alloc)?;
    said_if(alloc, copy.same(&roster))
}

fn same(alloc: Global, rest: &str) -> Result<String, Fault> {
    let (left, right) = parted(rest, " | ")?;
    let left = roster(alloc, left)?;
    let right = roster(alloc, right)?;
    said_if(alloc, left.same(&right))
}

/// The names in the order of their numbers.
fn named(alloc: Global, roster: &Roster) -> Result<String, Fault> {
    let mut line = String::new(alloc);
    for name in roster.names() {
        push(&mut line, name.as_str())?;
    }
    Ok(line)
}

fn begins(alloc: Global, rest: &str) -> Result<String, Fault> {
    let (first, whole) = parted(rest, " | ")?;
    let first = roster(alloc, first)?;
    let whole = roster(alloc, whole)?;
    said_if(alloc, first.begins(&whole))
}

/// The names of the roster that has grown, as `g a b | c d`.
fn grown(alloc: Global, rest: &str) -> Result<String, Fault> {
    let (first, others) = parted(rest, " |")?;
    let roster = roster(alloc, first)?;
    let others = names(alloc, others)?;
    named(alloc, &roster.grown(alloc, &others)?)
}

/// The roster of so many that has grown by a name, as `255 | z`.
fn grown_many(alloc: Global, rest: &str) -> Result<String, Fault> {
    let (count, others) = parted(rest, " | ")?;
    let roster = many(alloc, count)?;
    let others = names(alloc, others)?;
    shown(alloc, &roster.grown(alloc, &others)?)
}

/// The number of a name in the roster of so many, as `n255 in 256`.
fn number_of_many(alloc: Global, rest: &str) -> Result<String, Fault> {
    let (name, count) = parted(rest, " in ")?;
    let roster = many(alloc, count)?;
    said_number(alloc, roster.number_of(Name::new(name)?).map(u64::from))
}

/// The roster of so many names: n0, n1 and those that follow.
fn many(alloc: Global, count: &str) -> Result<Roster, Fault> {
    let names = numbered(alloc, number(count)?)?;
    Roster::new(alloc, Key::new(alloc, "g")?, &names)
}

fn numbered(alloc: Global, count: u64) -> Result<Vec<Name>, Fault> {
    let mut names = Vec::new(alloc);
    for number in 0..count {
        let text = format!(in alloc; "n{number}")?;
        names.push(Name::new(text.as_str())?)?;
    }
    Ok(names)
}
