//! Rows on entries.
use crate::paths::{self, path};
use crate::scalars::{self, scalar};
use rds_names::{Entry, Fault, Kind};
use rds_rows::told::said_if;
use rds_rows::words::{cut, parted};
use std::alloc::Global;

/// Answers a row on entries.
pub fn answer(alloc: Global, asked: &str, rest: &str) -> Result<String, Fault> {
    match asked {
        "new" => shown(alloc, &entry(alloc, rest)?),
        "copy" => copied(alloc, rest),
        "same" => same(alloc, rest),
        _ => Err(Fault::Usage),
    }
}

/// The entry that is written, as `"a/b" elem 7`.
fn entry(alloc: Global, written: &str) -> Result<Entry, Fault> {
    let (at, rest) = cut(written)?;
    let (kind_word, value) = cut(rest)?;
    let kind = kind(kind_word)?;
    let value = scalar(alloc, value)?;
    Entry::new(path(alloc, at)?, kind, value)
}

fn kind(word: &str) -> Result<Kind, Fault> {
    match word {
        "reg" => Ok(Kind::Reg),
        "elem" => Ok(Kind::Elem),
        _ => Err(Fault::Usage),
    }
}

fn shown(alloc: Global, entry: &Entry) -> Result<String, Fault> {
    let path = paths::shown(alloc, entry.path())?;
    let value = scalars::shown(alloc, entry.value())?;
    let kind = match entry.kind() {
        Kind::Reg => "reg",
        Kind::Elem => "elem",
    };
    Ok(format!(in alloc; "{path}, {kind} {value}")?)
}

/// Whether a copy equals its entry.
fn copied(alloc: Global, rest: &str) -> Result<String, Fault> {
    let entry = entry(alloc, rest)?;
    let copy = entry.copy(alloc)?;
    said_if(alloc, copy.same(&entry))
}

fn same(alloc: Global, rest: &str) -> Result<String, Fault> {
    let (left, right) = parted(rest, " | ")?;
    let left = entry(alloc, left)?;
    let right = entry(alloc, right)?;
    said_if(alloc, left.same(&right))
}
