//! How rows write the parts that they are on, and how answers are said.
use rds_dots::{Dot, Run};
use rds_names::Fault;
use rds_rows::told::said;
use rds_rows::words::{number, parted, small};
use std::alloc::Global;

/// A dot, as `0:4`.
pub fn dot(word: &str) -> Result<Dot, Fault> {
    let (first, seq) = parted(word, ":")?;
    let replica = small(first)?;
    let seq = number(seq)?;
    Ok(Dot { replica, seq })
}

/// A run of dots, as `0:4-9`.
pub fn run(word: &str) -> Result<Run, Fault> {
    let (first, hi) = parted(word, "-")?;
    let hi = number(hi)?;
    let first = dot(first)?;
    Ok(Run {
        replica: first.replica,
        lo: first.seq,
        hi,
    })
}

/// A text between quotes, which stands as often as a number behind `*` says.
pub fn text(alloc: Global, written: &str) -> Result<String, Fault> {
    let (quoted, times) = written.rsplit_once('*').unwrap_or((written, "1"));
    let piece = unquoted(quoted)?;
    repeated(alloc, piece, number(times)?)
}

fn unquoted(quoted: &str) -> Result<&str, Fault> {
    let opened = quoted.strip_prefix('"').ok_or(Fault::Usage)?;
    opened.strip_suffix('"').ok_or(Fault::Usage)
}

fn repeated(alloc: Global, piece: &str, times: u64) -> Result<String, Fault> {
    let mut text = String::new(alloc);
    for _ in 0..times {
        text.push_str(piece)?;
    }
    Ok(text)
}

/// The answer that is a number, or none.
pub fn said_number(alloc: Global, number: Option<u64>) -> Result<String, Fault> {
    match number {
        Some(number) => Ok(format!(in alloc; "{number}")?),
        None => said(alloc, "none"),
    }
}

/// Puts a word behind those of a line.
pub fn push(line: &mut String, word: &str) -> Result<(), Fault> {
    if !line.is_empty() {
        line.push(' ')?;
    }
    line.push_str(word)?;
    Ok(())
}
