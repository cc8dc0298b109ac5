//! Times what the program doesn't show by itself. `rds_bench texts N` encodes and decodes a state of N dots, two
//! thirds of them live; `rds_bench delta N` takes what a replica of N dots has that one without the last ten lacks,
//! and `rds_bench fresh N` what one lacks that has none of them. `rds_bench index N` takes ten dots into an index of
//! one set of N elements, adds ten elements and deletes these. `rds_bench edits N` sets N registers in an empty index,
//! then further ones and old ones. `rds_bench formats N KEYS` encodes and decodes a state of N live dots in both
//! formats, where KEYS names the kind of its rows' keys. It prints a line of figures, and nothing where it was called
//! by no words. Then it waits until its input ends, so that who called it can see how much memory it had. `rds_bench
//! answer` reads an answer from its input, as a session does.
#![tactic(auto)]

ghost use Rattle.std.specs.Prelude.{◌≤◌, IfSome};

mod answers;
mod deltas;
mod edits;
mod formats;
mod indexes;
mod keyed;
mod samples;
mod texts;

use crate::deltas::Asker;
use crate::keyed::Keys;
use rds_names::Fault;
use std::io::Read;
use std::{env, io};

/// The most dots of a sample.
const MOST: u64 = 1_000_000;

fn main(rt: HostRuntime) -> io::Result<()> {
    let mut words = env::args(&rt)?;
    let _name = words.next();
    let Some(what) = words.next() else {
        return Ok(());
    };
    match words.next() {
        Some(size) => {
            match words.next() {
                Some(keys) => time_keyed(&rt, what.as_str(), size.as_str(), keys.as_str())?,
                None => time(&rt, what.as_str(), size.as_str())?,
            }
            wait(&rt)
        }
        None => read(&rt, what.as_str()),
    }
}

/// Reads what the word names, if anything.
fn read(rt: &HostRuntime, what: &str) -> io::Result<()> {
    if what == "answer" {
        return answers::read(rt);
    }
    Ok(())
}

/// The size that a word says, if it is one.
fn size_of(word: &str) -> Option<u64>
    ensures least { IfSome result (λ size. 1 ≤ size) }
    ensures most { IfSome result (λ size. size ≤ 1000000) }
{
    match word.parse::<u64>() {
        Ok(size) if 1 <= size && size <= MOST => Some(size),
        _ => None,
    }
}

/// Runs what the words name with rows that have keys of a kind, and says which fault it ended by, if any.
fn time_keyed(rt: &HostRuntime, what: &str, size: &str, keys: &str) -> io::Result<()> {
    let Some(size) = size_of(size) else {
        return println!(rt; "a size is a number from 1 to {MOST}");
    };
    match (what, Keys::named(keys)) {
        ("formats", Some(keys)) => formats::time(rt, size, keys),
        _ => println!(rt; "nothing is called {what} {keys}"),
    }
}

/// Runs what the words name, and says which fault it ended by, if any.
fn time(rt: &HostRuntime, what: &str, size: &str) -> io::Result<()> {
    let Some(size) = size_of(size) else {
        return println!(rt; "a size is a number from 1 to {MOST}");
    };
    match what {
        "texts" => texts::time(rt, size),
        "delta" => deltas::time(rt, size, Asker::Behind),
        "fresh" => deltas::time(rt, size, Asker::Fresh),
        "index" => indexes::time(rt, size),
        "edits" => edits::time(rt, size),
        _ => println!(rt; "nothing is called {what}"),
    }
}

/// Waits for the input's first byte or its end.
fn wait(rt: &HostRuntime) -> io::Result<()> {
    let mut byte = [0; 1];
    rt.reader().read(&mut byte)?;
    Ok(())
}

/// Prints a fault.
fn report(rt: &HostRuntime, fault: Fault) -> io::Result<()> {
    let number = fault.number();
    let name = fault.name();
    println!(rt; "fault {number}: {name}")
}
