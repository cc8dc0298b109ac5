//! Calls on devices in memory: which were made, and which one fails.
use crate::told::{joined, lines_told};
use rds_names::Fault;
use rds_rows::words::{first, number};
use std::alloc::{AllocError, Global};
use std::cell::Cell;
use std::fs::OpenOptions;
use std::io::{self, ErrorKind};
use std::time::Duration;

/// The calls so far, a line each, with those that are made again and again told once; and the call that fails.
pub struct Calls<'a> {
    pub alloc: Global,
    told: Cell<String>,
    // The calls since the last pause.
    round: Cell<String>,
    pauses: Cell<u64>,
    notes: Cell<u64>,
    noted: Cell<String>,
    fails: &'a str,
    // Which of the calls that are so named fails; 0 is each.
    nth: u64,
    met: Cell<u64>,
}

// Written out, so that where calls are let go a caller's proof has one call.
impl<'a> Drop for Calls<'a> {
    fn drop(self) {
        let Calls {
            alloc: _,
            told: _told,
            round: _round,
            pauses: _,
            notes: _,
            noted: _noted,
            fails: _,
            nth: _,
            met: _,
        } = self;
    }
}

impl<'a> Calls<'a> {
    /// No call was made yet. `fails` names the calls that fail, or with a number before it the one of them that does.
    pub fn new(alloc: Global, fails: &'a str) -> Calls<'a> {
        let (word, rest) = first(fails);
        let (nth, fails) = match number(word) {
            Ok(nth) => (nth, rest),
            Err(_) => (0, fails),
        };
        Calls {
            alloc,
            told: Cell::new(String::new(alloc)),
            round: Cell::new(String::new(alloc)),
            pauses: Cell::new(0),
            notes: Cell::new(0),
            noted: Cell::new(String::new(alloc)),
            fails,
            nth,
            met: Cell::new(0),
        }
    }

    /// A call of this name on this thing. It fails where it is the one that does.
    pub fn call(&self, name: &str, on: &str) -> io::Result<()> {
        let line = joined(self.alloc, &[name, " ", on, "\n"])?;
        let mut round = self.round.replace(String::new(self.alloc));
        if !round.ends_with(line.as_str()) {
            round.push_str(line.as_str())?;
        }
        self.round.set(round);
        if self.is(name, on)? {
            return Err(failure());
        }
        Ok(())
    }

    /// What is at a path is opened; or a new file is made there, which is reported with the mode that it is to have.
    pub fn open(&self, how: &OpenOptions, path: &str) -> io::Result<()> {
        if !how.asks_create_new() {
            return self.call("open", path);
        }
        let mode = mode_asked(self.alloc, how)?;
        let on = joined(self.alloc, &[path, " ", mode.as_str()])?;
        self.call("make", on.as_str())
    }

    /// A line on standard error.
    pub fn note(&self, line: &str) -> Result<(), AllocError> {
        self.notes.set(self.notes.get().saturating_add(1));
        let mut noted = self.noted.replace(String::new(self.alloc));
        noted.push_str(line)?;
        noted.push_str("\n")?;
        self.noted.set(noted);
        Ok(())
    }

    /// How many lines there were on standard error.
    pub fn notes(&self) -> u64 {
        self.notes.get()
    }

    /// The lines themselves.
    pub fn noted(&self) -> String {
        self.noted.replace(String::new(self.alloc))
    }

    /// Whether these are the words of the row, and the time that the row means.
    pub fn is(&self, name: &str, on: &str) -> Result<bool, AllocError> {
        let words = joined(self.alloc, &[name, " ", on])?;
        if words.as_str() != self.fails {
            return Ok(false);
        }
        let met = self.met.get().saturating_add(1);
        self.met.set(met);
        Ok(self.nth == 0 || self.nth == met)
    }

    /// A pause of this length. Where the calls since the last one are those that came before it, they aren't told
    /// again.
    pub fn pause(&self, length: Duration) -> Result<(), AllocError> {
        self.pauses.set(self.pauses.get().saturating_add(1));
        let millis = length.as_millis();
        let line = format!(in self.alloc; "pause {millis}\n")?;
        let mut round = self.round.replace(String::new(self.alloc));
        round.push_str(line.as_str())?;
        let mut told = self.told.replace(String::new(self.alloc));
        if !told.ends_with(round.as_str()) {
            told.push_str(round.as_str())?;
        }
        self.told.set(told);
        Ok(())
    }

    /// The calls, how many pauses there were if any, and behind them what came of them. Each line but the first stands
    /// behind two spaces.
    pub fn told_with(&self, end: &str) -> Result<String, Fault> {
        let told = self.told.replace(String::new(self.alloc));
        let round = self.round.replace(String::new(self.alloc));
        let pauses = self.pauses_told()?;
        lines_told(
            self.alloc,
            &[told.as_str(), round.as_str(), pauses.as_str(), end],
        )
    }

    fn pauses_told(&self) -> Result<String, AllocError> {
        match self.pauses.get() {
            0 => Ok(String::new(self.alloc)),
            count => format!(in self.alloc; "pauses {count}\n"),
        }
    }
}

// The mode that a new file is to have, in octal digits. Only their debug text tells what the options say of it.
fn mode_asked(alloc: Global, how: &OpenOptions) -> Result<String, AllocError> {
    let text = format!(in alloc; "{how:?}")?;
    let (_, rest) = text.as_str().split_once("mode: ").unwrap_or(("", ""));
    let (digits, _) = rest.split_once(' ').unwrap_or((rest, ""));
    match digits.parse::<u32>() {
        Ok(mode) => format!(in alloc; "{mode:o}"),
        Err(_) => String::from_str(alloc, "unknown"),
    }
}

/// A call that fails.
pub fn failure() -> io::Error {
    io::Error::from(ErrorKind::Other)
}
