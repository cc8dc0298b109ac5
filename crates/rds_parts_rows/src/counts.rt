//! Rows on counters.
use crate::words::push;
use rds_counts::{CountRow, Counts, Which};
use rds_names::{Fault, Key};
use rds_rows::told::{said, said_if};
use rds_rows::words::{cut, number, parted, small};
use std::alloc::Global;
use std::mem;

/// The counters that rows are on, and others.
#[derive(Drop)]
pub struct Counters {
    counts: Counts,
    other: Counts,
}

impl Counters {
    /// No number was raised in either.
    pub fn empty(alloc: Global) -> Counters {
        Counters {
            counts: Counts::empty(alloc),
            other: Counts::empty(alloc),
        }
    }

    /// Answers a row on counters.
    pub fn answer(&mut self, alloc: Global, asked: &str, rest: &str) -> Result<String, Fault> {
        match asked {
            "clear" => self.clear(alloc),
            "swap" => self.swap(alloc),
            "make" => self.make(alloc, rest),
            "raise" => self.raise(alloc, rest),
            "merge" => self.merge(alloc),
            "copy" => self.copy(alloc),
            "rows" => shown(alloc, &self.counts),
            "pair" => self.pair(alloc, rest),
            "value" => self.value(alloc, rest),
            "numbers" => self.numbers(alloc),
            "same" => said_if(alloc, self.counts.same(&self.other)),
            _ => Err(Fault::Usage),
        }
    }

    fn clear(&mut self, alloc: Global) -> Result<String, Fault> {
        *self = Counters::empty(alloc);
        shown(alloc, &self.counts)
    }

    /// Turns to the other counters.
    fn swap(&mut self, alloc: Global) -> Result<String, Fault> {
        mem::swap(&mut self.counts, &mut self.other);
        shown(alloc, &self.counts)
    }

    /// Takes the counters of rows, each as `a:0=5,2`.
    fn make(&mut self, alloc: Global, rest: &str) -> Result<String, Fault> {
        match Counts::from_rows(rows_of(alloc, rest)?) {
            Some(counts) => self.counts = counts,
            None => return said(alloc, "unfit"),
        }
        shown(alloc, &self.counts)
    }

    /// Raises a number by an amount, as `a:0 up 5`.
    fn raise(&mut self, alloc: Global, rest: &str) -> Result<String, Fault> {
        let (place, amount) = cut(rest)?;
        let (up_or_down, by) = cut(amount)?;
        let which = which(up_or_down)?;
        let by = number(by)?;
        self.raise_at(alloc, place, which, by)
    }

    fn raise_at(
        &mut self,
        alloc: Global,
        place: &str,
        which: Which,
        by: u64,
    ) -> Result<String, Fault> {
        let (text, number) = parted(place, ":")?;
        let replica = small(number)?;
        let key = Key::new(alloc, text)?;
        self.counts.raise(&key, replica, which, by)?;
        said_pair(alloc, self.counts.pair(&key, replica))
    }

    /// Takes the greater of each number.
    fn merge(&mut self, alloc: Global) -> Result<String, Fault> {
        self.counts.merge(&self.other)?;
        shown(alloc, &self.counts)
    }

    /// Makes the other counters equal to these, with the memory that these grow by.
    fn copy(&mut self, alloc: Global) -> Result<String, Fault> {
        self.other = self.counts.copy(self.counts.alloc())?;
        shown(alloc, &self.other)
    }

    fn pair(&self, alloc: Global, rest: &str) -> Result<String, Fault> {
        let (text, number) = parted(rest, ":")?;
        let replica = small(number)?;
        let key = Key::new(alloc, text)?;
        said_pair(alloc, self.counts.pair(&key, replica))
    }

    fn value(&self, alloc: Global, rest: &str) -> Result<String, Fault> {
        let key = Key::new(alloc, rest)?;
        let value = self.counts.value(&key);
        Ok(format!(in alloc; "{value}")?)
    }

    /// How many numbers are above 0.
    fn numbers(&self, alloc: Global) -> Result<String, Fault> {
        let numbers = self.counts.components();
        Ok(format!(in alloc; "{numbers}")?)
    }
}

fn which(word: &str) -> Result<Which, Fault> {
    match word {
        "up" => Ok(Which::P),
        "down" => Ok(Which::N),
        _ => Err(Fault::Usage),
    }
}

fn rows_of(alloc: Global, written: &str) -> Result<Vec<CountRow>, Fault> {
    let mut rows = Vec::new(alloc);
    for word in written.split_whitespace() {
        rows.push(row(alloc, word)?)?;
    }
    Ok(rows)
}

fn row(alloc: Global, word: &str) -> Result<CountRow, Fault> {
    let (place, pair) = parted(word, "=")?;
    let (text, first) = parted(place, ":")?;
    let (up, down) = parted(pair, ",")?;
    let replica = small(first)?;
    let p = number(up)?;
    let n = number(down)?;
    let key = Key::new(alloc, text)?;
    Ok(CountRow { key, replica, p, n })
}

fn said_pair(alloc: Global, pair: (u64, u64)) -> Result<String, Fault> {
    let (up, down) = pair;
    Ok(format!(in alloc; "{up} up, {down} down")?)
}

/// The rows, each as `a:0=5,2`.
fn shown(alloc: Global, counts: &Counts) -> Result<String, Fault> {
    let mut line = String::new(alloc);
    for row in counts.rows() {
        push(&mut line, shown_row(alloc, row)?.as_str())?;
    }
    if line.is_empty() {
        return said(alloc, "none");
    }
    Ok(line)
}

fn shown_row(alloc: Global, row: &CountRow) -> Result<String, Fault> {
    let key = row.key.as_str();
    let CountRow { replica, p, n, .. } = row;
    Ok(format!(in alloc; "{key}:{replica}={p},{n}")?)
}
