//! States as texts: their parts, with a semicolon between two.
//!
//! - `seen REPLICA FIRST LAST`: these dots aren't unseen.
//! - `live REPLICA NUMBER KIND PATH VALUE`: this dot is live.
//! - `count KEY REPLICA P N`: what the replica has counted under the key.
use crate::listing::Listing;
use crate::scalars::{scalar, scalar_word};
use crate::words::Words;
use rds_counts::{CountRow, Counts};
use rds_dots::{Dot, DotSet, MAX_SEQ, Run, runs};
use rds_life::Lives;
use rds_names::{Entry, Fault, Kind};
use rds_state::State;
use std::alloc::Global;

/// The parts of a state, as they were read.
#[derive(Drop)]
pub struct Draft<S: DotSet> {
    seen: S,
    live: Vec<(Dot, Entry)>,
    counts: Vec<CountRow>,
}

impl<S: DotSet> Draft<S> {
    /// The parts that stand in a text.
    pub fn read(alloc: Global, text: &str) -> Result<Draft<S>, Fault> {
        let mut draft = Draft {
            seen: S::empty(alloc),
            live: Vec::new(alloc),
            counts: Vec::new(alloc),
        };
        for part in text.split(';') {
            draft.put(alloc, &mut Words::new(part))?;
        }
        Ok(draft)
    }

    fn put(&mut self, alloc: Global, words: &mut Words<'_>) -> Result<(), Fault> {
        match words.word()? {
            "seen" => insert(&mut self.seen, words.run()?),
            "live" => push_live(alloc, &mut self.live, words),
            "count" => push_count(alloc, &mut self.counts, words),
            _ => Err(Fault::Usage),
        }
    }

    /// The lives and the counters; `Bad` where the parts are none of a state.
    pub fn into_parts(self) -> Result<(Lives<S>, Counts), Fault> {
        let lives = Lives::from_parts(self.seen, self.live).ok_or(Fault::Bad)?;
        let counts = Counts::from_rows(self.counts).ok_or(Fault::Bad)?;
        Ok((lives, counts))
    }
}

/// Puts a run into a set; what is no run is `Bad`.
pub fn insert<S: DotSet>(dots: &mut S, run: Run) -> Result<(), Fault> {
    if run.lo < 1 || run.hi < run.lo || run.hi > MAX_SEQ {
        return Err(Fault::Bad);
    }
    dots.insert_run(run)
}

fn push_live(
    alloc: Global,
    live: &mut Vec<(Dot, Entry)>,
    words: &mut Words<'_>,
) -> Result<(), Fault> {
    let dot = words.dot()?;
    let entry = entry(alloc, words)?;
    live.push((dot, entry))?;
    Ok(())
}

fn entry(alloc: Global, words: &mut Words<'_>) -> Result<Entry, Fault> {
    let kind = words.kind()?;
    let path = words.path(alloc)?;
    Entry::new(path, kind, scalar(alloc, words.word()?)?)
}

fn push_count(
    alloc: Global,
    counts: &mut Vec<CountRow>,
    words: &mut Words<'_>,
) -> Result<(), Fault> {
    let key = words.key(alloc)?;
    let replica = words.small()?;
    let p = words.number()?;
    let n = words.number()?;
    counts.push(CountRow { key, replica, p, n })?;
    Ok(())
}

/// The state as a text.
pub fn state_text<S: DotSet>(alloc: Global, state: &State<S>) -> Result<String, Fault> {
    let mut listing = Listing::new(alloc);
    list_seen(alloc, &mut listing, state.lives().seen())?;
    list_live(alloc, &mut listing, state.lives())?;
    list_counts(alloc, &mut listing, state.counts().rows())?;
    listing.into_text(alloc)
}

fn list_seen<S: DotSet>(alloc: Global, listing: &mut Listing, seen: &S) -> Result<(), Fault> {
    for run in runs(seen) {
        listing.push(run_text(alloc, run)?.as_str())?;
    }
    Ok(())
}

fn run_text(alloc: Global, run: Run) -> Result<String, Fault> {
    let Run { replica, lo, hi } = run;
    Ok(format!(in alloc; "seen {replica} {lo} {hi}")?)
}

fn list_live<S: DotSet>(
    alloc: Global,
    listing: &mut Listing,
    lives: &Lives<S>,
) -> Result<(), Fault> {
    for (dot, entry) in lives.live() {
        listing.push(live_text(alloc, dot, entry)?.as_str())?;
    }
    Ok(())
}

fn live_text(alloc: Global, dot: Dot, entry: &Entry) -> Result<String, Fault> {
    let Dot { replica, seq } = dot;
    let entry = entry_text(alloc, entry)?;
    Ok(format!(in alloc; "live {replica} {seq} {entry}")?)
}

fn entry_text(alloc: Global, entry: &Entry) -> Result<String, Fault> {
    let kind = match entry.kind() {
        Kind::Reg => "reg",
        Kind::Elem => "elem",
    };
    let path = path_text(alloc, entry)?;
    let value = scalar_word(alloc, entry.value())?;
    Ok(format!(in alloc; "{kind} {path} {value}")?)
}

fn path_text(alloc: Global, entry: &Entry) -> Result<String, Fault> {
    let mut text = String::new(alloc);
    for key in entry.path().keys() {
        if !text.is_empty() {
            text.push_str("/")?;
        }
        text.push_str(key.as_str())?;
    }
    Ok(text)
}

fn list_counts(alloc: Global, listing: &mut Listing, rows: &[CountRow]) -> Result<(), Fault> {
    for row in rows {
        listing.push(count_text(alloc, row)?.as_str())?;
    }
    Ok(())
}

fn count_text(alloc: Global, row: &CountRow) -> Result<String, Fault> {
    let key = row.key.as_str();
    let replica = row.replica;
    let (p, n) = (row.p, row.n);
    Ok(format!(in alloc; "count {key} {replica} {p} {n}")?)
}
