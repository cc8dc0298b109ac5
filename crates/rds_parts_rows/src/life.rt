//! Rows on the lives of dots. An entry is written as its number: it is an element of the set at "s".
ghost use Rattle.std.specs.Prelude.{◌≡◌, true, IsTrue, nat_lt};
ghost use Rattle.rds_dots.specs.Dots.{is_dot as dot_test};

use crate::dots::{self, insert};
use crate::scalars::integer;
use crate::words::{self, push, run};
use rds_dots::{Dot, DotSet, MAX_SEQ};
use rds_life::{Choice, LiveRows, Lives, Rank};
use rds_names::{Entry, Fault, Kind, Path, Scalar};
use rds_rows::told::said;
use rds_rows::words::{number, parted};
use std::alloc::Global;
use std::mem;

/// The lives that rows are on, and others.
#[derive(Drop)]
pub struct Histories<S: DotSet> {
    lives: Lives<S>,
    other: Lives<S>,
}

impl<S: DotSet> Histories<S> {
    /// Every dot is unseen in both.
    pub fn empty(alloc: Global) -> Histories<S> {
        Histories {
            lives: Lives::empty(alloc),
            other: Lives::empty(alloc),
        }
    }

    /// Answers a row on lives.
    pub fn answer(&mut self, alloc: Global, asked: &str, rest: &str) -> Result<String, Fault> {
        match asked {
            "clear" => self.clear(alloc),
            "swap" => self.swap(alloc),
            "make" => self.make(alloc, rest),
            "put" => self.put(alloc, rest),
            "kill" => self.kill(alloc, rest),
            "kill_below" => self.kill_below(alloc, rest),
            "merge" => self.merge(alloc),
            "join" => self.join(alloc),
            "copy" => self.copy(alloc),
            "index" => self.index(alloc),
            "kill_live" => self.kill_live(alloc, rest),
            _ => self.tell(alloc, asked, rest),
        }
    }

    fn clear(&mut self, alloc: Global) -> Result<String, Fault> {
        *self = Histories::empty(alloc);
        live(alloc, &self.lives)
    }

    /// Turns to the other lives.
    fn swap(&mut self, alloc: Global) -> Result<String, Fault> {
        mem::swap(&mut self.lives, &mut self.other);
        live(alloc, &self.lives)
    }

    /// Takes the runs that are seen and the rows that are live, as `0:1-3 | 0:2=20`.
    fn make(&mut self, alloc: Global, rest: &str) -> Result<String, Fault> {
        let (seen, rows) = parted(rest, " |")?;
        let seen = set_of(alloc, seen)?;
        let rows = rows_of(alloc, rows)?;
        match Lives::from_parts(seen, rows) {
            Some(lives) => self.lives = lives,
            None => return said(alloc, "unfit"),
        }
        live(alloc, &self.lives)
    }

    /// Makes a dot live that is still unseen.
    fn put(&mut self, alloc: Global, rest: &str) -> Result<String, Fault> {
        let (at, value) = parted(rest, "=")?;
        let dot = words::dot(at)?;
        let entry = element(alloc, value)?;
        if !is_dot(dot) || self.lives.rank(dot) != Rank::Unseen {
            return said(alloc, "unfit");
        }
        self.lives.put_live(dot, entry)?;
        live(alloc, &self.lives)
    }

    fn kill(&mut self, alloc: Global, rest: &str) -> Result<String, Fault> {
        let dot = words::dot(rest)?;
        if !is_dot(dot) {
            return said(alloc, "unfit");
        }
        self.lives.kill(dot)?;
        live(alloc, &self.lives)
    }

    /// Kills the dot if it is live.
    fn kill_live(&mut self, alloc: Global, rest: &str) -> Result<String, Fault> {
        self.lives.kill_live(words::dot(rest)?);
        live(alloc, &self.lives)
    }

    /// Puts what is live into a map.
    fn index(&mut self, alloc: Global) -> Result<String, Fault> {
        self.lives.index()?;
        live(alloc, &self.lives)
    }

    /// Kills the live dots whose numbers are below a number, and says how many there were.
    fn kill_below(&mut self, alloc: Global, rest: &str) -> Result<String, Fault> {
        let below = Below { seq: number(rest)? };
        let killed = self.lives.kill_chosen(&below);
        words::said_number(alloc, Some(killed))
    }

    /// Joins the other lives into these.
    fn merge(&mut self, alloc: Global) -> Result<String, Fault> {
        match self.lives.merge(&self.other) {
            Ok(()) => live(alloc, &self.lives),
            Err(fault) => refused(alloc, fault),
        }
    }

    /// Makes the other lives the join of both.
    fn join(&mut self, alloc: Global) -> Result<String, Fault> {
        match self.lives.joined(alloc, &self.other) {
            Ok(joined) => self.other = joined,
            Err(fault) => return refused(alloc, fault),
        }
        live(alloc, &self.other)
    }

    /// Makes the other lives equal to these.
    fn copy(&mut self, alloc: Global) -> Result<String, Fault> {
        self.other = self.lives.copy(alloc)?;
        live(alloc, &self.other)
    }

    fn tell(&self, alloc: Global, asked: &str, rest: &str) -> Result<String, Fault> {
        match asked {
            "live" => live(alloc, &self.lives),
            "ranks" => ranks(alloc, &self.lives, rest),
            "entry" => entry(alloc, &self.lives, rest),
            "seen" => dots::shown(alloc, self.lives.seen()),
            "dead" => dots::shown(alloc, &self.lives.dead(alloc)?),
            "live_dots" => dots::shown(alloc, &self.lives.live_dots(alloc)?),
            "conflict" => conflict(alloc, self.lives.conflict(&self.other)),
            "count" => words::said_number(alloc, Some(self.lives.live_len() as u64)),
            "first" => first(alloc, &self.lives, rest),
            "past" => past(alloc, &self.lives, rest),
            "until" => words::said_number(alloc, self.lives.live_until(words::dot(rest)?)),
            "dead_there" => rows_told(alloc, &self.lives.rows_dead_in(alloc, &self.other)?),
            _ => Err(Fault::Usage),
        }
    }
}

/// The dots whose numbers are below one.
#[derive(Drop)]
struct Below {
    seq: u64,
}

impl Choice for Below {
    ghost chosen = { λ below dot _. nat_lt dot.seq below.seq };

    fn chooses(&self, dot: Dot, _entry: &Entry) -> bool {
        dot.seq < self.seq
    }
}

fn is_dot(dot: Dot) -> bool
    ensures { IsTrue result → dot_test dot ≡ true }
{
    1 <= dot.seq && dot.seq <= MAX_SEQ
}

fn set_of<S: DotSet>(alloc: Global, written: &str) -> Result<S, Fault> {
    let mut set = S::empty(alloc);
    for word in written.split_whitespace() {
        insert(&mut set, run(word)?)?;
    }
    Ok(set)
}

fn rows_of(alloc: Global, written: &str) -> Result<Vec<(Dot, Entry)>, Fault> {
    let mut rows = Vec::new(alloc);
    for word in written.split_whitespace() {
        push_row(alloc, &mut rows, word)?;
    }
    Ok(rows)
}

fn push_row(alloc: Global, rows: &mut Vec<(Dot, Entry)>, word: &str) -> Result<(), Fault> {
    let (at, value) = parted(word, "=")?;
    let dot = words::dot(at)?;
    let entry = element(alloc, value)?;
    rows.push((dot, entry))?;
    Ok(())
}

/// The element of the set at "s" that is this number.
fn element(alloc: Global, value: &str) -> Result<Entry, Fault> {
    let value = integer(value)?;
    let path = Path::new(alloc, "s")?;
    Entry::new(path, Kind::Elem, Scalar::Int(value))
}

/// What is live, as `0:2=20`.
fn live<S: DotSet>(alloc: Global, lives: &Lives<S>) -> Result<String, Fault> {
    listed(alloc, lives.live())
}

/// What is live past a dot.
fn past<S: DotSet>(alloc: Global, lives: &Lives<S>, rest: &str) -> Result<String, Fault> {
    let mut rows = lives.live();
    rows.skip_past(words::dot(rest)?);
    listed(alloc, rows)
}

/// What is live first from a dot on.
fn first<S: DotSet>(alloc: Global, lives: &Lives<S>, rest: &str) -> Result<String, Fault> {
    match lives.first_from(words::dot(rest)?) {
        Some((dot, entry)) => row(alloc, dot, entry),
        None => said(alloc, "none"),
    }
}

fn listed(alloc: Global, rows: LiveRows<'_>) -> Result<String, Fault> {
    let mut line = String::new(alloc);
    for (dot, entry) in rows {
        push(&mut line, row(alloc, dot, entry)?.as_str())?;
    }
    if line.is_empty() {
        return said(alloc, "none live");
    }
    Ok(line)
}

/// Rows of a list, as `0:2=20`.
fn rows_told(alloc: Global, rows: &[(Dot, Entry)]) -> Result<String, Fault> {
    let mut line = String::new(alloc);
    for (dot, entry) in rows {
        push(&mut line, row(alloc, *dot, entry)?.as_str())?;
    }
    if line.is_empty() {
        return said(alloc, "none");
    }
    Ok(line)
}

fn row(alloc: Global, dot: Dot, entry: &Entry) -> Result<String, Fault> {
    let Dot { replica, seq } = dot;
    match entry.value() {
        Scalar::Int(value) => Ok(format!(in alloc; "{replica}:{seq}={value}")?),
        _ => Ok(format!(in alloc; "{replica}:{seq} is no number")?),
    }
}

/// How far each dot of a run has come.
fn ranks<S: DotSet>(alloc: Global, lives: &Lives<S>, rest: &str) -> Result<String, Fault> {
    let run = run(rest)?;
    let mut line = String::new(alloc);
    for seq in run.lo..run.hi.saturating_add(1) {
        let replica = run.replica;
        push(&mut line, rank(lives.rank(Dot { replica, seq })))?;
    }
    Ok(line)
}

fn rank(rank: Rank) -> &'static str {
    match rank {
        Rank::Unseen => "unseen",
        Rank::Live => "live",
        Rank::Dead => "dead",
    }
}

fn entry<S: DotSet>(alloc: Global, lives: &Lives<S>, rest: &str) -> Result<String, Fault> {
    let dot = words::dot(rest)?;
    match lives.entry(dot) {
        Some(entry) => row(alloc, dot, entry),
        None => said(alloc, "none"),
    }
}

fn conflict(alloc: Global, conflict: Option<Dot>) -> Result<String, Fault> {
    match conflict {
        Some(Dot { replica, seq }) => Ok(format!(in alloc; "{replica}:{seq}")?),
        None => said(alloc, "none"),
    }
}

/// A conflict with its dot; any other fault is answered as ever.
fn refused(alloc: Global, fault: Fault) -> Result<String, Fault> {
    match fault {
        Fault::Conflict { replica, seq } => {
            Ok(format!(in alloc; "refused for {replica}:{seq}")?)
        }
        _ => Err(fault),
    }
}
