//! States to be timed.
ghost use Rattle.std.specs.Prelude.{◌≤◌};

use rds_counts::Counts;
use rds_dots::{Dot, DotSet, Run};
use rds_gaps::GapSet;
use rds_life::Lives;
use rds_names::{Entry, Fault, Key, Kind, Name, Path, Roster, Scalar};
use rds_state::{Replica, State};
use std::alloc::Global;

/// The element of the set at "items" that has this number.
fn element(alloc: Global, number: u64) -> Result<Entry, Fault>
    requires { number ≤ 1000020 }
{
    Entry::new(items(alloc)?, Kind::Elem, Scalar::Int(number as i64))
}

/// The path of the set.
pub fn items(alloc: Global) -> Result<Path, Fault> {
    Path::new(alloc, "items")
}

/// Which dots of a sample live.
#[derive(Clone, Copy, PartialEq, Eq)]
pub enum Living {
    All,
    TwoOfThree,
}

/// Those of the dots that live, each with an element of its own.
fn rows(alloc: Global, lo: u64, hi: u64, living: Living) -> Result<Vec<(Dot, Entry)>, Fault>
    requires { hi ≤ 1000020 }
{
    let mut rows = Vec::new(alloc);
    for seq in lo..hi + 1 {
        if living == Living::All || seq % 3 != 0 {
            let dot = Dot { replica: 0, seq };
            rows.push((dot, element(alloc, seq)?))?;
        }
    }
    Ok(rows)
}

/// A state that has seen so many dots of replica 0.
pub fn state(alloc: Global, dots: u64, living: Living) -> Result<State<GapSet>, Fault>
    requires least { 1 ≤ dots }
    requires most { dots ≤ 1000000 }
{
    span(alloc, 1, dots, living)
}

/// A state that has seen these dots of replica 0.
pub fn span(alloc: Global, lo: u64, hi: u64, living: Living) -> Result<State<GapSet>, Fault>
    requires least { 1 ≤ lo }
    requires some { lo ≤ hi }
    requires most { hi ≤ 1000020 }
{
    seen_with(alloc, lo, hi, rows(alloc, lo, hi, living)?)
}

/// A state that has seen these dots of replica 0, and has these rows of live ones.
pub fn seen_with(
    alloc: Global,
    lo: u64,
    hi: u64,
    rows: Vec<(Dot, Entry)>,
) -> Result<State<GapSet>, Fault>
    requires least { 1 ≤ lo }
    requires some { lo ≤ hi }
    requires most { hi ≤ 1000020 }
{
    let mut seen = GapSet::empty(alloc);
    seen.insert_run(Run { replica: 0, lo, hi })?;
    match Lives::from_parts(seen, rows) {
        Some(lives) => Ok(State::from_parts(lives, Counts::empty(alloc))),
        None => Err(Fault::Bad),
    }
}

/// Replica 1 of two, with this state.
pub fn replica(alloc: Global, state: State<GapSet>) -> Result<Replica<GapSet>, Fault> {
    let names = [Name::new("a")?, Name::new("b")?];
    let roster = Roster::new(alloc, Key::new(alloc, "g")?, names.as_slice())?;
    Replica::from_parts(roster, 1, state)
}
