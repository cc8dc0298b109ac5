//! Registers of an index, set one by one, by the texts of their paths.
ghost use Rattle.std.specs.Prelude.{◌≤◌};

use crate::report;
use crate::samples::replica;
use rds_counts::Counts;
use rds_gaps::GapSet;
use rds_life::Lives;
use rds_names::{Fault, Path, Scalar};
use rds_state::{Command, State};
use rds_tree::Index;
use std::alloc::Global;
use std::io;
use std::time::Instant;

/// How many edits are timed of each kind.
const TIMES: u64 = 2_000;

/// How far apart the registers are that are set anew.
const APART: u64 = 37;

/// How far apart they are where none is near one that was set shortly before.
const FAR_APART: u64 = 61_803;

/// What is done with an index: its registers are made, further ones are, some are set anew and the same once more, and
/// then some in no order. Each is the path of a register.
#[derive(Drop)]
struct Steps {
    first: Vec<String>,
    new: Vec<String>,
    anew: Vec<String>,
    far: Vec<String>,
}

/// Prints the registers, and the nanoseconds from the start to the end of the edits that make them, of further ones, of
/// old ones set anew, of the same once more, and of old ones set anew in no order.
pub fn time(rt: &HostRuntime, registers: u64) -> io::Result<()>
    requires least { 1 ≤ registers }
    requires most { registers ≤ 1000000 }
{
    let alloc = rt.alloc();
    match (empty(alloc), steps_of(alloc, registers)) {
        (Ok(mut index), Ok(steps)) => time_steps(rt, registers, &mut index, &steps),
        (Err(fault), _) => report(rt, fault),
        (_, Err(fault)) => report(rt, fault),
    }
}

/// The index of an empty replica.
fn empty(alloc: Global) -> Result<Index<GapSet>, Fault> {
    let state = State::from_parts(Lives::empty(alloc), Counts::empty(alloc));
    Index::of(alloc, replica(alloc, state)?)
}

fn steps_of(alloc: Global, registers: u64) -> Result<Steps, Fault>
    requires least { 1 ≤ registers }
    requires most { registers ≤ 1000000 }
{
    Ok(Steps {
        first: paths(alloc, 0, 1, registers, registers)?,
        new: paths(alloc, registers, 1, registers + TIMES, TIMES)?,
        anew: paths(alloc, 0, APART, registers, TIMES)?,
        far: paths(alloc, 0, FAR_APART, registers, TIMES)?,
    })
}

/// So many paths `m{0..99}/k{number}`: from a number on, by a step, and from 0 again at the limit.
fn paths(alloc: Global, from: u64, step: u64, limit: u64, times: u64) -> Result<Vec<String>, Fault>
    requires from { from ≤ 1000000 }
    requires step { step ≤ 61803 }
    requires limit { 1 ≤ limit }
    requires times { times ≤ 1000000 }
{
    let mut paths = Vec::new(alloc);
    for turn in 0..times {
        let number = (from + turn * step) % limit;
        let map = number % 100;
        paths.push(format!(in alloc; "m{map}/k{number}")?)?;
    }
    Ok(paths)
}

/// Sets the register at each path to the same number, as a caller does who has texts.
fn set_each(
    index: &mut Index<GapSet>,
    alloc: Global,
    paths: &[String],
    value: i64,
) -> Result<(), Fault> {
    for text in paths {
        let path = Path::new(alloc, text.as_str())?;
        index.edit_by(&Command::Set(path, Scalar::Int(value)))?;
    }
    Ok(())
}

/// Prints the figures.
fn time_steps(
    rt: &HostRuntime,
    registers: u64,
    index: &mut Index<GapSet>,
    steps: &Steps,
) -> io::Result<()> {
    let alloc = rt.alloc();
    let start = Instant::now(rt)?;
    let first = set_each(index, alloc, &steps.first, 1);
    let made = start.elapsed(rt)?.as_nanos();
    let new = set_each(index, alloc, &steps.new, 2);
    let added = start.elapsed(rt)?.as_nanos();
    let anew = set_each(index, alloc, &steps.anew, 3);
    let changed = start.elapsed(rt)?.as_nanos();
    let again = set_each(index, alloc, &steps.anew, 4);
    let repeated = start.elapsed(rt)?.as_nanos();
    let far = set_each(index, alloc, &steps.far, 5);
    let ended = start.elapsed(rt)?.as_nanos();
    match first.and(new).and(anew).and(again).and(far) {
        Ok(()) => println!(rt; "{registers} {made} {added} {changed} {repeated} {ended}"),
        Err(fault) => report(rt, fault),
    }
}
