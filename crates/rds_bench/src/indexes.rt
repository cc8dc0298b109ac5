//! Edits of an index, and a take into it.
ghost use Rattle.std.specs.Prelude.{◌≤◌};

use crate::report;
use crate::samples::{Living, items, replica, span, state};
use rds_gaps::GapSet;
use rds_names::{Fault, Scalar};
use rds_state::{Command, State};
use rds_tree::Index;
use std::alloc::Global;
use std::io;
use std::time::Instant;

/// What is done with an index: ten dots come, ten elements are added, these are deleted.
#[derive(Drop)]
struct Steps {
    coming: State<GapSet>,
    adds: Vec<Command>,
    dels: Vec<Command>,
}

/// Prints the elements, and the microseconds from the start to the end of the take, the adds and the deletions.
pub fn time(rt: &HostRuntime, elements: u64) -> io::Result<()>
    requires least { 1 ≤ elements }
    requires most { elements ≤ 1000000 }
{
    let alloc = rt.alloc();
    match (indexed(alloc, elements), steps_after(alloc, elements)) {
        (Ok(mut index), Ok(steps)) => time_steps(rt, elements, &mut index, &steps),
        (Err(fault), _) => report(rt, fault),
        (_, Err(fault)) => report(rt, fault),
    }
}

/// The index of a replica whose one set has so many elements.
fn indexed(alloc: Global, elements: u64) -> Result<Index<GapSet>, Fault>
    requires least { 1 ≤ elements }
    requires most { elements ≤ 1000000 }
{
    Index::of(alloc, replica(alloc, state(alloc, elements, Living::All)?)?)
}

/// What is done with such an index.
fn steps_after(alloc: Global, elements: u64) -> Result<Steps, Fault>
    requires { elements ≤ 1000000 }
{
    Ok(Steps {
        coming: span(alloc, elements + 1, elements + 10, Living::All)?,
        adds: adds(alloc, elements + 11)?,
        dels: dels(alloc, elements + 11)?,
    })
}

/// Ten elements to be added, from a number on.
fn adds(alloc: Global, first: u64) -> Result<Vec<Command>, Fault>
    requires { first ≤ 1000011 }
{
    let mut commands = Vec::new(alloc);
    for number in first..first + 10 {
        commands.push(Command::Add(items(alloc)?, Scalar::Int(number as i64)))?;
    }
    Ok(commands)
}

/// Ten elements to be deleted, from a number on.
fn dels(alloc: Global, first: u64) -> Result<Vec<Command>, Fault>
    requires { first ≤ 1000011 }
{
    let mut commands = Vec::new(alloc);
    for number in first..first + 10 {
        commands.push(Command::Del(items(alloc)?, Scalar::Int(number as i64)))?;
    }
    Ok(commands)
}

/// Prints the figures.
fn time_steps(
    rt: &HostRuntime,
    elements: u64,
    index: &mut Index<GapSet>,
    steps: &Steps,
) -> io::Result<()> {
    if !index.replica().fits(&steps.coming) {
        return report(rt, Fault::Bad);
    }
    let start = Instant::now(rt)?;
    let take = index.take(&steps.coming);
    let taken = start.elapsed(rt)?.as_micros();
    let add = edit_each(index, &steps.adds);
    let added = start.elapsed(rt)?.as_micros();
    let del = edit_each(index, &steps.dels);
    let deleted = start.elapsed(rt)?.as_micros();
    match (take, add, del) {
        (Ok(()), Ok(()), Ok(())) => println!(rt; "{elements} {taken} {added} {deleted}"),
        (Err(fault), _, _) => report(rt, fault),
        (_, Err(fault), _) => report(rt, fault),
        (_, _, Err(fault)) => report(rt, fault),
    }
}

/// Edits the index by each command.
fn edit_each(index: &mut Index<GapSet>, commands: &[Command]) -> Result<(), Fault> {
    for command in commands {
        index.edit_by(command)?;
    }
    Ok(())
}
