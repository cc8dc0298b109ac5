//! Rows about a disk in memory.
mod files;

use crate::calls::Calls;
use files::Disk;
use rds_files::{CreatedFile, LockedFile, ReplicaFile, is_there};
use rds_gaps::GapSet;
use rds_keep::{Reading, read_snapshot};
use rds_names::Fault;
use rds_rows::told::{fault_text, said};
use rds_rows::words::first;
use rds_state::Replica;
use std::alloc::{Alloc, Global};

/// `disk ACTION FILE CALL`: opens, makes or replaces a replica in a file of a disk on which this call fails, makes what
/// it reads last, or asks whether the file is there. The input is what files hold, and where it is empty there are none;
/// one that is made isn't there unless the call is `there FILE`. Answers the calls that were made, and what came of it.
pub fn answer_disk(alloc: Global, row: &str, input: &[u8]) -> Result<String, Fault> {
    let (action, row) = first(row);
    let (path, fails) = first(row);
    let calls = Calls::new(alloc, fails);
    let came = came_of(&calls, input, action, path)?;
    calls.told_with(came.as_str())
}

// What came of an action.
fn came_of(calls: &Calls<'_>, input: &[u8], action: &str, path: &str) -> Result<String, Fault> {
    let disk = Disk {
        calls,
        path,
        is_there: action != "create" && !input.is_empty(),
        bytes: input,
    };
    match act(&disk, action, path) {
        Ok(word) => said(calls.alloc, word),
        Err(fault) => Ok(fault_text(calls.alloc, fault)?),
    }
}

fn act(disk: &Disk<'_>, action: &str, path: &str) -> Result<&'static str, Fault> {
    match action {
        "there" => there(disk, path),
        "open" => opened(disk, path),
        "last" => made_to_last(disk, path),
        "create" | "replace" => changed(disk, action, path),
        _ => Err(Fault::Usage),
    }
}

fn there(disk: &Disk<'_>, path: &str) -> Result<&'static str, Fault> {
    Ok(if is_there(disk, path)? {
        "there"
    } else {
        "not there"
    })
}

fn opened(disk: &Disk<'_>, path: &str) -> Result<&'static str, Fault> {
    let _file: ReplicaFile<'_, GapSet> = ReplicaFile::open(disk, path)?;
    Ok("opened")
}

fn made_to_last(disk: &Disk<'_>, path: &str) -> Result<&'static str, Fault> {
    let _file: ReplicaFile<'_, GapSet> = ReplicaFile::open_lasting(disk, path)?;
    Ok("lasts")
}

// Writes the replica of the input.
fn changed(disk: &Disk<'_>, action: &str, path: &str) -> Result<&'static str, Fault> {
    let held = read_snapshot(disk.alloc(), &mut Reading::new(disk.bytes))?;
    match action {
        "create" => created(disk, path, held.replica()),
        _ => replaced(disk, path, held.replica()),
    }
}

fn created(disk: &Disk<'_>, path: &str, held: Replica<GapSet>) -> Result<&'static str, Fault> {
    let _file = CreatedFile::create(disk, path, held)?;
    Ok("made")
}

fn replaced<'a>(disk: &Disk<'a>, path: &str, held: Replica<GapSet>) -> Result<&'static str, Fault> {
    let locked: LockedFile<'_, Disk<'a>, GapSet> = LockedFile::open(disk, path)?;
    let (_before, file) = locked.into_parts();
    let _file = file.replace(disk, held)?;
    Ok("replaced")
}
