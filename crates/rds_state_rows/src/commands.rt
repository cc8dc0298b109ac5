//! Edits.
use crate::scalars::scalar;
use crate::words::Words;
use rds_names::Fault;
use rds_state::{Command, Edited};
use std::alloc::Global;

/// The command that the words are.
pub fn command(alloc: Global, words: &mut Words<'_>) -> Result<Command, Fault> {
    match words.word()? {
        "set" => Ok(Command::Set(words.path(alloc)?, scalar(alloc, words.word()?)?)),
        "add" => Ok(Command::Add(words.path(alloc)?, scalar(alloc, words.word()?)?)),
        "del" => Ok(Command::Del(words.path(alloc)?, scalar(alloc, words.word()?)?)),
        "clear" => Ok(Command::Clear(words.path(alloc)?)),
        "inc" => Ok(Command::Inc(words.key(alloc)?, words.number()?)),
        "dec" => Ok(Command::Dec(words.key(alloc)?, words.number()?)),
        _ => Err(Fault::Usage),
    }
}

/// What an edit did.
pub fn edited_text(alloc: Global, edited: Edited) -> Result<String, Fault> {
    let killed = edited.killed;
    match edited.dot {
        Some(dot) => dot_text(alloc, dot.replica, dot.seq, killed),
        None => Ok(format!(in alloc; "no dot; killed {killed}")?),
    }
}

fn dot_text(alloc: Global, replica: u8, seq: u64, killed: u64) -> Result<String, Fault> {
    Ok(format!(in alloc; "dot {replica} {seq}; killed {killed}")?)
}
