//! Edits of a replica.
ghost use Rattle.std.specs.Prelude.{◌≡◌, IfOk, IfErr};
ghost use Rattle.rds_names.specs.declared.fault.Fault.TheVariants.{Memory};
ghost use Rattle.rds_state.specs.Copied.{HasKeysOrText};

use rds_dots::Dot;
use rds_names::{Fault, Key, Path, Scalar};
use std::alloc::Global;

/// An edit of a replica.
#[derive(Debug, Drop)]
pub enum Command {
    /// Makes the value the only one of the register at the path.
    Set(Path, Scalar),
    /// Adds the value to the set at the path.
    Add(Path, Scalar),
    /// Removes the value from the set at the path.
    Del(Path, Scalar),
    /// Removes all entries at or below the path.
    Clear(Path),
    /// Adds an amount to the counter of the key.
    Inc(Key, u64),
    /// Takes an amount off the counter of the key.
    Dec(Key, u64),
}

/// What an edit did: the dot that it made live, and how many live dots it made dead.
#[derive(Clone, Copy, Debug, PartialEq, Eq)]
pub struct Edited {
    pub dot: Option<Dot>,
    pub killed: u64,
}

impl Command {
    /// An equal command with memory of its own. Keys and texts take some.
    pub fn copy(&self, alloc: Global) -> Result<Command, Fault>
        ensures ok { IfOk result (λ command. command ≡ self.now) }
        ensures memory { IfErr result (λ fault. fault ≡ Memory) }
        ensures room { IfErr result (λ _. HasKeysOrText self.now) }
    {
        Ok(match self {
            Command::Set(path, value) => Command::Set(path.copy(alloc)?, value.copy(alloc)?),
            Command::Add(path, value) => Command::Add(path.copy(alloc)?, value.copy(alloc)?),
            Command::Del(path, value) => Command::Del(path.copy(alloc)?, value.copy(alloc)?),
            Command::Clear(path) => Command::Clear(path.copy(alloc)?),
            Command::Inc(key, by) => Command::Inc(key.copy(alloc)?, *by),
            Command::Dec(key, by) => Command::Dec(key.copy(alloc)?, *by),
        })
    }
}
