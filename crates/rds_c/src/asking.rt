//! The commands that calls without JSON ask for.
ghost use Rattle.std.specs.Prelude.{◌≡◌};
ghost use Rattle.rds_json.specs.MayGive.{MayGive};
ghost use Rattle.rds_c.specs.Asked.{cleared_of, command_by, lowered_of, raised_of, valued_of};

use rds_store::{Command, Fault, Key, Path, Scalar};
use std::alloc::Global;

/// What becomes of a value at a path.
#[derive(Clone, Copy)]
pub enum Verb {
    /// The register has it alone.
    Set,
    /// The set has it.
    Add,
    /// The set hasn't it.
    Del,
}

fn command_by(verb: Verb, path: Path, value: Scalar) -> Command
    ensures { result ≡ command_by verb path value }
{
    match verb {
        Verb::Set => Command::Set(path, value),
        Verb::Add => Command::Add(path, value),
        Verb::Del => Command::Del(path, value),
    }
}

/// A value, set or added or deleted at the path that a text is. The path is judged first.
pub fn valued(
    alloc: Global,
    verb: Verb,
    path: &str,
    value: Result<Scalar, Fault>,
) -> Result<Command, Fault>
    ensures { MayGive result (valued_of verb path.now value) }
{
    let path = Path::new(alloc, path)?;
    let value = value?;
    Ok(command_by(verb, path, value))
}

/// All at or below the path that a text is, cleared.
pub fn cleared(alloc: Global, path: &str) -> Result<Command, Fault>
    ensures { MayGive result (cleared_of path.now) }
{
    Ok(Command::Clear(Path::new(alloc, path)?))
}

/// The counter of the key that a text is, raised.
pub fn raised(alloc: Global, key: &str, by: u64) -> Result<Command, Fault>
    ensures { MayGive result (raised_of key.now by) }
{
    Ok(Command::Inc(Key::new(alloc, key)?, by))
}

/// The counter of the key that a text is, lowered.
pub fn lowered(alloc: Global, key: &str, by: u64) -> Result<Command, Fault>
    ensures { MayGive result (lowered_of key.now by) }
{
    Ok(Command::Dec(Key::new(alloc, key)?, by))
}
