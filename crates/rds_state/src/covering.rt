//! What a command covers.
ghost use Rattle.std.specs.Prelude.{◌≡◌, IfOk, IfErr};
ghost use Rattle.rds_names.specs.declared.fault.Fault.TheVariants.{Memory};
ghost use Rattle.rds_life.specs.Life.{live_rows};
ghost use Rattle.rds_state.specs.CoveredDots.{covered_dots};
ghost use Rattle.rds_state.specs.Edit.{covers, is_element};

use crate::command::Command;
use rds_dots::{Dot, DotSet};
use rds_life::Lives;
use rds_names::{Entry, Fault, Kind, Path, Scalar};
use std::alloc::Global;

/// Whether a command makes a live entry dead.
pub fn covers_entry(command: &Command, entry: &Entry) -> bool
    ensures { result ≡ covers command.now entry.now }
{
    match command {
        Command::Set(path, _) => entry.kind() == Kind::Reg && entry.path() == path,
        Command::Add(path, value) => is_element_of(entry, path, value),
        Command::Del(path, value) => is_element_of(entry, path, value),
        Command::Clear(path) => entry.path().begins_with(path),
        Command::Inc(_, _) => false,
        Command::Dec(_, _) => false,
    }
}

/// Whether an entry is this value in the set at the path.
fn is_element_of(entry: &Entry, path: &Path, value: &Scalar) -> bool
    ensures { result ≡ is_element entry.now path.now value.now }
{
    entry.kind() == Kind::Elem && entry.path() == path && entry.value().same(value)
}

/// The live dots that a command covers.
pub fn covered_in<S: DotSet>(
    alloc: Global,
    lives: &Lives<S>,
    command: &Command,
) -> Result<Vec<Dot>, Fault>
    ensures ok { IfOk result (λ dots. dots.items ≡ covered_dots command.now (live_rows lives.now)) }
    ensures memory { IfErr result (λ fault. fault ≡ Memory) }
{
    let mut dots = Vec::new(alloc);
    let mut rest = lives.live();
    'looking: loop {
        let (dot, entry) = match rest.next() {
            Some(row) => row,
            None => return Ok(dots),
        };
        if covers_entry(command, entry) {
            dots.push(dot)?;
        }
    }
}
