//! What the words of commands on files mean.
ghost use Rattle.std.specs.Prelude.{◌≡◌, ◌<◌, ◌⊎◌, Ok, Err, IfOk, length, map, MatchResult};
ghost use Rattle.rds_names.specs.declared.fault.Fault.TheVariants.{Memory};
ghost use Rattle.rds_json.specs.MayGive.{MayGive};
ghost use Rattle.rds_words.specs.Meaning.{
  IsAmount,
  IsCommand,
  IsInterval,
  names_in,
  part_of,
  roster_in,
  value_meant,
  value_read,
};

use crate::tasks::{EditWords, ValueWord};
use rds_json::scalar;
use rds_names::{Fault, Key, Name, Path, Roster, Scalar};
use rds_state::Command;
use serde_json::Value;
use std::alloc::Global;

// The most seconds between two meetings with peers.
const LONGEST_INTERVAL: u32 = 86_400;

/// The edit that words ask for. They are judged from left to right: a path's `BadPath`, which the empty one of a clear
/// has too, or `BadKey`, a value's `BadLine` where it is no JSON and `BadScalar` where it is no value, a key's `BadKey`,
/// and `Usage` for an amount that is no whole number of 64 bits. Want of memory may come at any point.
pub fn command_of(alloc: Global, words: &EditWords<'_>) -> Result<Command, Fault>
    ensures { (result ≡ Err Memory) ⊎ IsCommand words.now result }
{
    match *words {
        EditWords::Set { path, value } => {
            let path = Path::new(alloc, path)?;
            Ok(Command::Set(path, value_in(alloc, value)?))
        }
        EditWords::Add { path, value } => {
            let path = Path::new(alloc, path)?;
            Ok(Command::Add(path, value_in(alloc, value)?))
        }
        EditWords::Del { path, value } => {
            let path = Path::new(alloc, path)?;
            Ok(Command::Del(path, value_in(alloc, value)?))
        }
        EditWords::Clear { path } => Ok(Command::Clear(part_of(alloc, path)?)),
        EditWords::ClearAll => Ok(Command::Clear(Path::new(alloc, "")?)),
        EditWords::Inc { key, by } => {
            let key = Key::new(alloc, key)?;
            Ok(Command::Inc(key, amount_of(by)?))
        }
        EditWords::Dec { key, by } => {
            let key = Key::new(alloc, key)?;
            Ok(Command::Dec(key, amount_of(by)?))
        }
    }
}

// A path but the root's.
fn part_of(alloc: Global, text: &str) -> Result<Path, Fault>
    ensures { MayGive result (part_of text.now) }
{
    if text.is_empty() {
        return Err(Fault::BadPath);
    }
    Path::new(alloc, text)
}

/// The roster of a group, and the number of one of its replicas. The words are judged from left to
/// right: `BadKey` for the group, `BadName` for the own name and for each of the names, then
/// `BadRoster`, and `NoSuch` where the own name isn't among them.
pub fn roster_in(
    alloc: Global,
    group: &str,
    own: &str,
    names: &[&str],
) -> Result<(Roster, u8), Fault>
    ensures given { MayGive result (roster_in group.now own.now (map (λ n. n.now) names.now)) }
    ensures within { IfOk result (λ r. r.1 < length r.0.names) }
{
    let group = Key::new(alloc, group)?;
    let own = Name::new(own)?;
    let names = names_in(alloc, names)?;
    let roster = Roster::new(alloc, group, names.as_slice())?;
    match roster.number_of(own) {
        Some(number) => Ok((roster, number)),
        None => Err(Fault::NoSuch),
    }
}

/// The names that texts are. They are judged from left to right: `BadName` for the first that is none.
pub fn names_in(alloc: Global, texts: &[&str]) -> Result<Vec<Name>, Fault>
    ensures { let due = names_in (map (λ t. t.now) texts.now) in
        MatchResult result (λ names. due ≡ Ok names.items) (λ fault. (fault ≡ Memory) ⊎ (due ≡ Err fault)) }
{
    let mut names = Vec::new(alloc);
    for text in texts {
        names.push(Name::new(text)?)?;
    }
    Ok(names)
}

fn value_in(alloc: Global, word: ValueWord<'_>) -> Result<Scalar, Fault>
    ensures { MayGive result (value_meant word.entry) }
{
    match word {
        ValueWord::Json(value) => value_of(alloc, value),
        ValueWord::Text(text) => Scalar::text(alloc, text),
    }
}

fn value_of(alloc: Global, text: &str) -> Result<Scalar, Fault>
    ensures { MayGive result (value_read text.now) }
{
    match Value::from_str(alloc, text) {
        Ok(value) => scalar(alloc, &value),
        Err(error) => Err(if error.is_memory() {
            Fault::Memory
        } else {
            Fault::BadLine
        }),
    }
}

/// How many seconds lie between two meetings with peers: a whole number from 1 to 86,400, a day. What is none is
/// `Usage`.
pub fn interval_of(text: &str) -> Result<u32, Fault>
    ensures { IsInterval text.now result }
{
    match u32::try_from(amount_of(text)?) {
        Ok(seconds) if 1 <= seconds && seconds <= LONGEST_INTERVAL => Ok(seconds),
        _ => Err(Fault::Usage),
    }
}

/// The whole number of 64 bits that a text is; what is none is `Usage`.
pub fn amount_of(text: &str) -> Result<u64, Fault>
    ensures { IsAmount text.now result }
{
    match text.parse::<u64>() {
        Ok(amount) => Ok(amount),
        Err(_) => Err(Fault::Usage),
    }
}
