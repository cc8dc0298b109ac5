//! The line that a roster begins with.
ghost use Rattle.std.specs.Prelude.{◌≡◌, ◌⊎◌, map, Ok, Err, IfOk, IfErr};
ghost use Rattle.std.specs.List.{list_all};
ghost use Rattle.rds_json.specs.MayGive.{MayGive};
ghost use Rattle.rds_json.specs.Members.{of_one};
ghost use Rattle.rds_json.specs.RosterLine.{is_text, names_of, roster_line, roster_from};
ghost use Rattle.rds_names.specs.Key.{key_of};
ghost use Rattle.rds_names.specs.Name.{name_of};
ghost use Rattle.rds_names.specs.declared.fault.Fault.TheVariants.{Memory};
ghost use Rattle.serde_json.specs.Find.{as_str};
ghost use Rattle.serde_json.specs.View.{view};

use rds_names::{Fault, Key, Name, Roster};
use serde_json::Value;
use std::alloc::Global;

/// `["roster", GROUP, NAME, ..]`
pub fn roster_at(alloc: Global, line: &Value) -> Result<Roster, Fault>
    ensures { MayGive result (roster_line (view line.now)) }
{
    match line.as_array() {
        Some(members) => match members.as_slice().split_first() {
            Some((_word, rest)) => roster_from(alloc, rest),
            None => Err(Fault::BadLine),
        },
        None => Err(Fault::BadLine),
    }
}

/// The group, then the names.
fn roster_from(alloc: Global, members: &[Value]) -> Result<Roster, Fault>
    ensures { MayGive result (roster_from (map view members.now)) }
{
    if !are_texts(members) {
        return Err(Fault::BadLine);
    }
    let (group, names) = match members.split_first() {
        Some(parts) => parts,
        None => return Err(Fault::BadLine),
    };
    let group = key(alloc, group)?;
    let names = names_of(alloc, names)?;
    Roster::new(alloc, group, names.as_slice())
}

/// Whether all members are texts.
fn are_texts(members: &[Value]) -> bool
    ensures { result ≡ list_all is_text (map view members.now) }
{
    members.iter().all(|member| member.is_string())
}

/// The key that a member is.
fn key(alloc: Global, member: &Value) -> Result<Key, Fault>
    ensures { MayGive result (of_one key_of (as_str (view member.now))) }
{
    match member.as_str() {
        Some(text) => Key::new(alloc, text),
        None => Err(Fault::BadLine),
    }
}

/// The name that a member is.
fn name(member: &Value) -> Result<Name, Fault>
    ensures { result ≡ of_one name_of (as_str (view member.now)) }
{
    match member.as_str() {
        Some(text) => Name::new(text),
        None => Err(Fault::BadLine),
    }
}

/// The names that members are.
fn names_of(alloc: Global, members: &[Value]) -> Result<Vec<Name>, Fault>
    ensures ok { IfOk result (λ names. names_of (map view members.now) ≡ Ok names.items) }
    ensures err { IfErr result (λ fault. (fault ≡ Memory) ⊎ (names_of (map view members.now) ≡ Err fault)) }
{
    let mut names = Vec::new(alloc);
    for member in members {
        names.push(name(member)?)?;
    }
    Ok(names)
}
