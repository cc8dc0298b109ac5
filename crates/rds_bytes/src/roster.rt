//! A roster, and the number of one of its replicas.
ghost use Rattle.std.specs.Prelude.{◌≡◌, true, false, MatchResult, ◌<◌, ◌≤◌, length};
ghost use Rattle.std.specs.Int.{w16};
ghost use Rattle.std.specs.List.{list_all};
ghost use Rattle.rds_names.specs.declared.fault.Fault.TheVariants.{Bad};
ghost use Rattle.rds_names.specs.Name.{is_name};
ghost use Rattle.rds_names.specs.Roster.{are_names};
ghost use Rattle.rds_bytes.specs.Reading.{
  Reads,
  ReadsExactly,
  is_new as is_new_name,
  name_at,
  new_name_at,
  names_at,
  roster_at,
  replica_at,
  member_at,
  when_at,
  is_between,
  number_at,
};
ghost use Rattle.rds_bytes.specs.SteadyParts.{new_name_steady};
ghost use Rattle.rds_bytes.specs.Values.{IsMember};
ghost use Rattle.rds_bytes.specs.Spelling.{names_text, member_text};
ghost use Rattle.rds_bytes.specs.Writing.{Adds};

use crate::keys::{key_length, put_key, read_key};
use crate::list::{PartReader, read_parts};
use crate::numbers::{put_byte, put_u16, read_byte, read_u16};
use crate::strings::{put_short, read_short};
use rds_names::{Fault, Name, Roster};
use std::alloc::{AllocError, Global};

/// The text as a name.
fn name_of(text: &str) -> Result<Name, Fault>
    ensures { MatchResult result (λ name. (name ≡ text.now) × (is_name text.now ≡ true))
        (λ fault. (fault ≡ Bad) × (is_name text.now ≡ false)) }
{
    match Name::new(text) {
        Ok(name) => Ok(name),
        Err(_) => Err(Fault::Bad),
    }
}

/// A name.
#[tactic(auto, unfolding(crate::specs::Reading::name_at))]
pub fn read_name(bytes: &[u8]) -> Result<(Name, &[u8]), Fault>
    ensures { ReadsExactly (λ x. (x.0, x.1.now)) result (name_at bytes.now) }
{
    let (text, after) = read_short(1, 16, bytes)?;
    let name = name_of(text)?;
    Ok((name, after))
}

/// Whether no name before it equals the name.
fn is_new(before: &[Name], name: &Name) -> bool
    ensures { result ≡ is_new_name before.now name.now }
{
    !before.contains(name)
}

/// Reads the names of a roster, no two of which are equal.
#[derive(Drop)]
pub struct NameReader;

#[tactic(auto, unfolding(crate::specs::Reading::new_name_at, crate::specs::Reading::name_at))]
impl PartReader<Name> for NameReader {
    ghost reader = { λ _ before. new_name_at before };

    ghost steady = { λ _ before. new_name_steady before };

    fn read<'a>(
        &self,
        _alloc: Global,
        before: &[Name],
        bytes: &'a [u8],
    ) -> Result<(Name, &'a [u8]), Fault> {
        let (text, rest) = read_short(1, 16, bytes)?;
        let name = name_of(text)?;
        if !is_new(before, &name) {
            return Err(Fault::Bad);
        }
        Ok((name, rest))
    }
}

fn read_count_of_names(bytes: &[u8]) -> Result<(u16, &[u8]), Fault>
    ensures { ReadsExactly (λ x. (x.0, x.1.now)) result (when_at (is_between 1 256) (number_at w16) bytes.now) }
{
    let (count, rest) = read_u16(bytes)?;
    if count < 1 || 256 < count {
        return Err(Fault::Bad);
    }
    Ok((count, rest))
}

#[tactic(auto, unfolding(crate::specs::Reading::names_at))]
fn read_names(alloc: Global, bytes: &[u8]) -> Result<(Vec<Name>, &[u8]), Fault>
    ensures { Reads (λ x. (x.0.items, x.1.now)) result (names_at bytes.now) }
{
    let (count, rest) = read_count_of_names(bytes)?;
    let (names, rest) = read_parts(alloc, &NameReader, u32::from(count), rest)?;
    Ok((names, rest))
}

/// A roster: the group, and the names of its replicas.
#[tactic(auto, unfolding(crate::specs::Reading::roster_at))]
pub fn read_roster(alloc: Global, bytes: &[u8]) -> Result<(Roster, &[u8]), Fault>
    ensures { Reads (λ x. (x.0, x.1.now)) result (roster_at bytes.now) }
{
    let (group, rest) = read_key(alloc, bytes)?;
    let (names, rest) = read_names(alloc, rest)?;
    match Roster::new(alloc, group, &names) {
        Ok(roster) => Ok((roster, rest)),
        Err(Fault::Memory) => Err(Fault::Memory),
        Err(_) => Err(Fault::Bad),
    }
}

/// The number of one of so many replicas.
#[tactic(auto, unfolding(crate::specs::Reading::replica_at))]
pub fn read_replica(replicas: u16, bytes: &[u8]) -> Result<(u8, &[u8]), Fault>
    ensures { ReadsExactly (λ x. (x.0, x.1.now)) result (replica_at replicas bytes.now) }
{
    let (replica, rest) = read_byte(bytes)?;
    if replicas <= u16::from(replica) {
        return Err(Fault::Bad);
    }
    Ok((replica, rest))
}

/// A roster, and the number of one of its replicas.
#[tactic(auto, unfolding(crate::specs::Reading::member_at))]
pub fn read_member(alloc: Global, bytes: &[u8]) -> Result<((Roster, u8), &[u8]), Fault>
    ensures { Reads (λ x. (x.0, x.1.now)) result (member_at bytes.now) }
{
    let (roster, rest) = read_roster(alloc, bytes)?;
    let (own, rest) = read_replica(roster.len(), rest)?;
    Ok(((roster, own), rest))
}

fn names_length(roster: &Roster) -> usize
    ensures length { result ≡ length (names_text roster.now.names) }
    ensures most { result ≤ 4354 }
    ensures each_name { list_all is_name roster.now.names ≡ true }
    ensures names { are_names roster.now.names ≡ true }
{
    let mut total = 2;
    for number in 0..roster.len() {
        match roster.name_of(number as u8) {
            Some(name) => total += 1 + name.as_str().len(),
            None => unreachable!(),
        }
    }
    total
}

/// The length of a roster and the number of one of its replicas.
pub fn member_length(roster: &Roster, own: u8) -> usize
    ensures length { result ≡ length (member_text roster.now own) }
    ensures most { result ≤ 4420 }
    ensures is_member { own < length roster.now.names → IsMember roster.now own }
{
    key_length(roster.group()) + names_length(roster) + 1
}

fn put_names(out: &mut Vec<u8>, roster: &Roster) -> Result<(), AllocError>
    ensures { Adds out.old.items out.new.items (names_text roster.now.names) result }
{
    let count = roster.len();
    put_u16(out, count)?;
    for number in 0..count {
        match roster.name_of(number as u8) {
            Some(name) => put_short(out, name.as_str())?,
            None => unreachable!(),
        }
    }
    Ok(())
}

/// A roster, and the number of one of its replicas.
pub fn put_member(out: &mut Vec<u8>, roster: &Roster, own: u8) -> Result<(), AllocError>
    ensures { Adds out.old.items out.new.items (member_text roster.now own) result }
{
    put_key(out, roster.group())?;
    put_names(out, roster)?;
    put_byte(out, own)
}
