//! The replicas of a group.
ghost use Rattle.std.specs.Prelude.{◌≡◌, ◌↔◌, ◌++◌, true, IsTrue, IfOk, IfErr, length, position, slice_get};
ghost use Rattle.std.specs.Str.{bytes_eq};
ghost use Rattle.rds_names.specs.declared.fault.Fault.TheVariants.{Memory};
ghost use Rattle.rds_names.specs.Gives.{Gives};
ghost use Rattle.rds_names.specs.Roster.{roster_of, grown_of, longer, Begins, OneBegins, MeetGives, AreFirst};
ghost use Rattle.rds_names.specs.Roster.{are_names, all_differ as names_differ};

use crate::fault::Fault;
use crate::key::Key;
use crate::name::Name;
use indexmap::IndexSet;
use std::alloc::Global;
use std::marker::Model;
use std::sync::Arc;

/// The most replicas that a group has.
const MOST_NAMES: usize = 256;

/// The name of a group and those of its replicas: 1 to 256, all different. A replica's number is
/// the place of its name, from 0.
pub struct Roster {
    group: Key,
    names: Arc<IndexSet<Name>>,
}

impl Drop for Roster {
    fn drop(self) {
        let Roster {
            group: _group,
            names: _names,
        } = self;
    }
}

impl Model for Roster {
    ghost use Rattle.std.specs.Prelude.{IsTrue};
    ghost use Rattle.rds_names.specs.Roster.{RosterValue, are_names};

    ghost Value = { RosterValue };

    ghost view = { λ r. record { group = r.group; names = r.names.value.keys } };

    ghost invariant = { λ r. IsTrue (are_names r.names.value.keys) };
}

impl Roster {
    /// The roster of these names, numbered in their order. No name, more than 256 and a name that
    /// stands twice are refused (`BadRoster`).
    pub fn new(alloc: Global, group: Key, names: &[Name]) -> Result<Roster, Fault>
        ensures { Gives result (roster_of group names.now) }
    {
        if names.is_empty() || names.len() > MOST_NAMES || !all_differ(names) {
            return Err(Fault::BadRoster);
        }
        Ok(Roster {
            group,
            names: Arc::new(alloc, set_of(alloc, names)?)?,
        })
    }

    /// The name of the group.
    pub fn group(&self) -> &Key
        ensures { result.now ≡ self.now.group }
    {
        &self.group
    }

    /// How many replicas there are.
    pub fn len(&self) -> u16
        ensures names { result ≡ length self.now.names }
        ensures within { IsTrue (are_names self.now.names) }
    {
        self.names().len() as u16
    }

    /// The names, in the order of their numbers.
    pub fn names(&self) -> &[Name]
        ensures names { result.now ≡ self.now.names }
        ensures within { IsTrue (are_names self.now.names) }
    {
        self.names.as_slice()
    }

    /// The number of the replica with this name.
    pub fn number_of(&self, name: Name) -> Option<u8>
        ensures { result ≡ position (bytes_eq name) self.now.names }
    {
        let place = self.names.get_index_of(&name)?;
        Some(place as u8)
    }

    /// The name of the replica with this number.
    pub fn name_of(&self, number: u8) -> Option<Name>
        ensures { result ≡ slice_get self.now.names number }
    {
        self.names.get_index(usize::from(number)).copied()
    }

    /// Whether the two have the same group and the same names in the same order.
    pub fn same(&self, other: &Roster) -> bool
        ensures { IsTrue result ↔ (self.now ≡ other.now) }
    {
        self.group == other.group && same_names(self.names(), other.names())
    }

    /// Whether the two have the same group, and the names here are the other's first names, in the same order.
    pub fn begins(&self, other: &Roster) -> bool
        ensures { IsTrue result ↔ Begins self.now other.now }
    {
        self.group == other.group && are_first(self.names(), other.names())
    }

    /// Nothing where one of the two begins the other: they are equal, or one has grown since. Else why they can't meet:
    /// they are of two groups (`WrongGroup`), or have grown apart (`WrongRoster`).
    pub fn may_meet(&self, other: &Roster) -> Result<(), Fault>
        ensures { MeetGives self.now other.now result }
    {
        if self.group != other.group {
            return Err(Fault::WrongGroup);
        }
        if !self.meets(other) {
            return Err(Fault::WrongRoster);
        }
        Ok(())
    }

    /// Whether one of the two begins the other.
    pub fn meets(&self, other: &Roster) -> bool
        ensures { IsTrue result ↔ OneBegins self.now other.now }
    {
        self.begins(other) || other.begins(self)
    }

    /// The one with more names, and this one where both have as many.
    pub fn longer(self, other: Roster) -> Roster
        ensures { result ≡ longer self other }
    {
        if other.len() <= self.len() {
            self
        } else {
            other
        }
    }

    /// The roster with these names after its own. No name, more than 256 in all and a name that stands twice are
    /// refused (`BadRoster`).
    pub fn grown(&self, alloc: Global, names: &[Name]) -> Result<Roster, Fault>
        ensures { Gives result (grown_of self.now names.now) }
    {
        let own = self.names();
        if names.is_empty()
            || MOST_NAMES - own.len() < names.len()
            || !all_differ_after(own, names)
        {
            return Err(Fault::BadRoster);
        }
        Ok(Roster {
            group: self.group.copy(alloc)?,
            names: Arc::new(alloc, set_of_both(alloc, own, names)?)?,
        })
    }

    /// An equal roster, which shares the names and the text of the group's.
    pub fn copy(&self, alloc: Global) -> Result<Roster, Fault>
        ensures ok { IfOk result (λ roster. roster ≡ self.now) }
        ensures memory { IfErr result (λ fault. fault ≡ Memory) }
    {
        Ok(Roster {
            group: self.group.copy(alloc)?,
            names: self.names.clone()?,
        })
    }
}

fn same_names(left: &[Name], right: &[Name]) -> bool
    ensures { IsTrue result ↔ (left.now ≡ right.now) }
{
    left == right
}

/// Whether the names are the other's first ones.
fn are_first(names: &[Name], others: &[Name]) -> bool
    ensures { IsTrue result ↔ AreFirst names.now others.now }
{
    match others.get(..names.len()) {
        Some(first) => same_names(names, first),
        None => false,
    }
}

/// Whether its own names and those behind them all differ.
fn all_differ_after(own: &[Name], names: &[Name]) -> bool
    ensures { result ≡ names_differ (own.now ++ names.now) }
{
    let mut rest = own;
    'testing: while let Some((name, others)) = rest.split_first() {
        if others.contains(name) || names.contains(name) {
            return false;
        }
        rest = others;
    }
    all_differ(names)
}

fn all_differ(names: &[Name]) -> bool
    ensures { result ≡ names_differ names.now }
{
    let mut rest = names;
    'testing: while let Some((name, others)) = rest.split_first() {
        if others.contains(name) {
            return false;
        }
        rest = others;
    }
    true
}

fn set_of(alloc: Global, names: &[Name]) -> Result<IndexSet<Name>, Fault>
    requires { names_differ names.now ≡ true }
    ensures ok { IfOk result (λ set. set.keys ≡ names.now) }
    ensures memory { IfErr result (λ fault. fault ≡ Memory) }
{
    let mut set = IndexSet::new(alloc);
    for name in names {
        set.insert(*name)?;
    }
    Ok(set)
}

fn set_of_both(alloc: Global, own: &[Name], names: &[Name]) -> Result<IndexSet<Name>, Fault>
    requires { names_differ (own.now ++ names.now) ≡ true }
    ensures ok { IfOk result (λ set. set.keys ≡ own.now ++ names.now) }
    ensures memory { IfErr result (λ fault. fault ≡ Memory) }
{
    let mut both = Vec::with_capacity(alloc, own.len() + names.len())?;
    both.extend_from_slice(own)?;
    both.extend_from_slice(names)?;
    set_of(alloc, both.as_slice())
}
