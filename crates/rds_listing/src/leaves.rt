//! The values of registers and sets, each where it stands.
ghost use Rattle.std.specs.Prelude.{◌≡◌, ◌++◌, IfErr, IfOk, OnOk, map};
ghost use Rattle.rds_listing.specs.Differences.{
  before,
  behind,
  from,
  begins_with_leaf,
  leaf_at,
  leaf_cmp,
  leaves,
  leaves_standing,
};
ghost use Rattle.rds_names.specs.declared.fault.Fault.TheVariants.{Memory};

use crate::standings::Standing;
use rds_names::{Fault, Key, Kind, Scalar};
use std::alloc::Global;
use std::cmp::Ordering;
use std::marker::Model;

/// A value where it stands.
#[derive(Debug, Drop)]
pub struct Leaf {
    pub path: Vec<Key>,
    pub kind: Kind,
    pub value: Scalar,
}

impl Model for Leaf {
    ghost use Rattle.rds_tree.specs.Document.{Placed};

    ghost Value = { Placed };

    ghost view = { λ l. record { path = l.path.items; kind = l.kind; value = l.value } };
}

/// Each value of registers and sets by itself.
pub fn leaves_of(alloc: Global, all: &[Standing]) -> Result<Vec<Leaf>, Fault>
    ensures ok { IfOk result (λ found. found.items ≡ leaves all.now) }
    ensures memory { IfErr result (λ fault. fault ≡ Memory) }
{
    let mut found = Vec::new(alloc);
    for standing in all {
        add_standing(alloc, &mut found, standing)?;
    }
    Ok(found)
}

fn add_standing(alloc: Global, found: &mut Vec<Leaf>, standing: &Standing) -> Result<(), Fault>
    ensures ok { OnOk result (found.new.items ≡ found.old.items ++ leaves_standing standing.now) }
    ensures memory { IfErr result (λ fault. fault ≡ Memory) }
{
    let (path, values) = (standing.path.as_slice(), standing.values.as_slice());
    add_leaves(alloc, found, path, standing.kind, values)
}

fn add_leaves(
    alloc: Global,
    found: &mut Vec<Leaf>,
    path: &[Key],
    kind: Kind,
    values: &[Scalar],
) -> Result<(), Fault>
    ensures ok { OnOk result (found.new.items ≡ found.old.items ++ map (leaf_at path.now kind) values.now) }
    ensures memory { IfErr result (λ fault. fault ≡ Memory) }
{
    for value in values {
        found.push(leaf_of(alloc, path, kind, value)?)?;
    }
    Ok(())
}

fn leaf_of(alloc: Global, path: &[Key], kind: Kind, value: &Scalar) -> Result<Leaf, Fault>
    ensures ok { IfOk result (λ leaf. leaf ≡ leaf_at path.now kind value.now) }
    ensures memory { IfErr result (λ fault. fault ≡ Memory) }
{
    Ok(Leaf {
        path: keys_copy(alloc, path)?,
        kind,
        value: value.copy(alloc)?,
    })
}

fn keys_copy(alloc: Global, keys: &[Key]) -> Result<Vec<Key>, Fault>
    ensures ok { IfOk result (λ copies. copies.items ≡ keys.now) }
    ensures memory { IfErr result (λ fault. fault ≡ Memory) }
{
    let mut copies = Vec::new(alloc);
    for key in keys {
        copies.push(key.copy(alloc)?)?;
    }
    Ok(copies)
}

/// By path, then by kind, then by value.
pub fn compare(one: &Leaf, other: &Leaf) -> Ordering
    ensures { result ≡ leaf_cmp one.now other.now }
{
    let paths = one.path.as_slice().cmp(other.path.as_slice());
    paths
        .then(one.kind.cmp(&other.kind))
        .then(one.value.cmp(&other.value))
}

/// Those that come before a leaf, up to the first that doesn't, and those from that one on.
pub fn split_before<'a>(rest: &'a [Leaf], leaf: &Leaf) -> (&'a [Leaf], &'a [Leaf])
    ensures before { result.0.now ≡ before leaf.now rest.now }
    ensures from { result.1.now ≡ from leaf.now rest.now }
{
    for (i, each) in rest.iter().enumerate() {
        if !compare(each, leaf).is_lt() {
            return (&rest[..i], &rest[i..]);
        }
    }
    (rest, &[])
}

/// Whether they begin with the leaf.
pub fn is_met(leaf: &Leaf, rest: &[Leaf]) -> bool
    ensures { result ≡ begins_with_leaf leaf.now rest.now }
{
    match rest.split_first() {
        Some((first, _)) => compare(first, leaf).is_eq(),
        None => false,
    }
}

/// Those behind the leaf, where they begin with it.
pub fn behind<'a>(leaf: &Leaf, rest: &'a [Leaf]) -> &'a [Leaf]
    ensures { result.now ≡ behind leaf.now rest.now }
{
    if is_met(leaf, rest) { &rest[1..] } else { rest }
}
