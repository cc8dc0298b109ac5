//! Replicas that begin, that are kept, and that are put into memory.
ghost use Rattle.std.specs.Prelude.{◌≡◌, ◌≤◌, ◌<◌, ◌⊎◌, ◌++◌, ◌∷◌, [], IfOk, IfErr, OnOk, OnErr, length};
ghost use Rattle.std.specs.FinMap as map;
ghost use Rattle.rds_codec.specs.StateTexts.{snapshot_text};
ghost use Rattle.rds_codec.specs.declared.limits.TheConstants.{LIMIT};
ghost use Rattle.rds_names.specs.declared.fault.Fault.TheVariants.{Memory, TooLong};
ghost use Rattle.rds_world.specs.Stands.{IsNew, AreNew};

use rds_dots::DotSet;
use rds_keep::{Kept, Writing, write_snapshot};
use rds_names::{Fault, Roster};
use rds_state::Replica;
use rds_tree::Index;
use std::alloc::Global;

/// A replica without any component for each number of the roster, and the same as kept.
pub fn empty_replicas<S: DotSet>(
    alloc: Global,
    roster: &Roster,
) -> Result<(Vec<Index<S>>, Vec<Kept<S>>), Fault>
    ensures memory { IfOk result (λ p. AreNew roster.now p.0.items (length roster.now.names)) }
    ensures kept { IfOk result (λ p. AreNew roster.now p.1.items (length roster.now.names)) }
    ensures few { length roster.now.names ≤ 256 }
    ensures fault { IfErr result (λ fault. fault ≡ Memory) }
{
    let replicas = replicas_of(roster);
    let mut memory = Vec::new(alloc);
    let mut kept = Vec::new(alloc);
    'making: for number in 0..replicas {
        let (index, empty) = newcomer(alloc, roster, number as u8)?;
        kept.push(empty)?;
        memory.push(index)?;
    }
    Ok((memory, kept))
}

/// The replica with this number, without any component, in memory and as kept.
pub fn newcomer<S: DotSet>(
    alloc: Global,
    roster: &Roster,
    number: u8,
) -> Result<(Index<S>, Kept<S>), Fault>
    requires { number < length roster.now.names }
    ensures memory { IfOk result (λ p. IsNew roster.now number p.0) }
    ensures kept { IfOk result (λ p. IsNew roster.now number p.1) }
    ensures fault { IfErr result (λ fault. fault ≡ Memory) }
{
    let replica = empty_replica(alloc, roster, number)?;
    let kept = keep_empty(alloc, &replica)?;
    let index = Index::of(alloc, replica)?;
    Ok((index, kept))
}

/// How many replicas the roster names.
fn replicas_of(roster: &Roster) -> u16
    ensures count { result ≡ length roster.now.names }
    ensures few { result ≤ 256 }
{
    roster.len()
}

/// The replica with this number, without any component.
fn empty_replica<S: DotSet>(alloc: Global, roster: &Roster, number: u8) -> Result<Replica<S>, Fault>
    requires { number < length roster.now.names }
    ensures ok { IfOk result (IsNew roster.now number) }
    ensures fault { IfErr result (λ fault. fault ≡ Memory) }
{
    let copy = roster.copy(alloc)?;
    Replica::new(alloc, copy, number)
}

/// Keeps a replica without components, whose snapshot is never too long.
fn keep_empty<S: DotSet>(alloc: Global, replica: &Replica<S>) -> Result<Kept<S>, Fault>
    requires lives { replica.now.state.lives ≡ map.empty }
    requires counts { replica.now.state.counts ≡ map.empty }
    ensures ok { IfOk result (λ kept. kept ≡ replica.now) }
    ensures fault { IfErr result (λ fault. fault ≡ Memory) }
{
    keep(alloc, replica)
}

/// Writes the replica's snapshot into memory: it is kept. To find its length takes memory too, so `Memory` may come
/// where it is too long.
pub fn keep<S: DotSet>(alloc: Global, replica: &Replica<S>) -> Result<Kept<S>, Fault>
    ensures ok { IfOk result (λ kept. kept ≡ replica.now) }
    ensures short { OnOk result (length (snapshot_text replica.now) ≤ LIMIT) }
    ensures small { replica.now.state.lives ≡ map.empty → replica.now.state.counts ≡ map.empty
        → IfErr result (λ fault. fault ≡ Memory) }
    ensures fault { IfErr result
        (λ fault. (fault ≡ Memory) ⊎ ((fault ≡ TooLong) × (LIMIT < length (snapshot_text replica.now)))) }
{
    let mut file = Writing::new(Vec::<u8>::new(alloc));
    match write_snapshot(alloc, replica.copy(alloc)?, &mut file) {
        Ok(kept) => Ok(kept),
        Err(Fault::Device) => Err(Fault::Memory),
        Err(fault) => Err(fault),
    }
}

/// An index that holds a copy of a replica.
pub fn indexed<S: DotSet>(alloc: Global, replica: &Replica<S>) -> Result<Index<S>, Fault>
    ensures ok { IfOk result (λ index. index ≡ replica.now) }
    ensures memory { IfErr result (λ fault. fault ≡ Memory) }
{
    let copy = replica.copy(alloc)?;
    let index = Index::of(alloc, copy)?;
    Ok(index)
}

/// Puts one more into each of two vectors, or into neither.
pub fn push_both<A: Drop, B: Drop>(
    first: &mut Vec<A>,
    a: A,
    second: &mut Vec<B>,
    b: B,
) -> Result<(), Fault>
    ensures first { OnOk result (first.new.items ≡ first.old.items ++ a ∷ []) }
    ensures second { OnOk result (second.new.items ≡ second.old.items ++ b ∷ []) }
    ensures unchanged { OnErr result ((first.new.items ≡ first.old.items) × (second.new.items ≡ second.old.items)) }
    ensures memory { IfErr result (λ fault. fault ≡ Memory) }
{
    second.reserve(1)?;
    first.push(a)?;
    second.push(b)?;
    Ok(())
}
