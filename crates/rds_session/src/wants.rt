//! What a replica wants of another one whose digest it has, said as a digest.
ghost use Rattle.std.specs.Prelude.{◌≡◌, IfOk, IfErr};
ghost use Rattle.std.specs.FinSet as set;
ghost use Rattle.rds_delta.specs.Digested.{digest_of};
ghost use Rattle.rds_names.specs.declared.fault.Fault.TheVariants.{Memory};
ghost use Rattle.rds_session.specs.Wants.{dead_there, heard_behind, said_behind, wanted_by, wants_of};

use crate::version::Version;
use rds_delta::Digest;
use rds_dots::DotSet;
use rds_names::Fault;
use rds_state::State;
use std::alloc::Global;

/// How the digest of what is kept is said to one whose own is known.
pub fn said_behind<S: DotSet>(
    alloc: Global,
    version: Version,
    kept: &State<S>,
    peer: &Digest<S>,
) -> Result<Digest<S>, Fault>
    ensures ok { IfOk result (λ said. said ≡ said_behind version (digest_of kept.now) peer.now) }
    ensures memory { IfErr result (λ fault. fault ≡ Memory) }
{
    let own = Digest::of(alloc, kept)?;
    if version.says_briefs() {
        wants_of(alloc, &own, peer)
    } else {
        Ok(own)
    }
}

/// What one that has said its own digest takes that for.
pub fn heard_behind<S: DotSet>(
    alloc: Global,
    version: Version,
    kept: &State<S>,
    said: Digest<S>,
) -> Result<Digest<S>, Fault>
    ensures ok { IfOk result (λ heard. heard ≡ heard_behind version (digest_of kept.now) said) }
    ensures memory { IfErr result (λ fault. fault ≡ Memory) }
{
    if version.says_briefs() {
        let own = Digest::of(alloc, kept)?;
        wanted_by(alloc, &own, &said)
    } else {
        Ok(said)
    }
}

/// The dots that are further on in the peer: those that are lacking here, and as live ones those that live here and are
/// dead there. And all counters that are here.
fn wants_of<S: DotSet>(alloc: Global, own: &Digest<S>, peer: &Digest<S>) -> Result<Digest<S>, Fault>
    ensures ok { IfOk result (λ wants. wants ≡ wants_of own.now peer.now) }
    ensures memory { IfErr result (λ fault. fault ≡ Memory) }
{
    let dead = dead_there(alloc, own, peer)?;
    let lacking = peer.seen().minus(alloc, own.seen())?;
    let seen = lacking.union(alloc, &dead)?;
    let counts = own.counts().copy(alloc)?;
    Ok(Digest::with_parts(seen, dead, counts))
}

/// The live dots that are dead in the peer.
fn dead_there<S: DotSet>(alloc: Global, own: &Digest<S>, peer: &Digest<S>) -> Result<S, Fault>
    ensures ok { IfOk result (λ dead. S.contents dead ≡ dead_there own.now peer.now) }
    ensures memory { IfErr result (λ fault. fault ≡ Memory) }
{
    let gone = own.live().minus(alloc, peer.live())?;
    let unseen = gone.minus(alloc, peer.seen())?;
    gone.minus(alloc, &unseen)
}

/// What has been seen of the wanted dots and counters by one that wants so, and of all others what has been seen here.
fn wanted_by<S: DotSet>(
    alloc: Global,
    own: &Digest<S>,
    wants: &Digest<S>,
) -> Result<Digest<S>, Fault>
    ensures ok { IfOk result (λ digest. digest ≡ wanted_by own.now wants.now) }
    ensures memory { IfErr result (λ fault. fault ≡ Memory) }
{
    let lacked = wants.seen().minus(alloc, wants.live())?;
    let seen = replaced(alloc, own.seen(), &lacked, wants.live())?;
    let live = replaced(alloc, own.live(), &lacked, wants.live())?;
    let counts = wants.counts().copy(alloc)?;
    Ok(Digest::with_parts(seen, live, counts))
}

/// A set without these dots, and with those.
fn replaced<S: DotSet>(alloc: Global, dots: &S, without: &S, with: &S) -> Result<S, Fault>
    ensures ok { IfOk result (λ new. S.contents new
        ≡ set.union (set.difference (S.contents dots.now) (S.contents without.now)) (S.contents with.now)) }
    ensures memory { IfErr result (λ fault. fault ≡ Memory) }
{
    let left = dots.minus(alloc, without)?;
    left.union(alloc, with)
}
