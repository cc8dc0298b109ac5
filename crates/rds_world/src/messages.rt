//! What goes between replicas as bytes.
ghost use Rattle.std.specs.Prelude.{◌≡◌, ◌<◌, ◌≤◌, IfOk, IfErr, OnOk, OnErr, length, max};
ghost use Rattle.rds_state.specs.Ahead.{TakeGives};
ghost use Rattle.rds_state.specs.Coordinates.{join};
ghost use Rattle.rds_state.specs.Fits.{Fits};
ghost use Rattle.rds_names.specs.Roster.{OneBegins, longer};
ghost use Rattle.rds_state.specs.Value.{coordinates};
ghost use Rattle.rds_delta.specs.Digested.{digest_of};
ghost use Rattle.rds_codec.specs.DigestTexts.{digest_text};
ghost use Rattle.rds_codec.specs.Exchanged.{IsCertified, IsLongDigest, IsLost, TakesCertified};
ghost use Rattle.rds_codec.specs.declared.limits.TheConstants.{LIMIT};
ghost use Rattle.rds_world.specs.Replies.{IsReply, HasNoReply, TakesReply, IsNotTaken};
ghost use Rattle.rds_world.specs.Stands.{HoldsAsk};

use crate::texts::{Answering, Asking};
use rds_codec::{Answer, decode_answer, decode_digest};
use rds_delta::{Digest, check};
use rds_dots::DotSet;
use rds_names::{Fault, Roster};
use rds_state::Replica;
use rds_tree::Index;
use std::alloc::Global;

/// What asks for what a replica hasn't kept: the text of the digest of what it has.
pub fn ask<S: DotSet>(alloc: Global, kept: &Replica<S>) -> Result<Asking, Fault>
    ensures ok { IfOk result
        (HoldsAsk (record {
          asker = kept.now.own;
          names = length kept.now.roster.names;
          state = coordinates kept.now.state;
        })) }
    ensures short { OnOk result (length (digest_text (digest_of kept.now.state)) ≤ LIMIT) }
    ensures fault { IfErr result (IsLost (IsLongDigest kept.now.state)) }
{
    let bytes = rds_codec::ask(alloc, kept.state())?;
    Ok(Asking {
        asker: kept.own(),
        names: kept.roster().len(),
        bytes,
    })
}

/// The answer to the ask with this number, and how many components its delta has. The ask is read with the longer of
/// the two rosters.
pub fn answer<S: DotSet>(
    alloc: Global,
    kept: &Replica<S>,
    question: u64,
    ask: &Asking,
) -> Result<(Answering, u128), Fault>
    requires { ask.now.asker < max ask.now.names (length kept.now.roster.names) }
    ensures question { IfOk result (λ p. p.0.question ≡ question) }
    ensures asker { IfOk result (λ p. p.0.asker ≡ ask.now.asker) }
    ensures roster { IfOk result (λ p. p.0.roster ≡ kept.now.roster) }
    ensures ok { IfOk result
        (λ p. IsReply (max ask.now.names
        (length kept.now.roster.names)) ask.now.bytes ask.now.asker kept.now.state p.0.bytes p.1) }
    ensures fault { IfErr result
        (HasNoReply (max ask.now.names (length kept.now.roster.names)) ask.now.bytes ask.now.asker kept.now.state) }
{
    let roster = kept.roster().copy(alloc)?;
    let (bytes, components) = reply(alloc, kept, ask.asker, ask.names, &ask.bytes)?;
    let answer = Answering {
        question,
        asker: ask.asker,
        roster,
        bytes,
    };
    Ok((answer, components))
}

/// The text of the answer to the bytes of an ask, which are read with the longer of the two rosters, and how many
/// components its delta has.
fn reply<S: DotSet>(
    alloc: Global,
    kept: &Replica<S>,
    asker: u8,
    names: u16,
    ask: &[u8],
) -> Result<(Vec<u8>, u128), Fault>
    requires { asker < max names (length kept.now.roster.names) }
    ensures ok { IfOk result
        (λ p. IsReply (max names (length kept.now.roster.names)) ask.now asker kept.now.state p.0.items p.1) }
    ensures fault { IfErr result (HasNoReply (max names (length kept.now.roster.names)) ask.now asker kept.now.state) }
{
    let replicas = greater(names, kept.roster().len());
    let digest = decode_digest(alloc, replicas, ask)?;
    rds_codec::answer(alloc, asker, kept.state(), &digest)
}

/// Joins the delta of an answer into the replica that asked, if its certificate is that of the delta against the ask.
/// The replica's roster becomes the longer of its own and the answer's, and both texts are read with that one.
pub fn take<S: DotSet>(
    alloc: Global,
    asker: &mut Index<S>,
    ask: &Asking,
    answer: &Answering,
) -> Result<(), Fault>
    requires { OneBegins asker.old.roster answer.now.roster }
    ensures ok { OnOk result
        (TakesReply (max (length asker.old.roster.names)
        (length answer.now.roster.names)) ask.now.bytes answer.now.bytes asker.old.state asker.new.state) }
    ensures roster { OnOk result (asker.new.roster ≡ longer asker.old.roster answer.now.roster) }
    ensures own { OnOk result (asker.new.own ≡ asker.old.own) }
    ensures fault { IfErr result
        (IsNotTaken (max (length asker.old.roster.names)
        (length answer.now.roster.names)) ask.now.bytes answer.now.bytes asker.old.own asker.old.state) }
    ensures err { OnErr result (asker.new ≡ asker.old) }
{
    let roster = answer.roster.copy(alloc)?;
    take_bytes(alloc, asker, roster, &ask.bytes, &answer.bytes)
}

/// The same of bytes, with the roster of the replica that answered.
fn take_bytes<S: DotSet>(
    alloc: Global,
    asker: &mut Index<S>,
    roster: Roster,
    ask: &[u8],
    answer: &[u8],
) -> Result<(), Fault>
    requires { OneBegins asker.old.roster roster }
    ensures ok { OnOk result
        (TakesReply (max (length asker.old.roster.names)
        (length roster.names)) ask.now answer.now asker.old.state asker.new.state) }
    ensures roster { OnOk result (asker.new.roster ≡ longer asker.old.roster roster) }
    ensures own { OnOk result (asker.new.own ≡ asker.old.own) }
    ensures fault { IfErr result
        (IsNotTaken (max (length asker.old.roster.names)
        (length roster.names)) ask.now answer.now asker.old.own asker.old.state) }
    ensures err { OnErr result (asker.new ≡ asker.old) }
{
    let replicas = greater(asker.replica().roster().len(), roster.len());
    let digest = decode_digest::<S>(alloc, replicas, ask)?;
    let answer = decode_answer(alloc, replicas, answer)?;
    take_certified(asker, roster, &digest, &answer)
}

/// Joins the delta of an answer into an index, as `rds_codec::take_certified` does into a replica, with the roster of
/// the replica that answered.
fn take_certified<S: DotSet>(
    asker: &mut Index<S>,
    roster: Roster,
    digest: &Digest<S>,
    answer: &Answer<S>,
) -> Result<(), Fault>
    requires fits { Fits (max (length asker.old.roster.names) (length roster.names)) (coordinates answer.now.state) }
    requires meet { OneBegins asker.old.roster roster }
    ensures taken { TakesCertified digest.now answer.now
        (TakeGives asker.old.state asker.old.own answer.now.state) result }
    ensures checked { OnOk result (IsCertified digest.now answer.now) }
    ensures ok { OnOk result (coordinates asker.new.state
        ≡ join (coordinates asker.old.state) (coordinates answer.now.state)) }
    ensures roster { OnOk result (asker.new.roster ≡ longer asker.old.roster roster) }
    ensures own { asker.new.own ≡ asker.old.own }
    ensures err { OnErr result (asker.new ≡ asker.old) }
{
    if !check(digest, &answer.state, &answer.certificate) {
        return Err(Fault::BadCertificate);
    }
    asker.take_with(roster, &answer.state)
}

/// The greater of two numbers of replicas.
fn greater(left: u16, right: u16) -> u16
    ensures { result ≡ max left right }
{
    left.max(right)
}
