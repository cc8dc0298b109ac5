//! Judging a whole message.
ghost use Rattle.std.specs.Prelude.{◌≡◌, ◌↔◌, ◌≤◌, IsTrue, true, length, Ok, IfOk, IfErr};
ghost use Rattle.rds_codec.specs.declared.limits.TheConstants.{LIMIT};
ghost use Rattle.rds_delta.specs.Digested.{digest_of};
ghost use Rattle.rds_names.specs.declared.fault.Fault.TheVariants.{Memory};
ghost use Rattle.rds_session.specs.Contents.{IsRead, IsReadFor, content_judged, content_value, expected_of};
ghost use Rattle.rds_session.specs.Judging.{
  Awaited,
  ForDigest,
  Judges,
  Learns,
  StopsByNoDevice,
  bye_judged,
  delta_judged,
  hash_judged,
  longer_than,
  mark_judged,
  member_judged,
  one_begins,
  replicas_of,
  verdict,
  wait_of,
};
ghost use Rattle.rds_session.specs.Versions.{delta_format};
ghost use Rattle.rds_session.specs.Wants.{heard_behind};
ghost use Rattle.rds_answers.specs.Checked.{passes};
ghost use Rattle.rds_session.specs.Received.{Brings, KnowsPeer, IsLongerIfThere};
ghost use Rattle.rds_delta.specs.Claims.{IsCertificate};
ghost use Rattle.rds_delta.specs.Least.{IsAbove};
ghost use Rattle.rds_delta.specs.Ranks.{ranks};
ghost use Rattle.rds_state.specs.Fits.{ReplicaValue};
ghost use Rattle.rds_state.specs.Value.{coordinates};
ghost use Rattle.rds_session.specs.Messages.{bye_fault};
ghost use Rattle.rds_session.specs.declared.talk.Stop.TheVariants.{Left, Refused};

use crate::content::{Content, Expected};
use crate::hashes::own_hash;
use crate::kinds::ByeCode;
use crate::marks::told_mark;
use crate::message::Message;
use crate::talk::{Act, Peer, Stop, Turn, copy_of};
use crate::version::Version;
use crate::wants::heard_behind;
use rds_codec::{Answer, Hello};
use rds_delta::{Certificate, Digest, check};
use rds_dots::DotSet;
use rds_names::{Fault, Roster};
use rds_state::{Mark, Replica, State};
use std::alloc::Global;

// What a BYE that isn't the last message ends the session with.
fn fault_of(code: ByeCode) -> Fault
    ensures value { result ≡ bye_fault code }
    ensures known { StopsByNoDevice (Left result) }
{
    match code {
        ByeCode::WrongVersion => Fault::WrongVersion,
        ByeCode::WrongGroup => Fault::WrongGroup,
        ByeCode::WrongRoster => Fault::WrongRoster,
        ByeCode::SameReplica => Fault::SameReplica,
        ByeCode::Done | ByeCode::Refused | ByeCode::OwnFault => Fault::PeerEnded,
    }
}

fn judge_code<S: DotSet>(turn: &Turn<S>, code: ByeCode) -> Result<Act<S>, Stop>
    ensures known { IfErr result StopsByNoDevice }
    ensures judges { Judges result (bye_judged code (wait_of turn.now)) }
    ensures brings { (kept : ReplicaValue) → IfOk result (Brings kept (wait_of turn.now)) }
{
    match code {
        ByeCode::Done => match turn {
            Turn::Bye { mark: None } => Ok(Act::Finish),
            _ => Err(Stop::Refused(Fault::OutOfTurn)),
        },
        code => Err(Stop::Left(fault_of(code))),
    }
}

// The mark of what the peer holds, beside that of what is held here.
fn judge_mark<S: DotSet>(turn: &Turn<S>, mark: Mark) -> Result<Act<S>, Stop>
    ensures known { IfErr result StopsByNoDevice }
    ensures judges { Judges result (mark_judged (wait_of turn.now) mark) }
    ensures brings { (kept : ReplicaValue) → IfOk result (Brings kept (wait_of turn.now)) }
{
    match turn {
        Turn::Bye { mark: Some(own) } => {
            if *own == mark {
                Ok(Act::Finish)
            } else {
                Ok(Act::Fork)
            }
        }
        _ => Err(Stop::Refused(Fault::OutOfTurn)),
    }
}

// Whether one of two rosters of one group begins the other, which their names alone say.
fn names_begin(hello: &Roster, kept: &Roster) -> bool
    requires { hello.now.group ≡ kept.now.group }
    ensures { result ≡ one_begins hello.now.names kept.now.names }
{
    hello.meets(kept)
}

// The other roster, where it has more names than the own one.
fn longer_than(own: &Roster, other: Roster) -> Option<Roster>
    ensures { result ≡ longer_than own.now other }
{
    if own.len() < other.len() {
        Some(other)
    } else {
        None
    }
}

// How many replicas the longer roster has.
fn replicas_of<S: DotSet>(kept: &Replica<S>, longer: &Option<Roster>) -> u16
    ensures { result ≡ replicas_of kept.now longer.now }
{
    match longer {
        None => kept.roster().len(),
        Some(roster) => roster.len(),
    }
}

/// The message that is waited for.
pub fn expected_of<S: DotSet>(kept: &Replica<S>, turn: &Turn<S>) -> Expected
    ensures { result ≡ expected_of kept.now (wait_of turn.now) }
{
    match turn {
        Turn::Hello { side } => Expected::Hello { side: *side },
        Turn::Digest { peer } => Expected::Digest {
            version: peer.version,
            replicas: replicas_of(kept, &peer.roster),
            hashed: peer.version.says_hashes(),
        },
        Turn::Whole { peer } => Expected::Digest {
            version: peer.version,
            replicas: replicas_of(kept, &peer.roster),
            hashed: false,
        },
        Turn::Delta { peer, .. } => Expected::Delta {
            format: peer.version.format(),
            replicas: replicas_of(kept, &peer.roster),
        },
        Turn::Bye { mark } => Expected::Bye {
            marked: mark.is_some(),
        },
    }
}

// Who says hello, in a version that is spoken with it.
fn judge_member<S: DotSet>(
    kept: &Replica<S>,
    version: Version,
    hello: Hello,
) -> Result<Act<S>, Stop>
    ensures known { IfErr result StopsByNoDevice }
    ensures judges { Judges result (member_judged kept.now version hello) }
    ensures brings { (turn : Awaited) → IfOk result (Brings kept.now turn) }
{
    if hello.roster.group() != kept.roster().group() {
        return Err(Stop::Refused(Fault::WrongGroup));
    }
    if !names_begin(&hello.roster, kept.roster()) {
        return Err(Stop::Refused(Fault::WrongRoster));
    }
    if hello.own == kept.own() {
        return Err(Stop::Refused(Fault::SameReplica));
    }
    Ok(Act::Greet(Peer {
        number: hello.own,
        roster: longer_than(kept.roster(), hello.roster),
        version,
    }))
}

fn judge_digest<S: DotSet>(alloc: Global, peer: &Peer, digest: Digest<S>) -> Result<Act<S>, Stop>
    ensures known { IfErr result StopsByNoDevice }
    ensures judges { Judges result (Ok (Learns peer.now digest)) }
    ensures brings { (kept : ReplicaValue) (turn : Awaited) → IsLongerIfThere kept.roster peer.now.roster
        → IfOk result (Brings kept turn) }
{
    let peer = peer.copy(alloc)?;
    Ok(Act::Learn(peer, digest))
}

// The same of a peer that has the own digest.
fn judge_whole<S: DotSet>(
    alloc: Global,
    kept: &Replica<S>,
    peer: &Peer,
    said: Digest<S>,
) -> Result<Act<S>, Stop>
    ensures known { IfErr result StopsByNoDevice }
    ensures judges { Judges result (Ok (Learns peer.now (heard_behind peer.now.version (digest_of kept.now.state) said))) }
    ensures brings { (turn : Awaited) → IsLongerIfThere kept.now.roster peer.now.roster
        → IfOk result (Brings kept.now turn) }
{
    let digest = heard_behind(alloc, peer.version, kept.state(), said)?;
    judge_digest(alloc, peer, digest)
}

// Whether a peer has the own digest, by the hash of its own.
fn judge_hash<S: DotSet>(
    alloc: Global,
    kept: &Replica<S>,
    peer: &Peer,
    hash: &[u8; 32],
) -> Result<Act<S>, Stop>
    ensures known { IfErr result StopsByNoDevice }
    ensures judges { Judges result (hash_judged kept.now (ForDigest peer.now) hash.now) }
    ensures brings { (turn : Awaited) → IsLongerIfThere kept.now.roster peer.now.roster
        → IfOk result (Brings kept.now turn) }
{
    let own = own_hash(alloc, kept)?;
    let peer = peer.copy(alloc)?;
    if *hash != own {
        return Ok(Act::Miss(peer));
    }
    let digest = Digest::of(alloc, kept.state())?;
    Ok(Act::Share(peer, digest))
}

// Whether a delta is needed here, component by component, and its certificate says so.
fn passes<S: DotSet>(
    alloc: Global,
    kept: &Replica<S>,
    delta: &State<S>,
    certificate: &Certificate,
) -> Result<bool, Fault>
    ensures ok { IfOk result (λ holds. holds ≡ passes (digest_of kept.now.state) delta.now certificate.now) }
    ensures above { IfOk result
        (λ holds. holds ≡ true → IsAbove (coordinates delta.now) (ranks (coordinates kept.now.state))) }
    ensures certified { IfOk result
        (λ holds. holds ≡ true → IsCertificate (ranks (coordinates kept.now.state)) delta.now certificate.now) }
    ensures err { IfErr result (λ fault. fault ≡ Memory) }
{
    let digest = Digest::of(alloc, kept.state())?;
    Ok(check(&digest, delta, certificate))
}

fn judge_delta<S: DotSet>(
    alloc: Global,
    kept: &Replica<S>,
    peer: &Peer,
    answer: Answer<S>,
) -> Result<Act<S>, Stop>
    ensures known { IfErr result StopsByNoDevice }
    ensures judges { Judges result (delta_judged kept.now peer.now answer) }
    ensures brings { (turn : Awaited) → IsLongerIfThere kept.now.roster peer.now.roster
        → IsRead (delta_format peer.now.version) (replicas_of kept.now peer.now.roster) answer → IfOk result (Brings kept.now turn) }
{
    if answer.asker != kept.own() {
        return Err(Stop::Refused(Fault::WrongAsker));
    }
    if !passes(alloc, kept, &answer.state, &answer.certificate)? {
        return Err(Stop::Refused(Fault::BadCertificate));
    }
    let roster = copy_of(alloc, &peer.roster)?;
    let mark = told_mark(alloc, peer.version, kept.state(), &answer.state)?;
    Ok(Act::Receive(answer.state, roster, mark))
}

// A BYE may come at any time, another message where it is waited for.
fn judge_content<S: DotSet>(
    alloc: Global,
    kept: &Replica<S>,
    turn: &Turn<S>,
    content: Content<S>,
) -> Result<Act<S>, Stop>
    ensures known { IfErr result StopsByNoDevice }
    ensures judges { Judges result (content_judged kept.now (wait_of turn.now) (content_value content)) }
    ensures brings { KnowsPeer kept.now (wait_of turn.now)
        → IsReadFor kept.now (wait_of turn.now) (content_value content)
        → IfOk result (Brings kept.now (wait_of turn.now)) }
{
    match content {
        Content::Bye(code) => judge_code(turn, code),
        Content::Mark(mark) => judge_mark(turn, mark),
        Content::Hello(version, hello) => match turn {
            Turn::Hello { .. } => judge_member(kept, version, hello),
            _ => Err(Stop::Refused(Fault::OutOfTurn)),
        },
        Content::Digest(digest) => match turn {
            Turn::Digest { peer } => judge_digest(alloc, peer, digest),
            Turn::Whole { peer } => judge_whole(alloc, kept, peer, digest),
            _ => Err(Stop::Refused(Fault::OutOfTurn)),
        },
        Content::Hash(hash) => match turn {
            Turn::Digest { peer } => judge_hash(alloc, kept, peer, &hash),
            _ => Err(Stop::Refused(Fault::OutOfTurn)),
        },
        Content::Delta(answer) => match turn {
            Turn::Delta { peer, .. } => judge_delta(alloc, kept, peer, answer),
            _ => Err(Stop::Refused(Fault::OutOfTurn)),
        },
    }
}

/// What a whole message is taken as, or why it ends the session.
pub fn accept<S: DotSet>(
    alloc: Global,
    kept: &Replica<S>,
    turn: &Turn<S>,
    message: Message<S>,
) -> Result<Act<S>, Stop>
    requires within { length message.came ≤ LIMIT }
    requires expected { message.expected ≡ expected_of kept.now (wait_of turn.now) }
    ensures known { IfErr result StopsByNoDevice }
    ensures judges { Judges result (verdict kept.now (wait_of turn.now) message.came) }
    ensures brings { KnowsPeer kept.now (wait_of turn.now) → IfOk result (Brings kept.now (wait_of turn.now)) }
{
    let content = message.end(alloc)?;
    judge_content(alloc, kept, turn, content)
}
