//! Sending messages.
ghost use Rattle.std.specs.Prelude.{◌≡◌, false, [], ◌∷◌};
ghost use Rattle.rds_session.specs.Judging.{answers_digest, wait_of, saying_of, replies_of};
ghost use Rattle.rds_session.specs.Messages.{
  behind_message,
  bye_message,
  delta_message,
  digest_message,
  digest_said,
  done_message,
  hash_message,
  hello_message,
};
ghost use Rattle.rds_session.specs.Versions.{delta_format};
ghost use Rattle.rds_session.specs.Sending.{SendsBody, SendsOne, SendsAll};
ghost use Rattle.rds_session.specs.Session.{opening};

use crate::digests::{digest_behind, own_digest};
use crate::hashes::own_hash;
use crate::kinds::{ByeCode, MessageKind};
use crate::talk::{Act, Peer, Side, Turn};
use crate::version::Version;
use crate::writing::put_message;
use rds_codec::{Hello, answer_in, encode_hello};
use rds_delta::Digest;
use rds_dots::DotSet;
use rds_names::Fault;
use rds_state::{Mark, Replica};
use std::alloc::Global;

// Adds a message whose body was encoded, and says whether it is within the limit.
fn send_body(
    send: &mut Vec<u8>,
    kind: MessageKind,
    body: Result<Vec<u8>, Fault>,
) -> Result<bool, Fault>
    ensures { SendsBody send.old.items send.new.items kind body result }
{
    match body {
        Ok(body) => put_message(send, kind, &body),
        Err(Fault::TooLong) => Ok(false),
        Err(fault) => Err(fault),
    }
}

fn send_hello<S: DotSet>(
    alloc: Global,
    send: &mut Vec<u8>,
    kept: &Replica<S>,
    version: Version,
) -> Result<bool, Fault>
    ensures { SendsOne send.old.items send.new.items (hello_message kept.now version) result }
{
    let hello = Hello {
        version: version.byte(),
        roster: kept.roster().copy(alloc)?,
        own: kept.own(),
    };
    send_body(send, MessageKind::Hello, encode_hello(alloc, &hello))
}

fn send_digest<S: DotSet>(
    alloc: Global,
    send: &mut Vec<u8>,
    kept: &Replica<S>,
    version: Version,
) -> Result<bool, Fault>
    ensures { SendsOne send.old.items send.new.items (digest_message version kept.now) result }
{
    send_body(send, MessageKind::Digest, own_digest(alloc, kept, version))
}

// Adds the same to a peer whose digest is known.
fn send_behind<S: DotSet>(
    alloc: Global,
    send: &mut Vec<u8>,
    kept: &Replica<S>,
    version: Version,
    peer: &Digest<S>,
) -> Result<bool, Fault>
    ensures { SendsOne send.old.items send.new.items (behind_message version kept.now peer.now) result }
{
    send_body(
        send,
        MessageKind::Digest,
        digest_behind(alloc, kept, version, peer),
    )
}

fn send_hash<S: DotSet>(alloc: Global, send: &mut Vec<u8>, kept: &Replica<S>) -> Result<bool, Fault>
    ensures { SendsOne send.old.items send.new.items (hash_message kept.now) result }
{
    match own_hash(alloc, kept) {
        Ok(hash) => put_message(send, MessageKind::Hash, &hash),
        Err(Fault::TooLong) => Ok(false),
        Err(fault) => Err(fault),
    }
}

// Adds what is kept here, by a hash or whole.
fn send_own<S: DotSet>(
    alloc: Global,
    send: &mut Vec<u8>,
    kept: &Replica<S>,
    version: Version,
    hashed: bool,
) -> Result<bool, Fault>
    ensures { SendsOne send.old.items send.new.items (digest_said hashed version kept.now) result }
{
    if hashed {
        send_hash(alloc, send, kept)
    } else {
        send_digest(alloc, send, kept, version)
    }
}

fn send_delta<S: DotSet>(
    alloc: Global,
    send: &mut Vec<u8>,
    kept: &Replica<S>,
    peer: &Peer,
    digest: &Digest<S>,
) -> Result<bool, Fault>
    ensures { SendsOne send.old.items send.new.items
        (delta_message kept.now (delta_format peer.now.version) peer.now.number digest.now) result }
{
    let format = peer.version.format();
    let answered = answer_in(alloc, format, peer.number, kept.state(), digest);
    send_body(send, MessageKind::Delta, answered.map(|(body, _)| body))
}

/// Adds a BYE with this code.
pub fn send_bye(send: &mut Vec<u8>, code: ByeCode) -> Result<bool, Fault>
    ensures { SendsOne send.old.items send.new.items (bye_message code) result }
{
    put_message(send, MessageKind::Bye, &[code.byte()])
}

// Adds the BYE of a session that is done, with a mark where one is reported.
fn send_done(alloc: Global, send: &mut Vec<u8>, mark: Option<Mark>) -> Result<bool, Fault>
    ensures { SendsOne send.old.items send.new.items (done_message mark) result }
{
    match mark {
        None => send_bye(send, ByeCode::Done),
        Some(mark) => {
            let mut body = Vec::new(alloc);
            body.push(ByeCode::Done.byte())?;
            body.extend_from_slice(&mark.high.to_be_bytes())?;
            body.extend_from_slice(&mark.low.to_be_bytes())?;
            put_message(send, MessageKind::Bye, &body)
        }
    }
}

/// Adds the messages by which a side makes itself known in this version: who speaks, and what is kept here, by a hash
/// or whole.
pub fn send_opening<S: DotSet>(
    alloc: Global,
    send: &mut Vec<u8>,
    kept: &Replica<S>,
    version: Version,
    hashed: bool,
) -> Result<bool, Fault>
    ensures { SendsAll send.old.items send.new.items
        (hello_message kept.now version ∷ digest_said hashed version kept.now ∷ []) result }
{
    if !send_hello(alloc, send, kept, version)? {
        return Ok(false);
    }
    send_own(alloc, send, kept, version, hashed)
}

fn answer_digest<S: DotSet>(
    alloc: Global,
    send: &mut Vec<u8>,
    kept: &Replica<S>,
    peer: &Peer,
    digest: &Digest<S>,
    hashed: bool,
) -> Result<bool, Fault>
    ensures { SendsAll send.old.items send.new.items (answers_digest hashed kept.now peer.now digest.now) result }
{
    if !send_hello(alloc, send, kept, peer.version)? {
        return Ok(false);
    }
    if !send_own(alloc, send, kept, peer.version, hashed)? {
        return Ok(false);
    }
    send_delta(alloc, send, kept, peer, digest)
}

fn answer_delta<S: DotSet>(
    alloc: Global,
    send: &mut Vec<u8>,
    kept: &Replica<S>,
    peer: &Peer,
    digest: &Digest<S>,
    mark: Option<Mark>,
) -> Result<bool, Fault>
    ensures { SendsAll send.old.items send.new.items
        (delta_message kept.now (delta_format peer.now.version) peer.now.number digest.now ∷ done_message mark ∷ []) result }
{
    if !send_delta(alloc, send, kept, peer, digest)? {
        return Ok(false);
    }
    send_done(alloc, send, mark)
}

/// Adds the messages that answer an accepted one.
#[tactic(auto, using(crate::proofs::Sendings::last_sent, crate::proofs::Sendings::none_sent))]
pub fn send_replies<S: DotSet>(
    alloc: Global,
    send: &mut Vec<u8>,
    side: Side,
    kept: &Replica<S>,
    turn: &Turn<S>,
    act: &Act<S>,
) -> Result<bool, Fault>
    ensures { SendsAll send.old.items send.new.items
        (replies_of side kept.now (wait_of turn.now) (saying_of act.now)) result }
{
    match side {
        Side::Server => match (act, turn) {
            (Act::Learn(peer, digest), Turn::Digest { peer: _ }) => {
                answer_digest(alloc, send, kept, peer, digest, false)
            }
            (Act::Share(peer, digest), Turn::Digest { peer: _ }) => {
                answer_digest(alloc, send, kept, peer, digest, true)
            }
            (Act::Miss(peer), Turn::Digest { peer: _ }) => {
                send_opening(alloc, send, kept, peer.version, false)
            }
            (Act::Learn(peer, digest), Turn::Whole { peer: _ }) => {
                send_delta(alloc, send, kept, peer, digest)
            }
            (Act::Finish | Act::Fork, Turn::Bye { mark }) => send_done(alloc, send, *mark),
            _ => Ok(true),
        },
        Side::Client { version: _ } => match (act, turn) {
            (Act::Learn(peer, digest), Turn::Digest { peer: _ }) if peer.version.says_hashes() => {
                send_behind(alloc, send, kept, peer.version, digest)
            }
            (Act::Miss(peer), Turn::Digest { peer: _ }) => {
                send_digest(alloc, send, kept, peer.version)
            }
            (Act::Receive(_, _, mark), Turn::Delta { peer, digest }) => {
                answer_delta(alloc, send, kept, peer, digest, *mark)
            }
            _ => Ok(true),
        },
    }
}
