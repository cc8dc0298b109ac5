//! An exchange over bytes: what a replica asks, what another answers, and what the first one takes.
ghost use Rattle.std.specs.Prelude.{◌≡◌, ◌<◌, ◌≤◌, ◌⊎◌, ℕ, length, max, IfOk, IfErr, OnOk, OnErr};
ghost use Rattle.rds_state.specs.Coordinates.{join};
ghost use Rattle.rds_state.specs.Fits.{Fits};
ghost use Rattle.rds_state.specs.Grown.{TakeWithGives};
ghost use Rattle.rds_names.specs.Roster.{longer};
ghost use Rattle.rds_state.specs.Value.{coordinates};
ghost use Rattle.rds_life.specs.Life.{seen_of};
ghost use Rattle.rds_delta.specs.Digested.{digest_of};
ghost use Rattle.rds_codec.specs.AnswerTexts.{answer_text};
ghost use Rattle.rds_codec.specs.Decoding.{IsTextOf};
ghost use Rattle.rds_codec.specs.DigestTexts.{digest_text, digest_kind};
ghost use Rattle.rds_codec.specs.Exchanged.{
  CanExchange,
  CanRead,
  IsAnswerTo,
  IsAskOf,
  IsCertified,
  IsLongAnswer,
  IsLongAnswerIn,
  IsLongDigest,
  IsLost,
  IsPulled,
  IsRefusal,
  IsReplyIn,
  IsReplyTo,
  TakesCertified,
};
ghost use Rattle.rds_codec.specs.declared.limits.TheConstants.{LIMIT};

use crate::answers::{Answer, decode_answer, encode_answer_in};
use crate::digests::{decode_digest, text_of_digest};
use crate::formats::Format;
use rds_delta::{Digest, certificate, check, delta};
use rds_dots::DotSet;
use rds_names::{Fault, Roster};
use rds_state::{Replica, State};
use std::alloc::Global;

/// The text of a state's digest, with which its replica asks another for what it lacks. Refused is a text above the
/// limit (`TooLong`); else memory may run out (`Memory`).
pub fn ask<S: DotSet>(alloc: Global, asked: &State<S>) -> Result<Vec<u8>, Fault>
    ensures ok { IfOk result (λ bytes. IsAskOf asked.now bytes.items) }
    ensures fault { IfErr result (IsLost (IsLongDigest asked.now)) }
{
    let digest = Digest::of(alloc, asked)?;
    text_of_digest(alloc, &digest)
}

/// The text, in a format, of the answer to a digest: the least delta of a state, and its certificate. Also how many
/// components the delta has. Refused is a text above the limit (`TooLong`); else memory may run out (`Memory`).
pub fn answer_in<S: DotSet>(
    alloc: Global,
    format: Format,
    asker: u8,
    held: &State<S>,
    digest: &Digest<S>,
) -> Result<(Vec<u8>, u128), Fault>
    ensures ok { IfOk result (λ p. IsReplyIn format digest.now asker held.now p.0.items p.1) }
    ensures fault { IfErr result (IsLost (IsLongAnswerIn format digest.now asker held.now)) }
{
    let delta = delta(alloc, held, digest)?;
    let certificate = certificate(alloc, digest, &delta)?;
    let bytes = encode_answer_in(alloc, format, asker, &delta, &certificate)?;
    Ok((bytes, delta.components()))
}

/// The same in format 2.
pub fn answer<S: DotSet>(
    alloc: Global,
    asker: u8,
    held: &State<S>,
    digest: &Digest<S>,
) -> Result<(Vec<u8>, u128), Fault>
    ensures ok { IfOk result (λ p. IsReplyTo digest.now asker held.now p.0.items p.1) }
    ensures fault { IfErr result (IsLost (IsLongAnswer digest.now asker held.now)) }
{
    answer_in(alloc, Format::Two, asker, held, digest)
}

/// Joins the delta of an answer into a replica, with the roster of the one that answered. Refused as `BadCertificate`
/// is exactly an answer that the check says no to: one whose delta isn't above the digest, or whose certificate isn't
/// that of its delta against it. Any other is taken or refused as [`Replica::take_with`] does its delta (`WrongGroup`,
/// `WrongRoster`, `OwnAhead`, `Conflict`, `Memory`).
pub fn take_certified<S: DotSet>(
    replica: &mut Replica<S>,
    roster: Roster,
    digest: &Digest<S>,
    answer: &Answer<S>,
) -> Result<(), Fault>
    requires { Fits (max (length replica.old.roster.names) (length roster.names)) (coordinates answer.now.state) }
    ensures taken { TakesCertified digest.now answer.now
        (TakeWithGives replica.old.roster roster replica.old.state replica.old.own answer.now.state) result }
    ensures checked { OnOk result (IsCertified digest.now answer.now) }
    ensures ok { OnOk result (coordinates replica.new.state
        ≡ join (coordinates replica.old.state) (coordinates answer.now.state)) }
    ensures roster { OnOk result (replica.new.roster ≡ longer replica.old.roster roster) }
    ensures own { replica.new.own ≡ replica.old.own }
    ensures err { OnErr result (replica.new ≡ replica.old) }
{
    if !check(digest, &answer.state, &answer.certificate) {
        return Err(Fault::BadCertificate);
    }
    replica.take_with(roster, &answer.state)
}

/// The digest of a state, as its text brings it.
fn send_digest<S: DotSet>(
    alloc: Global,
    replicas: u16,
    asked: &State<S>,
) -> Result<Digest<S>, Fault>
    ensures brought { IfOk result (IsTextOf (digest_kind replicas) (digest_text (digest_of asked.now))) }
    ensures within { IfOk result (λ _. length (digest_text (digest_of asked.now)) ≤ LIMIT) }
    ensures ok { Fits replicas (coordinates asked.now) → IfOk result (λ digest. digest ≡ digest_of asked.now) }
    ensures fault { Fits replicas (coordinates asked.now) → IfErr result (IsLost (IsLongDigest asked.now)) }
{
    let bytes = ask(alloc, asked)?;
    decode_digest(alloc, replicas, &bytes)
}

/// The answer to a digest, as its text brings it.
fn send_answer<S: DotSet>(
    alloc: Global,
    replicas: u16,
    asker: u8,
    held: &State<S>,
    digest: &Digest<S>,
) -> Result<Answer<S>, Fault>
    ensures fits { IfOk result (λ answer. Fits replicas (coordinates answer.state)) }
    ensures within { IfOk result (λ answer. length (answer_text answer) ≤ LIMIT) }
    ensures ok { asker < replicas → Fits replicas (coordinates held.now)
        → IfOk result (IsAnswerTo digest.now asker held.now) }
    ensures fault { asker < replicas → Fits replicas (coordinates held.now)
        → IfErr result (IsLost (IsLongAnswer digest.now asker held.now)) }
{
    let (bytes, _) = answer(alloc, asker, held, digest)?;
    decode_answer(alloc, replicas, &bytes)
}

/// Joins the delta of an answer into the replica that asked with this digest. Refused is an answer for another one
/// (`WrongAsker`), and then what [`take_certified`] refuses.
fn take_answer<S: DotSet>(
    replica: &mut Replica<S>,
    roster: Roster,
    digest: &Digest<S>,
    answer: &Answer<S>,
) -> Result<(), Fault>
    requires { Fits (max (length replica.old.roster.names) (length roster.names)) (coordinates answer.now.state) }
    ensures taken { answer.now.asker ≡ replica.old.own → IsCertified digest.now answer.now
        → TakeWithGives replica.old.roster roster replica.old.state replica.old.own answer.now.state result }
    ensures asked { OnOk result (answer.now.asker ≡ replica.old.own) }
    ensures checked { OnOk result (IsCertified digest.now answer.now) }
    ensures ok { OnOk result (coordinates replica.new.state
        ≡ join (coordinates replica.old.state) (coordinates answer.now.state)) }
    ensures roster { OnOk result (replica.new.roster ≡ longer replica.old.roster roster) }
    ensures own { replica.new.own ≡ replica.old.own }
    ensures err { OnErr result (replica.new ≡ replica.old) }
{
    if answer.asker != replica.own() {
        return Err(Fault::WrongAsker);
    }
    take_certified(replica, roster, digest, answer)
}

/// How many replicas the longer of two rosters has.
fn replicas_of(left: &Roster, right: &Roster) -> u16
    ensures { result ≡ max (length left.now.names) (length right.now.names) }
{
    left.len().max(right.len())
}

/// One replica asks another for what it lacks, and takes what it is answered. The digest of what it was when it asked
/// goes to the other as bytes. The other sends back, as bytes, the least delta against that digest and its certificate.
/// The one that asked checks the two, takes the longer of the two rosters, and joins the delta into its state. Both
/// texts are read with that roster. The answer that it took is handed back.
///
/// Where what was asked fits the longer roster, no text is refused by the one that reads it, and no check says no. Only
/// `Memory`, too long a text or what [`Replica::take_with`] refuses of the answer's delta (`WrongGroup`,
/// `WrongRoster`, `OwnAhead`, `Conflict`) is a hindrance. Where the two are friends besides, and one of their rosters
/// begins the other, no take finds a conflict or a loss either, and the one that asked ends with all that both knew,
/// whatever it has become since. Elsewhere any of these may refuse it. What is refused has changed nothing.
pub fn pull<S: DotSet>(
    alloc: Global,
    answerer: &Replica<S>,
    asked: &Replica<S>,
    asker: &mut Replica<S>,
) -> Result<Answer<S>, Fault>
    ensures taken { IfOk result (λ answer. coordinates asker.new.state
        ≡ join (coordinates asker.old.state) (coordinates answer.state)) }
    ensures pulled { IfOk result (IsPulled answerer.now asked.now asker.old) }
    ensures takes { IfOk result (λ answer.
        TakeWithGives asker.old.roster answerer.now.roster asker.old.state asker.old.own answer.state result) }
    ensures answer { CanRead answerer.now asked.now asker.old
        → IfOk result (IsAnswerTo (digest_of asked.now.state) asker.old.own answerer.now.state) }
    ensures refusal { CanRead answerer.now asked.now asker.old
        → IfErr result (IsRefusal answerer.now asked.now asker.old) }
    ensures joined { CanExchange answerer.now asked.now asker.old → OnOk result (coordinates asker.new.state
        ≡ join (coordinates asker.old.state) (coordinates answerer.now.state)) }
    ensures fault { CanExchange answerer.now asked.now asker.old → IfErr result (IsLost (IsLongDigest asked.now.state
        ⊎ IsLongAnswer (digest_of asked.now.state) asker.old.own answerer.now.state)) }
    ensures roster { OnOk result (asker.new.roster ≡ longer asker.old.roster answerer.now.roster) }
    ensures own { asker.new.own ≡ asker.old.own }
    ensures err { OnErr result (asker.new ≡ asker.old) }
{
    let replicas = replicas_of(asker.roster(), answerer.roster());
    let digest = send_digest(alloc, replicas, asked.state())?;
    let answer = send_answer(alloc, replicas, asker.own(), answerer.state(), &digest)?;
    let roster = answerer.roster().copy(alloc)?;
    take_answer(asker, roster, &digest, &answer)?;
    Ok(answer)
}
