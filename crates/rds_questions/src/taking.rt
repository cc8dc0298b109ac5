//! What becomes of a response in the replica that asked.
ghost use Rattle.std.specs.Prelude.{◌≡◌, ◌↔◌, IsTrue, OnOk, OnErr, length};
ghost use Rattle.rds_counts.specs.Counted.{number};
ghost use Rattle.rds_state.specs.Ahead.{NumberAhead};
ghost use Rattle.rds_state.specs.Coordinates.{join};
ghost use Rattle.rds_state.specs.Fits.{Fits, ReplicaValue};
ghost use Rattle.rds_names.specs.Roster.{longer};
ghost use Rattle.rds_state.specs.RowsAhead.{rows_ahead};
ghost use Rattle.rds_state.specs.Value.{coordinates};
ghost use Rattle.rds_questions.specs.Questions.{question_of};
ghost use Rattle.rds_questions.specs.Taking.{HasAllOf, HeldGives, IsGrownFrom, IsAsker, OwnLacking, TakesReceived};

use crate::questions::Question;
use crate::reaching::has_all_of;
use crate::receiving::Received;
use rds_counts::{CountRow, Counts};
use rds_delta::Digest;
use rds_dots::{DotSet, first_lacking};
use rds_names::{Fault, Own};
use rds_state::{Replica, State};
use std::alloc::Global;

/// The first of the rows' own numbers that is above the one here.
fn first_above(counts: &Counts, own: u8, rows: &[CountRow]) -> Option<Own>
    ensures { result ≡ rows_ahead (number counts.now) own rows.now }
{
    let mut rest = rows;
    'looking: loop {
        let (row, later) = rest.split_first()?;
        if row.replica == own {
            let (p, n) = counts.pair(&row.key, row.replica);
            if p < row.p {
                return Some(Own::Plus(row.p));
            }
            if n < row.n {
                return Some(Own::Minus(row.n));
            }
        }
        rest = later;
    }
}

fn number_lacking(counts: &Counts, own: u8, told: &Counts) -> Option<Own>
    ensures { NumberAhead (number counts.now) own (number told.now) result }
{
    first_above(counts, own, told.rows())
}

/// The least own dot, else the first own number, that the digest has and the state lacks.
fn own_lacking<S: DotSet>(state: &State<S>, own: u8, digest: &Digest<S>) -> Option<Own>
    ensures { OwnLacking state.now own digest.now result }
{
    match first_lacking(state.lives().seen(), digest.seen(), own) {
        Some(seq) => Some(Own::Seq(seq)),
        None => number_lacking(state.counts(), own, digest.counts()),
    }
}

/// Whether the replica is the one that asked.
fn is_replica_of<S: DotSet>(question: &Question<S>, held: &Replica<S>) -> bool
    ensures { IsTrue result ↔ IsAsker question.now held.now }
{
    held.own() == question.hello.own && question.hello.roster.meets(held.roster())
}

/// Whether the replica is the one that asked, and has all that it had then. Refuses as [`take_response`] does before it
/// takes anything (`WrongAsker`, `OwnAhead`), or where memory runs out.
pub fn judge_held<S: DotSet>(
    alloc: Global,
    question: &Question<S>,
    held: &Replica<S>,
) -> Result<(), Fault>
    ensures { HeldGives question.now held.now result }
{
    if !is_replica_of(question, held) {
        return Err(Fault::WrongAsker);
    }
    if let Some(own) = own_lacking(held.state(), held.own(), &question.digest) {
        return Err(Fault::OwnAhead(own));
    }
    if !has_all_of(alloc, held.state(), &question.digest)? {
        return Err(Fault::WrongAsker);
    }
    Ok(())
}

/// Takes what a response brought into the replica that asked, or what that has become since.
///
/// Refused is another replica than the one that asked (`WrongAsker`). Then one that lacks something of its own that it
/// had when it asked, as where an old copy of its file was put back (`OwnAhead`), or something else that it had then
/// (`WrongAsker`). Else the delta and its roster are taken or refused as [`Replica::take_with`] does (`WrongRoster`,
/// `OwnAhead`, `Conflict`, `Memory`).
pub fn take_response<S: DotSet>(
    alloc: Global,
    held: &mut Replica<S>,
    question: &Question<S>,
    received: &Received<S>,
) -> Result<(), Fault>
    requires fits { Fits (length received.now.roster.names) (coordinates received.now.delta) }
    ensures takes { TakesReceived question.now held.old received.now result }
    ensures same { OnOk result (IsAsker question.now held.old) }
    ensures known { OnOk result (HasAllOf question.now.digest held.old.state) }
    ensures asked { OnOk result ((asked : ReplicaValue) → question.now ≡ question_of asked
        → IsGrownFrom asked held.old) }
    ensures ok { OnOk result (coordinates held.new.state
        ≡ join (coordinates held.old.state) (coordinates received.now.delta)) }
    ensures roster { OnOk result (held.new.roster ≡ longer held.old.roster received.now.roster) }
    ensures own { held.new.own ≡ held.old.own }
    ensures err { OnErr result (held.new ≡ held.old) }
{
    judge_held(alloc, question, held)?;
    let roster = received.roster.copy(alloc)?;
    held.take_with(roster, &received.delta)
}
