//! What changes a kept replica, and its text.
ghost use Rattle.std.specs.Prelude.{◌≡◌, ◌≤◌, ◌⊎◌, ◌∷◌, length, option_map, IfOk, IfErr};
ghost use Rattle.rds_names.specs.declared.fault.Fault.TheVariants.{Memory};
ghost use Rattle.rds_bytes.specs.Values.{IsMember};
ghost use Rattle.rds_bytes.specs.Writing.{Adds};
ghost use Rattle.rds_codec.specs.Decoding.{IsTextOf};
ghost use Rattle.rds_journal.specs.Records.{IsPayload};
ghost use Rattle.rds_codec.specs.declared.limits.TheConstants.{LIMIT};
ghost use Rattle.rds_keep.specs.Changes.{change_kind, change_text, front_text};
ghost use Rattle.rds_keep.specs.ReadChanges.{HasNoText, IsNoText, RefusesChange};

use rds_bytes::{put_byte, put_member, read_byte, read_member};
use rds_codec::{decode_state, encode_state};
use rds_dots::DotSet;
use rds_journal::MOST;
use rds_names::{Fault, Roster};
use rds_state::State;
use std::alloc::{AllocError, Global};
use std::marker::Model;

/// What changes a kept replica: a delta that its state is joined with, and a roster that its own begins, where that
/// grows.
#[derive(Drop)]
pub struct Change<'a, S: DotSet> {
    /// The roster from then on, where it grows.
    pub roster: Option<&'a Roster>,
    /// The delta.
    pub delta: &'a State<S>,
}

impl<'a, S: DotSet> Model for Change<'a, S> {
    ghost use Rattle.std.specs.Prelude.{option_map};
    ghost use Rattle.rds_keep.specs.Changes.{ChangeValue, coded_change};

    ghost Value = { ChangeValue };

    ghost coded = { coded_change };

    ghost view = { λ c. record { roster = option_map (λ r. r.now) c.roster; delta = c.delta.now } };
}

/// A change that was read.
#[derive(Drop)]
pub struct ReadChange<S: DotSet> {
    pub roster: Option<Roster>,
    pub delta: State<S>,
}

impl<S: DotSet> Model for ReadChange<S> {
    ghost use Rattle.rds_keep.specs.Changes.{ChangeValue, coded_change};

    ghost Value = { ChangeValue };

    ghost coded = { coded_change };

    ghost view = { λ c. record { roster = c.roster; delta = c.delta } };
}

// What stands before the delta: a byte that says whether a roster comes too, and that roster with the own number.
fn put_front(out: &mut Vec<u8>, own: u8, roster: Option<&Roster>) -> Result<(), AllocError>
    ensures { Adds out.old.items out.new.items (front_text own (option_map (λ r. r.now) roster.entry)) result }
{
    match roster {
        None => put_byte(out, 1),
        Some(roster) => {
            put_byte(out, 2)?;
            put_member(out, roster, own)
        }
    }
}

/// The text of a change of a replica of this number. Refuses `TooLong` where it is longer than the payload of a record.
pub fn encode_change<S: DotSet>(
    alloc: Global,
    own: u8,
    change: &Change<'_, S>,
) -> Result<Vec<u8>, Fault>
    ensures text { IfOk result (λ bytes. bytes.items ≡ change_text own change.now) }
    ensures payload { IfOk result (λ bytes. IsPayload bytes.items) }
    ensures fault { IfErr result (RefusesChange (change_text own change.now)) }
{
    let mut text = Vec::new(alloc);
    put_front(&mut text, own, change.roster)?;
    let delta = encode_state(alloc, change.delta)?;
    if MOST < text.len() + delta.len() {
        return Err(Fault::TooLong);
    }
    text.extend_from_slice(&delta)?;
    Ok(text)
}

/// The change whose text a payload is, of a replica of this number with this roster. Whatever else it is refused for
/// than `Memory`, it is `Bad`.
pub fn decode_change<S: DotSet>(
    alloc: Global,
    roster: &Roster,
    own: u8,
    payload: &[u8],
) -> Result<ReadChange<S>, Fault>
    requires member { IsMember roster.now own }
    requires payload { IsPayload payload.now }
    ensures text { IfOk result (IsTextOf (change_kind roster.now own) payload.now) }
    ensures fault { IfErr result (HasNoText (change_kind roster.now own) payload.now) }
{
    match read_change(alloc, roster, own, payload) {
        Ok(change) => Ok(change),
        Err(Fault::Memory) => Err(Fault::Memory),
        Err(_) => Err(Fault::Bad),
    }
}

// The same, refused as its parts are.
fn read_change<S: DotSet>(
    alloc: Global,
    roster: &Roster,
    own: u8,
    payload: &[u8],
) -> Result<ReadChange<S>, Fault>
    requires member { IsMember roster.now own }
    requires payload { IsPayload payload.now }
    ensures text { IfOk result (IsTextOf (change_kind roster.now own) payload.now) }
    ensures none { IfErr result (λ e. (e ≡ Memory) ⊎ IsNoText (change_kind roster.now own) payload.now) }
{
    let (kind, rest) = read_byte(payload)?;
    match kind {
        1 => {
            let delta = decode_state(alloc, roster.len(), rest)?;
            Ok(ReadChange {
                roster: None,
                delta,
            })
        }
        2 => read_grown(alloc, roster, own, rest),
        _ => Err(Fault::Bad),
    }
}

// What stands behind the byte of a change with a roster.
fn read_grown<S: DotSet>(
    alloc: Global,
    old: &Roster,
    own: u8,
    bytes: &[u8],
) -> Result<ReadChange<S>, Fault>
    requires within { length bytes.now ≤ LIMIT }
    ensures text { IfOk result (λ c. IsTextOf (change_kind old.now own) (2 ∷ bytes.now) c) }
    ensures none { IfErr result (λ e. (e ≡ Memory) ⊎ IsNoText (change_kind old.now own) (2 ∷ bytes.now)) }
{
    let ((roster, number), rest) = read_member(alloc, bytes)?;
    if number != own || !old.begins(&roster) {
        return Err(Fault::Bad);
    }
    let delta = decode_state(alloc, roster.len(), rest)?;
    Ok(ReadChange {
        roster: Some(roster),
        delta,
    })
}
