//! One replica of a document.
ghost use Rattle.std.specs.Prelude.{◌≡◌, ◌+◌, ◌≤◌, ◌<◌, ◌↔◌, IsTrue, false, max, None, Some, Err, IfOk, IfErr};
ghost use Rattle.std.specs.Prelude.{MatchResult, length};
ghost use Rattle.std.specs.FinMap as map;
ghost use Rattle.rds_names.specs.declared.fault.Fault.TheVariants.{Memory, BadRoster};
ghost use Rattle.rds_life.specs.Life.{Live, live_rows};
ghost use Rattle.rds_dots.specs.declared.dot.Dot.{Dot};
ghost use Rattle.rds_names.specs.declared.entry.Entry.{Entry};
ghost use Rattle.rds_state.specs.Ahead.{TakeGives};
ghost use Rattle.rds_state.specs.CoveredDots.{covered_dots};
ghost use Rattle.rds_state.specs.Edit.{covers, own_top, path_fault, seq_fault};
ghost use Rattle.rds_dots.specs.Lacking.{dot_of};
ghost use Rattle.rds_state.specs.Fits.{Fits, ReplicaValue, IsReplica};
ghost use Rattle.rds_state.specs.Grown.{TakeWithGives};
ghost use Rattle.rds_state.specs.Results.{EditsReplica, Grows, TakesDelta, TakesDeltaWith};
ghost use Rattle.rds_counts.specs.Below.{rows_below};
ghost use Rattle.rds_state.specs.Value.{coordinates};

use crate::ahead::own_ahead;
use crate::command::{Command, Edited};
use crate::covering::covered_in;
use crate::editing::{Searched, edit, next_dot};
use crate::state::State;
use rds_counts::CountRow;
use rds_dots::{Dot, DotSet, are_below};
use rds_life::Found;
use rds_names::{Fault, Path, Roster};
use std::alloc::Global;
use std::marker::Model;
use std::mem;

/// A replica: the roster of its group, its own number there, and its state. The numbers of all replicas that the
/// state speaks of are below the roster's length.
pub struct Replica<S: DotSet> {
    roster: Roster,
    own: u8,
    state: State<S>,
}

// Written out, so that where a replica is let go a caller's proof has one call, and not a step for each part of its
// parts.
impl<S: DotSet> Drop for Replica<S> {
    fn drop(self) {
        let Replica {
            roster: _roster,
            own: _,
            state: _state,
        } = self;
    }
}

impl<S: DotSet> Model for Replica<S> {
    ghost use Rattle.rds_state.specs.Fits.{ReplicaValue, IsReplica, coded_replica};

    ghost Value = { ReplicaValue };

    ghost coded = { coded_replica };

    ghost view = { λ r. record { roster = r.roster; own = r.own; state = r.state } };

    ghost invariant = { λ r. IsReplica (record { roster = r.roster; own = r.own; state = r.state }) };
}

impl<S: DotSet> Replica<S> {
    /// The replica with this number, without any entry or counter. A number that isn't below the roster's length is
    /// refused (`BadRoster`).
    pub fn new(alloc: Global, roster: Roster, own: u8) -> Result<Replica<S>, Fault>
        ensures ok { IfOk result
            (λ replica. (replica.roster ≡ roster) × (replica.own ≡ own) × (replica.state.lives ≡ map.empty)
            × (replica.state.counts ≡ map.empty)) }
        ensures exact { MatchResult result (λ _. own < length roster.names)
            (λ fault. (fault ≡ BadRoster) × (length roster.names ≤ own)) }
    {
        if !has_number(&roster, own) {
            return Err(Fault::BadRoster);
        }
        Ok(Replica {
            roster,
            own,
            state: State::empty(alloc),
        })
    }

    /// The replica of these parts. Where the own number or a replica's number in the state isn't below the roster's
    /// length, they are refused (`BadRoster`). Takes no memory.
    pub fn from_parts(roster: Roster, own: u8, state: State<S>) -> Result<Replica<S>, Fault>
        ensures ok { IfOk result
            (λ replica. (replica.roster ≡ roster) × (replica.own ≡ own) × (replica.state ≡ state)) }
        ensures exact { let parts : ReplicaValue = record { roster = roster; own = own; state = state } in
            MatchResult result (λ _. IsReplica parts) (λ fault. (fault ≡ BadRoster) × (¬ (IsReplica parts))) }
    {
        if !has_number(&roster, own) || !fits_into(&roster, &state) {
            return Err(Fault::BadRoster);
        }
        Ok(Replica { roster, own, state })
    }

    /// The roster of its group.
    pub fn roster(&self) -> &Roster
        ensures { result.now ≡ self.now.roster }
    {
        &self.roster
    }

    /// Its number in the roster.
    pub fn own(&self) -> u8
        ensures own { result ≡ self.now.own }
        ensures within { self.now.own < length self.now.roster.names }
    {
        self.own
    }

    /// What it knows of the document.
    pub fn state(&self) -> &State<S>
        ensures state { result.now ≡ self.now.state }
        ensures fits { Fits (length self.now.roster.names) (coordinates self.now.state) }
    {
        &self.state
    }

    /// Its parts: the roster, the own number, the state.
    pub fn into_parts(self) -> (Roster, u8, State<S>)
        ensures roster { result.0 ≡ self.roster }
        ensures own { result.1 ≡ self.own }
        ensures state { result.2 ≡ self.state }
        ensures fits { IsReplica self }
    {
        let Replica { roster, own, state } = self;
        (roster, own, state)
    }

    /// Whether all replica numbers of a state are below the roster's length.
    pub fn fits(&self, state: &State<S>) -> bool
        ensures { IsTrue result ↔ Fits (length self.now.roster.names) (coordinates state.now) }
    {
        fits_into(&self.roster, state)
    }

    /// Edits the document: the state is joined with what the command does to it. `Set` and `Add` make the next own
    /// dot live, and the live dots that the command covers die: for `Set` those of the register, for `Add` and `Del`
    /// those of the value in the set, for `Clear` all at or below the path. `Inc` and `Dec` raise an own number. An
    /// entry that this replica hasn't seen is not touched (Almeida, Shoker, Baquero 2018).
    ///
    /// Refuses `BadPath` where a value is meant for the root, then `SeqFull` where the last own dot is used, and
    /// `CounterFull` where a number would pass its limit. Only `Set`, `Add` and the first raise of a counter here take
    /// memory.
    pub fn edit(&mut self, command: Command) -> Result<Edited, Fault>
        ensures { EditsReplica self.old command result self.new }
    {
        self.edit_by(&command)
    }

    /// Edits the document as [`edit`](Replica::edit) does, by a command that the caller keeps.
    pub fn edit_by(&mut self, command: &Command) -> Result<Edited, Fault>
        ensures { EditsReplica self.old command.now result self.new }
    {
        edit(&mut self.state, self.own, command, &Searched { command })
    }

    /// Edits the document as [`edit`](Replica::edit) does, where the live dots that the command covers were found
    /// before: only these are looked at.
    pub fn edit_found<F: Found>(&mut self, command: &Command, found: &F) -> Result<Edited, Fault>
        requires found { (d : Dot) (e : Entry) → map.get self.old.state.lives d ≡ Some (Live e)
            → F.found found.now d e ≡ covers command.now e }
        ensures { EditsReplica self.old command.now result self.new }
    {
        edit(&mut self.state, self.own, command, found)
    }

    /// The own dot that a `Set` or an `Add` at the path would make live, or the fault that would refuse it: `BadPath`
    /// for the root, else `SeqFull`. Takes no memory.
    pub fn next_dot(&self, path: &Path) -> Result<Dot, Fault>
        ensures exact { let top = own_top (coordinates self.now.state) self.now.own in
            MatchResult result (λ dot. (path_fault path.now (seq_fault top) ≡ None)
            × (dot ≡ dot_of self.now.own (top + 1))) (λ fault. path_fault path.now (seq_fault top) ≡ Some fault) }
        ensures unseen { IfOk result (λ dot. map.get self.now.state.lives dot ≡ None) }
    {
        next_dot(&self.state, self.own, path)
    }

    /// The live dots that a command covers, in the order of the dots.
    pub fn covered(&self, alloc: Global, command: &Command) -> Result<Vec<Dot>, Fault>
        ensures ok { IfOk result (λ dots. dots.items ≡ covered_dots command.now (live_rows self.now.state.lives)) }
        ensures memory { IfErr result (λ fault. fault ≡ Memory) }
    {
        let dots = covered_in(alloc, self.state.lives(), command)?;
        Ok(dots)
    }

    /// Whether [`take`](Replica::take) would take the delta, if there is memory; else the fault that it would give.
    /// Takes no memory.
    pub fn may_take(&self, delta: &State<S>) -> Result<(), Fault>
        ensures { TakeGives self.now.state self.now.own delta.now result }
    {
        if let Some(ahead) = own_ahead(&self.state, self.own, delta) {
            return Err(Fault::OwnAhead(ahead));
        }
        if let Some(dot) = self.state.lives().conflict(delta.lives()) {
            return Err(Fault::Conflict {
                replica: dot.replica,
                seq: dot.seq,
            });
        }
        Ok(())
    }

    /// Joins a delta into the state. Refuses `OwnAhead` first, where the delta has an own dot that is unseen here,
    /// which the fault names, or an own number that is above the one here: both show that this replica has lost edits
    /// that it had sent. Then it refuses a `Conflict`, as a merge does. A delta without components takes no memory.
    pub fn take(&mut self, delta: &State<S>) -> Result<(), Fault>
        requires { Fits (length self.old.roster.names) (coordinates delta.now) }
        ensures { TakesDelta self.old delta.now result self.new }
    {
        if delta.components() == 0 {
            return Ok(());
        }
        if let Some(ahead) = own_ahead(&self.state, self.own, delta) {
            return Err(Fault::OwnAhead(ahead));
        }
        self.state.merge(delta)
    }

    /// Takes a roster that its own begins, in place of its own. Refuses one of another group (`WrongGroup`), then one
    /// that its own doesn't begin (`WrongRoster`). Takes no memory.
    pub fn grow(&mut self, roster: Roster) -> Result<(), Fault>
        ensures { Grows self.old roster result self.new }
    {
        if self.roster.group() != roster.group() {
            return Err(Fault::WrongGroup);
        }
        if !self.roster.begins(&roster) {
            return Err(Fault::WrongRoster);
        }
        self.roster = roster;
        Ok(())
    }

    /// Whether [`take_with`](Replica::take_with) would take the delta, if there is memory; else the fault that it
    /// would give. Takes no memory.
    pub fn may_take_with(&self, roster: &Roster, delta: &State<S>) -> Result<(), Fault>
        ensures { TakeWithGives self.now.roster roster.now self.now.state self.now.own delta.now result }
    {
        self.roster.may_meet(roster)?;
        self.may_take(delta)
    }

    /// Takes a delta that comes with a roster, and the longer of that roster and its own. Refuses a roster of another
    /// group (`WrongGroup`), then one where neither begins the other (`WrongRoster`), and then as
    /// [`take`](Replica::take) does.
    pub fn take_with(&mut self, roster: Roster, delta: &State<S>) -> Result<(), Fault>
        requires { Fits (max (length self.old.roster.names) (length roster.names)) (coordinates delta.now) }
        ensures { TakesDeltaWith self.old roster delta.now result self.new }
    {
        self.roster.may_meet(&roster)?;
        if roster.len() <= self.roster.len() {
            return self.take(delta);
        }
        let own = mem::replace(&mut self.roster, roster);
        let taken = self.take(delta);
        if taken.is_err() {
            self.roster = own;
        }
        taken
    }

    /// Puts the live entries into a map, as [`Lives::index`](rds_life::Lives::index) does: an edit then costs the same,
    /// however many entries live. The value stays as it is.
    pub fn index(&mut self) -> Result<(), Fault>
        ensures same { self.new ≡ self.old }
        ensures memory { IfErr result (λ fault. fault ≡ Memory) }
    {
        self.state.index()
    }

    /// An equal replica with memory of its own.
    pub fn copy(&self, alloc: Global) -> Result<Replica<S>, Fault>
        ensures ok { IfOk result (λ replica. replica ≡ self.now) }
        ensures memory { IfErr result (λ fault. fault ≡ Memory) }
    {
        Ok(Replica {
            roster: self.roster.copy(alloc)?,
            own: self.own,
            state: self.state.copy(alloc)?,
        })
    }
}

/// Whether the roster has a replica with this number.
fn has_number(roster: &Roster, number: u8) -> bool
    ensures { IsTrue result ↔ (number < length roster.now.names) }
{
    u16::from(number) < roster.len()
}

/// Whether all replica numbers of the state are below the roster's length.
fn fits_into<S: DotSet>(roster: &Roster, state: &State<S>) -> bool
    ensures { IsTrue result ↔ Fits (length roster.now.names) (coordinates state.now) }
{
    let replicas = roster.len();
    if !are_below(state.lives().seen(), replicas) {
        return false;
    }
    are_rows_below(state.counts().rows(), replicas)
}

fn are_rows_below(rows: &[CountRow], replicas: u16) -> bool
    ensures { result ≡ rows_below replicas rows.now }
{
    let mut rest = rows;
    'testing: while let Some((row, later)) = rest.split_first() {
        if u16::from(row.replica) >= replicas {
            return false;
        }
        rest = later;
    }
    true
}
