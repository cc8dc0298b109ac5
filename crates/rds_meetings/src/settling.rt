//! What a session leaves of the replica in its file.
ghost use Rattle.std.specs.Prelude.{◌≡◌, ◌↔◌, length, option_map, None, IfErr, IfOk, IsTrue, MatchOption, OnOk};
ghost use Rattle.rds_names.specs.declared.fault.Fault.TheVariants.{Memory};
ghost use Rattle.rds_session.specs.Judging.{roster_among};
ghost use Rattle.rds_session.specs.Received.{HasChecked, IsChecked, delivery_of};
ghost use Rattle.rds_state.specs.Value.{size};
ghost use Rattle.rds_files.specs.Files.{IsUnkept};
ghost use Rattle.rds_meetings.specs.Settling.{HasTaken, JoinsWith, IsSameReplica, KeepsTaken, RefusesJoin, Settles, SettlesDelta};

use rds_dots::DotSet;
use rds_files::{Disk, EmptiedFile, LockFile, LockedFile, ReplacedFile, ReplicaFile};
use rds_keep::Change;
use rds_names::{Fault, Roster};
use rds_session::Exchanged;
use rds_state::{Replica, State};
use std::alloc::Global;

/// What a session left of the replica in its file.
#[derive(Clone, Copy, Debug, PartialEq, Eq)]
pub enum Settled {
    /// It received nothing.
    Nothing,
    /// A delta of so many components was taken, and the file is kept.
    Taken(u128),
    /// The delta was not taken, and the file is as it was.
    Refused(Fault),
    /// The delta was taken, and the file couldn't be kept.
    Unkept(Fault),
}

impl Settled {
    ghost use Rattle.rds_meetings.specs.Settling.{is_fault, is_unkept};

    /// Whether a fault came between.
    pub fn is_fault(&self) -> bool
        ensures { result ≡ is_fault self.now }
    {
        matches!(self, Settled::Refused(_) | Settled::Unkept(_))
    }

    /// Whether the file couldn't be kept.
    pub fn is_unkept(&self) -> bool
        ensures { result ≡ is_unkept self.now }
    {
        matches!(self, Settled::Unkept(_))
    }
}

/// What a session left, with the file that was replaced for it.
pub struct Settlement<'a, S: DotSet> {
    /// What it left.
    pub settled: Settled,
    /// The file, where a delta was taken.
    pub file: Option<ReplacedFile<'a, S>>,
}

// Written out, so that where it is let go a caller's proof has one call, and not a step for each part of its parts.
impl<'a, S: DotSet> Drop for Settlement<'a, S> {
    fn drop(self) {
        let Settlement {
            settled: _,
            file: _file,
        } = self;
    }
}

impl<S: DotSet> Settlement<'_, S> {
    /// No file was replaced.
    pub fn without_file(settled: Settled) -> Self
        ensures settled { result.settled ≡ settled }
        ensures file { result.file ≡ None }
    {
        Settlement {
            settled,
            file: None,
        }
    }
}

/// Takes what a session of the replica in the file received into what the file holds now: others may have changed it
/// since the session began, and what they did stays. The file is locked, read, joined with the delta, kept and
/// unlocked. Its roster is then the longest of three: the one that it has now, the one that the session's replica had,
/// and the peer's where that came. A delta without components is taken as any other. Where nothing was received, or
/// nothing changes, nothing is written.
///
/// Refuses `WrongAsker` where the file holds another replica by now, and `WrongRoster` where its roster and the peer's
/// have grown apart. A file that takes nothing stays as it was, its roster too.
pub fn settle<'a, H: Disk, S: DotSet>(
    rt: &H,
    file: &ReplicaFile<'a, S>,
    received: Option<State<S>>,
    roster: Option<Roster>,
) -> Settlement<'a, S>
where
    H::File: LockFile,
    requires checked { HasChecked file.now.kept (delivery_of received roster) }
    ensures settles { Settles file.now.path file.now.kept (delivery_of received roster) result.settled result.file }
{
    let Some(delta) = received else {
        return Settlement::without_file(Settled::Nothing);
    };
    settle_delta(rt, file, &delta, roster)
}

/// Settles what a session of the replica in the file came to, as `settle` does.
pub fn settle_exchanged<'a, H: Disk, S: DotSet>(
    rt: &H,
    file: &ReplicaFile<'a, S>,
    exchanged: Exchanged<S>,
) -> Settlement<'a, S>
where
    H::File: LockFile,
    requires checked { HasChecked file.now.kept (delivery_of exchanged.received exchanged.roster) }
    ensures settles { Settles file.now.path file.now.kept (delivery_of exchanged.received exchanged.roster)
        result.settled result.file }
{
    let (received, roster) = exchanged.into_received();
    settle(rt, file, received, roster)
}

// Takes the delta into what the file holds now.
fn settle_delta<'a, H: Disk, S: DotSet>(
    rt: &H,
    asked: &ReplicaFile<'a, S>,
    delta: &State<S>,
    roster: Option<Roster>,
) -> Settlement<'a, S>
where
    H::File: LockFile,
    requires checked { IsChecked asked.now.kept (delta.now, roster) }
    ensures settles { SettlesDelta asked.now.path asked.now.kept (delta.now, roster) result.settled result.file }
{
    let locked: LockedFile<'a, H, S> = match LockedFile::open(rt, asked.path()) {
        Ok(locked) => locked,
        Err(fault) => return Settlement::without_file(Settled::Refused(fault)),
    };
    let (mut replica, file) = locked.into_parts();
    let replicas = replica.roster().len();
    let before = asked.kept().view_of();
    if let Err(fault) = take_into(rt.alloc(), &mut replica, before, delta, roster) {
        return Settlement::without_file(Settled::Refused(fault));
    }
    keep_taken(rt, file, replica, delta, replicas)
}

/// Keeps the replica in its file, which took this delta when its roster had so many names.
pub fn keep_taken<'a, H: Disk, S: DotSet>(
    rt: &H,
    file: EmptiedFile<'a, H, S>,
    replica: Replica<S>,
    delta: &State<S>,
    replicas: u16,
) -> Settlement<'a, S>
where
    H::File: LockFile,
    requires took { HasTaken file.kept delta.now replica }
    requires replicas { replicas ≡ length file.kept.roster.names }
    ensures { KeepsTaken file.entry replica (size delta.now) result.settled result.file }
{
    match keep_change(rt, file, replica, delta, replicas) {
        Ok(file) => Settlement {
            settled: Settled::Taken(delta.components()),
            file: Some(file),
        },
        Err(fault) => Settlement::without_file(Settled::Unkept(fault)),
    }
}

// Keeps the replica with the change that it took: the delta, and its roster where that has more names by now.
fn keep_change<'a, H: Disk, S: DotSet>(
    rt: &H,
    file: EmptiedFile<'a, H, S>,
    replica: Replica<S>,
    delta: &State<S>,
    replicas: u16,
) -> Result<ReplacedFile<'a, S>, Fault>
where
    H::File: LockFile,
    requires took { HasTaken file.kept delta.now replica }
    requires replicas { replicas ≡ length file.kept.roster.names }
    ensures replaced { IfOk result
        (λ new. new ≡ record { path = file.entry.path; before = file.entry.kept; kept = replica }) }
    ensures fault { IfErr result (IsUnkept replica) }
{
    let grown = grown_roster(rt.alloc(), replica.roster(), replicas)?;
    file.keep(rt, replica, change_of(grown.as_ref(), delta))
}

// A delta, and a longer roster where one comes with it.
fn change_of<'b, S: DotSet>(roster: Option<&'b Roster>, delta: &'b State<S>) -> Change<'b, S>
    ensures { result ≡ record { roster = option_map (λ r. r.now) roster.entry; delta = delta.now } }
{
    Change { roster, delta }
}

// A copy of the roster, where it doesn't have so many names.
fn grown_roster(alloc: Global, roster: &Roster, replicas: u16) -> Result<Option<Roster>, Fault>
    ensures grown { IfOk result (λ grown. MatchOption grown (length roster.now.names ≡ replicas)
        (λ copy. copy ≡ roster.now)) }
    ensures fault { IfErr result (λ fault. fault ≡ Memory) }
{
    if roster.len() == replicas {
        return Ok(None);
    }
    Ok(Some(roster.copy(alloc)?))
}

// Takes the delta, and the roster that it came with, into what a file held.
#[tactic(auto, using(crate::proofs::Takes::refused))]
fn take_into<S: DotSet>(
    alloc: Global,
    held: &mut Replica<S>,
    asked: &Replica<S>,
    delta: &State<S>,
    roster: Option<Roster>,
) -> Result<(), Fault>
    requires { IsChecked asked.now (delta.now, roster) }
    ensures same { OnOk result (IsSameReplica asked.now held.old) }
    ensures ok { OnOk result (JoinsWith held.old (roster_among asked.now.roster roster) delta.now held.new) }
    ensures err { IfErr result (RefusesJoin asked.now held.old (delta.now, roster)) }
{
    if !is_same_replica(asked, held) {
        return Err(Fault::WrongAsker);
    }
    let came = match roster {
        Some(peers) => peers,
        None => asked.roster().copy(alloc)?,
    };
    held.take_with(came, delta)
}

// Whether the two are one replica of one group, whatever they hold.
fn is_same_replica<S: DotSet>(asked: &Replica<S>, held: &Replica<S>) -> bool
    ensures { IsTrue result ↔ IsSameReplica asked.now held.now }
{
    asked.own() == held.own() && asked.roster().meets(held.roster())
}
