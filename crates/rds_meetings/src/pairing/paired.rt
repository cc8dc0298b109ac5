//! A file of a pair.
ghost use Rattle.std.specs.Prelude.{◌≡◌, IfErr, IfOk, OnOk};
ghost use Rattle.rds_session.specs.Judging.{roster_among};
ghost use Rattle.rds_session.specs.Received.{HasChecked, IsChecked, delivery_of};
ghost use Rattle.rds_files.specs.Files.{IsKeptAt, IsUnreadFile};
ghost use Rattle.rds_meetings.specs.Pairing.{file_of};
ghost use Rattle.rds_meetings.specs.Settling.{JoinsWith, RefusesJoin, Settles, SettlesDelta};

use crate::settling::{Settled, Settlement, keep_taken, settle_exchanged};
use rds_dots::DotSet;
use rds_files::{Disk, LockFile, LockedFile, ReplicaFile};
use rds_keep::Kept;
use rds_names::{Fault, Roster};
use rds_session::Exchanged;
use rds_state::{Replica, State};

/// A file that was read for a session which waits for nobody.
#[derive(Drop)]
pub enum PairedFile<'a, H: Disk, S: DotSet> {
    /// Its lock was free, and is held.
    Locked(LockedFile<'a, H, S>),
    /// It was read without a lock: another has that, or the file isn't one to be replaced.
    Read(ReplicaFile<'a, S>),
}

impl<'a, H: Disk, S: DotSet> PairedFile<'a, H, S>
where
    H::File: LockFile,
{
    /// Reads the file of this path, under its lock where that is free, and makes what was read last, since the other is
    /// told of it. Refuses as `ReplicaFile::open_lasting` does, and `Device` also where the file can't be locked.
    pub fn open(rt: &H, path: &'a str) -> Result<PairedFile<'a, H, S>, Fault>
        ensures read { IfOk result (λ file. IsKeptAt path.now (file_of file)) }
        ensures fault { IfErr result IsUnreadFile }
    {
        match LockedFile::open_if_free(rt, path)? {
            Some(file) => {
                file.make_last(rt)?;
                Ok(PairedFile::Locked(file))
            }
            None => Ok(PairedFile::Read(ReplicaFile::open_lasting(rt, path)?)),
        }
    }

    /// Reads another file. Where this one's lock isn't held, the other's isn't taken either: no command waits for a lock
    /// while it holds one.
    pub fn open_other(&self, rt: &H, path: &'a str) -> Result<PairedFile<'a, H, S>, Fault>
        ensures read { IfOk result (λ file. IsKeptAt path.now (file_of file)) }
        ensures fault { IfErr result IsUnreadFile }
    {
        match self {
            PairedFile::Locked(_) => PairedFile::open(rt, path),
            PairedFile::Read(_) => Ok(PairedFile::Read(ReplicaFile::open_lasting(rt, path)?)),
        }
    }

    /// The file's path.
    pub fn path(&self) -> &'a str
        ensures { result.now ≡ (file_of self.now).path }
    {
        match self {
            PairedFile::Locked(file) => file.path(),
            PairedFile::Read(file) => file.path(),
        }
    }

    /// The replica.
    pub fn kept(&self) -> &Kept<S>
        ensures { result.now ≡ (file_of self.now).kept }
    {
        match self {
            PairedFile::Locked(file) => file.kept(),
            PairedFile::Read(file) => file.kept(),
        }
    }

    /// Settles what a session of the replica came to: in that very replica, where the lock is held since it was read,
    /// and else as `settle` does. The lock is let go with that.
    pub fn settle(self, rt: &H, exchanged: Exchanged<S>) -> Settlement<'a, S>
        requires checked { HasChecked (file_of self).kept (delivery_of exchanged.received exchanged.roster) }
        ensures settles { Settles (file_of self.entry).path (file_of self.entry).kept
            (delivery_of exchanged.received exchanged.roster) result.settled result.file }
    {
        match self {
            PairedFile::Locked(file) => settle_locked(rt, file, exchanged),
            PairedFile::Read(file) => settle_exchanged(rt, &file, exchanged),
        }
    }
}

// Settles what a session of the replica in a locked file came to, in that very replica.
fn settle_locked<'a, H: Disk, S: DotSet>(
    rt: &H,
    file: LockedFile<'a, H, S>,
    exchanged: Exchanged<S>,
) -> Settlement<'a, S>
where
    H::File: LockFile,
    requires checked { HasChecked file.kept (delivery_of exchanged.received exchanged.roster) }
    ensures settles { Settles file.entry.path file.entry.kept (delivery_of exchanged.received exchanged.roster)
        result.settled result.file }
{
    let (received, roster) = exchanged.into_received();
    let Some(delta) = received else {
        return Settlement::without_file(Settled::Nothing);
    };
    settle_own(rt, file, &delta, roster)
}

// Takes the delta into the replica that asked for it, which nobody changed since.
fn settle_own<'a, H: Disk, S: DotSet>(
    rt: &H,
    asked: LockedFile<'a, H, S>,
    delta: &State<S>,
    roster: Option<Roster>,
) -> Settlement<'a, S>
where
    H::File: LockFile,
    requires checked { IsChecked asked.kept (delta.now, roster) }
    ensures settles { SettlesDelta asked.entry.path asked.entry.kept (delta.now, roster) result.settled result.file }
{
    let (mut replica, file) = asked.into_parts();
    let replicas = replica.roster().len();
    if let Err(fault) = take_own(&mut replica, delta, roster) {
        return Settlement::without_file(Settled::Refused(fault));
    }
    keep_taken(rt, file, replica, delta, replicas)
}

// Takes the delta, and the roster that it came with, into the replica that asked for it.
fn take_own<S: DotSet>(
    asked: &mut Replica<S>,
    delta: &State<S>,
    roster: Option<Roster>,
) -> Result<(), Fault>
    requires { IsChecked asked.old (delta.now, roster) }
    ensures ok { OnOk result (JoinsWith asked.old (roster_among asked.old.roster roster) delta.now asked.new) }
    ensures err { IfErr result (RefusesJoin asked.old asked.old (delta.now, roster)) }
{
    match roster {
        Some(peers) => asked.take_with(peers, delta),
        None => asked.take(delta),
    }
}
