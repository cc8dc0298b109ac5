//! The lock that a command takes before it changes a file.
ghost use Rattle.std.specs.Prelude.{◌≡◌, IfErr};
ghost use Rattle.std.specs.Io.{WritesAtMost};
ghost use Rattle.rds_names.specs.declared.fault.Fault.TheVariants.{Device};

use crate::disk::{Disk, note};
use rds_names::Fault;
use std::fs::{File, Metadata, OpenFile, TryLockError};
use std::io::ErrorKind;
use std::os::unix::fs::{FileExt, MetadataExt, fchown};
use std::time::Duration;
use std::{fs, io, thread};

/// How many times a lock is tried for.
const TRIES: u32 = 1_000;

/// How many milliseconds a command waits between two tries.
const PAUSE: u64 = 10;

/// The bit of a mode that lets the group write.
const GROUP_WRITES: u32 = 0o020;

/// What a file does beside the calls of `OpenFile`, so that one command at a time changes it.
pub trait LockFile {
    /// Takes the file's exclusive advisory lock, and tells whether it was free. The lock is let go with the file.
    fn try_lock_exclusive(&self) -> io::Result<bool>;

    /// Takes its shared advisory lock, which several may have, and tells whether nobody had the exclusive one. The lock
    /// is let go with the file.
    fn try_share_lock(&self) -> io::Result<bool>;

    /// Whether the two are one file, opened twice.
    fn is_same(&self, other: &Self) -> io::Result<bool>;

    /// Whether its mode lets nobody write it.
    fn is_read_only(&self) -> io::Result<bool>;

    /// How many names it has. A folder has one.
    fn links(&self) -> io::Result<u64>;

    /// How many bytes it has.
    fn length(&self) -> io::Result<u64>;

    /// Gives it the owner, the group and the mode of another file. Where the owner can't be given, the group has to be,
    /// and has to be one that may write it: who could write the other then can write this one.
    fn take_rights(&self, other: &Self) -> io::Result<()>;

    /// Writes some of the bytes at this place, and tells how many. The file's position stays where it is.
    fn write_at(&self, at: u64, bytes: &[u8]) -> io::Result<usize>
        ensures bound { WritesAtMost result bytes.now };
}

impl LockFile for File {
    fn try_lock_exclusive(&self) -> io::Result<bool> {
        was_free(self.try_lock())
    }

    fn try_share_lock(&self) -> io::Result<bool> {
        was_free(self.try_lock_shared())
    }

    fn is_same(&self, other: &File) -> io::Result<bool> {
        let own = self.metadata()?;
        let others = other.metadata()?;
        Ok(own.dev() == others.dev() && own.ino() == others.ino())
    }

    fn is_read_only(&self) -> io::Result<bool> {
        Ok(self.metadata()?.permissions().readonly())
    }

    fn links(&self) -> io::Result<u64> {
        let about = self.metadata()?;
        Ok(if about.is_dir() { 1 } else { about.nlink() })
    }

    fn length(&self) -> io::Result<u64> {
        Ok(self.metadata()?.len())
    }

    fn take_rights(&self, other: &File) -> io::Result<()> {
        let own = self.metadata()?;
        let others = other.metadata()?;
        if own.uid() != others.uid() || own.gid() != others.gid() {
            take_owner(self, &others)?;
        }
        self.set_permissions(others.permissions())
    }

    fn write_at(&self, at: u64, bytes: &[u8]) -> io::Result<usize> {
        FileExt::write_at(self, bytes, at)
    }
}

// Gives a file the owner and the group of another, or the group alone where that may write the other.
fn take_owner(file: &File, other: &Metadata) -> io::Result<()> {
    match fchown(file, Some(other.uid()), Some(other.gid())) {
        Err(error)
            if error.kind() == ErrorKind::PermissionDenied && other.mode() & GROUP_WRITES != 0 => {
            fchown(file, None, Some(other.gid()))
        }
        given => given,
    }
}

// Whether a lock was free that was tried for.
fn was_free(tried: Result<(), TryLockError>) -> io::Result<bool> {
    match tried {
        Ok(()) => Ok(true),
        Err(TryLockError::WouldBlock) => Ok(false),
        Err(TryLockError::Error(error)) => Err(error),
    }
}

/// Opens what is at this path, and locks it. Another that has the lock is waited for some ten seconds; then it is
/// `Device`, as where it can't be opened or locked.
pub fn lock<H: Disk>(rt: &H, path: &str) -> Result<H::File, Fault>
where
    H::File: LockFile,
    ensures fault { IfErr result (λ e. e ≡ Device) }
{
    'tries: for _ in 0..TRIES {
        match lock_if_free(rt, path)? {
            Some(file) => return Ok(file),
            None => thread::sleep(rt, Duration::from_millis(PAUSE)),
        }
    }
    let _ = eprintln!(rt; "{path}: in use by another command");
    Err(Fault::Device)
}

/// Opens what is at this path, and locks it. There is none where another has the lock: nobody is waited for. It is
/// `Device` where it can't be opened or locked.
pub fn lock_if_free<H: Disk>(rt: &H, path: &str) -> Result<Option<H::File>, Fault>
where
    H::File: LockFile,
    ensures fault { IfErr result (λ e. e ≡ Device) }
{
    match try_lock(rt, path) {
        Ok(locked) => Ok(locked),
        Err(error) => {
            note(rt, "cannot open", path, &error);
            Err(Fault::Device)
        }
    }
}

// The locked file at this path. There is none where another has the lock, or where another file has taken its place,
// since a file that is replaced keeps the lock of whoever replaced it.
fn try_lock<H: Disk>(rt: &H, path: &str) -> io::Result<Option<H::File>>
where
    H::File: LockFile,
{
    let file = fs::open(rt, path)?;
    if !file.try_lock_exclusive()? {
        return Ok(None);
    }
    let there = fs::open(rt, path)?;
    Ok(if file.is_same(&there)? {
        Some(file)
    } else {
        None
    })
}
