//! A new file that is written beside the one whose place it takes.
ghost use Rattle.std.specs.Prelude.{◌≡◌, ◌≤◌, ◌<◌, length, IfErr, IfOk, OnOk};
ghost use Rattle.rds_names.specs.declared.fault.Fault.TheVariants.{Memory};
ghost use Rattle.rds_codec.specs.StateTexts.{snapshot_text};
ghost use Rattle.rds_codec.specs.declared.limits.TheConstants.{LIMIT};
ghost use Rattle.rds_files.specs.Files.{IsTooLongOrLost, IsUnkept};

use crate::disk::{Disk, note};
use crate::locks::LockFile;
use crate::standing::check_standing;
use rds_codec::{Format, LIMIT, snapshot_length};
use rds_dots::DotSet;
use rds_keep::{Kept, Layout, Place, Placing, WasKept, keep_in};
use rds_names::Fault;
use rds_state::Replica;
use std::alloc::Global;
use std::fs::{OpenFile, OpenOptions};
use std::io::{ErrorKind, Write};
use std::os::unix::fs::OpenOptionsExt;
use std::rt::Files;
use std::{fs, io};

/// The mode of a new file that takes the place of none, less what the process masks.
const NEW_MODE: u32 = 0o666;

/// The mode of a new file until it has that of the file whose place it takes: its owner alone may open it.
const OWNER_MODE: u32 = 0o600;

/// Keeps the replica in a new file of this path. FILE.new is made anew; then it is written, synced and renamed to FILE,
/// and last the folder is synced. A FILE.new that was left behind is removed first, be it a file or a link, and so is
/// this one where it doesn't take FILE's place. The caller has the folder's lock.
pub fn keep_new<H: Disk, S: DotSet>(
    rt: &H,
    replica: Replica<S>,
    path: &str,
) -> Result<Kept<S>, Fault>
where
    H::File: LockFile,
    ensures kept { IfOk result (λ kept. kept ≡ replica) }
    ensures fault { IfErr result (IsUnkept replica) }
    ensures limit { OnOk result (length (snapshot_text replica) ≤ LIMIT) }
    ensures long { LIMIT < length (snapshot_text replica) → IfErr result IsTooLongOrLost }
{
    let name = name_beside(rt, path)?;
    let made = Beside::create(rt, name.as_str(), path, NEW_MODE);
    keep_beside(rt, replica, name.as_str(), made)
}

/// Keeps the replica in the file of this path in place of what it holds, as `keep_new` does; FILE.new gets the owner,
/// the group and the mode of the old file before anything is written. The caller has the old file's lock.
pub fn keep_over<H: Disk, S: DotSet>(
    rt: &H,
    replica: Replica<S>,
    path: &str,
    old: &H::File,
) -> Result<Kept<S>, Fault>
where
    H::File: LockFile,
    ensures kept { IfOk result (λ kept. kept ≡ replica) }
    ensures fault { IfErr result (IsUnkept replica) }
    ensures limit { OnOk result (length (snapshot_text replica) ≤ LIMIT) }
    ensures long { LIMIT < length (snapshot_text replica) → IfErr result IsTooLongOrLost }
{
    let name = name_beside(rt, path)?;
    let made = Beside::create_like(rt, name.as_str(), path, old);
    keep_beside(rt, replica, name.as_str(), made)
}

/// What a new file holds that took another's place, and where its parts stand.
pub struct Renewed<S: DotSet> {
    /// What it holds.
    pub kept: WasKept<S>,
    /// Where its parts stand.
    pub layout: Layout,
}

/// Keeps the replica in the file of this path in place of what it holds, as `keep_over` does, and holds that file from
/// then on: FILE.new is locked before it takes FILE's place, and is the file where it has done that, whatever the
/// answer. What stands at the path by now is judged first, as `check_standing` does.
pub fn renew<H: Disk, S: DotSet>(
    rt: &H,
    replica: &Replica<S>,
    path: &str,
    file: &mut H::File,
    size: Option<u64>,
) -> Result<Renewed<S>, Fault>
where
    H::File: LockFile,
    ensures kept { IfOk result (λ new. new.kept ≡ replica.now) }
    ensures fault { IfErr result (IsUnkept replica.now) }
    ensures limit { OnOk result (length (snapshot_text replica.now) ≤ LIMIT) }
    ensures long { LIMIT < length (snapshot_text replica.now) → IfErr result IsTooLongOrLost }
{
    let name = name_beside(rt, path)?;
    if check_standing(rt, path, file, size).is_err() {
        return Err(unkept(rt.alloc(), replica));
    }
    match Beside::create_locked(rt, name.as_str(), path, file) {
        Ok(beside) => renew_in(rt, replica, beside, file),
        Err(error) => Err(unmade(rt, replica, name.as_str(), &error)),
    }
}

// Keeps the replica in FILE.new, which then takes FILE's place and is held on.
fn renew_in<H: Disk, S: DotSet>(
    rt: &H,
    replica: &Replica<S>,
    mut beside: Beside<'_, H>,
    file: &mut H::File,
) -> Result<Renewed<S>, Fault>
    ensures kept { IfOk result (λ new. new.kept ≡ replica.now) }
    ensures fault { IfErr result (IsUnkept replica.now) }
    ensures limit { OnOk result (length (snapshot_text replica.now) ≤ LIMIT) }
    ensures long { LIMIT < length (snapshot_text replica.now) → IfErr result IsTooLongOrLost }
{
    let copy = replica.copy(rt.alloc())?;
    let kept = keep_made(rt, copy, &mut beside);
    let layout = snapshot_alone(beside.written);
    if beside.is_renamed {
        *file = beside.into_file();
    }
    Ok(Renewed {
        kept: WasKept::of(&kept?),
        layout,
    })
}

// How a file is laid out that has a snapshot of so many bytes, and no records.
fn snapshot_alone(length: u64) -> Layout {
    Layout {
        format: Format::Two,
        snapshot: length,
        whole: length,
        length,
    }
}

// The path of FILE.new.
fn name_beside<H: Disk>(rt: &H, path: &str) -> Result<String, Fault>
    ensures memory { IfErr result (λ fault. fault ≡ Memory) }
{
    match format!(in rt.alloc(); "{path}.new") {
        Ok(name) => Ok(name),
        Err(_) => Err(Fault::Memory),
    }
}

// Keeps the replica in FILE.new, which then takes FILE's place, where FILE.new could be made.
fn keep_beside<H: Disk, S: DotSet>(
    rt: &H,
    replica: Replica<S>,
    name: &str,
    made: io::Result<Beside<'_, H>>,
) -> Result<Kept<S>, Fault>
    ensures kept { IfOk result (λ kept. kept ≡ replica) }
    ensures fault { IfErr result (IsUnkept replica) }
    ensures limit { OnOk result (length (snapshot_text replica) ≤ LIMIT) }
    ensures long { LIMIT < length (snapshot_text replica) → IfErr result IsTooLongOrLost }
{
    match made {
        Ok(mut beside) => keep_made(rt, replica, &mut beside),
        Err(error) => Err(unmade(rt, &replica, name, &error)),
    }
}

// Keeps the replica in FILE.new, which then takes FILE's place. Where it has done that, and the folder can't be synced,
// that is `Unsure`.
fn keep_made<H: Disk, S: DotSet>(
    rt: &H,
    replica: Replica<S>,
    beside: &mut Beside<'_, H>,
) -> Result<Kept<S>, Fault>
    ensures kept { IfOk result (λ kept. kept ≡ replica) }
    ensures fault { IfErr result (IsUnkept replica) }
    ensures limit { OnOk result (length (snapshot_text replica) ≤ LIMIT) }
    ensures long { LIMIT < length (snapshot_text replica) → IfErr result IsTooLongOrLost }
{
    let kept = keep_in(rt.alloc(), replica, &mut Placing::new(&mut *beside));
    match kept {
        Err(Fault::Device) if beside.is_renamed => Err(Fault::Unsure),
        kept => kept,
    }
}

// Tells that FILE.new can't be made, and answers by which fault the replica isn't kept then.
fn unmade<H: Disk, S: DotSet>(rt: &H, replica: &Replica<S>, name: &str, error: &io::Error) -> Fault
    ensures fault { IsUnkept replica.now result }
    ensures long { LIMIT < length (snapshot_text replica.now) → IsTooLongOrLost result }
{
    note(rt, "cannot make", name, error);
    unkept(rt.alloc(), replica)
}

// By which fault a replica isn't kept that can't be written: `TooLong` goes before `Device`, and so does `Memory`
// to find how long its text is.
fn unkept<S: DotSet>(alloc: Global, replica: &Replica<S>) -> Fault
    ensures fault { IsUnkept replica.now result }
    ensures long { LIMIT < length (snapshot_text replica.now) → IsTooLongOrLost result }
{
    match snapshot_length(alloc, replica) {
        Ok(length) if u128::from(LIMIT as u64) < length => Fault::TooLong,
        Ok(_) => Fault::Device,
        Err(fault) => fault,
    }
}

// A file beside another. It is removed when it is let go, unless it took the other's place.
struct Beside<'a, H: Disk> {
    rt: &'a H,
    file: H::File,
    folder: H::File,
    name: &'a str,
    path: &'a str,
    written: u64,
    is_synced: bool,
    is_renamed: bool,
}

impl<H: Disk> Drop for Beside<'_, H> {
    fn drop(self) {
        let Beside {
            rt,
            file: _file,
            folder: _folder,
            name,
            path: _,
            written: _,
            is_synced: _,
            is_renamed,
        } = self;
        if !is_renamed {
            let _ = rt.remove_file(name);
        }
    }
}

impl<'a, H: Disk> Beside<'a, H> {
    // The folder is opened first: what can't be synced at the end isn't begun.
    fn create(rt: &'a H, name: &'a str, path: &'a str, mode: u32) -> io::Result<Beside<'a, H>> {
        let folder = fs::open(rt, folder_of(path))?;
        remove_left(rt, name)?;
        let file = OpenOptions::new()
            .write(true)
            .create_new(true)
            .mode(mode)
            .open(rt, name)?;
        Ok(Beside {
            rt,
            file,
            folder,
            name,
            path,
            written: 0,
            is_synced: false,
            is_renamed: false,
        })
    }

    // The file, which took the other's place.
    fn into_file(self) -> H::File {
        let Beside {
            rt: _,
            file,
            folder: _folder,
            name: _,
            path: _,
            written: _,
            is_synced: _,
            is_renamed: _,
        } = self;
        file
    }
}

impl<'a, H: Disk> Beside<'a, H>
where
    H::File: LockFile,
{
    // With the owner, the group and the mode of the old file. Until it has these, its maker alone may open it.
    fn create_like(
        rt: &'a H,
        name: &'a str,
        path: &'a str,
        old: &H::File,
    ) -> io::Result<Beside<'a, H>> {
        let beside = Beside::create(rt, name, path, OWNER_MODE)?;
        match beside.file.take_rights(old) {
            Ok(()) => Ok(beside),
            Err(error) => Err(beside.told("cannot give the owner, group and mode to", error)),
        }
    }

    // The same, and its lock is held.
    fn create_locked(
        rt: &'a H,
        name: &'a str,
        path: &'a str,
        old: &H::File,
    ) -> io::Result<Beside<'a, H>> {
        let beside = Beside::create_like(rt, name, path, old)?;
        if !beside.file.try_lock_exclusive()? {
            return Err(io::Error::from(ErrorKind::WouldBlock));
        }
        Ok(beside)
    }
}

// Removes what was left behind under this name, if anything was.
fn remove_left<H: Files>(rt: &H, name: &str) -> io::Result<()> {
    match rt.remove_file(name) {
        Err(error) if error.kind() == ErrorKind::NotFound => Ok(()),
        removed => removed,
    }
}

impl<H: Disk> Write for Beside<'_, H> {
    fn write(&mut self, buf: &[u8]) -> io::Result<usize> {
        self.is_synced = false;
        self.is_renamed = false;
        match self.file.write(buf) {
            Ok(count) => {
                self.written = self.written.saturating_add(count as u64);
                Ok(count)
            }
            Err(error) => Err(self.told("cannot write", error)),
        }
    }

    fn flush(&mut self) -> io::Result<()> {
        self.file.flush()
    }
}

impl<H: Disk> Place for &mut Beside<'_, H> {
    ghost synced = { λ p. p.now.is_synced };

    ghost renamed = { λ p. p.now.is_renamed };

    fn sync(&mut self) -> io::Result<()> {
        match self.file.sync_all() {
            Ok(()) => {
                self.is_synced = true;
                Ok(())
            }
            Err(error) => Err(self.told("cannot sync", error)),
        }
    }

    fn rename(&mut self) -> io::Result<()> {
        match self.rt.rename(self.name, self.path) {
            Ok(()) => {
                self.is_renamed = true;
                self.sync_folder()
            }
            Err(error) => Err(self.told("cannot rename", error)),
        }
    }
}

impl<H: Disk> Beside<'_, H> {
    // Syncs the folder, so that the rename outlasts a loss of power. Some file systems can't, and that isn't reported.
    fn sync_folder(&self) -> io::Result<()> {
        match self.folder.sync_all() {
            Err(error) if !is_unsupported(error.kind()) => Err(self.told(
                "renamed, but cannot sync the folder of",
                error,
            )),
            _ => Ok(()),
        }
    }

    // What failed, which is reported.
    fn told(&self, what: &str, error: io::Error) -> io::Error {
        note(self.rt, what, self.name, &error);
        error
    }
}

/// What a file system answers that doesn't sync folders.
pub fn is_unsupported(kind: ErrorKind) -> bool {
    matches!(kind, ErrorKind::Unsupported | ErrorKind::InvalidInput)
}

/// The folder of a path: what stands before its last '/'.
pub fn folder_of(path: &str) -> &str {
    match path.rsplit_once('/') {
        Some(("", _)) => "/",
        Some((folder, _)) => folder,
        None => ".",
    }
}
