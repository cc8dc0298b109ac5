//! Replicas in files.
ghost use Rattle.std.specs.Prelude.{◌≡◌, ◌≤◌, ◌<◌, ◌⊎◌, true, false, length, None, Err, IfOk, IfErr, IfSome, IsTrue, OnErr, OnOk};
ghost use Rattle.rds_names.specs.declared.fault.Fault.TheVariants.{Device, TooLong, Usage};
ghost use Rattle.rds_codec.specs.StateTexts.{IsSnapshot, snapshot_text};
ghost use Rattle.rds_codec.specs.declared.limits.TheConstants.{LIMIT};
ghost use Rattle.rds_keep.specs.Changes.{IsChanged};
ghost use Rattle.rds_state.specs.Value.{size};
ghost use Rattle.rds_files.specs.Files.{HoldsTooMuch, IsHeldAt, MakesNoFile, IsReadAt, IsReadBy, IsTooLongOrLost, IsUnkept, IsUnreadFile, RefusesFile, RefusesLock, is_beside, read_more};

use crate::appending::{Tail, append_to, is_put_off, takes_record};
use crate::beside::{Renewed, folder_of, keep_new, keep_over, renew};
use crate::disk::{Disk, note};
use crate::holders::lock_file;
use crate::lasting::make_last;
use crate::locks::{LockFile, lock, lock_if_free};
use crate::reading::{read_kept, read_now, read_to_last};
use crate::standing::{Whereabouts, check_standing, locate};
use crate::targets::Target;
use rds_dots::DotSet;
use rds_keep::{Change, Changed, Kept, Layout, Stored, WasKept};
use rds_names::Fault;
use rds_state::Replica;
use std::fs;
use std::io::ErrorKind;
use std::marker::Model;
use std::rt::Files;

/// The path of a file, and how many times the file was read by it.
#[derive(Debug, Drop)]
pub struct FilePath<'a> {
    path: &'a str,
    reads: u64,
}

impl<'a> Model for FilePath<'a> {
    ghost use Rattle.rds_files.specs.Files.{PathValue, coded_path};

    ghost Value = { PathValue };

    ghost coded = { coded_path };

    ghost view = { λ p. record { path = p.path.now; reads = p.reads } };
}

impl<'a> FilePath<'a> {
    /// The path of a file that wasn't read yet.
    pub fn new(path: &'a str) -> FilePath<'a>
        ensures { result ≡ record { path = path.now; reads = 0 } }
    {
        FilePath { path, reads: 0 }
    }

    /// The path.
    pub fn path(&self) -> &'a str
        ensures { result.now ≡ self.now.path }
    {
        self.path
    }

    /// Reads the file as it is now, and counts that. It takes no lock: what another command is about to append is a
    /// torn end until it is whole. Refuses `Device` where it can't be opened or read, and else as `read_stored` does,
    /// where it holds no replica. A full count stays.
    pub fn read<H: Disk, S: DotSet>(&mut self, rt: &H) -> Result<ReplicaFile<'a, S>, Fault>
        ensures read { IfOk result (IsReadBy self.old) }
        ensures counted { self.new ≡ read_more self.old }
        ensures fault { IfErr result IsUnreadFile }
        ensures long { IfErr result (λ fault. fault ≡ TooLong → HoldsTooMuch H.File.remaining) }
    {
        let nth = self.count();
        let Stored { kept, layout } = read_now(rt, self.path)?;
        Ok(ReplicaFile {
            path: self.path,
            kept,
            layout,
            nth,
        })
    }

    /// The same for a reading of which others are told: what was read lasts from then on, whatever becomes of the
    /// machine. The file that the path leads to and its folder are synced. Refuses `Device` also where that fails.
    pub fn read_lasting<H: Disk, S: DotSet>(&mut self, rt: &H) -> Result<ReplicaFile<'a, S>, Fault>
        ensures read { IfOk result (IsReadBy self.old) }
        ensures counted { self.new ≡ read_more self.old }
        ensures fault { IfErr result IsUnreadFile }
        ensures long { IfErr result (λ fault. fault ≡ TooLong → HoldsTooMuch H.File.remaining) }
    {
        let nth = self.count();
        let Stored { kept, layout } = read_to_last(rt, self.path)?;
        Ok(ReplicaFile {
            path: self.path,
            kept,
            layout,
            nth,
        })
    }

    // Counts a reading, and answers how many came before.
    fn count(&mut self) -> u64
        ensures nth { result ≡ self.old.reads }
        ensures counted { self.new ≡ read_more self.old }
    {
        let nth = self.reads;
        self.reads = self.reads.saturating_add(1);
        nth
    }
}

/// A replica that was read whole from the file of a path. Nothing else makes one, and nothing changes it.
#[derive(Drop)]
pub struct ReplicaFile<'a, S: DotSet> {
    path: &'a str,
    kept: Kept<S>,
    layout: Layout,
    nth: u64,
}

impl<'a, S: DotSet> Model for ReplicaFile<'a, S> {
    ghost use Rattle.rds_files.specs.Files.{FileValue, coded_file};

    ghost Value = { FileValue };

    ghost coded = { coded_file };

    ghost view = { λ f. record { path = f.path.now; kept = f.kept; layout = f.layout; nth = f.nth } };
}

impl<'a, S: DotSet> ReplicaFile<'a, S> {
    /// Reads the file of this path as it is now, as `FilePath::read` does.
    pub fn open<H: Disk>(rt: &H, path: &'a str) -> Result<ReplicaFile<'a, S>, Fault>
        ensures read { IfOk result (IsReadAt path.now) }
        ensures fault { IfErr result IsUnreadFile }
        ensures long { IfErr result (λ fault. fault ≡ TooLong → HoldsTooMuch H.File.remaining) }
    {
        FilePath::new(path).read(rt)
    }

    /// The same of a reading of which others are told, as `FilePath::read_lasting` does.
    pub fn open_lasting<H: Disk>(rt: &H, path: &'a str) -> Result<ReplicaFile<'a, S>, Fault>
        ensures read { IfOk result (IsReadAt path.now) }
        ensures fault { IfErr result IsUnreadFile }
        ensures long { IfErr result (λ fault. fault ≡ TooLong → HoldsTooMuch H.File.remaining) }
    {
        FilePath::new(path).read_lasting(rt)
    }

    /// The file's path.
    pub fn path(&self) -> &'a str
        ensures { result.now ≡ self.now.path }
    {
        self.path
    }

    /// The replica.
    pub fn kept(&self) -> &Kept<S>
        ensures { result.now ≡ self.now.kept }
    {
        &self.kept
    }

    /// Where the parts of the file stand.
    pub fn layout(&self) -> Layout
        ensures { result ≡ self.now.layout }
    {
        self.layout
    }
}

/// A replica that was read whole from the file of a path, whose lock is held as long as this is: no other command that
/// takes the lock changes the file. Only `open` and `open_if_free` make one.
#[derive(Drop)]
pub struct LockedFile<'a, H: Disk, S: DotSet> {
    path: &'a str,
    target: Target<'a>,
    kept: Kept<S>,
    layout: Layout,
    file: H::File,
}

impl<'a, H: Disk, S: DotSet> Model for LockedFile<'a, H, S> {
    ghost use Rattle.rds_files.specs.Files.{IsHeldAt, KeptFile, coded_kept_file};

    ghost Value = { KeptFile };

    ghost coded = { coded_kept_file };

    ghost view = { λ f. record { path = f.path.now; kept = f.kept } };

    ghost invariant = { λ f. IsHeldAt f.path.now (record { path = f.path.now; kept = f.kept }) };
}

impl<'a, H: Disk, S: DotSet> LockedFile<'a, H, S>
where
    H::File: LockFile,
{
    /// Locks the file of this path, and reads it. Where the path is a link's, that is the file which the link leads to.
    /// Refuses `Usage` where the path ends in `.new`, as the files do that are written beside others; then `Device`
    /// where the file can't be opened or read, or isn't one to be replaced: a link leads to a file that ends in `.new`,
    /// its mode lets nobody write it, or it has several names. So it does where a node has its lock, at once, and where
    /// another command has it for more than ten seconds; and as `read_stored` does where the file holds no replica.
    pub fn open(rt: &H, path: &'a str) -> Result<LockedFile<'a, H, S>, Fault>
        ensures held { IfOk result (IsHeldAt path.now) }
        ensures beside { is_beside path.now ≡ true → result ≡ Err Usage }
        ensures long { IfErr result (λ fault. fault ≡ TooLong → HoldsTooMuch H.File.remaining) }
        ensures fault { IfErr result (RefusesLock path.now) }
    {
        if is_beside(path) {
            return Err(Fault::Usage);
        }
        let target = Target::find(rt, path)?;
        check_target(rt, path, &target)?;
        let file = lock_file(rt, target.path())?;
        check_writable(rt, path, &file)?;
        check_alone(rt, path, &file)?;
        LockedFile::read(rt, path, target, file)
    }

    /// The same for a command that waits for nobody. There is none where another has the lock, and where `open` refuses
    /// a file that isn't one to be replaced.
    pub fn open_if_free(rt: &H, path: &'a str) -> Result<Option<LockedFile<'a, H, S>>, Fault>
        ensures held { IfOk result (λ file. IfSome file (IsHeldAt path.now)) }
        ensures fault { IfErr result IsUnreadFile }
        ensures long { IfErr result (λ fault. fault ≡ TooLong → HoldsTooMuch H.File.remaining) }
    {
        if is_beside(path) {
            return Ok(None);
        }
        let target = Target::find(rt, path)?;
        match lock_if_free(rt, target.path())? {
            Some(file) if is_replaceable(&target, &file) => {
                Ok(Some(LockedFile::read(rt, path, target, file)?))
            }
            _ => Ok(None),
        }
    }

    // Reads the file, which is locked.
    fn read(
        rt: &H,
        path: &'a str,
        target: Target<'a>,
        mut file: H::File,
    ) -> Result<LockedFile<'a, H, S>, Fault>
        requires place { is_beside path.now ≡ false }
        ensures held { IfOk result (IsHeldAt path.now) }
        ensures fault { IfErr result IsUnreadFile }
        ensures long { IfErr result (λ fault. fault ≡ TooLong → HoldsTooMuch H.File.remaining) }
    {
        let Stored { kept, layout } = read_kept(rt, path, &mut file)?;
        Ok(LockedFile {
            path,
            target,
            kept,
            layout,
            file,
        })
    }

    /// Makes what was read last, as `FilePath::read_lasting` does. `Device` where that fails.
    pub fn make_last(&self, rt: &H) -> Result<(), Fault>
        ensures fault { IfErr result (λ e. e ≡ Device) }
    {
        make_last(rt, self.target.path(), &self.file)
    }

    /// The file's path.
    pub fn path(&self) -> &'a str
        ensures { result.now ≡ self.now.path }
    {
        self.path
    }

    /// The replica.
    pub fn kept(&self) -> &Kept<S>
        ensures { result.now ≡ self.now.kept }
    {
        &self.kept
    }

    /// The replica, to be edited, and the file, in which it may be kept again. The lock is held on.
    pub fn into_parts(self) -> (Replica<S>, EmptiedFile<'a, H, S>)
        ensures replica { result.0 ≡ self.entry.kept }
        ensures file { result.1 ≡ self.entry }
        ensures held { IsHeldAt self.entry.path self.entry }
    {
        let LockedFile {
            path,
            target,
            kept,
            layout,
            file,
        } = self;
        let emptied = EmptiedFile {
            path,
            target,
            held: WasKept::of(&kept),
            layout: Some(layout),
            lasts: false,
            put_off: 0,
            file,
        };
        (kept.replica(), emptied)
    }

    /// Writes the file anew, with its replica in a snapshot and no records behind it, as `EmptiedFile::replace` does.
    pub fn compact(self, rt: &H) -> Result<ReplacedFile<'a, S>, Fault>
        ensures replaced { IfOk result (λ file. file
            ≡ record { path = self.entry.path; before = self.entry.kept; kept = self.entry.kept }) }
        ensures fault { IfErr result (IsUnkept self.entry.kept) }
        ensures limit { OnOk result (length (snapshot_text self.entry.kept) ≤ LIMIT) }
        ensures long { LIMIT < length (snapshot_text self.entry.kept) → IfErr result IsTooLongOrLost }
    {
        let (replica, file) = self.into_parts();
        file.replace(rt, replica)
    }
}

/// The file of a locked file whose replica was taken out of it, to be edited. The lock is held as long as this is. Only
/// `LockedFile::into_parts` makes one.
#[derive(Drop)]
pub struct EmptiedFile<'a, H: Disk, S: DotSet> {
    path: &'a str,
    target: Target<'a>,
    held: WasKept<S>,
    // Where its parts stand. That isn't known where a call on it failed.
    layout: Option<Layout>,
    // Whether what it holds was synced, and its folder, since it was locked.
    lasts: bool,
    // Up to how many bytes it takes records, however short its snapshot is: it couldn't be written anew.
    put_off: u64,
    file: H::File,
}

impl<'a, H: Disk, S: DotSet> Model for EmptiedFile<'a, H, S> {
    ghost use Rattle.rds_files.specs.Files.{KeptFile, coded_kept_file};

    ghost Value = { KeptFile };

    ghost coded = { coded_kept_file };

    ghost view = { λ f. record { path = f.path.now; kept = f.held } };
}

impl<'a, H: Disk, S: DotSet> EmptiedFile<'a, H, S>
where
    H::File: LockFile,
{
    /// Keeps this replica in the file in place of the one that it holds, and then lets the lock go: FILE.new is written
    /// anew, with the owner and mode of FILE, synced and renamed to FILE, and the folder is synced. A FILE.new that was left
    /// behind is removed first. Where FILE is a link, all that is done to the file that it led to when it was locked,
    /// and the link stays.
    ///
    /// Refuses `TooLong` where the replica's text is above the limit, and else `Device` where a file can't be removed,
    /// made, given its mode, written, synced or renamed. `Memory` goes before both, where there is too little to find
    /// how long the text is. FILE is then as it was. Last, where only the folder can't be synced, FILE is the new one,
    /// and that is `Unsure`.
    pub fn replace(self, rt: &H, replica: Replica<S>) -> Result<ReplacedFile<'a, S>, Fault>
        ensures replaced { IfOk result
            (λ file. file ≡ record { path = self.entry.path; before = self.entry.kept; kept = replica }) }
        ensures fault { IfErr result (IsUnkept replica) }
        ensures limit { OnOk result (length (snapshot_text replica) ≤ LIMIT) }
        ensures long { LIMIT < length (snapshot_text replica) → IfErr result IsTooLongOrLost }
    {
        let EmptiedFile {
            path,
            target,
            held: before,
            layout: _,
            lasts: _,
            put_off: _,
            file,
        } = self;
        let kept = keep_over(rt, replica, target.path(), &file)?;
        Ok(ReplacedFile { path, before, kept })
    }

    /// Keeps this replica in the file, which a change made of the one that it holds, and then lets the lock go. A torn
    /// end is cut off, the record of the change is appended, and FILE and its folder are synced. Where nothing changed,
    /// no component came and no roster, they are synced alone: another command may have died before it did that.
    ///
    /// FILE is written anew instead, as `replace` does, where a record isn't worth its place: in a file of format 1,
    /// and where the records would be longer than the snapshot and than 64 kB. So it is where the record is longer than
    /// one may be, and where FILE can't be opened for writing.
    ///
    /// Refuses `Device` where the record can't be written: FILE holds what it held, with a torn end. Where it is
    /// written and can't be synced that is `Unsure`. Else it refuses as `replace` does.
    pub fn keep(
        self,
        rt: &H,
        replica: Replica<S>,
        change: Change<'_, S>,
    ) -> Result<ReplacedFile<'a, S>, Fault>
        requires changed { IsChanged self.kept change replica }
        ensures replaced { IfOk result
            (λ file. file ≡ record { path = self.entry.path; before = self.entry.kept; kept = replica }) }
        ensures fault { IfErr result (IsUnkept replica) }
    {
        if is_nothing(&change) {
            make_last(rt, self.target.path(), &self.file)?;
            return Ok(self.unchanged(replica));
        }
        match self.append(rt, &replica, &change)? {
            Some((kept, _)) => Ok(ReplacedFile {
                path: self.path,
                before: self.held,
                kept: kept.again(replica),
            }),
            None => self.replace(rt, replica),
        }
    }

    // The file with the replica that it holds.
    fn unchanged(self, replica: Replica<S>) -> ReplacedFile<'a, S>
        requires same { replica ≡ self.kept }
        ensures { result ≡ record { path = self.entry.path; before = self.entry.kept; kept = replica } }
    {
        let kept = self.held.again(replica);
        ReplacedFile {
            path: self.path,
            before: WasKept::of(&kept),
            kept,
        }
    }

    // Appends the record of the change, where it is known how the file is laid out, and it takes the record.
    fn append(
        &self,
        rt: &H,
        replica: &Replica<S>,
        change: &Change<'_, S>,
    ) -> Result<Option<(WasKept<S>, Layout)>, Fault>
        requires changed { IsChanged self.now.kept change.now replica.now }
        ensures kept { IfOk result (λ some. IfSome some (λ appended. appended.0 ≡ replica.now)) }
        ensures fault { IfErr result (IsUnkept replica.now) }
    {
        match self.layout {
            Some(layout) => self.append_at(rt, replica, change, &layout),
            None => Ok(None),
        }
    }

    // Appends the record of the change, where one more is worth its place, and the file can be opened for writing.
    fn append_at(
        &self,
        rt: &H,
        replica: &Replica<S>,
        change: &Change<'_, S>,
        layout: &Layout,
    ) -> Result<Option<(WasKept<S>, Layout)>, Fault>
        requires changed { IsChanged self.now.kept change.now replica.now }
        ensures kept { IfOk result (λ some. IfSome some (λ appended. appended.0 ≡ replica.now)) }
        ensures fault { IfErr result (IsUnkept replica.now) }
    {
        let changed = match Changed::new(rt.alloc(), &self.held, replica, change) {
            Ok(changed) => changed,
            Err(Fault::Memory) => return Err(Fault::Memory),
            Err(_) => return Ok(None),
        };
        match self.tail(rt, layout, changed.record_length()) {
            Some(mut tail) => append_to(&mut tail, changed, layout),
            None => Ok(None),
        }
    }

    // The file, opened for writing, where one more record of so many bytes is worth its place.
    fn tail<'b>(&'b self, rt: &'b H, layout: &Layout, count: usize) -> Option<Tail<'b, H>> {
        if takes_record(layout, count) || is_put_off(layout, self.put_off) {
            Tail::open(rt, self.target.path(), &self.file, !self.lasts)
        } else {
            None
        }
    }

    /// Keeps this replica in the file as `keep` does, and holds the lock on. So the folder is synced once alone, and
    /// where nothing changed again there is nothing to sync. Where a call fails, the file is the next time written
    /// anew. Where no file can be written beside it, it takes records up to twice its length before that is tried once
    /// more. Where others put another file at the path meanwhile, moved this one, or wrote to it, that is `Device`, and
    /// what stands there isn't touched.
    pub fn keep_on(
        &mut self,
        rt: &H,
        replica: &Replica<S>,
        change: Change<'_, S>,
    ) -> Result<(), Fault>
        requires changed { IsChanged self.old.kept change replica.now }
        ensures kept { OnOk result (self.new ≡ record { path = self.old.path; kept = replica.now }) }
        ensures same { OnErr result (self.new ≡ self.old) }
        ensures fault { IfErr result (IsUnkept replica.now) }
    {
        if is_nothing(&change) {
            self.make_sure(rt)?;
            return Ok(());
        }
        self.check_standing(rt)?;
        if self.append_on(rt, replica, &change)? {
            return Ok(());
        }
        self.replace_or_append(rt, replica, &change)
    }

    // Appends the record of the change as `append` does, and tells whether it did.
    fn append_on(
        &mut self,
        rt: &H,
        replica: &Replica<S>,
        change: &Change<'_, S>,
    ) -> Result<bool, Fault>
        requires changed { IsChanged self.old.kept change.now replica.now }
        ensures kept { IfOk result (λ done. done ≡ true
            → self.new ≡ record { path = self.old.path; kept = replica.now }) }
        ensures left { IfOk result (λ done. done ≡ false → self.new ≡ self.old) }
        ensures same { OnErr result (self.new ≡ self.old) }
        ensures fault { IfErr result (IsUnkept replica.now) }
    {
        match self.append(rt, replica, change) {
            Ok(Some((kept, layout))) => {
                self.held = kept;
                self.layout = Some(layout);
                self.lasts = true;
                Ok(true)
            }
            Ok(None) => Ok(false),
            Err(Fault::Memory) => Err(Fault::Memory),
            Err(fault) => {
                self.layout = None;
                self.lasts = false;
                Err(fault)
            }
        }
    }

    // Keeps this replica as `replace_on` does; where no file can be written beside this one, as a record behind the
    // others, however many these are.
    fn replace_or_append(
        &mut self,
        rt: &H,
        replica: &Replica<S>,
        change: &Change<'_, S>,
    ) -> Result<(), Fault>
        requires changed { IsChanged self.old.kept change.now replica.now }
        ensures kept { OnOk result (self.new ≡ record { path = self.old.path; kept = replica.now }) }
        ensures same { OnErr result (self.new ≡ self.old) }
        ensures fault { IfErr result (IsUnkept replica.now) }
    {
        let layout = self.layout;
        match self.replace_on(rt, replica) {
            Err(Fault::Device) => {}
            answer => return answer,
        }
        let Some(layout) = layout else {
            return Err(Fault::Device);
        };
        self.layout = Some(layout);
        self.put_off = layout.whole.saturating_mul(2);
        if self.append_on(rt, replica, change)? {
            Ok(())
        } else {
            Err(Fault::Device)
        }
    }

    /// What became of the file: others may have moved it, removed it or written over it. Where that can't be found it
    /// counts as lost.
    pub fn whereabouts(&self, rt: &H) -> Whereabouts {
        locate(rt, self.target.path(), &self.file, self.length()).unwrap_or(Whereabouts::Lost)
    }

    // Refuses `Device` where others put another file at the path, or wrote to this one.
    fn check_standing(&self, rt: &H) -> Result<(), Fault>
        ensures fault { IfErr result (λ e. e ≡ Device) }
    {
        check_standing(rt, self.target.path(), &self.file, self.length())
    }

    // How many bytes the file has, where that is known.
    fn length(&self) -> Option<u64> {
        let layout = self.layout;
        match layout {
            Some(layout) => Some(layout.length),
            None => None,
        }
    }

    // Syncs what the file holds, and its folder, where that wasn't done since it was locked.
    fn make_sure(&mut self, rt: &H) -> Result<(), Fault>
        ensures same { self.new ≡ self.old }
        ensures fault { IfErr result (λ e. e ≡ Device) }
    {
        if !self.lasts {
            make_last(rt, self.target.path(), &self.file)?;
            self.lasts = true;
        }
        Ok(())
    }

    /// Keeps this replica in the file in place of the one that it holds, as `replace` does, and holds the lock on:
    /// FILE.new is locked before it is renamed. `Device` also where others put another file at the path meanwhile, or
    /// wrote to this one.
    pub fn replace_on(&mut self, rt: &H, replica: &Replica<S>) -> Result<(), Fault>
        ensures kept { OnOk result (self.new ≡ record { path = self.old.path; kept = replica.now }) }
        ensures same { OnErr result (self.new ≡ self.old) }
        ensures fault { IfErr result (IsUnkept replica.now) }
        ensures limit { OnOk result (length (snapshot_text replica.now) ≤ LIMIT) }
        ensures long { LIMIT < length (snapshot_text replica.now) → IfErr result IsTooLongOrLost }
    {
        let length = self.length();
        self.layout = None;
        self.lasts = false;
        let Renewed { kept, layout } = renew(
            rt,
            replica,
            self.target.path(),
            &mut self.file,
            length,
        )?;
        self.held = kept;
        self.layout = Some(layout);
        self.lasts = true;
        self.put_off = 0;
        Ok(())
    }
}

// Whether a change changes nothing.
fn is_nothing<S: DotSet>(change: &Change<'_, S>) -> bool
    ensures { IsTrue result → (change.now.roster ≡ None) × (size change.now.delta ≡ 0) }
{
    change.roster.is_none() && change.delta.components() == 0
}

/// A replica that is kept in the file of a path in place of another, which was read there under the file's lock. Only
/// `EmptiedFile::keep` and `EmptiedFile::replace` make one, and nothing changes it. What the file held before is seen
/// by contracts alone.
#[derive(Drop)]
pub struct ReplacedFile<'a, S: DotSet> {
    path: &'a str,
    before: WasKept<S>,
    kept: Kept<S>,
}

impl<'a, S: DotSet> Model for ReplacedFile<'a, S> {
    ghost use Rattle.rds_files.specs.Files.{ReplacedValue, coded_replaced};

    ghost Value = { ReplacedValue };

    ghost coded = { coded_replaced };

    ghost view = { λ f. record { path = f.path.now; before = f.before; kept = f.kept } };
}

impl<'a, S: DotSet> ReplacedFile<'a, S> {
    /// The replica.
    pub fn kept(&self) -> &Kept<S>
        ensures { result.now ≡ self.now.kept }
    {
        &self.kept
    }
}

/// A replica that was written whole to a new file of a path. Only `create` makes one, and nothing changes it.
#[derive(Drop)]
pub struct CreatedFile<'a, S: DotSet> {
    path: &'a str,
    kept: Kept<S>,
}

impl<'a, S: DotSet> Model for CreatedFile<'a, S> {
    ghost use Rattle.rds_files.specs.Files.{KeptFile, coded_kept_file};

    ghost Value = { KeptFile };

    ghost coded = { coded_kept_file };

    ghost view = { λ f. record { path = f.path.now; kept = f.kept } };
}

impl<'a, S: DotSet> CreatedFile<'a, S> {
    /// Makes the file of this path. It holds the lock of the folder while it does, so that of two at once one is
    /// refused. Refuses `Usage` where the path ends in `.new` or something is there, be it a link that leads nowhere,
    /// and else as `EmptiedFile::replace` does.
    pub fn create<H: Disk>(
        rt: &H,
        path: &'a str,
        replica: Replica<S>,
    ) -> Result<CreatedFile<'a, S>, Fault>
    where
        H::File: LockFile,
        ensures made { IfOk result (λ file. file ≡ record { path = path.now; kept = replica }) }
        ensures place { IfOk result (λ _. is_beside path.now ≡ false) }
        ensures beside { is_beside path.now ≡ true → result ≡ Err Usage }
        ensures fault { IfErr result (RefusesFile replica) }
        ensures limit { OnOk result (length (snapshot_text replica) ≤ LIMIT) }
        ensures long { LIMIT < length (snapshot_text replica)
            → IfErr result (λ fault. IsTooLongOrLost fault ⊎ MakesNoFile fault) }
    {
        if is_beside(path) {
            let _ = eprintln!(rt; "{path}: ends in .new, as a file that is written beside another");
            return Err(Fault::Usage);
        }
        let _folder = lock(rt, folder_of(path))?;
        if is_there(rt, path)? {
            let _ = eprintln!(rt; "{path}: is there already");
            return Err(Fault::Usage);
        }
        let kept = keep_new(rt, replica, path)?;
        Ok(CreatedFile { path, kept })
    }

    /// The replica.
    pub fn kept(&self) -> &Kept<S>
        ensures { result.now ≡ self.now.kept }
    {
        &self.kept
    }
}

/// Whether a path ends in `.new`, as that of a file does that is written beside another.
pub fn is_beside(path: &str) -> bool
    ensures { result ≡ is_beside path.now }
{
    path.as_bytes().ends_with(b".new")
}

/// Whether something is at this path, be it a link that leads nowhere. `Device` where that can't be found.
pub fn is_there<H: Disk>(rt: &H, path: &str) -> Result<bool, Fault>
    ensures fault { IfErr result (λ e. e ≡ Device) }
{
    match fs::symlink_metadata(rt, path) {
        Ok(_) => Ok(true),
        Err(error) if error.kind() == ErrorKind::NotFound => Ok(false),
        Err(error) => {
            note(rt, "cannot find what is at", path, &error);
            Err(Fault::Device)
        }
    }
}

// A file that is written beside another isn't replaced, whatever link leads to it.
fn check_target<H: Disk>(rt: &H, path: &str, target: &Target<'_>) -> Result<(), Fault>
    ensures fault { IfErr result (λ e. e ≡ Device) }
{
    if is_beside(target.path()) {
        let place = target.path();
        let _ = eprintln!(rt;
            "{path}: leads to {place}, which ends in .new, as a file that is written beside another"
        );
        return Err(Fault::Device);
    }
    Ok(())
}

// A file that nobody may write isn't replaced either.
fn check_writable<H: Disk>(rt: &H, path: &str, file: &H::File) -> Result<(), Fault>
where
    H::File: LockFile,
    ensures fault { IfErr result (λ e. e ≡ Device) }
{
    match file.is_read_only() {
        Ok(false) => Ok(()),
        Ok(true) => {
            let _ = eprintln!(rt; "{path}: its mode lets nobody write it");
            Err(Fault::Device)
        }
        Err(error) => {
            note(rt, "cannot read the mode of", path, &error);
            Err(Fault::Device)
        }
    }
}

// Nor is one of several names: the others would stay with what it held before.
fn check_alone<H: Disk>(rt: &H, path: &str, file: &H::File) -> Result<(), Fault>
where
    H::File: LockFile,
    ensures fault { IfErr result (λ e. e ≡ Device) }
{
    match file.links() {
        Ok(links) if links > 1 => {
            let _ = eprintln!(rt;
                "{path}: has {links} names (hard links), which can't be kept together: remove the others or copy it"
            );
            Err(Fault::Device)
        }
        Ok(_) => Ok(()),
        Err(error) => {
            note(rt, "cannot count the names of", path, &error);
            Err(Fault::Device)
        }
    }
}

// Whether it isn't written beside another, and it is known that somebody may write it and that it has no other name.
fn is_replaceable<F: LockFile>(target: &Target<'_>, file: &F) -> bool {
    !is_beside(target.path())
        && matches!(file.is_read_only(), Ok(false))
        && matches!(file.links(), Ok(0 | 1))
}
