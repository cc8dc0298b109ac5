//! The end of a file, to which records are appended.
ghost use Rattle.std.specs.Prelude.{◌≡◌, ◌⊎◌, ◌-◌, ◌^◌, None, IfErr, IfOk, IfSome};
ghost use Rattle.rds_names.specs.declared.fault.Fault.TheVariants.{Device, Unsure};
ghost use Rattle.rds_keep.specs.Kept.{IsStored};

use crate::beside::{folder_of, is_unsupported};
use crate::disk::{Disk, note};
use crate::locks::LockFile;
use rds_codec::Format;
use rds_dots::DotSet;
use rds_journal::{Device, DeviceError};
use rds_keep::{Changed, Layout, WasKept};
use rds_names::Fault;
use std::fs::{OpenFile, OpenOptions};
use std::io::ErrorKind;
use std::{fs, io};

/// How many bytes of records a file may have, however short its snapshot is.
const LEAST: u64 = 65_536;

/// Whether one more record of so many bytes is worth its place: the snapshot is of format 2, and the records are then
/// no longer than it, or than 64 kB.
pub fn takes_record(layout: &Layout, count: usize) -> bool {
    let records = layout.whole.saturating_sub(layout.snapshot);
    let most = layout.snapshot.max(LEAST);
    matches!(layout.format, Format::Two) && records.saturating_add(count as u64) <= most
}

/// Whether the file takes records up to so many bytes, however short its snapshot is. Behind one of format 1 it takes
/// none.
pub fn is_put_off(layout: &Layout, most: u64) -> bool {
    matches!(layout.format, Format::Two) && layout.whole < most
}

/// Appends the record of a change. There is nothing where the file would be too long.
pub fn append_to<D: Device, S: DotSet>(
    device: &mut D,
    changed: Changed<S>,
    layout: &Layout,
) -> Result<Option<(WasKept<S>, Layout)>, Fault>
    requires stored { IfSome (D.seen device.old) (λ file. IsStored file changed.before layout.now) }
    ensures kept { IfOk result (λ some. IfSome some (λ appended. appended.0 ≡ changed.after)) }
    ensures fault { IfErr result (λ e. (e ≡ Device) ⊎ (e ≡ Unsure)) }
{
    match changed.append(device, layout) {
        Ok(appended) => Ok(Some(appended)),
        Err(Fault::TooLong) => Ok(None),
        Err(fault) => Err(fault),
    }
}

/// A file that was opened for writing, and its folder where that is synced too. A call that fails is reported on
/// standard error.
#[derive(Drop)]
pub struct Tail<'a, H: Disk> {
    rt: &'a H,
    path: &'a str,
    file: H::File,
    folder: Option<H::File>,
}

impl<'a, H: Disk> Tail<'a, H>
where
    H::File: LockFile,
{
    /// Opens what is at this path for writing. There is none where it isn't the locked file, or can't be opened so.
    /// Where the folder is to be synced too, it is opened now: what can't be synced at the end isn't begun.
    pub fn open(
        rt: &'a H,
        path: &'a str,
        locked: &H::File,
        with_folder: bool,
    ) -> Option<Tail<'a, H>> {
        match open_both(rt, path, with_folder) {
            Ok((file, folder)) if matches!(file.is_same(locked), Ok(true)) => Some(Tail {
                rt,
                path,
                file,
                folder,
            }),
            _ => None,
        }
    }
}

// Nothing is known of what stands in it, nor of what a crash leaves of it, and its failures aren't counted.
impl<H: Disk> Device for Tail<'_, H>
where
    H::File: LockFile,
{
    ghost seen = { λ _. None };

    ghost may_leave = { λ _ _. ⊥ };

    ghost moment = { λ _. 0 };

    ghost left_since = { λ _ _ _. ⊥ };

    ghost faults = { λ _. 2 ^ 64 - 1 };

    fn write_at(&mut self, at: u64, bytes: &[u8]) -> Result<(), DeviceError> {
        match write_all_at(&self.file, at, bytes) {
            Ok(()) => Ok(()),
            Err(error) => Err(self.told("cannot write", &error)),
        }
    }

    fn cut(&mut self, end: u64) -> Result<(), DeviceError> {
        match self.file.set_len(end) {
            Ok(()) => Ok(()),
            Err(error) => Err(self.told("cannot cut off the torn end of", &error)),
        }
    }

    fn sync(&mut self) -> Result<(), DeviceError> {
        if let Err(error) = self.file.sync_data() {
            return Err(self.told("cannot sync", &error));
        }
        match &self.folder {
            Some(folder) => self.sync_folder(folder),
            None => Ok(()),
        }
    }

    ghost counts_now = { λ _ _ _ _ left. left };

    ghost only_now = { λ _ _ left. left };
}

impl<H: Disk> Tail<'_, H> {
    // Syncs the folder, and tells where that fails.
    fn sync_folder(&self, folder: &H::File) -> Result<(), DeviceError> {
        match sync_folder(folder) {
            Ok(()) => Ok(()),
            Err(error) => Err(self.told("cannot sync the folder of", &error)),
        }
    }

    // A call failed, which is reported.
    fn told(&self, what: &str, error: &io::Error) -> DeviceError {
        note(self.rt, what, self.path, error);
        DeviceError
    }
}

/// Writes all of the bytes at this place.
pub fn write_all_at<F: LockFile>(file: &F, at: u64, bytes: &[u8]) -> io::Result<()> {
    let mut place = at;
    let mut rest = bytes;
    'writing: while !rest.is_empty() {
        let count = file.write_at(place, rest)?;
        if count == 0 {
            return Err(io::Error::from(ErrorKind::WriteZero));
        }
        place = place.saturating_add(count as u64);
        rest = &rest[count..];
    }
    Ok(())
}

// The file of this path, for writing, and its folder where that is asked for.
fn open_both<H: Disk>(
    rt: &H,
    path: &str,
    with_folder: bool,
) -> io::Result<(H::File, Option<H::File>)> {
    let folder = if with_folder {
        Some(fs::open(rt, folder_of(path))?)
    } else {
        None
    };
    let file = OpenOptions::new().write(true).open(rt, path)?;
    Ok((file, folder))
}

// Syncs the folder: another command may have renamed the file there, and have ended before it synced that. Some file
// systems can't, and that isn't reported.
fn sync_folder<F: OpenFile>(folder: &F) -> io::Result<()> {
    match folder.sync_all() {
        Err(error) if !is_unsupported(error.kind()) => Err(error),
        _ => Ok(()),
    }
}
