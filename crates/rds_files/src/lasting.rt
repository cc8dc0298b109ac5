//! Making what was read from a file last.
ghost use Rattle.std.specs.Prelude.{◌≡◌, IfErr};
ghost use Rattle.rds_names.specs.declared.fault.Fault.TheVariants.{Device};

use crate::beside::{folder_of, is_unsupported};
use crate::disk::{Disk, note};
use rds_names::Fault;
use std::fs::OpenFile;
use std::io::ErrorKind;
use std::{fs, io};

/// Syncs the file at this place and its folder, so that a loss of power doesn't take back what was read from it.
/// Another command may have renamed it there, and not have synced the folder yet. `Device` where that fails. A file
/// system that syncs neither, or is read alone, isn't reported.
pub fn make_last<H: Disk>(rt: &H, place: &str, file: &H::File) -> Result<(), Fault>
    ensures fault { IfErr result (λ e. e ≡ Device) }
{
    if let Err(error) = sync_if_can(file) {
        note(rt, "cannot sync", place, &error);
        return Err(Fault::Device);
    }
    if let Err(error) = sync_folder(rt, folder_of(place)) {
        note(rt, "cannot sync the folder of", place, &error);
        return Err(Fault::Device);
    }
    Ok(())
}

fn sync_folder<H: Disk>(rt: &H, folder: &str) -> io::Result<()> {
    sync_if_can(&fs::open(rt, folder)?)
}

fn sync_if_can<F: OpenFile>(file: &F) -> io::Result<()> {
    match file.sync_all() {
        Err(error) if !is_unsynced(error.kind()) => Err(error),
        _ => Ok(()),
    }
}

// What a file system answers that has nothing to sync.
fn is_unsynced(kind: ErrorKind) -> bool {
    is_unsupported(kind) || matches!(kind, ErrorKind::ReadOnlyFilesystem)
}
