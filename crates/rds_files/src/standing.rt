//! What stands at the path of a file that is held.
ghost use Rattle.std.specs.Prelude.{◌≡◌, IfErr};
ghost use Rattle.rds_names.specs.declared.fault.Fault.TheVariants.{Device};

use crate::disk::{Disk, note};
use crate::locks::LockFile;
use crate::targets::Target;
use rds_names::Fault;
use std::fs::OpenOptions;
use std::io::ErrorKind;
use std::{fs, io};

/// Refuses `Device` where another file stands at the path than the one that is held, where that one has another name by
/// now, or hasn't the length that is known: what others put there or moved away isn't to be lost, nor forked. Where it
/// was removed, nothing would be. Standard error says why.
pub fn check_standing<H: Disk>(
    rt: &H,
    path: &str,
    held: &H::File,
    length: Option<u64>,
) -> Result<(), Fault>
where
    H::File: LockFile,
    ensures fault { IfErr result (λ e. e ≡ Device) }
{
    match change_at(rt, path, held, length) {
        Ok(None) => Ok(()),
        Ok(Some(change)) => {
            let _ = eprintln!(rt; "{path}: {change}, and is left as it is");
            Err(Fault::Device)
        }
        Err(error) => {
            note(rt, "cannot open", path, &error);
            Err(Fault::Device)
        }
    }
}

/// What became of a file that is held.
#[derive(Clone, Copy, Debug, PartialEq, Eq)]
pub enum Whereabouts {
    /// It stands at its path, as it was left.
    There,
    /// It has a name elsewhere, as it was left.
    Elsewhere,
    /// It has no name by now, or was written over: once it is let go, what it held is gone.
    Lost,
}

/// What became of the file that is held, and has the length that is known.
pub fn locate<H: Disk>(
    rt: &H,
    path: &str,
    held: &H::File,
    length: Option<u64>,
) -> io::Result<Whereabouts>
where
    H::File: LockFile,
{
    let is_written_over = match length {
        Some(length) => held.length()? != length,
        None => false,
    };
    if is_written_over || held.links()? == 0 {
        return Ok(Whereabouts::Lost);
    }
    match fs::open(rt, path) {
        Ok(there) if there.is_same(held)? => Ok(Whereabouts::There),
        Ok(_) => Ok(Whereabouts::Elsewhere),
        Err(error) if error.kind() == ErrorKind::NotFound => Ok(Whereabouts::Elsewhere),
        Err(error) => Err(error),
    }
}

// What others did to the file that is held.
fn change_at<H: Disk>(
    rt: &H,
    path: &str,
    held: &H::File,
    length: Option<u64>,
) -> io::Result<Option<&'static str>>
where
    H::File: LockFile,
{
    let there = match fs::open(rt, path) {
        Ok(there) => there,
        Err(error) if error.kind() == ErrorKind::NotFound => {
            let is_moved = held.links()? > 0;
            return Ok(if is_moved {
                Some("has another name by now")
            } else {
                None
            });
        }
        Err(error) => return Err(error),
    };
    if !there.is_same(held)? {
        return Ok(Some("is another file by now"));
    }
    match length {
        Some(length) if held.length()? != length => {
            Ok(Some("was written to by something that takes no lock"))
        }
        _ => Ok(None),
    }
}

/// Refuses `Device` where the file of this path can't be opened for writing, and says why on standard error.
pub fn check_writing<H: Disk>(rt: &H, path: &str) -> Result<(), Fault>
    ensures fault { IfErr result (λ e. e ≡ Device) }
{
    let target = Target::find(rt, path)?;
    match OpenOptions::new().write(true).open(rt, target.path()) {
        Ok(_file) => Ok(()),
        Err(error) => {
            note(rt, "cannot write", path, &error);
            Err(Fault::Device)
        }
    }
}
