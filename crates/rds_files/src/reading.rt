//! Reading the replica that a file holds.
ghost use Rattle.std.specs.Prelude.{◌≡◌, ◌<◌, length, IfOk, IfErr, IfSome};
ghost use Rattle.rds_names.specs.declared.fault.Fault.TheVariants.{Device, TooLong};
ghost use Rattle.rds_codec.specs.StateTexts.{IsSnapshot};
ghost use Rattle.rds_codec.specs.declared.limits.TheConstants.{LIMIT};
ghost use Rattle.rds_files.specs.Files.{HoldsTooMuch, IsUnreadFile};

use crate::disk::{Disk, note};
use crate::lasting::make_last;
use crate::targets::Target;
use rds_dots::DotSet;
use rds_keep::{Layout, Reading, Refused, Stored, read_stored};
use rds_names::Fault;
use std::fs;
use std::io::Read;

/// Reads the replica in the file of this path as it is now.
pub fn read_now<H: Disk, S: DotSet>(rt: &H, path: &str) -> Result<Stored<S>, Fault>
    ensures value { IfOk result (λ stored. IsSnapshot stored.kept) }
    ensures fault { IfErr result IsUnreadFile }
    ensures long { IfErr result (λ fault. fault ≡ TooLong → HoldsTooMuch H.File.remaining) }
{
    let (_file, stored) = read_unlocked(rt, path, path)?;
    Ok(stored)
}

/// Reads the replica in the file that this path leads to, and makes it last.
pub fn read_to_last<H: Disk, S: DotSet>(rt: &H, path: &str) -> Result<Stored<S>, Fault>
    ensures value { IfOk result (λ stored. IsSnapshot stored.kept) }
    ensures fault { IfErr result IsUnreadFile }
    ensures long { IfErr result (λ fault. fault ≡ TooLong → HoldsTooMuch H.File.remaining) }
{
    let target = Target::find(rt, path)?;
    let (file, stored) = read_unlocked(rt, path, target.path())?;
    make_last(rt, target.path(), &file)?;
    Ok(stored)
}

// Opens the file of this path, which stands at that place, and reads the replica in it. Where it is damaged or has a torn
// end it is read once more: another command may have been at work on it, since this one has no lock.
fn read_unlocked<H: Disk, S: DotSet>(
    rt: &H,
    path: &str,
    place: &str,
) -> Result<(H::File, Stored<S>), Fault>
    ensures value { IfOk result (λ read. IsSnapshot read.1.kept) }
    ensures fault { IfErr result IsUnreadFile }
    ensures long { IfErr result (λ fault. fault ≡ TooLong → HoldsTooMuch H.File.remaining) }
{
    let mut file = open_file(rt, place)?;
    match read_stored(rt.alloc(), &mut Reading::new(&mut file)) {
        Ok(stored) if !is_torn(&stored.layout) => Ok((file, stored)),
        Ok(_) => read_again(rt, path, place),
        Err(refused) if is_damage(&refused) => read_again(rt, path, place),
        Err(refused) => Err(told(rt, path, refused)),
    }
}

fn read_again<H: Disk, S: DotSet>(
    rt: &H,
    path: &str,
    place: &str,
) -> Result<(H::File, Stored<S>), Fault>
    ensures value { IfOk result (λ read. IsSnapshot read.1.kept) }
    ensures fault { IfErr result IsUnreadFile }
    ensures long { IfErr result (λ fault. fault ≡ TooLong → HoldsTooMuch H.File.remaining) }
{
    let mut file = open_file(rt, place)?;
    let stored = read_kept(rt, path, &mut file)?;
    Ok((file, stored))
}

fn open_file<H: Disk>(rt: &H, place: &str) -> Result<H::File, Fault>
    ensures fault { IfErr result (λ e. e ≡ Device) }
{
    match fs::open(rt, place) {
        Ok(file) => Ok(file),
        Err(error) => {
            note(rt, "cannot open", place, &error);
            Err(Fault::Device)
        }
    }
}

/// Reads the replica that a file of this path holds.
pub fn read_kept<H: Disk, S: DotSet, R: Read>(
    rt: &H,
    path: &str,
    file: &mut R,
) -> Result<Stored<S>, Fault>
    ensures value { IfOk result (λ stored. IsSnapshot stored.kept) }
    ensures fault { IfErr result IsUnreadFile }
    ensures long { IfErr result
        (λ fault. fault ≡ TooLong → IfSome (R.remaining file.old) (λ input. LIMIT < length input)) }
{
    match read_stored(rt.alloc(), &mut Reading::new(file)) {
        Ok(stored) => {
            note_torn(rt, path, &stored.layout);
            Ok(stored)
        }
        Err(refused) => Err(told(rt, path, refused)),
    }
}

// Whether a torn end stands behind the whole records.
fn is_torn(layout: &Layout) -> bool {
    layout.whole < layout.length
}

// Tells how much of a file is passed over, since it is no whole record.
fn note_torn<H: Eprint>(rt: &H, path: &str, layout: &Layout) {
    if is_torn(layout) {
        let whole = layout.whole;
        let count = layout.length.saturating_sub(whole);
        let _ = eprintln!(rt;
            "{path}: passes over {count} bytes from byte {whole} on: no whole record, as a crash or a cut copy leaves"
        );
    }
}

// Whether it is behind a whole snapshot that the bytes are refused.
fn is_damage(refused: &Refused) -> bool {
    refused.at > 0 && matches!(refused.fault, Fault::Bad)
}

// Tells why a file gives no replica, and answers that: it can't be read, or what it holds is none, or is damaged behind
// a whole one.
fn told<H: Eprint>(rt: &H, path: &str, refused: Refused) -> Fault
    ensures { result ≡ refused.fault }
{
    let Refused { fault, at } = refused;
    let _ = match fault {
        Fault::Device | Fault::Memory => eprintln!(rt; "{path}: can't be read: {fault}"),
        Fault::Bad if at > 0 => eprintln!(rt; "{path}: damaged at byte {at}"),
        Fault::Bad => eprintln!(rt;
            "{path}: isn't an rds file, or its snapshot is damaged: {fault}"
        ),
        _ => eprintln!(rt; "{path}: isn't an rds file: {fault}"),
    };
    fault
}
