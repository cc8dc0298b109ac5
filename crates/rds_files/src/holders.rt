//! The note that a node has beside its file, by which a command knows who has the file's lock.
ghost use Rattle.std.specs.Prelude.{◌≡◌, IfErr, IfSome};
ghost use Rattle.std.specs.Char.{is_ascii_graphic};
ghost use Rattle.std.specs.List.{list_all};
ghost use Rattle.rds_names.specs.declared.fault.Fault.TheVariants.{Device};
ghost use Rattle.rds_files.specs.Holders.{TellsAddress, is_address, is_note};

use crate::appending::write_all_at;
use crate::disk::{Disk, note};
use crate::locks::{LockFile, lock, lock_if_free};
use crate::targets::Target;
use rds_names::Fault;
use std::alloc::Global;
use std::fs::{OpenFile, OpenOptions};
use std::io::{ErrorKind, Read};
use std::net::SocketAddr;
use std::time::Duration;
use std::{fs, io, thread};

/// A note has no more bytes.
const LONGEST: u64 = 512;

/// An address that is shown has no more bytes.
const LONGEST_ADDRESS: usize = 200;

/// How many times a node tries for the lock of its note, which a command that looks at it may have for a moment.
const TRIES: u32 = 100;

/// How many milliseconds it waits between two tries.
const PAUSE: u64 = 10;

/// The note of a node that has a file: FILE.node, with one line, `rds_node http://ADDR/`. Its exclusive lock is held as
/// long as this is. The note stays, and nobody minds it whose lock is free.
pub struct HolderNote<H: Disk> {
    file: H::File,
}

// Written out, so that where it is let go a caller's proof has one call.
impl<H: Disk> Drop for HolderNote<H> {
    fn drop(self) {
        let HolderNote { file: _file } = self;
    }
}

impl<H: Disk> HolderNote<H>
where
    H::File: LockFile,
{
    /// Writes the note of a node that has the file of this path, and is reached at this address. Where the path is a
    /// link's, it is the note of the file which the link leads to.
    ///
    /// A note is made where nothing is there, and else written over an old one, or over a file without a byte. Anything
    /// else stays as it is: a file that doesn't begin with `rds_node http`, has more than 512 bytes or several names, a
    /// link, a folder. There is none then, nor where a call on it fails, and a line on standard error says so.
    pub fn write(rt: &H, path: &str, address: SocketAddr) -> Option<HolderNote<H>> {
        let target = Target::find(rt, path).ok()?;
        let place = target.path();
        match hold_note(rt, place, address) {
            Ok(Some(file)) => Some(HolderNote { file }),
            Ok(None) => {
                let _ = eprintln!(rt;
                    "{place}.node: isn't the note of a node, and stays: commands aren't told of this node"
                );
                None
            }
            Err(error) => {
                note(
                    rt,
                    "commands aren't told of this node: cannot write a note beside",
                    place,
                    &error,
                );
                None
            }
        }
    }
}

/// Opens the file at this path, and locks it. Where a node has it, its address is reported, and that is `Device` at
/// once. Another command is waited for, as `lock` does.
pub fn lock_file<H: Disk>(rt: &H, path: &str) -> Result<H::File, Fault>
where
    H::File: LockFile,
    ensures fault { IfErr result (λ e. e ≡ Device) }
{
    if let Some(file) = lock_if_free(rt, path)? {
        return Ok(file);
    }
    if let Ok(Some(address)) = holder_of(rt, path) {
        let _ = eprintln!(rt; "{path}: held by a node at {address}");
        return Err(Fault::Device);
    }
    lock(rt, path)
}

// The address of the node that has the file at this path. There is none where no note says so, or its lock is free.
fn holder_of<H: Disk>(rt: &H, path: &str) -> io::Result<Option<String>>
where
    H::File: LockFile,
{
    let name = note_of(rt.alloc(), path)?;
    if !fs::symlink_metadata(rt, name.as_str())?.is_file() {
        return Ok(None);
    }
    let mut file = fs::open(rt, name.as_str())?;
    if file.try_share_lock()? {
        return Ok(None);
    }
    let bytes = read_note(rt.alloc(), &mut file)?;
    match address_in(&bytes) {
        Some(address) => Ok(Some(String::from_str(rt.alloc(), address)?)),
        None => Ok(None),
    }
}

// Writes the note of a node, which is locked. There is none where something else is there.
fn hold_note<H: Disk>(rt: &H, path: &str, address: SocketAddr) -> io::Result<Option<H::File>>
where
    H::File: LockFile,
{
    let name = note_of(rt.alloc(), path)?;
    let line = format!(in rt.alloc(); "rds_node http://{address}/\n")?;
    let Some(file) = open_note(rt, name.as_str())? else {
        return Ok(None);
    };
    write_all_at(&file, 0, line.as_bytes())?;
    file.set_len(line.len() as u64)?;
    Ok(Some(file))
}

// The name of the note of the file at this path.
fn note_of(alloc: Global, path: &str) -> io::Result<String> {
    Ok(format!(in alloc; "{path}.node")?)
}

// Opens the note of this name, which is made where nothing is there, and locks it. There is none where something else
// is there.
fn open_note<H: Disk>(rt: &H, name: &str) -> io::Result<Option<H::File>>
where
    H::File: LockFile,
{
    let made = OpenOptions::new()
        .read(true)
        .write(true)
        .create_new(true)
        .open(rt, name);
    match made {
        Ok(file) => {
            lock_note(rt, &file)?;
            Ok(Some(file))
        }
        Err(error) if error.kind() == ErrorKind::AlreadyExists => open_old(rt, name),
        Err(error) => Err(error),
    }
}

// Opens the note that was left behind under this name, and locks it. There is none where it isn't one.
fn open_old<H: Disk>(rt: &H, name: &str) -> io::Result<Option<H::File>>
where
    H::File: LockFile,
{
    if !fs::symlink_metadata(rt, name)?.is_file() {
        return Ok(None);
    }
    let mut file = OpenOptions::new().read(true).write(true).open(rt, name)?;
    lock_note(rt, &file)?;
    let bytes = read_note(rt.alloc(), &mut file)?;
    Ok(if is_note(&bytes) && file.links()? == 1 {
        Some(file)
    } else {
        None
    })
}

// Takes the lock of a note, which a command that looks at it may have for a moment.
fn lock_note<H: Disk>(rt: &H, file: &H::File) -> io::Result<()>
where
    H::File: LockFile,
{
    'tries: for _ in 0..TRIES {
        if file.try_lock_exclusive()? {
            return Ok(());
        }
        thread::sleep(rt, Duration::from_millis(PAUSE));
    }
    Err(io::Error::from(ErrorKind::WouldBlock))
}

// What a note holds, and of a file that is longer one byte more.
fn read_note<R: Read>(alloc: Global, file: &mut R) -> io::Result<Vec<u8>> {
    let mut bytes = Vec::new(alloc);
    file.by_ref().take(LONGEST + 1).read_to_end(&mut bytes)?;
    Ok(bytes)
}

// Whether a file is the note of a node, or was to become one.
fn is_note(bytes: &[u8]) -> bool
    ensures { result ≡ is_note bytes.now }
{
    bytes.len() as u64 <= LONGEST && (bytes.is_empty() || bytes.starts_with(b"rds_node http"))
}

// The address that a note tells, where it may be shown.
fn address_in(note: &[u8]) -> Option<&str>
    ensures told { IfSome result (λ address. TellsAddress note.now address.now) }
{
    if !is_note(note) {
        return None;
    }
    let rest = note.strip_prefix(b"rds_node ")?;
    let Ok(text) = str::from_utf8(rest) else {
        return None;
    };
    let (address, _) = text.split_once('\n')?;
    if is_address(address.as_bytes()) {
        Some(address)
    } else {
        None
    }
}

// Whether it is an address that may be shown: it is short, and nothing in it moves a terminal.
fn is_address(text: &[u8]) -> bool
    ensures { result ≡ is_address text.now }
{
    text.len() <= LONGEST_ADDRESS && text.starts_with(b"http") && are_printable(text)
}

fn are_printable(text: &[u8]) -> bool
    ensures { result ≡ list_all is_ascii_graphic text.now }
{
    text.iter().all(|byte| byte.is_ascii_graphic())
}
