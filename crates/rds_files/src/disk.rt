//! What the files of replicas need of the system, and what people are told where a call on it fails.
use std::io;
use std::rt::Files;
use std::time::Clock;

/// A system with files, a clock to wait by, a standard error, and memory.
pub trait Disk: Files + Clock + Eprint + AllocGlobal {}

impl<H: Files + Clock + Eprint + AllocGlobal> Disk for H {}

/// Tells on standard error which call failed, on what, and what the system said. Whether that can be told changes
/// nothing.
pub fn note<H: Eprint>(rt: &H, what: &str, name: &str, error: &io::Error) {
    let _ = eprintln!(rt; "{what} {name}: {error}");
}
