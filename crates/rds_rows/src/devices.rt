//! A reader and a writer in memory that give and take a few bytes a call, and fail at one.
use std::io;
use std::io::{ErrorKind, Read, Write};

/// How many bytes a call gives or takes at most, and the number of the call that fails; no call has the number 0.
#[derive(Clone, Copy, Debug, PartialEq, Eq)]
pub struct Manner {
    pub most: usize,
    pub fails_at: u64,
}

impl Manner {
    /// A byte a call, of which the one with this number fails.
    pub fn byte_a_call(fails_at: u64) -> Manner {
        Manner { most: 1, fails_at }
    }
}

/// The calls so far, and their manner.
#[derive(Clone, Copy)]
struct Calls {
    made: u64,
    manner: Manner,
}

impl Calls {
    fn new(manner: Manner) -> Calls {
        Calls { made: 0, manner }
    }

    /// How many bytes the next call gives or takes at most.
    fn next(&mut self) -> io::Result<usize> {
        self.made = self.made.saturating_add(1);
        if self.made == self.manner.fails_at {
            return Err(io::Error::from(ErrorKind::Other));
        }
        Ok(self.manner.most)
    }
}

/// A stream of bytes.
#[derive(Drop)]
pub struct Drip<'a> {
    rest: &'a [u8],
    calls: Calls,
}

impl<'a> Drip<'a> {
    /// Gives these bytes.
    pub fn new(bytes: &'a [u8], manner: Manner) -> Drip<'a> {
        Drip {
            rest: bytes,
            calls: Calls::new(manner),
        }
    }
}

impl Read for Drip<'_> {
    fn read(&mut self, buf: &mut [u8]) -> io::Result<usize> {
        let most = self.calls.next()?;
        let count = most.min(self.rest.len()).min(buf.len());
        let (front, rest) = self.rest.split_at(count);
        buf[..count].copy_from_slice(front);
        self.rest = rest;
        Ok(count)
    }
}

/// A place for bytes.
#[derive(Drop)]
pub struct Shelf<'a> {
    bytes: &'a mut Vec<u8>,
    calls: Calls,
}

impl<'a> Shelf<'a> {
    /// Writes behind these bytes.
    pub fn new(bytes: &'a mut Vec<u8>, manner: Manner) -> Shelf<'a> {
        Shelf {
            bytes,
            calls: Calls::new(manner),
        }
    }

    /// A call that takes no bytes.
    pub fn call(&mut self) -> io::Result<()> {
        self.calls.next()?;
        Ok(())
    }
}

impl Write for Shelf<'_> {
    fn write(&mut self, buf: &[u8]) -> io::Result<usize> {
        let most = self.calls.next()?;
        let count = most.min(buf.len());
        self.bytes.extend_from_slice(&buf[..count])?;
        Ok(count)
    }

    fn flush(&mut self) -> io::Result<()> {
        Ok(())
    }
}
