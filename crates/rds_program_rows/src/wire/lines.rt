//! An input that comes a line at a time, as from one who waits for each answer.
use crate::calls::Calls;
use std::io::{self, Read};

/// The lines that are still to come.
#[derive(Drop)]
pub struct Lines<'a> {
    calls: &'a Calls<'a>,
    rest: &'a [u8],
}

impl<'a> Lines<'a> {
    /// No line came yet.
    pub fn new(calls: &'a Calls<'a>, input: &'a [u8]) -> Lines<'a> {
        Lines { calls, rest: input }
    }

    // How many bytes the next line has, with its end.
    fn next_length(&self) -> usize {
        match self.rest.iter().position(|byte| *byte == b'\n') {
            Some(at) => at.saturating_add(1),
            None => self.rest.len(),
        }
    }
}

impl Read for Lines<'_> {
    fn read(&mut self, buf: &mut [u8]) -> io::Result<usize> {
        self.calls.call("read", "input")?;
        let count = self.next_length().min(self.rest.len()).min(buf.len());
        let (front, rest) = self.rest.split_at(count);
        buf[..count].copy_from_slice(front);
        self.rest = rest;
        Ok(count)
    }
}
