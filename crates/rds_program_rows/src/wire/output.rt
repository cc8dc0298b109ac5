//! What the program writes, told among the calls.
use crate::calls::Calls;
use std::io::{self, Write};

/// All that was written.
#[derive(Drop)]
pub struct Output<'a> {
    calls: &'a Calls<'a>,
    pub written: Vec<u8>,
}

impl<'a> Output<'a> {
    /// Nothing was written yet.
    pub fn new(calls: &'a Calls<'a>) -> Output<'a> {
        Output {
            calls,
            written: Vec::new(calls.alloc),
        }
    }
}

impl Write for Output<'_> {
    fn write(&mut self, buf: &[u8]) -> io::Result<usize> {
        self.calls.call("write", "output")?;
        self.written.extend_from_slice(buf)?;
        Ok(buf.len())
    }

    fn flush(&mut self) -> io::Result<()> {
        Ok(())
    }
}
