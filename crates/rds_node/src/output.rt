//! The standard output, and what is reported where it can't be written.
use std::io::{self, Error, ErrorKind, Write};

/// The standard output. The first call on it that fails is reported on standard error, but not that its reader went
/// away.
#[derive(Drop)]
pub struct Output<'a, H> {
    rt: &'a H,
    is_told: bool,
}

impl<'a, H> Output<'a, H> {
    /// No call failed yet.
    pub fn new(rt: &'a H) -> Output<'a, H> {
        Output { rt, is_told: false }
    }
}

impl<H: Eprint> Output<'_, H> {
    // Tells why a call failed, unless that was reported of another one.
    fn told(&mut self, error: Error) -> Error {
        if !self.is_told && error.kind() != ErrorKind::BrokenPipe {
            self.is_told = true;
            let _ = eprintln!(self.rt; "rds_node: standard output can't be written: {error}");
        }
        error
    }
}

impl<H: Print + Eprint> Write for Output<'_, H> {
    fn write(&mut self, buf: &[u8]) -> io::Result<usize> {
        match io::writer(self.rt).write(buf) {
            Ok(count) => Ok(count),
            Err(error) => Err(self.told(error)),
        }
    }

    fn flush(&mut self) -> io::Result<()> {
        Ok(())
    }
}
