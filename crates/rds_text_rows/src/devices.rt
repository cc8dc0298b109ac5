//! A place in memory.
use rds_keep::Place;
use rds_rows::devices::{Manner, Shelf};
use std::io;
use std::io::Write;

/// A text in memory whose writes, syncs and renames are calls of one manner.
#[derive(Drop)]
pub struct Sheet<'a> {
    shelf: Shelf<'a>,
    is_synced: bool,
    is_renamed: bool,
}

impl<'a> Sheet<'a> {
    /// Writes behind these bytes.
    pub fn new(bytes: &'a mut Vec<u8>, manner: Manner) -> Sheet<'a> {
        Sheet {
            shelf: Shelf::new(bytes, manner),
            is_synced: false,
            is_renamed: false,
        }
    }
}

impl Write for Sheet<'_> {
    fn write(&mut self, buf: &[u8]) -> io::Result<usize> {
        let count = self.shelf.write(buf)?;
        self.is_synced = false;
        Ok(count)
    }

    fn flush(&mut self) -> io::Result<()> {
        Ok(())
    }
}

impl Place for Sheet<'_> {
    ghost synced = { λ s. s.is_synced };

    ghost renamed = { λ s. s.is_renamed };

    fn sync(&mut self) -> io::Result<()> {
        self.shelf.call()?;
        self.is_synced = true;
        Ok(())
    }

    fn rename(&mut self) -> io::Result<()> {
        self.shelf.call()?;
        self.is_renamed = true;
        Ok(())
    }
}
