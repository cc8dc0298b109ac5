//! Descriptors in reserve, so that a document can be kept however many connections there are.
use rds_files::Disk;
use std::alloc::{AllocError, Global};
use std::fs;

/// So many are held. To keep a document takes fewer.
const HELD: usize = 8;

/// What is opened for each.
const ROOT: &str = "/";

/// Descriptors that are held for nothing else than to be let go while a document is kept.
pub struct Reserve<H: Disk> {
    files: Vec<H::File>,
}

impl<H: Disk> Drop for Reserve<H> {
    fn drop(self) {
        let Reserve { files: _files } = self;
    }
}

impl<H: Disk> Reserve<H> {
    /// None yet, and room for all.
    pub fn new(alloc: Global) -> Result<Reserve<H>, AllocError> {
        Ok(Reserve {
            files: Vec::with_capacity(alloc, HELD)?,
        })
    }

    /// Takes those that lack, as far as they can be had.
    pub fn fill(&mut self, rt: &H) {
        for _ in self.files.len()..HELD {
            let Ok(file) = fs::open(rt, ROOT) else {
                return;
            };
            if self.files.push(file).is_err() {
                return;
            }
        }
    }

    /// Lets all go.
    pub fn let_go(&mut self) {
        self.files.clear();
    }
}
