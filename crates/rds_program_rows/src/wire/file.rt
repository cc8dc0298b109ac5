//! A file of the host: it tells which calls are made on it, and one of them fails.
use crate::calls::Calls;
use rds_files::LockFile;
use std::fs::{File, Metadata, OpenFile};
use std::io::{self, Read, Seek, SeekFrom, Write};

/// A file that is open, and the path that it was opened by.
#[derive(Drop)]
pub struct WiredFile<'a> {
    calls: &'a Calls<'a>,
    path: String,
    file: File,
}

impl<'a> WiredFile<'a> {
    /// No call was made on it yet.
    pub fn new(calls: &'a Calls<'a>, path: &str, file: File) -> io::Result<WiredFile<'a>> {
        let path = String::from_str(calls.alloc, path)?;
        Ok(WiredFile { calls, path, file })
    }

    // A call of this name on the file.
    fn call(&self, name: &str) -> io::Result<()> {
        self.calls.call(name, self.path.as_str())
    }
}

impl Read for WiredFile<'_> {
    fn read(&mut self, buf: &mut [u8]) -> io::Result<usize> {
        self.call("read")?;
        self.file.read(buf)
    }
}

impl Write for WiredFile<'_> {
    fn write(&mut self, buf: &[u8]) -> io::Result<usize> {
        self.call("write")?;
        self.file.write(buf)
    }

    fn flush(&mut self) -> io::Result<()> {
        self.file.flush()
    }
}

impl Seek for WiredFile<'_> {
    fn seek(&mut self, to: SeekFrom) -> io::Result<u64> {
        self.call("seek")?;
        self.file.seek(to)
    }
}

impl OpenFile for WiredFile<'_> {
    fn metadata(&self) -> io::Result<Metadata> {
        OpenFile::metadata(&self.file)
    }

    fn set_len(&self, size: u64) -> io::Result<()> {
        self.call("cut")?;
        OpenFile::set_len(&self.file, size)
    }

    fn sync_all(&self) -> io::Result<()> {
        self.call("sync")?;
        OpenFile::sync_all(&self.file)
    }

    fn sync_data(&self) -> io::Result<()> {
        self.call("sync_data")?;
        OpenFile::sync_data(&self.file)
    }
}

// Another has the lock where the row says so.
impl LockFile for WiredFile<'_> {
    fn try_lock_exclusive(&self) -> io::Result<bool> {
        self.call("lock")?;
        if self.calls.is("busy", self.path.as_str())? {
            return Ok(false);
        }
        self.file.try_lock_exclusive()
    }

    fn try_share_lock(&self) -> io::Result<bool> {
        self.call("share")?;
        self.file.try_share_lock()
    }

    fn is_same(&self, other: &Self) -> io::Result<bool> {
        self.call("same")?;
        self.file.is_same(&other.file)
    }

    fn is_read_only(&self) -> io::Result<bool> {
        self.call("writable")?;
        self.file.is_read_only()
    }

    fn links(&self) -> io::Result<u64> {
        self.call("names")?;
        self.file.links()
    }

    fn length(&self) -> io::Result<u64> {
        self.call("length")?;
        self.file.length()
    }

    fn take_rights(&self, other: &Self) -> io::Result<()> {
        self.call("mode")?;
        self.file.take_rights(&other.file)
    }

    fn write_at(&self, at: u64, bytes: &[u8]) -> io::Result<usize> {
        self.call("write")?;
        self.file.write_at(at, bytes)
    }
}
