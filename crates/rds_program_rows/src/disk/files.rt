//! A disk in memory: it tells which calls were made on it, and one of them fails.
use crate::calls::{Calls, failure};
use crate::told::joined;
use rds_files::LockFile;
use std::alloc::{Alloc, Allocator, Global};
use std::fmt::Display;
use std::fs::{Metadata, OpenFile, OpenOptions, Permissions};
use std::io::{self, ErrorKind, PipeReader, PipeWriter, Read, Seek, SeekFrom, Write};
use std::os::fd::BorrowedFd;
use std::os::unix::net::SocketAddr;
use std::path::PathBuf;
use std::rt::Files;
use std::time::{Clock, Duration};

/// A file that holds some bytes, where it is there, and folders. What is written is forgotten. A row may say that the
/// file is a link to another that holds the same, to one that is written beside another, or to nothing.
#[derive(Drop)]
pub struct Disk<'a> {
    pub calls: &'a Calls<'a>,
    pub path: &'a str,
    pub is_there: bool,
    pub bytes: &'a [u8],
}

impl Disk<'_> {
    // Whether nothing is at this path.
    fn lacks(&self, path: &str) -> io::Result<bool> {
        Ok(path == self.path && !self.is_there && !self.calls.is("there", path)?)
    }

    // What the link of this path leads to, or nothing where the file is none.
    fn behind(&self, path: &str) -> io::Result<Option<&'static str>> {
        if self.calls.is("link", path)? {
            return Ok(Some("d/g"));
        }
        if self.calls.is("beside", path)? {
            return Ok(Some("d/g.new"));
        }
        if self.calls.is("dangling", path)? {
            return Ok(Some(""));
        }
        Ok(None)
    }
}

impl Alloc for Disk<'_> {
    type A = Global;

    fn alloc(&self) -> Global {
        self.calls.alloc
    }
}

impl Clock for Disk<'_> {
    fn monotonic(&self) -> io::Result<Duration> {
        Err(failure())
    }

    fn since_1970(&self) -> io::Result<Duration> {
        Err(failure())
    }

    fn sleep(&self, duration: Duration) {
        let _ = self.calls.pause(duration);
    }
}

// What people are told isn't kept.
impl Eprint for Disk<'_> {
    fn eprint<D: Display + Drop>(&self, _value: D) -> io::Result<()> {
        Ok(())
    }

    fn eprintln<D: Display + Drop>(&self, _value: D) -> io::Result<()> {
        Ok(())
    }
}

// What the program has no use for fails.
impl<'a> Files for Disk<'a> {
    type File = DiskFile<'a>;

    type Dir = DiskFile<'a>;

    fn open_file(&self, how: &OpenOptions, path: &str) -> io::Result<DiskFile<'a>> {
        self.calls.open(how, path)?;
        if !how.asks_create_new() && self.lacks(path)? {
            return Err(io::Error::from(ErrorKind::NotFound));
        }
        Ok(DiskFile {
            calls: self.calls,
            path: String::from_str(self.calls.alloc, path)?,
            rest: self.bytes,
        })
    }

    fn open_dir(&self, _path: &str) -> io::Result<DiskFile<'a>> {
        Err(failure())
    }

    fn metadata(&self, _path: &str) -> io::Result<Metadata> {
        Err(failure())
    }

    fn symlink_metadata(&self, path: &str) -> io::Result<Metadata> {
        self.calls.call("look", path)?;
        if let Some(behind) = self.behind(path)? {
            return Ok(Metadata::of_symlink(behind.len() as u64));
        }
        if self.lacks(path)? {
            return Err(io::Error::from(ErrorKind::NotFound));
        }
        Ok(Metadata::of_file(self.bytes.len() as u64))
    }

    fn copy(&self, _from: &str, _to: &str) -> io::Result<u64> {
        Err(failure())
    }

    fn rename(&self, from: &str, to: &str) -> io::Result<()> {
        let paths = joined(self.calls.alloc, &[from, " ", to])?;
        self.calls.call("rename", paths.as_str())
    }

    // Nothing is there to be removed, unless the row says that something was left.
    fn remove_file(&self, path: &str) -> io::Result<()> {
        self.calls.call("remove", path)?;
        if self.calls.is("left", path)? {
            return Ok(());
        }
        Err(io::Error::from(ErrorKind::NotFound))
    }

    fn create_dir(&self, _path: &str) -> io::Result<()> {
        Err(failure())
    }

    fn remove_dir(&self, _path: &str) -> io::Result<()> {
        Err(failure())
    }

    fn remove_dir_all<B: Allocator>(&self, _alloc: B, _path: &str) -> io::Result<()> {
        Err(failure())
    }

    fn canonicalize<B: Allocator>(&self, alloc: B, path: &str) -> io::Result<PathBuf<B>> {
        self.calls.call("follow", path)?;
        match self.behind(path)? {
            Some("") => Err(io::Error::from(ErrorKind::NotFound)),
            Some(behind) => Ok(PathBuf::from_str(alloc, behind)?),
            None => Ok(PathBuf::from_str(alloc, path)?),
        }
    }

    fn read_link<B: Allocator>(&self, _alloc: B, _path: &str) -> io::Result<PathBuf<B>> {
        Err(failure())
    }

    fn hard_link(&self, _original: &str, _link: &str) -> io::Result<()> {
        Err(failure())
    }

    fn set_permissions(&self, _path: &str, _perm: Permissions) -> io::Result<()> {
        Err(failure())
    }

    fn symlink(&self, _original: &str, _link: &str) -> io::Result<()> {
        Err(failure())
    }

    fn pipe(&self) -> io::Result<(PipeReader, PipeWriter)> {
        Err(failure())
    }

    fn chown(&self, _path: &str, _uid: Option<u32>, _gid: Option<u32>) -> io::Result<()> {
        Err(failure())
    }

    fn lchown(&self, _path: &str, _uid: Option<u32>, _gid: Option<u32>) -> io::Result<()> {
        Err(failure())
    }

    fn create_dir_with_mode(&self, _path: &str, _mode: u32) -> io::Result<()> {
        Err(failure())
    }

    fn bind_unix(&self, _socket: BorrowedFd<'_>, _addr: &SocketAddr) -> io::Result<()> {
        Err(failure())
    }
}

/// A file that is open.
#[derive(Drop)]
pub struct DiskFile<'a> {
    calls: &'a Calls<'a>,
    path: String,
    rest: &'a [u8],
}

impl Read for DiskFile<'_> {
    fn read(&mut self, buf: &mut [u8]) -> io::Result<usize> {
        self.calls.call("read", self.path.as_str())?;
        let count = self.rest.len().min(buf.len());
        let (front, rest) = self.rest.split_at(count);
        buf[..count].copy_from_slice(front);
        self.rest = rest;
        Ok(count)
    }
}

impl Write for DiskFile<'_> {
    fn write(&mut self, buf: &[u8]) -> io::Result<usize> {
        self.calls.call("write", self.path.as_str())?;
        Ok(buf.len())
    }

    fn flush(&mut self) -> io::Result<()> {
        Ok(())
    }
}

impl Seek for DiskFile<'_> {
    fn seek(&mut self, _to: SeekFrom) -> io::Result<u64> {
        Err(failure())
    }
}

impl OpenFile for DiskFile<'_> {
    fn metadata(&self) -> io::Result<Metadata> {
        Err(failure())
    }

    fn set_len(&self, _size: u64) -> io::Result<()> {
        self.calls.call("cut", self.path.as_str())
    }

    fn sync_all(&self) -> io::Result<()> {
        self.calls.call("sync", self.path.as_str())?;
        if self.calls.is("unsyncable", self.path.as_str())? {
            return Err(io::Error::from(ErrorKind::Unsupported));
        }
        if self.calls.is("read_alone", self.path.as_str())? {
            return Err(io::Error::from(ErrorKind::ReadOnlyFilesystem));
        }
        Ok(())
    }

    fn sync_data(&self) -> io::Result<()> {
        self.calls.call("sync_data", self.path.as_str())
    }
}

// The lock is free, the file is the one at its path, and it can be written and has no other name, unless the row says
// something else.
impl LockFile for DiskFile<'_> {
    fn try_lock_exclusive(&self) -> io::Result<bool> {
        self.calls.call("lock", self.path.as_str())?;
        Ok(!self.calls.is("busy", self.path.as_str())?)
    }

    fn try_share_lock(&self) -> io::Result<bool> {
        self.calls.call("share", self.path.as_str())?;
        Ok(true)
    }

    fn is_same(&self, _other: &Self) -> io::Result<bool> {
        self.calls.call("same", self.path.as_str())?;
        Ok(!self.calls.is("moved", self.path.as_str())?)
    }

    fn is_read_only(&self) -> io::Result<bool> {
        self.calls.call("writable", self.path.as_str())?;
        Ok(self.calls.is("unwritable", self.path.as_str())?)
    }

    fn links(&self) -> io::Result<u64> {
        self.calls.call("names", self.path.as_str())?;
        Ok(if self.calls.is("shared", self.path.as_str())? {
            2
        } else {
            1
        })
    }

    fn length(&self) -> io::Result<u64> {
        self.calls.call("length", self.path.as_str())?;
        Ok(self.rest.len() as u64)
    }

    fn take_rights(&self, _other: &Self) -> io::Result<()> {
        self.calls.call("mode", self.path.as_str())
    }

    fn write_at(&self, _at: u64, bytes: &[u8]) -> io::Result<usize> {
        self.calls.call("write", self.path.as_str())?;
        if self.calls.is("full", self.path.as_str())? {
            return Ok(0);
        }
        Ok(bytes.len())
    }
}
