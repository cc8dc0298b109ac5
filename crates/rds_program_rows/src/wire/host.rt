//! The host, with a connection in memory in place of its network.
use super::file::WiredFile;
use super::line::{End, Listener, Wire};
use crate::calls::failure;
use crate::told::joined;
use std::alloc::{Alloc, Allocator, Global};
use std::fmt::Display;
use std::fs::{Metadata, OpenOptions, Permissions};
use std::io::{self, PipeReader, PipeWriter};
use std::net::{Net, SocketAddr, UdpSocket};
use std::os::fd::{BorrowedFd, OwnedFd};
use std::os::unix::net::{self as unix, UnixStream};
use std::path::PathBuf;
use std::rt::Files;
use std::time::{Clock, Duration};

/// The files of the host, of which each call is reported, and the connection.
#[derive(Drop)]
pub struct Wired<'a> {
    pub rt: &'a HostRuntime,
    pub wire: &'a Wire<'a>,
}

impl Alloc for Wired<'_> {
    type A = Global;

    fn alloc(&self) -> Global {
        self.rt.alloc()
    }
}

// A clock that goes on with each read of the connection alone. Nothing waits.
impl Clock for Wired<'_> {
    fn monotonic(&self) -> io::Result<Duration> {
        Ok(Duration::from_secs(self.wire.clock.seconds()))
    }

    fn since_1970(&self) -> io::Result<Duration> {
        self.rt.since_1970()
    }

    fn sleep(&self, duration: Duration) {
        let _ = self.wire.calls.pause(duration);
    }
}

// What people are told, but for what isn't a line.
impl Eprint for Wired<'_> {
    fn eprint<D: Display + Drop>(&self, _value: D) -> io::Result<()> {
        Ok(())
    }

    fn eprintln<D: Display + Drop>(&self, value: D) -> io::Result<()> {
        let line = format!(in self.rt.alloc(); "{value}")?;
        self.wire.calls.note(line.as_str())?;
        Ok(())
    }
}

// What the program has no use for fails.
impl<'a> Net for Wired<'a> {
    type Stream = End<'a>;

    type Listener = Listener<'a>;

    fn bind(&self, addr: SocketAddr) -> io::Result<Listener<'a>> {
        let at = format!(in self.rt.alloc(); "{addr}")?;
        self.wire.calls.call("bind", at.as_str())?;
        Ok(Listener { wire: self.wire })
    }

    fn connect(&self, addr: SocketAddr) -> io::Result<End<'a>> {
        let to = format!(in self.rt.alloc(); "{addr}")?;
        self.wire.calls.call("connect", to.as_str())?;
        self.wire.connected()
    }

    fn connect_timeout(&self, _addr: SocketAddr, _timeout: Duration) -> io::Result<End<'a>> {
        Err(failure())
    }

    fn bind_udp(&self, _addr: SocketAddr) -> io::Result<UdpSocket> {
        Err(failure())
    }

    fn connect_unix(&self, _addr: &unix::SocketAddr) -> io::Result<UnixStream> {
        Err(failure())
    }

    fn unix_pair(&self) -> io::Result<(UnixStream, UnixStream)> {
        Err(failure())
    }

    fn unix_socket(&self) -> io::Result<OwnedFd> {
        Err(failure())
    }
}

impl<'a> Files for Wired<'a> {
    type File = WiredFile<'a>;

    type Dir = <HostRuntime as Files>::Dir;

    fn open_file(&self, how: &OpenOptions, path: &str) -> io::Result<WiredFile<'a>> {
        self.wire.calls.open(how, path)?;
        let file = self.rt.open_file(how, path)?;
        WiredFile::new(&self.wire.calls, path, file)
    }

    fn open_dir(&self, path: &str) -> io::Result<Self::Dir> {
        self.rt.open_dir(path)
    }

    fn metadata(&self, path: &str) -> io::Result<Metadata> {
        self.rt.metadata(path)
    }

    fn symlink_metadata(&self, path: &str) -> io::Result<Metadata> {
        self.wire.calls.call("look", path)?;
        self.rt.symlink_metadata(path)
    }

    fn copy(&self, from: &str, to: &str) -> io::Result<u64> {
        self.rt.copy(from, to)
    }

    fn rename(&self, from: &str, to: &str) -> io::Result<()> {
        let paths = joined(self.rt.alloc(), &[from, " ", to])?;
        self.wire.calls.call("rename", paths.as_str())?;
        self.rt.rename(from, to)
    }

    fn remove_file(&self, path: &str) -> io::Result<()> {
        self.wire.calls.call("remove", path)?;
        self.rt.remove_file(path)
    }

    fn create_dir(&self, path: &str) -> io::Result<()> {
        self.rt.create_dir(path)
    }

    fn remove_dir(&self, path: &str) -> io::Result<()> {
        self.rt.remove_dir(path)
    }

    fn remove_dir_all<B: Allocator>(&self, alloc: B, path: &str) -> io::Result<()> {
        self.rt.remove_dir_all(alloc, path)
    }

    fn canonicalize<B: Allocator>(&self, alloc: B, path: &str) -> io::Result<PathBuf<B>> {
        self.wire.calls.call("follow", path)?;
        self.rt.canonicalize(alloc, path)
    }

    fn read_link<B: Allocator>(&self, alloc: B, path: &str) -> io::Result<PathBuf<B>> {
        self.rt.read_link(alloc, path)
    }

    fn hard_link(&self, original: &str, link: &str) -> io::Result<()> {
        self.rt.hard_link(original, link)
    }

    fn set_permissions(&self, path: &str, perm: Permissions) -> io::Result<()> {
        self.rt.set_permissions(path, perm)
    }

    fn symlink(&self, original: &str, link: &str) -> io::Result<()> {
        self.rt.symlink(original, link)
    }

    fn pipe(&self) -> io::Result<(PipeReader, PipeWriter)> {
        self.rt.pipe()
    }

    fn chown(&self, path: &str, uid: Option<u32>, gid: Option<u32>) -> io::Result<()> {
        self.rt.chown(path, uid, gid)
    }

    fn lchown(&self, path: &str, uid: Option<u32>, gid: Option<u32>) -> io::Result<()> {
        self.rt.lchown(path, uid, gid)
    }

    fn create_dir_with_mode(&self, path: &str, mode: u32) -> io::Result<()> {
        self.rt.create_dir_with_mode(path, mode)
    }

    fn bind_unix(&self, socket: BorrowedFd<'_>, addr: &unix::SocketAddr) -> io::Result<()> {
        self.rt.bind_unix(socket, addr)
    }
}
