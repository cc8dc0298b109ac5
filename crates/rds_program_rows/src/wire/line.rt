//! A connection in memory: it tells which calls were made on it, and one of them fails.
ghost use Rattle.std.specs.Prelude.{◌≤◌, length, IfOk};

use crate::calls::{Calls, failure};
use crate::told::joined;
use rds_names::Fault;
use std::alloc::Global;
use std::cell::Cell;
use std::io::{self, Read, Write};
use std::net::{IpAddr, Ipv4Addr, OpenListener, OpenStream, Shutdown, SocketAddr};
use std::os::fd::{AsRawFd, RawFd};
use std::time::Duration;

// The BYE of a server that doesn't speak the version.
const OLDER: &[u8] = &[0, 2, 4, 1, 0, 0];

// What goes one way and hasn't been read, and whether more may come.
#[derive(Drop)]
struct Lane {
    bytes: Cell<Vec<u8>>,
    is_shut: Cell<bool>,
}

impl Lane {
    fn new(alloc: Global) -> Lane {
        Lane {
            bytes: Cell::new(Vec::new(alloc)),
            is_shut: Cell::new(false),
        }
    }

    fn put(&self, alloc: Global, bytes: &[u8]) -> io::Result<()> {
        let mut all = self.bytes.replace(Vec::new(alloc));
        all.extend_from_slice(bytes)?;
        self.bytes.set(all);
        Ok(())
    }

    // The next bytes. None are the end, and a failure where more may come.
    fn get(&self, alloc: Global, buf: &mut [u8]) -> io::Result<usize>
        ensures { IfOk result (λ count. count ≤ length buf.new) }
    {
        let bytes = self.bytes.replace(Vec::new(alloc));
        if bytes.is_empty() && !self.is_shut.get() {
            return Err(failure());
        }
        let count = bytes.len().min(buf.len());
        let (front, rest) = bytes.as_slice().split_at(count);
        buf[..count].copy_from_slice(front);
        self.put(alloc, rest)?;
        Ok(count)
    }
}

/// How the reads of a connection go, and what the time is by them.
#[derive(Drop)]
pub struct Reads {
    now: Cell<u64>,
    seconds: u64,
    most: usize,
}

impl Reads {
    /// Each takes so many seconds, and gives at most so many bytes.
    pub fn new(seconds: u64, most: usize) -> Reads {
        Reads {
            now: Cell::new(0),
            seconds,
            most,
        }
    }

    /// How many seconds all took by now.
    pub fn seconds(&self) -> u64 {
        self.now.get()
    }

    // One more.
    fn take(&self) {
        self.now.set(self.now.get().saturating_add(self.seconds));
    }
}

/// A connection of one program to itself, or of a stranger who was the first to connect.
#[derive(Drop)]
pub struct Wire<'a> {
    pub calls: Calls<'a>,
    pub clock: Reads,
    to_server: Lane,
    to_client: Lane,
    // What the peer says to each that connects behind the first.
    then: Vec<u8>,
    is_called: Cell<bool>,
    pub is_strange: bool,
}

impl<'a> Wire<'a> {
    /// Nothing was said yet. The call of this name fails, or none does.
    pub fn new(alloc: Global, fails: &'a str) -> Wire<'a> {
        Wire {
            calls: Calls::new(alloc, fails),
            clock: Reads::new(0, usize::MAX),
            to_server: Lane::new(alloc),
            to_client: Lane::new(alloc),
            then: Vec::new(alloc),
            is_called: Cell::new(false),
            is_strange: fails == "stranger",
        }
    }

    /// With a peer that says these bytes slowly.
    pub fn with_slow_peer(alloc: Global, clock: Reads, said: &[u8]) -> Result<Wire<'a>, Fault> {
        let mut wire = Wire::with_peer(alloc, "", said)?;
        wire.clock = clock;
        Ok(wire)
    }

    /// With a peer that says these bytes, whichever end it is, and says them anew to each that connects.
    pub fn with_peer(alloc: Global, fails: &'a str, said: &[u8]) -> Result<Wire<'a>, Fault> {
        let mut wire = Wire::new(alloc, fails);
        wire.then.extend_from_slice(said)?;
        for lane in [&wire.to_client, &wire.to_server] {
            let Ok(()) = lane.put(alloc, said) else {
                return Err(Fault::Memory);
            };
            lane.is_shut.set(true);
        }
        Ok(wire)
    }

    /// With an older server: it says a BYE of 1 to the first that connects, and these bytes to the next.
    pub fn with_older_server(
        alloc: Global,
        fails: &'a str,
        said: &[u8],
    ) -> Result<Wire<'a>, Fault> {
        let mut wire = Wire::new(alloc, fails);
        wire.then.extend_from_slice(said)?;
        let Ok(()) = wire.to_client.put(alloc, OLDER) else {
            return Err(Fault::Memory);
        };
        wire.to_client.is_shut.set(true);
        Ok(wire)
    }

    /// The end of the next one that connects.
    pub fn connected(&'a self) -> io::Result<End<'a>> {
        if self.is_called.replace(true) {
            let alloc = self.calls.alloc;
            self.to_client.bytes.set(Vec::new(alloc));
            self.to_client.put(alloc, &self.then)?;
        }
        Ok(self.client())
    }

    /// What was said to the server and not read by it.
    pub fn heard(&self) -> Vec<u8> {
        self.to_server.bytes.replace(Vec::new(self.calls.alloc))
    }

    /// The end that connects.
    pub fn client(&'a self) -> End<'a> {
        End {
            name: "client",
            calls: &self.calls,
            clock: &self.clock,
            hears: &self.to_client,
            says: &self.to_server,
        }
    }

    /// The end that accepts.
    pub fn server(&'a self) -> End<'a> {
        End {
            name: "server",
            calls: &self.calls,
            clock: &self.clock,
            hears: &self.to_server,
            says: &self.to_client,
        }
    }
}

/// What the server accepts the connection from.
#[derive(Drop)]
pub struct Listener<'a> {
    pub wire: &'a Wire<'a>,
}

impl<'a> OpenListener for Listener<'a> {
    type Stream = End<'a>;

    fn accept(&self) -> io::Result<(End<'a>, SocketAddr)> {
        self.wire.calls.call("accept", "server")?;
        let port = if self.wire.is_strange { 3 } else { 2 };
        Ok((self.wire.server(), address(port)))
    }

    fn local_addr(&self) -> io::Result<SocketAddr> {
        self.wire.calls.call("address", "listener")?;
        Ok(address(1))
    }
}

impl AsRawFd for Listener<'_> {
    fn as_raw_fd(&self) -> RawFd {
        -1
    }
}

fn address(port: u16) -> SocketAddr {
    SocketAddr::new(IpAddr::V4(Ipv4Addr::LOCALHOST), port)
}

/// One end: its name, what it hears and what it says.
#[derive(Drop)]
pub struct End<'a> {
    name: &'static str,
    calls: &'a Calls<'a>,
    clock: &'a Reads,
    hears: &'a Lane,
    says: &'a Lane,
}

impl Read for End<'_> {
    fn read(&mut self, buf: &mut [u8]) -> io::Result<usize> {
        self.calls.call("read", self.name)?;
        self.clock.take();
        let alloc = self.calls.alloc;
        let most = self.clock.most.min(buf.len());
        self.hears.get(alloc, &mut buf[..most])
    }
}

impl Write for End<'_> {
    fn write(&mut self, buf: &[u8]) -> io::Result<usize> {
        self.calls.call("write", self.name)?;
        let alloc = self.calls.alloc;
        self.says.put(alloc, buf)?;
        Ok(buf.len())
    }

    fn flush(&mut self) -> io::Result<()> {
        Ok(())
    }
}

impl End<'_> {
    // How many seconds a call may take, or `none`.
    fn set_limit(&self, name: &str, limit: Option<Duration>) -> io::Result<()> {
        let alloc = self.calls.alloc;
        let on = match limit {
            Some(limit) => format!(in alloc; "{} {}", self.name, limit.as_secs())?,
            None => joined(alloc, &[self.name, " none"])?,
        };
        self.calls.call(name, on.as_str())
    }
}

impl OpenStream for End<'_> {
    fn local_addr(&self) -> io::Result<SocketAddr> {
        self.calls.call("address", self.name)?;
        Ok(address(2))
    }

    fn shutdown(&self, _how: Shutdown) -> io::Result<()> {
        self.calls.call("shut", self.name)?;
        self.says.is_shut.set(true);
        Ok(())
    }

    fn set_nodelay(&self, _nodelay: bool) -> io::Result<()> {
        self.calls.call("hurry", self.name)
    }

    fn set_read_timeout(&self, limit: Option<Duration>) -> io::Result<()> {
        self.set_limit("limit_reads", limit)
    }

    fn set_write_timeout(&self, limit: Option<Duration>) -> io::Result<()> {
        self.set_limit("limit_writes", limit)
    }

    fn try_clone(&self) -> io::Result<Self> {
        self.calls.call("clone", self.name)?;
        Ok(End {
            name: self.name,
            calls: self.calls,
            clock: self.clock,
            hears: self.hears,
            says: self.says,
        })
    }
}

impl AsRawFd for End<'_> {
    fn as_raw_fd(&self) -> RawFd {
        -1
    }
}
