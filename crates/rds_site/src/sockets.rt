//! The sockets of clients and of peers.
use crate::committed::Committed;
use bytes::{Buf, BytesMut};
use http_server::{Connection, Rope};
use mio::net::TcpStream;
use mio::{Interest, Registry, Token};
use rds_files::Disk;
use std::io;
use std::io::{ErrorKind, Read, Write};
use std::net::{Net, Shutdown, SocketAddr};

/// The room that a read of requests is given at least, in bytes.
pub const LEAST_ROOM: usize = 8192;

/// The room that a read of what nobody wants is given, in bytes.
const ROOM: usize = 4096;

/// So many bytes tell whether a request is an edit.
const EDIT_ROOM: usize = 11;

/// How far a client or a peer was heard.
#[derive(Clone, Copy, Debug, PartialEq, Eq)]
pub enum Heard {
    /// All that came: an event tells of more.
    All,
    /// A part of what came: the rest is heard in the next turn.
    Part,
    /// The connection is broken, or has ended.
    Gone,
}

impl Heard {
    /// After a read that failed.
    pub fn after(error: &io::Error) -> Heard {
        match error.kind() {
            ErrorKind::WouldBlock => Heard::All,
            ErrorKind::Interrupted => Heard::Part,
            _ => Heard::Gone,
        }
    }
}

/// How far a client or a peer took what was due to it.
#[derive(Clone, Copy, Debug, PartialEq, Eq)]
pub enum Sent {
    /// Nothing waits any more.
    All,
    /// An event tells when it takes more.
    Part,
    /// The connection is broken.
    Gone,
}

impl Sent {
    /// After a write that failed, where that ends the writing.
    pub fn after(error: &io::Error) -> Option<Sent> {
        match error.kind() {
            ErrorKind::WouldBlock => Some(Sent::Part),
            ErrorKind::Interrupted => None,
            _ => Some(Sent::Gone),
        }
    }
}

/// Under which token what happens to a peer's connections is reported, and by what.
#[derive(Clone, Copy)]
pub struct Line<'r> {
    pub registry: &'r Registry,
    pub token: Token,
}

/// A socket of a client or of a peer. It is read at any time. It is written and dialed only by who has a
/// [`Committed`].
#[derive(Drop)]
pub struct Socket {
    stream: TcpStream,
    // Whether who is at the other end has said all.
    is_ending: bool,
}

impl Socket {
    /// Of a stream that was just accepted: small answers go at once. Whether that can be had changes nothing.
    pub fn new(stream: TcpStream) -> Socket {
        let _ = stream.set_nodelay(true);
        Socket {
            stream,
            is_ending: false,
        }
    }

    /// Begins to connect with a peer. What follows is reported by an event under the token.
    pub fn dial<H: Disk + Net>(
        rt: &H,
        _committed: &Committed<'_, '_, H>,
        address: SocketAddr,
        line: &Line<'_>,
    ) -> io::Result<Socket> {
        let mut socket = Socket::new(TcpStream::connect(rt, address)?);
        socket.register(line.registry, line.token)?;
        Ok(socket)
    }

    /// Whether the connection with a peer stands. Refuses where it can't be made.
    pub fn is_connected(&self) -> io::Result<bool> {
        if let Some(error) = self.stream.take_error()? {
            return Err(error);
        }
        match self.stream.peer_addr() {
            Ok(_) => Ok(true),
            Err(error) if error.kind() == ErrorKind::NotConnected => Ok(false),
            Err(error) => Err(error),
        }
    }

    /// Has the registry report the socket under the token.
    pub fn register(&mut self, registry: &Registry, token: Token) -> io::Result<()> {
        let interests = Interest::READABLE.add(Interest::WRITABLE);
        registry.register(&mut self.stream, token, interests)
    }

    /// Notes that the client says nothing more than what has come.
    pub fn note_end(&mut self) {
        self.is_ending = true;
    }

    /// Whether what comes next begins as an edit over HTTP does. It is there to be read all the same.
    pub fn brings_edit(&self) -> bool {
        let mut bytes = [0; EDIT_ROOM];
        match self.stream.peek(&mut bytes) {
            Ok(count) => {
                let begins = &bytes[..count.min(EDIT_ROOM)];
                begins.starts_with(b"POST /edits") || begins.starts_with(b"PUT /value/")
            }
            Err(_) => false,
        }
    }

    /// Reads requests, once.
    pub fn receive(&mut self, connection: &mut Connection) -> io::Result<usize> {
        connection.read_from(&mut self.stream)
    }

    /// Whether all that came was read, once a read of requests gave so many bytes: an event tells of more. Where the
    /// client has said all, none tells of the end, which is read then.
    pub fn is_drained_by(&self, count: usize) -> bool {
        count < LEAST_ROOM && !self.is_ending
    }

    /// Reads bytes, once, where there is so much room for them at least.
    pub fn receive_bytes(&mut self, input: &mut BytesMut, room: usize) -> io::Result<usize> {
        input.reserve(room)?;
        input.read_from(&mut self.stream)
    }

    /// Reads what nobody wants any more, once.
    pub fn discard(&mut self) -> io::Result<usize> {
        let mut bytes = [0; ROOM];
        self.stream.read(&mut bytes)
    }

    /// Writes answers, once.
    pub fn send<H: Disk>(
        &mut self,
        _committed: &Committed<'_, '_, H>,
        connection: &mut Connection,
    ) -> io::Result<usize> {
        connection.write_to(&mut self.stream)
    }

    /// Writes frames, once.
    pub fn send_frames<H: Disk>(
        &mut self,
        _committed: &Committed<'_, '_, H>,
        output: &mut Rope,
    ) -> io::Result<usize> {
        let count = self.stream.write(output.chunk())?;
        output.advance(count.min(output.len()));
        Ok(count)
    }

    /// Writes bytes, once.
    pub fn send_bytes<H: Disk>(
        &mut self,
        _committed: &Committed<'_, '_, H>,
        output: &mut BytesMut,
    ) -> io::Result<usize> {
        let count = self.stream.write(output.as_slice())?;
        let len = output.len();
        output.advance(count.min(len));
        Ok(count)
    }

    /// Tells the client that nothing follows. Whether that can be told changes nothing.
    pub fn end(&self) {
        let _ = self.stream.shutdown(Shutdown::Write);
    }
}
