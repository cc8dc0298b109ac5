//! Calls of a node: a request and its response, over a connection of their own that is waited for.
use crate::destinations::{Destination, find_node};
use crate::links::more_seconds;
use crate::requests::{DONE, NOT_MODIFIED, Request, Resource, Response, Rest, SWITCHED, Talk};
use crate::troubles::{Trouble, tell};
use bytes::{Buf, BytesMut};
use rds_fields::Token;
use rds_files::Disk;
use rds_names::Fault;
use std::io;
use std::io::{ErrorKind, Read, Write};
use std::net::{Net, OpenStream, SocketAddr, TcpStream};
use std::time::{Clock, Duration, Instant};

/// The room that a read is given, in bytes.
const ROOM: usize = 65_536;

/// How many times the timeout a meeting has that moves little.
const WAITS: u64 = 10;

/// How many bytes give a meeting one timeout more.
const PORTION: u64 = 1_048_576;

/// How long a node is waited for: the timeout bounds each wait, and ten times the timeout the meeting as a whole, to
/// which each full megabyte (1,048,576 bytes) that came or went adds one timeout more. What the system took since the
/// node was heard may still be on its way, and gives a wait more time. Without a timeout nothing is bounded.
#[derive(Drop)]
struct Patience {
    limit: Option<Limit>,
    moved: u64,
    taken: u64,
}

/// How long a wait may take, and when the meeting began.
#[derive(Clone, Copy)]
struct Limit {
    timeout: Duration,
    began: Instant,
}

impl Patience {
    // A meeting begins. An error where there is a timeout, and the clock can't be read.
    fn begin<C: Clock>(clock: &C, timeout: Option<Duration>) -> io::Result<Patience> {
        let limit = match timeout {
            Some(timeout) => Some(Limit {
                timeout,
                began: Instant::now(clock)?,
            }),
            None => None,
        };
        Ok(Patience {
            limit,
            moved: 0,
            taken: 0,
        })
    }

    // The system took so many bytes.
    fn note_taken(&mut self, count: usize) {
        self.moved = self.moved.saturating_add(count as u64);
        self.taken = self.taken.saturating_add(count as u64);
    }

    // So many bytes came: the node has got what was taken before.
    fn note_heard(&mut self, count: usize) {
        self.moved = self.moved.saturating_add(count as u64);
        self.taken = 0;
    }

    // How long one call may take, where there is time enough.
    fn once(&self, limit: Limit) -> Duration {
        let more = Duration::from_secs(more_seconds(self.taken));
        limit.timeout.saturating_add(more)
    }

    // How long the next call may take, or that it may take any time. `Slow` where no time is left.
    fn wait<C: Clock>(&self, clock: &C) -> Result<Option<Duration>, Trouble> {
        let Some(limit) = self.limit else {
            return Ok(None);
        };
        let spent = limit.began.elapsed(clock)?;
        match limit.whole(self.moved).checked_sub(spent) {
            Some(left) if !left.is_zero() => Ok(Some(self.once(limit).min(left))),
            _ => Err(Trouble::Slow {
                moved: self.moved,
                seconds: spent.as_secs(),
            }),
        }
    }

    // What an error of a call says, which may be that it took too long.
    fn trouble(&self, error: io::Error) -> Trouble {
        match (self.limit, error.kind()) {
            (Some(limit), ErrorKind::WouldBlock | ErrorKind::TimedOut) => {
                Trouble::Silence(self.once(limit).as_secs())
            }
            _ => Trouble::from(error),
        }
    }
}

impl Limit {
    // How long a meeting may take that moved so many bytes.
    fn whole(self, moved: u64) -> Duration {
        let times = (moved / PORTION).saturating_add(WAITS);
        self.timeout
            .saturating_mul(u32::try_from(times).unwrap_or(u32::MAX))
    }
}

/// A node that is called, and how long it is waited for.
#[derive(Drop)]
pub struct Caller<'a> {
    destination: Destination<'a>,
    patience: Patience,
}

impl<'a> Caller<'a> {
    // Before the first call. An error where there is a timeout, and the clock can't be read.
    fn new<C: Clock>(
        clock: &C,
        destination: Destination<'a>,
        timeout: Option<Duration>,
    ) -> io::Result<Caller<'a>> {
        Ok(Caller {
            destination,
            patience: Patience::begin(clock, timeout)?,
        })
    }

    /// The node's host and port, as it was named.
    pub fn name(&self) -> &'a str {
        self.destination.name()
    }

    /// Makes a request, and answers the response where it was done, where what is asked for has the tag, or where it
    /// has the lines of edits that were refused. Anything else is reported on standard error.
    pub fn ask<H: Disk + Net>(
        &mut self,
        rt: &H,
        request: &Request<'_>,
    ) -> Result<Response, Trouble> {
        let trouble = match self.call(rt, request) {
            Ok(response) => match (response.head.status, request.unless) {
                (DONE, _) | (NOT_MODIFIED, Some(_)) => return Ok(response),
                _ if response.has_lines(request) => return Ok(response),
                _ => Trouble::Refused(response),
            },
            Err(trouble) => trouble,
        };
        trouble.tell(rt, self.name());
        Err(trouble)
    }

    /// Has the node hand a connection over, for what it tells of its changes, by a handshake of this key. Answers the
    /// connection, and what came over it already.
    pub fn open_live<H: Disk + Net>(
        &mut self,
        rt: &H,
        key: &[u8; 24],
    ) -> Result<(H::Stream, BytesMut), Trouble> {
        let mut talk = Talk::new(rt.alloc());
        talk.handshake(&self.destination, key)?;
        let mut stream = self.connect(rt)?;
        self.send(rt, &mut stream, &mut talk)?;
        let response = self.hear(rt, &mut stream, &mut talk)?;
        if response.head.status != SWITCHED {
            return Err(Trouble::Refused(response));
        }
        Ok((stream, talk.take_input()))
    }

    /// Asks for a file, or for the rest of it, by a talk in which nothing was said yet. Answers the response, or leaves
    /// what came of it in the talk.
    pub(crate) fn ask_file<H: Disk + Net>(
        &mut self,
        rt: &H,
        resource: Resource,
        rest: Option<Rest<'_>>,
        talk: &mut Talk,
    ) -> Result<Response, Trouble> {
        talk.request_file(&self.destination, resource, rest)?;
        self.exchange(rt, talk)
    }

    // Makes a request, and answers the response.
    fn call<H: Disk + Net>(&mut self, rt: &H, request: &Request<'_>) -> Result<Response, Trouble> {
        let mut talk = Talk::new(rt.alloc());
        talk.request(&self.destination, request)?;
        self.exchange(rt, &mut talk)
    }

    // Sends what a talk has to send, and answers the response. A node that takes no more of a request may still answer it.
    fn exchange<H: Disk + Net>(&mut self, rt: &H, talk: &mut Talk) -> Result<Response, Trouble> {
        let mut stream = self.connect(rt)?;
        match self.send(rt, &mut stream, talk) {
            Ok(()) => self.hear(rt, &mut stream, talk),
            Err(Trouble::System(error)) => {
                talk.clear_output();
                match self.hear(rt, &mut stream, talk) {
                    Ok(response) => Ok(response),
                    Err(_) => Err(Trouble::System(error)),
                }
            }
            Err(trouble) => Err(trouble),
        }
    }

    // Connects with the first address of the node that can be had.
    fn connect<H: Disk + Net>(&mut self, rt: &H) -> Result<H::Stream, Trouble> {
        for _ in 0..u64::MAX {
            let Some(address) = self.destination.address() else {
                return Err(Trouble::Ended);
            };
            match self.connect_to(rt, address) {
                Ok(stream) => return Ok(stream),
                Err(Trouble::Memory) => return Err(Trouble::Memory),
                Err(trouble) => {
                    if !self.destination.turn() {
                        return Err(trouble);
                    }
                }
            }
        }
        Err(Trouble::Ended)
    }

    fn connect_to<H: Disk + Net>(&self, rt: &H, address: SocketAddr) -> Result<H::Stream, Trouble> {
        let connected = match self.patience.wait(rt)? {
            Some(wait) => TcpStream::connect_timeout(rt, &address, wait),
            None => TcpStream::connect(rt, address),
        };
        match connected {
            Ok(stream) => {
                let _ = stream.set_nodelay(true);
                Ok(stream)
            }
            Err(error) => Err(self.patience.trouble(error)),
        }
    }

    // Writes what the talk has to send.
    fn send<H: Disk, T: Write + OpenStream>(
        &mut self,
        rt: &H,
        stream: &mut T,
        talk: &mut Talk,
    ) -> Result<(), Trouble> {
        for _ in 0..u64::MAX {
            if talk.output.is_empty() {
                return Ok(());
            }
            stream.set_write_timeout(self.patience.wait(rt)?)?;
            match stream.write(talk.output.as_slice()) {
                Ok(0) => return Err(Trouble::Ended),
                Ok(count) => {
                    self.patience.note_taken(count);
                    let len = talk.output.len();
                    talk.output.advance(count.min(len));
                }
                Err(error) if error.kind() == ErrorKind::Interrupted => (),
                Err(error) => return Err(self.patience.trouble(error)),
            }
        }
        Ok(())
    }

    // Reads until a response is whole.
    fn hear<H: Disk, T: Read + OpenStream>(
        &mut self,
        rt: &H,
        stream: &mut T,
        talk: &mut Talk,
    ) -> Result<Response, Trouble> {
        for _ in 0..u64::MAX {
            if let Some(response) = talk.next()? {
                return Ok(response);
            }
            stream.set_read_timeout(self.patience.wait(rt)?)?;
            talk.input.reserve(ROOM)?;
            match talk.input.read_from(stream) {
                Ok(0) => return talk.end()?.ok_or(Trouble::Ended),
                Ok(count) => self.patience.note_heard(count),
                Err(error) if error.kind() == ErrorKind::Interrupted => (),
                Err(error) => return Err(self.patience.trouble(error)),
            }
        }
        Err(Trouble::Ended)
    }
}

/// The host and port in the address of a node: behind `http://` and before a slash, where these stand there.
pub fn name_in(node: &str) -> &str {
    let name = node.strip_prefix("http://").unwrap_or(node);
    name.strip_suffix('/').unwrap_or(name)
}

/// The node of this host and port, before the first call. Refuses as [`find_node`] does, and where the clock can't be
/// read (`Device`), with a line on standard error.
pub fn caller_of<'a, H: Disk + Net>(
    rt: &H,
    name: &'a str,
    token: Option<&Token>,
    timeout: Option<Duration>,
) -> Result<Caller<'a>, Fault> {
    let destination = find_node(rt, name, token)?;
    match Caller::new(rt, destination, timeout) {
        Ok(caller) => Ok(caller),
        Err(error) => Err(tell(rt, name, Trouble::from(error))),
    }
}
