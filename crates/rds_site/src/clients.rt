//! A client: its socket, and what it speaks.
use crate::committed::Committed;
use crate::listeners::Listener;
use crate::patience::Wait;
use crate::sockets::{Heard, Sent, Socket};
use crate::stalls::parting;
use bytes::BytesMut;
use http_server::{Connection, Service, State};
use rds_files::Disk;
use std::alloc::Global;
use std::net::SocketAddr;
use std::time::Instant;
use std::{io, mem};

/// So many bytes of a request that isn't whole are enough for the client to be waited for anew. No head has as many.
const ENOUGH: usize = 32_768;

/// A listener to which nothing was sent for so many seconds is sent a ping.
const QUIET: u64 = 20;

/// Once so many bytes were read of a client in one turn, others come first.
const MOST_HEARD: usize = 1_048_576;

/// How often a client is read in one turn at most.
const READS: u32 = 256;

/// What a client speaks.
#[derive(Drop)]
enum Talk {
    /// It asks, and is answered.
    Http(Connection),
    /// It is told of changes.
    Live(Listener),
    /// It is sent this last answer.
    Parting(BytesMut),
    /// It got its last answer. What it still sends is dropped, so that the answer isn't lost with the connection.
    Last,
}

/// When a client has its next turn.
#[derive(Clone, Copy, Debug, PartialEq, Eq)]
pub enum Next {
    /// Once an event tells of it.
    Event,
    /// At once.
    Turn,
    /// Once those rest no more that made others wait.
    Rest,
    /// Never: it is let go.
    Never,
}

/// How many bytes of a client were read since it was answered last, how many of these when it was last waited for anew,
/// and the most that there ever were; whether any were read since that was noted; whether what was answered last took
/// long; and whether anything was answered.
#[derive(Clone, Copy)]
struct Load {
    unread: usize,
    noted: usize,
    most: usize,
    is_heard: bool,
    is_slow: bool,
    is_answered: bool,
}

impl Load {
    fn add(&mut self, count: usize) {
        self.is_heard = true;
        self.unread = self.unread.saturating_add(count);
        self.most = self.most.max(self.unread);
    }

    // Whether enough has come since that was so last.
    fn has_enough(&mut self) -> bool {
        let is_enough = ENOUGH <= self.unread.saturating_sub(self.noted);
        if is_enough {
            self.noted = self.unread;
        }
        is_enough
    }

    // What was read is answered. Whether that took long is noted after it.
    fn clear(&mut self) {
        self.unread = 0;
        self.noted = 0;
        self.is_slow = false;
        self.is_answered = true;
    }
}

/// What a client is at that may be given up for another. Who loses least comes first.
#[derive(Clone, Copy, Debug, PartialEq, Eq, PartialOrd, Ord)]
enum Stage {
    /// It was answered nothing yet.
    New,
    /// It waits between two requests.
    Idle,
    /// A further request or an answer is under way.
    Busy,
}

/// What a client is at that may be given up for another, and since when it has got no byte of an answer. The least gives
/// way first: of two at one stage that is the one that has waited for longer.
#[derive(Clone, Copy, Debug, PartialEq, Eq, PartialOrd, Ord)]
pub struct Rank {
    stage: Stage,
    since: Instant,
}

/// A client: its socket, and what it speaks.
#[derive(Drop)]
pub struct Client {
    address: SocketAddr,
    socket: Socket,
    talk: Talk,
    // Since when it lets wait: it last took a byte of an answer then, said enough of a request, or came.
    wait: Wait,
    heard: Heard,
    load: Load,
    is_listed: bool,
    // How many bytes it was given that it hasn't taken yet.
    owed: usize,
    // Where it was answered in this turn what isn't so unless the turn is kept: whether the first of these requests may
    // change the document.
    unsure: Option<bool>,
    // Whether it is heard only once those rest no more that made others wait.
    is_resting: bool,
}

impl Client {
    /// A client that has just come from this address.
    pub fn new(
        address: SocketAddr,
        socket: Socket,
        connection: Connection,
        now: Instant,
    ) -> Client {
        Client {
            address,
            socket,
            talk: Talk::Http(connection),
            wait: Wait::new(now),
            heard: Heard::All,
            load: Load {
                unread: 0,
                noted: 0,
                most: 0,
                is_heard: false,
                is_slow: false,
                is_answered: false,
            },
            is_listed: false,
            owed: 0,
            unsure: None,
            is_resting: false,
        }
    }

    /// Where it comes from.
    pub fn address(&self) -> SocketAddr {
        self.address
    }

    /// Says whether the client is listed for a turn, and answers whether it was.
    pub fn set_listed(&mut self, is_listed: bool) -> bool {
        mem::replace(&mut self.is_listed, is_listed)
    }

    /// Whether it is told of changes.
    pub fn is_listener(&self) -> bool {
        matches!(self.talk, Talk::Live(_))
    }

    /// Whether it has made no whole request for too long, nor enough of one, nor taken a byte of an answer. A listener may
    /// be silent, and one that rests isn't heard.
    pub fn is_overdue(&self, now: Instant) -> bool {
        let may_wait = self.is_listener() || self.is_resting;
        !may_wait && self.wait.until() <= now
    }

    /// What it is at and since when, where it may be given up for another: it isn't told of changes.
    pub fn rank(&self) -> Option<Rank> {
        Some(Rank {
            stage: self.stage()?,
            since: self.wait.since(),
        })
    }

    fn stage(&self) -> Option<Stage> {
        let is_begun = self.is_listed || self.load.unread != 0;
        let is_busy = match &self.talk {
            Talk::Http(connection) => {
                connection.wants_write() || self.load.is_answered && is_begun
            }
            Talk::Live(_) => return None,
            Talk::Parting(_) | Talk::Last => false,
        };
        if is_busy {
            Some(Stage::Busy)
        } else if self.load.is_answered {
            Some(Stage::Idle)
        } else {
            Some(Stage::New)
        }
    }

    /// Has it be sent a ping, where it is a listener to which nothing was sent for a while. Answers whether it is.
    pub fn ping(&mut self, now: Instant) -> bool {
        let is_quiet = QUIET <= now.duration_since(self.wait.since()).as_secs();
        match &mut self.talk {
            Talk::Live(listener) => is_quiet && listener.ping(),
            Talk::Http(_) | Talk::Parting(_) | Talk::Last => false,
        }
    }

    /// Whether to hear it takes no time to speak of: it isn't asking, or what it says next is an edit.
    pub fn is_short(&self) -> bool {
        match &self.talk {
            Talk::Http(_) => self.load.unread == 0 && self.socket.brings_edit(),
            Talk::Live(_) | Talk::Parting(_) | Talk::Last => true,
        }
    }

    /// Whether what it was answered last made others wait.
    pub fn is_slow(&self) -> bool {
        matches!(self.talk, Talk::Http(_)) && self.load.is_slow
    }

    /// Notes that what it was answered made others wait.
    pub fn set_slow(&mut self) {
        self.load.is_slow = true;
    }

    /// Notes that it says nothing more than what has come.
    pub fn note_end(&mut self) {
        self.socket.note_end();
    }

    /// Has it be heard in a later turn.
    pub fn put_off(&mut self) {
        if self.heard == Heard::All {
            self.heard = Heard::Part;
        }
    }

    /// It rests from here on.
    pub fn rest(&mut self) {
        self.is_resting = true;
    }

    /// It rests no more.
    pub fn wake(&mut self, now: Instant) {
        self.is_resting = false;
        self.wait.renew(now);
    }

    /// Has the client be let go in its next turn.
    pub fn give_up(&mut self) {
        self.heard = Heard::Gone;
    }

    /// How much room its requests have taken, in bytes. It keeps that as long as it may ask.
    pub fn room(&self) -> usize {
        match &self.talk {
            Talk::Http(_) => self.load.most,
            Talk::Live(_) | Talk::Parting(_) | Talk::Last => 0,
        }
    }

    /// How many bytes it was given that it hasn't taken yet, heads aside.
    pub fn owed(&self) -> usize {
        self.owed
    }

    /// It was given so many bytes more.
    pub fn note_given(&mut self, count: usize) {
        self.owed = self.owed.saturating_add(count);
    }

    /// Reads what the client says, up to a limit, and until something is due to it. The service answers its requests,
    /// in memory. What was answered in an earlier turn is sent before another request is answered, so that all that is
    /// due to it is of one turn.
    pub fn hear<S: Service>(&mut self, service: &mut S) {
        if self.heard == Heard::Gone {
            return;
        }
        self.heard = match &mut self.talk {
            Talk::Http(connection) => {
                if self.heard == Heard::Part && !connection.wants_write() {
                    connection.advance(service);
                }
                hear_requests(&mut self.socket, connection, service, &mut self.load)
            }
            Talk::Live(listener) => listener.hear(&mut self.socket),
            Talk::Parting(_) => Heard::Part,
            Talk::Last => hear_out(&mut self.socket),
        };
    }

    /// Notes what was heard of it: it has got what was sent before, and where enough of a request has come it is waited for
    /// anew.
    pub fn note_heard(&mut self, now: Instant) {
        if mem::replace(&mut self.load.is_heard, false) {
            self.wait.note_heard();
        }
        if self.load.has_enough() {
            self.wait.renew(now);
        }
    }

    /// Notes that it was answered in this turn what isn't so unless the turn is kept: requests of which the first may
    /// change the document, or not.
    pub fn note_unsure(&mut self, is_change: bool) {
        self.unsure = Some(is_change);
    }

    /// The turn wasn't kept: where it was answered what isn't so, it is sent another answer, by which it may try again
    /// after so many seconds, and none after that.
    pub fn refuse(&mut self, alloc: Global, seconds: u64) {
        let Some(is_change) = self.unsure.take() else {
            return;
        };
        self.owed = 0;
        match parting(alloc, is_change, seconds) {
            Ok(text) => self.talk = Talk::Parting(text),
            Err(_) => self.give_up(),
        }
    }

    /// Notes a text for a listener. It is let go where too much waits for it already.
    pub fn push(&mut self, text: &str) {
        if let Talk::Live(listener) = &mut self.talk {
            if !listener.push(text) {
                self.give_up();
            }
        }
    }

    /// Sends what is due to the client, and goes on with what follows.
    pub fn send<H: Disk>(
        &mut self,
        alloc: Global,
        committed: &Committed<'_, '_, H>,
        now: Instant,
    ) -> Next {
        self.unsure = None;
        if self.heard == Heard::Gone {
            return Next::Never;
        }
        match self.send_all(committed, now) {
            Sent::Gone => Next::Never,
            Sent::Part => Next::Event,
            Sent::All => {
                self.owed = 0;
                if self.go_on(alloc) {
                    Next::Turn
                } else {
                    self.next()
                }
            }
        }
    }

    // When the client is heard again, which has got all that was due to it.
    fn next(&self) -> Next {
        if self.heard != Heard::Part {
            Next::Event
        } else if self.is_slow() {
            Next::Rest
        } else {
            Next::Turn
        }
    }

    // Sends what is due to the client, as far as it takes it.
    fn send_all<H: Disk>(&mut self, committed: &Committed<'_, '_, H>, now: Instant) -> Sent {
        for _ in 0..u32::MAX {
            if !self.wants_write() {
                return Sent::All;
            }
            match self.send_once(committed) {
                Ok(0) => return Sent::Gone,
                Ok(count) => {
                    self.owed = self.owed.saturating_sub(count);
                    self.wait.note_taken(count, now);
                }
                Err(error) => {
                    if let Some(sent) = Sent::after(&error) {
                        return sent;
                    }
                }
            }
        }
        Sent::Part
    }

    fn wants_write(&self) -> bool {
        match &self.talk {
            Talk::Http(connection) => connection.wants_write(),
            Talk::Live(listener) => listener.wants_write(),
            Talk::Parting(text) => !text.is_empty(),
            Talk::Last => false,
        }
    }

    fn send_once<H: Disk>(&mut self, committed: &Committed<'_, '_, H>) -> io::Result<usize> {
        match &mut self.talk {
            Talk::Http(connection) => self.socket.send(committed, connection),
            Talk::Live(listener) => listener.send(committed, &mut self.socket),
            Talk::Parting(text) => self.socket.send_bytes(committed, text),
            Talk::Last => Ok(0),
        }
    }

    // Whether the client now speaks something else, since it has said and got all of what it spoke.
    fn go_on(&mut self, alloc: Global) -> bool {
        let is_done = match &self.talk {
            Talk::Http(connection) => connection.is_done(),
            Talk::Live(listener) => listener.is_done(),
            Talk::Parting(text) => text.is_empty(),
            Talk::Last => false,
        };
        if is_done {
            match mem::replace(&mut self.talk, Talk::Last) {
                Talk::Http(connection) => self.leave_http(alloc, connection),
                Talk::Live(_listener) => self.socket.end(),
                Talk::Parting(_text) => self.socket.end(),
                Talk::Last => (),
            }
        }
        is_done
    }

    // The client is told of changes from here on, where it asked for that, or gets nothing any more.
    fn leave_http(&mut self, alloc: Global, connection: Connection) {
        if connection.state() == State::Upgraded {
            self.talk = Talk::Live(Listener::new(alloc, connection));
        } else {
            self.socket.end();
        }
    }
}

// Reads requests and has them answered, until something is due to the client, or up to a limit. What came before is
// answered already, unless that waits until the client takes what is due.
fn hear_requests<S: Service>(
    socket: &mut Socket,
    connection: &mut Connection,
    service: &mut S,
    load: &mut Load,
) -> Heard {
    if connection.wants_write() || !connection.wants_read() {
        return Heard::Part;
    }
    let mut left = MOST_HEARD;
    for _ in 0..READS {
        match socket.receive(connection) {
            Ok(count) => {
                load.add(count);
                left = left.saturating_sub(count);
                connection.advance(service);
                if connection.wants_write() {
                    load.clear();
                }
                let is_drained = socket.is_drained_by(count);
                if let Some(heard) = heard_so_far(connection, is_drained, left) {
                    return heard;
                }
            }
            Err(error) => return Heard::after(&error),
        }
    }
    Heard::Part
}

// How far a client was heard after a read, where no more is read in this turn. A connection that wants to be read has
// answered each whole request that was read: `advance` rests there only for want of bytes (`Rests` of http_server). So
// once the socket is drained too, nothing is left that only a further turn would do. One that pauses for its output, or
// has read the end, doesn't want to be read, and has that turn.
fn heard_so_far(connection: &Connection, is_drained: bool, left: usize) -> Option<Heard> {
    if !connection.wants_read() {
        Some(Heard::Part)
    } else if is_drained {
        Some(Heard::All)
    } else if left == 0 || connection.wants_write() {
        Some(Heard::Part)
    } else {
        None
    }
}

// Reads what nobody wants any more, up to a limit.
fn hear_out(socket: &mut Socket) -> Heard {
    for _ in 0..READS {
        match socket.discard() {
            Ok(0) => return Heard::Gone,
            Ok(_) => (),
            Err(error) => return Heard::after(&error),
        }
    }
    Heard::Part
}
