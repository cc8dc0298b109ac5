//! A connection with a peer.
use crate::committed::Committed;
use crate::patience::Wait;
use crate::sockets::{Heard, Sent, Socket};
use rds_client::{Destination, Request, Response, Talk, Trouble};
use rds_files::Disk;
use std::alloc::Global;
use std::time::Instant;

/// So many bytes of a response are enough.
const ENOUGH: usize = 1024;

/// The room that a read is given, in bytes.
const ROOM: usize = 65_536;

/// How often a peer is read in one turn at most.
const READS: u32 = 16;

/// A connection with a peer: its socket, and what is said over it.
#[derive(Drop)]
pub struct Channel {
    socket: Socket,
    talk: Talk,
    // Since when it lets wait: a byte went then, or enough came. How many bytes have come since.
    wait: Wait,
    come: usize,
    heard: Heard,
    // Whether anything came since the last request.
    is_answered: bool,
}

impl Channel {
    /// Over a socket that was just connected, which is heard at once.
    pub fn new(alloc: Global, socket: Socket, now: Instant) -> Channel {
        Channel {
            socket,
            talk: Talk::new(alloc),
            wait: Wait::new(now),
            come: 0,
            heard: Heard::Part,
            is_answered: false,
        }
    }

    /// How long the peer may let wait: for a byte that goes, a response that begins or ends, or enough of it.
    pub fn wait(&self) -> Wait {
        self.wait
    }

    /// Whether the peer is to be heard again without an event.
    pub fn has_more(&self) -> bool {
        self.heard == Heard::Part
    }

    /// Whether anything came since the last request.
    pub fn is_answered(&self) -> bool {
        self.is_answered
    }

    /// How much has come of a response that isn't whole, in bytes.
    pub fn room(&self) -> usize {
        self.talk.room()
    }

    /// How much of a request waits to be sent, in bytes.
    pub fn going(&self) -> usize {
        self.talk.output.len()
    }

    /// Writes a request.
    pub fn request(
        &mut self,
        destination: &Destination<'_>,
        request: &Request<'_>,
        now: Instant,
    ) -> Result<(), Trouble> {
        self.talk.request(destination, request)?;
        self.wait.renew(now);
        self.is_answered = false;
        Ok(())
    }

    /// Reads what the peer says, up to a limit, and until a response is whole.
    pub fn hear(&mut self, now: Instant) -> Result<Option<Response>, Trouble> {
        self.heard = Heard::Part;
        for _ in 0..READS {
            if let Some(response) = self.talk.next()? {
                return Ok(Some(response));
            }
            match self.socket.receive_bytes(&mut self.talk.input, ROOM) {
                Ok(0) => return self.talk.end(),
                Ok(count) => self.note(count, now),
                Err(error) => {
                    self.heard = Heard::after(&error);
                    if self.heard == Heard::Gone {
                        return Err(Trouble::from(error));
                    }
                    return Ok(None);
                }
            }
        }
        Ok(None)
    }

    // Notes bytes that came: the first of a response, or further ones.
    fn note(&mut self, count: usize, now: Instant) {
        self.come = self.come.saturating_add(count);
        if !self.is_answered || ENOUGH <= self.come {
            self.wait.renew(now);
            self.come = 0;
        }
        self.wait.note_heard();
        self.is_answered = true;
    }

    /// Sends what waits, as far as the peer takes it. Where it takes nothing any more, what it still says is heard.
    pub fn send<H: Disk>(&mut self, committed: &Committed<'_, '_, H>, now: Instant) {
        for _ in 0..u32::MAX {
            if self.talk.output.is_empty() {
                return;
            }
            match self.send_once(committed, now) {
                None => (),
                Some(Sent::Part) => return,
                Some(Sent::All) | Some(Sent::Gone) => {
                    self.talk.clear_output();
                    self.heard = Heard::Part;
                    return;
                }
            }
        }
    }

    // Sends once. Answers how far the peer took what waits, where that ends the sending.
    fn send_once<H: Disk>(
        &mut self,
        committed: &Committed<'_, '_, H>,
        now: Instant,
    ) -> Option<Sent> {
        match self.socket.send_bytes(committed, &mut self.talk.output) {
            Ok(0) => Some(Sent::Gone),
            Ok(count) => {
                self.wait.note_taken(count, now);
                if self.talk.output.is_empty() {
                    self.talk.clear_output();
                }
                None
            }
            Err(error) => Sent::after(&error),
        }
    }
}
