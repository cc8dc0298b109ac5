//! Clients that are told of changes, over WebSocket (RFC 6455).
use crate::committed::Committed;
use crate::sockets::{Heard, Socket};
use bytes::BytesMut;
use http_server::{Connection, Rope};
use rds_files::Disk;
use std::alloc::Global;
use std::io;
use websocket::protocol::{
    CloseCode, CloseFrame, FrameStatus, Message, NoMask, Role, WebSocketConfig, WebSocketContext,
};

/// More bytes than this don't wait for a listener.
const MOST_WAITING: usize = 262_144;

/// More bytes than this aren't taken of a listener in a frame.
const LONGEST_FRAME: usize = 65_536;

/// The room that a read of frames is given at least, in bytes.
const ROOM: usize = 4096;

/// How often a listener is read in one turn.
const READS: u32 = 16;

/// A client that is told of changes. What it says is left aside, but for pings and its close, which are answered.
#[derive(Drop)]
pub struct Listener {
    socket: WebSocketContext,
    input: BytesMut,
    output: Rope,
}

impl Listener {
    /// Of a connection that was handed over.
    pub fn new(alloc: Global, connection: Connection) -> Listener {
        let (input, output) = connection.into_buffers();
        let config = WebSocketConfig {
            max_message_size: Some(LONGEST_FRAME),
            max_frame_size: Some(LONGEST_FRAME),
            accept_unmasked_frames: false,
        };
        Listener {
            socket: WebSocketContext::new(alloc, Role::Server, config),
            input,
            output,
        }
    }

    /// Reads what the listener says, and notes what answers it.
    pub fn hear(&mut self, socket: &mut Socket) -> Heard {
        for _ in 0..READS {
            self.take_frames();
            if MOST_WAITING < self.output.len() {
                return Heard::Gone;
            }
            if !self.socket.can_write() {
                return Heard::All;
            }
            match socket.receive_bytes(&mut self.input, ROOM) {
                Ok(0) => return Heard::Gone,
                Ok(_) => (),
                Err(error) => return Heard::after(&error),
            }
        }
        Heard::Part
    }

    // Takes the frames that are whole. One that breaks the protocol is answered by a close.
    fn take_frames(&mut self) {
        for _ in 0..u32::MAX {
            match self
                .socket
                .read(self.input.as_mut_slice(), &mut self.output, &mut NoMask)
            {
                Ok(FrameStatus::Complete(step)) => {
                    let len = self.input.len();
                    self.input.advance(step.consumed.min(len));
                }
                Ok(FrameStatus::Partial(_)) => return,
                Err(_) => {
                    self.give_up();
                    return;
                }
            }
        }
    }

    // Closes after a frame that breaks the protocol. Where there is no memory for that, it is closed without a word.
    fn give_up(&mut self) {
        let frame = CloseFrame {
            code: CloseCode::Protocol,
            reason: "",
        };
        let _ = self
            .socket
            .close(Some(frame), &mut self.output, &mut NoMask);
    }

    /// Notes a text to be sent. Answers whether the listener stays: not where too much waits already.
    pub fn push(&mut self, text: &str) -> bool {
        if !self.socket.can_write() {
            return true;
        }
        let written = self
            .socket
            .write(Message::Text(text), &mut self.output, &mut NoMask);
        written.is_ok() && self.output.len() <= MOST_WAITING
    }

    /// Notes a ping to be sent, where nothing waits. What stands between the two may let a quiet connection go. Answers
    /// whether there is one.
    pub fn ping(&mut self) -> bool {
        if self.wants_write() || !self.socket.can_write() {
            return false;
        }
        self.socket
            .write(Message::Ping(&[]), &mut self.output, &mut NoMask)
            .is_ok()
    }

    /// Sends what waits, once.
    pub fn send<H: Disk>(
        &mut self,
        committed: &Committed<'_, '_, H>,
        socket: &mut Socket,
    ) -> io::Result<usize> {
        socket.send_frames(committed, &mut self.output)
    }

    /// Whether anything waits to be sent.
    pub fn wants_write(&self) -> bool {
        !self.output.is_empty()
    }

    /// Whether both sides have closed, and nothing waits.
    pub fn is_done(&self) -> bool {
        !self.socket.can_write() && self.output.is_empty()
    }
}
