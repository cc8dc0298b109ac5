//! What comes over a connection that a node has handed over, as frames of WebSocket (RFC 6455), and what answers them.
use crate::troubles::Trouble;
use bytes::BytesMut;
use std::alloc::Global;
use std::random::RandomSource;
use std::{io, str};
use websocket::protocol::{
    FrameStatus, MaskKeys, Payload, Received, Role, Step, WebSocketConfig, WebSocketContext,
};

/// The longest text that is taken, in bytes.
const LONGEST: usize = 65_536;

/// What a frame brought.
#[derive(Drop)]
pub enum Came {
    /// A text.
    Text(String),
    /// The node closes.
    Close,
    /// Nothing that is reported.
    Other,
}

/// Keys that mask what goes to a node, each from the system.
#[derive(Drop)]
pub struct Keys<'a, H> {
    rt: &'a H,
    error: Option<io::Error>,
}

impl<'a, H> Keys<'a, H> {
    /// None failed yet.
    pub fn new(rt: &'a H) -> Keys<'a, H> {
        Keys { rt, error: None }
    }

    /// Why the last call failed that the system has no key for, where one did.
    pub fn error(self) -> Option<io::Error> {
        let Keys { rt: _, error } = self;
        error
    }
}

impl<H: RandomSource> MaskKeys for Keys<'_, H> {
    fn next_key(&mut self) -> [u8; 4] {
        let mut key = [0; 4];
        if let Err(error) = self.rt.fill_bytes(&mut key) {
            self.error = Some(error);
        }
        key
    }

    fn has_failed(&self) -> bool {
        self.error.is_some()
    }
}

/// A connection that was handed over: what came over it, and what is to be sent.
#[derive(Drop)]
pub struct Feed {
    alloc: Global,
    socket: WebSocketContext,
    /// What came and wasn't taken.
    pub input: BytesMut,
    /// What is to be sent.
    pub output: BytesMut,
}

impl Feed {
    /// Of a connection over which so much came already.
    pub fn new(alloc: Global, input: BytesMut) -> Feed {
        let config = WebSocketConfig {
            max_message_size: Some(LONGEST),
            max_frame_size: Some(LONGEST),
            accept_unmasked_frames: false,
        };
        Feed {
            alloc,
            socket: WebSocketContext::new(alloc, Role::Client, config),
            input,
            output: BytesMut::new(alloc),
        }
    }

    /// Takes the next frame, where it has come whole, and notes what answers a ping or a close. `Unframed` where it
    /// breaks the protocol, and `TooLong` of one that is too long.
    pub fn take<H: RandomSource>(&mut self, rt: &H) -> Result<Option<Came>, Trouble> {
        let mut keys = Keys::new(rt);
        let status = self
            .socket
            .read(self.input.as_mut_slice(), &mut self.output, &mut keys)?;
        if let Some(error) = keys.error() {
            return Err(Trouble::from(error));
        }
        match status {
            FrameStatus::Partial(_) => Ok(None),
            FrameStatus::Complete(step) => Ok(Some(self.finish(&step)?)),
        }
    }

    // What a frame brought, which is left behind.
    fn finish(&mut self, step: &Step) -> Result<Came, Trouble> {
        let came = self.came(step)?;
        let len = self.input.len();
        self.input.advance(step.consumed.min(len));
        Ok(came)
    }

    fn came(&self, step: &Step) -> Result<Came, Trouble> {
        match &step.message {
            Some(Received::Text(payload)) => Ok(Came::Text(self.text(payload)?)),
            Some(Received::Close(_)) => Ok(Came::Close),
            _ => Ok(Came::Other),
        }
    }

    // The text that a payload is.
    fn text(&self, payload: &Payload) -> Result<String, Trouble> {
        let bytes = match payload {
            Payload::Input(span) => self.input.as_slice().get(span.start..span.end),
            Payload::Assembled(bytes) => Some(bytes.as_slice()),
        };
        match str::from_utf8(bytes.unwrap_or(&[])) {
            Ok(text) => Ok(String::from_str(self.alloc, text)?),
            Err(_) => Err(Trouble::Foreign),
        }
    }
}
