//! Requests to a node, and its responses (HTTP/1.1, RFC 9112).
ghost use Rattle.std.specs.Prelude.{◌≡◌, [], None};

use crate::destinations::Destination;
use crate::troubles::Trouble;
use bytes::{BufMut, BytesMut};
use http1::{BodySize, Client, Event, Header, Limits};
use httparse::spans::{EMPTY_HEADER_SPAN, HeaderSpan, Span};
use percent_encoding::{AsciiSet, NON_ALPHANUMERIC, ascii_set, utf8_percent_encode};
use rds_fields::parse_tag;
use rds_questions::Tag;
use std::alloc::{AllocError, Global};
use std::{mem, str};
use websocket::handshake::derive_accept_key;

/// The status of a connection that is handed over.
pub const SWITCHED: u16 = 101;

/// The status of a request that was done.
pub const DONE: u16 = 200;

/// The status of the rest of a file.
pub(crate) const PARTIAL: u16 = 206;

/// The status of a question that is not sent, since it is known.
pub const NOT_MODIFIED: u16 = 304;

/// What is asked for what is told of changes.
const LIVE: &[u8] = b"/live";

/// The fields of a handshake for it, but for its key.
const HANDSHAKE: [(&[u8], &[u8]); 3] = [
    (b"connection", b"Upgrade"),
    (b"upgrade", b"websocket"),
    (b"sec-websocket-version", b"13"),
];

/// The longest body of a response, in bytes.
pub(crate) const LONGEST_BODY: usize = 268_435_456;

/// The most header fields of a response.
const FIELDS: usize = 64;

/// The room that the head of a request is given at least, in bytes.
const HEAD_ROOM: usize = 1024;

/// What of a path is percent-encoded in a target: all but the unreserved characters (RFC 3986) and the slash.
const ENCODED: AsciiSet = ascii_set!(
    NON_ALPHANUMERIC
        .remove(b'-')
        .remove(b'.')
        .remove(b'_')
        .remove(b'~')
        .remove(b'/')
);

/// What a node is asked for.
#[derive(Clone, Copy, Debug, PartialEq, Eq)]
pub enum Resource {
    /// Its question: `GET /ask`.
    Ask,
    /// The tag of that alone: `HEAD /ask`.
    Tag,
    /// Its answer to a question: `POST /answer`.
    Answer,
    /// That it takes an answer to its question: `POST /take`.
    Take,
    /// The same, where the question is known by its tag: `POST /push`.
    Push,
    /// Its answer to a question that is known by its tag: `POST /pull`.
    Pull,
    /// That it edits its document as lines say: `POST /edits`.
    Edits,
    /// That it puts a name last in its roster: `POST /grow`.
    Grow,
    /// What stands at a path: `GET /value/PATH`.
    Value,
    /// The document at a path: `GET /doc/PATH`.
    Document,
    /// The registers with several values, at a path and below it: `GET /conflicts/PATH`.
    Conflicts,
    /// Whose replica it has, and how much there is of it: `GET /status`.
    Status,
    /// The document's snapshot: `GET /snapshot`.
    Snapshot,
}

impl Resource {
    // Whether a request for it has a body.
    fn has_body(self) -> bool {
        matches!(
            self,
            Resource::Answer
                | Resource::Take
                | Resource::Push
                | Resource::Pull
                | Resource::Edits
                | Resource::Grow
        )
    }

    fn method(self) -> &'static [u8] {
        match self {
            Resource::Tag => b"HEAD",
            _ if self.has_body() => b"POST",
            _ => b"GET",
        }
    }

    // What its target is, or begins with, where a path stands behind that.
    fn front(self) -> &'static str {
        match self {
            Resource::Ask | Resource::Tag => "/ask",
            Resource::Answer => "/answer",
            Resource::Take => "/take",
            Resource::Push => "/push",
            Resource::Pull => "/pull",
            Resource::Edits => "/edits",
            Resource::Grow => "/grow",
            Resource::Value => "/value/",
            Resource::Document => "/doc/",
            Resource::Conflicts => "/conflicts/",
            Resource::Status => "/status",
            Resource::Snapshot => "/snapshot",
        }
    }

    // The type of what a node gives for it.
    fn kind(self) -> &'static [u8] {
        match self {
            Resource::Ask
            | Resource::Tag
            | Resource::Answer
            | Resource::Pull
            | Resource::Snapshot => b"application/octet-stream",
            Resource::Edits | Resource::Conflicts => b"application/x-ndjson",
            Resource::Take
            | Resource::Push
            | Resource::Grow
            | Resource::Value
            | Resource::Document
            | Resource::Status => b"application/json",
        }
    }

    fn target(self, alloc: Global, path: &str) -> Result<String, AllocError> {
        let mut target = String::from_str(alloc, self.front())?;
        utf8_percent_encode(path, ENCODED).append_to(&mut target)?;
        Ok(target)
    }

    // The size of a request's body.
    fn body_size(self, length: usize) -> BodySize {
        if self.has_body() {
            BodySize::Known(length as u64)
        } else {
            BodySize::Empty
        }
    }
}

/// A request to a node.
#[derive(Clone, Copy)]
pub struct Request<'r> {
    /// What is asked for.
    pub resource: Resource,
    /// The path at which it is asked for; empty for the root, and where there is none.
    pub path: &'r str,
    /// Nothing is asked for where the peer's tag is one of these: the value of `If-None-Match` (RFC 9110).
    pub unless: Option<&'r str>,
    /// The pieces of the body.
    pub pieces: &'r [&'r [u8]],
}

impl<'r> Request<'r> {
    /// A request whatever the peer's tag is.
    pub fn new(resource: Resource, path: &'r str, pieces: &'r [&'r [u8]]) -> Request<'r>
        ensures resource { result.resource ≡ resource }
        ensures path { result.path.now ≡ path.now }
        ensures unless { result.unless ≡ None }
        ensures pieces { result.pieces.now ≡ pieces.now }
    {
        Request {
            resource,
            path,
            unless: None,
            pieces,
        }
    }
}

/// The rest of a file, which is asked for where its tag is still the same (RFC 9110).
#[derive(Clone, Copy)]
pub(crate) struct Rest<'r> {
    /// Where it begins, as `bytes=7-`.
    pub range: &'r str,
    /// The tag of what came before.
    pub tag: &'r [u8],
}

/// What the head of a response says. An older node tells neither its tag nor its number.
#[derive(Clone, Copy)]
pub struct Head {
    /// The status code.
    pub status: u16,
    /// The tag of what the peer asks.
    pub tag: Option<Tag>,
    /// The peer's number in its roster.
    pub replica: Option<u8>,
    /// From which byte on it has a file, where it has the rest of one.
    pub first: Option<u64>,
    // Whether the body is of the type that a node gives for what was asked for.
    is_due: bool,
}

impl Head {
    /// Nothing was said.
    const NONE: Head = Head {
        status: 0,
        tag: None,
        replica: None,
        first: None,
        is_due: false,
    };

    // What the fields of a head say, which are places in its text, where a type of body is due.
    fn read(status: u16, text: &[u8], fields: &[HeaderSpan], kind: &[u8]) -> Head {
        Head {
            status,
            tag: parse_tag(value_of(text, fields, b"etag")),
            replica: number_in(value_of(text, fields, b"rds-replica")),
            first: first_in(value_of(text, fields, b"content-range")),
            is_due: is_of_kind(value_of(text, fields, b"content-type"), kind),
        }
    }
}

/// What came of a response.
#[derive(Drop)]
pub(crate) struct Part {
    /// What its head says.
    pub head: Head,
    /// The text of its tag; empty where it has none.
    pub tag: Vec<u8>,
    /// The first bytes of its body.
    pub body: Vec<u8>,
}

/// A response that has come whole.
#[derive(Drop)]
pub struct Response {
    /// What its head says.
    pub head: Head,
    /// Its body.
    pub body: Vec<u8>,
}

impl Response {
    /// Whether it has a line for each edit of the request. Where all of these are refused, its status says so.
    pub(crate) fn has_lines(&self, request: &Request<'_>) -> bool {
        matches!(request.resource, Resource::Edits) && self.head.is_due
    }
}

/// What is said over one connection: one request after the other, each of which is answered.
#[derive(Drop)]
pub struct Talk {
    alloc: Global,
    client: Client,
    /// What is to be sent.
    pub output: BytesMut,
    /// What came and wasn't read.
    pub input: BytesMut,
    // The type that the body of the response is to have.
    kind: &'static [u8],
    // What accepts the handshake, where one was asked for (RFC 6455).
    accept: [u8; 28],
    // What came of the response.
    head: Head,
    tag: Vec<u8>,
    body: Vec<u8>,
}

impl Talk {
    /// Nothing was said yet.
    pub fn new(alloc: Global) -> Talk
        ensures output { result.output.items ≡ [] }
        ensures input { result.input.items ≡ [] }
    {
        Talk {
            alloc,
            client: Client::new(Limits::default()),
            output: BytesMut::new(alloc),
            input: BytesMut::new(alloc),
            kind: &[],
            accept: [0; 28],
            head: Head::NONE,
            tag: Vec::new(alloc),
            body: Vec::new(alloc),
        }
    }

    /// Writes a request, with a body of these pieces. Where it fails, a prefix may be written.
    pub fn request(
        &mut self,
        destination: &Destination<'_>,
        request: &Request<'_>,
    ) -> Result<(), Trouble>
        ensures input { self.new.input ≡ self.old.input }
    {
        let length = total_len(request.pieces);
        self.output.reserve(length.saturating_add(HEAD_ROOM))?;
        self.write_head(destination, request, length)?;
        for piece in request.pieces {
            self.client.write_data(&mut self.output, piece)?;
        }
        self.client.write_end(&mut self.output, &[])?;
        self.kind = request.resource.kind();
        Ok(())
    }

    // Writes the head of a request whose body has so many bytes.
    fn write_head(
        &mut self,
        destination: &Destination<'_>,
        request: &Request<'_>,
        length: usize,
    ) -> Result<(), Trouble>
        ensures input { self.new.input ≡ self.old.input }
    {
        let fields = fields_of(self.alloc, destination, request.unless)?;
        let resource = request.resource;
        let target = resource.target(self.alloc, request.path)?;
        self.client.write_request(
            &mut self.output,
            resource.method(),
            target.as_bytes(),
            &fields,
            resource.body_size(length),
        )?;
        Ok(())
    }

    /// Writes a request for a file, or for the rest of it.
    pub(crate) fn request_file(
        &mut self,
        destination: &Destination<'_>,
        resource: Resource,
        rest: Option<Rest<'_>>,
    ) -> Result<(), Trouble> {
        let fields = file_fields(self.alloc, destination, rest)?;
        let target = resource.front().as_bytes();
        self.client
            .write_request(&mut self.output, b"GET", target, &fields, BodySize::Empty)?;
        self.client.write_end(&mut self.output, &[])?;
        self.kind = resource.kind();
        Ok(())
    }

    /// Writes a request for what is told of changes: the connection is to be handed over to WebSocket, by a handshake
    /// of this key (RFC 6455).
    pub(crate) fn handshake(
        &mut self,
        destination: &Destination<'_>,
        key: &[u8; 24],
    ) -> Result<(), Trouble> {
        let fields = handshake_fields(self.alloc, destination, key)?;
        self.client
            .write_request(&mut self.output, b"GET", LIVE, &fields, BodySize::Empty)?;
        self.client.write_end(&mut self.output, &[])?;
        self.accept = derive_accept_key(key);
        Ok(())
    }

    /// Reads the response out of what came, as far as that goes. Answers it once it is whole, or once the connection is
    /// handed over. `Foreign` where it says that the request was done, and its body isn't of the type that a node
    /// gives, or where it hands over otherwise than was asked for.
    pub fn next(&mut self) -> Result<Option<Response>, Trouble> {
        for _ in 0..u64::MAX {
            let mut fields = [EMPTY_HEADER_SPAN; FIELDS];
            let read = self.client.read(self.input.as_slice(), &mut fields)?;
            match read.event {
                Event::Head(head) => {
                    let own = fields.get(..head.headers).unwrap_or(&[]);
                    self.head = Head::read(head.code, self.input.as_slice(), own, self.kind);
                    self.note_tag(own)?;
                    self.check_handover(own)?;
                    self.check_size()?;
                }
                Event::Data(span) => self.keep(span)?,
                Event::Informational(_) => (),
                Event::NeedMore => {
                    self.advance(read.consumed);
                    return Ok(None);
                }
                Event::End(_) => {
                    self.advance(read.consumed);
                    return self.response();
                }
                Event::Paused => return Ok(None),
                Event::Upgraded => return self.response(),
                Event::Closed => return Err(Trouble::Ended),
            }
            self.advance(read.consumed);
        }
        Ok(None)
    }

    /// The peer has ended the connection. Answers the response, where that makes it whole.
    pub fn end(&mut self) -> Result<Option<Response>, Trouble>
        ensures output { self.new.output ≡ self.old.output }
        ensures input { self.new.input ≡ self.old.input }
    {
        match self.client.read_eof()? {
            Event::End(_) => self.response(),
            _ => Err(Trouble::Ended),
        }
    }

    // Notes the text of the tag in these fields of a head.
    fn note_tag(&mut self, fields: &[HeaderSpan]) -> Result<(), Trouble> {
        let tag = value_of(self.input.as_slice(), fields, b"etag");
        self.tag = Vec::from_slice(self.alloc, tag)?;
        Ok(())
    }

    // Refuses a head with these fields that hands the connection over, but not as the handshake asked for.
    fn check_handover(&self, fields: &[HeaderSpan]) -> Result<(), Trouble> {
        let text = self.input.as_slice();
        let is_due = value_of(text, fields, b"upgrade").eq_ignore_ascii_case(b"websocket")
            && value_of(text, fields, b"connection").eq_ignore_ascii_case(b"upgrade")
            && value_of(text, fields, b"sec-websocket-accept") == self.accept.as_slice()
            && value_of(text, fields, b"sec-websocket-extensions").is_empty()
            && value_of(text, fields, b"sec-websocket-protocol").is_empty();
        if self.head.status == SWITCHED && !is_due {
            return Err(Trouble::Foreign);
        }
        Ok(())
    }

    // Refuses a body of which the head says that it is too long.
    fn check_size(&self) -> Result<(), Trouble> {
        match self.client.unread_size() {
            BodySize::Known(size) if (LONGEST_BODY as u64) < size => Err(Trouble::TooLong),
            _ => Ok(()),
        }
    }

    // Keeps a piece of the response's body.
    fn keep(&mut self, span: Span) -> Result<(), Trouble> {
        if let Some(piece) = self.input.as_slice().get(span.start..span.end) {
            if LONGEST_BODY.saturating_sub(self.body.len()) < piece.len() {
                return Err(Trouble::TooLong);
            }
            self.body.extend_from_slice(piece)?;
        }
        Ok(())
    }

    // Leaves behind what was read.
    fn advance(&mut self, count: usize) {
        let len = self.input.len();
        self.input.advance(count.min(len));
    }

    // The response that has come.
    fn response(&mut self) -> Result<Option<Response>, Trouble>
        ensures output { self.new.output ≡ self.old.output }
        ensures input { self.new.input ≡ self.old.input }
    {
        let body = mem::replace(&mut self.body, Vec::new(self.alloc));
        let head = mem::replace(&mut self.head, Head::NONE);
        let is_done = head.status == DONE || head.status == PARTIAL;
        if is_done && !head.is_due {
            return Err(Trouble::Foreign);
        }
        Ok(Some(Response { head, body }))
    }

    /// Hands out what came of a response that isn't whole.
    pub(crate) fn take_part(&mut self) -> Part {
        Part {
            head: mem::replace(&mut self.head, Head::NONE),
            tag: mem::replace(&mut self.tag, Vec::new(self.alloc)),
            body: mem::replace(&mut self.body, Vec::new(self.alloc)),
        }
    }

    /// How much has come of a response that isn't whole, in bytes.
    pub fn room(&self) -> usize {
        self.body.len()
    }

    /// Hands out what came and wasn't read.
    pub(crate) fn take_input(&mut self) -> BytesMut
        ensures taken { result ≡ self.old.input }
        ensures input { self.new.input.items ≡ [] }
    {
        mem::replace(&mut self.input, BytesMut::new(self.alloc))
    }

    /// Lets go of what is to be sent, and of its room.
    pub fn clear_output(&mut self)
        ensures output { self.new.output.items ≡ [] }
        ensures input { self.new.input ≡ self.old.input }
    {
        self.output = BytesMut::new(self.alloc);
    }
}

fn total_len(pieces: &[&[u8]]) -> usize {
    let mut length: usize = 0;
    for piece in pieces {
        length = length.saturating_add(piece.len());
    }
    length
}

// The fields of a request: where it goes, the token where there is one, and the tag.
fn fields_of<'f>(
    alloc: Global,
    destination: &'f Destination<'_>,
    tag: Option<&'f str>,
) -> Result<Vec<Header<'f>>, AllocError> {
    let mut fields = Vec::with_capacity(alloc, 6)?;
    fields.push(Header {
        name: b"host",
        value: destination.name().as_bytes(),
    })?;
    if let Some(value) = destination.authorization() {
        fields.push(Header {
            name: b"authorization",
            value,
        })?;
    }
    if let Some(tag) = tag {
        fields.push(Header {
            name: b"if-none-match",
            value: tag.as_bytes(),
        })?;
    }
    Ok(fields)
}

// The fields of a request for a file, or for the rest of it.
fn file_fields<'f>(
    alloc: Global,
    destination: &'f Destination<'_>,
    rest: Option<Rest<'f>>,
) -> Result<Vec<Header<'f>>, AllocError> {
    let mut fields = fields_of(alloc, destination, None)?;
    if let Some(rest) = rest {
        fields.push(Header {
            name: b"range",
            value: rest.range.as_bytes(),
        })?;
        fields.push(Header {
            name: b"if-range",
            value: rest.tag,
        })?;
    }
    Ok(fields)
}

// The fields of a handshake of this key.
fn handshake_fields<'f>(
    alloc: Global,
    destination: &'f Destination<'_>,
    key: &'f [u8; 24],
) -> Result<Vec<Header<'f>>, AllocError> {
    let mut fields = fields_of(alloc, destination, None)?;
    for (name, value) in HANDSHAKE {
        fields.push(Header { name, value })?;
    }
    fields.push(Header {
        name: b"sec-websocket-key",
        value: key,
    })?;
    Ok(fields)
}

// The value of the first of these fields that has this name, in whatever case; empty where none has.
fn value_of<'t>(text: &'t [u8], fields: &[HeaderSpan], name: &[u8]) -> &'t [u8] {
    for field in fields {
        if covered(text, field.name).eq_ignore_ascii_case(name) {
            return covered(text, field.value);
        }
    }
    &[]
}

// Whether a type of media is this one, in whatever case, and with whatever parameters (RFC 9110).
fn is_of_kind(value: &[u8], kind: &[u8]) -> bool {
    let end = value.iter().position(|b| *b == b';').unwrap_or(value.len());
    match value.get(..end) {
        Some(name) => name.trim_ascii_end().eq_ignore_ascii_case(kind),
        None => false,
    }
}

// What a span covers of a text; nothing where it goes beyond.
fn covered(text: &[u8], span: Span) -> &[u8] {
    text.get(span.start..span.end).unwrap_or(&[])
}

// Where a part of a file begins, by `bytes 7-41/42`.
fn first_in(value: &[u8]) -> Option<u64> {
    let range = value.strip_prefix(b"bytes ")?;
    let end = range.iter().position(|b| *b == b'-')?;
    str::from_utf8(range.get(..end)?).ok()?.parse::<u64>().ok()
}

// The number that digits are.
fn number_in(digits: &[u8]) -> Option<u8> {
    str::from_utf8(digits).ok()?.parse::<u8>().ok()
}
