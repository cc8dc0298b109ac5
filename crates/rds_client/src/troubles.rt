//! Why an exchange with a peer broke off, or how it ended, and how the peer stands then.
ghost use Rattle.std.specs.Prelude.{◌≡◌, ◌≢◌};
ghost use Rattle.rds_client.specs.Troubles.{StandsAfter, fault_of, is_refused_standing};
ghost use Rattle.rds_client.specs.declared.troubles.End.TheVariants as Ends;
ghost use Rattle.rds_client.specs.declared.troubles.Standing.TheVariants.{Forked, Met};

use crate::requests::Response;
use http1::{ReadError, WriteError};
use rds_names::Fault;
use std::alloc::AllocError;
use std::{fmt, io, str};
use websocket::error::Error as FrameError;

/// So many bytes of a peer's own words, or of a fault's name, are told at most: strangers choose them.
const MOST_TOLD: usize = 200;

/// The faults by which a node refuses a request, and which say no more than their names.
const NAMED: [Fault; 16] = [
    Fault::Memory,
    Fault::BadName,
    Fault::BadKey,
    Fault::BadPath,
    Fault::BadRoster,
    Fault::WrongAsker,
    Fault::Cut,
    Fault::Bad,
    Fault::Extra,
    Fault::TooLong,
    Fault::TooManyDots,
    Fault::BadCertificate,
    Fault::WrongGroup,
    Fault::WrongRoster,
    Fault::SameReplica,
    Fault::Device,
];

/// What is reported of a peer that is forked.
pub const FORKED: &str = "has seen the same, and holds different entries: 28 Forked";

/// Why an exchange with a peer broke off.
#[derive(Drop)]
pub enum Trouble {
    /// There was no memory here.
    Memory,
    /// A call of the system failed.
    System(io::Error),
    /// The peer ended the connection.
    Ended,
    /// For so many seconds nothing went or came, or too little.
    Silence(u64),
    /// So many bytes went and came in all the time that there was for them.
    Slow { moved: u64, seconds: u64 },
    /// A response is none of HTTP/1.1.
    Garbled(ReadError),
    /// What comes over a connection that was handed over is no WebSocket (RFC 6455).
    Unframed(FrameError),
    /// A response says that a request was done, and is none of a node; nor is what is told of changes.
    Foreign,
    /// A response is too long, alone or with those of other peers.
    TooLong,
    /// The peer refused a request.
    Refused(Response),
    /// The site refused what the peer's response brought.
    Unfit(Fault),
}

impl From<AllocError> for Trouble {
    fn from(_error: AllocError) -> Trouble {
        Trouble::Memory
    }
}

impl From<io::Error> for Trouble {
    fn from(error: io::Error) -> Trouble {
        match error.kind() {
            io::ErrorKind::OutOfMemory => Trouble::Memory,
            _ => Trouble::System(error),
        }
    }
}

impl From<ReadError> for Trouble {
    fn from(error: ReadError) -> Trouble {
        match error {
            ReadError::UnexpectedEof => Trouble::Ended,
            _ => Trouble::Garbled(error),
        }
    }
}

impl From<WriteError> for Trouble {
    fn from(error: WriteError) -> Trouble {
        match error {
            WriteError::OutOfMemory => Trouble::Memory,
            _ => Trouble::Ended,
        }
    }
}

impl From<FrameError> for Trouble {
    fn from(error: FrameError) -> Trouble {
        match error {
            FrameError::OutOfMemory => Trouble::Memory,
            FrameError::ConnectionClosed | FrameError::AlreadyClosed => Trouble::Ended,
            FrameError::Capacity(_) => Trouble::TooLong,
            _ => Trouble::Unframed(error),
        }
    }
}

impl From<Fault> for Trouble {
    fn from(fault: Fault) -> Trouble {
        match fault {
            Fault::Memory => Trouble::Memory,
            _ => Trouble::Unfit(fault),
        }
    }
}

/// How an exchange ended.
#[derive(Clone, Copy, Debug, PartialEq, Eq)]
pub enum End {
    /// Neither lacks anything.
    Level,
    /// What was lacking has gone over.
    Done,
    /// Both have seen the same, and hold different entries.
    Forked,
}

/// How a peer stands.
#[derive(Clone, Copy, Debug, PartialEq, Eq)]
pub enum Standing {
    /// It wasn't met yet.
    Unmet,
    /// The last exchange with it was done.
    Met,
    /// It can't be met.
    Lost,
    /// It refused a request with this status, and the number of its fault where it told of one.
    Refused { status: u16, fault: Option<u8> },
    /// What it brought was refused, with a fault of this number.
    Unfit { fault: u8 },
    /// Both have seen the same, and hold different entries.
    Forked,
}

impl Standing {
    /// How a peer that stood so does after an exchange. One that is forked stays so until neither lacks anything: what
    /// goes over says nothing of what both have seen.
    pub fn after(self, end: End) -> Standing
        ensures level { end ≡ Ends.Level → result ≡ Met }
        ensures forked { end ≡ Ends.Forked → result ≡ Forked }
        ensures done { end ≡ Ends.Done → self ≢ Forked → result ≡ Met }
        ensures stays { end ≡ Ends.Done → self ≡ Forked → result ≡ Forked }
    {
        match (end, self) {
            (End::Forked, _) | (End::Done, Standing::Forked) => Standing::Forked,
            (End::Level | End::Done, _) => Standing::Met,
        }
    }

    /// Tells of it on standard error, in a line, where it comes of an exchange that ended.
    pub fn tell<H: Eprint>(self, rt: &H, name: &str) {
        let _ = match self {
            Standing::Met => eprintln!(rt; "peer {name}: met"),
            Standing::Forked => eprintln!(rt; "peer {name}: {FORKED}"),
            _ => return,
        };
    }

    /// Whether one of the two sides refused the other.
    pub fn is_refusal(self) -> bool
        ensures { result ≡ is_refused_standing self }
    {
        matches!(self, Standing::Refused { .. } | Standing::Unfit { .. })
    }
}

impl Trouble {
    /// How the peer stands after it.
    pub fn standing(&self) -> Standing
        ensures { StandsAfter self.now result }
    {
        match self {
            Trouble::Refused(response) => Standing::Refused {
                status: response.head.status,
                fault: fault_in(&response.body).map(|fault| fault.0),
            },
            Trouble::Unfit(fault) => Standing::Unfit {
                fault: fault.number(),
            },
            _ => Standing::Lost,
        }
    }

    /// The fault that it is for who met the peer.
    pub fn fault(&self) -> Fault
        ensures { result ≡ fault_of self.now }
    {
        match self {
            Trouble::Memory => Fault::Memory,
            Trouble::System(_) | Trouble::Silence(_) | Trouble::Slow { .. } => Fault::Device,
            Trouble::Ended | Trouble::Refused(_) => Fault::PeerEnded,
            Trouble::Garbled(_) | Trouble::Unframed(_) | Trouble::Foreign => Fault::OutOfTurn,
            Trouble::TooLong => Fault::TooLong,
            Trouble::Unfit(fault) => *fault,
        }
    }

    /// Whether another try may go well: the connection was lost, or couldn't be had.
    pub(crate) fn may_pass(&self) -> bool {
        matches!(
            self,
            Trouble::System(_) | Trouble::Ended | Trouble::Silence(_)
        )
    }

    /// The fault that it is for who had the peer do something: the peer's own, where it refused that by one which says
    /// no more than its name.
    pub(crate) fn refusal(&self) -> Fault {
        match self {
            Trouble::Refused(response) => match fault_in(&response.body) {
                Some((number, _)) => named_by(number).unwrap_or(Fault::PeerEnded),
                None => Fault::PeerEnded,
            },
            _ => self.fault(),
        }
    }

    /// Tells of it on standard error, in a line.
    pub fn tell<H: Eprint>(&self, rt: &H, name: &str) {
        let _ = eprintln!(rt; "peer {name}: {self}");
    }
}

/// What happened to the peer, and why.
impl fmt::Display for Trouble {
    fn fmt<W: fmt::Write>(&self, f: &mut fmt::Formatter<W>) -> fmt::Result {
        match self {
            Trouble::Memory => f.write_str("lost: there is no memory"),
            Trouble::System(error) => write!(f, "lost: {error}"),
            Trouble::Ended => f.write_str("lost: it ended the connection"),
            Trouble::Silence(seconds) => {
                write!(f, "lost: nothing or too little in {seconds} seconds")
            }
            Trouble::Slow { moved, seconds } => {
                write!(f, "lost: too slow: {moved} bytes in {seconds} seconds")
            }
            Trouble::Garbled(error) => write!(f, "lost: its response is no HTTP/1.1: {error}"),
            Trouble::Unframed(error) => write!(f, "lost: what it says is no WebSocket: {error}"),
            Trouble::Foreign => f.write_str("lost: is no node: its response has another type"),
            Trouble::TooLong => f.write_str("lost: its response is too long"),
            Trouble::Refused(response) => write_refusal(response, f),
            Trouble::Unfit(fault) => {
                let number = fault.number();
                let word = fault.name();
                write!(f, "brings what is refused: {number} {word}")
            }
        }
    }
}

/// Tells of a trouble with a peer on standard error, and answers the fault that it is.
pub fn tell<H: Eprint>(rt: &H, name: &str, trouble: Trouble) -> Fault
    ensures { result ≡ fault_of trouble }
{
    trouble.tell(rt, name);
    trouble.fault()
}

fn write_refusal<W: fmt::Write>(response: &Response, f: &mut fmt::Formatter<W>) -> fmt::Result {
    let status = response.head.status;
    match (fault_in(&response.body), words_in(&response.body)) {
        (Some((number, word)), _) => write!(f, "refused: {status}: {number} {word}"),
        (None, Some(words)) => write!(f, "refused: {status}: {words}"),
        (None, None) => write!(f, "refused: {status}"),
    }
}

// Why a body says that a request wasn't let in, as `{"status":401,"text":"the token is due"}` does, where a terminal
// can show that and it isn't long.
fn words_in(body: &[u8]) -> Option<&str> {
    let (_, rest) = str::from_utf8(body).ok()?.split_once("\"text\":\"")?;
    let (words, _) = rest.split_once('"')?;
    let is_shown = words
        .as_bytes()
        .iter()
        .all(|b| b.is_ascii_graphic() || *b == b' ');
    if is_shown && words.len() <= MOST_TOLD {
        Some(words)
    } else {
        None
    }
}

// The number and the name of the fault that a body tells of, as `{"fault":9,"name":"Conflict"` begins one.
fn fault_in(body: &[u8]) -> Option<(u8, &str)> {
    let rest = behind(b"{\"fault\":", body)?;
    let end = rest.iter().position(|b| !b.is_ascii_digit())?;
    let (digits, rest) = rest.split_at_checked(end)?;
    let number = str::from_utf8(digits).ok()?.parse::<u8>().ok()?;
    let rest = behind(b",\"name\":\"", rest)?;
    let end = rest.iter().position(|b| !b.is_ascii_alphabetic())?;
    if MOST_TOLD < end {
        return None;
    }
    let (word, _) = rest.split_at_checked(end)?;
    Some((number, str::from_utf8(word).ok()?))
}

// The fault of a number by which a node refuses, where it says no more than its name.
fn named_by(number: u8) -> Option<Fault> {
    for fault in NAMED {
        if fault.number() == number {
            return Some(fault);
        }
    }
    None
}

fn behind<'b>(start: &[u8], bytes: &'b [u8]) -> Option<&'b [u8]> {
    bytes.strip_prefix(start)
}
