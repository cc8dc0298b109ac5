//! A stream within the time that a session has.
ghost use Rattle.std.specs.Prelude.{◌≡◌};

use std::cell::Cell;
use std::io;
use std::io::{ErrorKind, Read, Write};
use std::net::OpenStream;
use std::time::{Clock, Duration, Instant};

/// How many times the timeout a session has that moves little.
const WAITS: u64 = 10;

/// How many bytes give a session one timeout more.
const PORTION: u64 = 1_048_576;

/// The time that a session has: the timeout bounds each wait, and ten times the timeout the whole, to which each full
/// megabyte (1,048,576 bytes) that came or went adds one timeout more. Without a timeout nothing is bounded.
pub struct Pace<'a, C: Clock> {
    clock: &'a C,
    limit: Option<Limit>,
    moved: Cell<u64>,
    // The longest wait that the stream knows of: of its reads, and of its writes.
    reads: Cell<Option<Duration>>,
    writes: Cell<Option<Duration>>,
    is_over: bool,
}

// Written out, so that where it is let go a caller's proof has one call.
impl<'a, C: Clock> Drop for Pace<'a, C> {
    fn drop(self) {
        let Pace {
            clock: _,
            limit: _,
            moved: _moved,
            reads: _reads,
            writes: _writes,
            is_over: _,
        } = self;
    }
}

/// How long a wait may take, and when the session began.
#[derive(Clone, Copy)]
struct Limit {
    timeout: Duration,
    began: Instant,
}

/// The time of a session that is over, for letting its peer go.
#[derive(Clone, Copy)]
pub struct Rest {
    limit: Option<Limit>,
    moved: u64,
    reads: Option<Duration>,
}

impl<'a, C: Clock> Pace<'a, C> {
    /// A session begins over a stream that knows of the timeout. An error where there is one, and the clock can't be
    /// read.
    pub fn begin(clock: &'a C, timeout: Option<Duration>) -> io::Result<Pace<'a, C>> {
        let limit = match timeout {
            Some(timeout) => Some(Limit {
                timeout,
                began: Instant::now(clock)?,
            }),
            None => None,
        };
        Ok(Pace {
            clock,
            limit,
            moved: Cell::new(0),
            reads: Cell::new(timeout),
            writes: Cell::new(timeout),
            is_over: false,
        })
    }

    /// The session is over.
    pub fn rest(&self) -> Rest {
        Rest {
            limit: self.limit,
            moved: self.moved.get(),
            reads: self.reads.get(),
        }
    }

    // So many bytes came or went. Those that come when the session is over add nothing.
    fn note(&self, count: usize) {
        if !self.is_over {
            self.moved
                .set(self.moved.get().saturating_add(count as u64));
        }
    }

    // How long the next call may take, where the stream knows of another time. An error where no time is left.
    fn new_wait(&self, known: &Cell<Option<Duration>>) -> io::Result<Option<Duration>> {
        let wait = self.wait()?;
        if wait == known.get() {
            return Ok(None);
        }
        known.set(wait);
        Ok(wait)
    }

    // How long the next call may take, or that it may take any time. An error where no time is left.
    fn wait(&self) -> io::Result<Option<Duration>> {
        let Some(limit) = self.limit else {
            return Ok(None);
        };
        let spent = limit.began.elapsed(self.clock)?;
        match limit.whole(self.moved.get()).checked_sub(spent) {
            Some(left) if !left.is_zero() => Ok(Some(limit.timeout.min(left))),
            _ => Err(io::Error::from(ErrorKind::TimedOut)),
        }
    }
}

impl Limit {
    // How long a session may take that moved so many bytes.
    fn whole(self, moved: u64) -> Duration {
        let times = (moved / PORTION).saturating_add(WAITS);
        self.timeout
            .saturating_mul(u32::try_from(times).unwrap_or(u32::MAX))
    }
}

impl Rest {
    /// The time that is left to let the peer go.
    pub fn pace<'a, C: Clock>(self, clock: &'a C) -> Pace<'a, C> {
        Pace {
            clock,
            limit: self.limit,
            moved: Cell::new(self.moved),
            reads: Cell::new(self.reads),
            writes: Cell::new(None),
            is_over: true,
        }
    }
}

/// A stream on which each call takes at most the time that the session has left for it. A call for which none is left
/// fails, and the stream isn't touched.
#[derive(Drop)]
pub struct Paced<'a, C: Clock, T> {
    pace: &'a Pace<'a, C>,
    stream: &'a mut T,
}

impl<'a, C: Clock, T> Paced<'a, C, T> {
    /// The stream at this pace.
    pub fn new(pace: &'a Pace<'a, C>, stream: &'a mut T) -> Paced<'a, C, T>
        ensures { result.stream.now ≡ stream.old }
    {
        Paced { pace, stream }
    }
}

impl<C: Clock, T: Read + OpenStream> Read for Paced<'_, C, T> {
    ghost remaining = { λ p. T.remaining p.stream.now };

    fn read(&mut self, buf: &mut [u8]) -> io::Result<usize> {
        if let Some(wait) = self.pace.new_wait(&self.pace.reads)? {
            self.stream.set_read_timeout(Some(wait))?;
        }
        let count = self.stream.read(buf)?;
        self.pace.note(count);
        Ok(count)
    }
}

impl<C: Clock, T: Write + OpenStream> Write for Paced<'_, C, T> {
    ghost contents = { λ p. T.contents p.stream.now };

    fn write(&mut self, buf: &[u8]) -> io::Result<usize> {
        if let Some(wait) = self.pace.new_wait(&self.pace.writes)? {
            self.stream.set_write_timeout(Some(wait))?;
        }
        let count = self.stream.write(buf)?;
        self.pace.note(count);
        Ok(count)
    }

    fn flush(&mut self) -> io::Result<()> {
        self.stream.flush()
    }
}
