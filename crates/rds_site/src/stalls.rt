//! What a site does whose file can't be written for now, as where the disk is full: what would change the document is
//! refused for a while, and then one change is tried.
ghost use Rattle.std.specs.Prelude.{◌≡◌, ◌<◌, ◌≤◌};

use crate::refusals::UNKEPT;
use crate::schedule::after;
use bytes::BytesMut;
use std::alloc::{AllocError, Global};
use std::time::{Duration, Instant};

/// The first pause in seconds, and the longest.
const FIRST: u64 = 1;

const LONGEST: u64 = 60;

/// How the answer begins that is sent in place of what a change was answered, and of what a look was.
const UNKEPT_HEAD: &str =
    "HTTP/1.1 507 Insufficient Storage\r\nconnection: close\r\ncontent-type: application/json\r\n";

const UNSEEN: &str =
    "HTTP/1.1 503 Service Unavailable\r\nconnection: close\r\nretry-after: 0\r\ncontent-length: 0\r\n\r\n";

/// While a site's file can't be written: until when what would change the document is refused, and for how many seconds
/// that was.
#[derive(Clone, Copy, Debug)]
pub struct Stall {
    until: Instant,
    pause: u64,
}

impl Stall {
    /// The one after the file couldn't be written at this time: a longer one than an earlier one.
    pub fn next(earlier: Option<Stall>, now: Instant) -> Stall {
        let pause = match earlier {
            Some(stall) => longer(stall.pause),
            None => FIRST,
        };
        Stall {
            until: after(now, Duration::from_secs(pause)),
            pause,
        }
    }

    /// Until when.
    pub fn until(self) -> Instant {
        self.until
    }

    /// For how many seconds.
    pub fn pause(self) -> u64 {
        self.pause
    }

    /// After how many seconds a change may be tried, where it may not be now.
    pub fn left(self, now: Instant) -> Option<u64> {
        if self.until <= now {
            return None;
        }
        let left = self.until.duration_since(now).as_secs();
        Some(left.saturating_add(1).min(self.pause))
    }
}

/// The pause after one of so many seconds: twice as long, of a minute at most.
fn longer(pause: u64) -> u64
    ensures most { result ≤ 60 }
    ensures grows { pause ≤ 30 → 0 < pause → pause < result }
    ensures longest { 30 < pause → result ≡ 60 }
{
    pause.saturating_mul(2).min(LONGEST)
}

/// The last answer over a connection whose requests of a turn came to nothing, as a text of HTTP: to a change that it
/// wasn't kept, and to what only looks that it may have shown such a change. A change may be tried again after so many
/// seconds.
pub fn parting(alloc: Global, is_change: bool, seconds: u64) -> Result<BytesMut, AllocError> {
    let mut text = BytesMut::new(alloc);
    if is_change {
        let length = UNKEPT.len();
        let whole = format!(in alloc;
            "{UNKEPT_HEAD}retry-after: {seconds}\r\ncontent-length: {length}\r\n\r\n{UNKEPT}"
        )?;
        text.extend_from_slice(whole.as_bytes())?;
    } else {
        text.extend_from_slice(UNSEEN.as_bytes())?;
    }
    Ok(text)
}

/// Tells on standard error, in a line, that changes of this file are refused from here on.
pub fn tell_begin<H: Eprint>(rt: &H, file: &str) {
    let _ = eprintln!(rt;
        "{file}: can't be written: changes are refused until it can, and looks are answered"
    );
}

/// Tells on standard error, in a line, that this file was written again.
pub fn tell_end<H: Eprint>(rt: &H, file: &str) {
    let _ = eprintln!(rt; "{file}: was written again: changes are done from here on");
}
