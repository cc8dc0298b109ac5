//! When the next exchange with a peer begins, and how long clients rest that make others wait.
use std::time::{Duration, Instant};

/// Changes within so many milliseconds go to a peer together.
const DRAWN_TOGETHER: u64 = 20;

/// An exchange is followed by a rest of so many times the time that it took here.
const REST: u32 = 10;

/// The longest such rest, in milliseconds.
const LONGEST_REST: u64 = 2000;

/// The longest wait after a failure, in seconds.
const LONGEST_WAIT: u64 = 8;

/// One that failed is tried again after so many times the time that it took here, and no sooner. All else waits while a
/// name is looked up, which may take seconds.
const FAILED_REST: u32 = 50;

/// The longest such rest, in seconds.
const LONGEST_FAILED_REST: u64 = 600;

/// A client makes others wait where what it asks for takes so many milliseconds.
const LONG: u64 = 5;

/// Clients that make others wait rest so many times as long as the others had to.
const CLIENTS_REST: u32 = 4;

/// They rest for so many milliseconds at most after another was heard.
const QUIET: u64 = 50;

/// When the next exchange with a peer begins: where it is due, but not before the earliest.
#[derive(Clone, Copy, Debug)]
pub struct Schedule {
    every: Duration,
    due: Instant,
    earliest: Instant,
    // What the exchange under way has taken here.
    spent: Duration,
    // How many exchanges have failed since the last that was done.
    failures: u32,
}

impl Schedule {
    /// An exchange is due now, and then every so many seconds.
    pub fn new(every: u32, now: Instant) -> Schedule {
        Schedule {
            every: Duration::from_secs(u64::from(every.max(1))),
            due: now,
            earliest: now,
            spent: Duration::ZERO,
            failures: 0,
        }
    }

    /// When the next exchange begins.
    pub fn next(&self) -> Instant {
        self.due.max(self.earliest)
    }

    /// Whether an exchange is to begin.
    pub fn is_due(&self, now: Instant) -> bool {
        self.next() <= now
    }

    /// Something changed that the peer may lack.
    pub fn note_change(&mut self, now: Instant) {
        self.due = self
            .due
            .min(after(now, Duration::from_millis(DRAWN_TOGETHER)));
    }

    /// An exchange begins.
    pub fn begin(&mut self, now: Instant) {
        self.due = after(now, self.every);
        self.spent = Duration::ZERO;
    }

    /// The exchange under way was in vain: the next is due at once.
    pub fn recall(&mut self, now: Instant) {
        self.due = now;
    }

    /// What came of the exchange under way is lost: the next is due at this instant, and not before.
    pub fn put_off(&mut self, until: Instant) {
        self.due = until;
        self.earliest = self.earliest.max(until);
        self.spent = Duration::ZERO;
    }

    /// The exchange under way took so much more time here.
    pub fn spend(&mut self, time: Duration) {
        self.spent = self.spent.saturating_add(time);
    }

    /// The exchange under way is done.
    pub fn end(&mut self, now: Instant) {
        let rest = self.spent.saturating_mul(REST);
        self.earliest = after(now, rest.min(Duration::from_millis(LONGEST_REST)));
        self.failures = 0;
    }

    /// The exchange under way failed, or couldn't begin: it is tried again after 1, 2, 4, and then each 8 seconds, and
    /// later where it took long here.
    pub fn fail(&mut self, now: Instant) {
        let seconds = if self.failures < 3 {
            1 << self.failures
        } else {
            LONGEST_WAIT
        };
        let rest = self.spent.saturating_mul(FAILED_REST);
        let rest = rest.min(Duration::from_secs(LONGEST_FAILED_REST));
        self.due = now;
        self.earliest = after(now, rest.max(Duration::from_secs(seconds)));
        self.spent = Duration::ZERO;
        self.failures = self.failures.saturating_add(1);
    }
}

/// How long clients rest that make others wait. They rest together, so that others have most of the time however many
/// there are; and only while others come.
#[derive(Clone, Copy, Debug)]
pub struct Rest {
    // Until when they rest, and when another was heard.
    until: Option<Instant>,
    others: Option<Instant>,
}

impl Rest {
    /// None rests.
    pub fn new() -> Rest {
        Rest {
            until: None,
            others: None,
        }
    }

    /// Notes when a client was heard. Answers whether that made others wait.
    pub fn note(&mut self, began: Instant, ended: Instant) -> bool {
        let took = ended.duration_since(began);
        if took < Duration::from_millis(LONG) {
            return false;
        }
        let last = self.until.unwrap_or(ended).max(ended);
        self.until = Some(after(last, took.saturating_mul(CLIENTS_REST)));
        true
    }

    /// Notes when another was heard.
    pub fn note_others(&mut self, now: Instant) {
        self.others = Some(now);
    }

    /// How long they rest on.
    pub fn left(&self, now: Instant) -> Duration {
        match (self.until, self.others) {
            (Some(until), Some(others)) => {
                let quiet = after(others, Duration::from_millis(QUIET));
                until.min(quiet).duration_since(now)
            }
            _ => Duration::ZERO,
        }
    }
}

/// The instant so much later, or the same where the clock has none.
pub fn after(now: Instant, time: Duration) -> Instant {
    now.checked_add(time).unwrap_or(now)
}
