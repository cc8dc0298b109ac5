//! How long who is at the other end of a connection is waited for.
use crate::schedule::after;
use rds_client::more_seconds;
use std::time::{Duration, Instant};

/// Within so many seconds a byte of what is sent has to go, and of what is awaited enough has to come.
const PATIENCE: u64 = 30;

/// Since when the other end lets wait, and how many bytes the system has taken for it since it was heard.
#[derive(Clone, Copy, Debug)]
pub struct Wait {
    since: Instant,
    taken: u64,
}

impl Wait {
    /// From this instant on. Nothing was taken.
    pub fn new(now: Instant) -> Wait {
        Wait {
            since: now,
            taken: 0,
        }
    }

    /// Since when.
    pub fn since(&self) -> Instant {
        self.since
    }

    /// From this instant on, with what was taken before.
    pub fn renew(&mut self, now: Instant) {
        self.since = now;
    }

    /// The system took so many bytes.
    pub fn note_taken(&mut self, count: usize, now: Instant) {
        self.since = now;
        self.taken = self.taken.saturating_add(count as u64);
    }

    /// The other end was heard: it has got what was taken before.
    pub fn note_heard(&mut self) {
        self.taken = 0;
    }

    /// How many seconds it may let wait.
    pub fn seconds(&self) -> u64 {
        PATIENCE.saturating_add(more_seconds(self.taken))
    }

    /// Until when it may.
    pub fn until(&self) -> Instant {
        after(self.since, Duration::from_secs(self.seconds()))
    }
}
