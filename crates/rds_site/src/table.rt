//! The clients of a site.
use crate::clients::{Client, Next, Rank};
use crate::committed::Committed;
use crate::logging::{Hearing, LoggedSite};
use crate::schedule::Rest;
use mio::Token;
use rds_files::{Disk, LockFile};
use slab::Slab;
use std::alloc::{AllocError, Global};
use std::collections::VecDeque;
use std::mem;
use std::time::{Duration, Instant};

/// A site has so many clients at most.
pub const MOST_CLIENTS: usize = 1024;

/// The requests of all clients take so much room at most, in bytes, and what one hearing brings.
const MOST_ROOM: usize = 268_435_456;

/// Where answers under way have more bytes than this, no other long one is begun.
const MOST_OWED: usize = 268_435_456;

/// Once clients were heard for so many milliseconds in a turn, only those are heard on that take no time to speak of.
const LONG_TURN: u64 = 20;

/// The clients of a site, and which of them have a turn.
#[derive(Drop)]
pub struct Clients {
    alloc: Global,
    table: Slab<Client>,
    listeners: usize,
    // How much room the requests of all have taken.
    room: usize,
    // How many bytes all were given that they haven't taken yet.
    owed: usize,
    // Those that are heard in this turn, and those that are heard in the next one without an event.
    due: Vec<usize>,
    next: Vec<usize>,
    // Those that are heard one after the other, each once the rest has ended that the one before made.
    resting: VecDeque<usize>,
    rest: Rest,
}

impl Clients {
    /// No clients, and room for all that may come.
    pub fn new(alloc: Global) -> Result<Clients, AllocError> {
        Ok(Clients {
            alloc,
            table: Slab::with_capacity(alloc, MOST_CLIENTS)?,
            listeners: 0,
            room: 0,
            owed: 0,
            due: Vec::with_capacity(alloc, MOST_CLIENTS)?,
            next: Vec::with_capacity(alloc, MOST_CLIENTS)?,
            resting: VecDeque::with_capacity(alloc, MOST_CLIENTS)?,
            rest: Rest::new(),
        })
    }

    pub fn len(&self) -> usize {
        self.table.len()
    }

    pub fn is_empty(&self) -> bool {
        self.table.is_empty()
    }

    pub fn is_full(&self) -> bool {
        MOST_CLIENTS <= self.table.len()
    }

    /// How many are told of changes.
    pub fn listeners(&self) -> usize {
        self.listeners
    }

    /// How long none has a turn without an event. `None` where it takes one.
    pub fn pause(&self, now: Instant) -> Option<Duration> {
        if !self.next.is_empty() {
            Some(Duration::ZERO)
        } else if self.resting.is_empty() {
            None
        } else {
            Some(self.rest.left(now))
        }
    }

    /// By what token the next client that is put is known.
    pub fn next_token(&self) -> Token {
        Token(self.table.vacant_key())
    }

    /// Puts a client, which is heard in this turn. Without memory for it, it is let go.
    pub fn put(&mut self, client: Client) {
        if let Ok(key) = self.table.insert(client) {
            list(&mut self.table, &mut self.due, key);
        }
    }

    /// Lets one go for another that comes, before those are heard that have a turn: one that was answered nothing yet, or
    /// else one that waits between two requests, or else one with a request or an answer under way. Of several it is the
    /// one that has got no byte of an answer for longest. Answers whether there was one: who is told of changes stays.
    pub fn make_room(&mut self) -> bool {
        let Some(key) = self.first_to_go() else {
            return false;
        };
        self.due.retain(|due| *due != key);
        self.resting.retain(|resting| *resting != key);
        self.remove(key);
        true
    }

    // Which client gives way to another.
    fn first_to_go(&self) -> Option<usize> {
        let mut first: Option<(usize, Rank)> = None;
        for key in 0..MOST_CLIENTS {
            if let Some(rank) = self.table.get(key).and_then(Client::rank) {
                if first.is_none_or(|(_, least)| rank < least) {
                    first = Some((key, rank));
                }
            }
        }
        first.map(|(key, _)| key)
    }

    // Lets the client of this key go.
    fn remove(&mut self, key: usize) {
        if let Some(client) = self.table.try_remove(key) {
            self.count(Share::of(&client), Share::default());
        }
    }

    // Counts what a client's share has become.
    fn count(&mut self, before: Share, after: Share) {
        self.listeners = changed(self.listeners, before.listeners, after.listeners);
        self.room = changed(self.room, before.room, after.room);
        self.owed = changed(self.owed, before.owed, after.owed);
    }

    /// Begins a turn: those that were left to it have it, and the next of those that rest, where the rest has ended.
    pub fn begin_turn(&mut self, now: Instant) {
        mem::swap(&mut self.due, &mut self.next);
        self.next.clear();
        if self.rest.left(now).is_zero() {
            if let Some(key) = self.resting.pop_front() {
                wake(&mut self.table, &mut self.due, key, now);
            }
        }
    }

    /// Lists the client of this token for this turn. One that has gone meanwhile isn't. Notes where it says nothing more
    /// than what has come.
    pub fn list(&mut self, token: Token, is_ending: bool) {
        list(&mut self.table, &mut self.due, token.0);
        if is_ending {
            if let Some(client) = self.table.get_mut(token.0) {
                client.note_end();
            }
        }
    }

    /// Hears those that have a turn, from now on. One that takes more room than is left for requests is let go. One that
    /// made others wait is put off while the rest lasts. Once the turn is long, all are put off but those that edit, so
    /// that an edit waits for one long answer at most. Where one change is tried, all behind it are put off, so that no
    /// other answer depends on it.
    pub fn hear<H: Disk>(&mut self, rt: &H, site: &mut LoggedSite<'_, H>, now: Instant)
    where
        H::File: LockFile,
    {
        let mut began = now;
        for at in 0..self.due.len() {
            if let Some(key) = self.due.get(at).copied() {
                let is_long = is_long_turn(now, began);
                let is_last = site.is_trying && site.site.has_changed();
                if self.is_put_off(key, is_last, is_long) || self.is_to_rest(key, began) {
                    continue;
                }
                self.hear_from(key, site);
                let ended = Instant::now(rt).unwrap_or(began);
                self.note_time(key, began, ended);
                began = ended;
            }
        }
    }

    // Puts a client off where no other is heard in this turn, or only those that take no time and it isn't one.
    fn is_put_off(&mut self, key: usize, is_last: bool, is_long: bool) -> bool {
        let Some(client) = self.table.get_mut(key) else {
            return true;
        };
        let is_put_off = is_last || is_long && !client.is_short();
        if is_put_off {
            client.put_off();
        }
        is_put_off
    }

    // Puts a client off where it made others wait, and the rest lasts.
    fn is_to_rest(&mut self, key: usize, now: Instant) -> bool {
        let Some(client) = self.table.get_mut(key) else {
            return true;
        };
        let is_to_rest = client.is_slow() && !self.rest.left(now).is_zero();
        if is_to_rest {
            client.put_off();
        }
        is_to_rest
    }

    // Notes when a client was heard.
    fn note_time(&mut self, key: usize, began: Instant, ended: Instant) {
        let Some(client) = self.table.get_mut(key) else {
            return;
        };
        client.note_heard(ended);
        if self.rest.note(began, ended) {
            client.set_slow();
        } else if !client.is_slow() {
            self.rest.note_others(ended);
        }
    }

    fn hear_from<H: Disk>(&mut self, key: usize, site: &mut LoggedSite<'_, H>)
    where
        H::File: LockFile,
    {
        let Some(client) = self.table.get_mut(key) else {
            return;
        };
        let before = Share::of(client);
        site.hearing = Hearing::of(client.address());
        site.is_crowded = MOST_OWED < self.owed;
        client.hear(site);
        client.note_given(site.hearing.given);
        if site.site.has_changed() {
            if let Some(is_change) = site.hearing.is_change {
                client.note_unsure(is_change);
            }
        }
        let after = Share::of(client);
        let is_full = MOST_ROOM < changed(self.room, before.room, after.room);
        if is_full && before.room < after.room {
            client.give_up();
        }
        self.count(before, after);
    }

    /// Notes a text for all that are told of changes, which have a turn so.
    pub fn push(&mut self, text: &str) {
        if self.listeners == 0 {
            return;
        }
        for key in 0..MOST_CLIENTS {
            if let Some(client) = self.table.get_mut(key) {
                if client.is_listener() {
                    client.push(text);
                    list(&mut self.table, &mut self.due, key);
                }
            }
        }
    }

    /// Sends what is due to those that have a turn, and lets those go that are done.
    pub fn send<H: Disk>(&mut self, committed: &Committed<'_, '_, H>, now: Instant) {
        for at in 0..self.due.len() {
            if let Some(key) = self.due.get(at).copied() {
                self.send_to(committed, key, now);
            }
        }
        self.due.clear();
    }

    /// The turn wasn't kept: those that were answered in it what isn't so are sent another answer, by which they may
    /// try again after so many seconds, and none after that.
    pub fn refuse(&mut self, seconds: u64) {
        for at in 0..self.due.len() {
            if let Some(key) = self.due.get(at).copied() {
                self.refuse_to(key, seconds);
            }
        }
    }

    fn refuse_to(&mut self, key: usize, seconds: u64) {
        let Some(client) = self.table.get_mut(key) else {
            return;
        };
        let before = Share::of(client);
        client.refuse(self.alloc, seconds);
        let after = Share::of(client);
        self.count(before, after);
    }

    fn send_to<H: Disk>(&mut self, committed: &Committed<'_, '_, H>, key: usize, now: Instant) {
        let Some(client) = self.table.get_mut(key) else {
            return;
        };
        let before = Share::of(client);
        client.set_listed(false);
        let next = client.send(self.alloc, committed, now);
        let after = Share::of(client);
        self.count(before, after);
        match next {
            Next::Event => (),
            Next::Turn => list(&mut self.table, &mut self.next, key),
            Next::Rest => rest(&mut self.table, &mut self.resting, key),
            Next::Never => self.remove(key),
        }
    }

    /// Lets those go that are overdue, and has quiet listeners be sent a ping: in the next turn, which comes at once.
    pub fn sweep(&mut self, now: Instant) {
        for key in 0..MOST_CLIENTS {
            if let Some(client) = self.table.get_mut(key) {
                if client.is_overdue(now) {
                    client.give_up();
                    list(&mut self.table, &mut self.next, key);
                } else if client.ping(now) {
                    list(&mut self.table, &mut self.next, key);
                }
            }
        }
    }
}

// What one client has of the table's counts.
#[derive(Clone, Copy, Default)]
struct Share {
    listeners: usize,
    room: usize,
    owed: usize,
}

impl Share {
    fn of(client: &Client) -> Share {
        Share {
            listeners: usize::from(client.is_listener()),
            room: client.room(),
            owed: client.owed(),
        }
    }
}

// Whether a turn that began at an instant has been long by another.
fn is_long_turn(began: Instant, now: Instant) -> bool {
    Duration::from_millis(LONG_TURN) <= now.duration_since(began)
}

// A count of which one part has changed.
fn changed(count: usize, before: usize, after: usize) -> usize {
    count.saturating_sub(before).saturating_add(after)
}

// The client of this key rests behind the others that do.
fn rest(table: &mut Slab<Client>, resting: &mut VecDeque<usize>, key: usize) {
    if let Some(client) = table.get_mut(key) {
        if !client.set_listed(true) {
            if resting.push_back(key).is_ok() {
                client.rest();
            } else {
                client.set_listed(false);
            }
        }
    }
}

// Lists the client of this key, which rested.
fn wake(table: &mut Slab<Client>, keys: &mut Vec<usize>, key: usize, now: Instant) {
    if let Some(client) = table.get_mut(key) {
        client.wake(now);
        client.set_listed(false);
    }
    list(table, keys, key);
}

// Lists the client of this key, once.
fn list(table: &mut Slab<Client>, keys: &mut Vec<usize>, key: usize) {
    if let Some(client) = table.get_mut(key) {
        if !client.set_listed(true) && keys.push(key).is_err() {
            client.set_listed(false);
        }
    }
}
