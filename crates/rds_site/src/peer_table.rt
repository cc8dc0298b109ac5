//! The peers of a site.
use crate::behind::OWN_AHEAD;
use crate::committed::Committed;
use crate::peers::{Counted, Outcome, Peer};
use crate::sockets::Line;
use mio::{Registry, Token};
use rds_client::{Destination, MOST_PEERS, Standing};
use rds_files::{Disk, LockFile};
use rds_http::{PeerCounts, PeerStanding, Site};
use std::alloc::{AllocError, Global};
use std::net::Net;
use std::time::{Duration, Instant};

/// By this the system tells of the first peer, and by one less of each further one.
const FIRST: usize = usize::MAX - 1;

/// What has come of all responses takes so much room at most, in bytes, and what one hearing brings.
const MOST_ROOM: usize = 268_435_456;

/// The peers of a site, and what was counted of them.
#[derive(Drop)]
pub struct Peers<'a> {
    alloc: Global,
    table: Vec<Peer<'a>>,
    // How many exchanges were done, and how many were refused.
    exchanges: u64,
    refused: u64,
}

impl<'a> Peers<'a> {
    /// Peers at these places, which are met at once, and then every so many seconds.
    pub fn new(
        alloc: Global,
        destinations: Vec<Destination<'a>>,
        every: u32,
        now: Instant,
    ) -> Result<Peers<'a>, AllocError> {
        let mut table = Vec::with_capacity(alloc, destinations.len())?;
        for destination in destinations {
            table.push(Peer::new(destination, every, now))?;
        }
        Ok(Peers {
            alloc,
            table,
            exchanges: 0,
            refused: 0,
        })
    }

    /// What was counted, beside how many requests came of a fork, whether the file is behind, and whether it couldn't
    /// be written.
    pub fn counts(&self, forks: u64, is_behind: bool, is_unwritable: bool) -> PeerCounts {
        PeerCounts {
            named: self.table.len(),
            met: self.count_of(Standing::Met),
            forked: self.count_of(Standing::Forked),
            refused: self.refused,
            exchanges: self.exchanges,
            forks,
            is_behind,
            is_unwritable,
        }
    }

    /// How each of them stands.
    pub fn standings(&self, now: Instant) -> Result<Vec<PeerStanding>, AllocError> {
        let mut standings = Vec::with_capacity(self.alloc, self.table.len())?;
        for peer in self.table.as_slice() {
            standings.push(peer.told(self.alloc, now)?)?;
        }
        Ok(standings)
    }

    // How many stand so.
    fn count_of(&self, standing: Standing) -> usize {
        self.table
            .iter()
            .filter(|peer| peer.standing() == standing)
            .count()
    }

    /// Whether what one brought last was refused since this node's file is older than what its replica has sent.
    pub fn show_behind(&self) -> bool {
        self.count_of(Standing::Unfit { fault: OWN_AHEAD }) != 0
    }

    /// Lists the peer of this token for the turn that begins. Answers whether the token is a peer's.
    pub fn list(&mut self, token: Token) -> bool {
        let Some(at) = index_of(token) else {
            return false;
        };
        if let Some(peer) = self.table.get_mut(at) {
            peer.list();
        }
        true
    }

    /// How long nothing is to be done for any, but for events. `None` where there are no peers.
    pub fn pause(&self, now: Instant) -> Option<Duration> {
        let mut least = None;
        for peer in self.table.as_slice() {
            least = shorter(least, Some(peer.pause(now)));
        }
        least
    }

    /// Clients changed the document.
    pub fn note_change(&mut self, now: Instant) {
        for peer in self.table.as_mut_slice() {
            peer.note_change(now);
        }
    }

    /// Lets all connections go, and begins again at this instant: what was said over them may not be kept.
    pub fn put_off(&mut self, until: Instant) {
        for peer in self.table.as_mut_slice() {
            peer.put_off(until);
        }
    }

    /// Hears those that are listed, and goes on with their exchanges in memory. What one brings is due to the others.
    pub fn hear<H: Disk>(&mut self, rt: &H, site: &mut Site<'_, H>, now: Instant)
    where
        H::File: LockFile,
    {
        for at in 0..self.table.len() {
            let had_changed = site.has_changed();
            let outcome = self.hear_from(rt, site, at, now);
            self.count(outcome);
            if outcome.brought || !had_changed && site.has_changed() {
                self.note_brought(at, now);
            }
        }
    }

    /// Begins the exchanges that are due, in memory.
    pub fn begin<H: Disk>(&mut self, rt: &H, site: &mut Site<'_, H>, now: Instant)
    where
        H::File: LockFile,
    {
        for at in 0..self.table.len() {
            if let Some(peer) = self.table.get_mut(at) {
                let outcome = peer.begin(rt, site, now);
                self.count(outcome);
            }
        }
    }

    // Hears one. One that takes more room than is left for responses is let go.
    fn hear_from<H: Disk>(
        &mut self,
        rt: &H,
        site: &mut Site<'_, H>,
        at: usize,
        now: Instant,
    ) -> Outcome
    where
        H::File: LockFile,
    {
        let Some(peer) = self.table.get_mut(at) else {
            return Outcome::NONE;
        };
        let had = peer.room();
        let outcome = peer.hear(rt, site, now);
        let has_grown = had < peer.room();
        if has_grown && MOST_ROOM < self.room() {
            if let Some(peer) = self.table.get_mut(at) {
                return peer.give_up(rt, now);
            }
        }
        outcome
    }

    // How much has come of all responses.
    fn room(&self) -> usize {
        let mut room: usize = 0;
        for peer in self.table.as_slice() {
            room = room.saturating_add(peer.room());
        }
        room
    }

    fn count(&mut self, outcome: Outcome) {
        match outcome.counted {
            Counted::Done => self.exchanges = self.exchanges.saturating_add(1),
            Counted::Refused => self.refused = self.refused.saturating_add(1),
            Counted::Nothing => (),
        }
    }

    // One peer brought something.
    fn note_brought(&mut self, by: usize, now: Instant) {
        for (at, peer) in self.table.as_mut_slice().iter_mut().enumerate() {
            if at != by {
                peer.note_change(now);
            }
        }
    }

    /// Begins the connections that are due, and sends what is due to all.
    pub fn send<H: Disk + Net>(
        &mut self,
        rt: &H,
        committed: &Committed<'_, '_, H>,
        registry: &Registry,
        now: Instant,
    ) {
        for (at, peer) in self.table.as_mut_slice().iter_mut().enumerate() {
            let token = Token(FIRST.saturating_sub(at));
            peer.send(rt, committed, &Line { registry, token }, now);
        }
    }
}

// Which peer has a token.
fn index_of(token: Token) -> Option<usize> {
    match FIRST.checked_sub(token.0) {
        Some(at) if at < MOST_PEERS => Some(at),
        _ => None,
    }
}

/// The shorter of two waits, where `None` is without end.
pub fn shorter(one: Option<Duration>, other: Option<Duration>) -> Option<Duration> {
    match (one, other) {
        (Some(one), Some(other)) => Some(one.min(other)),
        (Some(wait), None) | (None, Some(wait)) => Some(wait),
        (None, None) => None,
    }
}
