//! A peer: another node that this one meets.
use crate::channels::Channel;
use crate::committed::Committed;
use crate::exchanges::{Exchange, Progress};
use crate::patience::Wait;
use crate::schedule::Schedule;
use crate::sockets::{Line, Socket};
use rds_client::{Destination, End, FORKED, Standing, Trouble};
use rds_files::{Disk, LockFile};
use rds_http::{PeerStanding, Site};
use std::alloc::{AllocError, Global};
use std::mem;
use std::net::Net;
use std::time::{Duration, Instant};

/// How the connection with a peer stands.
#[derive(Drop)]
enum Link {
    /// There is none.
    Away,
    /// It is being made.
    Opening(Socket, Wait),
    /// There is one.
    Open(Exchange),
}

/// What is counted of a peer.
#[derive(Clone, Copy, Debug, PartialEq, Eq)]
pub enum Counted {
    /// Nothing.
    Nothing,
    /// An exchange with it was done.
    Done,
    /// It refused, what it brought was refused, or it is forked.
    Refused,
}

/// What a peer did that others have to know.
#[derive(Clone, Copy, Debug, PartialEq, Eq)]
pub struct Outcome {
    pub counted: Counted,
    /// Whether it brought what the document lacked.
    pub brought: bool,
}

impl Outcome {
    /// Nothing.
    pub const NONE: Outcome = Outcome {
        counted: Counted::Nothing,
        brought: false,
    };
}

/// A peer: where it is, the connection with it, and when the next exchange begins.
#[derive(Drop)]
pub struct Peer<'a> {
    destination: Destination<'a>,
    link: Link,
    schedule: Schedule,
    standing: Standing,
    // When an exchange with it went through last, and why the last one broke off that did.
    met: Option<Instant>,
    why: Option<String>,
    // Whether it is heard in this turn, or in the next without an event.
    is_listed: bool,
}

impl<'a> Peer<'a> {
    /// A peer that is met at once, and then every so many seconds. One that wasn't found is looked up again as after a
    /// failure.
    pub fn new(destination: Destination<'a>, every: u32, now: Instant) -> Peer<'a> {
        let mut schedule = Schedule::new(every, now);
        let mut standing = Standing::Unmet;
        if destination.address().is_none() {
            schedule.fail(now);
            standing = Standing::Lost;
        }
        Peer {
            destination,
            link: Link::Away,
            schedule,
            standing,
            met: None,
            why: None,
            is_listed: false,
        }
    }

    /// How it stands.
    pub fn standing(&self) -> Standing {
        self.standing
    }

    /// How it stands, as is told of it.
    pub fn told(&self, alloc: Global, now: Instant) -> Result<PeerStanding, AllocError> {
        let why = match &self.why {
            Some(why) => Some(String::from_str(alloc, why.as_str())?),
            None => None,
        };
        Ok(PeerStanding {
            name: String::from_str(alloc, self.destination.name())?,
            is_met: self.standing == Standing::Met,
            ago: self.met.map(|met| now.duration_since(met).as_secs()),
            why,
            coming: self.room() as u64,
            going: self.going() as u64,
        })
    }

    /// Has it be heard in the turn that begins.
    pub fn list(&mut self) {
        self.is_listed = true;
    }

    /// The document has what it may lack.
    pub fn note_change(&mut self, now: Instant) {
        self.schedule.note_change(now);
    }

    /// Lets the connection go, since what was said over it may not be kept, and begins again at this instant.
    pub fn put_off(&mut self, until: Instant) {
        self.leave();
        self.schedule.put_off(until);
    }

    /// How much has come of a response that isn't whole, in bytes.
    pub fn room(&self) -> usize {
        match &self.link {
            Link::Away | Link::Opening(..) => 0,
            Link::Open(exchange) => exchange.room(),
        }
    }

    // How much of a request waits to be sent, in bytes.
    fn going(&self) -> usize {
        match &self.link {
            Link::Away | Link::Opening(..) => 0,
            Link::Open(exchange) => exchange.going(),
        }
    }

    /// Lets it go, since its response takes too much room.
    pub fn give_up<H: Eprint + AllocGlobal>(&mut self, rt: &H, now: Instant) -> Outcome {
        self.fail(rt, Trouble::TooLong, now)
    }

    /// How long nothing is to be done for it, but for events.
    pub fn pause(&self, now: Instant) -> Duration {
        if self.is_listed {
            return Duration::ZERO;
        }
        let next = match self.wait() {
            Some(wait) => wait.until(),
            None => self.schedule.next(),
        };
        next.duration_since(now)
    }

    // How long it may let wait, where it does.
    fn wait(&self) -> Option<Wait> {
        match &self.link {
            Link::Away => None,
            Link::Opening(_, wait) => Some(*wait),
            Link::Open(exchange) => exchange.wait(),
        }
    }

    /// Hears what it says, where it is listed, and goes on with the exchange in memory.
    pub fn hear<H: Disk>(&mut self, rt: &H, site: &mut Site<'_, H>, now: Instant) -> Outcome
    where
        H::File: LockFile,
    {
        if !self.is_listed {
            return Outcome::NONE;
        }
        self.is_listed = false;
        let began = Instant::now(rt).unwrap_or(now);
        let progress = self.try_hear(rt.alloc(), site, began);
        let ended = Instant::now(rt).unwrap_or(began);
        self.schedule.spend(ended.duration_since(began));
        match progress {
            Ok(progress) => self.note_progress(rt, progress, ended),
            Err(trouble) => self.fail(rt, trouble, ended),
        }
    }

    fn try_hear<H: Disk>(
        &mut self,
        alloc: Global,
        site: &mut Site<'_, H>,
        now: Instant,
    ) -> Result<Progress, Trouble>
    where
        H::File: LockFile,
    {
        match &mut self.link {
            Link::Away => Ok(Progress::NONE),
            Link::Opening(socket, _) => {
                if socket.is_connected()? {
                    self.open(alloc, now);
                }
                Ok(Progress::NONE)
            }
            Link::Open(exchange) => {
                let progress = exchange.hear(site, &self.destination, now)?;
                self.is_listed = exchange.has_more();
                Ok(progress)
            }
        }
    }

    // The connection is made.
    fn open(&mut self, alloc: Global, now: Instant) {
        if let Link::Opening(socket, _) = mem::replace(&mut self.link, Link::Away) {
            let channel = Channel::new(alloc, socket, now);
            self.link = Link::Open(Exchange::new(alloc, channel));
        }
    }

    fn note_progress<H: Eprint + AllocGlobal>(
        &mut self,
        rt: &H,
        progress: Progress,
        now: Instant,
    ) -> Outcome {
        match progress {
            Progress::Part { brought } => Outcome {
                counted: Counted::Nothing,
                brought,
            },
            Progress::Ended { end, brought } => {
                self.schedule.end(now);
                Outcome {
                    counted: self.note_end(rt, end, now),
                    brought,
                }
            }
            Progress::Closed => {
                self.leave();
                Outcome::NONE
            }
            Progress::InVain => {
                self.leave();
                self.schedule.recall(now);
                Outcome::NONE
            }
        }
    }

    // Notes how it stands after an exchange, and tells of it where that is new.
    fn note_end<H: Eprint + AllocGlobal>(&mut self, rt: &H, end: End, now: Instant) -> Counted {
        let standing = self.standing.after(end);
        if self.standing != standing {
            self.standing = standing;
            standing.tell(rt, self.destination.name());
        }
        match end {
            End::Level | End::Done => {
                self.met = Some(now);
                Counted::Done
            }
            End::Forked => {
                self.why = String::from_str(rt.alloc(), FORKED).ok();
                Counted::Refused
            }
        }
    }

    // Lets the connection go.
    fn leave(&mut self) {
        self.link = Link::Away;
        self.is_listed = false;
    }

    // The exchange failed. Where another address wasn't tried yet, that one is next, at once and without a word. Where
    // no connection could be made to any, the peer may be elsewhere by now.
    fn fail<H: Eprint + AllocGlobal>(&mut self, rt: &H, trouble: Trouble, now: Instant) -> Outcome {
        let was_open = matches!(self.link, Link::Open(_));
        self.leave();
        if !was_open {
            if self.destination.turn() {
                return Outcome::NONE;
            }
            self.destination.doubt();
        }
        self.schedule.fail(now);
        self.why = format!(in rt.alloc(); "{trouble}").ok();
        let standing = trouble.standing();
        if self.standing != standing {
            self.standing = standing;
            trouble.tell(rt, self.destination.name());
        }
        let counted = if standing.is_refusal() {
            Counted::Refused
        } else {
            Counted::Nothing
        };
        Outcome {
            counted,
            brought: false,
        }
    }

    /// Begins an exchange in memory, where it is time and there is a connection.
    pub fn begin<H: Disk>(&mut self, rt: &H, site: &mut Site<'_, H>, now: Instant) -> Outcome
    where
        H::File: LockFile,
    {
        if !self.schedule.is_due(now) {
            return Outcome::NONE;
        }
        let Link::Open(exchange) = &mut self.link else {
            return Outcome::NONE;
        };
        if !exchange.is_resting() {
            return Outcome::NONE;
        }
        let began = Instant::now(rt).unwrap_or(now);
        let begun = exchange.begin(site, &self.destination, began);
        let ended = Instant::now(rt).unwrap_or(began);
        match begun {
            Ok(()) => {
                self.schedule.begin(began);
                self.schedule.spend(ended.duration_since(began));
                Outcome::NONE
            }
            Err(Trouble::Ended) => {
                self.leave();
                Outcome::NONE
            }
            Err(trouble) => self.fail(rt, trouble, ended),
        }
    }

    /// Calls the peer where it is time and there is no connection, and sends what is due to it. One that lets wait too
    /// long is let go.
    pub fn send<H: Disk + Net>(
        &mut self,
        rt: &H,
        committed: &Committed<'_, '_, H>,
        line: &Line<'_>,
        now: Instant,
    ) {
        if let Err(trouble) = self.try_send(rt, committed, line, now) {
            let failed = Instant::now(rt).unwrap_or(now);
            self.fail(rt, trouble, failed);
        }
    }

    fn try_send<H: Disk + Net>(
        &mut self,
        rt: &H,
        committed: &Committed<'_, '_, H>,
        line: &Line<'_>,
        now: Instant,
    ) -> Result<(), Trouble> {
        if let Some(wait) = self.wait() {
            if wait.until() <= now {
                return Err(Trouble::Silence(wait.seconds()));
            }
        }
        if self.schedule.is_due(now) {
            self.call(rt, committed, line, now)?;
        }
        if let Link::Open(exchange) = &mut self.link {
            exchange.send(committed, now);
            self.is_listed |= exchange.has_more();
        }
        Ok(())
    }

    // Begins a connection where there is none. Its name may be looked up before, for which all waits.
    fn call<H: Disk + Net>(
        &mut self,
        rt: &H,
        committed: &Committed<'_, '_, H>,
        line: &Line<'_>,
        now: Instant,
    ) -> Result<(), Trouble> {
        if !matches!(self.link, Link::Away) {
            return Ok(());
        }
        let began = Instant::now(rt).unwrap_or(now);
        let found = self.destination.look_up(rt);
        let ended = Instant::now(rt).unwrap_or(began);
        self.schedule.spend(ended.duration_since(began));
        found?;
        if let Some(address) = self.destination.address() {
            let socket = Socket::dial(rt, committed, address, line)?;
            self.link = Link::Opening(socket, Wait::new(now));
        }
        Ok(())
    }
}
