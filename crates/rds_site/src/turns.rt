//! A turn: what came is answered in memory, what changed is kept, and only then anything is sent.
ghost use Rattle.std.specs.Prelude.{◌≡◌};

use crate::arrivals::Door;
use crate::behind::tell_behind;
use crate::committed::{Committed, commit};
use crate::logging::LoggedSite;
use crate::peer_table::Peers;
use crate::reserve::Reserve;
use crate::stalls::{Stall, tell_begin, tell_end};
use crate::table::Clients;
use rds_client::Trouble;
use rds_files::{Disk, LockFile};
use rds_names::Fault;
use rds_state::Mark;
use std::io;
use std::net::{Net, SocketAddr};
use std::time::Instant;

/// So few clients leave descriptors enough, and to let go and take those in reserve costs more than it is worth.
const FEW: usize = 8;

/// A site, its clients, where they come in, and its peers.
pub struct Turns<'a, H: Disk> {
    logged: LoggedSite<'a, H>,
    door: Door,
    clients: Clients,
    peers: Peers<'a>,
    reserve: Reserve<H>,
    // While the file can't be written.
    stall: Option<Stall>,
    // The mark of what was kept last.
    kept: Mark,
    // The time, when it was last looked at, when clients were last looked at for being overdue, and when it was last
    // noted how peers stand.
    now: Instant,
    swept: Instant,
    noted: Option<Instant>,
}

impl<H: Disk> Drop for Turns<'_, H> {
    fn drop(self) {
        let Turns {
            logged: _logged,
            door: _door,
            clients: _clients,
            peers: _peers,
            reserve: _reserve,
            stall: _,
            kept: _,
            now: _,
            swept: _,
            noted: _,
        } = self;
    }
}

impl<'a, H: Disk> Turns<'a, H>
where
    H::File: LockFile,
{
    /// A site that nobody has asked yet, and that has met no peer.
    pub fn new(
        logged: LoggedSite<'a, H>,
        door: Door,
        clients: Clients,
        peers: Peers<'a>,
        reserve: Reserve<H>,
        now: Instant,
    ) -> Turns<'a, H>
        ensures { result.logged ≡ logged.entry }
    {
        let kept = logged.site.mark();
        Turns {
            logged,
            door,
            clients,
            peers,
            reserve,
            stall: None,
            kept,
            now,
            swept: now,
            noted: None,
        }
    }

    /// The address at which the site serves.
    pub fn address(&self) -> io::Result<SocketAddr> {
        self.door.address()
    }

    /// One turn, unless what changed in it can't be written: then nothing of the turn is sent, and the answer is false.
    /// It ends the site where the system can't be waited for, or the document can't be kept for another cause.
    pub fn turn(&mut self, rt: &H) -> Result<bool, Fault>
    where
        H: Net + Print,
    {
        self.begin(rt)?;
        self.hear(rt);
        self.end(rt)
    }

    /// The same after a turn that couldn't be written: the file is read anew. Who was answered something of that turn
    /// that isn't so gets another answer, and changes are refused for a while. It ends the site where the file can't be
    /// read, or isn't as it was kept last.
    pub fn reopen(self, rt: &H) -> Result<Turns<'a, H>, Fault>
    where
        H: Net + Print,
    {
        let Turns {
            logged,
            door,
            mut clients,
            mut peers,
            mut reserve,
            stall,
            kept,
            now,
            swept,
            noted,
        } = self;
        reserve.let_go();
        let logged = logged.reopen(rt, kept)?;
        if stall.is_none() {
            tell_begin(rt, logged.file);
        }
        let next = Stall::next(stall, Instant::now(rt).unwrap_or(now));
        clients.refuse(next.pause());
        peers.put_off(next.until());
        let mut turns = Turns {
            logged,
            door,
            clients,
            peers,
            reserve,
            stall: Some(next),
            kept,
            now,
            swept,
            noted,
        };
        turns.end(rt)?;
        Ok(turns)
    }

    // The end of a turn, where what changed can be written.
    fn end(&mut self, rt: &H) -> Result<bool, Fault>
    where
        H: Net + Print,
    {
        let Some(kept) = self.send(rt)? else {
            return Ok(false);
        };
        self.sweep();
        self.write_log(rt, kept);
        Ok(true)
    }

    // Keeps what changed, and sends what is due, unless that can't be written. Answers when it was kept: from then on
    // clients and peers have their time to take what is sent, however long the turn took. Many connections may have
    // taken all other descriptors, so those in reserve are let go for it.
    fn send(&mut self, rt: &H) -> Result<Option<Instant>, Fault>
    where
        H: Net,
    {
        let file = self.logged.file;
        let is_other = self.logged.site.mark() != self.kept;
        if self.logged.site.has_changed() && self.clients.len() > FEW {
            self.reserve.let_go();
        }
        let committed = match commit(rt, &mut self.logged.site) {
            Ok(committed) => committed,
            Err(Fault::Device) => return Ok(None),
            Err(fault) => return Err(fault),
        };
        self.reserve.fill(rt);
        if is_other && self.stall.take().is_some() {
            tell_end(rt, file);
        }
        let kept = Instant::now(rt).unwrap_or(self.now);
        tell(&committed, &mut self.clients, kept);
        self.peers.send(rt, &committed, self.door.registry(), kept);
        Ok(Some(kept))
    }

    // Writes the log of a turn whose changes were kept at this time.
    fn write_log(&mut self, rt: &H, kept: Instant)
    where
        H: Print,
    {
        if let Some(log) = &mut self.logged.log {
            log.write(rt, kept.duration_since(self.now));
        }
    }

    // Answers in memory what clients and peers say, and begins what is due. What clients change is due to all peers.
    // Where it shows that the file is behind, that is reported once.
    fn hear(&mut self, rt: &H) {
        let was_behind = self.logged.is_behind;
        self.kept = self.logged.site.mark();
        self.logged.stalled = match self.stall {
            Some(stall) => stall.left(self.now),
            None => None,
        };
        self.logged.is_trying = self.stall.is_some();
        self.note();
        self.clients.hear(rt, &mut self.logged, self.now);
        if self.logged.site.has_changed() {
            self.peers.note_change(self.now);
        }
        self.peers.hear(rt, &mut self.logged.site, self.now);
        self.peers.begin(rt, &mut self.logged.site, self.now);
        self.logged.is_behind |= self.peers.show_behind();
        if self.logged.is_behind && !was_behind {
            tell_behind(rt, self.logged.file);
        }
    }

    // Notes for the status and the metrics how many clients there are, and how peers stand: what is counted of them in
    // each turn, and how each of them stands where the last such note is a second old.
    fn note(&mut self) {
        let counts = self.peers.counts(
            self.logged.forks,
            self.logged.is_behind,
            self.stall.is_some(),
        );
        let site = &mut self.logged.site;
        site.note_clients(self.clients.len(), self.clients.listeners());
        site.note_peers(counts);
        let is_due = match self.noted {
            Some(noted) => self.now.duration_since(noted).as_secs() != 0,
            None => true,
        };
        if is_due {
            if let Ok(standings) = self.peers.standings(self.now) {
                site.note_standings(standings);
                self.noted = Some(self.now);
            }
        }
    }

    // Waits for what comes or is due, and lets those in that wait.
    fn begin(&mut self, rt: &H) -> Result<(), Fault> {
        let now = Instant::now(rt).unwrap_or(self.now);
        if let Err(error) = self.door.wait(&mut self.clients, &mut self.peers, now) {
            let _ = eprintln!(rt; "cannot wait for clients and peers: {error}");
            return Err(Trouble::from(error).fault());
        }
        self.now = Instant::now(rt).unwrap_or(self.now);
        self.door.accept(&mut self.clients, self.now);
        Ok(())
    }

    // Once a second lets those go that are overdue, has quiet listeners be sent a ping, and tries again to accept those
    // that couldn't be.
    fn sweep(&mut self) {
        if self.now.duration_since(self.swept).as_secs() != 0 {
            self.clients.sweep(self.now);
            self.door.try_again();
            self.swept = self.now;
        }
    }
}

// Tells listeners what was kept, and sends clients what is due.
fn tell<H: Disk>(committed: &Committed<'_, '_, H>, clients: &mut Clients, now: Instant)
where
    H::File: LockFile,
{
    if let Some(news) = committed.news() {
        clients.push(news);
    }
    clients.send(committed, now);
}
