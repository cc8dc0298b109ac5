//! What a site counts, and what is noted of other nodes.
ghost use Rattle.std.specs.Prelude.{◌≡◌, IfOk, string_bytes};
ghost use Rattle.rds_http.specs.Looks.{IsJson};

use crate::families::{
    BEHIND, CALLER_FORKS, CLIENTS, EDITS, EDITS_REFUSED, LISTENERS, LIVE_ENTRIES, PEER_COMING,
    PEER_EXCHANGE_AGE, PEER_EXCHANGES, PEER_GOING, PEER_MET, PEER_REFUSALS, PEERS, PEERS_FORKED,
    PEERS_MET, REQUESTS, SYNCS, TAKES, UNWRITABLE,
};
use crate::site::Site;
use rds_files::Disk;
use rds_output::Reply;
use serde_json::{Value, json};
use std::alloc::{AllocError, Global};

/// The other nodes that are named, what came of meeting them since the start, and what their requests have shown.
#[derive(Clone, Copy, Debug)]
pub struct PeerCounts {
    /// How many nodes are named.
    pub named: usize,
    /// How many of them were met when they were called last.
    pub met: usize,
    /// How many of them have a fork of the document: they have seen the same, and hold different entries.
    pub forked: usize,
    /// How many times an exchange was refused, or failed.
    pub refused: u64,
    /// Exchanges that went through.
    pub exchanges: u64,
    /// How many requests came of a fork of the document.
    pub forks: u64,
    /// Whether the file is known to be older than what its replica has sent.
    pub is_behind: bool,
    /// Whether changes are refused, since the file couldn't be written.
    pub is_unwritable: bool,
}

/// How another node stands.
#[derive(Drop)]
pub struct PeerStanding {
    /// Its host and port, as it was named.
    pub name: String,
    /// Whether it was met when it was called last.
    pub is_met: bool,
    /// How many seconds ago an exchange with it went through, where one did.
    pub ago: Option<u64>,
    /// Why the last exchange that didn't go through broke off, where one did.
    pub why: Option<String>,
    /// How many bytes have come of an answer that isn't whole.
    pub coming: u64,
    /// How many bytes of a request the system hasn't taken yet.
    pub going: u64,
}

/// What was counted since the start. A full count stays.
#[derive(Drop)]
pub struct Metrics {
    /// Edits that were done.
    pub edits: u64,
    /// How many of them are kept.
    kept: u64,
    /// Edits that were refused.
    pub refused: u64,
    /// Answers of other replicas that were taken.
    pub takes: u64,
    /// How many times what had changed was kept.
    pub syncs: u64,
    /// Requests.
    pub requests: u64,
    /// How many connections there are.
    pub clients: usize,
    /// How many of them listen.
    pub listeners: usize,
    /// The other nodes.
    pub peers: PeerCounts,
    /// How each of them stands, where that was noted.
    standings: Option<Vec<PeerStanding>>,
}

impl Metrics {
    /// Nothing was counted yet.
    pub fn new() -> Metrics {
        Metrics {
            edits: 0,
            kept: 0,
            refused: 0,
            takes: 0,
            syncs: 0,
            requests: 0,
            clients: 0,
            listeners: 0,
            peers: PeerCounts {
                named: 0,
                met: 0,
                forked: 0,
                refused: 0,
                exchanges: 0,
                forks: 0,
                is_behind: false,
                is_unwritable: false,
            },
            standings: None,
        }
    }

    /// Counts one request more.
    pub fn note_request(&mut self) {
        self.requests = self.requests.saturating_add(1);
    }

    /// Counts the edits that were answered so.
    pub fn note_edits(&mut self, replies: &[Reply]) {
        for reply in replies {
            if reply.is_refusal() {
                self.refused = self.refused.saturating_add(1);
            } else {
                self.edits = self.edits.saturating_add(1);
            }
        }
    }

    /// Counts one take more.
    pub fn note_take(&mut self) {
        self.takes = self.takes.saturating_add(1);
    }

    /// Counts one more time that what had changed was kept.
    pub fn note_sync(&mut self) {
        self.syncs = self.syncs.saturating_add(1);
        self.kept = self.edits;
    }

    /// Counts the edits that were done since the last such time as refused: they couldn't be kept.
    pub fn note_loss(&mut self) {
        let lost = self.edits.saturating_sub(self.kept);
        self.edits = self.kept;
        self.refused = self.refused.saturating_add(lost);
    }

    /// The lines of the Prometheus text format, version 0.0.4. So many entries are live.
    pub fn text(&self, alloc: Global, live: usize) -> Result<String, AllocError> {
        let Metrics {
            edits,
            kept: _,
            refused,
            takes,
            syncs,
            requests,
            clients,
            listeners,
            peers,
            standings,
        } = self;
        let mut text = String::new(alloc);
        EDITS.push(&mut text, *edits)?;
        EDITS_REFUSED.push(&mut text, *refused)?;
        TAKES.push(&mut text, *takes)?;
        SYNCS.push(&mut text, *syncs)?;
        REQUESTS.push(&mut text, *requests)?;
        CLIENTS.push(&mut text, *clients as u64)?;
        LISTENERS.push(&mut text, *listeners as u64)?;
        LIVE_ENTRIES.push(&mut text, live as u64)?;
        push_peers(&mut text, *peers)?;
        if let Some(standings) = standings {
            push_standings(&mut text, standings)?;
        }
        Ok(text)
    }

    /// How each of the other nodes stands: an array of JSON, empty where that wasn't noted.
    pub fn standings_json(&self, alloc: Global) -> Result<String, AllocError>
        ensures { IfOk result (λ text. IsJson (string_bytes text)) }
    {
        let mut items = Vec::new(alloc);
        if let Some(standings) = &self.standings {
            for standing in standings.as_slice() {
                items.push(standing_value(alloc, standing)?)?;
            }
        }
        let value = Value::Array(items);
        value.to_string(alloc)
    }
}

impl<H: Disk> Site<'_, H> {
    /// Notes how each of the other nodes stands, for the status.
    pub fn note_standings(&mut self, standings: Vec<PeerStanding>)
        ensures { self.new ≡ self.old }
    {
        self.metrics.standings = Some(standings);
    }
}

/// How a node stands as JSON.
fn standing_value(alloc: Global, standing: &PeerStanding) -> Result<Value, AllocError> {
    let ago = match standing.ago {
        Some(seconds) => Value::from(seconds),
        None => Value::Null,
    };
    let why = match &standing.why {
        Some(text) => Value::try_from_str(alloc, text.as_str())?,
        None => Value::Null,
    };
    let name = standing.name.as_str();
    let is_met = standing.is_met;
    let coming = standing.coming;
    let going = standing.going;
    json!(in alloc; {
        "name": name,
        "met": is_met,
        "ago": ago,
        "why": why,
        "coming": coming,
        "going": going
    })
}

/// Adds the lines of the other nodes.
fn push_peers(text: &mut String, peers: PeerCounts) -> Result<(), AllocError> {
    let PeerCounts {
        named,
        met,
        forked,
        refused,
        exchanges,
        forks,
        is_behind,
        is_unwritable,
    } = peers;
    PEERS.push(text, named as u64)?;
    PEERS_MET.push(text, met as u64)?;
    PEERS_FORKED.push(text, forked as u64)?;
    PEER_REFUSALS.push(text, refused)?;
    PEER_EXCHANGES.push(text, exchanges)?;
    CALLER_FORKS.push(text, forks)?;
    BEHIND.push(text, u64::from(is_behind))?;
    UNWRITABLE.push(text, u64::from(is_unwritable))
}

/// Adds the lines of each of the other nodes, whose names have no quotes: whether it was met when it was called last, how
/// long ago an exchange with it went through, and how much of one is under way.
fn push_standings(text: &mut String, standings: &[PeerStanding]) -> Result<(), AllocError> {
    PEER_MET.push_head(text)?;
    for standing in standings {
        let name = standing.name.as_str();
        let is_met = u8::from(standing.is_met);
        writeln!(text, "rds_peer_met{{peer=\"{name}\"}} {is_met}")?;
    }
    PEER_EXCHANGE_AGE.push_head(text)?;
    for standing in standings {
        if let Some(seconds) = standing.ago {
            let name = standing.name.as_str();
            writeln!(
                text,
                "rds_peer_exchange_age_seconds{{peer=\"{name}\"}} {seconds}"
            )?;
        }
    }
    PEER_COMING.push_head(text)?;
    for standing in standings {
        let name = standing.name.as_str();
        let count = standing.coming;
        writeln!(text, "rds_peer_coming_bytes{{peer=\"{name}\"}} {count}")?;
    }
    PEER_GOING.push_head(text)?;
    for standing in standings {
        let name = standing.name.as_str();
        let count = standing.going;
        writeln!(text, "rds_peer_going_bytes{{peer=\"{name}\"}} {count}")?;
    }
    Ok(())
}
