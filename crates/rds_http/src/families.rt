//! The families of numbers that are counted, and their lines in the text format of Prometheus, version 0.0.4.

use std::alloc::AllocError;

/// A family of numbers: its name, of which type they are, and what they say.
#[derive(Clone, Copy, Debug)]
pub struct Family {
    name: &'static str,
    kind: &'static str,
    help: &'static str,
}

impl Family {
    /// Adds the lines that stand before its numbers.
    pub fn push_head(self, text: &mut String) -> Result<(), AllocError> {
        let Family { name, kind, help } = self;
        writeln!(text, "# HELP {name} {help}")?;
        writeln!(text, "# TYPE {name} {kind}")
    }

    /// Adds these lines, and that of its one number.
    pub fn push(self, text: &mut String, number: u64) -> Result<(), AllocError> {
        self.push_head(text)?;
        let name = self.name;
        writeln!(text, "{name} {number}")
    }
}

pub const EDITS: Family = Family {
    name: "rds_edits_total",
    kind: "counter",
    help: "Edits that were done.",
};

pub const EDITS_REFUSED: Family = Family {
    name: "rds_edits_refused_total",
    kind: "counter",
    help: "Edits that were refused.",
};

pub const TAKES: Family = Family {
    name: "rds_takes_total",
    kind: "counter",
    help: "Answers of other replicas that were taken.",
};

pub const SYNCS: Family = Family {
    name: "rds_syncs_total",
    kind: "counter",
    help: "How many times what had changed was kept.",
};

pub const REQUESTS: Family = Family {
    name: "rds_requests_total",
    kind: "counter",
    help: "Requests that came.",
};

pub const CLIENTS: Family = Family {
    name: "rds_clients",
    kind: "gauge",
    help: "Connections.",
};

pub const LISTENERS: Family = Family {
    name: "rds_listeners",
    kind: "gauge",
    help: "Connections that are told of each change.",
};

pub const LIVE_ENTRIES: Family = Family {
    name: "rds_live_entries",
    kind: "gauge",
    help: "Entries of the document that are live.",
};

pub const PEERS: Family = Family {
    name: "rds_peers",
    kind: "gauge",
    help: "Other nodes that are named.",
};

pub const PEERS_MET: Family = Family {
    name: "rds_peers_met",
    kind: "gauge",
    help: "Other nodes that were met when they were called last.",
};

pub const PEERS_FORKED: Family = Family {
    name: "rds_peers_forked",
    kind: "gauge",
    help: "Other nodes that have a fork of the document.",
};

pub const PEER_REFUSALS: Family = Family {
    name: "rds_peer_refusals_total",
    kind: "counter",
    help: "Exchanges with other nodes that were refused, or failed.",
};

pub const PEER_EXCHANGES: Family = Family {
    name: "rds_peer_exchanges_total",
    kind: "counter",
    help: "Exchanges with other nodes that went through.",
};

pub const CALLER_FORKS: Family = Family {
    name: "rds_caller_forks_total",
    kind: "counter",
    help: "Requests that came of a fork of the document.",
};

pub const BEHIND: Family = Family {
    name: "rds_behind",
    kind: "gauge",
    help: "Whether the file is older than what its replica has sent.",
};

pub const UNWRITABLE: Family = Family {
    name: "rds_unwritable",
    kind: "gauge",
    help: "Whether changes are refused, since the file couldn't be written.",
};

pub const PEER_MET: Family = Family {
    name: "rds_peer_met",
    kind: "gauge",
    help: "Whether the node was met when it was called last.",
};

pub const PEER_EXCHANGE_AGE: Family = Family {
    name: "rds_peer_exchange_age_seconds",
    kind: "gauge",
    help: "How long ago an exchange with the node went through.",
};

pub const PEER_COMING: Family = Family {
    name: "rds_peer_coming_bytes",
    kind: "gauge",
    help: "Bytes that have come of an answer of the node that isn't whole.",
};

pub const PEER_GOING: Family = Family {
    name: "rds_peer_going_bytes",
    kind: "gauge",
    help: "Bytes that wait to go to the node.",
};
