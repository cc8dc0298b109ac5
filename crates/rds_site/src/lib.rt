//! The loop of a node: a site that runs. One process and one thread hold a document in its file, and serve it over
//! HTTP, and meet other nodes over theirs. Read `words`, `addresses`; then `committed`, `reserve`, `schedule`,
//! `refusals`, `behind`, `stalls`, `remains`, `forks`, `logging`, `sockets`, `listeners`, `patience`, `clients`,
//! `table`; then `channels`, `levels`, `exchanges`, `peers`, `peer_table`; then `arrivals`, `turns`, `running`.
#![tactic(auto)]

mod addresses;
mod arrivals;
mod behind;
mod channels;
mod clients;
mod committed;
mod exchanges;
mod forks;
mod levels;
mod listeners;
mod logging;
mod patience;
mod peer_table;
mod peers;
mod refusals;
mod remains;
mod reserve;
mod running;
mod schedule;
mod sockets;
mod stalls;
mod table;
mod turns;
mod words;

pub use committed::{Committed, commit};
pub use running::run_site;
pub use words::SiteWords;
