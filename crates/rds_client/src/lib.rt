//! A node that is called over its HTTP, by commands, by a file that meets it, and by another node. Read `requests`,
//! what is asked and how it is answered; `troubles`, why that broke off; `destinations`, where a node is; `secrets`,
//! which token it is shown. Then `calling`, a connection that is waited for; by it go `asking`, one request of a
//! command; `fetching`, a file; `visiting`, a file that meets the node; and `changes`, `feed`, `watching`, what it
//! tells of its changes.
#![tactic(auto)]

mod asking;
mod calling;
mod changes;
mod destinations;
mod feed;
mod fetching;
mod links;
mod requests;
mod secrets;
mod troubles;
mod visiting;
mod watching;

pub use asking::{AskWords, ask_node};
pub use destinations::{Destination, MOST_PEERS, find_peers};
pub use fetching::fetch_node;
pub use links::more_seconds;
pub use requests::{DONE, Head, NOT_MODIFIED, Request, Resource, Response, Talk};
pub use secrets::read_secret;
pub use troubles::{End, FORKED, Standing, Trouble};
pub use visiting::{Visit, VisitWords, sync_site};
pub use watching::watch_node;
