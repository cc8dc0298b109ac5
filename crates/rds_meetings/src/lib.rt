//! Sessions of replicas in files: over a stream with a peer, over a reader and a writer, or of two files with one
//! another. Read `settling` first, then `paced`, `meeting`, `reports`, `syncing` and `piping`; `pairing`, with `paired`,
//! `pending`, `end`, `meeting` and `forks` in its folder, stands on `settling` and `reports` alone.
#![tactic(auto)]

mod meeting;
mod paced;
mod pairing;
mod piping;
mod reports;
mod settling;
mod syncing;

pub use meeting::{Met, meet};
pub use pairing::{Link, PairedFile, pair, pair_files};
pub use piping::pipe_file;
pub use settling::{Settled, Settlement, settle};
pub use syncing::{serve, serve_file, sync, sync_file};
