//! The session of two replicas, as a machine over a stream of bytes: each tells what it has, and gets what it lacks.
#![tactic(auto)]

mod came;
mod chunks;
mod coming;
mod content;
mod digests;
mod exchanging;
mod hashes;
mod judging;
mod kinds;
mod laws;
mod marks;
mod message;
mod sending;
mod session;
mod step;
mod talk;
mod version;
mod wants;
mod writing;

pub use exchanging::{Exchanged, exchange};
pub use laws::{
    a_course_is_by_messages, a_server_speaks_its_clients_version,
    a_step_of_a_session_has_one_result, limit_of_messages, streams_are_split_once, two_sessions,
};
pub use session::Session;
pub use step::{Ended, Input, Output};
pub use talk::Side;
pub use version::Version;
