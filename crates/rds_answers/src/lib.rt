//! What answers a digest, as values: the least delta, its certificate, what passes, and that they have texts; the hash of
//! a digest; and that the halves of marks have 64 bits. Sessions and questions speak of these.
#![tactic(auto)]

mod laws;

pub use laws::values_are_least;
