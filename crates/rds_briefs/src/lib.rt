//! Briefs: short texts of digests.
//!
//! A brief says for each maximal run of the seen dots which of its dots are live, in the shorter of two forms, and then
//! the counters as the digest's own text does.
//!
//! To be read in this order: `stretches`; `text`, which is written without being measured before; `writing`; `reading`
//! and `runs`; `briefs`; `laws`.
#![tactic(auto)]

mod briefs;
mod laws;
mod reading;
mod runs;
mod stretches;
mod text;
mod writing;

pub use briefs::{decode_brief, encode_brief};
pub use laws::{briefs_are_read, briefs_stand_apart};
