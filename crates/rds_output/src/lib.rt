//! What the program writes: replies, digits and faults, each as a line, and the exit status of each. Read `digits`
//! first, then `reply` and `output`.
#![tactic(auto)]

mod digits;
mod output;
mod reply;

pub use digits::Digits;
pub use output::{status_of, write_fault, write_fault_line, write_reply};
pub use reply::Reply;
