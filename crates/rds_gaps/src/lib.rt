//! Sets of dots as maximal runs.
#![tactic(auto)]

mod counting;
mod cutting;
mod gap_set;
mod inserting;
mod merging;
mod order;
mod searching;

pub use gap_set::GapSet;
