//! Counters that count up and down, as positive-negative counters (Shapiro, Preguiça, Baquero,
//! Zawirski 2011): under each key each replica has two numbers, which only grow.
#![tactic(auto)]

mod counts;
mod laws;
mod row;
mod rows;

pub use counts::Counts;
pub use laws::{a_merge_of_counts_has_one_result, limit_of_counts};
pub use row::{CountRow, MAX_COUNT, Which};
