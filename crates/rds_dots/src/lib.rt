//! Dots, sets of dots, and the maximal runs of a set (Almeida, Shoker, Baquero 2018).
#![tactic(auto)]

mod dot;
mod law;
mod list_set;
mod lists;
mod over;
mod questions;
mod set;
mod walk;

pub use dot::{Dot, MAX_SEQ, Run};
pub use law::{equal_sets_have_equal_runs, limit_of_dots};
pub use list_set::ListSet;
pub use over::runs;
pub use questions::{are_below, first_lacking, same};
pub use set::DotSet;
pub use walk::Runs;
