//! The state of a document: the life of each dot and the numbers of each counter, their join, and the replicas that
//! edit it and take each other's states.
#![tactic(auto)]

mod ahead;
mod command;
mod covering;
mod editing;
mod laws;
mod mark;
mod replica;
mod sameness;
mod state;

pub use command::{Command, Edited};
pub use laws::{
    a_change_has_one_result, documents_have_the_sums, friends_take_each_other, join_laws,
    marks_add_up,
};
pub use mark::Mark;
pub use replica::Replica;
pub use state::State;
