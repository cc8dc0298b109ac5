//! All replicas of a document: what each has in memory and what it has kept, the asks and answers that go between
//! them, and the law over every list of events.
#![tactic(auto)]

mod event;
mod laws;
mod messages;
mod replicas;
mod simulating;
mod texts;
mod world;

pub use event::{Done, Event};
pub use laws::{
    a_step_has_one_result, coherent_replicas_are_friends, edits_are_steps,
    lost_dots_are_used_again, replicas_obey_the_law, rosters_grow, runs_go_on,
    worlds_have_one_value, worlds_stay_coherent,
};
pub use simulating::simulate;
pub use world::World;
