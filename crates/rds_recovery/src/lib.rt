//! What is read of a file that crashes left: laws over appends, over the device that tears, and over the model of all
//! replicas.
#![tactic(auto)]

mod laws;

pub use laws::{
    acknowledged_changes_are_never_lost, appends_are_safe_at_any_moment, broken_edits_are_events,
    crashes_make_nothing_up,
};
