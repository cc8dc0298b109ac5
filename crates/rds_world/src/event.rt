//! What may happen to the replicas of a document.
use rds_names::Name;
use rds_state::{Command, Edited};

/// An event. Replicas are named by their numbers in the roster, asks and answers by the order in which they were
/// made, from 0.
#[derive(Debug, Drop)]
pub enum Event {
    /// The replica's memory is edited.
    Edit(u8, Command),
    /// The replica keeps what it has in memory.
    Save(u8),
    /// The replica loses its memory, and has what it kept.
    Crash(u8),
    /// The replica asks for what it hasn't kept.
    Ask(u8),
    /// The replica answers an ask.
    Answer(u8, u64),
    /// The asker takes an answer into its memory.
    Take(u64),
    /// The replica, which knows the whole roster, puts a name last in it. The replica of that name appears, with
    /// nothing.
    Grow(u8, Name),
}

/// What an event did.
#[derive(Clone, Copy, Debug, PartialEq, Eq)]
pub enum Done {
    /// An edit did this.
    Edited(Edited),
    /// A save, a crash or a take was made, or the roster grew.
    Plain,
    /// The ask has this number.
    Asked(u64),
    /// The answer has this number, and its delta so many components.
    Answered(u64, u128),
}
