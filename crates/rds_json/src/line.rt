//! What a line asks for.
use rds_names::{Name, Path, Roster};
use rds_state::Command;

/// What a line asks for.
#[derive(Drop)]
pub enum Line {
    /// Begins with the replicas of this roster, all empty.
    Roster(Roster),
    /// Edits a replica.
    Edit(Name, Command),
    /// Keeps what a replica has in memory.
    Save(Name),
    /// Makes a replica what was last kept of it.
    Crash(Name),
    /// Asks for a replica what the others have.
    Ask(Name),
    /// Has a replica answer the ask of this number.
    Answer(Name, u64),
    /// Takes the answer of this number in.
    Take(u64),
    /// Has a replica put a name last in the roster.
    Grow(Name, Name),
    /// Shows what a replica's document has at a path.
    Show(Name, Path),
}
