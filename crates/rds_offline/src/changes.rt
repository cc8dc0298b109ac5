//! What a take changes, for the file that keeps it.
ghost use Rattle.std.specs.Prelude.{◌≡◌, length, nat_le, None, Some, if◌then◌else◌};

use rds_dots::DotSet;
use rds_keep::Change;
use rds_names::Roster;
use rds_state::State;

/// The change by which a replica of so many names took a delta that came with a roster: the roster is part of it where
/// it is longer.
pub fn change_by<'a, S: DotSet>(
    replicas: u16,
    roster: &'a Roster,
    delta: &'a State<S>,
) -> Change<'a, S>
    ensures roster { result.roster ≡ (if nat_le (length roster.now.names) replicas then None else Some roster.now) }
    ensures delta { result.delta ≡ delta.now }
{
    let longer = if roster.len() <= replicas {
        None
    } else {
        Some(roster)
    };
    Change {
        roster: longer,
        delta,
    }
}
