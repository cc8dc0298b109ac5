//! What commands edit.
ghost use Rattle.std.specs.Prelude.{◌≡◌};
ghost use Rattle.rds_state.specs.Fits.{ReplicaValue};
ghost use Rattle.rds_lines.specs.Editing.{DoesCommand};

use rds_dots::DotSet;
use rds_names::{Fault, Roster};
use rds_state::{Command, Edited};
use rds_tree::Index;

/// A replica that is edited by commands, however it is held.
pub trait Edits {
    /// The replica.
    ghost replica: { Self → ReplicaValue };

    /// What an edit leaves as it is beside the replica, of what was before and after it.
    ghost stays: { Self → Self → Type 0 };

    /// Its roster.
    fn roster(&self) -> &Roster
        ensures { result.now ≡ (replica self.now).roster };

    /// Edits the replica. Refuses as [`Replica::edit`](rds_state::Replica::edit) does, and with `Memory` where it
    /// is held otherwise.
    fn edit_by(&mut self, command: &Command) -> Result<Edited, Fault>
        ensures done { DoesCommand (replica self.old) command.now result (replica self.new) }
        ensures stays { stays self.old self.new };

    /// No edit leaves all as it is.
    ghost same: { (editor : Self) → stays editor editor };

    /// Two edits do as each does.
    ghost then: { (first next last : Self) → stays first next → stays next last → stays first last };
}

impl<S: DotSet> Edits for Index<S> {
    ghost replica = { λ index. index };

    ghost stays = { λ _ _. Unit {0} };

    fn roster(&self) -> &Roster {
        self.replica().roster()
    }

    fn edit_by(&mut self, command: &Command) -> Result<Edited, Fault> {
        Index::edit_by(self, command)
    }

    ghost same = { λ _. tt };

    ghost then = { λ _ _ _ _ _. tt };
}
