//! Edits of a replica and of the tree of its live dots that make no entry live. What they cover is found in the tree.
ghost use Rattle.std.specs.Prelude.{◌≡◌, None};
ghost use Rattle.rds_life.specs.Life.{live_rows};
ghost use Rattle.rds_state.specs.Chosen.{command_parts};
ghost use Rattle.rds_state.specs.Results.{EditsReplica};
ghost use Rattle.rds_tree.specs.Cuts.{path_covered, IsRaise};
ghost use Rattle.rds_tree.specs.Growing.{Holds};

use crate::covered::path_of;
use crate::found::FoundInTree;
use crate::node::Node;
use crate::pick::Covering;
use rds_dots::DotSet;
use rds_names::{Fault, Path};
use rds_state::{Command, Edited, Replica};

/// Edits the replica and its tree by a command that makes no entry live.
pub fn edit<S: DotSet>(
    replica: &mut Replica<S>,
    tree: &mut Node,
    command: &Command,
) -> Result<Edited, Fault>
    requires none { command_parts command.now ≡ None }
    requires holds { Holds (live_rows replica.old.state.lives) tree.old }
    ensures holds { Holds (live_rows replica.new.state.lives) tree.new }
    ensures edited { EditsReplica replica.old command.now result replica.new }
{
    match path_of(command) {
        Some(path) => kill(replica, tree, command, path),
        None => raise(replica, tree, command),
    }
}

/// Makes the dots dead that the command covers.
fn kill<S: DotSet>(
    replica: &mut Replica<S>,
    tree: &mut Node,
    command: &Command,
    path: &Path,
) -> Result<Edited, Fault>
    requires path { path.now ≡ path_covered command.now }
    requires parts { command_parts command.now ≡ None }
    requires holds { Holds (live_rows replica.old.state.lives) tree.old }
    ensures holds { Holds (live_rows replica.new.state.lives) tree.new }
    ensures edited { EditsReplica replica.old command.now result replica.new }
{
    let found = FoundInTree {
        tree,
        path,
        command,
    };
    let edited = replica.edit_found(command, &found)?;
    let covering = Covering { command, but: None };
    tree.cut(path.keys(), &covering);
    Ok(edited)
}

/// Raises a number, which covers nothing.
fn raise<S: DotSet>(
    replica: &mut Replica<S>,
    tree: &mut Node,
    command: &Command,
) -> Result<Edited, Fault>
    requires raise { IsRaise command.now }
    requires holds { Holds (live_rows replica.old.state.lives) tree.old }
    ensures holds { Holds (live_rows replica.new.state.lives) tree.new }
    ensures edited { EditsReplica replica.old command.now result replica.new }
{
    replica.edit_by(command)
}
