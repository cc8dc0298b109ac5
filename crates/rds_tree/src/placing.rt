//! Edits of a replica and of the tree of its live dots that make an entry live.
ghost use Rattle.std.specs.Prelude.{◌≡◌, [], None, Some, MatchOption};
ghost use Rattle.rds_life.specs.Life.{live_rows};
ghost use Rattle.rds_state.specs.Chosen.{command_parts, CommandParts};
ghost use Rattle.rds_state.specs.Mark.{mark_of};
ghost use Rattle.rds_state.specs.Results.{EditsReplica};
ghost use Rattle.rds_tree.specs.Cuts.{covering, is_deep, IsCut};
ghost use Rattle.rds_tree.specs.Growing.{Holds};

use crate::found::FoundDots;
use crate::leaf::Leaf;
use crate::marking::{Going, mark_after};
use crate::node::Node;
use crate::pick::{Covering, OneLeaf};
use rds_dots::{Dot, DotSet};
use rds_names::{Fault, Key, Kind, Path, Scalar};
use rds_state::{Command, Edited, Mark, Replica};
use std::alloc::Global;

/// The parts of the entry that a command makes live.
#[derive(Clone, Copy, Drop)]
pub struct Placed<'a> {
    pub path: &'a Path,
    pub kind: Kind,
    pub value: &'a Scalar,
}

impl<'a> Placed<'a> {
    /// Those of a command, if it makes an entry live.
    pub fn by(command: &'a Command) -> Option<Placed<'a>>
        ensures { MatchOption result (command_parts command.now ≡ None)
            (λ placed. let parts : CommandParts = record {
              path = placed.path.now;
              kind = placed.kind;
              value = placed.value.now;
            } in
            command_parts command.now ≡ Some parts) }
    {
        match command {
            Command::Set(path, value) => Some(Placed {
                path,
                kind: Kind::Reg,
                value,
            }),
            Command::Add(path, value) => Some(Placed {
                path,
                kind: Kind::Elem,
                value,
            }),
            Command::Del(_, _) => None,
            Command::Clear(_) => None,
            Command::Inc(_, _) => None,
            Command::Dec(_, _) => None,
        }
    }
}

/// Makes an entry live, and the dots dead that the command covers, and keeps the mark. One walk down the tree puts the
/// leaf there and finds these dots, and another takes their leaves out, where there are some.
pub fn put<S: DotSet>(
    alloc: Global,
    replica: &mut Replica<S>,
    tree: &mut Node,
    mark: &mut Mark,
    command: &Command,
    placed: Placed<'_>,
) -> Result<Edited, Fault>
    requires parts { let parts : CommandParts = record {
      path = placed.path.now;
      kind = placed.kind;
      value = placed.value.now;
    } in
        command_parts command.now ≡ Some parts }
    requires holds { Holds (live_rows replica.old.state.lives) tree.old }
    requires marked { mark.old ≡ mark_of replica.old.state }
    ensures holds { Holds (live_rows replica.new.state.lives) tree.new }
    ensures marked { mark.new ≡ mark_of replica.new.state }
    ensures edited { EditsReplica replica.old command.now result replica.new }
{
    let Placed { path, kind, value } = placed;
    let dot = replica.next_dot(path)?;
    let leaf = Leaf {
        kind,
        value: value.copy(alloc)?,
        dot,
    };
    let mut dots = Vec::new(alloc);
    tree.place(alloc, path.keys(), leaf, command, &mut dots)?;
    let going = Going::of(replica, &dots);
    match replica.edit_found(command, &FoundDots { dots: &dots }) {
        Ok(edited) => {
            cut_covered(tree, path.keys(), command, dot, &dots);
            *mark = mark_after(replica, *mark, Some(going), command, edited);
            Ok(edited)
        }
        Err(fault) => {
            tree.cut(path.keys(), &OneLeaf { kind, value, dot });
            Err(fault)
        }
    }
}

/// Takes out what a command covers at the end of the path but the new dot, which are the leaves of these dots.
fn cut_covered(tree: &mut Node, path: &[Key], command: &Command, new: Dot, dots: &[Dot])
    requires none { dots.now ≡ []
        → IsCut (covering command.now (Some new)) (is_deep command.now) path.now tree.old tree.old }
    ensures { IsCut (covering command.now (Some new)) (is_deep command.now) path.now tree.old tree.new }
{
    if dots.is_empty() {
        return;
    }
    let covering = Covering {
        command,
        but: Some(new),
    };
    tree.cut(path, &covering);
}
