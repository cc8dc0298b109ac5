//! The live dots that a command covers, as a list.
ghost use Rattle.std.specs.Prelude.{◌≡◌, [], IfOk, IfErr, IfSome, MatchOption, OnErr, OnOk};
ghost use Rattle.rds_life.specs.Life.{live_rows};
ghost use Rattle.rds_names.specs.declared.fault.Fault.TheVariants.{Memory};
ghost use Rattle.rds_tree.specs.Cuts.{covered_leaf, found_at, is_deep, path_covered, IsRaise};
ghost use Rattle.rds_tree.specs.Growing.{Holds};
ghost use Rattle.rds_tree.specs.Held.{is_covered, IsGathered};

use crate::node::Node;
use rds_dots::{Dot, DotSet};
use rds_names::{Fault, Path};
use rds_state::{Command, Replica};
use std::alloc::Global;

/// The live dots that a command covers, in order: found in the tree, or by a look at each where there is none.
pub fn covered<S: DotSet>(
    alloc: Global,
    replica: &Replica<S>,
    tree: Option<&Node>,
    command: &Command,
    path: &Path,
) -> Result<Vec<Dot>, Fault>
    requires path { path.now ≡ path_covered command.now }
    requires holds { IfSome tree (λ t. Holds (live_rows replica.now.state.lives) t.now) }
    ensures ok { IfOk result (λ dots. IsGathered (is_covered command.now replica.now.state.lives) [] dots.items) }
    ensures memory { IfErr result (λ fault. fault ≡ Memory) }
{
    match tree {
        Some(tree) => gathered(alloc, tree, command, path),
        None => replica.covered(alloc, command),
    }
}

/// Puts the live dots behind others that a command covers, in order, as the tree has them.
pub fn gather_covered<S: DotSet>(
    alloc: Global,
    replica: &Replica<S>,
    tree: &Node,
    command: &Command,
    dots: &mut Vec<Dot>,
) -> Result<(), Fault>
    requires holds { Holds (live_rows replica.now.state.lives) tree.now }
    ensures gathered { OnOk result
        (IsGathered (is_covered command.now replica.now.state.lives) dots.old.items dots.new.items) }
    ensures err { OnErr result (dots.new.items ≡ dots.old.items) }
    ensures memory { IfErr result (λ fault. fault ≡ Memory) }
{
    if let Some(path) = path_of(command) {
        let found = covered(alloc, replica, Some(tree), command, path)?;
        dots.extend_from_slice(&found)?;
    }
    Ok(())
}

/// The path at which or below which a command covers entries; one that raises a number covers none.
pub fn path_of(command: &Command) -> Option<&Path>
    ensures { MatchOption result (IsRaise command.now) (λ path. path.now ≡ path_covered command.now) }
{
    match command {
        Command::Set(path, _) => Some(path),
        Command::Add(path, _) => Some(path),
        Command::Del(path, _) => Some(path),
        Command::Clear(path) => Some(path),
        Command::Inc(_, _) => None,
        Command::Dec(_, _) => None,
    }
}

/// The dots that a command covers in a tree, in order.
fn gathered(alloc: Global, tree: &Node, command: &Command, path: &Path) -> Result<Vec<Dot>, Fault>
    ensures ok { IfOk result (λ dots.
        IsGathered (found_at (covered_leaf command.now) (is_deep command.now) path.now tree.now) [] dots.items) }
    ensures memory { IfErr result (λ fault. fault ≡ Memory) }
{
    let mut dots = Vec::new(alloc);
    tree.gather(path.keys(), command, &mut dots)?;
    dots.sort_unstable();
    Ok(dots)
}
