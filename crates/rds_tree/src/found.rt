//! What a command covers, found in a tree.
ghost use Rattle.rds_tree.specs.Cuts.{covered_leaf, found_at, is_deep};
ghost use Rattle.rds_tree.specs.Held.{among_dots};

use crate::dot_list::kill_each;
use crate::node::Node;
use rds_dots::{Dot, DotSet};
use rds_life::{Found, Lives};
use rds_names::Path;
use rds_state::Command;

/// The live dots that a command covers, found in the tree of live dots at the command's path.
#[derive(Drop)]
pub struct FoundInTree<'a> {
    pub tree: &'a Node,
    pub path: &'a Path,
    pub command: &'a Command,
}

impl<'a> Found for FoundInTree<'a> {
    ghost found = { λ f. found_at (covered_leaf f.command.now) (is_deep f.command.now) f.path.now f.tree.now };

    fn kill_in<S: DotSet>(&self, lives: &mut Lives<S>, but: Option<Dot>) {
        self.tree
            .kill_in(self.path.keys(), self.command, lives, but);
    }
}

/// The live dots that a command covers, in a list.
#[derive(Drop)]
pub struct FoundDots<'a> {
    pub dots: &'a [Dot],
}

impl<'a> Found for FoundDots<'a> {
    ghost found = { λ f. among_dots f.dots.now };

    fn kill_in<S: DotSet>(&self, lives: &mut Lives<S>, but: Option<Dot>) {
        kill_each(self.dots, lives, but);
    }
}
