//! A replica with the tree of its live dots.
ghost use Rattle.std.specs.Prelude.{◌≡◌, max, IfOk, IfErr, OnErr, OnOk, length};
ghost use Rattle.rds_life.specs.Life.{live_rows};
ghost use Rattle.rds_names.specs.declared.fault.Fault.TheVariants.{Memory};
ghost use Rattle.rds_state.specs.Fits.{Fits};
ghost use Rattle.rds_state.specs.Mark.{mark_of};
ghost use Rattle.rds_state.specs.Results.{EditsReplica, Grows, TakesDelta, TakesDeltaWith};
ghost use Rattle.rds_state.specs.Value.{coordinates};
ghost use Rattle.rds_tree.specs.Document.{document};
ghost use Rattle.rds_tree.specs.EditsWithDelta.{EditsWithDelta};
ghost use Rattle.rds_tree.specs.Growing.{Holds};
ghost use Rattle.rds_tree.specs.Held.{is_covered, IsGathered};
ghost use Rattle.rds_tree.specs.Parts.{closed, only_key};
ghost use Rattle.rds_tree.specs.Shown.{shown_view};
ghost use Rattle.rds_tree.specs.View.{view_of};

use crate::covered::gather_covered;
use crate::document::{MOST_KEYS, counters_at, tree_of};
use crate::edit_delta::edit_tree_with_delta;
use crate::marking::edit_marked;
use crate::node::Node;
use crate::one_key::{counters_of_key, view_in};
use crate::taking::{take, take_with};
use crate::views::View;
use rds_dots::{Dot, DotSet};
use rds_names::{Fault, Key, Path, Roster};
use rds_state::{Command, Edited, Mark, Replica, State};
use std::alloc::Global;
use std::marker::Model;

/// A replica, seen as such, that keeps the tree of its live dots by path beside it, and the mark of its state. In the
/// tree an edit looks at its path and, for a clear, below it; a view at what it shows; a take at the leaves of the dots
/// that come or die. The mark goes with what an edit or a take changes.
pub struct Index<S: DotSet> {
    alloc: Global,
    replica: Replica<S>,
    tree: Node,
    mark: Mark,
}

// Written out, so that where an index is let go a caller's proof has one call.
impl<S: DotSet> Drop for Index<S> {
    fn drop(self) {
        let Index {
            alloc: _,
            replica: _replica,
            tree: _tree,
            mark: _,
        } = self;
    }
}

impl<S: DotSet> Model for Index<S> {
    ghost use Rattle.rds_life.specs.Life.{live_rows};
    ghost use Rattle.std.specs.Prelude.{◌≡◌};
    ghost use Rattle.rds_state.specs.Fits.{ReplicaValue, coded_replica};
    ghost use Rattle.rds_state.specs.Mark.{mark_of};
    ghost use Rattle.rds_tree.specs.Growing.{Holds};

    ghost Value = { ReplicaValue };

    ghost coded = { coded_replica };

    ghost view = { λ i. i.replica };

    ghost invariant = { λ i. Holds (live_rows i.replica.state.lives) i.tree × (i.mark ≡ mark_of i.replica.state) };
}

impl<S: DotSet> Index<S> {
    /// The index of a replica.
    pub fn of(alloc: Global, replica: Replica<S>) -> Result<Index<S>, Fault>
        ensures ok { IfOk result (λ index. index ≡ replica) }
        ensures memory { IfErr result (λ fault. fault ≡ Memory) }
    {
        let tree = whole_tree(alloc, &replica)?;
        let mark = replica.state().mark();
        let mut indexed = replica;
        indexed.index()?;
        Ok(Index {
            alloc,
            replica: indexed,
            tree,
            mark,
        })
    }

    /// The replica. Takes no memory.
    pub fn replica(&self) -> &Replica<S>
        ensures { result.now ≡ self.now }
    {
        &self.replica
    }

    /// The mark of the replica's state, which is kept: it takes no pass and no memory.
    pub fn mark(&self) -> Mark
        ensures { result ≡ mark_of self.now.state }
    {
        self.mark
    }

    /// What the replica's document shows at the path, as [`view`](crate::view) says.
    pub fn view(&self, path: &Path) -> Result<View, Fault>
        ensures shown { IfOk result (λ view. shown_view view ≡ view_of (document self.now.state) path.now) }
        ensures memory { IfErr result (λ fault. fault ≡ Memory) }
    {
        let counters = counters_at(self.alloc, self.replica.state().counts(), path)?;
        let view = self
            .tree
            .view_at(self.alloc, path.keys(), MOST_KEYS, counters)?;
        Ok(view)
    }

    /// What the replica's document shows under one key of a path, as [`view_of_key`](crate::view_of_key) says. Only what
    /// stands at the key or below it is looked at.
    pub fn view_of_key(&self, above: &Path, key: &Key) -> Result<View, Fault>
        ensures shown { IfOk result
            (λ view. shown_view view ≡ only_key key.now (view_of (document self.now.state) above.now)) }
        ensures memory { IfErr result (λ fault. fault ≡ Memory) }
    {
        let counters = counters_of_key(self.alloc, self.replica.state().counts(), above, key)?;
        let view = view_in(self.alloc, &self.tree, above, key, counters)?;
        Ok(view)
    }

    /// What the replica's document shows at the path, but that each map there shows nothing. What is further below isn't
    /// looked at.
    pub fn view_here(&self, path: &Path) -> Result<View, Fault>
        ensures shown { IfOk result (λ view. shown_view view ≡ closed (view_of (document self.now.state) path.now)) }
        ensures memory { IfErr result (λ fault. fault ≡ Memory) }
    {
        let counters = counters_at(self.alloc, self.replica.state().counts(), path)?;
        let view = self.tree.view_at(self.alloc, path.keys(), 1, counters)?;
        Ok(view)
    }

    /// Edits the replica, as [`Replica::edit`] does, and refuses as it does. The tree finds what the command covers.
    pub fn edit(&mut self, command: Command) -> Result<Edited, Fault>
        ensures { EditsReplica self.old command result self.new }
    {
        self.edit_by(&command)
    }

    /// Edits the replica as [`edit`](Index::edit) does, by a command that the caller keeps.
    pub fn edit_by(&mut self, command: &Command) -> Result<Edited, Fault>
        ensures { EditsReplica self.old command.now result self.new }
    {
        edit_marked(
            self.alloc,
            &mut self.replica,
            &mut self.tree,
            &mut self.mark,
            command,
        )
    }

    /// Edits the replica as [`edit`](Index::edit) does, and hands out what that changed, as a delta. It is found by what
    /// the command touches, however much lives. A command that makes dots dead takes memory for it.
    pub fn edit_with_delta(&mut self, command: &Command) -> Result<(Edited, State<S>), Fault>
        ensures { EditsWithDelta self.old command.now result self.new }
    {
        edit_tree_with_delta(
            self.alloc,
            &mut self.replica,
            &mut self.tree,
            &mut self.mark,
            command,
        )
    }

    /// Puts the live dots behind others that a command covers, in order, as the tree finds them. `Inc` and `Dec` cover
    /// none. One that covers none takes no memory.
    pub fn gather_covered(&self, command: &Command, dots: &mut Vec<Dot>) -> Result<(), Fault>
        ensures gathered { OnOk result
            (IsGathered (is_covered command.now self.now.state.lives) dots.old.items dots.new.items) }
        ensures err { OnErr result (dots.new.items ≡ dots.old.items) }
        ensures memory { IfErr result (λ fault. fault ≡ Memory) }
    {
        gather_covered(self.alloc, &self.replica, &self.tree, command, dots)
    }

    /// Joins a delta into the replica, as [`Replica::take`] does, and refuses as it does. The tree isn't built anew.
    pub fn take(&mut self, delta: &State<S>) -> Result<(), Fault>
        requires { Fits (length self.old.roster.names) (coordinates delta.now) }
        ensures { TakesDelta self.old delta.now result self.new }
    {
        take(
            self.alloc,
            &mut self.replica,
            &mut self.tree,
            &mut self.mark,
            delta,
        )
    }

    /// Takes a longer roster, as [`Replica::grow`] does, and refuses as it does. Takes no memory.
    pub fn grow(&mut self, roster: Roster) -> Result<(), Fault>
        ensures { Grows self.old roster result self.new }
    {
        self.replica.grow(roster)
    }

    /// Takes a delta that comes with a roster, as [`Replica::take_with`] does, and refuses as it does. The tree isn't
    /// built anew.
    pub fn take_with(&mut self, roster: Roster, delta: &State<S>) -> Result<(), Fault>
        requires { Fits (max (length self.old.roster.names) (length roster.names)) (coordinates delta.now) }
        ensures { TakesDeltaWith self.old roster delta.now result self.new }
    {
        take_with(
            self.alloc,
            &mut self.replica,
            &mut self.tree,
            &mut self.mark,
            roster,
            delta,
        )
    }

    /// The replica, without its tree. Takes no memory.
    pub fn into_replica(self) -> Replica<S>
        ensures { result ≡ self }
    {
        let Index {
            alloc: _alloc,
            replica: bare,
            tree: _tree,
            mark: _mark,
        } = self;
        bare
    }
}

/// The tree of all live dots of a replica.
fn whole_tree<S: DotSet>(alloc: Global, replica: &Replica<S>) -> Result<Node, Fault>
    ensures ok { IfOk result (λ node. Holds (live_rows replica.now.state.lives) node) }
    ensures memory { IfErr result (λ fault. fault ≡ Memory) }
{
    let root = Path::new(alloc, "")?;
    let tree = tree_of(alloc, replica.state().lives().live(), &root)?;
    Ok(tree)
}
