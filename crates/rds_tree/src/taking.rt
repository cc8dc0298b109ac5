//! A delta that is joined into a replica and into the tree of its live dots.
ghost use Rattle.std.specs.Prelude.{◌≡◌, max, Err, IfOk, IfErr, OnOk, OnErr, length};
ghost use Rattle.std.specs.FinMap as map;
ghost use Rattle.rds_counts.specs.RowsOf.{count_rows};
ghost use Rattle.rds_life.specs.Life.{Lived, live_rows};
ghost use Rattle.rds_names.specs.declared.fault.Fault.TheVariants.{Memory};
ghost use Rattle.rds_state.specs.Fits.{Fits};
ghost use Rattle.rds_state.specs.Mark.{mark_of, plus};
ghost use Rattle.rds_state.specs.Results.{TakesDelta, TakesDeltaWith};
ghost use Rattle.rds_state.specs.Value.{coordinates};
ghost use Rattle.rds_tree.specs.Growing.{Holds};
ghost use Rattle.rds_tree.specs.Marks.{marks_in, marks_of, HasRows, IsMoved};
ghost use Rattle.rds_tree.specs.Taken.{is_unseen, rows_dead, rows_unseen, AreSameBut, IsWith, IsWithout};

use crate::document::add_leaf;
use crate::marking::{marks_in, marks_of, moved, rows_of};
use crate::node::Node;
use crate::pick::OneLeaf;
use rds_dots::{Dot, DotSet};
use rds_life::{LiveRows, Lives, Rank};
use rds_names::{Entry, Fault, Roster};
use rds_state::{Mark, Replica, State};
use std::alloc::Global;

/// Joins a delta into the replica and its tree, and keeps the mark of its state. In the tree only the leaves of dots are
/// touched that come or die, and the mark goes with these. What may fail is done first, and undone without memory.
pub fn take<S: DotSet>(
    alloc: Global,
    replica: &mut Replica<S>,
    tree: &mut Node,
    mark: &mut Mark,
    delta: &State<S>,
) -> Result<(), Fault>
    requires fits { Fits (length replica.old.roster.names) (coordinates delta.now) }
    requires holds { Holds (live_rows replica.old.state.lives) tree.old }
    requires marked { mark.old ≡ mark_of replica.old.state }
    ensures holds { Holds (live_rows replica.new.state.lives) tree.new }
    ensures marked { mark.new ≡ mark_of replica.new.state }
    ensures taken { TakesDelta replica.old delta.now result replica.new }
{
    if delta.components() == 0 {
        return Ok(());
    }
    replica.may_take(delta)?;
    let change = Change::by(alloc, replica.state().lives(), delta.lives())?;
    change.begin(alloc, tree)?;
    let before = counted(replica, delta);
    if let Err(fault) = replica.take(delta) {
        change.undo(tree);
        return Err(fault);
    }
    change.finish(tree);
    *mark = change.marked(*mark, before, counted(replica, delta));
    Ok(())
}

/// Joins a delta into the replica and its tree as `take` does, where the delta comes with a roster.
pub fn take_with<S: DotSet>(
    alloc: Global,
    replica: &mut Replica<S>,
    tree: &mut Node,
    mark: &mut Mark,
    roster: Roster,
    delta: &State<S>,
) -> Result<(), Fault>
    requires fits { Fits (max (length replica.old.roster.names) (length roster.names)) (coordinates delta.now) }
    requires holds { Holds (live_rows replica.old.state.lives) tree.old }
    requires marked { mark.old ≡ mark_of replica.old.state }
    ensures holds { Holds (live_rows replica.new.state.lives) tree.new }
    ensures marked { mark.new ≡ mark_of replica.new.state }
    ensures taken { TakesDeltaWith replica.old roster delta.now result replica.new }
{
    if delta.components() == 0 {
        return replica.take_with(roster, delta);
    }
    replica.may_take_with(&roster, delta)?;
    let change = Change::by(alloc, replica.state().lives(), delta.lives())?;
    change.begin(alloc, tree)?;
    let before = counted(replica, delta);
    if let Err(fault) = replica.take_with(roster, delta) {
        change.undo(tree);
        return Err(fault);
    }
    change.finish(tree);
    *mark = change.marked(*mark, before, counted(replica, delta));
    Ok(())
}

/// What a join changes in the tree: copies of the rows of dots that die by it, and of those that come.
#[derive(Drop)]
struct Change {
    dying: Vec<(Dot, Entry)>,
    coming: Vec<(Dot, Entry)>,
}

impl Change {
    /// What a join of the lives there changes here.
    fn by<S: DotSet>(alloc: Global, here: &Lives<S>, there: &Lives<S>) -> Result<Change, Fault>
        ensures dying { IfOk result (λ change. change.dying.items ≡ rows_dead there.now (live_rows here.now)) }
        ensures coming { IfOk result (λ change. change.coming.items ≡ rows_unseen here.now (live_rows there.now)) }
        ensures memory { IfErr result (λ fault. fault ≡ Memory) }
    {
        Ok(Change {
            dying: here.rows_dead_in(alloc, there)?,
            coming: rows_unseen(alloc, there.live(), here)?,
        })
    }

    /// Adds the leaves of the dots that come, or none where there is no memory.
    fn begin(&self, alloc: Global, tree: &mut Node) -> Result<(), Fault>
        ensures ok { OnOk result (IsWith self.now.coming.items tree.old tree.new) }
        ensures some { OnOk result (AreSameBut self.now.coming.items tree.old tree.new) }
        ensures err { OnErr result ((here there : Lived) → self.now.coming.items ≡ rows_unseen here (live_rows there)
            → Holds (live_rows here) tree.old → Holds (live_rows here) tree.new) }
        ensures memory { IfErr result (λ fault. fault ≡ Memory) }
    {
        if let Err(fault) = add_leaves(alloc, tree, &self.coming) {
            self.undo(tree);
            return Err(fault);
        }
        Ok(())
    }

    /// Takes the leaves of the dots that come out again. Takes no memory.
    fn undo(&self, tree: &mut Node)
        ensures { IsWithout self.now.coming.items tree.old tree.new }
    {
        cut_leaves(tree, &self.coming);
    }

    /// Takes the leaves of the dots that die out. Takes no memory.
    fn finish(&self, tree: &mut Node)
        ensures { IsWithout self.now.dying.items tree.old tree.new }
    {
        cut_leaves(tree, &self.dying);
    }

    /// The mark without the dots that die and with those that come. So it is with the rows of the delta's counters, as
    /// they are before and after it.
    fn marked(&self, mark: Mark, before: Mark, after: Mark) -> Mark
        ensures { IsMoved mark (plus before (marks_of self.now.dying.items))
            (plus after (marks_of self.now.coming.items)) result }
    {
        let less = before.plus(marks_of(&self.dying));
        let more = after.plus(marks_of(&self.coming));
        moved(mark, less, more)
    }
}

/// The marks of the replica's rows under the keys and replicas of the delta's counters, added up.
fn counted<S: DotSet>(replica: &Replica<S>, delta: &State<S>) -> Mark
    ensures mark { result ≡ marks_in (count_rows replica.now.state.counts) (count_rows delta.now.counts) }
    ensures here { HasRows replica.now.state.counts }
    ensures there { HasRows delta.now.counts }
{
    let here = rows_of(replica.state().counts());
    let there = rows_of(delta.counts());
    marks_in(here, there)
}

/// Adds the leaves of live dots to the tree, as far as memory goes.
fn add_leaves(alloc: Global, tree: &mut Node, rows: &[(Dot, Entry)]) -> Result<(), Fault>
    ensures ok { OnOk result (IsWith rows.now tree.old tree.new) }
    ensures some { AreSameBut rows.now tree.old tree.new }
    ensures memory { IfErr result (λ fault. fault ≡ Memory) }
{
    let mut rest = rows;
    'adding: while let Some((row, later)) = rest.split_first() {
        let entry = &row.1;
        add_leaf(alloc, tree, &entry.path, entry.kind, &entry.value, row.0)?;
        rest = later;
    }
    Ok(())
}

/// Takes the leaves of live dots out of the tree. Takes no memory.
fn cut_leaves(tree: &mut Node, rows: &[(Dot, Entry)])
    ensures { IsWithout rows.now tree.old tree.new }
{
    let mut rest = rows;
    'cutting: loop {
        let (row, later) = match rest.split_first() {
            Some(parts) => parts,
            None => return,
        };
        let leaf = OneLeaf {
            kind: row.1.kind,
            value: &row.1.value,
            dot: row.0,
        };
        tree.cut(row.1.path.keys(), &leaf);
        rest = later;
    }
}

/// Copies of the rows whose dots the lives haven't seen.
fn rows_unseen<S: DotSet>(
    alloc: Global,
    rows: LiveRows<'_>,
    lives: &Lives<S>,
) -> Result<Vec<(Dot, Entry)>, Fault>
    ensures ok { IfOk result (λ copies. copies.items ≡ rows_unseen lives.now rows.entry) }
    ensures memory { IfErr result (λ fault. fault ≡ Memory) }
{
    let mut copies = Vec::new(alloc);
    let mut rest = rows;
    'looking: loop {
        let (dot, entry) = match rest.next() {
            Some(row) => row,
            None => return Ok(copies),
        };
        if is_unseen(lives, dot) {
            copies.push((dot, entry.copy(alloc)?))?;
        }
    }
}

/// Whether the lives haven't seen a dot.
fn is_unseen<S: DotSet>(lives: &Lives<S>, dot: Dot) -> bool
    ensures { result ≡ is_unseen (map.get lives.now dot) }
{
    match lives.rank(dot) {
        Rank::Unseen => true,
        Rank::Live | Rank::Dead => false,
    }
}
