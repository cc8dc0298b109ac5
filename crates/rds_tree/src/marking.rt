//! The mark of a replica's state, which goes with what changes.
ghost use Rattle.std.specs.Prelude.{◌≡◌, Ok, IfOk, IfErr, IfSome, count_by, filter, length};
ghost use Rattle.std.specs.FinMap as map;
ghost use Rattle.rds_counts.specs.Counted.{AreCountRows};
ghost use Rattle.rds_counts.specs.RowsOf.{count_rows};
ghost use Rattle.rds_counts.specs.Search.{IsSpot};
ghost use Rattle.rds_life.specs.Life.{entry_of, live_rows};
ghost use Rattle.rds_names.specs.declared.fault.Fault.TheVariants.{Memory};
ghost use Rattle.rds_state.specs.Edit.{covers};
ghost use Rattle.rds_state.specs.Fits.{ReplicaValue};
ghost use Rattle.rds_state.specs.Mark.{mark_of};
ghost use Rattle.rds_state.specs.Results.{EditsReplica};
ghost use Rattle.rds_tree.specs.Cuts.{path_covered};
ghost use Rattle.rds_tree.specs.Growing.{Holds};
ghost use Rattle.rds_tree.specs.Marks.{coming, going, mark_at, mark_in, marks_at, marks_in, marks_of, HasRows, IsMoved};

use crate::indexing::edit;
use crate::node::Node;
use crate::placing::{Placed, put};
use rds_counts::{CountRow, Counts};
use rds_dots::{Dot, DotSet};
use rds_life::Lives;
use rds_names::{Entry, Fault, Key, Path};
use rds_state::{Command, Edited, Mark, Replica};
use std::alloc::Global;

/// Edits the replica and its tree, and keeps the mark of its state. That takes no memory that an edit doesn't: where
/// there is none to list what the command covers, the mark is made anew.
pub fn edit_marked<S: DotSet>(
    alloc: Global,
    replica: &mut Replica<S>,
    tree: &mut Node,
    mark: &mut Mark,
    command: &Command,
) -> Result<Edited, Fault>
    requires holds { Holds (live_rows replica.old.state.lives) tree.old }
    requires marked { mark.old ≡ mark_of replica.old.state }
    ensures holds { Holds (live_rows replica.new.state.lives) tree.new }
    ensures marked { mark.new ≡ mark_of replica.new.state }
    ensures edited { EditsReplica replica.old command.now result replica.new }
{
    if let Some(placed) = Placed::by(command) {
        return put(alloc, replica, tree, mark, command, placed);
    }
    let going = Going::by(alloc, replica, tree, command).ok();
    let edited = edit(replica, tree, command)?;
    *mark = mark_after(replica, *mark, going, command, edited);
    Ok(edited)
}

/// The mark of a replica's state after an edit: that of the one before, without what goes and with what has come. Where
/// it isn't known what goes, it is made anew.
pub fn mark_after<S: DotSet>(
    replica: &Replica<S>,
    mark: Mark,
    gone: Option<Going>,
    command: &Command,
    edited: Edited,
) -> Mark
    ensures { (old : ReplicaValue) → mark ≡ mark_of old.state → HasRows old.state.counts
        → EditsReplica old command.now (Ok edited) replica.now
        → IfSome gone (λ g. g.dots ≡ edited.killed → g.mark ≡ going old command.now)
        → result ≡ mark_of replica.now.state }
{
    let after = coming(replica, command, edited.dot);
    match gone {
        Some(gone) if gone.dots == edited.killed => moved(mark, gone.mark, after),
        _ => replica.state().mark(),
    }
}

/// What goes by an edit: its mark, and how many dots a tree lists for it. That a tree lists a dot once isn't said of it,
/// so the mark is that of what goes only where as many die.
#[derive(Clone, Copy)]
pub struct Going {
    pub mark: Mark,
    pub dots: u64,
}

impl Going {
    /// What goes with these dots of a replica.
    pub fn of<S: DotSet>(replica: &Replica<S>, dots: &[Dot]) -> Going
        ensures mark { result.mark ≡ marks_at replica.now.state.lives dots.now }
        ensures dots { result.dots ≡ length dots.now }
        ensures rows { HasRows replica.now.state.counts }
    {
        let _rows = rows_of(replica.state().counts());
        Going {
            mark: marks_at(replica.state().lives(), dots),
            dots: dots.len() as u64,
        }
    }

    /// What goes by a command.
    fn by<S: DotSet>(
        alloc: Global,
        replica: &Replica<S>,
        tree: &Node,
        command: &Command,
    ) -> Result<Going, Fault>
        requires holds { Holds (live_rows replica.now.state.lives) tree.now }
        ensures ok { IfOk result (λ gone. gone.dots ≡ count_by (λ r. covers command.now r.1)
            (live_rows replica.now.state.lives) → gone.mark ≡ going replica.now command.now) }
        ensures rows { HasRows replica.now.state.counts }
        ensures memory { IfErr result (λ fault. fault ≡ Memory) }
    {
        let rows = rows_of(replica.state().counts());
        match command {
            Command::Set(path, _) => Going::covered(alloc, replica, tree, command, path),
            Command::Add(path, _) => Going::covered(alloc, replica, tree, command, path),
            Command::Del(path, _) => Going::covered(alloc, replica, tree, command, path),
            Command::Clear(path) => Going::covered(alloc, replica, tree, command, path),
            Command::Inc(key, _) => Ok(Going {
                mark: mark_in(key, replica.own(), rows),
                dots: 0,
            }),
            Command::Dec(key, _) => Ok(Going {
                mark: mark_in(key, replica.own(), rows),
                dots: 0,
            }),
        }
    }

    /// The live dots that a command covers, as the tree has them.
    fn covered<S: DotSet>(
        alloc: Global,
        replica: &Replica<S>,
        tree: &Node,
        command: &Command,
        path: &Path,
    ) -> Result<Going, Fault>
        requires path { path.now ≡ path_covered command.now }
        requires holds { Holds (live_rows replica.now.state.lives) tree.now }
        ensures ok { IfOk result (λ gone. gone.dots ≡ count_by (λ r. covers command.now r.1)
            (live_rows replica.now.state.lives)
            → gone.mark ≡ marks_of (filter (λ r. covers command.now r.1) (live_rows replica.now.state.lives))) }
        ensures memory { IfErr result (λ fault. fault ≡ Memory) }
    {
        let mut dots = Vec::new(alloc);
        tree.gather(path.keys(), command, &mut dots)?;
        Ok(Going::of(replica, &dots))
    }
}

/// The mark of what has come by an edit.
fn coming<S: DotSet>(replica: &Replica<S>, command: &Command, dot: Option<Dot>) -> Mark
    ensures mark { result ≡ coming replica.now command.now dot }
    ensures rows { HasRows replica.now.state.counts }
{
    let rows = rows_of(replica.state().counts());
    match command {
        Command::Inc(key, _) => mark_in(key, replica.own(), rows),
        Command::Dec(key, _) => mark_in(key, replica.own(), rows),
        Command::Set(_, _) | Command::Add(_, _) | Command::Del(_, _) | Command::Clear(_) => {
            match dot {
                Some(dot) => mark_at(dot, replica.state().lives()),
                None => Mark::empty(),
            }
        }
    }
}

/// A mark without the one and with the other.
pub fn moved(mark: Mark, less: Mark, more: Mark) -> Mark
    ensures { IsMoved mark less more result }
{
    mark.minus(less).plus(more)
}

/// The marks of live dots with their entries, added up.
pub fn marks_of(rows: &[(Dot, Entry)]) -> Mark
    ensures { result ≡ marks_of rows.now }
{
    let mut mark = Mark::empty();
    let mut rest = rows;
    'adding: while let Some((row, later)) = rest.split_first() {
        mark = mark.plus(Mark::of_live(row.0, &row.1));
        rest = later;
    }
    mark
}

/// The marks of the keys and replicas of other rows, as far as there are rows of them, added up.
pub fn marks_in(rows: &[CountRow], others: &[CountRow]) -> Mark
    requires { AreCountRows rows.now }
    ensures { result ≡ marks_in rows.now others.now }
{
    let mut mark = Mark::empty();
    let mut rest = others;
    'adding: while let Some((row, later)) = rest.split_first() {
        mark = mark.plus(mark_in(&row.key, row.replica, rows));
        rest = later;
    }
    mark
}

/// The marks of dots, as far as they are live, added up.
fn marks_at<S: DotSet>(lives: &Lives<S>, dots: &[Dot]) -> Mark
    ensures { result ≡ marks_at lives.now dots.now }
{
    let mut mark = Mark::empty();
    let mut rest = dots;
    'adding: while let Some((dot, later)) = rest.split_first() {
        mark = mark.plus(mark_at(*dot, lives));
        rest = later;
    }
    mark
}

/// The mark of a dot, if it is live.
fn mark_at<S: DotSet>(dot: Dot, lives: &Lives<S>) -> Mark
    ensures { result ≡ mark_at dot (entry_of (map.get lives.now dot)) }
{
    match lives.entry(dot) {
        Some(entry) => Mark::of_live(dot, entry),
        None => Mark::empty(),
    }
}

/// The mark of the row of a key and a replica, if there is one.
fn mark_in(key: &Key, replica: u8, rows: &[CountRow]) -> Mark
    requires { AreCountRows rows.now }
    ensures { result ≡ mark_in key.now replica rows.now }
{
    match find_row(key, replica, rows) {
        Ok(at) => Mark::of_count(&rows[at]),
        Err(_) => Mark::empty(),
    }
}

/// The rows of counters.
pub fn rows_of(counts: &Counts) -> &[CountRow]
    ensures rows { result.now ≡ count_rows counts.now }
    ensures has { HasRows counts.now }
{
    counts.rows()
}

/// Where the row of a key and a replica is, or where it would stand.
fn find_row(key: &Key, replica: u8, rows: &[CountRow]) -> Result<usize, usize>
    requires { AreCountRows rows.now }
    ensures { IsSpot key.now replica rows.now result }
{
    rows.binary_search_by(|row| row.key.cmp(key).then(row.replica.cmp(&replica)))
}
