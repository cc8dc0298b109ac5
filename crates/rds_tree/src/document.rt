//! What a state's document shows.
ghost use Rattle.std.specs.Prelude.{◌≡◌, IfOk, IfErr, OnOk, OnErr};
ghost use Rattle.rds_names.specs.declared.fault.Fault.TheVariants.{Memory};
ghost use Rattle.rds_tree.specs.Document.{document, sums_of};
ghost use Rattle.rds_tree.specs.Growing.{Holds, rows_under};
ghost use Rattle.rds_tree.specs.Row.{leaf_row, AddsRow};
ghost use Rattle.rds_tree.specs.Shown.{shown_view};
ghost use Rattle.rds_tree.specs.View.{counters_shown, view_of};
ghost use Rattle.rds_tree.specs.declared.leaf.Leaf.{Leaf};

use crate::counting::sums_of;
use crate::leaf::Leaf;
use crate::node::Node;
use crate::views::{Sums, View};
use rds_counts::Counts;
use rds_dots::{Dot, DotSet};
use rds_life::LiveRows;
use rds_names::{Fault, Kind, Path, Scalar};
use rds_state::State;
use std::alloc::Global;

/// The most keys of a path, so all that a view shows is that deep.
pub const MOST_KEYS: u8 = 8;

/// What the state's document shows at the path: the maps, the values of registers and the values of
/// sets under each key there that has some, in ascending order and each once. At the root alone it
/// shows the counters of which some number is above 0. A path at which nothing stands shows nothing.
pub fn view<S: DotSet>(alloc: Global, state: &State<S>, path: &Path) -> Result<View, Fault>
    ensures shown { IfOk result (λ view. shown_view view ≡ view_of (document state.now) path.now) }
    ensures memory { IfErr result (λ fault. fault ≡ Memory) }
{
    let counters = counters_at(alloc, state.counts(), path)?;
    let tree = tree_of(alloc, state.lives().live(), path)?;
    let view = tree.view_at(alloc, path.keys(), MOST_KEYS, counters)?;
    Ok(view)
}

/// What the counters stand at, if the path is the root.
pub fn counters_at(alloc: Global, counts: &Counts, path: &Path) -> Result<Option<Sums>, Fault>
    ensures ok { IfOk result (λ counters. counters ≡ counters_shown path.now (sums_of counts.now)) }
    ensures memory { IfErr result (λ fault. fault ≡ Memory) }
{
    if !path.is_empty() {
        return Ok(None);
    }
    Ok(Some(sums_of(alloc, counts)?))
}

/// The tree of the live dots at the path or below it.
pub fn tree_of(alloc: Global, rows: LiveRows<'_>, path: &Path) -> Result<Node, Fault>
    ensures ok { IfOk result (λ node. Holds (rows_under path.now rows.entry) node) }
    ensures memory { IfErr result (λ fault. fault ≡ Memory) }
{
    let mut node = Node::new(alloc);
    let mut rest = rows;
    'adding: loop {
        let (dot, entry) = match rest.next() {
            Some(row) => row,
            None => return Ok(node),
        };
        if entry.path.begins_with(path) {
            add_leaf(alloc, &mut node, &entry.path, entry.kind, &entry.value, dot)?;
        }
    }
}

/// Adds the leaf of a dot to the tree.
pub fn add_leaf(
    alloc: Global,
    tree: &mut Node,
    path: &Path,
    kind: Kind,
    value: &Scalar,
    dot: Dot,
) -> Result<(), Fault>
    ensures ok { OnOk result
        (let leaf : Leaf = record { kind = kind; value = value.now; dot = dot } in
        AddsRow tree.old (leaf_row path.now leaf) tree.new) }
    ensures err { OnErr result (tree.new ≡ tree.old) }
    ensures memory { IfErr result (λ fault. fault ≡ Memory) }
{
    let leaf = Leaf {
        kind,
        value: value.copy(alloc)?,
        dot,
    };
    tree.insert(alloc, path.keys(), leaf)
}
