//! What a document shows under one key.
ghost use Rattle.std.specs.Prelude.{◌≡◌, ◌++◌, ◌∷◌, [], IfOk, IfErr, MatchOption};
ghost use Rattle.std.specs.List.{list_any, starts_with};
ghost use Rattle.std.specs.Option.{option_map, option_to_list};
ghost use Rattle.std.specs.Str.{bytes_eq};
ghost use Rattle.rds_counts.specs.Counted.{AreCountRows};
ghost use Rattle.rds_names.specs.declared.fault.Fault.TheVariants.{Memory};
ghost use Rattle.rds_tree.specs.Document.{counted_keys, document, sums_of};
ghost use Rattle.rds_tree.specs.Gathered.{map_under, view_under};
ghost use Rattle.rds_tree.specs.Growing.{Holds, rows_under};
ghost use Rattle.rds_tree.specs.Parts.{only_key, only_rows};
ghost use Rattle.rds_tree.specs.Row.{placed_all};
ghost use Rattle.rds_tree.specs.Shown.{maps_shown, shown_view};
ghost use Rattle.rds_tree.specs.View.{below_path, counters_shown, same_key, values_here, view_of, with_key};

use crate::document::{MOST_KEYS, add_leaf};
use crate::node::{Node, push_values};
use crate::views::{Maps, Sums, Values, View};
use rds_counts::{CountRow, Counts};
use rds_dots::DotSet;
use rds_life::LiveRows;
use rds_names::{Fault, Key, Kind, Path};
use rds_state::State;
use std::alloc::Global;
use std::slice::from_ref;

/// What the state's document shows under one key of a path, as [`view`](crate::view) says, without all other keys. Of
/// live entries elsewhere only the paths are looked at.
pub fn view_of_key<S: DotSet>(
    alloc: Global,
    state: &State<S>,
    above: &Path,
    key: &Key,
) -> Result<View, Fault>
    ensures shown { IfOk result
        (λ view. shown_view view ≡ only_key key.now (view_of (document state.now) above.now)) }
    ensures memory { IfErr result (λ fault. fault ≡ Memory) }
{
    let counters = counters_of_key(alloc, state.counts(), above, key)?;
    let tree = tree_of_key(alloc, state.lives().live(), above, key)?;
    let view = view_in(alloc, &tree, above, key, counters)?;
    Ok(view)
}

/// What the counter of the key stands at, if the path above is the root.
pub fn counters_of_key(
    alloc: Global,
    counts: &Counts,
    above: &Path,
    key: &Key,
) -> Result<Option<Sums>, Fault>
    ensures ok { IfOk result
        (λ counters. counters ≡ option_map (only_rows key.now) (counters_shown above.now (sums_of counts.now))) }
    ensures memory { IfErr result (λ fault. fault ≡ Memory) }
{
    if !above.is_empty() {
        return Ok(None);
    }
    Ok(Some(sum_of(alloc, counts, key)?))
}

/// What the counter of the key stands at, if some number of it is above 0.
fn sum_of(alloc: Global, counts: &Counts, key: &Key) -> Result<Sums, Fault>
    ensures ok { IfOk result (λ sums. sums ≡ only_rows key.now (sums_of counts.now)) }
    ensures memory { IfErr result (λ fault. fault ≡ Memory) }
{
    if !is_counted(counts, key) {
        return Ok(Sums::from_rows(Vec::new(alloc)));
    }
    let mut sums = Vec::new(alloc);
    sums.push((key.copy(alloc)?, counts.value(key)))?;
    Ok(Sums::from_rows(sums))
}

/// Whether some number of the key is above 0.
fn is_counted(counts: &Counts, key: &Key) -> bool
    ensures { result ≡ list_any (same_key key.now) (counted_keys counts.now) }
{
    has_key(counts.rows(), key)
}

/// Whether a row has the key.
fn has_key(rows: &[CountRow], key: &Key) -> bool
    requires { AreCountRows rows.now }
    ensures { result ≡ list_any (λ r. same_key key.now r.key) rows.now }
{
    rows.binary_search_by(|row| row.key.cmp(key)).is_ok()
}

/// The tree of the live dots at the key or below it.
fn tree_of_key(alloc: Global, rows: LiveRows<'_>, above: &Path, key: &Key) -> Result<Node, Fault>
    ensures ok { IfOk result (λ node. Holds (rows_under (above.now ++ key.now ∷ []) rows.entry) node) }
    ensures memory { IfErr result (λ fault. fault ≡ Memory) }
{
    let mut node = Node::new(alloc);
    let mut rest = rows;
    'adding: loop {
        let (dot, entry) = match rest.next() {
            Some(row) => row,
            None => return Ok(node),
        };
        if is_under(&entry.path, above, key) {
            add_leaf(alloc, &mut node, &entry.path, entry.kind, &entry.value, dot)?;
        }
    }
}

/// Whether a path is that of the key, or goes on below it.
fn is_under(path: &Path, above: &Path, key: &Key) -> bool
    ensures { result ≡ starts_with bytes_eq path.now (above.now ++ key.now ∷ []) }
{
    match path.key(above.len()) {
        Some(next) => *key == *next && path.begins_with(above),
        None => false,
    }
}

/// The view of what a tree has at the key or below it, with these counters.
pub fn view_in(
    alloc: Global,
    tree: &Node,
    above: &Path,
    key: &Key,
    counters: Option<Sums>,
) -> Result<View, Fault>
    ensures ok { IfOk result (λ view. shown_view view
        ≡ view_under key.now counters (below_path (above.now ++ key.now ∷ []) (placed_all tree.now))) }
    ensures memory { IfErr result (λ fault. fault ≡ Memory) }
{
    if let Some(node) = node_at(tree, above, key) {
        let view = view_of_node(alloc, key, node, counters)?;
        return Ok(view);
    }
    Ok(View::of_counters(alloc, counters))
}

/// The node of a tree under the key, unless nothing stands there or below.
fn node_at<'a>(tree: &'a Node, above: &Path, key: &Key) -> Option<&'a Node>
    ensures { MatchOption result (below_path (above.now ++ key.now ∷ []) (placed_all tree.now) ≡ [])
        (λ node. placed_all node.now ≡ below_path (above.now ++ key.now ∷ []) (placed_all tree.now)) }
{
    match tree.at(above.keys()) {
        None => None,
        Some(top) => top.at(from_ref(key)),
    }
}

/// The view of what a node has, under its key, with these counters.
fn view_of_node(
    alloc: Global,
    key: &Key,
    node: &Node,
    counters: Option<Sums>,
) -> Result<View, Fault>
    ensures ok { IfOk result (λ view. shown_view view ≡ view_under key.now counters (placed_all node.now)) }
    ensures memory { IfErr result (λ fault. fault ≡ Memory) }
{
    let maps = map_of_node(alloc, key, node)?;
    let regs = values_of_node(alloc, key, node, Kind::Reg)?;
    let sets = values_of_node(alloc, key, node, Kind::Elem)?;
    Ok(View {
        maps,
        regs,
        sets,
        counters,
    })
}

/// What stands below a node, under its key.
fn map_of_node(alloc: Global, key: &Key, node: &Node) -> Result<Maps, Fault>
    ensures ok { IfOk result (λ maps. maps_shown maps ≡ map_under key.now (placed_all node.now)) }
    ensures memory { IfErr result (λ fault. fault ≡ Memory) }
{
    if !node.goes_on() {
        return Ok(Maps::from_rows(Vec::new(alloc)));
    }
    let mut maps = Vec::new(alloc);
    maps.push((key.copy(alloc)?, node.view(alloc, MOST_KEYS - 1, None)?))?;
    Ok(Maps::from_rows(maps))
}

/// The values of a kind that stand at a node, under its key.
fn values_of_node(alloc: Global, key: &Key, node: &Node, kind: Kind) -> Result<Values, Fault>
    ensures ok { IfOk result
        (λ values. values ≡ option_to_list (with_key key.now (values_here kind (placed_all node.now)))) }
    ensures memory { IfErr result (λ fault. fault ≡ Memory) }
{
    let mut rows = Vec::new(alloc);
    push_values(alloc, &mut rows, key, node.values(alloc, kind)?)?;
    Ok(Values::from_rows(rows))
}
