//! A tree of live dots by path.
ghost use Rattle.std.specs.Prelude.{◌≡◌, ◌++◌, ◌∷◌, [], ℕ, ℤ, List, None, Option, not, true, false, IfOk, IfErr, OnOk};
ghost use Rattle.std.specs.Prelude.{MatchOption, OnErr};
ghost use Rattle.std.specs.FinMap as map;
ghost use Rattle.std.specs.Map.{remove_entry};
ghost use Rattle.std.specs.Ordering.{is_eq};
ghost use Rattle.rds_dots.specs.declared.dot.Dot.{Dot};
ghost use Rattle.rds_life.specs.Killed.{but_for, killed_by};
ghost use Rattle.rds_tree.specs.Cuts.{among, covered_leaf, found_at, is_deep, IsCut};
ghost use Rattle.rds_names.specs.Key.{key_cmp};
ghost use Rattle.rds_tree.specs.Held.{IsGathered};
ghost use Rattle.std.specs.Option.{option_to_list};
ghost use Rattle.rds_names.specs.declared.fault.Fault.TheVariants.{Memory};
ghost use Rattle.rds_tree.specs.View.{below_path, goes_deeper, shown_to, values_here, with_key};

use crate::leaf::Leaf;
use crate::leaves::Leaves;
use crate::pick::{Pick, is_deep};
use crate::views::{Maps, Scalars, Sums, Values, View};
use rds_dots::{Dot, DotSet};
use rds_life::Lives;
use rds_names::{Fault, Key, Kind, Scalar};
use rds_state::Command;
use std::alloc::Global;
use std::collections::BTreeMap;
use std::marker::Model;

/// The live dots that stand here, and those below each key; seen as the list of both, each with the
/// keys that are left of its path. No child is empty.
#[derive(Drop)]
pub struct Node {
    leaves: Leaves,
    children: BTreeMap<Key, Node>,
}

impl Model for Node {
    ghost use Rattle.std.specs.Prelude.{List, ◌≡◌, true};
    ghost use Rattle.rds_tree.specs.Row.{Row, rows_in_node, weight, are_full};

    ghost Value = { List Row };

    ghost view = { λ a. rows_in_node a.leaves a.children.entries };

    ghost invariant = { λ a. are_full a.children.entries ≡ true };

    ghost size = { weight };

    ghost use Rattle.rds_tree.specs.RowWeight.{child_is_lighter};

    ghost size_decreases = { λ a h. child_is_lighter a.leaves a.children.entries h };
}

impl Node {
    ghost use Rattle.rds_tree.specs.Row.{is_filled, placed_all, leaf_row, AddsRow};
    ghost use Rattle.rds_tree.specs.Shown.{shown_view};

    /// A tree without leaves. Takes no memory.
    pub fn new(alloc: Global) -> Node
        ensures { result ≡ [] }
    {
        Node {
            leaves: Leaves::new(),
            children: BTreeMap::new(alloc),
        }
    }

    /// A tree of one leaf.
    fn single(alloc: Global, path: &[Key], leaf: Leaf) -> Result<Node, Fault>
        ensures ok { IfOk result (λ node. node ≡ leaf_row path.now leaf ∷ []) }
        ensures memory { IfErr result (λ fault. fault ≡ Memory) }
    {
        match path.split_first() {
            None => {
                Ok(Node {
                    leaves: Leaves::one(leaf),
                    children: BTreeMap::new(alloc),
                })
            }
            Some((key, rest)) => {
                let child = Node::single(alloc, rest, leaf)?;
                let children = child_map(alloc, key, child)?;
                Ok(Node {
                    leaves: Leaves::new(),
                    children,
                })
            }
        }
    }

    /// Adds a leaf at the end of the path.
    pub fn insert(&mut self, alloc: Global, path: &[Key], leaf: Leaf) -> Result<(), Fault>
        ensures ok { OnOk result (AddsRow self.old (leaf_row path.now leaf) self.new) }
        ensures err { OnErr result (self.new ≡ self.old) }
        ensures memory { IfErr result (λ fault. fault ≡ Memory) }
    {
        match path.split_first() {
            None => {
                self.leaves.insert(alloc, leaf)?;
                Ok(())
            }
            Some((key, rest)) => {
                if let Some(child) = self.children.get_mut(key) {
                    return child.insert(alloc, rest, leaf);
                }
                let child = Node::single(alloc, rest, leaf)?;
                self.children.insert(key.copy(alloc)?, child)?;
                Ok(())
            }
        }
    }

    /// Adds a leaf at the end of the path, and puts the dots behind others that a command covers there.
    pub fn place(
        &mut self,
        alloc: Global,
        path: &[Key],
        leaf: Leaf,
        command: &Command,
        dots: &mut Vec<Dot>,
    ) -> Result<(), Fault>
        requires shallow { is_deep command.now ≡ false }
        ensures gathered { OnOk result
            (IsGathered (found_at (covered_leaf command.now) (is_deep command.now) path.now self.old)
            dots.old.items dots.new.items) }
        ensures ok { OnOk result (AddsRow self.old (leaf_row path.now leaf) self.new) }
        ensures err { OnErr result (self.new ≡ self.old) }
        ensures memory { IfErr result (λ fault. fault ≡ Memory) }
    {
        match path.split_first() {
            None => {
                self.leaves.gather_covered(command, dots)?;
                self.leaves.insert(alloc, leaf)
            }
            Some((key, rest)) => {
                if let Some(child) = self.children.get_mut(key) {
                    return child.place(alloc, rest, leaf, command, dots);
                }
                let child = Node::single(alloc, rest, leaf)?;
                self.children.insert(key.copy(alloc)?, child)?;
                Ok(())
            }
        }
    }

    /// Whether there is no leaf.
    pub fn is_empty(&self) -> bool
        ensures { result ≡ not (is_filled self.now) }
    {
        self.leaves.is_empty() && self.children.is_empty()
    }

    /// Takes out what is picked at the end of the path, and what stands below where all goes. Takes no memory.
    pub fn cut<P: Pick>(&mut self, path: &[Key], pick: &P)
        ensures { IsCut (P.picks pick.now) (P.deep pick.now) path.now self.old self.new }
    {
        match path.split_first() {
            None => {
                if pick.goes_deep() {
                    self.leaves.clear();
                    self.children.clear();
                    return;
                }
                pick.cut_from(&mut self.leaves);
            }
            Some((key, rest)) => {
                let child = match self.children.get_mut(key) {
                    Some(child) => child,
                    None => return,
                };
                child.cut(rest, pick);
                if child.is_empty() {
                    remove_child(&mut self.children, key);
                }
            }
        }
    }

    /// Makes the dots dead that a command covers at the end of the path, and those that stand below where all goes, but
    /// the one that is to stay. Takes no memory.
    pub fn kill_in<S: DotSet>(
        &self,
        path: &[Key],
        command: &Command,
        lives: &mut Lives<S>,
        but: Option<Dot>,
    )
        ensures { (d : Dot) → map.get lives.new d
            ≡ killed_by (but_for but (found_at (covered_leaf command.now) (is_deep command.now) path.now self.now)) d
            (map.get lives.old d) }
    {
        match path.split_first() {
            None => {
                if is_deep(command) {
                    self.kill_all(lives, but);
                    return;
                }
                self.leaves.kill_covered(command, lives, but);
            }
            Some((key, rest)) => {
                let _in_order = self.children.len();
                match self.children.get(key) {
                    None => {}
                    Some(child) => child.kill_in(rest, command, lives, but),
                }
            }
        }
    }

    /// Makes all dots dead, but the one that is to stay.
    fn kill_all<S: DotSet>(&self, lives: &mut Lives<S>, but: Option<Dot>)
        ensures { (d : Dot) → map.get lives.new d ≡ killed_by (but_for but (among self.now)) d (map.get lives.old d) }
    {
        self.leaves.kill(lives, but);
        for child in self.children.values() {
            child.kill_all(lives, but);
        }
    }

    /// Puts the dots that a command covers at the end of the path behind others, and those that stand below where all
    /// goes.
    pub fn gather(&self, path: &[Key], command: &Command, dots: &mut Vec<Dot>) -> Result<(), Fault>
        ensures ok { OnOk result
            (IsGathered (found_at (covered_leaf command.now) (is_deep command.now) path.now self.now)
            dots.old.items dots.new.items) }
        ensures memory { IfErr result (λ fault. fault ≡ Memory) }
    {
        match path.split_first() {
            None => {
                if is_deep(command) {
                    return self.gather_all(dots);
                }
                self.leaves.gather_covered(command, dots)
            }
            Some((key, rest)) => {
                let _in_order = self.children.len();
                match self.children.get(key) {
                    None => Ok(()),
                    Some(child) => child.gather(rest, command, dots),
                }
            }
        }
    }

    /// Puts all dots behind others.
    fn gather_all(&self, dots: &mut Vec<Dot>) -> Result<(), Fault>
        ensures ok { OnOk result (IsGathered (among self.now) dots.old.items dots.new.items) }
        ensures memory { IfErr result (λ fault. fault ≡ Memory) }
    {
        self.leaves.gather(dots)?;
        for child in self.children.values() {
            child.gather_all(dots)?;
        }
        Ok(())
    }

    /// The node at the end of the path, unless nothing stands there or below.
    pub fn at(&self, path: &[Key]) -> Option<&Node>
        ensures { MatchOption result (below_path path.now (placed_all self.now) ≡ [])
            (λ node. placed_all node.now ≡ below_path path.now (placed_all self.now)) }
    {
        match path.split_first() {
            None => Some(self),
            Some((key, rest)) => {
                let _in_order = self.children.len();
                match self.children.get(key) {
                    None => None,
                    Some(child) => child.at(rest),
                }
            }
        }
    }

    /// The view of what stands below the path, `depth` keys deep, with these counters.
    pub fn view_at(
        &self,
        alloc: Global,
        path: &[Key],
        depth: u8,
        counters: Option<Sums>,
    ) -> Result<View, Fault>
        ensures ok { IfOk result
            (λ view. shown_view view ≡ shown_to depth counters (below_path path.now (placed_all self.now))) }
        ensures memory { IfErr result (λ fault. fault ≡ Memory) }
    {
        match self.at(path) {
            Some(node) => node.view(alloc, depth, counters),
            None => Node::new(alloc).view(alloc, depth, counters),
        }
    }

    /// The values of a kind that stand here, each once.
    pub fn values(&self, alloc: Global, kind: Kind) -> Result<Vec<Scalar>, Fault>
        ensures ok { IfOk result (λ values. values.items ≡ values_here kind (placed_all self.now)) }
        ensures memory { IfErr result (λ fault. fault ≡ Memory) }
    {
        let values = self.leaves.values(alloc, kind)?;
        Ok(values)
    }

    /// Whether a path goes on below.
    pub fn goes_on(&self) -> bool
        ensures { result ≡ goes_deeper (placed_all self.now) }
    {
        !self.children.is_empty()
    }

    /// The view of what stands below, `depth` keys deep, with these counters.
    pub fn view(&self, alloc: Global, depth: u8, counters: Option<Sums>) -> Result<View, Fault>
        ensures ok { IfOk result (λ view. shown_view view ≡ shown_to depth counters (placed_all self.now)) }
        ensures memory { IfErr result (λ fault. fault ≡ Memory) }
    {
        if depth == 0 {
            return Ok(View::of_counters(alloc, counters));
        }
        let left = depth - 1;
        let mut maps = Vec::new(alloc);
        let mut regs = Vec::new(alloc);
        let mut sets = Vec::new(alloc);
        for (key, child) in self.children.iter() {
            push_values(alloc, &mut regs, key, child.values(alloc, Kind::Reg)?)?;
            push_values(alloc, &mut sets, key, child.values(alloc, Kind::Elem)?)?;
            if child.goes_on() {
                maps.push((key.copy(alloc)?, child.view(alloc, left, None)?))?;
            }
        }
        Ok(View {
            maps: Maps::from_rows(maps),
            regs: Values::from_rows(regs),
            sets: Values::from_rows(sets),
            counters,
        })
    }
}

/// Adds the values under the key, unless there are none.
pub fn push_values(
    alloc: Global,
    rows: &mut Vec<(Key, Scalars)>,
    key: &Key,
    values: Vec<Scalar>,
) -> Result<(), Fault>
    ensures ok { OnOk result (rows.new.items ≡ rows.old.items ++ option_to_list (with_key key.now values.items)) }
    ensures memory { IfErr result (λ fault. fault ≡ Memory) }
{
    if !values.is_empty() {
        rows.push((key.copy(alloc)?, Scalars::from_rows(values)))?;
    }
    Ok(())
}

/// The children where there is one.
fn child_map(alloc: Global, key: &Key, child: Node) -> Result<BTreeMap<Key, Node>, Fault>
    ensures ok { IfOk result (λ children. children.entries ≡ (key.now, child) ∷ []) }
    ensures memory { IfErr result (λ fault. fault ≡ Memory) }
{
    let mut children = BTreeMap::new(alloc);
    children.insert(key.copy(alloc)?, child)?;
    Ok(children)
}

fn remove_child(children: &mut BTreeMap<Key, Node>, key: &Key)
    ensures { children.new.entries ≡ remove_entry (λ x. is_eq (key_cmp key.now x)) children.old.entries }
{
    let _child = children.remove(key);
}
