//! The leaves at the end of a path.
ghost use Rattle.std.specs.Prelude.{◌≡◌, ◌∷◌, [], not, Bool, false, true, IfOk, IfErr, OnOk, OnErr};
ghost use Rattle.std.specs.FinMap as map;
ghost use Rattle.rds_dots.specs.declared.dot.Dot.{Dot};
ghost use Rattle.rds_life.specs.Killed.{but_for, killed_by};
ghost use Rattle.rds_names.specs.declared.fault.Fault.TheVariants.{Memory};
ghost use Rattle.rds_tree.specs.Cuts.{among_leaves, covered_leaf, covering, is_deep, is_leaf, IsLess};
ghost use Rattle.rds_tree.specs.Forms.{leaves_kept};
ghost use Rattle.rds_tree.specs.Gathered.{values_in};
ghost use Rattle.rds_tree.specs.Held.{IsGathered};
ghost use Rattle.rds_tree.specs.Row.{is_filled, AddsLeaf};
ghost use Rattle.rds_tree.specs.View.{values_once};
ghost use Rattle.rds_tree.specs.declared.leaf.Leaf.{Leaf};

use crate::by_kind::ByKind;
use crate::dot_list::kill_dot;
use crate::leaf::Leaf;
use rds_dots::{Dot, DotSet};
use rds_life::Lives;
use rds_names::{Fault, Kind, Scalar};
use rds_state::Command;
use std::alloc::Global;
use std::marker::Model;
use std::mem;

/// How leaves are kept.
#[derive(Drop)]
enum Form {
    /// There is none.
    Empty,
    /// One by itself.
    Alone(Leaf),
    /// Two by themselves.
    Two(Leaf, Leaf),
    /// Several, found by their kind and value.
    Several(ByKind),
}

/// The leaves at the end of a path, seen as their list. One or two take no memory but their texts'.
#[derive(Drop)]
pub struct Leaves {
    form: Form,
}

impl Model for Leaves {
    ghost use Rattle.std.specs.Prelude.{List};
    ghost use Rattle.rds_tree.specs.declared.leaf.Leaf.{Leaf};
    ghost use Rattle.rds_tree.specs.Forms.{leaves_kept};

    ghost Value = { List Leaf };

    ghost view = { λ l. leaves_kept l.form };
}

impl Leaves {
    /// No leaf. Takes no memory.
    pub fn new() -> Leaves
        ensures { result ≡ [] }
    {
        Leaves { form: Form::Empty }
    }

    /// One leaf. Takes no memory.
    pub fn one(leaf: Leaf) -> Leaves
        ensures { result ≡ leaf ∷ [] }
    {
        Leaves {
            form: Form::Alone(leaf),
        }
    }

    /// Adds a leaf.
    pub fn insert(&mut self, alloc: Global, leaf: Leaf) -> Result<(), Fault>
        ensures ok { OnOk result (AddsLeaf self.old leaf self.new) }
        ensures err { OnErr result (self.new ≡ self.old) }
        ensures memory { IfErr result (λ fault. fault ≡ Memory) }
    {
        match &mut self.form {
            Form::Empty => {
                self.form = Form::Alone(leaf);
                Ok(())
            }
            Form::Alone(first) => {
                let first = take(first);
                self.form = Form::Two(first, leaf);
                Ok(())
            }
            Form::Two(first, second) => {
                let several = three(alloc, first, second, leaf)?;
                self.form = Form::Several(several);
                Ok(())
            }
            Form::Several(leaves) => leaves.insert(alloc, leaf),
        }
    }

    /// Whether there is no leaf.
    pub fn is_empty(&self) -> bool
        ensures { result ≡ not (is_filled self.now) }
    {
        match &self.form {
            Form::Empty => true,
            Form::Alone(_) => false,
            Form::Two(_, _) => false,
            Form::Several(leaves) => leaves.is_empty(),
        }
    }

    /// Leaves none. Takes no memory.
    pub fn clear(&mut self)
        ensures { self.new ≡ [] }
    {
        self.form = Form::Empty;
    }

    /// Takes out what a command covers here, but a dot that is to stay. Takes no memory.
    pub fn cut_covered(&mut self, command: &Command, but: Option<Dot>)
        requires { is_deep command.now ≡ false }
        ensures { IsLess (covering command.now but) self.old self.new }
    {
        match &mut self.form {
            Form::Empty => {}
            Form::Alone(leaf) => {
                if leaf.goes(command, but) {
                    self.form = Form::Empty;
                }
            }
            Form::Two(first, second) => {
                let first_goes = first.goes(command, but);
                let second_goes = second.goes(command, but);
                let left = left_of(first, first_goes, second, second_goes);
                put(&mut self.form, left);
            }
            Form::Several(leaves) => leaves.cut_covered(command, but),
        }
    }

    /// Takes out one leaf. Takes no memory.
    pub fn cut_leaf(&mut self, kind: Kind, value: &Scalar, dot: Dot)
        ensures { IsLess (is_leaf kind value.now dot) self.old self.new }
    {
        match &mut self.form {
            Form::Empty => {}
            Form::Alone(leaf) => {
                if leaf.is(kind, value, dot) {
                    self.form = Form::Empty;
                }
            }
            Form::Two(first, second) => {
                let first_goes = first.is(kind, value, dot);
                let second_goes = second.is(kind, value, dot);
                let left = left_of(first, first_goes, second, second_goes);
                put(&mut self.form, left);
            }
            Form::Several(leaves) => leaves.cut_leaf(kind, value, dot),
        }
    }

    /// Makes the dots dead that a command covers here, but the one that is to stay.
    pub fn kill_covered<S: DotSet>(&self, command: &Command, lives: &mut Lives<S>, but: Option<Dot>)
        requires { is_deep command.now ≡ false }
        ensures { (d : Dot) → map.get lives.new d
            ≡ killed_by (but_for but (among_leaves (covered_leaf command.now) self.now)) d (map.get lives.old d) }
    {
        match &self.form {
            Form::Empty => {}
            Form::Alone(leaf) => kill_if_covered(leaf, command, lives, but),
            Form::Two(first, second) => {
                kill_if_covered(first, command, lives, but);
                kill_if_covered(second, command, lives, but);
            }
            Form::Several(leaves) => leaves.kill_covered(command, lives, but),
        }
    }

    /// Makes all dots dead, but the one that is to stay.
    pub fn kill<S: DotSet>(&self, lives: &mut Lives<S>, but: Option<Dot>)
        ensures { (d : Dot) → map.get lives.new d ≡ killed_by (but_for but (among_leaves
            (λ l. true) self.now)) d (map.get lives.old d) }
    {
        match &self.form {
            Form::Empty => {}
            Form::Alone(leaf) => kill_dot(lives, leaf.dot, but),
            Form::Two(first, second) => {
                kill_dot(lives, first.dot, but);
                kill_dot(lives, second.dot, but);
            }
            Form::Several(leaves) => leaves.kill(lives, but),
        }
    }

    /// Puts the dots that a command covers here behind others.
    pub fn gather_covered(&self, command: &Command, dots: &mut Vec<Dot>) -> Result<(), Fault>
        requires { is_deep command.now ≡ false }
        ensures ok { OnOk result
            (IsGathered (among_leaves (covered_leaf command.now) self.now) dots.old.items dots.new.items) }
        ensures memory { IfErr result (λ fault. fault ≡ Memory) }
    {
        match &self.form {
            Form::Empty => Ok(()),
            Form::Alone(leaf) => gather_if_covered(leaf, command, dots),
            Form::Two(first, second) => {
                gather_if_covered(first, command, dots)?;
                gather_if_covered(second, command, dots)
            }
            Form::Several(leaves) => leaves.gather_covered(command, dots),
        }
    }

    /// Puts all dots behind others.
    pub fn gather(&self, dots: &mut Vec<Dot>) -> Result<(), Fault>
        ensures ok { OnOk result (IsGathered (among_leaves (λ l. true) self.now) dots.old.items dots.new.items) }
        ensures memory { IfErr result (λ fault. fault ≡ Memory) }
    {
        match &self.form {
            Form::Empty => Ok(()),
            Form::Alone(leaf) => gather_one(leaf, dots),
            Form::Two(first, second) => {
                gather_one(first, dots)?;
                gather_one(second, dots)
            }
            Form::Several(leaves) => leaves.gather(dots),
        }
    }

    /// The values of a kind in ascending order, each once.
    pub fn values(&self, alloc: Global, kind: Kind) -> Result<Vec<Scalar>, Fault>
        ensures ok { IfOk result (λ values. values.items ≡ values_once (values_in kind self.now)) }
        ensures memory { IfErr result (λ fault. fault ≡ Memory) }
    {
        match &self.form {
            Form::Empty => Ok(Vec::new(alloc)),
            Form::Alone(leaf) => value_of(alloc, leaf, kind),
            Form::Two(first, second) => both(alloc, first, second)?.values(alloc, kind),
            Form::Several(leaves) => leaves.values(alloc, kind),
        }
    }
}

/// The leaf, moved out: one of no text is left in its place.
fn take(leaf: &mut Leaf) -> Leaf
    ensures { result ≡ leaf.old }
{
    let empty = Leaf {
        kind: leaf.kind,
        value: Scalar::Null,
        dot: leaf.dot,
    };
    mem::replace(leaf, empty)
}

/// What is left of two leaves, moved out.
fn left_of(first: &mut Leaf, first_goes: bool, second: &mut Leaf, second_goes: bool) -> Form
    ensures { (picks : Leaf → Bool) → first_goes ≡ picks first.old → second_goes ≡ picks second.old
        → IsLess picks (first.old ∷ second.old ∷ []) (leaves_kept result) }
{
    match (first_goes, second_goes) {
        (false, false) => Form::Two(take(first), take(second)),
        (false, true) => Form::Alone(take(first)),
        (true, false) => Form::Alone(take(second)),
        (true, true) => Form::Empty,
    }
}

/// Puts a form in the place of another.
fn put(form: &mut Form, left: Form)
    ensures { form.new ≡ left }
{
    *form = left;
}

/// Two leaves by their kind and value: copies of them.
fn both(alloc: Global, first: &Leaf, second: &Leaf) -> Result<ByKind, Fault>
    ensures ok { IfOk result (AddsLeaf (second.now ∷ []) first.now) }
    ensures memory { IfErr result (λ fault. fault ≡ Memory) }
{
    let mut leaves = ByKind::one(alloc, second.copy(alloc)?)?;
    leaves.insert(alloc, first.copy(alloc)?)?;
    Ok(leaves)
}

/// Three leaves by their kind and value: copies of two, and the third.
fn three(alloc: Global, first: &Leaf, second: &Leaf, third: Leaf) -> Result<ByKind, Fault>
    ensures ok { IfOk result (AddsLeaf (first.now ∷ second.now ∷ []) third) }
    ensures memory { IfErr result (λ fault. fault ≡ Memory) }
{
    let mut leaves = both(alloc, first, second)?;
    leaves.insert(alloc, third)?;
    Ok(leaves)
}

/// Makes a leaf's dot dead, if a command covers it and it isn't the one that is to stay.
fn kill_if_covered<S: DotSet>(
    leaf: &Leaf,
    command: &Command,
    lives: &mut Lives<S>,
    but: Option<Dot>,
)
    ensures { (d : Dot) → map.get lives.new d
        ≡ killed_by (but_for but (among_leaves (covered_leaf command.now) (leaf.now ∷ []))) d (map.get lives.old d) }
{
    if leaf.is_covered(command) {
        kill_dot(lives, leaf.dot, but);
    }
}

/// Puts a leaf's dot behind others, if a command covers it.
fn gather_if_covered(leaf: &Leaf, command: &Command, dots: &mut Vec<Dot>) -> Result<(), Fault>
    ensures ok { OnOk result (IsGathered (among_leaves (covered_leaf command.now) (leaf.now ∷ []))
        dots.old.items dots.new.items) }
    ensures memory { IfErr result (λ fault. fault ≡ Memory) }
{
    if leaf.is_covered(command) {
        dots.push(leaf.dot)?;
    }
    Ok(())
}

/// Puts a leaf's dot behind others.
fn gather_one(leaf: &Leaf, dots: &mut Vec<Dot>) -> Result<(), Fault>
    ensures ok { OnOk result
        (IsGathered (among_leaves (λ l. true) (leaf.now ∷ [])) dots.old.items dots.new.items) }
    ensures memory { IfErr result (λ fault. fault ≡ Memory) }
{
    dots.push(leaf.dot)?;
    Ok(())
}

/// The leaf's value, if it is of the kind.
fn value_of(alloc: Global, leaf: &Leaf, kind: Kind) -> Result<Vec<Scalar>, Fault>
    ensures ok { IfOk result (λ values. values.items ≡ values_once (values_in kind (leaf.now ∷ []))) }
    ensures memory { IfErr result (λ fault. fault ≡ Memory) }
{
    let mut values = Vec::new(alloc);
    if leaf.is_kind(kind) {
        values.push(leaf.value.copy(alloc)?)?;
    }
    Ok(values)
}
