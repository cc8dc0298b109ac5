//! Several leaves at the end of a path.
ghost use Rattle.std.specs.Prelude.{◌≡◌, ◌∷◌, [], not, false, true, IfOk, IfErr, OnOk, OnErr};
ghost use Rattle.std.specs.FinMap as map;
ghost use Rattle.rds_dots.specs.declared.dot.Dot.{Dot};
ghost use Rattle.rds_life.specs.Killed.{but_for, killed_by};
ghost use Rattle.rds_names.specs.declared.fault.Fault.TheVariants.{Memory};
ghost use Rattle.rds_tree.specs.Cuts.{among_leaves, covered_leaf, covering, is_deep, is_leaf, IsLess};
ghost use Rattle.rds_tree.specs.Gathered.{values_in};
ghost use Rattle.rds_tree.specs.Held.{IsGathered};
ghost use Rattle.rds_tree.specs.Row.{is_filled, AddsLeaf};
ghost use Rattle.rds_tree.specs.View.{values_once};

use crate::by_value::ByValue;
use crate::dot_list::Which;
use crate::leaf::Leaf;
use rds_dots::{Dot, DotSet};
use rds_life::Lives;
use rds_names::{Fault, Kind, Scalar};
use rds_state::Command;
use std::alloc::Global;
use std::marker::Model;

/// Several leaves at the end of a path, seen as their list. They are found by their kind and value.
#[derive(Drop)]
pub struct ByKind {
    regs: ByValue,
    elems: ByValue,
}

impl Model for ByKind {
    ghost use Rattle.std.specs.Prelude.{List};
    ghost use Rattle.rds_tree.specs.declared.leaf.Leaf.{Leaf};
    ghost use Rattle.rds_tree.specs.Held.{leaves_in};

    ghost Value = { List Leaf };

    ghost view = { λ l. leaves_in l.regs l.elems };
}

impl ByKind {
    /// No leaf. Takes no memory.
    pub fn new(alloc: Global) -> ByKind
        ensures { result ≡ [] }
    {
        ByKind {
            regs: ByValue::new(alloc),
            elems: ByValue::new(alloc),
        }
    }

    /// One leaf.
    pub fn one(alloc: Global, leaf: Leaf) -> Result<ByKind, Fault>
        ensures ok { IfOk result (λ leaves. leaves ≡ leaf ∷ []) }
        ensures memory { IfErr result (λ fault. fault ≡ Memory) }
    {
        match leaf.kind {
            Kind::Reg => Ok(ByKind {
                regs: ByValue::one(alloc, leaf.value, leaf.dot)?,
                elems: ByValue::new(alloc),
            }),
            Kind::Elem => Ok(ByKind {
                regs: ByValue::new(alloc),
                elems: ByValue::one(alloc, leaf.value, leaf.dot)?,
            }),
        }
    }

    /// Adds a leaf.
    pub fn insert(&mut self, alloc: Global, leaf: Leaf) -> Result<(), Fault>
        ensures ok { OnOk result (AddsLeaf self.old leaf self.new) }
        ensures err { OnErr result (self.new ≡ self.old) }
        ensures memory { IfErr result (λ fault. fault ≡ Memory) }
    {
        match leaf.kind {
            Kind::Reg => self.regs.insert(alloc, leaf.value, leaf.dot),
            Kind::Elem => self.elems.insert(alloc, leaf.value, leaf.dot),
        }
    }

    /// Whether there is no leaf.
    pub fn is_empty(&self) -> bool
        ensures { result ≡ not (is_filled self.now) }
    {
        self.regs.is_empty() && self.elems.is_empty()
    }

    /// Leaves none. Takes no memory.
    pub fn clear(&mut self)
        ensures { self.new ≡ [] }
    {
        self.regs.clear();
        self.elems.clear();
    }

    /// Takes out what a command covers here, but a dot that is to stay. Takes no memory.
    pub fn cut_covered(&mut self, command: &Command, but: Option<Dot>)
        requires { is_deep command.now ≡ false }
        ensures { IsLess (covering command.now but) self.old self.new }
    {
        match command {
            Command::Set(_, _) => self.regs.cut(Which::AllBut(but)),
            Command::Add(_, value) => self.elems.cut_value(value, Which::AllBut(but)),
            Command::Del(_, value) => self.elems.cut_value(value, Which::AllBut(but)),
            Command::Clear(_) => self.clear(),
            Command::Inc(_, _) => {}
            Command::Dec(_, _) => {}
        }
    }

    /// Takes out one leaf. Takes no memory.
    pub fn cut_leaf(&mut self, kind: Kind, value: &Scalar, dot: Dot)
        ensures { IsLess (is_leaf kind value.now dot) self.old self.new }
    {
        match kind {
            Kind::Reg => self.regs.cut_value(value, Which::One(dot)),
            Kind::Elem => self.elems.cut_value(value, Which::One(dot)),
        }
    }

    /// Makes the dots dead that a command covers here, but the one that is to stay.
    pub fn kill_covered<S: DotSet>(&self, command: &Command, lives: &mut Lives<S>, but: Option<Dot>)
        requires { is_deep command.now ≡ false }
        ensures { (d : Dot) → map.get lives.new d
            ≡ killed_by (but_for but (among_leaves (covered_leaf command.now) self.now)) d (map.get lives.old d) }
    {
        match command {
            Command::Set(_, _) => self.regs.kill(lives, but),
            Command::Add(_, value) => self.elems.kill_value(value, lives, but),
            Command::Del(_, value) => self.elems.kill_value(value, lives, but),
            Command::Clear(_) => {}
            Command::Inc(_, _) => {}
            Command::Dec(_, _) => {}
        }
    }

    /// Makes all dots dead, but the one that is to stay.
    pub fn kill<S: DotSet>(&self, lives: &mut Lives<S>, but: Option<Dot>)
        ensures { (d : Dot) → map.get lives.new d ≡ killed_by (but_for but (among_leaves
            (λ l. true) self.now)) d (map.get lives.old d) }
    {
        self.regs.kill(lives, but);
        self.elems.kill(lives, but);
    }

    /// Puts the dots that a command covers here behind others.
    pub fn gather_covered(&self, command: &Command, dots: &mut Vec<Dot>) -> Result<(), Fault>
        requires { is_deep command.now ≡ false }
        ensures ok { OnOk result
            (IsGathered (among_leaves (covered_leaf command.now) self.now) dots.old.items dots.new.items) }
        ensures memory { IfErr result (λ fault. fault ≡ Memory) }
    {
        match command {
            Command::Set(_, _) => self.regs.gather(dots),
            Command::Add(_, value) => self.elems.gather_value(value, dots),
            Command::Del(_, value) => self.elems.gather_value(value, dots),
            Command::Clear(_) => Ok(()),
            Command::Inc(_, _) => Ok(()),
            Command::Dec(_, _) => Ok(()),
        }
    }

    /// Puts all dots behind others.
    pub fn gather(&self, dots: &mut Vec<Dot>) -> Result<(), Fault>
        ensures ok { OnOk result (IsGathered (among_leaves (λ l. true) self.now) dots.old.items dots.new.items) }
        ensures memory { IfErr result (λ fault. fault ≡ Memory) }
    {
        self.regs.gather(dots)?;
        self.elems.gather(dots)
    }

    /// The values of a kind in ascending order, each once.
    pub fn values(&self, alloc: Global, kind: Kind) -> Result<Vec<Scalar>, Fault>
        ensures ok { IfOk result (λ values. values.items ≡ values_once (values_in kind self.now)) }
        ensures memory { IfErr result (λ fault. fault ≡ Memory) }
    {
        match kind {
            Kind::Reg => self.regs.values(alloc),
            Kind::Elem => self.elems.values(alloc),
        }
    }
}
