//! Live dots, found by the value that they hold.
ghost use Rattle.std.specs.Prelude.{◌≡◌, ◌∷◌, [], ◌&&◌, ◌||◌, not, Bool, true, filter, map as each, IfOk, IfErr, OnOk};
ghost use Rattle.std.specs.Prelude.{OnErr};
ghost use Rattle.std.specs.FinMap as map;
ghost use Rattle.std.specs.List.Sorted.{IsStrictlySortedBy};
ghost use Rattle.std.specs.Map.{remove_entry};
ghost use Rattle.std.specs.Ordering.{is_eq};
ghost use Rattle.rds_dots.specs.declared.dot.Dot.{Dot};
ghost use Rattle.rds_life.specs.Killed.{but_for, killed_by};
ghost use Rattle.rds_names.specs.declared.fault.Fault.TheVariants.{Memory};
ghost use Rattle.rds_names.specs.declared.scalar.Scalar.{Scalar};
ghost use Rattle.rds_names.specs.Orders.{scalar_cmp};
ghost use Rattle.rds_tree.specs.Held.{among_held, any_held, at_value, means, IsGathered};
ghost use Rattle.rds_tree.specs.Row.{is_filled};

use crate::dot_list::{DotList, Which};
use rds_dots::{Dot, DotSet};
use rds_life::Lives;
use rds_names::{Fault, Scalar};
use std::alloc::Global;
use std::collections::BTreeMap;
use std::marker::Model;

/// The live dots of each value, seen as the list of the values with their dots. No value is without dots.
#[derive(Drop)]
pub struct ByValue {
    values: BTreeMap<Scalar, DotList>,
}

impl Model for ByValue {
    ghost use Rattle.std.specs.Prelude.{List, ◌≡◌, true};
    ghost use Rattle.rds_dots.specs.declared.dot.Dot.{Dot};
    ghost use Rattle.rds_names.specs.declared.scalar.Scalar.{Scalar};
    ghost use Rattle.rds_tree.specs.Row.{are_full};

    ghost Value = { List (Scalar × List Dot) };

    ghost view = { λ v. v.values.entries };

    ghost invariant = { λ v. are_full v.values.entries ≡ true };
}

impl ByValue {
    ghost use Rattle.rds_tree.specs.Row.{are_full};

    /// No value. Takes no memory.
    pub fn new(alloc: Global) -> ByValue
        ensures { result ≡ [] }
    {
        ByValue {
            values: BTreeMap::new(alloc),
        }
    }

    /// One dot of one value.
    pub fn one(alloc: Global, value: Scalar, dot: Dot) -> Result<ByValue, Fault>
        ensures ok { IfOk result (λ one. one ≡ (value, dot ∷ []) ∷ []) }
        ensures memory { IfErr result (λ fault. fault ≡ Memory) }
    {
        let mut values = BTreeMap::new(alloc);
        values.insert(value, DotList::one(alloc, dot)?)?;
        Ok(ByValue { values })
    }

    /// Adds a dot of a value.
    pub fn insert(&mut self, alloc: Global, value: Scalar, dot: Dot) -> Result<(), Fault>
        ensures ok { OnOk result ((t : Scalar → Dot → Bool)
            → any_held t self.new ≡ (t value dot || any_held t self.old)) }
        ensures err { OnErr result (self.new ≡ self.old) }
        ensures memory { IfErr result (λ fault. fault ≡ Memory) }
    {
        if let Some(dots) = self.values.get_mut(&value) {
            return dots.push(dot);
        }
        let dots = DotList::one(alloc, dot)?;
        self.values.insert(value, dots)?;
        Ok(())
    }

    /// Whether there is no value.
    pub fn is_empty(&self) -> bool
        ensures empty { result ≡ not (is_filled self.now) }
        ensures held { are_full self.now ≡ true }
    {
        self.values.is_empty()
    }

    /// Leaves no value. Takes no memory.
    pub fn clear(&mut self)
        ensures { self.new ≡ [] }
    {
        self.values.clear();
    }

    /// Takes out those dots of all values that are meant. Takes no memory.
    pub fn cut(&mut self, which: Which)
        ensures { (t : Scalar → Dot → Bool)
            → any_held t self.new ≡ any_held (λ v d. t v d && not (means which d)) self.old }
    {
        self.values.retain(|_value, dots| keep_others(dots, which));
    }

    /// Takes out those dots of one value that are meant. Takes no memory.
    pub fn cut_value(&mut self, value: &Scalar, which: Which)
        ensures { (t : Scalar → Dot → Bool)
            → any_held t self.new ≡ any_held (λ v d. t v d && not (at_value value.now v && means which d)) self.old }
    {
        let dots = match self.values.get_mut(value) {
            Some(dots) => dots,
            None => return,
        };
        dots.cut(which);
        if dots.is_empty() {
            remove_value(&mut self.values, value);
        }
    }

    /// Makes the dots of all values dead, but the one that is to stay.
    pub fn kill<S: DotSet>(&self, lives: &mut Lives<S>, but: Option<Dot>)
        ensures { (d : Dot) → map.get lives.new d ≡ killed_by (but_for but (among_held
            (λ v. true) self.now)) d (map.get lives.old d) }
    {
        for dots in self.values.values() {
            dots.kill(lives, but);
        }
    }

    /// Makes the dots of one value dead, but the one that is to stay.
    pub fn kill_value<S: DotSet>(&self, value: &Scalar, lives: &mut Lives<S>, but: Option<Dot>)
        ensures { (d : Dot) → map.get lives.new d
            ≡ killed_by (but_for but (among_held (at_value value.now) self.now)) d (map.get lives.old d) }
    {
        let _in_order = self.values.len();
        match self.values.get(value) {
            None => {}
            Some(dots) => dots.kill(lives, but),
        }
    }

    /// Puts the dots of all values behind others.
    pub fn gather(&self, dots: &mut Vec<Dot>) -> Result<(), Fault>
        ensures ok { OnOk result (IsGathered (among_held (λ v. true) self.now) dots.old.items dots.new.items) }
        ensures memory { IfErr result (λ fault. fault ≡ Memory) }
    {
        for list in self.values.values() {
            list.gather(dots)?;
        }
        Ok(())
    }

    /// Puts the dots of one value behind others.
    pub fn gather_value(&self, value: &Scalar, dots: &mut Vec<Dot>) -> Result<(), Fault>
        ensures ok { OnOk result (IsGathered (among_held (at_value value.now) self.now) dots.old.items dots.new.items) }
        ensures memory { IfErr result (λ fault. fault ≡ Memory) }
    {
        let _in_order = self.values.len();
        match self.values.get(value) {
            None => Ok(()),
            Some(list) => list.gather(dots),
        }
    }

    /// The values, in order.
    pub fn values(&self, alloc: Global) -> Result<Vec<Scalar>, Fault>
        ensures ok { IfOk result (λ values. values.items ≡ each (λ e. e.0) self.now) }
        ensures rise { IsStrictlySortedBy scalar_cmp (each (λ e. e.0) self.now) }
        ensures held { are_full self.now ≡ true }
        ensures memory { IfErr result (λ fault. fault ≡ Memory) }
    {
        let _in_order = self.values.len();
        let mut values = Vec::new(alloc);
        for value in self.values.keys() {
            values.push(value.copy(alloc)?)?;
        }
        Ok(values)
    }
}

/// Takes out the dots that are meant, and says whether there are others.
fn keep_others(dots: &mut DotList, which: Which) -> bool
    ensures less { dots.new ≡ filter (λ d. not (means which d)) dots.old }
    ensures left { result ≡ is_filled dots.new }
{
    dots.cut(which);
    !dots.is_empty()
}

/// Takes out a value.
fn remove_value(values: &mut BTreeMap<Scalar, DotList>, value: &Scalar)
    ensures { values.new.entries ≡ remove_entry (at_value value.now) values.old.entries }
{
    let _dots = values.remove(value);
}
