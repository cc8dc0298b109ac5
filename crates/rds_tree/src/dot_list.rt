//! The live dots of one value.
ghost use Rattle.std.specs.Prelude.{◌≡◌, ◌++◌, ◌∷◌, [], not, filter, IfOk, IfErr, OnOk, OnErr};
ghost use Rattle.std.specs.FinMap as map;
ghost use Rattle.rds_dots.specs.declared.dot.Dot.{Dot};
ghost use Rattle.rds_life.specs.Killed.{but_for, is_the, killed_by};
ghost use Rattle.rds_names.specs.declared.fault.Fault.TheVariants.{Memory};
ghost use Rattle.rds_tree.specs.Held.{among_dots, is_but, means, IsGathered};
ghost use Rattle.rds_tree.specs.Row.{is_filled};

use rds_dots::{Dot, DotSet};
use rds_life::Lives;
use rds_names::Fault;
use std::alloc::Global;
use std::marker::Model;

/// Which dots of a value are meant.
#[derive(Clone, Copy)]
pub enum Which {
    /// All, but one that is to stay.
    AllBut(Option<Dot>),
    /// One alone.
    One(Dot),
}

/// The live dots of one value, seen as their list.
#[derive(Drop)]
pub struct DotList {
    dots: Vec<Dot>,
}

impl Model for DotList {
    ghost use Rattle.std.specs.Prelude.{List};
    ghost use Rattle.rds_dots.specs.declared.dot.Dot.{Dot};

    ghost Value = { List Dot };

    ghost view = { λ l. l.dots.items };
}

impl DotList {
    /// One dot.
    pub fn one(alloc: Global, dot: Dot) -> Result<DotList, Fault>
        ensures ok { IfOk result (λ list. list ≡ dot ∷ []) }
        ensures memory { IfErr result (λ fault. fault ≡ Memory) }
    {
        let mut dots = Vec::new(alloc);
        dots.push(dot)?;
        Ok(DotList { dots })
    }

    /// Adds a dot at the end.
    pub fn push(&mut self, dot: Dot) -> Result<(), Fault>
        ensures ok { OnOk result (self.new ≡ self.old ++ dot ∷ []) }
        ensures err { OnErr result (self.new ≡ self.old) }
        ensures memory { IfErr result (λ fault. fault ≡ Memory) }
    {
        self.dots.push(dot)?;
        Ok(())
    }

    /// Whether there is no dot.
    pub fn is_empty(&self) -> bool
        ensures { result ≡ not (is_filled self.now) }
    {
        self.dots.is_empty()
    }

    /// Takes out the dots that are meant. Takes no memory.
    pub fn cut(&mut self, which: Which)
        ensures { self.new ≡ filter (λ d. not (means which d)) self.old }
    {
        self.dots.retain(|dot| !is_meant(which, *dot));
    }

    /// Puts the dots behind others.
    pub fn gather(&self, dots: &mut Vec<Dot>) -> Result<(), Fault>
        ensures ok { OnOk result (IsGathered (among_dots self.now) dots.old.items dots.new.items) }
        ensures memory { IfErr result (λ fault. fault ≡ Memory) }
    {
        dots.extend_from_slice(&self.dots)?;
        Ok(())
    }

    /// Makes the dots dead, but the one that is to stay.
    pub fn kill<S: DotSet>(&self, lives: &mut Lives<S>, but: Option<Dot>)
        ensures { (d : Dot) → map.get lives.new d
            ≡ killed_by (but_for but (among_dots self.now)) d (map.get lives.old d) }
    {
        kill_each(&self.dots, lives, but);
    }
}

/// Makes dots dead, but the one that is to stay.
pub fn kill_each<S: DotSet>(dots: &[Dot], lives: &mut Lives<S>, but: Option<Dot>)
    ensures { (d : Dot) → map.get lives.new d ≡ killed_by (but_for but (among_dots dots.now)) d (map.get lives.old d) }
{
    for dot in dots {
        kill_dot(lives, *dot, but);
    }
}

/// Whether a dot is meant.
fn is_meant(which: Which, dot: Dot) -> bool
    ensures { result ≡ means which dot }
{
    match which {
        Which::AllBut(but) => !is_but(but, dot),
        Which::One(one) => one == dot,
    }
}

/// Makes a dot dead, unless it is the one that is to stay.
pub fn kill_dot<S: DotSet>(lives: &mut Lives<S>, dot: Dot, but: Option<Dot>)
    ensures { (d : Dot) → map.get lives.new d ≡ killed_by (but_for but (is_the dot)) d (map.get lives.old d) }
{
    if is_but(but, dot) {
        return;
    }
    lives.kill_live(dot);
}

/// Whether the dot is the one that is to stay.
pub fn is_but(but: Option<Dot>, dot: Dot) -> bool
    ensures { result ≡ is_but but dot }
{
    match but {
        None => false,
        Some(stays) => stays == dot,
    }
}
