//! What a document shows at a path.
ghost use Rattle.std.specs.Prelude.{◌≡◌, []};

use rds_names::{Key, Scalar};
use std::alloc::Global;
use std::marker::Model;

/// Scalars, seen as their list; `view` puts them in ascending order, each once.
#[derive(Debug, Drop)]
pub struct Scalars {
    scalars: Vec<Scalar>,
}

impl Model for Scalars {
    ghost use Rattle.std.specs.Prelude.{List};
    ghost use Rattle.rds_names.specs.declared.scalar.Scalar.{Scalar};

    ghost Value = { List Scalar };

    ghost view = { λ s. s.scalars.items };
}

impl Scalars {
    pub(crate) fn from_rows(rows: Vec<Scalar>) -> Scalars
        ensures { result ≡ rows.items }
    {
        Scalars { scalars: rows }
    }

    /// The scalars.
    pub fn rows(&self) -> &[Scalar]
        ensures { result.now ≡ self.now }
    {
        &self.scalars
    }
}

/// The values of registers or of sets under each key that has some, in the order of the keys; seen as
/// the list of both.
#[derive(Debug, Drop)]
pub struct Values {
    values: Vec<(Key, Scalars)>,
}

impl Model for Values {
    ghost use Rattle.std.specs.Prelude.{List, ℕ};
    ghost use Rattle.rds_names.specs.declared.scalar.Scalar.{Scalar};

    ghost Value = { List (List ℕ × List Scalar) };

    ghost view = { λ s. s.values.items };
}

impl Values {
    pub(crate) fn from_rows(rows: Vec<(Key, Scalars)>) -> Values
        ensures { result ≡ rows.items }
    {
        Values { values: rows }
    }

    /// The keys, each with its values.
    pub fn rows(&self) -> &[(Key, Scalars)]
        ensures { result.now ≡ self.now }
    {
        &self.values
    }
}

/// What counters stand at, in the order of their keys; seen as the list of both.
#[derive(Debug, Drop)]
pub struct Sums {
    sums: Vec<(Key, i64)>,
}

impl Model for Sums {
    ghost use Rattle.std.specs.Prelude.{List, ℕ, ℤ};

    ghost Value = { List (List ℕ × ℤ) };

    ghost view = { λ s. s.sums.items };
}

/// The maps under each key that has one, in the order of the keys.
#[cycle(view)]
#[derive(Debug, Drop)]
pub struct Maps {
    maps: Vec<(Key, View)>,
}

/// What a document shows at a path.
#[cycle(view)]
#[derive(Debug, Drop)]
pub struct View {
    /// What stands further below.
    pub maps: Maps,
    /// The values of the registers.
    pub regs: Values,
    /// The elements of the sets.
    pub sets: Values,
    /// The counters, which stand at the root of the document alone.
    pub counters: Option<Sums>,
}

impl Maps {
    ghost use Rattle.rds_tree.specs.Shown.{maps_shown, maps_of, views_shown};

    pub(crate) fn from_rows(rows: Vec<(Key, View)>) -> Maps
        ensures { maps_shown result ≡ maps_of (views_shown rows.items) }
    {
        Maps { maps: rows }
    }

    /// The keys, each with what it shows.
    pub fn rows(&self) -> &[(Key, View)]
        ensures { maps_shown self.now ≡ maps_of (views_shown result.now) }
    {
        &self.maps
    }
}

impl Sums {
    pub(crate) fn from_rows(rows: Vec<(Key, i64)>) -> Sums
        ensures { result ≡ rows.items }
    {
        Sums { sums: rows }
    }

    /// The keys, each with its sum.
    pub fn rows(&self) -> &[(Key, i64)]
        ensures { result.now ≡ self.now }
    {
        &self.sums
    }
}

impl View {
    ghost use Rattle.rds_tree.specs.Shown.{no_maps, shown_view, shows};

    /// No map and no value, beside these counters. Takes no memory.
    pub(crate) fn of_counters(alloc: Global, counters: Option<Sums>) -> View
        ensures { shown_view result ≡ shows no_maps [] [] counters }
    {
        View {
            maps: Maps::from_rows(Vec::new(alloc)),
            regs: Values::from_rows(Vec::new(alloc)),
            sets: Values::from_rows(Vec::new(alloc)),
            counters,
        }
    }
}
