//! A table of keys, which is read key by key.
ghost use Rattle.std.specs.Prelude.{◌≡◌, ℕ, List, [], ◌∷◌, ◌++◌, Ok};
ghost use Rattle.rds_bytes.specs.TableTexts.{table_at};
ghost use Rattle.rds_feeds.specs.MarkedKeys.{marked_key_at, marked_key_steady};

use crate::made::{Made, Making};
use crate::many::{CountWidth, Many};
use crate::once::{Gathering, Once, Part};
use crate::unfinished::Unfinished;
use rds_bytes::{KeyPlaces, Table, mark_of, read_key};
use rds_names::{Fault, Key};
use std::alloc::Global;
use std::marker::Model;

/// The fewest bytes of a key: its length, and one.
const LEAST_BYTES: usize = 2;

/// The keys of a table that were read, in turn, and where each is found.
#[derive(Drop)]
pub struct KeysSoFar {
    alloc: Global,
    keys: Vec<Key>,
    places: KeyPlaces,
}

impl Model for KeysSoFar {
    ghost use Rattle.std.specs.Prelude.{ℕ, List};
    ghost use Rattle.rds_bytes.specs.Places.{AreFound};

    ghost Value = { List (List ℕ) };

    ghost view = { λ k. k.keys.items };

    ghost invariant = { λ k. AreFound k.places k.keys.items };
}

impl Part for KeysSoFar {
    type Read = (Key, u64);

    type Whole = KeysSoFar;

    ghost reader = { marked_key_at };

    ghost made = { λ keys read. keys ++ read.0 ∷ [] };

    fn read<'a>(&self, alloc: Global, bytes: &'a [u8]) -> Result<((Key, u64), &'a [u8]), Fault> {
        let (key, rest) = read_key(alloc, bytes)?;
        let mark = mark_of(&key);
        let known = self.places.find(alloc, self.keys.as_slice(), mark, &key)?;
        if known.is_some() {
            return Err(Fault::Bad);
        }
        Ok(((key, mark), rest))
    }

    fn make(self, part: (Key, u64)) -> Result<KeysSoFar, Fault> {
        let mut whole = self;
        whole.add(part, 0, 0)?;
        Ok(whole)
    }

    ghost steady = { marked_key_steady };
}

impl KeysSoFar {
    /// No keys.
    fn new(alloc: Global) -> KeysSoFar
        ensures { result ≡ [] }
    {
        KeysSoFar {
            alloc,
            keys: Vec::new(alloc),
            places: KeyPlaces::new(alloc),
        }
    }
}

impl Gathering for KeysSoFar {
    fn add(&mut self, part: (Key, u64), coming: u32, bytes: usize) -> Result<(), Fault> {
        let (key, mark) = part;
        let alloc = self.alloc;
        let coming = (coming as usize).min(bytes / LEAST_BYTES);
        self.keys.reserve(1)?;
        if let Err(fault) = self
            .places
            .add(alloc, self.keys.as_slice(), mark, &key, coming)
        {
            *self = KeysSoFar::new(alloc);
            return Err(fault);
        }
        self.keys.push_reserved(key);
        Ok(())
    }
}

/// The table of keys that were read.
#[derive(Drop)]
pub struct KeysAreTable {}

impl Making<KeysSoFar> for KeysAreTable {
    type Made = Table;

    ghost made = { λ _ keys. Ok keys };

    fn make(self, whole: KeysSoFar) -> Result<Table, Fault> {
        let KeysSoFar {
            alloc: _,
            keys,
            places: _places,
        } = whole;
        Ok(Table::with_keys(keys))
    }
}

/// A table that is being read. A key that stands twice is refused where it stands again.
pub type UnfinishedTable = Made<Many<Once<KeysSoFar>, KeysSoFar>, KeysAreTable>;

/// A table of which nothing was read.
#[tactic(auto, unfolding(rds_bytes::specs::TableTexts::table_at))]
pub fn unfinished_table(alloc: Global) -> UnfinishedTable
    ensures { (bytes : List ℕ) → ⟦<UnfinishedTable as Unfinished>⟧.finish result bytes ≡ table_at bytes }
{
    Made {
        from: Many::Count(CountWidth::Four, KeysSoFar::new(alloc)),
        maker: KeysAreTable {},
    }
}
