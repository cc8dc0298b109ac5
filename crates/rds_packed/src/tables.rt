//! A table of keys that share their fronts: its length, writing it, and reading it key by key.
ghost use Rattle.std.specs.Prelude.{◌≡◌, ℕ, List, [], ◌∷◌, ◌++◌, ◌+◌, ◌*◌, ◌<◌, ◌≤◌, ◌^◌, length, Ok};
ghost use Rattle.std.specs.List.{AllByRecursion};
ghost use Rattle.rds_bytes.specs.Reading.{Reads, last};
ghost use Rattle.rds_bytes.specs.Values.{IsKeyText};
ghost use Rattle.rds_bytes.specs.Writing.{Adds};
ghost use Rattle.rds_feeds.specs.Chained.{then_finish};
ghost use Rattle.rds_feeds.specs.Parts.{makes};
ghost use Rattle.rds_packed.specs.GoOn.{few_rows};
ghost use Rattle.rds_packed.specs.FrontSteady.{marked_front_at, marked_front_steady};
ghost use Rattle.rds_packed.specs.FrontTexts.{
  fronts_text,
  packed_table_text,
  front_key_at,
  or_nothing,
  packed_table_at,
};

use crate::fronts::{front_length, put_front, read_front};
use crate::rows::count_length;
use rds_bytes::{KeyPlaces, Table, mark_of, put_packed};
use rds_feeds::{
    Following, Gathering, Made, Making, Many, Once, Part, Progress, Then, Unfinished,
    UnfinishedPacked, unfinished_packed,
};
use rds_names::{Fault, Key};
use std::alloc::{AllocError, Global};
use std::marker::Model;

/// The fewest bytes of a key: what it shares, and its length.
const LEAST_BYTES: usize = 2;

/// The length of keys, each after the one before it.
fn keys_length(mut keys: &[Key]) -> u128
    requires { length keys.now < 2 ^ 64 }
    ensures length { result ≡ length (fronts_text [] keys.entry.now) }
    ensures most { result ≤ 66 * length keys.entry.now }
    ensures texts { AllByRecursion IsKeyText keys.entry.now }
{
    let mut before: &[u8] = &[];
    let mut total = 0;
    'measuring: loop {
        let (key, later) = match keys.split_first() {
            Some(parts) => parts,
            None => return total,
        };
        total += front_length(before, key) as u128;
        before = key.as_bytes();
        keys = later;
    }
}

/// The length of a table of these keys.
#[tactic(auto, unfolding(crate::specs::FrontTexts::packed_table_text))]
pub fn packed_table_length(keys: &[Key]) -> u128
    ensures length { result ≡ length (packed_table_text keys.now) }
    ensures most { result ≤ 7 + 66 * length keys.now }
    ensures texts { AllByRecursion IsKeyText keys.now }
{
    count_length(keys.len()) as u128 + keys_length(keys)
}

/// Keys, each after the one before it.
fn put_keys(out: &mut Vec<u8>, mut keys: &[Key]) -> Result<(), AllocError>
    ensures { Adds out.old.items out.new.items (fronts_text [] keys.entry.now) result }
{
    let mut before: &[u8] = &[];
    'writing: loop {
        let (key, later) = match keys.split_first() {
            Some(parts) => parts,
            None => return Ok(()),
        };
        put_front(out, before, key)?;
        before = key.as_bytes();
        keys = later;
    }
}

/// A table of these keys.
#[tactic(auto, unfolding(crate::specs::FrontTexts::packed_table_text))]
pub fn put_packed_table(out: &mut Vec<u8>, keys: &[Key]) -> Result<(), AllocError>
    requires { length keys.now < 2 ^ 32 }
    ensures { Adds out.old.items out.new.items (packed_table_text keys.now) result }
{
    put_packed(out, keys.len() as u64)?;
    put_keys(out, keys)
}

/// The key after these.
fn read_after<'a>(alloc: Global, keys: &[Key], bytes: &'a [u8]) -> Result<(Key, &'a [u8]), Fault>
    ensures { Reads (λ x. (x.0, x.1.now)) result (front_key_at (or_nothing (last keys.now)) bytes.now) }
{
    match keys.last() {
        Some(before) => read_front(alloc, before.as_bytes(), bytes),
        None => read_front(alloc, &[], bytes),
    }
}

/// The keys of a table that were read, in turn, and where each is found.
#[derive(Drop)]
pub struct KeysSoFar {
    alloc: Global,
    keys: Vec<Key>,
    places: KeyPlaces,
}

impl Model for KeysSoFar {
    ghost use Rattle.std.specs.Prelude.{ℕ, List};
    ghost use Rattle.rds_bytes.specs.Places.{AreFound};

    ghost Value = { List (List ℕ) };

    ghost view = { λ k. k.keys.items };

    ghost invariant = { λ k. AreFound k.places k.keys.items };
}

impl Part for KeysSoFar {
    type Read = (Key, u64);

    type Whole = KeysSoFar;

    ghost reader = { marked_front_at };

    ghost made = { λ keys read. keys ++ read.0 ∷ [] };

    fn read<'a>(&self, alloc: Global, bytes: &'a [u8]) -> Result<((Key, u64), &'a [u8]), Fault> {
        let (key, rest) = read_after(alloc, self.keys.as_slice(), bytes)?;
        let mark = mark_of(&key);
        let known = self.places.find(alloc, self.keys.as_slice(), mark, &key)?;
        if known.is_some() {
            return Err(Fault::Bad);
        }
        Ok(((key, mark), rest))
    }

    fn make(self, part: (Key, u64)) -> Result<KeysSoFar, Fault> {
        let mut whole = self;
        whole.add(part, 0, 0)?;
        Ok(whole)
    }

    ghost steady = { marked_front_steady };
}

impl KeysSoFar {
    /// No keys.
    fn new(alloc: Global) -> KeysSoFar
        ensures { result ≡ [] }
    {
        KeysSoFar {
            alloc,
            keys: Vec::new(alloc),
            places: KeyPlaces::new(alloc),
        }
    }
}

impl Gathering for KeysSoFar {
    fn add(&mut self, part: (Key, u64), coming: u32, bytes: usize) -> Result<(), Fault> {
        let (key, mark) = part;
        let alloc = self.alloc;
        let coming = (coming as usize).min(bytes / LEAST_BYTES);
        self.keys.reserve(1)?;
        if let Err(fault) = self
            .places
            .add(alloc, self.keys.as_slice(), mark, &key, coming)
        {
            *self = KeysSoFar::new(alloc);
            return Err(fault);
        }
        self.keys.push_reserved(key);
        Ok(())
    }
}

type KeysToRead = Many<Once<KeysSoFar>, KeysSoFar>;

/// The keys that follow their number.
#[derive(Drop)]
pub struct KeysFollow {
    keys: KeysSoFar,
}

impl Following<u64> for KeysFollow {
    type Next = KeysToRead;

    ghost after = { λ f count. few_rows ⟦<KeysToRead as Unfinished>⟧.finish f.keys count };

    fn start(self, _alloc: Global, first: u64) -> Result<KeysToRead, Fault> {
        if first > u64::from(u32::MAX) {
            return Err(Fault::Bad);
        }
        let KeysFollow { keys } = self;
        Ok(Many::Rows(first as u32, keys))
    }
}

/// The table of keys that were read.
#[derive(Drop)]
pub struct KeysAreTable {}

impl Making<KeysSoFar> for KeysAreTable {
    type Made = Table;

    ghost made = { λ _ keys. Ok keys };

    fn make(self, whole: KeysSoFar) -> Result<Table, Fault> {
        let KeysSoFar {
            alloc: _,
            keys,
            places: _places,
        } = whole;
        Ok(Table::with_keys(keys))
    }
}

type TableParts = Made<Then<UnfinishedPacked, KeysFollow, KeysToRead>, KeysAreTable>;

/// A table that is being read. A key that stands twice is refused where it stands again.
#[derive(Drop)]
pub struct UnfinishedPackedTable {
    parts: TableParts,
}

impl Unfinished for UnfinishedPackedTable {
    type Whole = Table;

    ghost finish = { λ u. makes (then_finish ⟦<UnfinishedPacked as Unfinished>⟧.finish
        (λ f count. few_rows ⟦<KeysToRead as Unfinished>⟧.finish f.keys count)
        ⟦<KeysToRead as Unfinished>⟧.finish u.parts.from) (λ keys. Ok keys) };

    fn read_on<'a>(
        self,
        alloc: Global,
        bytes: &'a [u8],
    ) -> Result<(Progress<Self, Table>, &'a [u8]), Fault> {
        let (progress, rest) = self.parts.read_on(alloc, bytes)?;
        match progress {
            Progress::More(parts) => Ok((Progress::More(UnfinishedPackedTable { parts }), rest)),
            Progress::Whole(table) => Ok((Progress::Whole(table), rest)),
        }
    }
}

/// A table of which nothing was read.
pub fn unfinished_packed_table(alloc: Global) -> UnfinishedPackedTable
    ensures { (bytes : List ℕ) → ⟦<UnfinishedPackedTable as Unfinished>⟧.finish result bytes ≡ packed_table_at bytes }
{
    let keys = KeysSoFar::new(alloc);
    UnfinishedPackedTable {
        parts: Made {
            from: Then::First(unfinished_packed(), KeysFollow { keys }),
            maker: KeysAreTable {},
        },
    }
}
