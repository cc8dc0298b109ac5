//! Numbering the keys that rows use, in the order in which they come.
ghost use Rattle.std.specs.Prelude.{◌≡◌, ◌++◌, ◌∷◌, [], true, false, length, fold, map as each, OnOk, IfOk, IfErr};
ghost use Rattle.std.specs.List.{list_all};
ghost use Rattle.rds_names.specs.declared.fault.Fault.TheVariants.{Memory};
ghost use Rattle.rds_life.specs.Life.{live_rows};
ghost use Rattle.rds_counts.specs.RowsOf.{count_rows};
ghost use Rattle.rds_bytes.specs.Marks.{mark as its_mark};
ghost use Rattle.rds_bytes.specs.Numbers.{AreMeasured, numbers_from};
ghost use Rattle.rds_bytes.specs.Places.{AreFound};
ghost use Rattle.rds_bytes.specs.Values.{is_key_text};
ghost use Rattle.rds_bytes.specs.Table.{has_key, add_key, table_number, rows_table, live_keys, counter_keys, used_keys};

use crate::keys::key_length;
use crate::marks::mark_of;
use crate::numbered::numbered_row_length;
use crate::places::{KeyPlaces, has_at, in_four_bytes};
use rds_counts::{CountRow, Counts};
use rds_dots::DotSet;
use rds_life::Lives;
use rds_names::{Fault, Key};
use std::alloc::Global;

/// The keys that rows use, each once in the order of first use, and the number of each use.
#[derive(Drop)]
pub struct NumberedKeys {
    pub keys: Vec<Key>,
    pub numbers: Vec<u32>,
    /// The bytes of the live rows, with numbers in place of their keys.
    pub lives_length: u128,
}

/// Keys, each once in the order of first use, and where the number of each is found; and the number of each use.
#[derive(Drop)]
struct Numbering {
    places: KeyPlaces,
    keys: Vec<Key>,
    numbers: Vec<u32>,
    /// By the number of a key, that of the key which last came where this one was guessed.
    followers: Vec<u32>,
}

/// Notes what came where a key was guessed. Keys get their numbers in turn, so a new one has the next place.
fn follow(followers: &mut Vec<u32>, guess: u32, number: u32) -> Result<(), Fault>
    ensures { IfErr result (λ fault. fault ≡ Memory) }
{
    if number as usize == followers.len() {
        followers.push(number)?;
    }
    if let Some(last) = followers.get_mut(guess as usize) {
        *last = number;
    }
    Ok(())
}

impl Numbering {
    /// What last came where a key was guessed, as a guess.
    fn follower(&self, guess: u32) -> u32 {
        self.followers.get(guess as usize).copied().unwrap_or(0)
    }

    /// Gives a new key the next number.
    fn add_key(&mut self, alloc: Global, mark: u64, key: &Key) -> Result<usize, Fault>
        requires found { AreFound self.old.places self.old.keys.items }
        requires new { has_key self.old.keys.items key.now ≡ false }
        requires mark { mark ≡ its_mark key.now }
        ensures found { OnOk result (AreFound self.new.places self.new.keys.items) }
        ensures keys { OnOk result (self.new.keys.items ≡ self.old.keys.items ++ key.now ∷ []) }
        ensures number { IfOk result (λ number. number ≡ length self.old.keys.items) }
        ensures numbers { self.new.numbers.items ≡ self.old.numbers.items }
        ensures memory { IfErr result (λ fault. fault ≡ Memory) }
    {
        let number = self.keys.len();
        self.places.add(alloc, self.keys.as_slice(), mark, key, 0)?;
        self.keys.push(key.copy(alloc)?)?;
        Ok(number)
    }

    /// The number of a key by a look-up, which gives a new key the next number. It is noted as what came where the key was
    /// guessed. Few keys come here, and the loop over the others is the faster for not having this in it.
    #[inline(never)]
    fn look_up(&mut self, alloc: Global, guess: u32, key: &Key) -> Result<u32, Fault>
        requires { AreFound self.old.places self.old.keys.items }
        ensures found { OnOk result (AreFound self.new.places self.new.keys.items) }
        ensures keys { OnOk result (self.new.keys.items ≡ add_key self.old.keys.items key.now) }
        ensures number { IfOk result (λ number. number ≡ table_number self.old.keys.items key.now) }
        ensures numbers { self.new.numbers.items ≡ self.old.numbers.items }
        ensures memory { IfErr result (λ fault. fault ≡ Memory) }
    {
        let mark = mark_of(key);
        let known = self.places.find(alloc, self.keys.as_slice(), mark, key)?;
        let found = match known {
            Some(number) => number,
            None => self.add_key(alloc, mark, key)?,
        };
        let number = in_four_bytes(found)?;
        follow(&mut self.followers, guess, number)?;
        Ok(number)
    }

    /// The number of a key, which is the next one where it has none. Where a guess is right, nothing is looked up. The
    /// second guess is what last came where the first one was wrong.
    fn number(&mut self, alloc: Global, guess: u32, key: &Key) -> Result<u32, Fault>
        requires { AreFound self.old.places self.old.keys.items }
        ensures found { OnOk result (AreFound self.new.places self.new.keys.items) }
        ensures keys { OnOk result (self.new.keys.items ≡ add_key self.old.keys.items key.now) }
        ensures number { IfOk result (λ number. number ≡ table_number self.old.keys.items key.now) }
        ensures numbers { self.new.numbers.items ≡ self.old.numbers.items }
        ensures memory { IfErr result (λ fault. fault ≡ Memory) }
    {
        if has_at(self.keys.as_slice(), guess as usize, key) {
            return Ok(guess);
        }
        let second = self.follower(guess);
        if has_at(self.keys.as_slice(), second as usize, key) {
            return Ok(second);
        }
        self.look_up(alloc, guess, key)
    }

    /// Notes the number of a key.
    fn add(&mut self, alloc: Global, guess: u32, key: &Key) -> Result<(), Fault>
        requires { AreFound self.old.places self.old.keys.items }
        ensures found { OnOk result (AreFound self.new.places self.new.keys.items) }
        ensures keys { OnOk result (self.new.keys.items ≡ add_key self.old.keys.items key.now) }
        ensures numbers { OnOk result (self.new.numbers.items
            ≡ self.old.numbers.items ++ table_number self.old.keys.items key.now ∷ []) }
        ensures memory { IfErr result (λ fault. fault ≡ Memory) }
    {
        let number = self.number(alloc, guess, key)?;
        self.numbers.push(number)?;
        Ok(())
    }

    /// What was noted at a place, as a guess.
    fn noted(&self, at: usize) -> u32 {
        self.numbers.get(at).copied().unwrap_or(0)
    }

    /// Notes the numbers of the keys of a path. From `last` on stand those of the path before, which are the guesses.
    fn add_path(&mut self, alloc: Global, last: usize, mut keys: &[Key]) -> Result<(), Fault>
        requires { AreFound self.old.places self.old.keys.items }
        ensures found { OnOk result (AreFound self.new.places self.new.keys.items) }
        ensures keys { OnOk result (self.new.keys.items ≡ fold add_key self.old.keys.items keys.entry.now) }
        ensures numbers { OnOk result (self.new.numbers.items
            ≡ self.old.numbers.items ++ numbers_from self.old.keys.items keys.entry.now) }
        ensures texts { OnOk result (list_all is_key_text keys.entry.now ≡ true) }
        ensures memory { IfErr result (λ fault. fault ≡ Memory) }
    {
        let mut near = last;
        'numbering: loop {
            let (key, later) = match keys.split_first() {
                Some(parts) => parts,
                None => return Ok(()),
            };
            let guess = self.noted(near);
            self.add(alloc, guess, key)?;
            // Whoever sees the length of a key sees that it is text.
            let _spelled = key_length(key);
            near = near.wrapping_add(1);
            keys = later;
        }
    }

    /// Notes the numbers of the keys of live rows, and answers the bytes of these with numbers in place of the keys: rows
    /// are gone through once for both.
    fn add_lives<S: DotSet>(&mut self, alloc: Global, lives: &Lives<S>) -> Result<u128, Fault>
        requires { AreFound self.old.places self.old.keys.items }
        ensures found { OnOk result (AreFound self.new.places self.new.keys.items) }
        ensures keys { OnOk result (self.new.keys.items
            ≡ fold add_key self.old.keys.items (live_keys (live_rows lives.now))) }
        ensures numbers { OnOk result (self.new.numbers.items
            ≡ self.old.numbers.items ++ numbers_from self.old.keys.items (live_keys (live_rows lives.now))) }
        ensures measured { IfOk result (λ n. AreMeasured n (live_rows lives.now)) }
        ensures memory { IfErr result (λ fault. fault ≡ Memory) }
    {
        let _few = lives.live_len();
        let mut last = 0;
        let mut length = 4;
        for (_dot, entry) in lives.live() {
            let next = self.numbers.len();
            let keys = entry.path.keys();
            self.add_path(alloc, last, keys)?;
            length += numbered_row_length(entry);
            last = next;
        }
        Ok(length)
    }

    /// Notes the numbers of the keys of rows of counters. The key of the row before is the guess.
    fn add_counts(&mut self, alloc: Global, mut rows: &[CountRow]) -> Result<(), Fault>
        requires { AreFound self.old.places self.old.keys.items }
        ensures found { OnOk result (AreFound self.new.places self.new.keys.items) }
        ensures keys { OnOk result (self.new.keys.items
            ≡ fold add_key self.old.keys.items (counter_keys rows.entry.now)) }
        ensures numbers { OnOk result (self.new.numbers.items
            ≡ self.old.numbers.items ++ numbers_from self.old.keys.items (counter_keys rows.entry.now)) }
        ensures memory { IfErr result (λ fault. fault ≡ Memory) }
    {
        'numbering: loop {
            let (row, later) = match rows.split_first() {
                Some(parts) => parts,
                None => return Ok(()),
            };
            let guess = self.noted(self.numbers.len().saturating_sub(1));
            self.add(alloc, guess, &row.key)?;
            rows = later;
        }
    }
}

/// Nothing that is numbered.
fn no_keys(alloc: Global) -> Numbering
    ensures found { AreFound result.places result.keys.items }
    ensures keys { result.keys.items ≡ [] }
    ensures numbers { result.numbers.items ≡ [] }
{
    Numbering {
        places: KeyPlaces::new(alloc),
        keys: Vec::new(alloc),
        numbers: Vec::new(alloc),
        followers: Vec::new(alloc),
    }
}

/// The keys of live rows and of counters, numbered in the order of first use: over the live rows as they stand, each
/// path from its first key to its last, and then over the rows of counters.
pub fn number_keys<S: DotSet>(
    alloc: Global,
    lives: &Lives<S>,
    counts: &Counts,
) -> Result<NumberedKeys, Fault>
    ensures keys { IfOk result (λ n. n.keys.items ≡ rows_table (live_rows lives.now) (count_rows counts.now)) }
    ensures numbers { IfOk result (λ n. n.numbers.items
        ≡ each (table_number (rows_table (live_rows lives.now) (count_rows counts.now)))
        (used_keys (live_rows lives.now) (count_rows counts.now))) }
    ensures measured { IfOk result (λ n. AreMeasured n.lives_length (live_rows lives.now)) }
    ensures memory { IfErr result (λ fault. fault ≡ Memory) }
{
    let mut numbering = no_keys(alloc);
    let lives_length = numbering.add_lives(alloc, lives)?;
    numbering.add_counts(alloc, counts.rows())?;
    let Numbering {
        places: _places,
        keys,
        numbers,
        followers: _followers,
    } = numbering;
    Ok(NumberedKeys {
        keys,
        numbers,
        lives_length,
    })
}
