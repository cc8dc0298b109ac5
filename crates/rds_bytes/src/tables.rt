//! Tables of keys, and keys that are read by their numbers in one.
ghost use Rattle.std.specs.Prelude.{
  ◌≡◌,
  ◌↔◌,
  ◌⊎◌,
  ◌<◌,
  ◌^◌,
  true,
  Some,
  None,
  length,
  slice_get,
  IsTrue,
  IfOk,
  IfErr,
  refl,
};
ghost use Rattle.rds_names.specs.declared.fault.Fault.TheVariants.{Memory, Bad};
ghost use Rattle.rds_names.specs.Roster.{all_differ};
ghost use Rattle.rds_bytes.specs.Reading.{Reads};
ghost use Rattle.rds_bytes.specs.Table.{table_number, after_number};
ghost use Rattle.rds_bytes.specs.TableTexts.{numbered_at};
ghost use Rattle.rds_bytes.specs.TableValue.{meeting};

use crate::numbers::read_u32;
use crate::sources::KeySource;
use rds_names::{Fault, Key};
use std::alloc::Global;
use std::marker::Model;

/// The keys of a table, no two of which are equal.
#[derive(Drop)]
pub struct Table {
    keys: Vec<Key>,
}

impl Model for Table {
    ghost use Rattle.std.specs.Prelude.{◌≡◌, ℕ, true, List};
    ghost use Rattle.rds_names.specs.Roster.{all_differ};

    ghost Value = { List (List ℕ) };

    ghost view = { λ t. t.keys.items };

    ghost invariant = { λ t. all_differ t.keys.items ≡ true };
}

impl Table {
    /// The table of these keys.
    pub fn with_keys(keys: Vec<Key>) -> Table
        requires { all_differ keys.items ≡ true }
        ensures { result ≡ keys.items }
    {
        Table { keys }
    }

    /// Its keys by their numbers, where so many of them have been met in turn.
    pub fn keys(&self, met: Option<usize>) -> TableKeys<'_>
        ensures { result ≡ record { keys = self.now; met = met } }
    {
        TableKeys { table: self, met }
    }

    /// A copy of the key of a number.
    fn find(&self, alloc: Global, number: usize) -> Result<Key, Fault>
        ensures found { IfOk result (λ key. slice_get self.now number ≡ Some key) }
        ensures place { IfOk result (λ key. table_number self.now key ≡ number) }
        ensures none { IfErr result (λ fault. (fault ≡ Memory)
            ⊎ ((fault ≡ Bad) × (slice_get self.now number ≡ None))) }
    {
        match self.keys.get(number) {
            Some(found) => found.copy(alloc),
            None => Err(Fault::Bad),
        }
    }
}

/// The keys of a table by their numbers, and how many of them have been met in turn.
#[derive(Drop)]
pub struct TableKeys<'a> {
    table: &'a Table,
    met: Option<usize>,
}

impl<'a> Model for TableKeys<'a> {
    ghost use Rattle.rds_bytes.specs.TableValue.{TableValue, coded_table};

    ghost Value = { TableValue };

    ghost coded = { coded_table };

    ghost view = { λ t. record { keys = t.table.now; met = t.met } };
}

/// What was met, after a number of one that is within.
fn after(met: Option<usize>, number: usize) -> Option<usize>
    requires { number < 2 ^ 63 }
    ensures { result ≡ after_number met number }
{
    let known = met?;
    if known < number {
        return None;
    }
    if number == known {
        return Some(known + 1);
    }
    Some(known)
}

impl TableKeys<'_> {
    /// How many keys have been met in turn, or nothing where one was met out of turn.
    pub fn into_met(self) -> Option<usize>
        ensures { result ≡ self.entry.met }
    {
        let TableKeys { table: _, met } = self;
        met
    }

    /// Whether all keys of the table have been met, and in turn.
    pub fn is_met(&self) -> bool
        ensures { IsTrue result ↔ (self.now.met ≡ Some (length self.now.keys)) }
    {
        let table = self.table;
        self.met == Some(table.keys.as_slice().len())
    }

    /// Notes that the key of a number was met.
    fn meet(&mut self, number: usize)
        requires { number < 2 ^ 63 }
        ensures { self.new ≡ record { keys = self.old.keys; met = after_number self.old.met number } }
    {
        self.met = after(self.met, number);
    }
}

#[tactic(auto, unfolding(crate::specs::TableTexts::numbered_at))]
impl KeySource for TableKeys<'_> {
    ghost reader = { λ t. numbered_at t.keys };

    ghost after = { meeting };

    ghost steady = { λ s key. refl };

    fn read<'a>(&mut self, alloc: Global, bytes: &'a [u8]) -> Result<(Key, &'a [u8]), Fault> {
        let (number, rest) = read_u32(bytes)?;
        let key = self.table.find(alloc, number as usize)?;
        self.meet(number as usize);
        Ok((key, rest))
    }
}
