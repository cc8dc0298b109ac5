//! Tables, and rows whose keys are numbers of a table: their lengths, and writing them.
ghost use Rattle.std.specs.Prelude.{
  ◌≡◌,
  ◌++◌,
  ◌+◌,
  ◌*◌,
  ◌<◌,
  ◌≤◌,
  ◌^◌,
  ℕ,
  List,
  [],
  ◌∷◌,
  length,
  drop,
  map as each,
  IfOk,
};
ghost use Rattle.std.specs.List.{flat_map, AllByRecursion};
ghost use Rattle.rds_life.specs.Life.{live_rows};
ghost use Rattle.rds_counts.specs.RowsOf.{count_rows};
ghost use Rattle.rds_bytes.specs.Numbers.{
  numbers_text,
  numbered_row_text,
  numbered_rows_text,
  numbered_counts_text,
  count_of_keys,
};
ghost use Rattle.rds_bytes.specs.Spelling.{short_text, scalar_text, keyed_live_rows_text, keyed_counters_text};
ghost use Rattle.rds_bytes.specs.Table.{table_number, rows_table, used_keys};
ghost use Rattle.rds_bytes.specs.TableTexts.{table_text, number_text};
ghost use Rattle.rds_bytes.specs.Values.{IsKeyText, IsScalar};
ghost use Rattle.rds_bytes.specs.Writing.{Adds};

use crate::counters::put_counts;
use crate::entries::put_kind;
use crate::keys::{key_length, put_key};
use crate::numbers::{put_byte, put_u32, put_u64};
use crate::paths::put_keys;
use crate::scalars::{put_scalar, scalar_length};
use rds_counts::{CountRow, Counts};
use rds_dots::{Dot, DotSet};
use rds_life::Lives;
use rds_names::{Entry, Key};
use std::alloc::AllocError;

fn table_keys_length(keys: &[Key]) -> u128
    ensures length { result ≡ length (flat_map short_text keys.now) }
    ensures most { result ≤ 65 * length keys.now }
    ensures texts { AllByRecursion IsKeyText keys.now }
{
    let mut total = 0;
    for key in keys {
        total += key_length(key) as u128;
    }
    total
}

/// The length of a table of these keys.
#[tactic(auto, unfolding(crate::specs::TableTexts::table_text))]
pub fn table_length(keys: &[Key]) -> u128
    ensures length { result ≡ length (table_text keys.now) }
    ensures most { result ≤ 4 + 65 * length keys.now }
    ensures texts { AllByRecursion IsKeyText keys.now }
{
    4 + table_keys_length(keys)
}

/// The length of a live row with numbers in place of its keys.
pub fn numbered_row_length(entry: &Entry) -> u128
    ensures length { result ≡ 11 + 4 * length entry.now.path + length (scalar_text entry.now.value) }
    ensures most { result ≤ 2048 }
    ensures scalar { IsScalar entry.now.value }
{
    (11 + 4 * entry.path.len() + scalar_length(&entry.value)) as u128
}

/// The length of counters with numbers in place of their keys. It doesn't depend on the table.
pub fn numbered_counters_length(counts: &Counts) -> u128
    ensures length { (table : List (List ℕ))
        → result ≡ length (keyed_counters_text (number_text table) counts.now) }
    ensures most { result ≤ 2 ^ 80 }
{
    4 + 21 * counts.rows().len() as u128
}

/// A table of these keys.
#[tactic(auto, unfolding(crate::specs::TableTexts::table_text))]
pub fn put_table(out: &mut Vec<u8>, keys: &[Key]) -> Result<(), AllocError>
    requires { length keys.now < 2 ^ 32 }
    ensures { Adds out.old.items out.new.items (table_text keys.now) result }
{
    put_u32(out, keys.len() as u32)?;
    put_keys(out, keys)
}

/// Numbers of four bytes each.
fn put_numbers(out: &mut Vec<u8>, mut numbers: &[u32]) -> Result<(), AllocError>
    ensures { Adds out.old.items out.new.items (numbers_text numbers.entry.now) result }
{
    'writing: loop {
        let (number, later) = match numbers.split_first() {
            Some(parts) => parts,
            None => return Ok(()),
        };
        put_u32(out, *number)?;
        numbers = later;
    }
}

/// A row, with these numbers in place of its keys.
fn put_row(out: &mut Vec<u8>, dot: Dot, entry: &Entry, numbers: &[u32]) -> Result<(), AllocError>
    ensures { Adds out.old.items out.new.items (numbered_row_text (dot, entry.now) numbers.now) result }
{
    put_byte(out, dot.replica)?;
    put_u64(out, dot.seq)?;
    put_byte(out, entry.path.keys().len() as u8)?;
    put_numbers(out, numbers)?;
    put_kind(out, entry.kind)?;
    put_scalar(out, &entry.value)
}

/// Rows, each with as many of the numbers as it has keys; and the numbers that are left.
fn put_rows<'n, S: DotSet>(
    out: &mut Vec<u8>,
    lives: &Lives<S>,
    numbers: &'n [u32],
) -> Result<&'n [u32], AllocError>
    requires { count_of_keys (live_rows lives.now) ≤ length numbers.now }
    ensures text { Adds out.old.items out.new.items (numbered_rows_text (live_rows lives.now) numbers.now) result }
    ensures left { IfOk result (λ left. left.now ≡ drop (count_of_keys (live_rows lives.now)) numbers.now) }
{
    let mut left = numbers;
    for (dot, entry) in lives.live() {
        let (own, later) = left.split_at(entry.path.len());
        put_row(out, dot, entry, own)?;
        left = later;
    }
    Ok(left)
}

fn put_count_row(out: &mut Vec<u8>, row: &CountRow, number: u32) -> Result<(), AllocError>
    ensures { Adds out.old.items out.new.items (numbered_counts_text (row.now ∷ []) (number ∷ [])) result }
{
    put_u32(out, number)?;
    put_byte(out, row.replica)?;
    put_counts(out, row.p, row.n)
}

/// Rows of counters, each with one of the numbers.
fn put_count_rows(
    out: &mut Vec<u8>,
    mut rows: &[CountRow],
    mut numbers: &[u32],
) -> Result<(), AllocError>
    requires { length rows.now ≤ length numbers.now }
    ensures { Adds out.old.items out.new.items (numbered_counts_text rows.entry.now numbers.entry.now) result }
{
    'writing: loop {
        let (row, later) = match rows.split_first() {
            Some(parts) => parts,
            None => return Ok(()),
        };
        let (number, left) = match numbers.split_first() {
            Some(parts) => parts,
            None => unreachable!(),
        };
        put_count_row(out, row, *number)?;
        rows = later;
        numbers = left;
    }
}

/// Live rows and counters, with the numbers of their keys in the table of them all.
pub fn put_numbered<S: DotSet>(
    out: &mut Vec<u8>,
    lives: &Lives<S>,
    counts: &Counts,
    numbers: &[u32],
) -> Result<(), AllocError>
    requires numbers { numbers.now ≡ each (table_number (rows_table (live_rows lives.now) (count_rows counts.now)))
        (used_keys (live_rows lives.now) (count_rows counts.now)) }
    requires rows { length (live_rows lives.now) < 2 ^ 32 }
    requires counts { length (count_rows counts.now) < 2 ^ 32 }
    ensures { let number_text = number_text (rows_table (live_rows lives.now) (count_rows counts.now)) in
        Adds out.old.items out.new.items (keyed_live_rows_text number_text (live_rows lives.now)
        ++ keyed_counters_text number_text counts.now) result }
{
    put_u32(out, lives.live_len() as u32)?;
    let left = put_rows(out, lives, numbers)?;
    let rows = counts.rows();
    put_u32(out, rows.len() as u32)?;
    put_count_rows(out, rows, left)
}
