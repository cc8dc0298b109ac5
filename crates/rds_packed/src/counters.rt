//! Rows of counters, whose keys have numbers in a table: their length, writing and reading them.
ghost use Rattle.std.specs.Prelude.{◌≡◌, ◌*◌, ◌+◌, ◌<◌, ◌≤◌, ◌^◌, ℕ, List, length, IfOk};
ghost use Rattle.rds_counts.specs.RowsOf.{count_rows};
ghost use Rattle.rds_bytes.specs.Packed.{packed_at};
ghost use Rattle.rds_bytes.specs.Reading.{
  Reads,
  ReadsExactly,
  when_at,
  last,
  comes_after_row as is_after_row,
  is_count as is_count_of,
  is_second,
  keyed_place_at,
};
ghost use Rattle.rds_bytes.specs.Writing.{Adds};
ghost use Rattle.rds_packed.specs.CountTexts.{
  packed_counts_at,
  packed_count_row_at,
  packed_counters_text,
  numbers_count_text,
  numbers_counts_text,
  AreCountNumbersIn,
  IsWithin,
  AreWithin,
};
ghost use Rattle.rds_packed.specs.PackedTexts.{packed_key_text};

use crate::rows::count_length;
use rds_bytes::{KeySource, packed_length, put_byte, put_packed, read_byte, read_packed};
use rds_counts::{CountRow, Counts, MAX_COUNT};
use rds_names::{Fault, Key};
use std::alloc::{AllocError, Global};

/// Whether a key and a replica come after those of the last row, as all do where there is none.
fn comes_after_row(before: &[CountRow], key: &Key, replica: u8) -> bool
    ensures { result ≡ is_after_row (last before.now) key.now replica }
{
    before.last().is_none_or(|row| row.key.cmp(key).then(row.replica.cmp(&replica)).is_lt())
}

fn read_p(bytes: &[u8]) -> Result<(u64, &[u8]), Fault>
    ensures { ReadsExactly (λ x. (x.0, x.1.now)) result (when_at is_count_of packed_at bytes.now) }
{
    let (p, rest) = read_packed(bytes)?;
    if MAX_COUNT < p {
        return Err(Fault::Bad);
    }
    Ok((p, rest))
}

fn read_n(p: u64, bytes: &[u8]) -> Result<(u64, &[u8]), Fault>
    ensures { ReadsExactly (λ x. (x.0, x.1.now)) result (when_at (is_second p) packed_at bytes.now) }
{
    let (n, rest) = read_packed(bytes)?;
    if MAX_COUNT < n || (p == 0 && n == 0) {
        return Err(Fault::Bad);
    }
    Ok((n, rest))
}

/// Two numbers, not both 0.
#[tactic(auto, unfolding(crate::specs::CountTexts::packed_counts_at))]
fn read_counts(bytes: &[u8]) -> Result<((u64, u64), &[u8]), Fault>
    ensures { ReadsExactly (λ x. (x.0, x.1.now)) result (packed_counts_at bytes.now) }
{
    let (p, rest) = read_p(bytes)?;
    let (n, rest) = read_n(p, rest)?;
    Ok(((p, n), rest))
}

/// The key and the replica of the next row, wherever the key comes from.
#[tactic(auto, unfolding(rds_bytes::specs::Reading::keyed_place_at))]
fn read_place<'a, K: KeySource>(
    alloc: Global,
    keys: &mut K,
    replicas: u16,
    before: &[CountRow],
    bytes: &'a [u8],
) -> Result<((Key, u8), &'a [u8]), Fault>
    ensures read { Reads (λ x. (x.0, x.1.now)) result
        (keyed_place_at (K.reader keys.old) replicas before.now bytes.now) }
    ensures after { IfOk result (λ x. keys.new ≡ K.after keys.old x.0.0) }
{
    let (key, rest) = keys.read(alloc, bytes)?;
    let (replica, rest) = read_byte(rest)?;
    if !comes_after_row(before, &key, replica) || replicas <= u16::from(replica) {
        return Err(Fault::Bad);
    }
    Ok(((key, replica), rest))
}

/// The next row, wherever its key comes from.
#[tactic(auto, unfolding(crate::specs::CountTexts::packed_count_row_at))]
pub fn read_count_row<'a, K: KeySource>(
    alloc: Global,
    keys: &mut K,
    replicas: u16,
    before: &[CountRow],
    bytes: &'a [u8],
) -> Result<(CountRow, &'a [u8]), Fault>
    ensures read { Reads (λ x. (x.0, x.1.now)) result
        (packed_count_row_at (K.reader keys.old) replicas before.now bytes.now) }
    ensures after { IfOk result (λ x. keys.new ≡ K.after keys.old x.0.key) }
{
    let ((key, replica), rest) = read_place(alloc, keys, replicas, before, bytes)?;
    let ((p, n), rest) = read_counts(rest)?;
    Ok((CountRow { key, replica, p, n }, rest))
}

/// The length of a row with a number in place of its key.
fn row_length(row: &CountRow, number: u32) -> usize
    requires { IsWithin row.now }
    ensures length { result ≡ length (numbers_count_text row.now number) }
    ensures most { result ≤ 22 }
{
    packed_length(u64::from(number)) + 1 + packed_length(row.p) + packed_length(row.n)
}

/// The length of rows, each with one of the numbers.
fn rows_length(mut rows: &[CountRow], mut numbers: &[u32]) -> u128
    requires numbers { length rows.now ≤ length numbers.now }
    requires limits { AreWithin rows.now }
    requires few { length rows.now < 2 ^ 64 }
    ensures length { result ≡ length (numbers_counts_text rows.entry.now numbers.entry.now) }
    ensures most { result ≤ 22 * length rows.entry.now }
{
    let mut total = 0;
    'measuring: loop {
        let (row, later) = match rows.split_first() {
            Some(parts) => parts,
            None => return total,
        };
        let (number, left) = match numbers.split_first() {
            Some(parts) => parts,
            None => unreachable!(),
        };
        total += row_length(row, *number) as u128;
        rows = later;
        numbers = left;
    }
}

/// The length of counters with packed numbers in place of their keys. The numbers are those of the keys in a table.
pub fn packed_counters_length(counts: &Counts, numbers: &[u32]) -> u128
    requires { length (count_rows counts.now) ≤ length numbers.now }
    ensures length { (table : List (List ℕ)) → AreCountNumbersIn table (count_rows counts.now) numbers.now
        → result ≡ length (packed_counters_text (packed_key_text table) counts.now) }
    ensures most { result ≤ 7 + 22 * length (count_rows counts.now) }
{
    let rows = counts.rows();
    count_length(rows.len()) as u128 + rows_length(rows, numbers)
}

/// A row with a number in place of its key.
fn put_count_row(out: &mut Vec<u8>, row: &CountRow, number: u32) -> Result<(), AllocError>
    requires { IsWithin row.now }
    ensures { Adds out.old.items out.new.items (numbers_count_text row.now number) result }
{
    put_packed(out, u64::from(number))?;
    put_byte(out, row.replica)?;
    put_packed(out, row.p)?;
    put_packed(out, row.n)
}

/// Rows, each with one of the numbers.
fn put_count_rows(
    out: &mut Vec<u8>,
    mut rows: &[CountRow],
    mut numbers: &[u32],
) -> Result<(), AllocError>
    requires numbers { length rows.now ≤ length numbers.now }
    requires limits { AreWithin rows.now }
    ensures { Adds out.old.items out.new.items (numbers_counts_text rows.entry.now numbers.entry.now) result }
{
    'writing: loop {
        let (row, later) = match rows.split_first() {
            Some(parts) => parts,
            None => return Ok(()),
        };
        let (number, left) = match numbers.split_first() {
            Some(parts) => parts,
            None => unreachable!(),
        };
        put_count_row(out, row, *number)?;
        rows = later;
        numbers = left;
    }
}

/// Counters with packed numbers in place of their keys. The numbers are those of the keys in a table.
pub fn put_packed_counters(
    out: &mut Vec<u8>,
    counts: &Counts,
    numbers: &[u32],
) -> Result<(), AllocError>
    requires numbers { length (count_rows counts.now) ≤ length numbers.now }
    requires rows { length (count_rows counts.now) < 2 ^ 32 }
    ensures { (table : List (List ℕ)) → AreCountNumbersIn table (count_rows counts.now) numbers.now
        → Adds out.old.items out.new.items (packed_counters_text (packed_key_text table) counts.now) result }
{
    let rows = counts.rows();
    put_packed(out, rows.len() as u64)?;
    put_count_rows(out, rows, numbers)
}
