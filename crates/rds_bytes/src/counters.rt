//! The counters of a snapshot: a row for each key and replica.
ghost use Rattle.std.specs.Prelude.{◌≡◌, ◌<◌, ◌^◌, length, IfOk, ℕ, ◌*◌, ◌≤◌};
ghost use Rattle.std.specs.Int.{w64};
ghost use Rattle.std.specs.List.{flat_map, AllByRecursion};
ghost use Rattle.rds_counts.specs.Counted.{number};
ghost use Rattle.rds_counts.specs.Place.{Place};
ghost use Rattle.rds_counts.specs.RowsOf.{count_rows};
ghost use Rattle.rds_bytes.specs.Reading.{
  Reads,
  ReadsExactly,
  number_at,
  when_at,
  last,
  comes_after_row as is_after_row,
  is_count as is_count_of,
  is_second,
  counts_at,
  count_row_at,
  keyed_place_at,
  keyed_count_row_at,
};
ghost use Rattle.rds_bytes.specs.SteadyParts.{count_row_steady};
ghost use Rattle.rds_bytes.specs.Values.{AreCountsOf, IsKeyed};
ghost use Rattle.rds_bytes.specs.Spelling.{count_row_text, counters_text, place_text, counts_text, count_rows_text};
ghost use Rattle.rds_bytes.specs.Writing.{Adds};

use crate::keys::{key_length, put_key};
use crate::list::PartReader;
use crate::numbers::{put_byte, put_u32, put_u64, read_byte, read_u64};
use crate::sources::{KeySource, SpelledKeys};
use rds_counts::{CountRow, Counts, MAX_COUNT};
use rds_names::{Fault, Key};
use std::alloc::{AllocError, Global};

/// Whether a key and a replica come after those of the last row, as all do where there is none.
fn comes_after_row(before: &[CountRow], key: &Key, replica: u8) -> bool
    ensures { result ≡ is_after_row (last before.now) key.now replica }
{
    before.last().is_none_or(|row| row.key.cmp(key).then(row.replica.cmp(&replica)).is_lt())
}

fn read_p(bytes: &[u8]) -> Result<(u64, &[u8]), Fault>
    ensures { ReadsExactly (λ x. (x.0, x.1.now)) result (when_at is_count_of (number_at w64) bytes.now) }
{
    let (p, rest) = read_u64(bytes)?;
    if MAX_COUNT < p {
        return Err(Fault::Bad);
    }
    Ok((p, rest))
}

fn read_n(p: u64, bytes: &[u8]) -> Result<(u64, &[u8]), Fault>
    ensures { ReadsExactly (λ x. (x.0, x.1.now)) result (when_at (is_second p) (number_at w64) bytes.now) }
{
    let (n, rest) = read_u64(bytes)?;
    if MAX_COUNT < n || (p == 0 && n == 0) {
        return Err(Fault::Bad);
    }
    Ok((n, rest))
}

/// Two numbers, not both 0.
#[tactic(auto, unfolding(crate::specs::Reading::counts_at))]
fn read_counts(bytes: &[u8]) -> Result<((u64, u64), &[u8]), Fault>
    ensures { ReadsExactly (λ x. (x.0, x.1.now)) result (counts_at bytes.now) }
{
    let (p, rest) = read_p(bytes)?;
    let (n, rest) = read_n(p, rest)?;
    Ok(((p, n), rest))
}

/// The key and the replica of the next row, wherever the key comes from.
#[tactic(auto, unfolding(crate::specs::Reading::keyed_place_at))]
fn read_place<'a, K: KeySource>(
    alloc: Global,
    keys: &mut K,
    replicas: u16,
    before: &[CountRow],
    bytes: &'a [u8],
) -> Result<((Key, u8), &'a [u8]), Fault>
    ensures read { Reads (λ x. (x.0, x.1.now)) result
        (keyed_place_at (K.reader keys.old) replicas before.now bytes.now) }
    ensures after { IfOk result (λ x. keys.new ≡ K.after keys.old x.0.0) }
{
    let (key, rest) = keys.read(alloc, bytes)?;
    let (replica, rest) = read_byte(rest)?;
    if !comes_after_row(before, &key, replica) || replicas <= u16::from(replica) {
        return Err(Fault::Bad);
    }
    Ok(((key, replica), rest))
}

/// The next row, wherever its key comes from.
#[tactic(auto, unfolding(crate::specs::Reading::keyed_count_row_at))]
pub fn read_keyed_count_row<'a, K: KeySource>(
    alloc: Global,
    keys: &mut K,
    replicas: u16,
    before: &[CountRow],
    bytes: &'a [u8],
) -> Result<(CountRow, &'a [u8]), Fault>
    ensures read { Reads (λ x. (x.0, x.1.now)) result
        (keyed_count_row_at (K.reader keys.old) replicas before.now bytes.now) }
    ensures after { IfOk result (λ x. keys.new ≡ K.after keys.old x.0.key) }
    ensures byte { IfOk result (λ x. x.0.replica < 256) }
{
    let ((key, replica), rest) = read_place(alloc, keys, replicas, before, bytes)?;
    let ((p, n), rest) = read_counts(rest)?;
    Ok((CountRow { key, replica, p, n }, rest))
}

/// Reads the rows of counters, which ascend by key, then replica, each of one of so many replicas. Each key is a short
/// text.
#[derive(Drop)]
pub struct CountRowReader {
    pub replicas: u16,
}

impl PartReader<CountRow> for CountRowReader {
    ghost reader = { λ r before. count_row_at r.replicas before };

    ghost steady = { λ r before. count_row_steady r.replicas before };

    fn read<'b>(
        &self,
        alloc: Global,
        before: &[CountRow],
        bytes: &'b [u8],
    ) -> Result<(CountRow, &'b [u8]), Fault> {
        let mut keys = SpelledKeys;
        read_keyed_count_row(alloc, &mut keys, self.replicas, before, bytes)
    }
}

fn count_rows_length(rows: &[CountRow]) -> u128
    ensures length { result ≡ length (flat_map count_row_text rows.now) }
    ensures most { result ≤ 128 * length rows.now }
    ensures are_keyed { AllByRecursion IsKeyed rows.now }
{
    let mut total = 0;
    for row in rows {
        total += 17 + key_length(&row.key) as u128;
    }
    total
}

/// The length of the counters.
#[tactic(auto, unfolding(crate::specs::Spelling::counters_text))]
pub fn counters_length(counts: &Counts) -> u128
    ensures length { result ≡ length (counters_text counts.now) }
    ensures most { result ≤ 2 ^ 80 }
    ensures are_counts { (replicas : ℕ) → ((q : Place) → 0 < number counts.now q → q.replica < replicas)
        → AreCountsOf replicas counts.now }
{
    4 + count_rows_length(counts.rows())
}

/// A key and a replica.
pub fn put_place(out: &mut Vec<u8>, key: &Key, replica: u8) -> Result<(), AllocError>
    ensures { Adds out.old.items out.new.items (place_text key.now replica) result }
{
    put_key(out, key)?;
    put_byte(out, replica)
}

/// Two numbers.
pub fn put_counts(out: &mut Vec<u8>, p: u64, n: u64) -> Result<(), AllocError>
    ensures { Adds out.old.items out.new.items (counts_text p n) result }
{
    put_u64(out, p)?;
    put_u64(out, n)
}

fn put_count_row(out: &mut Vec<u8>, row: &CountRow) -> Result<(), AllocError>
    ensures { Adds out.old.items out.new.items (count_row_text row.now) result }
{
    put_place(out, &row.key, row.replica)?;
    put_counts(out, row.p, row.n)
}

fn put_count_rows(out: &mut Vec<u8>, rows: &[CountRow]) -> Result<(), AllocError>
    requires { length rows.now < 2 ^ 32 }
    ensures { Adds out.old.items out.new.items (count_rows_text rows.now) result }
{
    put_u32(out, rows.len() as u32)?;
    for row in rows {
        put_count_row(out, row)?;
    }
    Ok(())
}

/// The counters.
#[tactic(auto, unfolding(crate::specs::Spelling::counters_text))]
pub fn put_counters(out: &mut Vec<u8>, counts: &Counts) -> Result<(), AllocError>
    requires { length (count_rows counts.now) < 2 ^ 32 }
    ensures { Adds out.old.items out.new.items (counters_text counts.now) result }
{
    put_count_rows(out, counts.rows())
}
