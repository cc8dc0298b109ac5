//! Rows of numbers, by key, then replica.
ghost use Rattle.std.specs.Prelude.{List, IsTrue, ◌↔◌, ◌≡◌, ◌≤◌, ◌<◌, ◌+◌, ◌*◌, ℕ, IsOk, IfOk, IfErr, OnOk, OnErr};
ghost use Rattle.std.specs.Prelude.{MatchResult, length, ◌++◌, ◌∷◌, []};
ghost use Rattle.std.specs.List.Sorted.{IsBinarySearchResult, IsSearchInRange};
ghost use Rattle.rds_names.specs.declared.fault.Fault.TheVariants.{Memory, CounterFull};
ghost use Rattle.rds_counts.specs.Place.{Place};
ghost use Rattle.rds_counts.specs.Counted.{components, entry_above, counts_of, AreCountRows, is_row as within_row, rows_fit};
ghost use Rattle.rds_counts.specs.Counted.{row_before_next, pair_of, number_in_pair};
ghost use Rattle.rds_counts.specs.Drawn.{greatest_rows};
ghost use Rattle.rds_counts.specs.Raised.{row_of, pair_raised};
ghost use Rattle.rds_counts.specs.Value.{total, first_total};
ghost use Rattle.rds_counts.specs.Search.{IsSpot};
ghost use Rattle.rds_counts.specs.declared.row.Which.{Which as WhichNumber};
ghost use Rattle.rds_counts.specs.declared.row.Which.TheVariants.{P, N};

use crate::row::{CountRow, MAX_COUNT, Which};
use rds_names::{Fault, Key};
use std::alloc::Global;
use std::cmp::Ordering;

/// Whether the rows ascend and each is one.
pub fn are_rows(rows: &[CountRow]) -> bool
    ensures { result ≡ rows_fit rows.now }
{
    let mut rest = rows;
    'testing: while let Some((row, later)) = rest.split_first() {
        if !is_row(row) || !is_before(row, later) {
            return false;
        }
        rest = later;
    }
    true
}

fn is_row(row: &CountRow) -> bool
    ensures { result ≡ within_row row.now }
{
    // It is below 256 by its type, which a row's definition has too.
    let _replica = row.replica;
    if row.p == 0 && row.n == 0 {
        return false;
    }
    row.p <= MAX_COUNT && row.n <= MAX_COUNT
}

fn is_before(row: &CountRow, rows: &[CountRow]) -> bool
    ensures { result ≡ row_before_next row.now rows.now }
{
    match rows.first() {
        Some(next) => row
            .key
            .cmp(&next.key)
            .then(row.replica.cmp(&next.replica))
            .is_lt(),
        None => true,
    }
}

/// Where the row of a key and a replica is, or where it would stand.
pub fn find_row(rows: &[CountRow], key: &Key, replica: u8) -> Result<usize, usize>
    requires { AreCountRows rows.now }
    ensures { IsSpot key.now replica rows.now result }
{
    rows.binary_search_by(|row| row.key.cmp(key).then(row.replica.cmp(&replica)))
}

/// The numbers of the row that was found, 0 where there is none.
pub fn pair_at(rows: &[CountRow], found: Result<usize, usize>) -> (u64, u64)
    requires rows { AreCountRows rows.now }
    requires found { IsSearchInRange found (length rows.now) }
    ensures found { (key : List ℕ) (replica : ℕ) → IsSpot key replica rows.now found
        → result ≡ pair_of rows.now key replica }
    ensures nowhere { IfErr found (λ _. result ≡ (0, 0)) }
    ensures within { (result.0 ≤ MAX_COUNT) × (result.1 ≤ MAX_COUNT) }
{
    match found {
        Ok(at) => {
            let row = &rows[at];
            (row.p, row.n)
        }
        Err(_) => (0, 0),
    }
}

/// The sums of a key's increments and of its decrements over all replicas.
pub fn totals(rows: &[CountRow], key: &Key) -> (u64, u64)
    requires { AreCountRows rows.now }
    ensures p { result.0 ≡ total (counts_of rows.now) key.now P }
    ensures n { result.1 ≡ total (counts_of rows.now) key.now N }
    ensures within { (result.0 ≤ 256 * MAX_COUNT) × (result.1 ≤ 256 * MAX_COUNT) }
{
    let from = rows.partition_point(|row| row.key < *key);
    first_totals(&rows[from..], key)
}

/// The sums over the first rows, as far as they have the key.
fn first_totals(rows: &[CountRow], key: &Key) -> (u64, u64)
    requires fit { (which : WhichNumber) → first_total which key.now rows.now ≤ 256 * MAX_COUNT }
    ensures p { result.0 ≡ first_total P key.now rows.now }
    ensures n { result.1 ≡ first_total N key.now rows.now }
    ensures within { (result.0 ≤ 256 * MAX_COUNT) × (result.1 ≤ 256 * MAX_COUNT) }
{
    let mut p = 0u64;
    let mut n = 0u64;
    let mut rest = rows;
    'adding: while let Some((row, later)) = rest.split_first() {
        if row.key != *key {
            break;
        }
        p += row.p;
        n += row.n;
        rest = later;
    }
    (p, n)
}

/// A pair with one of its numbers raised.
pub fn raised_pair(pair: (u64, u64), which: Which, by: u64) -> Result<(u64, u64), Fault>
    requires { (pair.0 ≤ MAX_COUNT) × (pair.1 ≤ MAX_COUNT) }
    ensures ok { IfOk result (λ sum. sum ≡ pair_raised pair which by) }
    ensures within { IfOk result (λ sum. (sum.0 ≤ MAX_COUNT) × (sum.1 ≤ MAX_COUNT)) }
    ensures full { IfErr result (λ fault. (fault ≡ CounterFull) × (MAX_COUNT < number_in_pair which pair + by)) }
{
    let (p, n) = pair;
    match which {
        Which::P => Ok((raised(p, by)?, n)),
        Which::N => Ok((p, raised(n, by)?)),
    }
}

fn raised(number: u64, by: u64) -> Result<u64, Fault>
    requires { number ≤ MAX_COUNT }
    ensures ok { IfOk result (λ sum. (sum ≡ number + by) × (sum ≤ MAX_COUNT)) }
    ensures full { IfErr result (λ fault. (fault ≡ CounterFull) × (MAX_COUNT < number + by)) }
{
    if by > MAX_COUNT - number {
        return Err(Fault::CounterFull);
    }
    Ok(number + by)
}

/// Writes a greater pair for a key and a replica, into its row or into a new one in its place.
pub fn put_row(
    rows: &mut Vec<CountRow>,
    found: Result<usize, usize>,
    key: &Key,
    replica: u8,
    pair: (u64, u64),
) -> Result<(), Fault>
    requires rows { AreCountRows rows.old.items }
    requires found { IsSpot key.now replica rows.old.items found }
    requires above { ((pair_of rows.old.items key.now replica).0 ≤ pair.0)
        × ((pair_of rows.old.items key.now replica).1 ≤ pair.1) }
    ensures ok { OnOk result (rows.new.items ≡ greatest_rows (row_of key.now replica pair ∷ []) rows.old.items) }
    ensures err { OnErr result (rows.new.items ≡ rows.old.items) }
    ensures memory { IfErr result (λ fault. fault ≡ Memory) }
    ensures there { IfOk found (λ _. IsOk result) }
{
    let (p, n) = pair;
    match found {
        Ok(at) => {
            let row = &mut rows[at];
            row.p = p;
            row.n = n;
        }
        Err(at) => {
            let key = key.copy(*rows.allocator())?;
            rows.insert(at, CountRow { key, replica, p, n })?;
        }
    }
    Ok(())
}

/// Whether both have the same rows.
pub fn same_rows(left: &[CountRow], right: &[CountRow]) -> bool
    ensures { IsTrue result ↔ (left.now ≡ right.now) }
{
    left == right
}

/// Equal rows with memory of their own.
pub fn copy_rows(alloc: Global, rows: &[CountRow]) -> Result<Vec<CountRow>, Fault>
    ensures ok { IfOk result (λ copy. copy.items ≡ rows.now) }
    ensures memory { IfErr result (λ fault. fault ≡ Memory) }
    ensures nothing { rows.now ≡ [] → IsOk result }
{
    if rows.is_empty() {
        return Ok(Vec::new(alloc));
    }
    let mut copy = Vec::with_capacity(alloc, rows.len())?;
    for row in rows {
        copy.push(CountRow {
            key: row.key.copy(alloc)?,
            replica: row.replica,
            p: row.p,
            n: row.n,
        })?;
    }
    Ok(copy)
}

/// How many numbers are above 0.
pub fn numbers_above(rows: &[CountRow]) -> u128
    ensures is { result ≡ length (components rows.now) }
    ensures few { result ≤ 2 * length rows.now }
{
    let mut count = 0u128;
    let mut rest = rows;
    'counting: while let Some((row, later)) = rest.split_first() {
        count += is_above(row.p) + is_above(row.n);
        rest = later;
    }
    count
}

/// 1 for a number above 0, and 0 for 0.
fn is_above(number: u64) -> u128
    ensures same { (q : Place) → result ≡ length (entry_above q number) }
    ensures small { result ≤ 1 }
{
    if number > 0 { 1 } else { 0 }
}

/// The rows of two counters, the greater number of each.
pub fn merged_rows(
    alloc: Global,
    mut left: &[CountRow],
    mut right: &[CountRow],
) -> Result<Vec<CountRow>, Fault>
    ensures ok { IfOk result (λ rows. rows.items ≡ greatest_rows left.entry.now right.entry.now) }
    ensures memory { IfErr result (λ fault. fault ≡ Memory) }
{
    let mut rows = Vec::with_capacity(alloc, left.len() + right.len())?;
    'joining: loop {
        match (left.split_first(), right.split_first()) {
            (None, None) => return Ok(rows),
            (Some((x, xs)), None) => {
                push_row(alloc, &mut rows, x, x.p, x.n)?;
                left = xs;
            }
            (None, Some((y, ys))) => {
                push_row(alloc, &mut rows, y, y.p, y.n)?;
                right = ys;
            }
            (Some((x, xs)), Some((y, ys))) => {
                match x.key.cmp(&y.key).then(x.replica.cmp(&y.replica)) {
                    Ordering::Less => {
                        push_row(alloc, &mut rows, x, x.p, x.n)?;
                        left = xs;
                    }
                    Ordering::Equal => {
                        push_row(alloc, &mut rows, x, x.p.max(y.p), x.n.max(y.n))?;
                        left = xs;
                        right = ys;
                    }
                    Ordering::Greater => {
                        push_row(alloc, &mut rows, y, y.p, y.n)?;
                        right = ys;
                    }
                }
            }
        }
    }
}

fn push_row(
    alloc: Global,
    rows: &mut Vec<CountRow>,
    row: &CountRow,
    p: u64,
    n: u64,
) -> Result<(), Fault>
    ensures ok { OnOk result (rows.new.items
        ≡ rows.old.items ++ record { key = row.now.key; replica = row.now.replica; p = p; n = n } ∷ []) }
    ensures memory { IfErr result (λ fault. fault ≡ Memory) }
{
    rows.push(CountRow {
        key: row.key.copy(alloc)?,
        replica: row.replica,
        p,
        n,
    })?;
    Ok(())
}
