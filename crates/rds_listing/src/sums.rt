//! What counters stand at differently.
ghost use Rattle.std.specs.Prelude.{◌≡◌, ◌++◌, ◌∷◌, [], IfErr, IfOk, OnOk, map, string_bytes};
ghost use Rattle.rds_listing.specs.Differences.{counter_line, counter_lines, first_line, is_sum, second_lines, sum_met, counter_sum_text, sums_before, sums_behind, sums_from};
ghost use Rattle.rds_listing.specs.Pieces.{lines_text};
ghost use Rattle.rds_names.specs.declared.fault.Fault.TheVariants.{Memory};

use crate::pieces::push_line;
use rds_json::show_text;
use rds_names::{Fault, Key};
use std::alloc::Global;

/// Adds the lines of counters that don't stand at the same.
pub fn push_sums_differing(
    alloc: Global,
    text: &mut String,
    firsts: &[(Key, i64)],
    seconds: &[(Key, i64)],
) -> Result<(), Fault>
    ensures text { OnOk result
        (string_bytes text.new ≡ string_bytes text.old ++ lines_text (counter_lines firsts.now seconds.now)) }
    ensures memory { IfErr result (λ fault. fault ≡ Memory) }
{
    let mut rest = firsts;
    for row in seconds {
        let (earlier, later) = split_sums(rest, &row.0);
        push_firsts(alloc, text, earlier)?;
        push_second_sum(alloc, text, later, row)?;
        rest = sums_behind(later, &row.0);
    }
    push_firsts(alloc, text, rest)
}

// Adds the lines of counters that the first has alone.
fn push_firsts(alloc: Global, text: &mut String, rows: &[(Key, i64)]) -> Result<(), Fault>
    ensures text { OnOk result
        (string_bytes text.new ≡ string_bytes text.old ++ lines_text (map first_line rows.now)) }
    ensures memory { IfErr result (λ fault. fault ≡ Memory) }
{
    for row in rows {
        push_line(text, first_line(alloc, row)?.as_str())?;
    }
    Ok(())
}

fn first_line(alloc: Global, row: &(Key, i64)) -> Result<String, Fault>
    ensures text { IfOk result (λ text. string_bytes text ≡ first_line row.now) }
    ensures memory { IfErr result (λ fault. fault ≡ Memory) }
{
    counter_line(alloc, &row.0, Some(row.1), None)
}

// Adds the line of a counter of the second, where that of the first doesn't stand at the same.
fn push_second_sum(
    alloc: Global,
    text: &mut String,
    rest: &[(Key, i64)],
    row: &(Key, i64),
) -> Result<(), Fault>
    ensures text { OnOk result (string_bytes text.new
        ≡ string_bytes text.old ++ lines_text (second_lines (sum_met row.now.0 rest.now) row.now)) }
    ensures memory { IfErr result (λ fault. fault ≡ Memory) }
{
    let met = sum_met(rest, &row.0);
    if is_sum(met, row.1) {
        return Ok(());
    }
    let line = counter_line(alloc, &row.0, met, Some(row.1))?;
    push_line(text, line.as_str())?;
    Ok(())
}

fn is_sum(met: Option<i64>, sum: i64) -> bool
    ensures { result ≡ is_sum met sum }
{
    match met {
        Some(met) => met == sum,
        None => false,
    }
}

// What both counters of a key stand at.
fn counter_line(
    alloc: Global,
    key: &Key,
    first: Option<i64>,
    second: Option<i64>,
) -> Result<String, Fault>
    ensures text { IfOk result (λ text. string_bytes text ≡ counter_line key.now first second) }
    ensures memory { IfErr result (λ fault. fault ≡ Memory) }
{
    let key = show_text(alloc, key.as_str())?;
    let first = sum_text(alloc, first)?;
    let second = sum_text(alloc, second)?;
    Ok(format!(in alloc;
        "{{\"path\":{key},\"kind\":\"counter\",\"first\":{first},\"second\":{second}}}"
    )?)
}

fn sum_text(alloc: Global, sum: Option<i64>) -> Result<String, Fault>
    ensures text { IfOk result (λ text. string_bytes text ≡ counter_sum_text sum) }
    ensures memory { IfErr result (λ fault. fault ≡ Memory) }
{
    match sum {
        Some(sum) => Ok(format!(in alloc; "{sum}")?),
        None => Ok(String::from_str(alloc, "null")?),
    }
}

// Those whose keys come before a key, and those from the first on whose key doesn't.
fn split_sums<'a>(rest: &'a [(Key, i64)], key: &Key) -> (&'a [(Key, i64)], &'a [(Key, i64)])
    ensures before { result.0.now ≡ sums_before key.now rest.now }
    ensures from { result.1.now ≡ sums_from key.now rest.now }
{
    for (i, row) in rest.iter().enumerate() {
        if !row.0.cmp(key).is_lt() {
            return (&rest[..i], &rest[i..]);
        }
    }
    (rest, &[])
}

// The sum of the key, where they begin with it.
fn sum_met(rest: &[(Key, i64)], key: &Key) -> Option<i64>
    ensures { result ≡ sum_met key.now rest.now }
{
    match rest.split_first() {
        Some((first, _)) => sum_of(first, key),
        None => None,
    }
}

fn sum_of(row: &(Key, i64), key: &Key) -> Option<i64>
    ensures { result ≡ sum_met key.now (row.now ∷ []) }
{
    if row.0.cmp(key).is_eq() {
        Some(row.1)
    } else {
        None
    }
}

// Those behind the key, where they begin with it.
fn sums_behind<'a>(rest: &'a [(Key, i64)], key: &Key) -> &'a [(Key, i64)]
    ensures { result.now ≡ sums_behind key.now rest.now }
{
    match rest.split_first() {
        Some((first, later)) => {
            if first.0.cmp(key).is_eq() {
                later
            } else {
                rest
            }
        }
        None => rest,
    }
}
