//! The entries of live dots, in the order of the dots.
ghost use Rattle.std.specs.Prelude.{◌≡◌, ◌↔◌, ◌++◌, ◌∷◌, [], true, IsTrue, IfOk, IfErr, OnOk, OnErr, None};
ghost use Rattle.std.specs.FinMap as map;
ghost use Rattle.std.specs.Option.{option_copied, option_map};
ghost use Rattle.rds_names.specs.declared.fault.Fault.TheVariants.{Memory};
ghost use Rattle.rds_dots.specs.Ascending.{ascends};
ghost use Rattle.rds_dots.specs.Dots.{dot_cmp};
ghost use Rattle.rds_life.specs.Fits.{dot_before_next};
ghost use Rattle.rds_life.specs.Life.{AreRows, keys};
ghost use Rattle.rds_life.specs.Past.{first_row, rows_from, rows_past};
ghost use Rattle.rds_life.specs.Removed.{rows_without};

use rds_dots::{Dot, DotSet};
use rds_names::{Entry, Fault};
use std::alloc::Global;

/// Puts a copy of a row at the end.
pub fn push_row(
    alloc: Global,
    rows: &mut Vec<(Dot, Entry)>,
    row: &(Dot, Entry),
) -> Result<(), Fault>
    ensures ok { OnOk result (rows.new.items ≡ rows.old.items ++ row.now ∷ []) }
    ensures memory { IfErr result (λ fault. fault ≡ Memory) }
{
    rows.push((row.0, row.1.copy(alloc)?))?;
    Ok(())
}

/// Whether the rows ascend and each is of a seen dot.
pub fn are_rows<S: DotSet>(seen: &S, rows: &[(Dot, Entry)]) -> bool
    ensures { IsTrue result ↔ AreRows (S.contents seen.now) rows.now }
{
    let mut rest = rows;
    'testing: while let Some((row, later)) = rest.split_first() {
        if !seen.contains(row.0) {
            return false;
        }
        if !is_before(row.0, later) {
            return false;
        }
        rest = later;
    }
    true
}

/// Whether a dot comes before the first row.
fn is_before(dot: Dot, rows: &[(Dot, Entry)]) -> bool
    ensures { result ≡ dot_before_next dot rows.now }
{
    match rows.first() {
        Some(row) => dot < row.0,
        None => true,
    }
}

/// The entry of a dot that has a row.
pub fn find_row(rows: &[(Dot, Entry)], dot: Dot) -> Option<&Entry>
    requires { ascends (keys rows.now) ≡ true }
    ensures { option_copied result ≡ map.find dot_cmp dot rows.now }
{
    match rows.binary_search_by_key(&dot, |row| row.0) {
        Ok(at) => Some(&rows[at].1),
        Err(_) => None,
    }
}

/// The rows past a dot.
pub fn past(rows: &[(Dot, Entry)], dot: Dot) -> &[(Dot, Entry)]
    requires { ascends (keys rows.now) ≡ true }
    ensures { result.now ≡ rows_past dot rows.now }
{
    rows.split_at(rows.partition_point(|row| row.0 <= dot)).1
}

/// The first row from a dot on.
pub fn first_from(rows: &[(Dot, Entry)], dot: Dot) -> Option<(Dot, &Entry)>
    requires { ascends (keys rows.now) ≡ true }
    ensures { option_map (λ row. (row.0, row.1.now)) result ≡ first_row (rows_from dot rows.now) }
{
    match rows
        .split_at(rows.partition_point(|row| row.0 < dot))
        .1
        .split_first()
    {
        Some((row, _)) => Some((row.0, &row.1)),
        None => None,
    }
}

/// A copy of all rows.
pub fn copy_rows(alloc: Global, rows: &[(Dot, Entry)]) -> Result<Vec<(Dot, Entry)>, Fault>
    ensures ok { IfOk result (λ copy. copy.items ≡ rows.now) }
    ensures memory { IfErr result (λ fault. fault ≡ Memory) }
{
    let mut copy = Vec::with_capacity(alloc, rows.len())?;
    for row in rows {
        push_row(alloc, &mut copy, row)?;
    }
    Ok(copy)
}

/// Puts the row of a new dot into its place.
pub fn insert_row(rows: &mut Vec<(Dot, Entry)>, dot: Dot, entry: Entry) -> Result<(), Fault>
    requires rise { ascends (keys rows.old.items) ≡ true }
    requires absent { map.find dot_cmp dot rows.old.items ≡ None }
    ensures ok { OnOk result (rows.new.items ≡ map.put dot_cmp dot entry rows.old.items) }
    ensures err { OnErr result (rows.new.items ≡ rows.old.items) }
    ensures memory { IfErr result (λ fault. fault ≡ Memory) }
{
    match rows.binary_search_by_key(&dot, |row| row.0) {
        Ok(_) => unreachable!(),
        Err(at) => Ok(rows.insert(at, (dot, entry))?),
    }
}

/// Takes out the row of a dot, if it has one.
pub fn remove_row(rows: &mut Vec<(Dot, Entry)>, dot: Dot)
    requires { ascends (keys rows.old.items) ≡ true }
    ensures { rows.new.items ≡ rows_without dot rows.old.items }
{
    if let Ok(at) = rows.binary_search_by_key(&dot, |row| row.0) {
        rows.remove(at);
    }
}
