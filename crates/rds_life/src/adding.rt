//! Rows that are joined in place, and left as they were where memory ends.
ghost use Rattle.std.specs.Prelude.{◌≡◌, true, false, is_some, None, IfErr, OnOk, OnErr};
ghost use Rattle.std.specs.FinMap as map;
ghost use Rattle.std.specs.FinSet as set;
ghost use Rattle.rds_names.specs.declared.fault.Fault.TheVariants.{Memory};
ghost use Rattle.rds_dots.specs.declared.dot.Dot.{Dot};
ghost use Rattle.rds_dots.specs.Ascending.{ascends};
ghost use Rattle.rds_dots.specs.Dots.{dot_cmp};
ghost use Rattle.rds_life.specs.Added.{IsAdded, loss, gain};
ghost use Rattle.rds_life.specs.Life.{keys};

use crate::row_map::RowMap;
use rds_dots::{Dot, DotSet};
use rds_names::{Entry, Fault};
use std::alloc::Global;

/// Joins the other's rows into the map, in place: copies of those of unseen dots are put in, and those that are gone
/// are taken out. A refusal leaves it as it was.
pub fn join_in<S: DotSet>(
    alloc: Global,
    rows: &mut RowMap,
    seen: &S,
    other: &[(Dot, Entry)],
    gone: &[(Dot, Entry)],
) -> Result<(), Fault>
    requires seen { (d : Dot) → set.contains (S.contents seen.now) d ≡ false → map.find dot_cmp d rows.old ≡ None }
    requires rise { ascends (keys other.now) ≡ true }
    ensures ok { OnOk result ((d : Dot)
        → map.find dot_cmp d rows.new ≡ loss false (is_some (map.find dot_cmp d gone.now))
        (gain (set.contains (S.contents seen.now) d) (map.find dot_cmp d rows.old) (map.find dot_cmp d other.now))) }
    ensures err { OnErr result (rows.new ≡ rows.old) }
    ensures memory { IfErr result (λ fault. fault ≡ Memory) }
{
    add_unseen(alloc, rows, seen, other)?;
    drop_all(rows, gone);
    Ok(())
}

/// Puts copies of the other's rows of unseen dots into the map. A refusal leaves it as it was:
/// what was put in is taken out.
fn add_unseen<S: DotSet>(
    alloc: Global,
    rows: &mut RowMap,
    seen: &S,
    other: &[(Dot, Entry)],
) -> Result<(), Fault>
    requires seen { (d : Dot) → set.contains (S.contents seen.now) d ≡ false → map.find dot_cmp d rows.old ≡ None }
    requires rise { ascends (keys other.now) ≡ true }
    ensures ok { OnOk result ((d : Dot)
        → map.find dot_cmp d rows.new
        ≡ gain (set.contains (S.contents seen.now) d) (map.find dot_cmp d rows.old) (map.find dot_cmp d other.now)) }
    ensures err { OnErr result (rows.new ≡ rows.old) }
    ensures memory { IfErr result (λ fault. fault ≡ Memory) }
{
    let _in_order = rows.len();
    if let Err(fault) = add_each(alloc, rows, seen, other) {
        drop_unseen(rows, seen, other);
        let _still_in_order = rows.len();
        return Err(fault);
    }
    Ok(())
}

/// Puts copies of the other's rows of unseen dots into the map, as far as memory goes.
fn add_each<S: DotSet>(
    alloc: Global,
    rows: &mut RowMap,
    seen: &S,
    other: &[(Dot, Entry)],
) -> Result<(), Fault>
    requires { ascends (keys other.now) ≡ true }
    ensures ok { OnOk result ((d : Dot)
        → map.find dot_cmp d rows.new
        ≡ gain (set.contains (S.contents seen.now) d) (map.find dot_cmp d rows.old) (map.find dot_cmp d other.now)) }
    ensures some { IsAdded (set.contains (S.contents seen.now)) other.now rows.old rows.new }
    ensures memory { IfErr result (λ fault. fault ≡ Memory) }
{
    let mut rest = other;
    'adding: while let Some((row, later)) = rest.split_first() {
        if !seen.contains(row.0) {
            rows.insert(row.0, row.1.copy(alloc)?)?;
        }
        rest = later;
    }
    Ok(())
}

/// Takes out the rows of the other's unseen dots.
fn drop_unseen<S: DotSet>(rows: &mut RowMap, seen: &S, other: &[(Dot, Entry)])
    ensures { (d : Dot) → map.find dot_cmp d rows.new
        ≡ loss (set.contains (S.contents seen.now) d) (is_some (map.find dot_cmp d other.now))
        (map.find dot_cmp d rows.old) }
{
    let mut rest = other;
    'dropping: loop {
        let (row, later) = match rest.split_first() {
            Some(parts) => parts,
            None => return,
        };
        if !seen.contains(row.0) {
            rows.remove(row.0);
        }
        rest = later;
    }
}

/// Takes out the rows of the other's dots.
fn drop_all(rows: &mut RowMap, other: &[(Dot, Entry)])
    ensures { (d : Dot) → map.find dot_cmp d rows.new
        ≡ loss false (is_some (map.find dot_cmp d other.now)) (map.find dot_cmp d rows.old) }
{
    let mut rest = other;
    'dropping: loop {
        let (row, later) = match rest.split_first() {
            Some(parts) => parts,
            None => return,
        };
        rows.remove(row.0);
        rest = later;
    }
}
