//! Two lists of rows, side by side: their join, and their first clash.
ghost use Rattle.std.specs.Prelude.{◌≡◌, ◌+◌, ◌≤◌, ◌<◌, ◌++◌, ◌∷◌, [], List, not, true, false, None, IfOk, IfErr, OnOk};
ghost use Rattle.std.specs.Prelude.{OnErr, vec_len, vec_capacity};
ghost use Rattle.std.specs.FinMap as map;
ghost use Rattle.std.specs.FinSet as set;
ghost use Rattle.std.specs.Vec.Iter.{into_iter_items, into_iter_len};
ghost use Rattle.rds_names.specs.declared.entry.Entry.{Entry};
ghost use Rattle.rds_dots.specs.declared.dot.Dot.{Dot};
ghost use Rattle.rds_dots.specs.Dots.{dot_cmp};
ghost use Rattle.rds_names.specs.declared.fault.Fault.TheVariants.{Memory};
ghost use Rattle.rds_dots.specs.Ascending.{ascends};
ghost use Rattle.rds_life.specs.Clash.{Clashes};
ghost use Rattle.rds_life.specs.Joined.{row_if, outside, rows_of_join};
ghost use Rattle.rds_life.specs.Life.{keys};

use crate::rows::push_row;
use rds_dots::{Dot, DotSet};
use rds_names::{Entry, Fault};
use std::alloc::Global;
use std::cmp::Ordering;
use std::mem;
use std::vec::IntoIter;

/// The rows of the join of two lives: a row that both have, and any other that the other side
/// hasn't seen.
#[tactic(auto, using(crate::proofs::Steps::kept_push))]
pub fn join_rows<S: DotSet>(
    alloc: Global,
    left_seen: &S,
    mut left: &[(Dot, Entry)],
    right_seen: &S,
    mut right: &[(Dot, Entry)],
) -> Result<Vec<(Dot, Entry)>, Fault>
    ensures ok { IfOk result
        (λ rows. rows.items ≡ rows_of_join (set.contains (S.contents left_seen.now))
        (set.contains (S.contents right_seen.now)) left.entry.now right.entry.now) }
    ensures memory { IfErr result (λ fault. fault ≡ Memory) }
{
    let mut rows = Vec::with_capacity(alloc, left.len() + right.len())?;
    'joining: loop {
        match (left.split_first(), right.split_first()) {
            (None, None) => return Ok(rows),
            (Some((x, xs)), None) => {
                push_unseen(alloc, &mut rows, right_seen, x)?;
                left = xs;
            }
            (None, Some((y, ys))) => {
                push_unseen(alloc, &mut rows, left_seen, y)?;
                right = ys;
            }
            (Some((x, xs)), Some((y, ys))) => match x.0.cmp(&y.0) {
                Ordering::Less => {
                    push_unseen(alloc, &mut rows, right_seen, x)?;
                    left = xs;
                }
                Ordering::Equal => {
                    push_row(alloc, &mut rows, x)?;
                    left = xs;
                    right = ys;
                }
                Ordering::Greater => {
                    push_unseen(alloc, &mut rows, left_seen, y)?;
                    right = ys;
                }
            },
        }
    }
}

/// Joins the other's rows into these, and copies none of these. What may fail comes first: copies of the other's rows
/// that are new here, and room for all.
pub fn join_into<S: DotSet>(
    alloc: Global,
    rows: &mut Vec<(Dot, Entry)>,
    seen: &S,
    other_seen: &S,
    other: &[(Dot, Entry)],
) -> Result<(), Fault>
    requires { (d : Dot) → set.contains (S.contents seen.now) d ≡ false → map.find dot_cmp d rows.old.items ≡ None }
    ensures ok { OnOk result (rows.new.items
        ≡ rows_of_join (set.contains (S.contents seen.now)) (set.contains (S.contents other_seen.now))
        rows.old.items other.now) }
    ensures err { OnErr result (rows.new.items ≡ rows.old.items) }
    ensures memory { IfErr result (λ fault. fault ≡ Memory) }
{
    let coming = rows_unseen(alloc, seen, other)?;
    let room = Vec::with_capacity(alloc, rows.len() + coming.len())?;
    let own = mem::replace(rows, room);
    move_rows(rows, own, coming, seen, other_seen, other);
    Ok(())
}

/// Copies of the rows whose dots aren't seen.
#[tactic(auto, using(crate::proofs::Steps::kept_push))]
fn rows_unseen<S: DotSet>(
    alloc: Global,
    seen: &S,
    rows: &[(Dot, Entry)],
) -> Result<Vec<(Dot, Entry)>, Fault>
    ensures ok { IfOk result (λ copies. copies.items ≡ outside (set.contains (S.contents seen.now)) rows.now) }
    ensures memory { IfErr result (λ fault. fault ≡ Memory) }
{
    let mut copies = Vec::new(alloc);
    let mut rest = rows;
    'copying: while let Some((row, later)) = rest.split_first() {
        push_unseen(alloc, &mut copies, seen, row)?;
        rest = later;
    }
    Ok(copies)
}

/// Moves the rows of the join into the room: own ones, and those that come.
fn move_rows<S: DotSet>(
    rows: &mut Vec<(Dot, Entry)>,
    own: Vec<(Dot, Entry)>,
    coming: Vec<(Dot, Entry)>,
    seen: &S,
    other_seen: &S,
    mut other: &[(Dot, Entry)],
)
    requires room { vec_len rows.old + vec_len own + vec_len coming ≤ vec_capacity rows.old }
    requires empty { rows.old.items ≡ [] }
    requires seen { (d : Dot) → set.contains (S.contents seen.now) d ≡ false → map.find dot_cmp d own.items ≡ None }
    requires coming { coming.items ≡ outside (set.contains (S.contents seen.now)) other.now }
    ensures { rows.new.items
        ≡ rows_of_join (set.contains (S.contents seen.now)) (set.contains (S.contents other_seen.now))
        own.items other.entry.now }
{
    let mut mine = own.into_iter();
    let mut theirs = coming.into_iter();
    let mut next = mine.next();
    'moving: loop {
        match (next, other.split_first()) {
            (None, _) => {
                move_all(rows, theirs);
                return;
            }
            (Some(x), None) => {
                move_unseen(rows, other_seen, x);
                next = mine.next();
            }
            (Some(x), Some((y, ys))) => match x.0.cmp(&y.0) {
                Ordering::Less => {
                    move_unseen(rows, other_seen, x);
                    next = mine.next();
                }
                Ordering::Equal => {
                    move_row(rows, x);
                    next = mine.next();
                    other = ys;
                }
                Ordering::Greater => {
                    move_first(rows, &mut theirs, seen, y);
                    next = Some(x);
                    other = ys;
                }
            },
        }
    }
}

/// Moves a row to the end. There is room.
fn move_row(rows: &mut Vec<(Dot, Entry)>, row: (Dot, Entry))
    requires { vec_len rows.old < vec_capacity rows.old }
    ensures rows { rows.new.items ≡ rows.old.items ++ row ∷ [] }
    ensures len { vec_len rows.new ≡ vec_len rows.old + 1 }
    ensures capacity { vec_capacity rows.old ≤ vec_capacity rows.new }
{
    match rows.push(row) {
        Ok(()) => {}
        Err(_) => unreachable!(),
    }
}

/// Moves a row to the end, if the other hasn't seen its dot. There is room.
fn move_unseen<S: DotSet>(rows: &mut Vec<(Dot, Entry)>, other_seen: &S, row: (Dot, Entry))
    requires { vec_len rows.old < vec_capacity rows.old }
    ensures rows { rows.new.items
        ≡ rows.old.items ++ row_if (not (set.contains (S.contents other_seen.now) row.0)) row [] }
    ensures len { vec_len rows.new ≤ vec_len rows.old + 1 }
    ensures capacity { vec_capacity rows.old ≤ vec_capacity rows.new }
{
    if !other_seen.contains(row.0) {
        move_row(rows, row);
    }
}

/// Moves the first of the rows that come, if it is the one given: if its dot isn't seen. There is room.
fn move_first<S: DotSet>(
    rows: &mut Vec<(Dot, Entry)>,
    coming: &mut IntoIter<(Dot, Entry)>,
    seen: &S,
    row: &(Dot, Entry),
)
    requires { vec_len rows.old + into_iter_len coming.old ≤ vec_capacity rows.old }
    ensures moved { (later : List (Dot × Entry))
        → into_iter_items coming.old ≡ row_if (not (set.contains (S.contents seen.now) row.now.0)) row.now later
        → (into_iter_items coming.new ≡ later)
        × (rows.new.items ≡ rows.old.items ++ row_if (not (set.contains (S.contents seen.now) row.now.0)) row.now []) }
    ensures len { vec_len rows.new + into_iter_len coming.new ≤ vec_len rows.old + into_iter_len coming.old }
    ensures capacity { vec_capacity rows.old ≤ vec_capacity rows.new }
{
    if !seen.contains(row.0)
        && let Some(first) = coming.next()
    {
        move_row(rows, first);
    }
}

/// Moves all rows that come. There is room.
fn move_all(rows: &mut Vec<(Dot, Entry)>, coming: IntoIter<(Dot, Entry)>)
    requires { vec_len rows.old + into_iter_len coming ≤ vec_capacity rows.old }
    ensures { rows.new.items ≡ rows.old.items ++ into_iter_items coming }
{
    let mut theirs = coming;
    'moving: loop {
        match theirs.next() {
            Some(row) => move_row(rows, row),
            None => return,
        }
    }
}

fn push_unseen<S: DotSet>(
    alloc: Global,
    rows: &mut Vec<(Dot, Entry)>,
    seen: &S,
    row: &(Dot, Entry),
) -> Result<(), Fault>
    ensures ok { OnOk result (rows.new.items
        ≡ rows.old.items ++ row_if (not (set.contains (S.contents seen.now) row.now.0)) row.now []) }
    ensures memory { IfErr result (λ fault. fault ≡ Memory) }
{
    if !seen.contains(row.0) {
        push_row(alloc, rows, row)?;
    }
    Ok(())
}

/// The least dot that both lists have with different entries.
pub fn clash(mut left: &[(Dot, Entry)], mut right: &[(Dot, Entry)]) -> Option<Dot>
    requires left { ascends (keys left.now) ≡ true }
    requires right { ascends (keys right.now) ≡ true }
    ensures { Clashes left.entry.now right.entry.now result }
{
    'looking: loop {
        let (x, xs) = left.split_first()?;
        let (y, ys) = right.split_first()?;
        match x.0.cmp(&y.0) {
            Ordering::Less => left = xs,
            Ordering::Equal => {
                if !x.1.same(&y.1) {
                    return Some(x.0);
                }
                left = xs;
                right = ys;
            }
            Ordering::Greater => right = ys,
        }
    }
}
