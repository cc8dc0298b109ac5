//! The entries of live dots in a map, where a row is put and taken out at no cost of the others.
ghost use Rattle.std.specs.Prelude.{◌≡◌, ◌≤◌, ◌+◌, ◌++◌, ◌∷◌, [], true, not, length, count_by, IfOk, IfErr, OnOk};
ghost use Rattle.std.specs.Prelude.{OnErr, vec_len, vec_capacity};
ghost use Rattle.std.specs.List.{filter};
ghost use Rattle.std.specs.FinMap as map;
ghost use Rattle.std.specs.Option.{option_copied, option_map};
ghost use Rattle.rds_names.specs.declared.fault.Fault.TheVariants.{Memory};
ghost use Rattle.rds_dots.specs.Ascending.{ascends};
ghost use Rattle.rds_dots.specs.Dots.{dot_cmp};
ghost use Rattle.rds_life.specs.Life.{keys};
ghost use Rattle.rds_life.specs.Past.{first_row, rows_from, rows_past};
ghost use Rattle.rds_life.specs.Removed.{rows_without};

use crate::chosen::Choice;
use rds_dots::Dot;
use rds_names::{Entry, Fault};
use std::alloc::Global;
use std::collections::BTreeMap;
use std::collections::btree_map::Range;
use std::marker::Model;
use std::ops::Bound;

/// The entries of live dots by dot, seen as the ascending list of both.
#[derive(Drop)]
pub struct RowMap {
    rows: BTreeMap<Dot, Entry>,
}

impl Model for RowMap {
    ghost use Rattle.std.specs.Prelude.{List};
    ghost use Rattle.rds_names.specs.declared.entry.Entry.{Entry};
    ghost use Rattle.rds_dots.specs.declared.dot.Dot.{Dot};

    ghost Value = { List (Dot × Entry) };

    ghost view = { λ m. m.rows.entries };
}

impl RowMap {
    /// The rows of a list, which are moved from its end. Where memory ends they are moved back.
    pub fn of(alloc: Global, list: &mut Vec<(Dot, Entry)>) -> Result<RowMap, Fault>
        requires { ascends (keys list.old.items) ≡ true }
        ensures ok { IfOk result (λ map. map ≡ list.old.items) }
        ensures err { OnErr result (list.new.items ≡ list.old.items) }
        ensures memory { IfErr result (λ fault. fault ≡ Memory) }
    {
        let mut rows = BTreeMap::new(alloc);
        'moving: while let Some((dot, entry)) = list.pop() {
            if let Err(refused) = rows.insert(dot, entry) {
                list.push_reserved(refused.value);
                move_back(rows, list);
                return Err(Fault::Memory);
            }
        }
        Ok(RowMap { rows })
    }

    /// Takes out the rows that are chosen, in place, and says how many there were.
    pub fn remove_chosen<C: Choice>(&mut self, choice: &C) -> u64
        ensures kept { self.new ≡ filter (λ r. not (C.chosen choice.now r.0 r.1)) self.old }
        ensures count { result ≡ count_by (λ r. C.chosen choice.now r.0 r.1) self.old }
    {
        let before = self.rows.len();
        self.rows.retain(|dot, entry| !choice.chooses(*dot, entry));
        (before - self.rows.len()) as u64
    }

    /// The rows, in order.
    pub fn iter(&self) -> MappedRows<'_>
        ensures rows { result ≡ self.now }
        ensures rise { ascends (keys self.now) ≡ true }
    {
        let _in_order = self.rows.len();
        MappedRows {
            map: self,
            after: None,
            left: self.rows.range(..),
        }
    }

    /// The rows past a dot.
    fn past(&self, dot: Dot) -> Range<'_, Dot, Entry>
        ensures { result ≡ rows_past dot self.now }
    {
        self.rows.range((Bound::Excluded(dot), Bound::Unbounded))
    }

    /// The first row from a dot on.
    pub fn first_from(&self, dot: Dot) -> Option<(Dot, &Entry)>
        ensures { option_map (λ row. (row.0, row.1.now)) result ≡ first_row (rows_from dot self.now) }
    {
        let (first, entry) = self.rows.range(dot..).next()?;
        Some((*first, entry))
    }

    /// How many rows there are.
    pub fn len(&self) -> usize
        ensures len { result ≡ length self.now }
        ensures rise { ascends (keys self.now) ≡ true }
    {
        self.rows.len()
    }

    /// The entry of a dot that has a row.
    pub fn find(&self, dot: Dot) -> Option<&Entry>
        ensures { option_copied result ≡ map.find dot_cmp dot self.now }
    {
        self.rows.get(&dot)
    }

    /// Puts the row of a new dot into its place.
    pub fn insert(&mut self, dot: Dot, entry: Entry) -> Result<(), Fault>
        ensures ok { OnOk result (self.new ≡ map.put dot_cmp dot entry self.old) }
        ensures err { OnErr result (self.new ≡ self.old) }
        ensures memory { IfErr result (λ fault. fault ≡ Memory) }
    {
        self.rows.insert(dot, entry)?;
        Ok(())
    }

    /// Takes out the row of a dot, if it has one.
    pub fn remove(&mut self, dot: Dot)
        ensures { self.new ≡ rows_without dot self.old }
    {
        let _in_order = self.rows.len();
        let _entry = self.rows.remove(&dot);
    }

    /// The rows in a list, with memory of their own.
    pub fn copy_list(&self, alloc: Global) -> Result<Vec<(Dot, Entry)>, Fault>
        ensures ok { IfOk result (λ list. list.items ≡ self.now) }
        ensures memory { IfErr result (λ fault. fault ≡ Memory) }
    {
        let mut list = Vec::with_capacity(alloc, self.rows.len())?;
        for (dot, entry) in self.rows.iter() {
            push_copy(alloc, &mut list, *dot, entry)?;
        }
        Ok(list)
    }
}

/// Moves all rows to the end of a list, which has room for them.
fn move_back(mut rows: BTreeMap<Dot, Entry>, list: &mut Vec<(Dot, Entry)>)
    requires { vec_len list.old + length rows.entries ≤ vec_capacity list.old }
    ensures { list.new.items ≡ list.old.items ++ rows.entries }
{
    'moving: while let Some(row) = rows.pop_first() {
        list.push_reserved(row);
    }
}

/// Puts a copy of a row at the end.
fn push_copy(
    alloc: Global,
    list: &mut Vec<(Dot, Entry)>,
    dot: Dot,
    entry: &Entry,
) -> Result<(), Fault>
    ensures ok { OnOk result (list.new.items ≡ list.old.items ++ (dot, entry.now) ∷ []) }
    ensures memory { IfErr result (λ fault. fault ≡ Memory) }
{
    list.push((dot, entry.copy(alloc)?))?;
    Ok(())
}

/// The rows of a map that are still to come, in the order of the dots.
#[derive(Drop)]
pub struct MappedRows<'a> {
    map: &'a RowMap,
    after: Option<Dot>,
    left: Range<'a, Dot, Entry>,
}

impl<'a> Model for MappedRows<'a> {
    ghost use Rattle.std.specs.Prelude.{◌≡◌, true, List};
    ghost use Rattle.rds_names.specs.declared.entry.Entry.{Entry};
    ghost use Rattle.rds_dots.specs.declared.dot.Dot.{Dot};
    ghost use Rattle.rds_dots.specs.Ascending.{ascends};
    ghost use Rattle.rds_life.specs.Life.{keys};
    ghost use Rattle.rds_life.specs.Past.{rows_behind};

    ghost Value = { List (Dot × Entry) };

    ghost view = { λ r. r.left };

    ghost invariant = { λ r. (r.left ≡ rows_behind r.after r.map.now) × (ascends (keys r.map.now) ≡ true) };
}

impl<'a> MappedRows<'a> {
    /// Leaves out the rows up to the given dot and of the dot itself.
    pub fn skip_past(&mut self, dot: Dot)
        ensures { self.new ≡ rows_past dot self.old }
    {
        let after = self.after;
        if let Some(last) = after
            && dot <= last
        {
            return;
        }
        self.left = self.map.past(dot);
        self.after = Some(dot);
    }
}

impl<'a> Iterator for MappedRows<'a> {
    type Item = (Dot, &'a Entry);

    ghost use Rattle.std.specs.Iterator.{YieldsFirstBy, item_count};

    ghost next_gives = { YieldsFirstBy (λ item. (item.0, item.1.now)) (λ rest. rest) };

    ghost remaining = { item_count (λ rest. rest) };

    fn next(&mut self) -> Option<(Dot, &'a Entry)> {
        let (dot, entry) = self.left.next()?;
        let dot = *dot;
        self.after = Some(dot);
        Some((dot, entry))
    }
}
