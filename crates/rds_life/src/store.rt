//! The rows of live dots, in a list or in a map.
ghost use Rattle.std.specs.Prelude.{◌≡◌, ◌↔◌, IsTrue, is_some, true, false, not, length, count_by, None, Some, IfOk};
ghost use Rattle.std.specs.Prelude.{IfErr, OnOk, OnErr};
ghost use Rattle.std.specs.List.{filter};
ghost use Rattle.std.specs.FinSet as set;
ghost use Rattle.rds_life.specs.Added.{loss, gain};
ghost use Rattle.rds_life.specs.Clash.{Clashes, SameIfBoth};
ghost use Rattle.rds_life.specs.Joined.{rows_of_join};
ghost use Rattle.rds_life.specs.Past.{first_row, rows_from};
ghost use Rattle.std.specs.FinMap as map;
ghost use Rattle.std.specs.Option.{option_copied, option_map};
ghost use Rattle.rds_names.specs.declared.fault.Fault.TheVariants.{Memory};
ghost use Rattle.rds_dots.specs.Ascending.{ascends};
ghost use Rattle.rds_dots.specs.Dots.{dot_cmp};
ghost use Rattle.rds_life.specs.Life.{AreRows, keys};
ghost use Rattle.rds_life.specs.Removed.{rows_without};

use crate::adding::join_in;
use crate::chosen::{Choice, remove_chosen};
use crate::gone::rows_gone;
use crate::joining::{clash, join_into, join_rows};
use crate::live_rows::LiveRows;
use crate::row_map::RowMap;
use crate::rows::{copy_rows, find_row, first_from, insert_row, remove_row};
use rds_dots::{Dot, DotSet};
use rds_names::{Entry, Fault};
use std::alloc::Global;
use std::marker::Model;

/// How rows are kept.
#[derive(Drop)]
enum Form {
    /// In a list: as decoded, copied and joined.
    Listed(Vec<(Dot, Entry)>),
    /// In a map, where a row is put and taken out at no cost of the others.
    Mapped(RowMap),
}

/// The entries of live dots, seen as the list of both in the order of the dots.
#[derive(Drop)]
pub struct Rows {
    alloc: Global,
    form: Form,
}

impl Model for Rows {
    ghost use Rattle.std.specs.Prelude.{List};
    ghost use Rattle.rds_names.specs.declared.entry.Entry.{Entry};
    ghost use Rattle.rds_dots.specs.declared.dot.Dot.{Dot};

    ghost Value = { List (Dot × Entry) };

    ghost use Rattle.rds_life.specs.Forms.{rows_in};

    ghost view = { λ r. rows_in r.form };
}

impl Rows {
    /// The rows of a list, as they stand there. Takes no memory.
    pub fn listed(rows: Vec<(Dot, Entry)>) -> Rows
        ensures { result ≡ rows.items }
    {
        Rows {
            alloc: *rows.allocator(),
            form: Form::Listed(rows),
        }
    }

    /// The allocator that they were made with.
    pub fn alloc(&self) -> Global {
        self.alloc
    }

    /// The entry of a dot that has a row.
    pub fn find(&self, dot: Dot) -> Option<&Entry>
        requires { ascends (keys self.now) ≡ true }
        ensures { option_copied result ≡ map.find dot_cmp dot self.now }
    {
        match &self.form {
            Form::Listed(rows) => find_row(rows, dot),
            Form::Mapped(rows) => rows.find(dot),
        }
    }

    /// How many rows there are.
    pub fn len(&self) -> usize
        ensures { result ≡ length self.now }
    {
        match &self.form {
            Form::Listed(rows) => rows.as_slice().len(),
            Form::Mapped(rows) => rows.len(),
        }
    }

    /// Puts the row of a new dot into its place.
    pub fn insert(&mut self, dot: Dot, entry: Entry) -> Result<(), Fault>
        requires rise { ascends (keys self.old) ≡ true }
        requires absent { map.find dot_cmp dot self.old ≡ None }
        ensures ok { OnOk result (self.new ≡ map.put dot_cmp dot entry self.old) }
        ensures err { OnErr result (self.new ≡ self.old) }
        ensures memory { IfErr result (λ fault. fault ≡ Memory) }
    {
        match &mut self.form {
            Form::Listed(rows) => insert_row(rows, dot, entry),
            Form::Mapped(rows) => rows.insert(dot, entry),
        }
    }

    /// Takes out the row of a dot, if it has one.
    pub fn remove(&mut self, dot: Dot)
        requires { ascends (keys self.old) ≡ true }
        ensures { self.new ≡ rows_without dot self.old }
    {
        match &mut self.form {
            Form::Listed(rows) => remove_row(rows, dot),
            Form::Mapped(rows) => rows.remove(dot),
        }
    }

    /// The rows, in order.
    pub fn iter(&self) -> LiveRows<'_>
        requires { ascends (keys self.now) ≡ true }
        ensures rows { result ≡ self.now }
        ensures rise { ascends (keys result) ≡ true }
    {
        match &self.form {
            Form::Listed(rows) => LiveRows::listed(rows),
            Form::Mapped(rows) => LiveRows::mapped(rows),
        }
    }

    /// The first row from a dot on.
    pub fn first_from(&self, dot: Dot) -> Option<(Dot, &Entry)>
        requires { ascends (keys self.now) ≡ true }
        ensures { option_map (λ row. (row.0, row.1.now)) result ≡ first_row (rows_from dot self.now) }
    {
        match &self.form {
            Form::Listed(rows) => first_from(rows, dot),
            Form::Mapped(rows) => rows.first_from(dot),
        }
    }

    /// Takes out the rows that are chosen, in place, and says how many there were.
    pub fn remove_chosen<C: Choice>(&mut self, choice: &C) -> u64
        ensures kept { self.new ≡ filter (λ r. not (C.chosen choice.now r.0 r.1)) self.old }
        ensures count { result ≡ count_by (λ r. C.chosen choice.now r.0 r.1) self.old }
    {
        match &mut self.form {
            Form::Listed(rows) => remove_chosen(rows, choice),
            Form::Mapped(rows) => rows.remove_chosen(choice),
        }
    }

    /// The least dot that both have with different entries.
    pub fn clash(&self, other: &Rows) -> Option<Dot>
        requires left { ascends (keys self.now) ≡ true }
        requires right { ascends (keys other.now) ≡ true }
        ensures { Clashes self.now other.now result }
    {
        match (&self.form, &other.form) {
            (Form::Listed(left), Form::Listed(right)) => clash(left, right),
            _ => self.clash_found(other.iter()),
        }
    }

    /// The least dot that both have with different entries, by a search for each of the other's.
    fn clash_found(&self, other: LiveRows<'_>) -> Option<Dot>
        requires left { ascends (keys self.now) ≡ true }
        requires right { ascends (keys other) ≡ true }
        ensures { Clashes self.now other.entry result }
    {
        let mut rest = other;
        'looking: loop {
            let (dot, entry) = match rest.next() {
                Some(row) => row,
                None => return None,
            };
            if !self.agrees(dot, entry) {
                return Some(dot);
            }
        }
    }

    /// Whether the dot has no other entry here.
    fn agrees(&self, dot: Dot, entry: &Entry) -> bool
        requires { ascends (keys self.now) ≡ true }
        ensures { IsTrue result ↔ SameIfBoth (map.find dot_cmp dot self.now) (Some entry.now) }
    {
        match self.find(dot) {
            Some(mine) => mine.same(entry),
            None => true,
        }
    }

    /// The rows of the join of two lives, in a list.
    pub fn joined<S: DotSet>(
        &self,
        alloc: Global,
        seen: &S,
        other_seen: &S,
        other: &Rows,
    ) -> Result<Rows, Fault>
        ensures ok { IfOk result
            (λ rows. rows ≡ rows_of_join (set.contains (S.contents seen.now))
            (set.contains (S.contents other_seen.now)) self.now other.now) }
        ensures memory { IfErr result (λ fault. fault ≡ Memory) }
    {
        let rows = match (&self.form, &other.form) {
            (Form::Listed(left), Form::Listed(right)) => {
                join_rows(alloc, seen, left, other_seen, right)?
            }
            _ => join_rows(
                alloc,
                seen,
                &self.copy_list(alloc)?,
                other_seen,
                &other.copy_list(alloc)?,
            )?,
        };
        Ok(Rows::listed(rows))
    }

    /// Joins the other's rows in. Rows of a map stay in it, and are joined in place: that costs a search
    /// for each of the other's rows and seen runs, and for each row here of a dot that the other has seen.
    /// Rows of a list are moved to a new one.
    pub fn join_in<S: DotSet>(
        &mut self,
        seen: &S,
        other_seen: &S,
        other: &Rows,
    ) -> Result<(), Fault>
        requires seen { (d : Dot) → set.contains (S.contents seen.now) d ≡ false → map.find dot_cmp d self.old ≡ None }
        requires fit { AreRows (S.contents other_seen.now) other.now }
        ensures ok { OnOk result (self.new
            ≡ rows_of_join (set.contains (S.contents seen.now)) (set.contains (S.contents other_seen.now))
            self.old other.now) }
        ensures err { OnErr result (self.new ≡ self.old) }
        ensures memory { IfErr result (λ fault. fault ≡ Memory) }
    {
        match &mut self.form {
            Form::Mapped(rows) => other.join_to(self.alloc, rows, seen, other_seen),
            Form::Listed(rows) => other.join_to_list(self.alloc, rows, seen, other_seen),
        }
    }

    /// Joins these rows into a list.
    fn join_to_list<S: DotSet>(
        &self,
        alloc: Global,
        target: &mut Vec<(Dot, Entry)>,
        seen: &S,
        own_seen: &S,
    ) -> Result<(), Fault>
        requires { (d : Dot) → set.contains (S.contents seen.now) d ≡ false
            → map.find dot_cmp d target.old.items ≡ None }
        ensures ok { OnOk result (target.new.items
            ≡ rows_of_join (set.contains (S.contents seen.now)) (set.contains (S.contents own_seen.now))
            target.old.items self.now) }
        ensures err { OnErr result (target.new.items ≡ target.old.items) }
        ensures memory { IfErr result (λ fault. fault ≡ Memory) }
    {
        match &self.form {
            Form::Listed(rows) => join_into(alloc, target, seen, own_seen, rows),
            Form::Mapped(rows) => {
                let copies = rows.copy_list(alloc)?;
                join_into(alloc, target, seen, own_seen, &copies)
            }
        }
    }

    /// Joins these rows into a map, in place. What dies is found first, since that may take memory.
    fn join_to<S: DotSet>(
        &self,
        alloc: Global,
        target: &mut RowMap,
        seen: &S,
        own_seen: &S,
    ) -> Result<(), Fault>
        requires seen { (d : Dot) → set.contains (S.contents seen.now) d ≡ false
            → map.find dot_cmp d target.old ≡ None }
        requires fit { AreRows (S.contents own_seen.now) self.now }
        ensures ok { OnOk result (target.new
            ≡ rows_of_join (set.contains (S.contents seen.now)) (set.contains (S.contents own_seen.now))
            target.old self.now) }
        ensures err { OnErr result (target.new ≡ target.old) }
        ensures memory { IfErr result (λ fault. fault ≡ Memory) }
    {
        let gone = rows_gone(alloc, LiveRows::mapped(target), own_seen, self)?;
        let _in_order = target.len();
        self.join_without(alloc, target, seen, &gone)?;
        let _still_in_order = target.len();
        Ok(())
    }

    /// Joins these rows into a map, in place, and takes out the rows that are gone.
    fn join_without<S: DotSet>(
        &self,
        alloc: Global,
        target: &mut RowMap,
        seen: &S,
        gone: &[(Dot, Entry)],
    ) -> Result<(), Fault>
        requires seen { (d : Dot) → set.contains (S.contents seen.now) d ≡ false
            → map.find dot_cmp d target.old ≡ None }
        requires rise { ascends (keys self.now) ≡ true }
        ensures ok { OnOk result ((d : Dot)
            → map.find dot_cmp d target.new ≡ loss false (is_some (map.find dot_cmp d gone.now))
            (gain (set.contains (S.contents seen.now) d) (map.find dot_cmp d target.old)
            (map.find dot_cmp d self.now))) }
        ensures err { OnErr result (target.new ≡ target.old) }
        ensures memory { IfErr result (λ fault. fault ≡ Memory) }
    {
        match &self.form {
            Form::Listed(rows) => join_in(alloc, target, seen, rows, gone),
            Form::Mapped(rows) => {
                let copies = rows.copy_list(alloc)?;
                join_in(alloc, target, seen, &copies, gone)
            }
        }
    }

    /// Equal rows in a list, with memory of their own.
    pub fn copy(&self, alloc: Global) -> Result<Rows, Fault>
        ensures ok { IfOk result (λ copy. copy ≡ self.now) }
        ensures memory { IfErr result (λ fault. fault ≡ Memory) }
    {
        Ok(Rows::listed(self.copy_list(alloc)?))
    }

    /// Moves the rows into a map, if they are in a list.
    pub fn index(&mut self) -> Result<(), Fault>
        requires { ascends (keys self.old) ≡ true }
        ensures same { self.new ≡ self.old }
        ensures memory { IfErr result (λ fault. fault ≡ Memory) }
    {
        if let Form::Listed(rows) = &mut self.form {
            let rows = RowMap::of(self.alloc, rows)?;
            self.form = Form::Mapped(rows);
        }
        Ok(())
    }

    /// A list of them all, with memory of its own.
    fn copy_list(&self, alloc: Global) -> Result<Vec<(Dot, Entry)>, Fault>
        ensures ok { IfOk result (λ copy. copy.items ≡ self.now) }
        ensures memory { IfErr result (λ fault. fault ≡ Memory) }
    {
        match &self.form {
            Form::Listed(rows) => copy_rows(alloc, rows),
            Form::Mapped(rows) => rows.copy_list(alloc),
        }
    }
}
