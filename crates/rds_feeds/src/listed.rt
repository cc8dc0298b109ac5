//! Rows that are kept in one list.
ghost use Rattle.std.specs.Prelude.{◌≡◌, ℕ, List, [], ◌∷◌, ◌++◌, Result, IfOk, IfErr};
ghost use Rattle.rds_names.specs.declared.fault.Fault.{Fault};
ghost use Rattle.rds_names.specs.declared.fault.Fault.TheVariants.{Memory};
ghost use Rattle.rds_bytes.specs.Reading.{Reads, made_at, list_at, number_at};
ghost use Rattle.rds_feeds.specs.Parts.{WasRead};
ghost use Rattle.rds_feeds.specs.Rows.{width_of};

use crate::many::{CountWidth, Many, Repeating};
use crate::once::{Gathering, Once, Part};
use crate::unfinished::Unfinished;
use rds_bytes::PartReader;
use rds_names::Fault;
use std::alloc::Global;
use std::marker::Model;

/// A reader of rows, and what is known of those that it read.
pub trait RowReader<T>: PartReader<T> + Drop {
    /// What is known of rows that were read one after the other.
    ghost are_rows: { Self → List T → Type 0 };

    /// It is known of no rows.
    ghost begins: { (r : Self) → are_rows r [] };

    /// It stays known with each row that is read.
    ghost goes_on: { (r : Self) (rows : List T) (row : T) → are_rows r rows → WasRead (Self.reader r rows) row
        → are_rows r (rows ++ row ∷ []) };
}

/// The rows that were read, and the reader of the next one.
#[derive(Drop)]
pub struct Listed<R: RowReader<T>, T: Drop> {
    pub reader: R,
    pub rows: Vec<T>,
}

impl<R: RowReader<T>, T: Drop> Model for Listed<R, T> {
    ghost use Rattle.std.specs.Prelude.{List};

    ghost Value = { R × List T };

    ghost view = { λ l. (l.reader, l.rows.items) };

    ghost invariant = { λ l. R.are_rows l.reader l.rows.items };
}

impl<R: RowReader<T>, T: Drop> Part for Listed<R, T> {
    type Read = T;

    type Whole = Listed<R, T>;

    ghost reader = { λ l. R.reader l.0 l.1 };

    ghost made = { λ l row. (l.0, l.1 ++ row ∷ []) };

    fn read<'a>(&self, alloc: Global, bytes: &'a [u8]) -> Result<(T, &'a [u8]), Fault> {
        self.reader.read(alloc, &self.rows, bytes)
    }

    fn make(self, part: T) -> Result<Listed<R, T>, Fault> {
        let mut whole = self;
        whole.add(part, 0, 0)?;
        Ok(whole)
    }

    ghost steady = { λ l. R.steady l.0 l.1 };
}

impl<R: RowReader<T>, T: Drop> Gathering for Listed<R, T> {
    fn add(&mut self, part: T, _coming: u32, _bytes: usize) -> Result<(), Fault> {
        self.rows.push(part)?;
        Ok(())
    }
}

impl<P: Gathering> Repeating for Once<P> {
    ghost next = { λ p. made_at (P.made p) (P.reader p) };

    fn again(rows: P) -> Once<P> {
        Once { part: rows }
    }

    fn read_next<'a>(
        rows: &mut P,
        alloc: Global,
        coming: u32,
        bytes: &'a [u8],
    ) -> Result<Option<&'a [u8]>, Fault> {
        match rows.read(alloc, bytes) {
            Ok((part, rest)) => {
                rows.add(part, coming, rest.len())?;
                Ok(Some(rest))
            }
            Err(fault) => match fault {
                Fault::Cut => Ok(None),
                fault => Err(fault),
            },
        }
    }
}

/// Rows, of which the first is still to come after their count.
pub type Rows<R, T> = Many<Once<Listed<R, T>>, Listed<R, T>>;

/// A count of so many bytes, and that many rows.
pub fn rows<R: RowReader<T>, T: Drop>(alloc: Global, width: CountWidth, reader: R) -> Rows<R, T>
    ensures { (bytes : List ℕ) → ⟦<Rows<R, T> as Unfinished>⟧.finish result bytes
        ≡ made_at (λ rows. (reader, rows)) (list_at (number_at (width_of width)) (R.reader reader)) bytes }
{
    Many::Count(
        width,
        Listed {
            reader,
            rows: Vec::new(alloc),
        },
    )
}
