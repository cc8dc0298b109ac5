//! Rows whose keys are numbers of a table, kept in one list beside what they met of it.
ghost use Rattle.std.specs.Prelude.{◌≡◌, ℕ, List, [], ◌∷◌, ◌++◌, Option, Result};
ghost use Rattle.std.specs.Int.{w32};
ghost use Rattle.rds_names.specs.declared.fault.Fault.{Fault};
ghost use Rattle.rds_bytes.specs.Reading.{Reads, made_at, list_at, number_at};
ghost use Rattle.rds_bytes.specs.Steady.{IsSteady};
ghost use Rattle.rds_bytes.specs.SteadyLaws.{made_steady};
ghost use Rattle.rds_feeds.specs.Numbered.{with_met};
ghost use Rattle.rds_feeds.specs.Parts.{WasRead};

use crate::many::{CountWidth, Many};
use crate::once::{Gathering, Once, Part};
use crate::unfinished::Unfinished;
use rds_names::Fault;
use std::alloc::Global;
use std::marker::Model;

/// A reader of rows by the numbers of a table, what they meet of it, and what is known of those that it read.
pub trait MeetingReader<T>: Drop {
    /// How the next row is read.
    ghost reader: { Self → List T → List ℕ → Result (T × List ℕ) Fault };

    /// How many keys of the table have been met in turn after these rows, or nothing where one was met out of turn.
    ghost met_by: { Self → List T → Option ℕ };

    /// What is known of rows that were read one after the other.
    ghost are_rows: { Self → List T → Type 0 };

    /// The next row, where these stand before it and met so much, with what is met after it; and the bytes after it.
    /// Or the fault of a row that is cut or bad.
    fn read<'a>(
        &self,
        alloc: Global,
        before: &[T],
        met: Option<usize>,
        bytes: &'a [u8],
    ) -> Result<((T, Option<usize>), &'a [u8]), Fault>
        requires { met ≡ met_by self.now before.now }
        ensures { Reads (λ x. (x.0, x.1.now)) result
            (made_at (with_met (met_by self.now) before.now) (reader self.now before.now) bytes.now) };

    /// It is known of no rows.
    ghost begins: { (r : Self) → are_rows r [] };

    /// It stays known with each row that is read.
    ghost goes_on: { (r : Self) (rows : List T) (row : T) → are_rows r rows → WasRead (reader r rows) row
        → are_rows r (rows ++ row ∷ []) };

    /// More bytes change neither what was read nor that nothing can be.
    ghost steady: { (r : Self) (before : List T) → IsSteady (reader r before) };
}

/// The rows that were read, what they met, and the reader of the next one.
#[derive(Drop)]
pub struct MetRows<R: MeetingReader<T>, T: Drop> {
    pub reader: R,
    pub rows: Vec<T>,
    pub met: Option<usize>,
}

impl<R: MeetingReader<T>, T: Drop> Model for MetRows<R, T> {
    ghost use Rattle.std.specs.Prelude.{◌≡◌, List};

    ghost Value = { R × List T };

    ghost view = { λ m. (m.reader, m.rows.items) };

    ghost invariant = { λ m. (m.met ≡ R.met_by m.reader m.rows.items) × R.are_rows m.reader m.rows.items };
}

impl<R: MeetingReader<T>, T: Drop> Part for MetRows<R, T> {
    type Read = (T, Option<usize>);

    type Whole = MetRows<R, T>;

    ghost reader = { λ m. made_at (with_met (R.met_by m.0) m.1) (R.reader m.0 m.1) };

    ghost made = { λ m x. (m.0, m.1 ++ x.0 ∷ []) };

    fn read<'a>(
        &self,
        alloc: Global,
        bytes: &'a [u8],
    ) -> Result<((T, Option<usize>), &'a [u8]), Fault> {
        self.reader.read(alloc, &self.rows, self.met, bytes)
    }

    fn make(self, part: (T, Option<usize>)) -> Result<MetRows<R, T>, Fault> {
        let mut whole = self;
        whole.add(part, 0, 0)?;
        Ok(whole)
    }

    ghost steady = { λ m. made_steady (with_met (R.met_by m.0) m.1) (R.reader m.0 m.1) (R.steady m.0 m.1) };
}

impl<R: MeetingReader<T>, T: Drop> Gathering for MetRows<R, T> {
    fn add(&mut self, part: (T, Option<usize>), _coming: u32, _bytes: usize) -> Result<(), Fault> {
        let (row, met) = part;
        self.rows.push(row)?;
        self.met = met;
        Ok(())
    }
}

/// Rows by the numbers of a table, of which the first is still to come after their count.
pub type MeetingRows<R, T> = Many<Once<MetRows<R, T>>, MetRows<R, T>>;

/// A count of four bytes, and that many rows, where so much was met before them.
pub fn meeting_rows<R: MeetingReader<T>, T: Drop>(
    alloc: Global,
    reader: R,
    met: Option<usize>,
) -> MeetingRows<R, T>
    requires { met ≡ R.met_by reader [] }
    ensures { (bytes : List ℕ) → ⟦<MeetingRows<R, T> as Unfinished>⟧.finish result bytes
        ≡ made_at (λ rows. (reader, rows)) (list_at (number_at w32) (R.reader reader)) bytes }
{
    let rows = MetRows {
        reader,
        rows: Vec::new(alloc),
        met,
    };
    Many::Count(CountWidth::Four, rows)
}
