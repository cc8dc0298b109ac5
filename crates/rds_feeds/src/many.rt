//! A count, and that many rows.
ghost use Rattle.std.specs.Prelude.{◌≡◌, ℕ, List, ◌++◌, Result, Ok, MatchOption, IfOk, IfErr};
ghost use Rattle.rds_names.specs.declared.fault.Fault.{Fault};
ghost use Rattle.rds_bytes.specs.Reading.{ReadsExactly, number_at};
ghost use Rattle.rds_feeds.specs.Pieces.{ReadsOn, RefusesAlready};
ghost use Rattle.rds_feeds.specs.Rows.{times, many_finish, width_of};

use crate::unfinished::{Progress, Unfinished};
use rds_bytes::{read_byte, read_u32};
use rds_names::Fault;
use std::alloc::Global;

/// How many bytes a count has.
#[derive(Clone, Copy)]
pub enum CountWidth {
    Two,
    Four,
}

/// A row after which there may be another: what it becomes when it is whole has all rows so far.
pub trait Repeating: Unfinished {
    /// How the next row is read.
    ghost next: { Self.Whole → List ℕ → Result (Self.Whole × List ℕ) Fault };

    /// Begins the next row.
    fn again(rows: Self::Whole) -> Self
        ensures { (more : List ℕ) → Self.finish result more ≡ next rows more };

    /// Reads the next row in the place of those before it, and answers the bytes after it; or nothing, where it is to be
    /// begun as any other value. At most so many more come after it.
    fn read_next<'a>(
        rows: &mut Self::Whole,
        alloc: Global,
        coming: u32,
        bytes: &'a [u8],
    ) -> Result<Option<&'a [u8]>, Fault>
        ensures ok { IfOk result (λ after. MatchOption after (rows.new ≡ rows.old)
            (λ rest. (more : List ℕ) → next rows.old (bytes.now ++ more) ≡ Ok (rows.new, rest.now ++ more))) }
        ensures err { IfErr result (RefusesAlready (λ more. next rows.old (bytes.now ++ more))) };
}

/// A count, and that many rows. No count takes memory: what a row needs is taken when it is there.
#[derive(Drop)]
pub enum Many<U, W> {
    /// The count is still to come.
    Count(CountWidth, W),
    /// So many rows are still to come.
    Rows(u32, W),
    /// A row is being read, and so many come after it.
    Row(U, u32),
}

fn read_u16(bytes: &[u8]) -> Result<(u32, &[u8]), Fault>
    ensures { ReadsExactly (λ x. (x.0, x.1.now)) result (number_at (width_of CountWidth.Two) bytes.now) }
{
    if bytes.len() < 2 {
        return Err(Fault::Cut);
    }
    let (front, rest) = bytes.split_at(2);
    let number = u16::from_be_bytes([front[0], front[1]]);
    Ok((u32::from(number), rest))
}

fn read_count(width: CountWidth, bytes: &[u8]) -> Result<(u32, &[u8]), Fault>
    ensures { ReadsExactly (λ x. (x.0, x.1.now)) result (number_at (width_of width) bytes.now) }
{
    match width {
        CountWidth::Two => read_u16(bytes),
        CountWidth::Four => read_u32(bytes),
    }
}

/// Reads so many rows as far as the bytes go.
fn read_rows<'a, U: Repeating>(
    alloc: Global,
    count: u32,
    rows: U::Whole,
    bytes: &'a [u8],
) -> Result<(Progress<Many<U, U::Whole>, U::Whole>, &'a [u8]), Fault>
    ensures ok { IfOk result (λ x. ReadsOn (many_finish U.finish U.next)
        (λ more. times U.next count rows (bytes.now ++ more)) x.0 x.1.now) }
    ensures err { IfErr result (RefusesAlready (λ more. times U.next count rows (bytes.now ++ more))) }
{
    let mut left = count;
    let mut rows = rows;
    let mut rest = bytes;
    'rows: while left > 0 {
        left -= 1;
        let next = U::read_next(&mut rows, alloc, left, rest)?;
        if let Some(after) = next {
            rest = after;
            continue;
        }
        let row = U::again(rows);
        let (progress, after) = row.read_on(alloc, rest)?;
        match progress {
            Progress::More(row) => return Ok((Progress::More(Many::Row(row, left)), after)),
            Progress::Whole(next) => rows = next,
        }
        rest = after;
    }
    Ok((Progress::Whole(rows), rest))
}

impl<U: Repeating> Unfinished for Many<U, U::Whole> {
    type Whole = U::Whole;

    ghost finish = { many_finish U.finish U.next };

    fn read_on<'a>(
        self,
        alloc: Global,
        bytes: &'a [u8],
    ) -> Result<(Progress<Self, Self::Whole>, &'a [u8]), Fault> {
        match self {
            Many::Count(width, rows) => match read_count(width, bytes) {
                Ok((count, rest)) => read_rows(alloc, count, rows, rest),
                Err(_) => Ok((Progress::More(Many::Count(width, rows)), bytes)),
            },
            Many::Rows(left, rows) => read_rows(alloc, left, rows, bytes),
            Many::Row(row, left) => {
                let (progress, rest) = row.read_on(alloc, bytes)?;
                match progress {
                    Progress::More(row) => Ok((Progress::More(Many::Row(row, left)), rest)),
                    Progress::Whole(rows) => read_rows(alloc, left, rows, rest),
                }
            }
        }
    }
}
