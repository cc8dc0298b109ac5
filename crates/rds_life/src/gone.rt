//! Rows whose dots are dead in other lives.
ghost use Rattle.std.specs.Prelude.{◌≡◌, ◌≤◌, ◌∷◌, List, true, length, IfOk, IfErr};
ghost use Rattle.std.specs.FinSet as set;
ghost use Rattle.rds_names.specs.declared.entry.Entry.{Entry};
ghost use Rattle.rds_names.specs.declared.fault.Fault.TheVariants.{Memory};
ghost use Rattle.rds_dots.specs.declared.dot.Dot.{Dot};
ghost use Rattle.rds_dots.specs.Ascending.{ascends};
ghost use Rattle.rds_life.specs.Added.{gone_rows, IsGapEnd};
ghost use Rattle.rds_life.specs.Life.{keys};

use crate::live_rows::LiveRows;
use crate::store::Rows;
use rds_dots::{Dot, DotSet, MAX_SEQ};
use rds_names::{Entry, Fault};
use std::alloc::Global;

/// Copies of the rows whose dots the other lives have seen and have no row of. It goes over the rows of
/// seen dots, and leaps the others a gap of the set at a time.
pub fn rows_gone<S: DotSet>(
    alloc: Global,
    rows: LiveRows<'_>,
    seen: &S,
    live: &Rows,
) -> Result<Vec<(Dot, Entry)>, Fault>
    requires { ascends (keys live.now) ≡ true }
    ensures ok { IfOk result (λ gone. gone.items ≡ gone_rows (set.contains (S.contents seen.now)) live.now rows.entry) }
    ensures memory { IfErr result (λ fault. fault ≡ Memory) }
{
    let mut gone = Vec::new(alloc);
    let mut rest = rows;
    'looking: loop {
        let (dot, entry) = match rest.next() {
            Some(row) => row,
            None => return Ok(gone),
        };
        if !seen.contains(dot) {
            rest = past_gap(seen, dot, rest);
        } else if live.find(dot).is_none() {
            gone.push((dot, entry.copy(alloc)?))?;
        }
    }
}

/// Of the rows behind a dot that isn't in the set, those from the set's next dot on.
fn past_gap<'a, S: DotSet>(seen: &S, dot: Dot, mut rows: LiveRows<'a>) -> LiveRows<'a>
    requires rise { ascends (dot ∷ keys rows) ≡ true }
    ensures gone { (live : List (Dot × Entry))
        → let has = set.contains (S.contents seen.now) in gone_rows has live result ≡ gone_rows has live rows.entry }
    ensures rise { ascends (keys result) ≡ true }
    ensures fewer { length result ≤ length rows.entry }
{
    rows.skip_past(gap_end(seen, dot));
    rows
}

/// A dot up to which the set has none after the given one: the last before its next run.
fn gap_end<S: DotSet>(seen: &S, dot: Dot) -> Dot
    ensures { IsGapEnd (S.contents seen.now) dot result }
{
    match seen.run_after(Some(dot)) {
        Some(run) => Dot {
            replica: run.replica,
            seq: run.lo - 1,
        },
        None => Dot {
            replica: u8::MAX,
            seq: MAX_SEQ,
        },
    }
}
