//! The dots of a set that are dead here.
ghost use Rattle.std.specs.Prelude.{◌≡◌, ◌+◌, ◌<◌, ◌≤◌, ◌∷◌, ◌&&◌, ℕ, true, false, IfOk, IfErr, IsOk};
ghost use Rattle.std.specs.FinMap as map;
ghost use Rattle.std.specs.FinSet as set;
ghost use Rattle.rds_names.specs.declared.fault.Fault.TheVariants.{Memory};
ghost use Rattle.rds_dots.specs.declared.dot.Dot.{Dot};
ghost use Rattle.rds_dots.specs.Ascending.{ascends};
ghost use Rattle.rds_dots.specs.Dots.{IsRun, first_of};
ghost use Rattle.rds_dots.specs.Drawn.{leads_by};
ghost use Rattle.rds_dots.specs.Lacking.{dot_of};
ghost use Rattle.rds_dots.specs.Listed.{lists};
ghost use Rattle.rds_life.specs.Life.{is_dead, keys};
ghost use Rattle.rds_delta.specs.DeadParts.{IsDeadTo};
ghost use Rattle.rds_delta.specs.Next.{is_live};

use crate::step::lifeless_until;
use crate::stretches::{Stretch, part_after, stretch_from};
use rds_dots::{Dot, DotSet, MAX_SEQ, Run};
use rds_life::Lives;
use rds_names::{Entry, Fault};
use std::alloc::Global;

/// The dots of a set that are dead here: a few look-ups for each part of a run that is alike here.
pub fn dots_killed<S: DotSet>(alloc: Global, lives: &Lives<S>, live: &S) -> Result<S, Fault>
    ensures ok { IfOk result
        (λ dots. (d : Dot) → set.contains (S.contents dots) d
        ≡ (is_dead (map.get lives.now d) && set.contains (S.contents live.now) d)) }
    ensures memory { IfErr result (λ fault. fault ≡ Memory) }
    ensures nothing { ((d : Dot) → (is_dead (map.get lives.now d) && set.contains (S.contents live.now) d) ≡ false)
        → IsOk result }
{
    let mut killed = S::empty(alloc);
    let mut after = None;
    'killing: loop {
        let part = match part_after(live, after) {
            Some(part) => part,
            None => return Ok(killed),
        };
        let dead = dead_from(lives, part);
        if dead.has {
            killed.insert_run(Run {
                replica: part.replica,
                lo: part.lo,
                hi: dead.until,
            })?;
        }
        after = Some(Dot {
            replica: part.replica,
            seq: dead.until,
        });
    }
}

/// Whether the first dot of a run is dead, and the last number of the run up to which the dots are like it.
fn dead_from<S: DotSet>(lives: &Lives<S>, run: Run) -> Stretch
    requires { IsRun run }
    ensures { IsDeadTo lives.now run result.has result.until }
{
    let dot = Dot {
        replica: run.replica,
        seq: run.lo,
    };
    match lifeless_until(lives, dot) {
        None => Stretch {
            has: false,
            until: live_until(lives, run),
        },
        Some(until) => {
            let seen = stretch_from(lives.seen(), dot);
            Stretch {
                has: seen.has,
                until: run.hi.min(until).min(seen.until),
            }
        }
    }
}

/// A number of a run up to which the dots after its first one are live, where that one is: the last such number where
/// the dead dots are kept, or the rows are in a list.
fn live_until<S: DotSet>(lives: &Lives<S>, run: Run) -> u64
    requires { IsRun run }
    ensures from { run.lo ≤ result }
    ensures within { result ≤ run.hi }
    ensures live { (n : ℕ) → run.lo < n → n ≤ result → is_live lives.now (dot_of run.replica n) ≡ true }
{
    let first = Dot {
        replica: run.replica,
        seq: run.lo,
    };
    if let Some(until) = lives.live_until(first) {
        return until.min(run.hi);
    }
    let rows = match lives.live().as_slice() {
        Some(rows) => rows,
        None => return run.lo,
    };
    match rows.binary_search_by_key(&first, |row| row.0) {
        Ok(at) => in_line(run, rows.split_at(at + 1).1),
        Err(_) => run.lo,
    }
}

/// The last number of a run up to which the dots after its first one are those that the rows begin with. Where one of
/// these is as far past the first as it comes later in the rows, those between are too: a binary search.
fn in_line(run: Run, rows: &[(Dot, Entry)]) -> u64
    requires run { IsRun run }
    requires rise { ascends (first_of run ∷ keys rows.now) ≡ true }
    ensures from { run.lo ≤ result }
    ensures within { result ≤ run.hi }
    ensures live { (n : ℕ) → run.lo < n → n ≤ result → lists (keys rows.now) (dot_of run.replica n) ≡ true }
{
    let mut low = 0;
    let mut high = rows.len().min((run.hi - run.lo) as usize);
    'searching: while low < high {
        let middle = low + (high - low) / 2;
        if is_ahead(run, middle as u64 + 1, rows[middle].0) {
            low = middle + 1;
        } else {
            high = middle;
        }
    }
    run.lo + low as u64
}

/// Whether a dot is so many numbers past a run's first.
fn is_ahead(run: Run, steps: u64, dot: Dot) -> bool
    requires { run.lo + steps ≤ MAX_SEQ }
    ensures { result ≡ leads_by steps (first_of run) dot }
{
    run.replica == dot.replica && run.lo + steps == dot.seq
}
