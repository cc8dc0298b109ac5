//! Runs of seen dots, read with their live ones.
ghost use Rattle.std.specs.Prelude.{◌≡◌, ◌≤◌, ◌<◌, ◌-◌, ℕ, true, Some, List, ◌∷◌, ◌++◌, IfOk};
ghost use Rattle.std.specs.List.{AllByRecursion};
ghost use Rattle.std.specs.FinSet as set;
ghost use Rattle.rds_dots.specs.declared.dot.Dot.{Dot};
ghost use Rattle.rds_dots.specs.declared.dot.Run.{Run};
ghost use Rattle.rds_dots.specs.declared.dot.TheConstants.{MAX_SEQ};
ghost use Rattle.rds_dots.specs.Dots.{Dots, comes_after};
ghost use Rattle.rds_dots.specs.Runs.{are_maximal};
ghost use Rattle.rds_bytes.specs.Packed.{packed_text};
ghost use Rattle.rds_briefs.specs.BriefTexts.{runs_text};
ghost use Rattle.rds_briefs.specs.Readers.{OrMemory};
ghost use Rattle.rds_briefs.specs.RunsRead.{RunsAreRead};

use crate::reading::{read_lives, take_packed};
use rds_bytes::read_byte;
use rds_dots::{Dot, DotSet, MAX_SEQ, Run};
use rds_names::Fault;
use std::alloc::Global;

/// Whose run it is that begins with a number, one of so many replicas, and the number that it ends with.
fn read_place(replicas: u16, lo: u64, bytes: &[u8]) -> Result<((u8, u64), &[u8]), Fault>
    ensures rises { IfOk result (λ x. lo ≤ x.0.1) }
    ensures most { IfOk result (λ x. x.0.1 ≤ MAX_SEQ) }
    ensures below { IfOk result (λ x. x.0.0 < replicas) }
    ensures byte { IfOk result (λ x. x.0.0 < 256) }
    ensures text { (replica hi : ℕ) (rest : List ℕ) → replica < replicas → lo ≤ hi → hi ≤ MAX_SEQ
        → bytes.now ≡ replica ∷ (packed_text (hi - lo) ++ rest)
        → OrMemory (λ x. (x.0.0 ≡ replica) × ((x.0.1 ≡ hi) × (x.1.now ≡ rest))) result }
{
    let (replica, rest) = read_byte(bytes)?;
    let (more, rest) = take_packed(rest)?;
    if replicas <= u16::from(replica) || MAX_SEQ < lo || MAX_SEQ - lo < more {
        return Err(Fault::Bad);
    }
    Ok(((replica, lo + more), rest))
}

/// Whether a dot comes after another.
fn is_after(end: Dot, first: Dot) -> bool
    ensures { result ≡ comes_after (Some end) first }
{
    end < first
}

/// The seen dots and the live ones of the runs at the front of bytes, of so many replicas.
pub fn read_runs<'a, S: DotSet>(
    alloc: Global,
    replicas: u16,
    bytes: &'a [u8],
) -> Result<((S, S), &'a [u8]), Fault>
    ensures below { IfOk result (λ x. (d : Dot) → set.contains (S.contents x.0.0) d ≡ true → d.replica < replicas) }
    ensures text { (rs : List Run) (lives : Dots) (rest : List ℕ) → are_maximal rs ≡ true
        → AllByRecursion (λ (r : Run). r.replica < replicas) rs → bytes.now ≡ runs_text lives rs ++ rest
        → OrMemory (λ x. (x.1.now ≡ rest) × RunsAreRead rs lives (S.contents x.0.0) (S.contents x.0.1)) result }
{
    let mut seen = S::empty(alloc);
    let mut live = S::empty(alloc);
    let mut rest = bytes;
    let mut end = Dot { replica: 0, seq: 0 };
    'reading: loop {
        let (lo, after) = take_packed(rest)?;
        if lo == 0 {
            return Ok(((seen, live), after));
        }
        let ((replica, hi), after) = read_place(replicas, lo, after)?;
        let first = Dot { replica, seq: lo };
        if !is_after(end, first) {
            return Err(Fault::Bad);
        }
        seen.insert_run(Run { replica, lo, hi })?;
        rest = read_lives(&mut live, first, hi + 1 - lo, after)?;
        end = Dot { replica, seq: hi };
    }
}
