//! What sets of dots answer of each other by their runs alone, without memory.
ghost use Rattle.std.specs.Prelude.{◌≡◌, ◌≤◌, ◌<◌, ◌↔◌, IsTrue, true};
ghost use Rattle.std.specs.FinSet as set;
ghost use Rattle.rds_dots.specs.declared.dot.Dot.{Dot};
ghost use Rattle.rds_dots.specs.Lacking.{IsLacking, NextRun};

use crate::dot::{Dot, MAX_SEQ, Run};
use crate::set::DotSet;

/// Whether two sets have the same dots.
pub fn same<S: DotSet>(left: &S, right: &S) -> bool
    ensures { IsTrue result ↔ (S.contents left.now ≡ S.contents right.now) }
{
    let mut after = None;
    'comparing: loop {
        match (left.run_after(after), right.run_after(after)) {
            (None, None) => return true,
            (Some(run), Some(other)) => {
                if run != other {
                    return false;
                }
                after = Some(Dot {
                    replica: run.replica,
                    seq: run.hi,
                });
            }
            _ => return false,
        }
    }
}

/// Whether each of the dots is of a replica below this number.
pub fn are_below<S: DotSet>(dots: &S, replicas: u16) -> bool
    requires one { 1 ≤ replicas }
    requires most { replicas ≤ 256 }
    ensures { IsTrue result ↔ ((d : Dot) → set.contains (S.contents dots.now) d ≡ true → d.replica < replicas) }
{
    let last = Dot {
        replica: (replicas - 1) as u8,
        seq: MAX_SEQ,
    };
    match dots.run_after(Some(last)) {
        None => true,
        Some(_) => false,
    }
}

/// The least number of a replica's dots that the second set has and the first lacks.
pub fn first_lacking<S: DotSet>(here: &S, there: &S, replica: u8) -> Option<u64>
    ensures { IsLacking (S.contents here.now) (S.contents there.now) replica result }
{
    let mut from = 0;
    'looking: loop {
        let theirs = match next_run(there, replica, from) {
            Some(run) => run,
            None => return None,
        };
        let first = theirs.lo.max(from + 1);
        let ours = match next_run(here, replica, first - 1) {
            Some(run) => run,
            None => return Some(first),
        };
        if first < ours.lo {
            return Some(first);
        }
        if ours.hi < theirs.hi {
            return Some(ours.hi + 1);
        }
        from = theirs.hi;
    }
}

/// The first maximal run of a replica's dots that ends after a number.
fn next_run<S: DotSet>(set: &S, replica: u8, after: u64) -> Option<Run>
    ensures { NextRun (S.contents set.now) replica after result }
{
    let before = Dot {
        replica,
        seq: after,
    };
    match set.run_after(Some(before)) {
        None => None,
        Some(run) => {
            if run.replica == replica {
                Some(run)
            } else {
                None
            }
        }
    }
}
