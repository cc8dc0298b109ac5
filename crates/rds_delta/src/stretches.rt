//! Going over several sets of dots at once, by stretches in which each is alike.
ghost use Rattle.std.specs.Prelude.{◌≡◌, ◌≤◌, true, false};
ghost use Rattle.rds_dots.specs.Dots.{comes_after, is_dot, last_of};
ghost use Rattle.rds_delta.specs.Parts.{IsNextPart, IsStretch, seq_after};

use rds_dots::{Dot, DotSet, MAX_SEQ, Run};

/// Whether a set has a dot, and the last number up to which that stays so.
#[derive(Clone, Copy)]
pub struct Stretch {
    /// Whether the set has the dots.
    pub has: bool,
    /// The last number of them.
    pub until: u64,
}

/// How far the set goes on alike from the dot.
pub fn stretch_from<S: DotSet>(set: &S, dot: Dot) -> Stretch
    requires { is_dot dot ≡ true }
    ensures { IsStretch (S.contents set.now) dot result.has result.until }
{
    let before = Dot {
        replica: dot.replica,
        seq: dot.seq - 1,
    };
    let run = match set.run_after(Some(before)) {
        Some(run) => run,
        None => return lacking(MAX_SEQ),
    };
    if run.replica != dot.replica {
        return lacking(MAX_SEQ);
    }
    if run.lo > dot.seq {
        return lacking(run.lo - 1);
    }
    Stretch {
        has: true,
        until: run.hi,
    }
}

/// Dots up to a number that a set lacks.
fn lacking(until: u64) -> Stretch
    ensures has { result.has ≡ false }
    ensures until { result.until ≡ until }
{
    Stretch { has: false, until }
}

/// The part of the set's first maximal run that comes after the given dot, `None` where no dot of the set does.
pub fn part_after<S: DotSet>(set: &S, after: Option<Dot>) -> Option<Run>
    ensures { IsNextPart (S.contents set.now) after result }
{
    match set.run_after(after) {
        None => None,
        Some(run) => Some(Run {
            replica: run.replica,
            lo: first_seq(run, after),
            hi: run.hi,
        }),
    }
}

/// The first number of the run that comes after the given dot.
fn first_seq(run: Run, after: Option<Dot>) -> u64
    requires fits { run.hi ≤ MAX_SEQ }
    requires ends { comes_after after (last_of run) ≡ true }
    ensures { result ≡ seq_after run after }
{
    match after {
        None => run.lo,
        Some(dot) => {
            if dot.replica == run.replica && run.lo <= dot.seq {
                dot.seq + 1
            } else {
                run.lo
            }
        }
    }
}
