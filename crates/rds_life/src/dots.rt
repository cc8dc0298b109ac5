//! Sets of dots, from one dot or from those of rows.
ghost use Rattle.std.specs.Prelude.{◌≡◌, ◌≤◌, true, IfOk, IfErr, OnOk, OnErr};
ghost use Rattle.std.specs.FinSet as set;
ghost use Rattle.std.specs.List.{list_all};
ghost use Rattle.rds_names.specs.declared.fault.Fault.TheVariants.{Memory};
ghost use Rattle.rds_dots.specs.Dots.{is_dot, last_of, leads_to};
ghost use Rattle.rds_life.specs.Gathered.{single};
ghost use Rattle.rds_life.specs.Life.{keys};

use crate::live_rows::LiveRows;
use rds_dots::{Dot, DotSet, MAX_SEQ, Run};
use rds_names::Fault;
use std::alloc::Global;

/// Puts a dot into a set.
pub fn insert_dot<S: DotSet>(dots: &mut S, dot: Dot) -> Result<(), Fault>
    requires { is_dot dot ≡ true }
    ensures ok { OnOk result (S.contents dots.new ≡ set.insert (S.contents dots.old) dot) }
    ensures err { OnErr result (S.contents dots.new ≡ S.contents dots.old) }
    ensures memory { IfErr result (λ fault. fault ≡ Memory) }
{
    dots.insert_run(run_of(dot))?;
    Ok(())
}

/// The dots of rows, as a set, into which dots that follow each other go as one run. Rows that ascend only ever insert
/// at its end.
pub fn dots_of<S: DotSet>(alloc: Global, rows: LiveRows<'_>) -> Result<S, Fault>
    requires { list_all is_dot (keys rows) ≡ true }
    ensures ok { IfOk result (λ dots. S.contents dots ≡ set.from_list (keys rows.entry)) }
    ensures memory { IfErr result (λ fault. fault ≡ Memory) }
{
    let mut dots = S::empty(alloc);
    let mut rest = rows;
    let mut run = match rest.next() {
        Some((first, _)) => run_of(first),
        None => return Ok(dots),
    };
    'gathering: loop {
        let dot = match rest.next() {
            Some((dot, _)) => dot,
            None => {
                dots.insert_run(run)?;
                return Ok(dots);
            }
        };
        if goes_on(run, dot) {
            run.hi = dot.seq;
        } else {
            dots.insert_run(run)?;
            run = run_of(dot);
        }
    }
}

/// The run of one dot.
fn run_of(dot: Dot) -> Run
    ensures { result ≡ single dot }
{
    Run {
        replica: dot.replica,
        lo: dot.seq,
        hi: dot.seq,
    }
}

/// Whether the dot is the next after a run.
fn goes_on(run: Run, dot: Dot) -> bool
    requires { run.hi ≤ MAX_SEQ }
    ensures { result ≡ leads_to (last_of run) dot }
{
    run.replica == dot.replica && run.hi + 1 == dot.seq
}
