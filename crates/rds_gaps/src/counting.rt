//! How many dots runs have.
ghost use Rattle.std.specs.Prelude.{◌≡◌, ◌+◌, ◌-◌, true, IsTrue, sum_by};
ghost use Rattle.rds_dots.specs.Runs.{is_run, are_maximal};

use rds_dots::Run;

/// How many dots a run has.
fn len(run: &Run) -> u64
    requires { IsTrue (is_run run.now) }
    ensures { result ≡ run.now.hi + 1 - run.now.lo }
{
    run.hi + 1 - run.lo
}

/// How many dots runs have.
pub(crate) fn count(runs: &[Run]) -> u64
    requires { IsTrue (are_maximal runs.now) }
    ensures { result ≡ sum_by (λ r. r.hi + 1 - r.lo) runs.now }
{
    let mut count = 0;
    for run in runs {
        count += len(run);
    }
    count
}
