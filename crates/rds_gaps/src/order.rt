//! How runs stand to each other: replica after replica, and by number in each.
ghost use Rattle.std.specs.Prelude.{◌≡◌, ◌+◌, nat_lt, nat_le, true, IsTrue, Some};
ghost use Rattle.rds_dots.specs.Dots.{comes_after, last_of};
ghost use Rattle.rds_dots.specs.Runs.{start, stop, is_run};

use rds_dots::{Dot, Run};

/// Whether a run ends before another begins.
pub(crate) fn ends_before(run: &Run, next: &Run) -> bool
    requires run_is { IsTrue (is_run run.now) }
    requires next_is { IsTrue (is_run next.now) }
    ensures { result ≡ nat_lt (stop run.now) (start next.now) }
{
    run.replica < next.replica || run.replica == next.replica && run.hi < next.lo
}

/// Whether a run ends before another begins, and they don't touch.
pub(crate) fn is_apart(run: &Run, next: &Run) -> bool
    requires run_is { IsTrue (is_run run.now) }
    requires next_is { IsTrue (is_run next.now) }
    ensures { result ≡ nat_lt (stop run.now + 1) (start next.now) }
{
    run.replica < next.replica || run.replica == next.replica && run.hi + 1 < next.lo
}

/// Whether a run begins no later than another.
pub(crate) fn begins_first(run: &Run, next: &Run) -> bool
    requires run_is { IsTrue (is_run run.now) }
    requires next_is { IsTrue (is_run next.now) }
    ensures { result ≡ nat_le (start run.now) (start next.now) }
{
    run.replica < next.replica || run.replica == next.replica && run.lo <= next.lo
}

/// Whether a run ends past another's end.
pub(crate) fn ends_past(run: &Run, other: &Run) -> bool
    requires run_is { IsTrue (is_run run.now) }
    requires other_is { IsTrue (is_run other.now) }
    ensures { result ≡ nat_lt (stop other.now) (stop run.now) }
{
    other.replica < run.replica || other.replica == run.replica && other.hi < run.hi
}

/// Whether a run's last dot comes after the given one.
pub(crate) fn ends_after(run: &Run, dot: Dot) -> bool
    ensures { result ≡ comes_after (Some dot) (last_of run.now) }
{
    let last = Dot {
        replica: run.replica,
        seq: run.hi,
    };
    dot < last
}
