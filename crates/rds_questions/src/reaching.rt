//! Whether a state and a digest have come as far as one another.
ghost use Rattle.std.specs.Prelude.{◌≡◌, ◌≤◌, ◌↔◌, IsTrue, IfOk, IfErr};
ghost use Rattle.rds_counts.specs.Counted.{number};
ghost use Rattle.rds_counts.specs.Place.{Place};
ghost use Rattle.rds_delta.specs.Digested.{ranks_in};
ghost use Rattle.rds_delta.specs.Least.{IsNothing, least};
ghost use Rattle.rds_names.specs.declared.fault.Fault.TheVariants.{Memory};
ghost use Rattle.rds_state.specs.Value.{coordinates};
ghost use Rattle.rds_questions.specs.Lacking.{AreRowsReached, StayLive};
ghost use Rattle.rds_questions.specs.Taking.{HasAllOf};

use rds_counts::{CountRow, Counts};
use rds_delta::{Digest, is_inside};
use rds_dots::{DotSet, same};
use rds_names::Fault;
use rds_state::State;
use std::alloc::Global;

/// Whether no number of the rows is above the one here.
fn are_rows_reached(here: &Counts, rows: &[CountRow]) -> bool
    ensures { IsTrue result ↔ AreRowsReached (number here.now) rows.now }
{
    let mut rest = rows;
    'comparing: while let Some((row, later)) = rest.split_first() {
        let (p, n) = here.pair(&row.key, row.replica);
        if p < row.p || n < row.n {
            return false;
        }
        rest = later;
    }
    true
}

/// Whether no number that is reported is above the one here.
fn are_numbers_reached(here: &Counts, told: &Counts) -> bool
    ensures { IsTrue result ↔ ((q : Place) → number told.now q ≤ number here.now q) }
{
    are_rows_reached(here, told.rows())
}

/// Whether the live dots of one that the other has seen are live there too.
fn stay_live<S: DotSet>(alloc: Global, live: &S, seen: &S, still: &S) -> Result<bool, Fault>
    ensures ok { IfOk result
        (λ stay. IsTrue stay ↔ StayLive (S.contents live.now) (S.contents seen.now) (S.contents still.now)) }
    ensures memory { IfErr result (λ fault. fault ≡ Memory) }
{
    let others = live.minus(alloc, still)?;
    let unseen = others.minus(alloc, seen)?;
    Ok(same(&others, &unseen))
}

/// Whether the state has come as far as the digest says. The live dots are gathered only where seen dots and numbers
/// leave it open.
pub fn has_all_of<S: DotSet>(
    alloc: Global,
    state: &State<S>,
    digest: &Digest<S>,
) -> Result<bool, Fault>
    ensures ok { IfOk result (λ has. IsTrue has ↔ HasAllOf digest.now state.now) }
    ensures memory { IfErr result (λ fault. fault ≡ Memory) }
{
    let lives = state.lives();
    let seen = lives.seen();
    let told = digest.seen();
    if !is_inside(told, seen) {
        return Ok(false);
    }
    if !are_numbers_reached(state.counts(), digest.counts()) {
        return Ok(false);
    }
    let live = lives.live_dots(alloc)?;
    stay_live(alloc, &live, told, digest.live())
}

/// Whether the digest says that all of the state is there: the same the other way round.
pub fn has_nothing_for<S: DotSet>(
    alloc: Global,
    state: &State<S>,
    digest: &Digest<S>,
) -> Result<bool, Fault>
    ensures ok { IfOk result
        (λ nothing. IsTrue nothing ↔ IsNothing (least (coordinates state.now) (ranks_in digest.now))) }
    ensures memory { IfErr result (λ fault. fault ≡ Memory) }
{
    let lives = state.lives();
    let seen = lives.seen();
    let told = digest.seen();
    if !is_inside(seen, told) {
        return Ok(false);
    }
    if !are_numbers_reached(digest.counts(), state.counts()) {
        return Ok(false);
    }
    let live = lives.live_dots(alloc)?;
    stay_live(alloc, digest.live(), seen, &live)
}
