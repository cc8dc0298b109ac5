//! A replica that takes all that another has seen.
ghost use Rattle.std.specs.Prelude.{◌≡◌, length, IfErr, IfOk, OnErr, OnOk};
ghost use Rattle.rds_state.specs.Coordinates.{join};
ghost use Rattle.rds_state.specs.Fits.{Fits};
ghost use Rattle.rds_state.specs.Value.{coordinates};
ghost use Rattle.rds_offline.specs.Merging.{IsLackingPart, IsMergedFrom, RefusesMerge};

use rds_delta::{Digest, delta};
use rds_dots::DotSet;
use rds_names::Fault;
use rds_state::{Replica, State};
use std::alloc::Global;

/// Joins all that another replica has seen into one, and answers what that one lacked, as a delta: joined into what it
/// was, that alone gives what it is. The longer of the two rosters is kept.
///
/// Refuses as [`Replica::take_with`] does: `WrongGroup`, `WrongRoster`, `OwnAhead` where the other has something of this
/// replica's own that it lacks, `Conflict` and `Memory`.
///
/// The other's state is taken whole, and not only what is lacking here: so a dot that is live at both with different
/// entries is found.
pub fn merge<S: DotSet>(
    alloc: Global,
    held: &mut Replica<S>,
    source: &Replica<S>,
) -> Result<State<S>, Fault>
    ensures merged { OnOk result (IsMergedFrom source.now held.old held.new) }
    ensures lacking { IfOk result (IsLackingPart source.now held.old) }
    ensures joined { IfOk result
        (λ lacking. coordinates held.new.state ≡ join (coordinates held.old.state) (coordinates lacking)) }
    ensures fits { IfOk result (λ lacking. Fits (length held.new.roster.names) (coordinates lacking)) }
    ensures fault { IfErr result (RefusesMerge source.now held.old) }
    ensures err { OnErr result (held.new ≡ held.old) }
{
    let digest = Digest::of(alloc, held.state())?;
    let lacking = delta(alloc, source.state(), &digest)?;
    let roster = source.roster().copy(alloc)?;
    held.take_with(roster, source.state())?;
    Ok(lacking)
}
