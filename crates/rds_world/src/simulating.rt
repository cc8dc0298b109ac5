//! Lists of events.
ghost use Rattle.std.specs.Prelude.{◌≡◌, ◌≤◌, IfOk, IfErr, MatchResult, length};
ghost use Rattle.rds_names.specs.Roster.{Begins};
ghost use Rattle.rds_world.specs.Law.{Afterwards, Law};
ghost use Rattle.rds_world.specs.Replies.{EachAnswerIsCertified};
ghost use Rattle.rds_world.specs.Simulation.{Reaches, Stops};

use crate::event::Event;
use crate::world::World;
use rds_dots::DotSet;
use rds_names::{Fault, Roster};
use std::alloc::Global;

/// All replicas of the roster after these events, in order. Where one is refused: the world before the first that is,
/// and why. Where there is no memory for the replicas: a world without any, and `Memory`.
///
/// The law is of every list of events none of which is refused, so of those that happened. Each state in memory and as
/// kept is the join of the effects of exactly the updates that it holds, as these follow from the events alone, and its
/// document is theirs, whatever was lost in crashes, came late, twice or never. What it says of the replicas that are
/// answered is the contract of [`replicas_obey_the_law`](crate::replicas_obey_the_law). The bytes of each answer bring
/// a certificate that is accepted against what those of its ask bring.
pub fn simulate<S: DotSet>(
    alloc: Global,
    roster: Roster,
    events: &[Event],
) -> Result<World<S>, (World<S>, Fault)>
    ensures reached { IfOk result (λ world. Reaches roster events.now world) }
    ensures stopped { IfErr result (λ e. Stops roster events.now e.0 e.1) }
    ensures roster { MatchResult result (λ world. Begins roster world.roster) (λ e. Begins roster e.0.roster) }
    ensures few { length roster.names ≤ 256 }
    ensures certified { MatchResult result EachAnswerIsCertified (λ e. EachAnswerIsCertified e.0) }
    ensures law { Afterwards Law }
{
    go_through(alloc, roster, events)
}

fn go_through<S: DotSet>(
    alloc: Global,
    roster: Roster,
    events: &[Event],
) -> Result<World<S>, (World<S>, Fault)>
    ensures reached { IfOk result (λ world. Reaches roster events.now world) }
    ensures stopped { IfErr result (λ e. Stops roster events.now e.0 e.1) }
    ensures roster { MatchResult result (λ world. Begins roster world.roster) (λ e. Begins roster e.0.roster) }
    ensures few { length roster.names ≤ 256 }
{
    let mut world = match World::open(alloc, roster) {
        Ok(world) => world,
        Err(stopped) => return Err(stopped),
    };
    'happening: for event in events {
        match world.step(alloc, event) {
            Ok(_) => {}
            Err(fault) => return Err((world, fault)),
        }
    }
    Ok(world)
}
