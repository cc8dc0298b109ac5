//! The next replica of a group.
ghost use Rattle.std.specs.Prelude.{IfErr, IfOk};
ghost use Rattle.rds_offline.specs.Next.{IsNextOf, RefusesNext};

use rds_dots::DotSet;
use rds_names::{Fault, Name};
use rds_state::Replica;
use std::alloc::Global;

/// The replica of this name in the group of another, with all that the other has seen. Refuses `NoSuch` where the name
/// is none of the group's, and `SameReplica` where it is used: where it is the other's own, or a dot, live or dead, or
/// a counter's number of that replica was seen. So a name isn't used twice by a slip.
pub fn next_replica<S: DotSet>(
    alloc: Global,
    source: &Replica<S>,
    name: Name,
) -> Result<Replica<S>, Fault>
    ensures next { IfOk result (IsNextOf source.now name) }
    ensures fault { IfErr result (RefusesNext source.now name) }
{
    let Some(own) = source.roster().number_of(name) else {
        return Err(Fault::NoSuch);
    };
    if own == source.own() {
        return Err(Fault::SameReplica);
    }
    let roster = source.roster().copy(alloc)?;
    let mut next = Replica::new(alloc, roster, own)?;
    match next.take(source.state()) {
        Ok(()) => Ok(next),
        Err(Fault::OwnAhead(_)) => Err(Fault::SameReplica),
        Err(fault) => Err(fault),
    }
}
