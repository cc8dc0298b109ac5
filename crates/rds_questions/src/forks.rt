//! Whether a response tells a fork.
ghost use Rattle.std.specs.Prelude.{◌↔◌, IsTrue, IfErr, IfOk};
ghost use Rattle.rds_questions.specs.Forks.{TellsFork};
ghost use Rattle.rds_questions.specs.Tags.{RefusesTag};

use crate::receiving::Received;
use crate::tags::Tag;
use rds_dots::DotSet;
use rds_names::Fault;
use rds_state::Replica;
use std::alloc::Global;

/// Whether a replica and the one whose response this was are forked: when that one answered, it had seen what the
/// replica has, and held something else. So it is asked once the replica took what was received. A digest whose brief
/// is above the limit has no tag (`TooLong`).
pub fn tells_fork<S: DotSet>(
    alloc: Global,
    held: &Replica<S>,
    received: &Received<S>,
) -> Result<bool, Fault>
    ensures told { IfOk result (λ told. IsTrue told ↔ TellsFork held.now received.now) }
    ensures fault { IfErr result (RefusesTag held.now) }
{
    let own = Tag::of(alloc, held)?;
    Ok(received.tag.is_fork_of(&own))
}
