//! What two replicas lack of one another's.
ghost use Rattle.std.specs.Prelude.{◌≡◌, ◌↔◌, false, IfOk, IfErr};
ghost use Rattle.rds_names.specs.declared.fault.Fault.TheVariants.{Memory};
ghost use Rattle.rds_questions.specs.Lacking.{LacksGives, LacksNothingHere, LacksNothingThere};

use crate::greeting::greet;
use crate::questions::Question;
use crate::reaching::{has_all_of, has_nothing_for};
use rds_dots::DotSet;
use rds_names::Fault;
use rds_state::Replica;
use std::alloc::Global;

/// What a replica and one that asked it lack of one another's.
#[derive(Clone, Copy, Debug, PartialEq, Eq)]
pub struct Lacks {
    /// The replica lacks something that the one that asked has.
    pub here: bool,
    /// The one that asked lacks something that the replica has.
    pub there: bool,
}

/// Whether the replica lacks something of what a question tells.
fn lacks_here<S: DotSet>(
    alloc: Global,
    held: &Replica<S>,
    question: &Question<S>,
) -> Result<bool, Fault>
    ensures ok { IfOk result (λ lacks. (lacks ≡ false) ↔ LacksNothingHere question.now held.now) }
    ensures memory { IfErr result (λ fault. fault ≡ Memory) }
{
    if held.roster().len() < question.hello.roster.len() {
        return Ok(true);
    }
    let has_all = has_all_of(alloc, held.state(), &question.digest)?;
    Ok(!has_all)
}

/// Whether the one that asked lacks something of what the replica holds.
fn lacks_there<S: DotSet>(
    alloc: Global,
    held: &Replica<S>,
    question: &Question<S>,
) -> Result<bool, Fault>
    ensures ok { IfOk result (λ lacks. (lacks ≡ false) ↔ LacksNothingThere question.now held.now) }
    ensures memory { IfErr result (λ fault. fault ≡ Memory) }
{
    if question.hello.roster.len() < held.roster().len() {
        return Ok(true);
    }
    let nothing = has_nothing_for(alloc, held.state(), &question.digest)?;
    Ok(!nothing)
}

/// What the replica lacks of what a question tells, and what the one that asked lacks of the replica's: each a component,
/// or a name of the roster. So it is known whether to ask back, and whether to respond. Both lack nothing exactly where
/// they are level.
///
/// Who asks is refused as [`respond`](crate::respond) refuses it (`WrongGroup`, `WrongRoster`, `SameReplica`), or memory
/// runs out.
pub fn lacks_of<S: DotSet>(
    alloc: Global,
    held: &Replica<S>,
    question: &Question<S>,
) -> Result<Lacks, Fault>
    ensures { LacksGives question.now held.now result }
{
    greet(held.roster(), held.own(), &question.hello)?;
    let here = lacks_here(alloc, held, question)?;
    let there = lacks_there(alloc, held, question)?;
    Ok(Lacks { here, there })
}
