//! Whether two replicas may talk.
ghost use Rattle.std.specs.Prelude.{◌↔◌, IsTrue};
ghost use Rattle.rds_questions.specs.Greeting.{GreetGives};

use rds_codec::Hello;
use rds_names::{Fault, Roster};

/// Whether the replica with this roster and number may talk to who says hello; else why not.
pub fn greet(roster: &Roster, own: u8, hello: &Hello) -> Result<(), Fault>
    ensures { GreetGives roster.now own hello.now result }
{
    roster.may_meet(&hello.roster)?;
    if own == hello.own {
        return Err(Fault::SameReplica);
    }
    Ok(())
}
