//! What the law over all replicas stands on, and what follows from it.
ghost use Rattle.std.specs.Prelude.{◌≡◌, ◌↔◌, ◌++◌, List};
ghost use Rattle.rds_dots.specs.Lacking.{dot_of};
ghost use Rattle.rds_life.specs.Life.{entry_of};
ghost use Rattle.rds_state.specs.Made.{entry_made};
ghost use Rattle.rds_world.specs.Coherent.{
  IsCoherent,
  StartsCoherent,
  KeepsCoherence,
  ReplicasAreFriends,
  AnswersMayBeTaken,
  NoDeliveryIsRefused,
  EditsAreSteps,
  StartsWithRosters,
  KeepsRosters,
};
ghost use Rattle.rds_world.specs.Example.{add_to_s, three, lost_and_again};
ghost use Rattle.rds_world.specs.Reached.{
  OfReached,
  OfAnswered,
  ReplicasAreJoins,
  ReplicasExplainTheirDots,
  ReplicasShowTheirUpdates,
  SameUpdatesSameReplicas,
  AnswersBringTheirAskers,
  ReplicasAreCoherent,
  ReplicasStayFriends,
};
ghost use Rattle.rds_world.specs.Stands.{WorldsHaveOneValue};
ghost use Rattle.rds_world.specs.Steps.{StepsHaveOneResult};
ghost use Rattle.rds_world.specs.World.{World, Happening, initial_world, run, Accepted};

/// In a coherent world every two states are compatible, whether in memory, kept, asked from or answered; what is kept
/// lies below memory, and what was sent below what its sender has kept; and what others have of a replica, it has kept.
/// The world without events is coherent, and each event that isn't refused leaves it so, a crash included. The function
/// does nothing: its contract is these laws.
pub fn worlds_stay_coherent()
    ensures start { StartsCoherent }
    ensures step { KeepsCoherence }
{}

/// Each replica's roster names it, and is no longer than the world's. What is kept is no longer than what is in
/// memory, and no shorter than what its replica asked or answered with. No state speaks of a replica that the roster
/// beside it doesn't name. The function does nothing: its contract is these laws.
pub fn rosters_grow()
    ensures start { StartsWithRosters }
    ensures step { KeepsRosters }
{}

/// In a coherent world every two replicas are friends, and no take of an answer is refused but for `Memory`,
/// whatever its asker did since, and however often it was taken before. The function does nothing: its contract is
/// these laws.
pub fn coherent_replicas_are_friends()
    ensures friends { (w : World) → IsCoherent w → ReplicasAreFriends w }
    ensures take { (w : World) → IsCoherent w → AnswersMayBeTaken w }
    ensures accepted { (w : World) → IsCoherent w → NoDeliveryIsRefused w }
{}

/// A world of the model and a roster determine the replicas in memory and as kept, and the bytes of each ask and
/// answer. So what is said of some value of a roster that stands for a world, as when a text of it is too long, is
/// said of the one there is. The function does nothing: its contract is this law.
pub fn worlds_have_one_value()
    ensures { WorldsHaveOneValue }
{}

/// What [`World::step`](crate::World::step) says of its answer and of the world after it is met by no second pair, but
/// that memory may run out. So its contract refuses each wrong result. The function does nothing: its contract is this
/// law.
pub fn a_step_has_one_result()
    ensures { StepsHaveOneResult }
{}

/// What an edit does is determined by its command and the state on which it runs. The function does nothing: its
/// contract is this law.
pub fn edits_are_steps()
    ensures { EditsAreSteps }
{}

/// The replicas that [`simulate`](crate::simulate) answers obey the law, as its clauses `reached` and `stopped` say
/// what they stand for. Where all events happened, each state is the join of the effects of the updates that it holds,
/// and those that hold the same updates are equal; each dot seen is that of exactly one update held; the document is
/// that of the updates; and the bytes of each answer bring its asker the join with what its maker had kept. Wherever
/// the list stopped, every two states are compatible, and every two replicas are friends. The function does nothing:
/// its contract is these laws.
pub fn replicas_obey_the_law()
    ensures joins { OfReached ReplicasAreJoins }
    ensures documents { OfReached ReplicasShowTheirUpdates }
    ensures same { OfReached SameUpdatesSameReplicas }
    ensures dots { OfReached ReplicasExplainTheirDots }
    ensures answers { OfReached AnswersBringTheirAskers }
    ensures coherent { OfAnswered ReplicasAreCoherent }
    ensures friends { OfAnswered ReplicasStayFriends }
{}

/// A run of two lists is the run of the first, and then of the second; so each prefix of an accepted list is
/// accepted. The function does nothing: its contract is these laws.
pub fn runs_go_on()
    ensures run { (es fs : List Happening) (w : World) → run (es ++ fs) w ≡ run fs (run es w) }
    ensures accepted { (es fs : List Happening) (w : World) → Accepted (es ++ fs) w
        ↔ (Accepted es w × Accepted fs (run es w)) }
{}

/// A worked run: a crash loses an edit that another replica had asked for, its dot is used again with another entry,
/// and each answer is taken. The function does nothing: its contract is what holds of this run.
pub fn lost_dots_are_used_again()
    ensures accepted { Accepted lost_and_again (initial_world three) }
    ensures again { entry_of (((run lost_and_again (initial_world three)).memory 1).life (dot_of 0 1))
        ≡ entry_made (add_to_s 2) }
{}
