//! The laws of questions and responses.
ghost use Rattle.std.specs.Prelude.{ℕ};
ghost use Rattle.rds_codec.specs.Laws.{StandApart};
ghost use Rattle.rds_questions.specs.Forks.{ForksAreTold, NoOtherForksAreTold};
ghost use Rattle.rds_questions.specs.Hashed.{EqualDigestsTellEqualStates, EqualHashesTellEqualMarks, EqualHashesTellEqualQuestions};
ghost use Rattle.rds_questions.specs.Lacking.{LevelReplicasLackNothing};
ghost use Rattle.rds_questions.specs.Laws.{AreToldApart, DeltasAreLeast, HaveOneResponse, ReplicasAskWell, ResponsesAreReceived};
ghost use Rattle.rds_questions.specs.Questions.{question_kind};
ghost use Rattle.rds_questions.specs.Responses.{response_kind};

/// What a replica with a text asks is a question, and tells of each dot and number how far the replica has come. The
/// function does nothing: its contract is this law.
pub fn replicas_ask_well()
    ensures { ReplicasAskWell }
{}

/// There is one response of a replica to a question. Where the replica has a text and may talk to who asks, its response,
/// within the limit, is read again and judged good against the question. What it brings is exactly what the one has and
/// the other lacked, and the longer roster. The function does nothing: its contract is these laws.
pub fn responses_are_received()
    ensures one { HaveOneResponse }
    ensures received { ResponsesAreReceived }
    ensures least { DeltasAreLeast }
{}

/// No text of a question begins another, nor does one of a response to as many replicas, and each has one value. No text
/// of a question, of a response and of a snapshot begins one of the others. The function does nothing: its contract is
/// these laws.
pub fn texts_are_told_apart()
    ensures questions { StandApart question_kind }
    ensures responses { (askers : ℕ) → StandApart (response_kind askers) }
    ensures apart { AreToldApart }
{}

/// Two questions of one hash tell the same roster and the same digest, or two different texts with one SHA-256 are in
/// hand. Two states of one digest, in which no dot has two entries, are one state. So replicas that ask with one hash and
/// come from one history have one mark: where the marks differ, their histories are forked. The function does nothing:
/// its contract is these laws.
pub fn equal_hashes_tell_equal_questions()
    ensures questions { EqualHashesTellEqualQuestions }
    ensures states { EqualDigestsTellEqualStates }
    ensures marks { EqualHashesTellEqualMarks }
{}

/// A response tells a fork where who answered and who took would ask the same, and have other marks. Where no dot of
/// their states has two entries it tells none, or two different texts with one SHA-256 are in hand. The function does
/// nothing: its contract is these laws.
pub fn forks_are_told()
    ensures told { ForksAreTold }
    ensures only { NoOtherForksAreTold }
{}

/// A replica and one that asked it both lack nothing exactly where they have the same roster and the same digest. The
/// function does nothing: its contract is this law.
pub fn level_replicas_lack_nothing()
    ensures { LevelReplicasLackNothing }
{}
