//! The laws of sessions of files, and of questions and answers that go as texts.
ghost use Rattle.rds_commands.specs.Changing.{EditingsAreEdits, LinesAreEdits, MergesAreTakes};
ghost use Rattle.rds_commands.specs.Letters.{AnswersAreAnswers, QuestionsAreAsks, TakesAreTakes};
ghost use Rattle.rds_commands.specs.Rosters.{CopiesAreTakes, GrowthsAreGrows, InitsAreStarts};
ghost use Rattle.rds_commands.specs.Sessions.{LevelForksAreTold, ReadingsAreAsks, SessionsAreAnswered};
ghost use Rattle.rds_commands.specs.Sessions.{SettlingsAreTakes};
ghost use Rattle.rds_world.specs.Replicas.{AnswersStay, AsksStay};

/// A session of two files is events of the model of all replicas, whatever commands change the files meanwhile. Each
/// side reads its file: where that holds what the model's replica has kept, the replica asks. What the other receives
/// is an answer of the model, from what the one had kept when it asked, as
/// [`two_sessions`](rds_session::two_sessions) says. Where its file then takes that, whatever happened since, the
/// replica was read, took the answer, and was saved: the file holds what the model's replica has kept by now. So the
/// law over all that may happen holds of sessions too. The function does nothing: its contract is these laws.
pub fn sessions_are_events()
    ensures reads { ReadingsAreAsks }
    ensures asks_stay { AsksStay }
    ensures answers { SessionsAreAnswered }
    ensures answers_stay { AnswersStay }
    ensures takes { SettlingsAreTakes }
{}

/// The replicas that two files hold are forked, as `pair` tells it, wherever they have one roster, one digest and
/// different marks. So `pair` tells each fork that a mark tells. The function does nothing: its contract is this law.
pub fn level_forks_are_told()
    ensures { LevelForksAreTold }
{}

/// Questions and answers that go as texts between files are events of the model of all replicas: `ask` is that a replica
/// asks, `answer` that another answers that question, and `take` that the first was read, took the answer, and was
/// saved. Any events may come between them: the bytes of the question carry what was asked. So the law over every list
/// of events holds of them too. The function does nothing: its contract is these laws.
pub fn letters_are_events()
    ensures asks { QuestionsAreAsks }
    ensures answers { AnswersAreAnswers }
    ensures takes { TakesAreTakes }
{}

/// A command that edits the replica in a file is events of the model of all replicas: where the file holds what the
/// model's replica has kept, that is read, edited, and saved. The file then holds what the model's replica has kept by
/// now. Lines do the same by the commands of those that aren't refused. What isn't kept is the model's crash: the next
/// reading begins with one. The function does nothing: its contract is these laws.
pub fn edits_are_events()
    ensures edits { EditingsAreEdits }
    ensures lines { LinesAreEdits }
{}

/// Files that take or are made of copies of others are events of the model of all replicas. What a replica had kept when
/// its file was copied is as if it had asked then: what it lends to later answers. A merge is that a file is read, its
/// replica asks, is answered with that, takes the answer, and is saved, however old the copy is. A file that is made of a
/// copy is that of a replica which had nothing yet, and did the same. The function does nothing: its contract is these
/// laws.
pub fn copies_are_events()
    ensures merges { MergesAreTakes }
    ensures copies { CopiesAreTakes }
{}

/// Files of new groups, and rosters that grow, are events of the model of all replicas: a file that is made for a name
/// of a roster is that replica's as the world starts, and one whose roster grows is read, grows it by one name after the
/// other, and is saved. The premise is that its replica knows the whole roster: that grows at one place. The function
/// does nothing: its contract is these laws.
pub fn rosters_are_events()
    ensures inits { InitsAreStarts }
    ensures grows { GrowthsAreGrows }
{}
