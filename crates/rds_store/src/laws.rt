//! The law of documents in programs.
ghost use Rattle.rds_store.specs.Events.{DocumentsAnswer, EditsAreEdits, KeepsAreSaves, DocumentLinesAreEdits};
ghost use Rattle.rds_store.specs.Events.{DocumentsMerge, OpeningsAreCrashes, DocumentsAsk, DocumentsTake};

/// What programs do with documents in files is events of the model of all replicas. To open a file is the model's crash,
/// since what wasn't kept is lost. An edit is an edit, and lines are the commands of those that aren't refused. To keep
/// is a save. What a document that is kept asks is what its replica asks, what it answers is the model's answer to that,
/// and what is then taken is the model's take; so is what is taken of a copy. Any events may come between them. So the
/// law over every list of events holds of programs and of nodes too: replicas that hold the same updates show equal
/// documents.
///
/// The premises: a document is asked and answers only as it is kept, rosters are as the law has them, and the replicas
/// that asked and answered have a text, as all that is kept has. The function does nothing: its contract is these laws.
pub fn documents_are_events()
    ensures opens { OpeningsAreCrashes }
    ensures edits { EditsAreEdits }
    ensures lines { DocumentLinesAreEdits }
    ensures keeps { KeepsAreSaves }
    ensures asks { DocumentsAsk }
    ensures answers { DocumentsAnswer }
    ensures takes { DocumentsTake }
    ensures merges { DocumentsMerge }
{}
