//! A replica of a document in a program: made or opened, edited, looked at, met with others, and kept in a file. Read
//! `document` first, then `editing`, `looking`, `changes`, `meeting`, `drafts` and `files`; `answers` has the lines
//! that edits are answered, `threads` says that a document may move to another thread, and `laws` what all of it is in
//! the model of all replicas.
#![tactic(auto)]

mod answers;
mod changes;
mod document;
mod drafts;
mod editing;
mod files;
mod laws;
mod looking;
mod meeting;
mod threads;

pub use answers::answers_text;
pub use document::Document;
pub use drafts::{Draft, Noted};
pub use files::{DocumentFile, create_file};
pub use laws::documents_are_events;
pub use rds_gaps::GapSet;
pub use rds_names::{Fault, Key, Name, Path, Roster, Scalar};
pub use rds_output::Reply;
pub use rds_questions::Lacks;
pub use rds_state::{Command, Edited, Mark, Replica};
pub use rds_tree::View;
pub use threads::sent_document;
