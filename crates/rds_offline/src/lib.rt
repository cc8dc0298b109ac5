//! Replicas in files that meet without a connection: a copy of a peer's file is merged, the next replica of a group is
//! made from another's file, and questions and answers go as texts, by any means. Read `next`, `merging` and `changes`
//! first, then `copies` and `letters`.
#![tactic(auto)]

mod changes;
mod copies;
mod letters;
mod merging;
mod next;

pub use copies::{TakenFile, init_from, init_from_copy, merge_file};
pub use letters::{AnsweredFile, ToldFile, answer_file, ask_file, check_texts, take_file};
pub use merging::merge;
pub use next::next_replica;
