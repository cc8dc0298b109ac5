//! A session by any means: what a replica asks is a text, what another responds is a text, and the one that asked takes
//! what came. So a mail, a stick or a pipe carries what a session would.
//!
//! To be read in this order: `fronts` and `questions`; `hashing`, what tells whether two questions are the same;
//! `tags`, what tells a fork besides; `responses`, which have such a tag; `greeting`, whether two replicas may talk;
//! `responding`; `receiving`, what a response brings; `reaching`, how far a state and a digest have come; `taking`,
//! what becomes of a response; `forks`, whether it tells one; `lacking`, what two replicas lack of one another's;
//! `laws`.
#![tactic(auto)]

mod forks;
mod fronts;
mod greeting;
mod hashing;
mod lacking;
mod laws;
mod questions;
mod reaching;
mod receiving;
mod responding;
mod responses;
mod tags;
mod taking;

pub use forks::tells_fork;
pub use greeting::greet;
pub use lacking::{Lacks, lacks_of};
pub use laws::{
    equal_hashes_tell_equal_questions, forks_are_told, level_replicas_lack_nothing,
    replicas_ask_well, responses_are_received, texts_are_told_apart,
};
pub use questions::{Question, decode_question, encode_question};
pub use receiving::{Received, receive};
pub use responding::respond;
pub use responses::{Response, decode_response};
pub use tags::Tag;
pub use taking::{judge_held, take_response};
