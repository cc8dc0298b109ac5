//! What header fields of requests to a node say, and of its answers: the tag of what a replica asks, as an entity tag, and
//! the token. Who calls writes and reads them, and who is called. Read `tags`, then `names` and `token`.
#![tactic(auto)]

mod names;
mod tags;
mod token;

pub use names::are_same_names;
pub use tags::{parse_tag, split_tag, tag_text};
pub use token::{Token, cookie_start};
