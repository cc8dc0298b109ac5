//! Lines in, lines out: what lines about a group of replicas are answered, the two lines that are joined to one, and
//! what is reported of one replica. Of the command `join` read `lines`, `refusal` and `join`; of `sim` then `ahead`,
//! `answering`, `views` and `sim`; `run` has both, and `laws` says what all lines of `sim` come to. Of one replica read
//! `place`, `edits`, `editing` and `overview`.
#![tactic(auto)]

mod ahead;
mod answering;
mod editing;
mod edits;
mod join;
mod laws;
mod lines;
mod overview;
mod place;
mod refusal;
mod run;
mod sim;
mod views;

pub use answering::{Answers, answer_lines};
pub use editing::{edit_lines, write_replies};
pub use edits::Edits;
pub use join::join_is_known;
pub use laws::sim_shows_updates;
pub use overview::{describe, overview_json};
pub use place::place_of;
pub use run::{run_join, run_sim};
pub use views::{Layout, shown, shown_at};
