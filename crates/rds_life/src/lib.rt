//! The life of each dot: unseen, live with an entry, or dead.
#![tactic(auto)]

mod adding;
mod chosen;
mod dead_dots;
mod dots;
mod found;
mod gone;
mod joining;
mod laws;
mod live_rows;
mod lives;
mod rank;
mod row_map;
mod rows;
mod store;
mod stretches;

pub use chosen::Choice;
pub use found::Found;
pub use laws::a_merge_of_lives_has_one_result;
pub use live_rows::LiveRows;
pub use lives::Lives;
pub use rank::Rank;
