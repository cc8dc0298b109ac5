//! The program's commands: words in, what is written and the exit status out. Read from above: `program`, `telling`,
//! `outcome`, `file_commands`, `batch`, `looking`, `listing`, `offline`, `session_words`, `visits`, `responses`, `calls`,
//! `watching`, `site`, `unparsed` and `laws`. What people are told beside it is in `notes`, `letter_notes`, `line_notes`,
//! `place_notes`, `address_notes`, `tips` and `causes`.
#![tactic(auto)]

mod address_notes;
mod batch;
mod calls;
mod causes;
mod file_commands;
mod laws;
mod letter_notes;
mod line_notes;
mod listing;
mod looking;
mod notes;
mod offline;
mod outcome;
mod place_notes;
mod program;
mod responses;
mod session_words;
mod site;
mod telling;
mod tips;
mod unparsed;
mod visits;
mod watching;

pub use laws::{
    copies_are_events, edits_are_events, letters_are_events, level_forks_are_told,
    rosters_are_events, sessions_are_events,
};
pub use program::run;
pub use site::{RunSite, SiteRequest, Visit};
