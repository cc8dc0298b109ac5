//! The command line: words in, the task that they name and what it means out. Read `tasks`, `table`, `help`, `builders`
//! and `reading` first, then `meaning`, and last `laws`.
#![tactic(auto)]

mod builders;
mod help;
mod laws;
mod meaning;
mod reading;
mod table;
mod tasks;

pub use help::{FAULTS_TEXT, FILES_TEXT};
pub use laws::{word_laws, words_mean_their_spelling};
pub use meaning::{amount_of, command_of, interval_of, names_in, roster_in};
pub use tasks::{
    EditWords, GrowWords, InitFromWords, InitWords, RawKind, RunWords, ServeWords, SyncWords, Task,
    ValueWord, WatchWords, task_of,
};
