//! Values that are read as their bytes come, put together from few kinds.
//!
//! To be read in this order: `unfinished`, what each kind promises, and `laws`, what follows from it; `once`, `many`,
//! `then`, `made` and `beside`, the kinds; `packed`, a number; `listed`, rows that are kept in a list; `dots`, `lives`
//! and `counters`, which are put together from these. For rows whose keys are numbers of a table: `tables`, the table;
//! `meeting`, rows beside what they meet of it; `numbered`, lives and counters by it.
#![tactic(auto)]

mod beside;
mod counters;
mod dots;
mod laws;
mod listed;
mod lives;
mod made;
mod many;
mod meeting;
mod numbered;
mod once;
mod packed;
mod tables;
mod then;
mod unfinished;

pub use beside::{Also, Beside, Pair, pair};
pub use counters::{UnfinishedCounters, unfinished_counters};
pub use dots::{SeenDots, UnfinishedDots, unfinished_dots};
pub use laws::pieces_are_read_as_one;
pub use listed::{Listed, RowReader, Rows, rows};
pub use lives::{UnfinishedLives, UnfinishedSeen, unfinished_lives, unfinished_seen};
pub use made::{Made, Making};
pub use many::{CountWidth, Many, Repeating};
pub use numbered::{
    NumberedLives, NumberedParts, UnfinishedNumberedCounters, UnfinishedNumberedLives,
    unfinished_numbered_counters, unfinished_numbered_lives,
};
pub use once::{Gathering, Once, Part};
pub use packed::{PackedReader, UnfinishedPacked, unfinished_packed};
pub use tables::{UnfinishedTable, unfinished_table};
pub use then::{Following, Then};
pub use unfinished::{Progress, Unfinished};
