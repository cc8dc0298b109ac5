//! The parts of a state in few bytes: seen dots by their distances, a table of keys that share their fronts, live rows
//! and rows of counters by the packed numbers of their keys in it.
//!
//! To be read in this order: `keys`, which are read by their packed numbers; `dots`, each told from the one before it;
//! `scalars`, what follows the head of an entry; `heads` and `entries`; `rows`, which measures, writes and reads live
//! rows; `lives`, which are read row by row; `gaps`, each told from the one before it, and what a row of seen dots
//! begins with; `sets`, which measures and writes seen dots; `seen`, which are read gap by gap; `fronts`, each key
//! after another, and `tables` of such keys; `counters`, which measures, writes and reads rows of counters; `parts`,
//! lives and counters by the numbers of one table; `laws`.
#![tactic(auto)]

mod counters;
mod dots;
mod entries;
mod fronts;
mod gaps;
mod heads;
mod keys;
mod laws;
mod lives;
mod parts;
mod rows;
mod scalars;
mod seen;
mod sets;
mod tables;

pub use counters::{packed_counters_length, put_packed_counters};
pub use keys::PackedKeys;
pub use laws::{
    packed_counters_are_steady, packed_counters_have_one_text, packed_dots_are_steady,
    packed_dots_have_one_text, packed_lives_are_steady, packed_lives_have_one_text,
    packed_tables_are_steady, packed_tables_have_one_text,
};
pub use lives::{PackedLives, UnfinishedPackedLives, unfinished_packed_lives};
pub use parts::{PackedParts, UnfinishedPackedCounters, unfinished_packed_counters};
pub use rows::{packed_lives_length, put_packed_lives};
pub use seen::{UnfinishedPackedDots, unfinished_packed_dots};
pub use sets::{measure_packed_dots, put_packed_dots};
pub use tables::{
    UnfinishedPackedTable, packed_table_length, put_packed_table, unfinished_packed_table,
};
