//! The parts of texts as bytes. Each part is read, measured and written in one module.
//!
//! To be read in this order: `numbers`, `packed` and `strings`; `list`, by which parts are read one after the other;
//! `keys`, and `sources`, which say where the keys of rows come from; `paths`, `scalars`, `entries` and `live_rows`;
//! `counters`; `marks`, numbers made of keys, and `places`, where keys are found by them; `tables`, which give the keys
//! of rows by their numbers; `numbering`, which numbers the keys that rows use, and `numbered`, which writes a table and
//! rows over numbers; `roster` and `header`; `dots`, and `dot_rows`, what a row of them begins with; `laws`, which has
//! the text of sets in their own words, of each reader that what it says stays said, whatever follows, and the laws of
//! tables and of packed numbers.
#![tactic(auto)]

mod counters;
mod dot_rows;
mod dots;
mod entries;
mod header;
mod keys;
mod laws;
mod list;
mod live_rows;
mod marks;
mod numbered;
mod numbering;
mod numbers;
mod packed;
mod paths;
mod places;
mod roster;
mod scalars;
mod sources;
mod strings;
mod tables;

pub use counters::{
    CountRowReader, counters_length, put_counters, put_place, read_keyed_count_row,
};
pub use dot_rows::{RowHead, read_row_head};
pub use dots::{DotRow, Gap, Gaps, measure_dots, put_dots, read_gap};
pub use entries::read_entry;
pub use header::{MAGIC, put_header};
pub use keys::{key_length, read_key};
pub use laws::{
    keys_have_a_table, packed_numbers_have_one_text, parts_are_taken_one_by_one,
    readers_are_steady, rows_are_read_in_steps, rows_meet_their_table, sets_are_spelled_by_rows,
    tables_are_met_in_turn, tables_are_steady, tables_have_one_text,
};
pub use list::PartReader;
pub use live_rows::{LiveRowReader, live_rows_length, put_live_rows, read_keyed_live_row};
pub use marks::mark_of;
pub use numbered::{numbered_counters_length, put_numbered, put_table, table_length};
pub use numbering::{NumberedKeys, number_keys};
pub use numbers::{put_byte, put_u32, put_u64, read_byte, read_length, read_u32, read_u64};
pub use packed::{MAX_PACKED, packed_length, put_packed, read_packed};
pub use places::KeyPlaces;
pub use roster::{
    NameReader, member_length, put_member, read_member, read_name, read_replica, read_roster,
};
pub use scalars::read_scalar;
pub use sources::{KeySource, SpelledKeys};
pub use tables::{Table, TableKeys};
