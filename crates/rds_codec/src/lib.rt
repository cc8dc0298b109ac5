//! The texts of values, and what is asked, answered and taken by them. All numbers are big-endian, a value has one text,
//! and no text of a kind begins another. States, answers and snapshots have a text in either of two formats. What isn't
//! told a format is of format 2, which has their keys by the numbers of a table.
//!
//! A text has one reader, which is fed its bytes as they come and may be told their end at any time; what is decoded from
//! all of its bytes is fed them at once.
//!
//! To be read in this order: `limits`, and `fed`, which feeds all bytes; `digests`; `certificate_rows` and
//! `certificates`; `formats`, which tells the two apart, `format_one` and `format_two`, which read, measure and write
//! a state in one of them, `in_format`, what is read in either, and `measured`, which measures and writes in any format;
//! the kinds of texts, `states`, `snapshots`, `answers` and `hellos`; `exchanges`, which brings texts from one replica
//! to another; `laws`, and `steady`, the law of reading texts as their bytes come.
#![tactic(auto)]

mod answers;
mod certificate_rows;
mod certificates;
mod digests;
mod exchanges;
mod fed;
mod format_one;
mod format_two;
mod formats;
mod hellos;
mod in_format;
mod laws;
mod limits;
mod measured;
mod snapshots;
mod states;
mod steady;

pub use answers::{
    Answer, UnfinishedAnswer, answers_have_texts, decode_answer, decode_answer_in, encode_answer,
    encode_answer_in, unfinished_answer,
};
pub use certificate_rows::read_certificate_row;
pub use certificates::{
    UnfinishedCertificate, certificates_have_texts, decode_certificate, encode_certificate,
    unfinished_certificate,
};
pub use digests::{
    UnfinishedDigest, decode_digest, digests_have_texts, encode_digest, unfinished_digest,
};
pub use exchanges::{answer, answer_in, ask, pull, take_certified};
pub use fed::read_whole;
pub use formats::{Format, read_format};
pub use hellos::{
    Hello, UnfinishedHello, VERSION, decode_hello, encode_hello, hellos_have_texts, read_hello,
    unfinished_hello,
};
pub use laws::{
    decoding_has_one_result, formats_are_read_again, formats_have_the_same_parts, limits_of_texts,
    texts_outlive_growth, texts_stand_apart,
};
pub use limits::LIMIT;
pub use rds_bytes::{
    CountRowReader, Gap, LiveRowReader, NameReader, PartReader, RowHead,
    parts_are_taken_one_by_one, read_entry, read_gap, read_key, read_member, read_name,
    read_replica, read_roster, read_row_head, read_scalar, readers_are_steady,
    rows_are_read_in_steps,
};
pub use snapshots::{
    UnfinishedSnapshot, decode_snapshot, decode_snapshot_with_format, encode_snapshot,
    encode_snapshot_in, snapshot_length, snapshots_have_texts, unfinished_snapshot,
};
pub use states::{
    UnfinishedState, decode_state, decode_state_in, encode_state, encode_state_in,
    states_have_texts, unfinished_state,
};
pub use steady::texts_are_read_steadily;
