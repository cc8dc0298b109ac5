//! A journal: records one behind the other, each behind its length and the checksum of its payload.
//!
//! To be read in this order: `records`, which writes and reads one; `torn`, which tells what a record that wasn't
//! written whole may leave; `device`, a file as the journal sees it, and `appending`, which puts a record at its end;
//! `laws`, which says what is read where a crash left a journal.
#![tactic(auto)]

mod appending;
mod device;
mod laws;
mod records;
mod torn;

pub use appending::{AppendError, append};
pub use device::{Device, DeviceError};
pub use laws::{journals_outlast_crashes, records_outlast_appends};
pub use records::{HEAD, MOST, first_record, put_record, record_length};
pub use torn::{SCAN, is_torn};
