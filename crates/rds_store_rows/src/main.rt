//! Rows that call documents as a program does: made, opened, edited, looked at, met with others, and kept in files.
#![tactic(auto)]

mod documents;
mod files;
mod meetings;
mod table;

use documents::Documents;
use rds_rows::write_answers;
use std::io;

fn main(rt: HostRuntime) -> io::Result<()> {
    write_answers(&rt, &mut Documents::new(&rt))
}
