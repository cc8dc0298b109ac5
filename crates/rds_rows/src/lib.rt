//! Rows that a program reads and answers, so that all that it writes can be compared, row by row, with what the rows
//! are to be answered.
#![tactic(auto)]

mod both;
pub mod devices;
pub mod told;
pub mod words;

pub use both::Both;
use rds_names::Fault;
use std::alloc::Global;
use std::io;

/// What answers rows.
pub trait Table {
    /// What the row of this name is answered, in a line or several, without the last newline. What stands behind the
    /// name is `rest`.
    fn answer(&mut self, alloc: Global, name: &str, rest: &str) -> Result<String, Fault>;
}

/// Writes each row of the input, and below it what it is answered, or its fault. An empty row and one that begins
/// with '#' is written as it is.
pub fn write_answers<T: Table>(rt: &HostRuntime, table: &mut T) -> io::Result<()> {
    for line in rt.lines(rt.alloc()) {
        let line = line?;
        let row = line.as_str();
        println!(rt; "{row}")?;
        if !row.is_empty() && !row.starts_with('#') {
            write_answer(rt, table, row)?;
        }
    }
    Ok(())
}

fn write_answer<T: Table>(rt: &HostRuntime, table: &mut T, row: &str) -> io::Result<()> {
    let (name, rest) = words::first(row);
    let answer = told::answer_text(rt.alloc(), table.answer(rt.alloc(), name, rest))?;
    println!(rt; "  {answer}")
}
