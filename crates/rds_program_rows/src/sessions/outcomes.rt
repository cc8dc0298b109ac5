//! What came of several runs, told once where it stays the same.
use rds_names::Fault;
use std::alloc::Global;
use std::fmt::Write;

/// A line for each outcome, behind the number at which it first came. One that is as the one before isn't reported
/// again.
#[derive(Drop)]
pub struct Outcomes {
    lines: String,
    last: String,
}

impl Outcomes {
    /// No outcomes.
    pub fn new(alloc: Global) -> Outcomes {
        Outcomes {
            lines: String::new(alloc),
            last: String::new(alloc),
        }
    }

    /// What came at this number.
    pub fn note(&mut self, at: u64, outcome: String) -> Result<(), Fault> {
        if outcome == self.last {
            return Ok(());
        }
        self.put_line(at, outcome.as_str())?;
        self.last = outcome;
        Ok(())
    }

    fn put_line(&mut self, at: u64, outcome: &str) -> Result<(), Fault> {
        if !self.lines.is_empty() {
            self.lines.push_str("\n  ")?;
        }
        write!(self.lines, "{at}: {outcome}")?;
        Ok(())
    }

    /// The lines.
    pub fn into_lines(self) -> String {
        self.lines
    }
}
