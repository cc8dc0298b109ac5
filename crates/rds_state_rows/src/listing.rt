//! Answers as texts.
use rds_names::Fault;
use rds_rows::told::said;
use std::alloc::Global;

/// Items of one line.
#[derive(Drop)]
pub struct Listing {
    text: String,
}

impl Listing {
    /// No item yet.
    pub fn new(alloc: Global) -> Listing {
        Listing {
            text: String::new(alloc),
        }
    }

    /// Puts an item at the end.
    pub fn push(&mut self, item: &str) -> Result<(), Fault> {
        if !self.text.is_empty() {
            self.text.push_str("; ")?;
        }
        self.text.push_str(item)?;
        Ok(())
    }

    /// The line; without items the word `none`.
    pub fn into_text(self, alloc: Global) -> Result<String, Fault> {
        if self.text.is_empty() {
            return said(alloc, "none");
        }
        Ok(self.text)
    }
}

/// The fault with what it names.
pub fn refused(alloc: Global, fault: Fault) -> Result<String, Fault> {
    Ok(format!(in alloc; "refused: {fault:?}")?)
}
