//! Two tables that answer the same rows.
use crate::Table;
use crate::told::answer_text;
use crate::words::first;
use rds_names::Fault;
use std::alloc::Global;

/// Two tables of which each answers each row, as over two ways to keep the same sets. An answer that isn't both's is
/// answered with the other. A row behind the word `alone` is the first table's alone, as where the second has no room.
#[derive(Drop)]
pub struct Both<A: Table + Drop, B: Table + Drop> {
    pub first: A,
    pub second: B,
}

impl<A: Table + Drop, B: Table + Drop> Table for Both<A, B> {
    fn answer(&mut self, alloc: Global, name: &str, rest: &str) -> Result<String, Fault> {
        if name == "alone" {
            let (name, rest) = first(rest);
            return self.first.answer(alloc, name, rest);
        }
        let one = answer_text(alloc, self.first.answer(alloc, name, rest))?;
        let other = answer_text(alloc, self.second.answer(alloc, name, rest))?;
        if one.as_str() == other.as_str() {
            return Ok(one);
        }
        Ok(format!(in alloc; "{one}, and also {other}")?)
    }
}
