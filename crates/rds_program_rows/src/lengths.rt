//! Lines that are answered by how long they are.
use crate::devices::reader_of;
use crate::runs::status_told;
use rds_keep::Writing;
use rds_lines::{Answers, answer_lines};
use rds_names::Fault;
use rds_output::Reply;
use std::alloc::Global;

// Answers a line by the number of its bytes.
#[derive(Drop)]
struct Lengths;

impl Answers for Lengths {
    ghost may_answer = { λ _ _ _ _. Unit {0} };

    fn answer(&mut self, _alloc: Global, line: Result<String, Fault>) -> Reply {
        match line {
            Ok(text) => Reply::Asked(text.len() as u64),
            Err(fault) => Reply::Refused(fault),
        }
    }

    ghost ends = { λ _. tt };
}

/// `lengths STEP TURNS END`: what the lines of the input are answered, from a reader that gives at most so many bytes a
/// call, has such a budget, and `fails` or `ends` behind the bytes.
pub fn answer_lengths(alloc: Global, rest: &str, input: &[u8]) -> Result<String, Fault> {
    let (mut reader, _) = reader_of(rest, input)?;
    let mut written = Vec::new(alloc);
    let mut writer = Writing::new(&mut written);
    let status = answer_lines(alloc, &mut Lengths, &mut reader, &mut writer);
    status_told(alloc, &written, status)
}
