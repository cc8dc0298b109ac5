//! How answers are said.
use rds_names::Fault;
use rds_rows::told::{digits_of, said};
use std::alloc::{AllocError, Global};

/// These parts, one behind the other.
pub fn joined(alloc: Global, parts: &[&str]) -> Result<String, AllocError> {
    let mut text = String::new(alloc);
    for part in parts {
        text.push_str(part)?;
    }
    Ok(text)
}

/// These parts. Each line but the first stands behind two spaces, as the first does in an answer.
pub fn lines_told(alloc: Global, parts: &[&str]) -> Result<String, Fault> {
    let text = joined(alloc, parts)?;
    Ok(text.as_str().replace(alloc, "\n", "\n  ")?)
}

/// All that a run wrote, and how it ended.
pub fn output_told(alloc: Global, written: &[u8], end: &str) -> Result<String, Fault> {
    match str::from_utf8(written) {
        Ok(text) => lines_told(alloc, &[text, end]),
        Err(_) => said(alloc, "no text"),
    }
}

/// How many there are of something.
pub fn count_told(alloc: Global, count: usize, of: &str) -> Result<String, Fault> {
    Ok(format!(in alloc; "{count} {of}")?)
}

/// Hex digits, or `nothing`.
pub fn bytes_told(alloc: Global, bytes: &[u8]) -> Result<String, Fault> {
    if bytes.is_empty() {
        return said(alloc, "nothing");
    }
    digits_of(alloc, bytes)
}
