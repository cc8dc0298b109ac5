//! How answers are said.
use rds_names::Fault;
use std::alloc::{AllocError, Global};

/// The answer that is this text.
pub fn said(alloc: Global, text: &str) -> Result<String, Fault> {
    Ok(String::from_str(alloc, text)?)
}

/// The answer to a question.
pub fn said_if(alloc: Global, holds: bool) -> Result<String, Fault> {
    said(alloc, if holds { "yes" } else { "no" })
}

/// The hex digits of bytes.
pub fn digits_of(alloc: Global, bytes: &[u8]) -> Result<String, Fault> {
    Ok(hex::encode(alloc, bytes)?)
}

/// The number and the name of a fault.
pub fn named(alloc: Global, fault: Fault) -> Result<String, AllocError> {
    let number = fault.number();
    let name = fault.name();
    format!(in alloc; "{number}: {name}")
}

/// The fault, as answers say it.
pub fn fault_text(alloc: Global, fault: Fault) -> Result<String, AllocError> {
    let named = named(alloc, fault)?;
    format!(in alloc; "fault {named}")
}

/// The answer; of a row that was refused, the fault.
pub fn answer_text(alloc: Global, answer: Result<String, Fault>) -> Result<String, AllocError> {
    match answer {
        Ok(text) => Ok(text),
        Err(fault) => fault_text(alloc, fault),
    }
}
