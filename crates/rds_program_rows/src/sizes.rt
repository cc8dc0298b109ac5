//! Rows with size: what files and the program's output hold is made of numbers, and compared with what was made so.
use crate::input::Input;
use crate::runs::{named, run_on};
use rds_names::Fault;
use rds_rows::told::{digits_of, said};
use rds_rows::words::cut;
use std::alloc::Global;
use std::fs;

/// `fill FILE`: writes the input into a file.
pub fn fill(rt: &HostRuntime, file: &str, input: &[u8]) -> Result<String, Fault> {
    match fs::write(rt, file, input) {
        Ok(()) => length_told(rt.alloc(), input),
        Err(_) => Err(Fault::Device),
    }
}

/// `digits FILE`: adds the hex digits of a file's bytes to the input, as a line.
pub fn add_digits_in(rt: &HostRuntime, file: &str, input: &mut Input) -> Result<String, Fault> {
    let bytes = bytes_in(rt, file)?;
    let digits = digits_of(rt.alloc(), &bytes)?;
    input.add_line(digits.as_str())?;
    input.told(rt.alloc())
}

/// `writes_as FILE WORDS`: runs the program on these words behind its name and on the input, and answers whether it writes
/// what the file holds, and the status.
pub fn run_as(rt: &HostRuntime, rest: &str, input: &[u8]) -> Result<String, Fault> {
    let (file, words) = cut(rest)?;
    let due = bytes_in(rt, file)?;
    let words = named(rt.alloc(), words)?;
    let (written, status) = run_on(rt, &words, input);
    let told = compared(rt.alloc(), &written, &due)?;
    Ok(format!(in rt.alloc(); "{told}, status {status}")?)
}

/// `holds_as FILE FILE`: whether a file holds what another one does.
pub fn holds_as(rt: &HostRuntime, rest: &str) -> Result<String, Fault> {
    let (file, other) = cut(rest)?;
    let bytes = bytes_in(rt, file)?;
    let due = bytes_in(rt, other)?;
    compared(rt.alloc(), &bytes, &due)
}

fn bytes_in(rt: &HostRuntime, file: &str) -> Result<Vec<u8>, Fault> {
    fs::read(rt, file).map_err(|_| Fault::Device)
}

fn length_told(alloc: Global, bytes: &[u8]) -> Result<String, Fault> {
    Ok(format!(in alloc; "{} bytes", bytes.len())?)
}

fn compared(alloc: Global, bytes: &[u8], due: &[u8]) -> Result<String, Fault> {
    if bytes == due {
        return Ok(format!(in alloc; "these {} bytes", due.len())?);
    }
    said(alloc, "other bytes")
}
