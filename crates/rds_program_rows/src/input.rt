//! The input that rows make for the program.
use crate::told::count_told;
use rds_names::Fault;
use rds_rows::words::{bytes_of, cut, number};
use std::alloc::{AllocError, Global};
use std::fs;

/// The bytes that the program is to read.
#[derive(Drop)]
pub struct Input {
    bytes: Vec<u8>,
}

impl Input {
    /// No bytes yet.
    pub fn new(alloc: Global) -> Input {
        Input {
            bytes: Vec::new(alloc),
        }
    }

    /// The bytes.
    pub fn as_slice(&self) -> &[u8] {
        self.bytes.as_slice()
    }

    /// Goes back to no bytes.
    pub fn empty(&mut self) {
        self.bytes.clear();
    }

    /// Adds a text and a newline.
    pub fn add_line(&mut self, text: &str) -> Result<(), AllocError> {
        self.add(text.as_bytes())?;
        self.add("\n".as_bytes())
    }

    /// Adds bytes.
    pub fn add(&mut self, bytes: &[u8]) -> Result<(), AllocError> {
        self.bytes.extend_from_slice(bytes)
    }

    /// `<x HEX`: adds the bytes of these hex digits.
    pub fn add_digits(&mut self, alloc: Global, digits: &str) -> Result<String, Fault> {
        let bytes = bytes_of(alloc, digits)?;
        self.add(&bytes)?;
        self.told(alloc)
    }

    /// `<f FILE`: adds the bytes of a file.
    pub fn add_file(&mut self, rt: &HostRuntime, file: &str) -> Result<String, Fault> {
        let Ok(bytes) = fs::read(rt, file) else {
            return Err(Fault::Device);
        };
        self.add(&bytes)?;
        self.told(rt.alloc())
    }

    /// `<n COUNT TEXT`: adds a text so many times.
    pub fn add_repeated(&mut self, alloc: Global, rest: &str) -> Result<String, Fault> {
        let (count, text) = cut(rest)?;
        let count = number(count)? as usize;
        self.add(text.repeat(alloc, count)?.as_bytes())?;
        self.told(alloc)
    }

    /// `<# FROM TO TEXT`: adds a text for each number from the first up to the second, which is left out. The number stands
    /// in the place of each `#`, and a newline in that of each `|` and at the end.
    pub fn add_numbered(&mut self, alloc: Global, rest: &str) -> Result<String, Fault> {
        let (from, rest) = cut(rest)?;
        let (to, text) = cut(rest)?;
        let lines = text.replace(alloc, "|", "\n")?;
        for each in number(from)?..number(to)? {
            let digits = format!(in alloc; "{each}")?;
            let line = lines.as_str().replace(alloc, "#", digits.as_str())?;
            self.add_line(line.as_str())?;
        }
        self.told(alloc)
    }

    /// `<, FROM TO TEXT`: adds a text and the number for each number from the first up to the second, which is left out.
    pub fn add_listed(&mut self, alloc: Global, rest: &str) -> Result<String, Fault> {
        let (from, rest) = cut(rest)?;
        let (to, text) = cut(rest)?;
        for each in number(from)?..number(to)? {
            let digits = format!(in alloc; "{each}")?;
            self.add(text.as_bytes())?;
            self.add(digits.as_str().as_bytes())?;
        }
        self.told(alloc)
    }

    /// `<@ FROM TO STEP HEX`: adds the bytes of hex digits for each number from the first up to the second, which is left out.
    /// In the place of each `#` stand the eight bytes of the number, so many times as the step says.
    pub fn add_bytes_numbered(&mut self, alloc: Global, rest: &str) -> Result<String, Fault> {
        let (from, rest) = cut(rest)?;
        let (to, rest) = cut(rest)?;
        let (step, digits) = cut(rest)?;
        let step = number(step)?;
        let (head, parts) = parts_of(alloc, digits)?;
        for each in number(from)?..number(to)? {
            let between = each.saturating_mul(step).to_be_bytes();
            self.add(&head)?;
            for part in &parts {
                self.add(&between)?;
                self.add(part)?;
            }
        }
        self.told(alloc)
    }

    /// How many bytes they are.
    pub fn told(&self, alloc: Global) -> Result<String, Fault> {
        count_told(alloc, self.bytes.len(), "bytes")
    }
}

// The bytes of the hex digits before the first '#', and of those behind each.
fn parts_of(alloc: Global, digits: &str) -> Result<(Vec<u8>, Vec<Vec<u8>>), Fault> {
    let (head, rest) = digits.split_once('#').unwrap_or((digits, ""));
    let mut parts = Vec::new(alloc);
    for part in rest.split('#') {
        parts.push(bytes_of(alloc, part)?)?;
    }
    Ok((bytes_of(alloc, head)?, parts))
}
