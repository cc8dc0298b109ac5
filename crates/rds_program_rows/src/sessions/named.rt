//! Words that stand for bytes.
use crate::told::count_told;
use rds_names::Fault;
use rds_rows::words::{bytes_of, number};
use std::alloc::Global;
use std::collections::BTreeMap;

/// Bytes under names.
#[derive(Drop)]
pub struct Named {
    bytes: BTreeMap<String, Vec<u8>>,
}

impl Named {
    /// No names.
    pub fn new(alloc: Global) -> Named {
        Named {
            bytes: BTreeMap::new(alloc),
        }
    }

    /// Names the bytes that words stand for, and answers how many they are.
    pub fn name(&mut self, alloc: Global, name: &str, words: &str) -> Result<String, Fault> {
        let bytes = self.bytes_of(alloc, words)?;
        let count = bytes.len();
        self.put(String::from_str(alloc, name)?, bytes)?;
        count_told(alloc, count, "bytes")
    }

    fn put(&mut self, name: String, bytes: Vec<u8>) -> Result<(), Fault> {
        self.bytes.insert(name, bytes)?;
        Ok(())
    }

    /// The bytes that words stand for, one after the other.
    pub fn bytes_of(&self, alloc: Global, words: &str) -> Result<Vec<u8>, Fault> {
        let mut bytes = Vec::new(alloc);
        for word in words.split_whitespace() {
            self.put_part(alloc, word, &mut bytes)?;
        }
        Ok(bytes)
    }

    fn put_part(&self, alloc: Global, word: &str, bytes: &mut Vec<u8>) -> Result<(), Fault> {
        let (word, count) = repeated(word)?;
        let part = self.part(alloc, word)?;
        for _ in 0..count {
            bytes.extend_from_slice(&part)?;
        }
        Ok(())
    }

    /// The bytes of a name or of hex digits.
    pub fn part(&self, alloc: Global, word: &str) -> Result<Vec<u8>, Fault> {
        match self.bytes.get(word) {
            Some(bytes) => Ok(Vec::from_slice(alloc, bytes)?),
            None => bytes_of(alloc, word),
        }
    }
}

/// A word without the count that may stand behind it, as in `00*7`, and the count.
pub fn repeated(word: &str) -> Result<(&str, u64), Fault> {
    match word.split_once('*') {
        Some((word, count)) => Ok((word, number(count)?)),
        None => Ok((word, 1)),
    }
}
