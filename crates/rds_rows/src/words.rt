//! How rows write what they are on. A row that says something else than such rows say is answered `Usage`.
use hex::FromHexError;
use rds_names::{Fault, Key, Name, Roster};
use std::alloc::Global;

/// The first word of a row, and what stands behind it, if anything does.
pub fn first(row: &str) -> (&str, &str) {
    row.split_once(' ').unwrap_or((row, ""))
}

/// What stands before and what stands behind a sign.
pub fn parted<'a>(words: &'a str, sign: &str) -> Result<(&'a str, &'a str), Fault> {
    words.split_once(sign).ok_or(Fault::Usage)
}

/// The first word, and what stands behind it.
pub fn cut(words: &str) -> Result<(&str, &str), Fault> {
    parted(words, " ")
}

/// A number.
pub fn number(word: &str) -> Result<u64, Fault> {
    word.parse::<u64>().map_err(|_| Fault::Usage)
}

/// A small number, as that of a replica.
pub fn small(word: &str) -> Result<u8, Fault> {
    word.parse::<u8>().map_err(|_| Fault::Usage)
}

/// The roster that is written, as `g a b c`, of which `g` is the group.
pub fn roster(alloc: Global, words: &str) -> Result<Roster, Fault> {
    let (group, rest) = first(words);
    let group = Key::new(alloc, group)?;
    let names = names(alloc, rest)?;
    Roster::new(alloc, group, &names)
}

/// The names that are written, as `a b c`.
pub fn names(alloc: Global, words: &str) -> Result<Vec<Name>, Fault> {
    let mut names = Vec::new(alloc);
    for word in words.split_whitespace() {
        names.push(Name::new(word)?)?;
    }
    Ok(names)
}

/// The bytes that hex digits spell, with spaces between them or not.
pub fn bytes_of(alloc: Global, digits: &str) -> Result<Vec<u8>, Fault> {
    let digits: String = digits.chars().filter(|digit| *digit != ' ').collect(alloc)?;
    match hex::decode(alloc, digits.as_str()) {
        Ok(bytes) => Ok(bytes),
        Err(FromHexError::OutOfMemory) => Err(Fault::Memory),
        Err(_) => Err(Fault::Usage),
    }
}
