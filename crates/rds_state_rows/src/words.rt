//! The words of a row. A row in which one is missing, or is another than is meant there, is answered `Usage`.
use rds_counts::Which;
use rds_dots::{Dot, Run};
use rds_names::{Fault, Key, Kind, Path};
use rds_rows::words::{number, small};
use std::alloc::Global;
use std::str::SplitWhitespace;

/// The words that are still to be read.
#[derive(Drop)]
pub struct Words<'a> {
    words: SplitWhitespace<'a>,
}

impl<'a> Words<'a> {
    /// The words of a text.
    pub fn new(text: &'a str) -> Words<'a> {
        Words {
            words: text.split_whitespace(),
        }
    }

    /// The next word.
    pub fn word(&mut self) -> Result<&'a str, Fault> {
        self.words.next().ok_or(Fault::Usage)
    }

    /// A number.
    pub fn number(&mut self) -> Result<u64, Fault> {
        number(self.word()?)
    }

    /// A small number, as that of a replica.
    pub fn small(&mut self) -> Result<u8, Fault> {
        small(self.word()?)
    }

    /// A replica and a number of one of its dots.
    pub fn dot(&mut self) -> Result<Dot, Fault> {
        let replica = self.small()?;
        let seq = self.number()?;
        Ok(Dot { replica, seq })
    }

    /// A replica and the numbers of the first and the last dot.
    pub fn run(&mut self) -> Result<Run, Fault> {
        let replica = self.small()?;
        let lo = self.number()?;
        let hi = self.number()?;
        Ok(Run { replica, lo, hi })
    }

    /// A key.
    pub fn key(&mut self, alloc: Global) -> Result<Key, Fault> {
        Key::new(alloc, self.word()?)
    }

    /// A path; the word of the root is a point.
    pub fn path(&mut self, alloc: Global) -> Result<Path, Fault> {
        match self.word()? {
            "." => Path::new(alloc, ""),
            text => Path::new(alloc, text),
        }
    }

    /// How an entry stands at its path.
    pub fn kind(&mut self) -> Result<Kind, Fault> {
        match self.word()? {
            "reg" => Ok(Kind::Reg),
            "elem" => Ok(Kind::Elem),
            _ => Err(Fault::Usage),
        }
    }

    /// Which of two numbers is meant.
    pub fn which(&mut self) -> Result<Which, Fault> {
        match self.word()? {
            "P" => Ok(Which::P),
            "N" => Ok(Which::N),
            _ => Err(Fault::Usage),
        }
    }
}
