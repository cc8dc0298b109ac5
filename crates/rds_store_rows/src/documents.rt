//! Documents under their names.
use rds_rows::told::said;
use rds_rows::words::{cut, first, small};
use rds_store::{Document, Edited, Fault, Reply, answers_text};
use std::alloc::Global;

/// A document under a name, what it asked last, and what that was answered.
#[derive(Drop)]
pub struct Named {
    pub name: String,
    pub document: Document,
    pub question: Vec<u8>,
    pub answer: Vec<u8>,
}

/// The documents so far.
#[derive(Drop)]
pub struct Documents<'a> {
    pub rt: &'a HostRuntime,
    all: Vec<Named>,
}

impl<'a> Documents<'a> {
    /// None yet.
    pub fn new(rt: &'a HostRuntime) -> Documents<'a> {
        Documents {
            rt,
            all: Vec::new(rt.alloc()),
        }
    }

    /// The document of this name that was made last.
    pub fn named(&mut self, name: &str) -> Result<&mut Named, Fault> {
        for named in self.all.iter_mut().rev() {
            if named.name.as_str() == name {
                return Ok(named);
            }
        }
        Err(Fault::NoSuch)
    }

    fn add(&mut self, alloc: Global, name: &str, document: Document) -> Result<(), Fault> {
        self.all.push(Named {
            name: String::from_str(alloc, name)?,
            document,
            question: Vec::new(alloc),
            answer: Vec::new(alloc),
        })?;
        Ok(())
    }

    /// `new NAME OWN GROUP NAMES..`: an empty replica.
    pub fn make(&mut self, alloc: Global, rest: &str) -> Result<String, Fault> {
        let (name, rest) = cut(rest)?;
        let (own, rest) = cut(rest)?;
        let (group, names) = first(rest);
        let names: Vec<&str> = names.split_whitespace().collect(alloc)?;
        let document = Document::new(alloc, group, names.as_slice(), small(own)?)?;
        self.add(alloc, name, document)?;
        said(alloc, "made")
    }

    /// `open NAME OTHER`: what is opened from the other's snapshot.
    pub fn open(&mut self, alloc: Global, rest: &str) -> Result<String, Fault> {
        let (name, other) = cut(rest)?;
        let snapshot = self.named(other)?.document.snapshot()?;
        let document = Document::open(alloc, snapshot.as_slice())?;
        self.add(alloc, name, document)?;
        said(alloc, "opened")
    }

    /// `edit NAME LINE`
    pub fn edit(&mut self, alloc: Global, rest: &str) -> Result<String, Fault> {
        let (name, line) = cut(rest)?;
        let edited = self.named(name)?.document.edit_line(line)?;
        edited_text(alloc, edited)
    }

    /// `lines NAME LINE|LINE|..`: the answers, without the last newline.
    pub fn edit_lines(&mut self, alloc: Global, rest: &str) -> Result<String, Fault> {
        let (name, lines) = cut(rest)?;
        let lines = lines.replace(alloc, "|", "\n")?;
        let answers = self.named(name)?.document.edit_lines(lines.as_bytes())?;
        told_answers(alloc, answers.as_slice())
    }

    /// `grow NAME NEWCOMER`
    pub fn grow(&mut self, alloc: Global, rest: &str) -> Result<String, Fault> {
        let (name, newcomer) = cut(rest)?;
        self.named(name)?.document.grow(newcomer)?;
        said(alloc, "grown")
    }
}

/// What an edit did.
pub fn edited_text(alloc: Global, edited: Edited) -> Result<String, Fault> {
    let killed = edited.killed;
    match edited.dot {
        Some(dot) => {
            let (replica, seq) = (dot.replica, dot.seq);
            Ok(format!(in alloc; "dot {replica} {seq}; killed {killed}")?)
        }
        None => Ok(format!(in alloc; "no dot; killed {killed}")?),
    }
}

/// The lines of answers, without the last newline.
pub fn told_answers(alloc: Global, answers: &[Reply]) -> Result<String, Fault> {
    let text = answers_text(alloc, answers)?;
    match str::from_utf8(text.as_slice()) {
        Ok(text) => told(alloc, text),
        Err(_) => Err(Fault::Bad),
    }
}

/// Lines, without the last newline; of none, that there is none.
pub fn told(alloc: Global, lines: &str) -> Result<String, Fault> {
    match lines.strip_suffix('\n') {
        Some(lines) => said(alloc, lines),
        None => said(alloc, if lines.is_empty() { "none" } else { lines }),
    }
}
