//! Documents that meet.
use crate::documents::Documents;
use rds_rows::told::said;
use rds_rows::words::cut;
use rds_store::{Fault, Lacks};
use std::alloc::Global;

impl Documents<'_> {
    /// `ask NAME`: its question is kept.
    pub fn ask(&mut self, alloc: Global, name: &str) -> Result<String, Fault> {
        let named = self.named(name)?;
        named.question = named.document.ask()?;
        said(alloc, "asked")
    }

    /// `answer NAME ASKER`: the answer to the asker's question is kept for it.
    pub fn answer_question(&mut self, alloc: Global, rest: &str) -> Result<String, Fault> {
        let (name, asker) = cut(rest)?;
        let question = self.question_of(alloc, asker)?;
        let answer = self.named(name)?.document.answer(question.as_slice())?;
        self.named(asker)?.answer = answer;
        said(alloc, "answered")
    }

    /// `take NAME ASKER`: takes the answer that is kept for the asker.
    pub fn take(&mut self, alloc: Global, rest: &str) -> Result<String, Fault> {
        let (name, asker) = cut(rest)?;
        let question = self.question_of(alloc, asker)?;
        let answer = copied(alloc, self.named(asker)?.answer.as_slice())?;
        let document = &mut self.named(name)?.document;
        let taken = document.take(question.as_slice(), answer.as_slice())?;
        Ok(format!(in alloc; "{taken} taken")?)
    }

    /// `turn NAME`: a byte of the answer that is kept for it becomes another.
    pub fn turn(&mut self, alloc: Global, name: &str) -> Result<String, Fault> {
        let answer = &mut self.named(name)?.answer;
        match answer.last_mut() {
            Some(byte) => *byte ^= 1,
            None => return Err(Fault::Cut),
        }
        said(alloc, "turned")
    }

    /// `merge NAME OTHER`: takes all that the other's snapshot has.
    pub fn merge(&mut self, alloc: Global, rest: &str) -> Result<String, Fault> {
        let (name, other) = cut(rest)?;
        let snapshot = self.named(other)?.document.snapshot()?;
        let taken = self.named(name)?.document.merge(snapshot.as_slice())?;
        Ok(format!(in alloc; "{taken} taken")?)
    }

    /// `lacks NAME ASKER`: what the document lacks of what the asker's question tells, and what the asker lacks.
    pub fn lacks(&mut self, alloc: Global, rest: &str) -> Result<String, Fault> {
        let (name, asker) = cut(rest)?;
        let question = self.question_of(alloc, asker)?;
        let lacks = self.named(name)?.document.lacks(question.as_slice())?;
        said(alloc, words_of(lacks))
    }

    fn question_of(&mut self, alloc: Global, name: &str) -> Result<Vec<u8>, Fault> {
        copied(alloc, self.named(name)?.question.as_slice())
    }
}

fn words_of(lacks: Lacks) -> &'static str {
    match (lacks.here, lacks.there) {
        (false, false) => "level",
        (true, false) => "lacks here",
        (false, true) => "lacks there",
        (true, true) => "lacks here and there",
    }
}

fn copied(alloc: Global, bytes: &[u8]) -> Result<Vec<u8>, Fault> {
    let mut copy = Vec::new(alloc);
    copy.extend_from_slice(bytes)?;
    Ok(copy)
}
