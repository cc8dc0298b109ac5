//! Documents in files.
use crate::documents::{Documents, edited_text, told_answers};
use rds_rows::told::said;
use rds_rows::words::cut;
use rds_store::{Document, DocumentFile, Fault, create_file};
use std::alloc::Global;
use std::fs;

impl Documents<'_> {
    /// `create NAME FILE`: a new file that holds what the document is.
    pub fn create(&mut self, alloc: Global, rest: &str) -> Result<String, Fault> {
        let (name, file) = cut(rest)?;
        self.put(alloc, file, name)?;
        said(alloc, "created")
    }

    /// `keep FILE LINE|LINE|..`: the document of the file is edited by each line and then kept, under one lock.
    pub fn keep(&mut self, alloc: Global, rest: &str) -> Result<String, Fault> {
        let (file, lines) = cut(rest)?;
        let mut opened = DocumentFile::open(self.rt, file)?;
        let mut last = said(alloc, "none")?;
        for line in lines.split('|') {
            let edited = opened.edit_line(line)?;
            opened.keep(self.rt)?;
            last = edited_text(alloc, edited)?;
        }
        Ok(last)
    }

    /// `lose FILE LINE`: the document of the file is edited, and let go.
    pub fn lose(&mut self, alloc: Global, rest: &str) -> Result<String, Fault> {
        let (file, line) = cut(rest)?;
        let mut opened = DocumentFile::open(self.rt, file)?;
        let edited = opened.edit_line(line)?;
        edited_text(alloc, edited)
    }

    /// `keep_lines FILE LINE|LINE|..`: the document is edited by all lines and kept once; then the answers.
    pub fn keep_lines(&mut self, alloc: Global, rest: &str) -> Result<String, Fault> {
        let (file, lines) = cut(rest)?;
        let lines = lines.replace(alloc, "|", "\n")?;
        let mut opened = DocumentFile::open(self.rt, file)?;
        let answers = opened.edit_lines(lines.as_bytes())?;
        opened.keep(self.rt)?;
        told_answers(alloc, answers.as_slice())
    }

    /// `keep_grown FILE NEWCOMER`: the group of the document grows, and that is kept.
    pub fn keep_grown(&mut self, alloc: Global, rest: &str) -> Result<String, Fault> {
        let (file, newcomer) = cut(rest)?;
        let mut opened = DocumentFile::open(self.rt, file)?;
        opened.grow(newcomer)?;
        opened.keep(self.rt)?;
        said(alloc, "grown")
    }

    /// `keep_taken FILE NAME`: the document of the file takes what it lacks of the named one, and is kept.
    pub fn keep_taken(&mut self, alloc: Global, rest: &str) -> Result<String, Fault> {
        let (file, name) = cut(rest)?;
        let mut opened = DocumentFile::open(self.rt, file)?;
        let question = opened.document().ask()?;
        let answer = self.named(name)?.document.answer(question.as_slice())?;
        let taken = opened.take(question.as_slice(), answer.as_slice())?;
        opened.keep(self.rt)?;
        Ok(format!(in alloc; "{taken} taken")?)
    }

    /// `keep_merged FILE NAME`: the document of the file takes the snapshot of the named one, and is kept.
    pub fn keep_merged(&mut self, alloc: Global, rest: &str) -> Result<String, Fault> {
        let (file, name) = cut(rest)?;
        let snapshot = self.named(name)?.document.snapshot()?;
        let mut opened = DocumentFile::open(self.rt, file)?;
        let taken = opened.merge(snapshot.as_slice())?;
        opened.keep(self.rt)?;
        Ok(format!(in alloc; "{taken} taken")?)
    }

    /// `keep_over FILE NAME LINE`: the document of the file is edited. Then another file is put in its place, which holds
    /// the named document, before it is kept.
    pub fn keep_over(&mut self, alloc: Global, rest: &str) -> Result<String, Fault> {
        let (file, rest) = cut(rest)?;
        let (name, line) = cut(rest)?;
        let mut opened = DocumentFile::open(self.rt, file)?;
        opened.edit_line(line)?;
        self.remove(alloc, file)?;
        self.put(alloc, file, name)?;
        opened.keep(self.rt)?;
        said(alloc, "kept")
    }

    // Makes a file that holds the named document.
    fn put(&mut self, alloc: Global, file: &str, name: &str) -> Result<(), Fault> {
        let snapshot = self.named(name)?.document.snapshot()?;
        let document = Document::open(alloc, snapshot.as_slice())?;
        let _made = create_file(self.rt, file, document)?;
        Ok(())
    }

    /// `look FILE`: the document of the file, as JSON.
    pub fn look(&mut self, file: &str) -> Result<String, Fault> {
        DocumentFile::open(self.rt, file)?.document().view_json("")
    }

    /// `remove FILE`
    pub fn remove(&mut self, alloc: Global, file: &str) -> Result<String, Fault> {
        match fs::remove_file(self.rt, file) {
            Ok(()) => said(alloc, "removed"),
            Err(_) => Err(Fault::Device),
        }
    }
}
