//! The paths at which a document changed.

use rds_counts::CountRow;
use rds_gaps::GapSet;
use rds_names::{Fault, Key, Path};
use rds_questions::{Question, Received, decode_question, receive};
use rds_state::{Command, State};
use rds_store::Document;
use std::alloc::Global;

/// The most paths that are listed.
const MOST: usize = 100;

/// An answer of more bytes isn't read for the paths that it touches.
const LONGEST_ANSWER: usize = 65_536;

/// The paths at which a document changed, each once. They aren't listed where they are too many, there was no memory for
/// them, or nobody wanted to know: then any may have changed.
#[derive(Drop)]
pub struct Touched {
    alloc: Global,
    paths: Option<Vec<Path>>,
}

impl Touched {
    /// None yet.
    pub fn new(alloc: Global) -> Touched {
        Touched {
            alloc,
            paths: Some(Vec::new(alloc)),
        }
    }

    /// Some, which aren't listed.
    pub fn unlisted(alloc: Global) -> Touched {
        Touched { alloc, paths: None }
    }

    /// What an answer to a question touches in a document that takes it: what it brings, and what it removes.
    pub fn by_answer(
        alloc: Global,
        document: &Document,
        question: &[u8],
        answer: &[u8],
    ) -> Touched {
        let mut touched = Touched::new(alloc);
        if LONGEST_ANSWER < answer.len()
            || touched.note_answer(document, question, answer).is_err()
        {
            touched.paths = None;
        }
        touched
    }

    /// The paths, where they are listed.
    pub fn paths(&self) -> Option<&[Path]> {
        match &self.paths {
            Some(paths) => Some(paths.as_slice()),
            None => None,
        }
    }

    /// They aren't listed any more.
    pub fn forget(&mut self) {
        self.paths = None;
    }

    /// Notes where a command edits, where somebody wants to know it.
    pub fn note_command(&mut self, command: &Command, is_wanted: bool) {
        if !is_wanted {
            self.forget();
            return;
        }
        match command {
            Command::Set(path, _)
            | Command::Add(path, _)
            | Command::Del(path, _)
            | Command::Clear(path) => self.note(path),
            Command::Inc(key, _) | Command::Dec(key, _) => self.note_key(key),
        }
    }

    /// Notes what was touched elsewhere.
    pub fn note_all(&mut self, others: &Touched) {
        match others.paths() {
            Some(paths) => {
                for path in paths {
                    self.note(path);
                }
            }
            None => self.forget(),
        }
    }

    /// Notes what an answer touches.
    fn note_answer(
        &mut self,
        document: &Document,
        question: &[u8],
        answer: &[u8],
    ) -> Result<(), Fault> {
        let asked: Question<GapSet> = decode_question(self.alloc, question)?;
        let received: Received<GapSet> = receive(self.alloc, &asked, answer)?;
        self.note_delta(&received.delta);
        self.note_dying(document, &received.delta)
    }

    /// Notes what a delta brings.
    fn note_delta(&mut self, delta: &State<GapSet>) {
        for (_dot, entry) in delta.lives().live() {
            self.note(&entry.path);
        }
        self.note_counters(delta.counts().rows());
    }

    /// Notes the counters of rows.
    fn note_counters(&mut self, rows: &[CountRow]) {
        for row in rows {
            self.note_key(&row.key);
        }
    }

    /// Notes what a delta removes from a document.
    fn note_dying(&mut self, document: &Document, delta: &State<GapSet>) -> Result<(), Fault> {
        let lives = document.replica().state().lives();
        let dying = lives.rows_dead_in(self.alloc, delta.lives())?;
        for (_dot, entry) in dying.as_slice() {
            self.note(&entry.path);
        }
        Ok(())
    }

    /// Notes the path of a counter.
    fn note_key(&mut self, key: &Key) {
        match path_of_key(self.alloc, key) {
            Ok(path) => self.note(&path),
            Err(_) => self.forget(),
        }
    }

    /// Notes a path.
    fn note(&mut self, path: &Path) {
        if let Some(paths) = &mut self.paths {
            if paths.iter().any(|known| *known == *path) {
                return;
            }
            if paths.len() == MOST || add(self.alloc, paths, path).is_err() {
                self.paths = None;
            }
        }
    }
}

/// Adds a path.
fn add(alloc: Global, paths: &mut Vec<Path>, path: &Path) -> Result<(), Fault> {
    paths.push(path.copy(alloc)?)?;
    Ok(())
}

/// The path of a counter.
fn path_of_key(alloc: Global, key: &Key) -> Result<Path, Fault> {
    let mut keys = Vec::new(alloc);
    keys.push(key.copy(alloc)?)?;
    Path::from_keys(keys)
}
