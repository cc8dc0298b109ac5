//! What each row calls.
use crate::documents::{Documents, told};
use rds_names::Fault;
use rds_rows::Table;
use rds_rows::told::digits_of;
use rds_rows::words::first;
use std::alloc::Global;

impl Table for Documents<'_> {
    fn answer(&mut self, alloc: Global, name: &str, rest: &str) -> Result<String, Fault> {
        match name {
            "new" => self.make(alloc, rest),
            "open" => self.open(alloc, rest),
            "edit" => self.edit(alloc, rest),
            "lines" => self.edit_lines(alloc, rest),
            "grow" => self.grow(alloc, rest),
            "ask" => self.ask(alloc, rest),
            "answer" => self.answer_question(alloc, rest),
            "take" => self.take(alloc, rest),
            "turn" => self.turn(alloc, rest),
            "lacks" => self.lacks(alloc, rest),
            "merge" => self.merge(alloc, rest),
            _ => in_file(self, alloc, name, rest),
        }
    }
}

// Rows about documents in files.
fn in_file(
    documents: &mut Documents<'_>,
    alloc: Global,
    what: &str,
    rest: &str,
) -> Result<String, Fault> {
    match what {
        "create" => documents.create(alloc, rest),
        "keep" => documents.keep(alloc, rest),
        "lose" => documents.lose(alloc, rest),
        "keep_lines" => documents.keep_lines(alloc, rest),
        "keep_grown" => documents.keep_grown(alloc, rest),
        "keep_taken" => documents.keep_taken(alloc, rest),
        "keep_merged" => documents.keep_merged(alloc, rest),
        "keep_over" => documents.keep_over(alloc, rest),
        "look" => documents.look(rest),
        "remove" => documents.remove(alloc, rest),
        _ => shown(documents, alloc, what, rest),
    }
}

// Rows that show something of a document at a path, which is missing at the root.
fn shown(
    documents: &mut Documents<'_>,
    alloc: Global,
    what: &str,
    rest: &str,
) -> Result<String, Fault> {
    let (name, path) = first(rest);
    let document = &documents.named(name)?.document;
    match what {
        "view" => document.view_json(path),
        "here" => document.here_json(path),
        "get" => document.value_json(path),
        "conflicts" => told(alloc, document.conflicts(path)?.as_str()),
        "dump" => told(alloc, document.dump(path)?.as_str()),
        "status" => document.status(),
        "hash" => digits_of(alloc, &document.question_hash()?),
        "mark" => Ok(format!(in alloc; "{}", document.mark())?),
        _ => Err(Fault::Usage),
    }
}
