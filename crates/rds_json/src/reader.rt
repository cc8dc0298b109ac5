//! Reading lines.
ghost use Rattle.std.specs.Prelude.{◌≡◌, ◌⊎◌, Some, None, IfErr, IfOk, option_and_then};
ghost use Rattle.json.specs.Json.{if_last, value};
ghost use Rattle.json.specs.Lex.{tokens};
ghost use Rattle.json.specs.Value.{value_view};
ghost use Rattle.rds_json.specs.Line.{line_of};
ghost use Rattle.rds_json.specs.MayGive.{MayGive};
ghost use Rattle.rds_json.specs.Unnamed.{edit_of};
ghost use Rattle.rds_names.specs.declared.fault.Fault.TheVariants.{BadLine, Memory};
ghost use Rattle.serde_json.specs.Read.{max_depth, read};
ghost use Rattle.serde_json.specs.View.{view};

use crate::line::Line;
use crate::owned::owned;
use crate::reading::line_in;
use crate::unnamed::edit_in;
use json::{Error, Reader, Scratch, Value as Borrowed};
use rds_names::Fault;
use rds_state::Command;
use serde_json::Value;
use std::alloc::Global;

/// How deep arrays and objects may nest.
const MAX_DEPTH: usize = 127;

/// What reads lines, one after the other. It keeps the memory that reading takes, some 16 kB and the longest line.
#[derive(Drop)]
pub struct LineReader {
    scratch: Scratch,
}

impl LineReader {
    /// No line was read yet. Takes no memory.
    pub fn new(alloc: Global) -> LineReader {
        LineReader {
            scratch: Scratch::new(alloc),
        }
    }

    /// What a line asks for, which is an array of JSON (RFC 8259, Bray 2017): a word, and what belongs to it.
    ///
    /// Refuses `BadLine` first: where the text is no JSON or nests deeper than 127, is no array, has another word,
    /// another number of members, or a member of another kind. Then the members are judged from left to right:
    /// `BadName`, `BadKey` or `BadPath`, `BadScalar`; in a roster `BadKey` for the group, `BadName`, and then
    /// `BadRoster`. Want of memory may come at any point.
    pub fn command(&mut self, alloc: Global, text: &str) -> Result<Line, Fault>
        ensures { MayGive result (line_of text.now) }
    {
        let line = value_of(alloc, text, &mut self.scratch)?;
        line_in(alloc, &line)
    }

    /// The edit that a line asks for, which is an array of JSON (RFC 8259, Bray 2017): an edit's word, and what belongs
    /// to it, without a replica's name. It is judged as [`command`](LineReader::command) judges a line, of which these
    /// words are the edits.
    pub fn edit(&mut self, alloc: Global, text: &str) -> Result<Command, Fault>
        ensures { MayGive result (edit_of text.now) }
    {
        let line = value_of(alloc, text, &mut self.scratch)?;
        edit_in(alloc, &line)
    }
}

/// The value of JSON that a text is.
fn value_of(alloc: Global, text: &str, scratch: &mut Scratch) -> Result<Value, Fault>
    ensures ok { IfOk result (λ value. read text.now ≡ Some (view value)) }
    ensures err { IfErr result (λ fault. (fault ≡ Memory) ⊎ ((fault ≡ BadLine) × (read text.now ≡ None))) }
{
    let value = borrowed_value(alloc, text, scratch)?;
    owned(alloc, &value)
}

/// The value of JSON that a text is, with its numbers as they are written.
fn borrowed_value<'a>(
    alloc: Global,
    text: &'a str,
    scratch: &'a mut Scratch,
) -> Result<Borrowed<'a>, Fault>
    ensures ok { IfOk result (λ v. option_and_then (λ p. if_last p.0 p.1) (value max_depth (tokens text.now))
        ≡ Some (value_view v)) }
    ensures err { IfErr result (λ fault. (fault ≡ Memory)
        ⊎ ((fault ≡ BadLine) × (option_and_then (λ p. if_last p.0 p.1) (value max_depth (tokens text.now)) ≡ None))) }
{
    let mut reader = Reader::new(text, scratch)?;
    let value = match Borrowed::read(alloc, &mut reader, MAX_DEPTH) {
        Ok(value) => value,
        Err(Error::OutOfMemory) => return Err(Fault::Memory),
        Err(_) => return Err(Fault::BadLine),
    };
    match reader.next() {
        Some(_) => Err(Fault::BadLine),
        None => Ok(value),
    }
}
