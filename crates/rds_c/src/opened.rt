//! A document that is open for C, and the text that its last call left to be told.
ghost use Rattle.std.specs.Prelude.{◌≡◌, ◌≢◌, ◌⊎◌, ◌≤◌, length, false, true, IfOk, OnErr, OnOk};
ghost use Rattle.rds_c.specs.Told.{EditsDocument, IsLeft, IsLeftBytes, IsNarrowed, IsTold, IsToldBytes};
ghost use Rattle.rds_c.specs.Told.{IsWordsOf, MakesEdits, edited_for_c};
ghost use Rattle.rds_json.specs.Unnamed.{edit_of};
ghost use Rattle.rds_names.specs.Fault.{number_of};
ghost use Rattle.rds_store.specs.Edits.{MayEdit};

use crate::status::{EditedC, OK, ROOM, edited_for_c, narrowed, status, words_of};
use rds_store::{Command, Draft, Edited, Fault, Reply, answers_text};
use std::alloc::Global;

/// A document with what changed it since it was kept, and a text to be told: the last one that didn't fit, or the words
/// of the last fault.
#[derive(Drop)]
pub struct Opened {
    pub draft: Draft,
    pub told: Vec<u8>,
}

impl Opened {
    /// Refuses: the fault's number. Its words are left to be told.
    pub fn refuse(&mut self, alloc: Global, fault: Fault) -> u32
        ensures number { result ≡ number_of fault }
        ensures some { result ≢ 0 }
        ensures few { result ≤ 63 }
        ensures words { IsWordsOf fault self.new.told.items }
        ensures kept { self.new.draft ≡ self.old.draft }
    {
        self.told = words_of(alloc, fault);
        status(fault)
    }

    /// Tells bytes: how many there are, and the bytes where there is room for them. Where there isn't, they are left to
    /// be told.
    pub fn tell(
        &mut self,
        alloc: Global,
        made: Result<Vec<u8>, Fault>,
        room: &mut [u8],
        length: &mut usize,
    ) -> u32
        ensures told { result ≡ 0 → IsToldBytes made room.new length.new }
        ensures left { result ≡ 66 → IsLeftBytes made self.new.told.items length.new }
        ensures kept { self.new.draft ≡ self.old.draft }
    {
        match made {
            Ok(bytes) => self.give(alloc, bytes, room, length),
            Err(fault) => self.refuse(alloc, fault),
        }
    }

    fn give(&mut self, alloc: Global, bytes: Vec<u8>, room: &mut [u8], length: &mut usize) -> u32
        ensures told { result ≡ 0 → IsTold bytes.items room.new length.new }
        ensures left { result ≡ 66 → IsLeft bytes.items self.new.told.items length.new }
        ensures status { (result ≡ 0) ⊎ (result ≡ 66) }
        ensures kept { self.new.draft ≡ self.old.draft }
    {
        if put(bytes.as_slice(), room, length) {
            self.told = Vec::new(alloc);
            return OK;
        }
        self.told = bytes;
        ROOM
    }

    /// Tells what was left to be told. It is left on.
    pub fn tell_again(&self, room: &mut [u8], length: &mut usize) -> u32
        ensures told { result ≡ 0 → IsTold self.now.told.items room.new length.new }
        ensures left { result ≡ 66 → IsLeft self.now.told.items self.now.told.items length.new }
    {
        if put(self.told.as_slice(), room, length) {
            OK
        } else {
            ROOM
        }
    }

    /// Edits the document by what was asked for, and tells what that did.
    pub fn edit(
        &mut self,
        alloc: Global,
        asked: Result<Command, Fault>,
        edited: &mut EditedC,
    ) -> u32
        ensures edited { result ≡ 0 → EditsDocument asked self.old.draft.document self.new.draft.document edited.new }
        ensures kept { (result ≡ 0) ⊎ (self.new.draft ≡ self.old.draft) }
        ensures since { self.new.draft.kept ≡ self.old.draft.kept }
    {
        let done = edit_asked(&mut self.draft, asked);
        self.tell_edit(alloc, done, edited)
    }

    /// Edits the document as a line says, and tells what that did.
    pub fn edit_line(&mut self, alloc: Global, line: &str, edited: &mut EditedC) -> u32
        ensures edited { result ≡ 0
            → EditsDocument (edit_of line.now) self.old.draft.document self.new.draft.document edited.new }
        ensures kept { (result ≡ 0) ⊎ (self.new.draft ≡ self.old.draft) }
        ensures since { self.new.draft.kept ≡ self.old.draft.kept }
    {
        let done = self.draft.edit_line(line);
        self.tell_edit(alloc, done, edited)
    }

    /// Edits the document by lines, and tells their answers. Where there is no memory for the text of the answers, its
    /// length is 0, and there is no room for it.
    pub fn edit_lines(
        &mut self,
        alloc: Global,
        lines: &[u8],
        room: &mut [u8],
        length: &mut usize,
    ) -> u32
        ensures told { result ≡ 0 → MakesEdits lines.now self.old.draft.document self.new.draft.document }
        ensures made { result ≡ 66 → MakesEdits lines.now self.old.draft.document self.new.draft.document }
        ensures kept { (result ≡ 66) ⊎ ((result ≡ 0) ⊎ (self.new.draft ≡ self.old.draft)) }
        ensures since { self.new.draft.kept ≡ self.old.draft.kept }
    {
        match self.draft.edit_lines(lines) {
            Ok(answers) => self.tell_answers(alloc, answers.as_slice(), room, length),
            Err(fault) => self.refuse(alloc, fault),
        }
    }

    fn tell_answers(
        &mut self,
        alloc: Global,
        answers: &[Reply],
        room: &mut [u8],
        length: &mut usize,
    ) -> u32
        ensures status { (result ≡ 0) ⊎ (result ≡ 66) }
        ensures kept { self.new.draft ≡ self.old.draft }
    {
        match answers_text(alloc, answers) {
            Ok(text) => self.give(alloc, text, room, length),
            Err(_) => {
                self.told = Vec::new(alloc);
                *length = 0;
                ROOM
            }
        }
    }

    /// Tells what an edit did.
    pub fn tell_edit(
        &mut self,
        alloc: Global,
        done: Result<Edited, Fault>,
        edited: &mut EditedC,
    ) -> u32
        ensures edited { IfOk done (λ e. edited.new ≡ edited_for_c e) }
        ensures done { OnOk done (result ≡ 0) }
        ensures refused { OnErr done (result ≢ 0) }
        ensures kept { self.new.draft ≡ self.old.draft }
    {
        match done {
            Ok(done) => {
                *edited = edited_for_c(done);
                OK
            }
            Err(fault) => self.refuse(alloc, fault),
        }
    }

    /// Tells how many components came.
    pub fn tell_count(
        &mut self,
        alloc: Global,
        outcome: Result<u128, Fault>,
        taken: &mut u64,
    ) -> u32
        ensures taken { IfOk outcome (λ n. IsNarrowed n taken.new) }
        ensures done { OnOk outcome (result ≡ 0) }
        ensures refused { OnErr outcome (result ≢ 0) }
        ensures kept { self.new.draft ≡ self.old.draft }
    {
        match outcome {
            Ok(components) => {
                *taken = narrowed(components);
                OK
            }
            Err(fault) => self.refuse(alloc, fault),
        }
    }

    /// Tells that something was done.
    pub fn tell_done(&mut self, alloc: Global, outcome: Result<(), Fault>) -> u32
        ensures done { OnOk outcome (result ≡ 0) }
        ensures refused { OnErr outcome (result ≢ 0) }
        ensures kept { self.new.draft ≡ self.old.draft }
    {
        match outcome {
            Ok(()) => OK,
            Err(fault) => self.refuse(alloc, fault),
        }
    }
}

/// Edits by what was asked for, if it is a command.
fn edit_asked(draft: &mut Draft, asked: Result<Command, Fault>) -> Result<Edited, Fault>
    ensures edited { MayEdit asked draft.old.document result draft.new.document }
    ensures kept { draft.new.kept ≡ draft.old.kept }
    ensures err { OnErr result (draft.new ≡ draft.old) }
{
    match asked {
        Ok(command) => draft.edit(command),
        Err(fault) => Err(fault),
    }
}

/// Tells how many bytes there are, and the bytes where there is room for them, and answers whether there is.
fn put(bytes: &[u8], room: &mut [u8], told: &mut usize) -> bool
    ensures told { result ≡ true → IsTold bytes.now room.new told.new }
    ensures number { told.new ≡ length bytes.now }
{
    *told = bytes.len();
    if room.len() < bytes.len() {
        return false;
    }
    room[..bytes.len()].copy_from_slice(bytes);
    true
}
