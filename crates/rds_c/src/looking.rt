//! What is reported of the document in a slot.
ghost use Rattle.std.specs.Prelude.{◌≡◌, IfOk, string_bytes};
ghost use Rattle.rds_c.specs.Looks.{IsTextAt, IsWholeText};
ghost use Rattle.rds_c.specs.Promises.{IsRecord, Responds, TellsText};
ghost use Rattle.rds_c.specs.Told.{IsBytesOf};
ghost use Rattle.rds_state.specs.Mark.{mark_text};

use crate::slot::{Slot, put_back, take_out};
use crate::status::{CLOSED, NOT_UTF8};
use rds_keep::encode_record;
use rds_store::{Document, Draft, Fault, Mark};
use std::alloc::Global;

/// What is reported at a path.
#[derive(Clone, Copy)]
pub enum Look {
    /// What the document shows there and below.
    View,
    /// What stands there.
    Value,
    /// The registers there and below that have several values.
    Conflicts,
    /// The edits that make what stands there and below.
    Dump,
}

/// What is reported of all of it.
#[derive(Clone, Copy)]
pub enum Whole {
    /// The snapshot.
    Snapshot,
    /// Whose replica it is, and how much there is of it.
    Status,
    /// The mark, as 32 hex digits.
    Mark,
    /// What asks another replica for what this one lacks.
    Question,
}

fn bytes_of(text: Result<String, Fault>) -> Result<Vec<u8>, Fault>
    ensures { IfOk result (λ bytes. IsBytesOf text bytes.items) }
{
    match text {
        Ok(text) => Ok(text.into_bytes()),
        Err(fault) => Err(fault),
    }
}

fn told_mark(alloc: Global, mark: Mark) -> Result<String, Fault>
    ensures { IfOk result (λ text. string_bytes text ≡ mark_text mark) }
{
    Ok(format!(in alloc; "{mark}")?)
}

impl Look {
    fn of(self, document: &Document, path: &str) -> Result<Vec<u8>, Fault>
        ensures { IfOk result (λ bytes. IsTextAt self path.now document.now bytes.items) }
    {
        match self {
            Look::View => bytes_of(document.view_json(path)),
            Look::Value => bytes_of(document.value_json(path)),
            Look::Conflicts => bytes_of(document.conflicts(path)),
            Look::Dump => bytes_of(document.dump(path)),
        }
    }
}

impl Whole {
    fn of(self, alloc: Global, document: &Document) -> Result<Vec<u8>, Fault>
        ensures { IfOk result (λ bytes. IsWholeText self document.now bytes.items) }
    {
        match self {
            Whole::Snapshot => document.snapshot(),
            Whole::Status => bytes_of(document.status()),
            Whole::Mark => bytes_of(told_mark(alloc, document.mark())),
            Whole::Question => document.ask(),
        }
    }
}

/// What answers a question.
pub fn answer_of(document: &Document, question: &[u8]) -> Result<Vec<u8>, Fault>
    ensures { IfOk result (λ bytes. Responds question.now document.now bytes.items) }
{
    document.answer(question)
}

/// The record of what changed a draft since it was kept.
pub fn record_of(alloc: Global, draft: &Draft) -> Result<Vec<u8>, Fault>
    ensures { IfOk result (λ bytes. IsRecord draft.now bytes.items) }
{
    match draft.noted() {
        Some(noted) => encode_record(alloc, draft.document().replica().own(), &noted.change()),
        None => Err(Fault::TooLong),
    }
}

/// Tells what there is at the path that the bytes are.
pub fn look_at(
    alloc: Global,
    slot: &mut Slot,
    look: Look,
    path: &[u8],
    room: &mut [u8],
    length: &mut usize,
) -> u32
    ensures { TellsText (IsTextAt look path.now) result slot.old slot.new room.new length.new }
{
    let Ok(path) = str::from_utf8(path) else {
        return NOT_UTF8;
    };
    let Some(mut held) = take_out(alloc, slot) else {
        return CLOSED;
    };
    let made = look.of(held.draft.document(), path);
    let ended = held.tell(alloc, made, room, length);
    put_back(slot, held);
    ended
}

/// Tells what there is of all of it.
pub fn look_whole(
    alloc: Global,
    slot: &mut Slot,
    whole: Whole,
    room: &mut [u8],
    length: &mut usize,
) -> u32
    ensures { TellsText (IsWholeText whole) result slot.old slot.new room.new length.new }
{
    let Some(mut held) = take_out(alloc, slot) else {
        return CLOSED;
    };
    let made = whole.of(alloc, held.draft.document());
    let ended = held.tell(alloc, made, room, length);
    put_back(slot, held);
    ended
}
