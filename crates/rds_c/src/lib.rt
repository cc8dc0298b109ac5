//! rds for C: a replica in the caller's process. `bindings/c/rds.h` is its header, which says what C has to uphold;
//! here stands what the calls do. Read `parts`, `handle` and `slot` first, then `status`, `opened`, `asking`, `editing`
//! and `looking`; `threads` says that a slot may move to another thread.
#![tactic(auto)]

ghost use Rattle.std.specs.Prelude.{◌≡◌, ◌⊎◌, ◌==◌, None, Ok, IfOk, not};
ghost use Rattle.rds_c.specs.Asked.{cleared_of, lowered_of, raised_of, valued_of};
ghost use Rattle.rds_c.specs.Looks.{IsTextAt, IsWholeText};
ghost use Rattle.rds_c.specs.Promises.{Changes, Edits, SlotHolds, IsNewReplica, IsKeptUnlessDone, SlotIsMade};
ghost use Rattle.rds_c.specs.Promises.{IsOpenedFrom, IsRecord, OpensFile, SetsKept, TellsTextOf};
ghost use Rattle.rds_c.specs.Promises.{Merges, Responds, TakesInSlot, TellsText, left_in};
ghost use Rattle.rds_c.specs.Told.{IsLeft, IsTold, MakesEdits};
ghost use Rattle.rds_c.specs.declared.asking.Verb.TheVariants.{Set, Add, Del};
ghost use Rattle.rds_c.specs.declared.looking.Look.TheVariants.{View, Value, Conflicts, Dump};
ghost use Rattle.rds_c.specs.declared.looking.Whole.TheVariants.{Snapshot, Status, Mark, Question};
ghost use Rattle.rds_json.specs.Unnamed.{edit_of};
ghost use Rattle.rds_names.specs.Scalar.{scalar_of_text};
ghost use Rattle.rds_names.specs.declared.scalar.Scalar.TheVariants.{Null, Bool, Int};
ghost use Rattle.rds_store.specs.Documents.{IsGrownBy, IsHeldBy};

mod asking;
mod editing;
mod handle;
mod looking;
mod opened;
mod parts;
mod slot;
mod status;
mod threads;

use asking::{Verb, cleared, lowered, raised};
use editing::{edit_as, edit_text, edit_value};
use looking::{Look, Whole, answer_of, look_at, look_whole, record_of};
use opened::Opened;
use rds_json::{Line, LineReader};
use rds_store::{Document, Draft, Fault, Scalar};
use slot::{Slot, put_back, take_out};
use status::{CLOSED, EditedC, LayoutC, NOT_UTF8, OK, OPENED, layout_for_c, status};
use std::alloc::Global;

/// Opens a slot that is closed.
fn fill(alloc: Global, slot: &mut Slot, made: Result<Draft, Fault>) -> u32
    ensures done { result ≡ 0 → SlotIsMade made slot.new }
    ensures kept { IsKeptUnlessDone result slot.old slot.new }
{
    let draft = match made {
        Ok(draft) => draft,
        Err(fault) => return status(fault),
    };
    if let Some(held) = take_out(alloc, slot) {
        put_back(slot, held);
        return OPENED;
    }
    let opened = Opened {
        draft,
        told: Vec::new(alloc),
    };
    match Box::new(alloc, opened) {
        Ok(held) => {
            put_back(slot, held);
            OK
        }
        Err(_) => status(Fault::Memory),
    }
}

/// The empty replica of a line's roster.
fn first(alloc: Global, line: &str, own: u8) -> Result<Draft, Fault>
    ensures first { IfOk result (λ draft. IsNewReplica line.now own draft.document) }
{
    let mut reader = LineReader::new(alloc);
    match reader.command(alloc, line)? {
        Line::Roster(roster) => Ok(Draft::of(Document::first(alloc, roster, own)?)),
        _ => Err(Fault::BadLine),
    }
}

/// Opens an empty replica: number `own` of the roster that the line of JSON has.
#[unsafe(no_mangle)]
pub extern "C" fn rds_new(alloc: Global, slot: &mut Slot, line: &[u8], own: u8) -> u32
    ensures opened { result ≡ 0 → SlotHolds (IsNewReplica line.now own) slot.new }
    ensures kept { IsKeptUnlessDone result slot.old slot.new }
{
    let Ok(line) = str::from_utf8(line) else {
        return NOT_UTF8;
    };
    fill(alloc, slot, first(alloc, line, own))
}

/// Opens the replica of a snapshot, or of a file's bytes.
#[unsafe(no_mangle)]
pub extern "C" fn rds_open(alloc: Global, slot: &mut Slot, snapshot: &[u8]) -> u32
    ensures opened { result ≡ 0 → SlotHolds (IsHeldBy snapshot.now) slot.new }
    ensures kept { IsKeptUnlessDone result slot.old slot.new }
{
    fill(alloc, slot, opened_snapshot(alloc, snapshot))
}

/// The replica of a snapshot, which is kept nowhere.
fn opened_snapshot(alloc: Global, snapshot: &[u8]) -> Result<Draft, Fault>
    ensures { IfOk result (λ draft. IsHeldBy snapshot.now draft.document) }
{
    Ok(Draft::of(Document::open(alloc, snapshot)?))
}

/// Closes the slot, and frees what it had.
#[unsafe(no_mangle)]
pub extern "C" fn rds_free(alloc: Global, slot: &mut Slot)
    ensures closed { slot.new.handle.document ≡ None }
{
    let _held = take_out(alloc, slot);
}

/// Edits as a line of JSON says.
#[unsafe(no_mangle)]
pub extern "C" fn rds_edit(alloc: Global, slot: &mut Slot, line: &[u8], edited: &mut EditedC) -> u32
    ensures { Edits (edit_of line.now) result slot.old slot.new edited.new }
{
    let Ok(line) = str::from_utf8(line) else {
        return NOT_UTF8;
    };
    let Some(mut held) = take_out(alloc, slot) else {
        return CLOSED;
    };
    let ended = held.edit_line(alloc, line, edited);
    put_back(slot, held);
    ended
}

/// Edits as lines of JSON say, one after the other, and tells their answers, a line each. At 66 the edits are made too;
/// the answers are left to be told, or none where there is no memory for them.
#[unsafe(no_mangle)]
pub extern "C" fn rds_edit_lines(
    alloc: Global,
    slot: &mut Slot,
    lines: &[u8],
    room: &mut [u8],
    length: &mut usize,
) -> u32
    ensures told { result ≡ 0 → Changes (MakesEdits lines.now) slot.old slot.new }
    ensures made { result ≡ 66 → Changes (MakesEdits lines.now) slot.old slot.new }
    ensures kept { (result ≡ 66) ⊎ IsKeptUnlessDone result slot.old slot.new }
{
    let Some(mut held) = take_out(alloc, slot) else {
        return CLOSED;
    };
    let ended = held.edit_lines(alloc, lines, room, length);
    put_back(slot, held);
    ended
}

/// Sets the register at a path to a text.
#[unsafe(no_mangle)]
pub extern "C" fn rds_set_text(
    alloc: Global,
    slot: &mut Slot,
    path: &[u8],
    text: &[u8],
    edited: &mut EditedC,
) -> u32
    ensures { Edits (valued_of Set path.now (scalar_of_text text.now)) result slot.old slot.new edited.new }
{
    edit_text(alloc, slot, Verb::Set, path, text, edited)
}

/// Sets the register at a path to a whole number.
#[unsafe(no_mangle)]
pub extern "C" fn rds_set_int(
    alloc: Global,
    slot: &mut Slot,
    path: &[u8],
    number: i64,
    edited: &mut EditedC,
) -> u32
    ensures { Edits (valued_of Set path.now (Ok (Int number))) result slot.old slot.new edited.new }
{
    let integer = Scalar::Int(number);
    edit_value(alloc, slot, Verb::Set, path, Ok(integer), edited)
}

/// Sets the register at a path to a truth: 0 is false, any other number true.
#[unsafe(no_mangle)]
pub extern "C" fn rds_set_bool(
    alloc: Global,
    slot: &mut Slot,
    path: &[u8],
    truth: u8,
    edited: &mut EditedC,
) -> u32
    ensures { Edits (valued_of Set path.now (Ok (Bool (not (truth == 0))))) result slot.old slot.new edited.new }
{
    let boolean = Scalar::Bool(truth != 0);
    edit_value(alloc, slot, Verb::Set, path, Ok(boolean), edited)
}

/// Sets the register at a path to null.
#[unsafe(no_mangle)]
pub extern "C" fn rds_set_null(
    alloc: Global,
    slot: &mut Slot,
    path: &[u8],
    edited: &mut EditedC,
) -> u32
    ensures { Edits (valued_of Set path.now (Ok Null)) result slot.old slot.new edited.new }
{
    edit_value(alloc, slot, Verb::Set, path, Ok(Scalar::Null), edited)
}

/// Adds to the set at a path a text.
#[unsafe(no_mangle)]
pub extern "C" fn rds_add_text(
    alloc: Global,
    slot: &mut Slot,
    path: &[u8],
    text: &[u8],
    edited: &mut EditedC,
) -> u32
    ensures { Edits (valued_of Add path.now (scalar_of_text text.now)) result slot.old slot.new edited.new }
{
    edit_text(alloc, slot, Verb::Add, path, text, edited)
}

/// Adds to the set at a path a whole number.
#[unsafe(no_mangle)]
pub extern "C" fn rds_add_int(
    alloc: Global,
    slot: &mut Slot,
    path: &[u8],
    number: i64,
    edited: &mut EditedC,
) -> u32
    ensures { Edits (valued_of Add path.now (Ok (Int number))) result slot.old slot.new edited.new }
{
    let integer = Scalar::Int(number);
    edit_value(alloc, slot, Verb::Add, path, Ok(integer), edited)
}

/// Adds to the set at a path a truth: 0 is false, any other number true.
#[unsafe(no_mangle)]
pub extern "C" fn rds_add_bool(
    alloc: Global,
    slot: &mut Slot,
    path: &[u8],
    truth: u8,
    edited: &mut EditedC,
) -> u32
    ensures { Edits (valued_of Add path.now (Ok (Bool (not (truth == 0))))) result slot.old slot.new edited.new }
{
    let boolean = Scalar::Bool(truth != 0);
    edit_value(alloc, slot, Verb::Add, path, Ok(boolean), edited)
}

/// Adds to the set at a path null.
#[unsafe(no_mangle)]
pub extern "C" fn rds_add_null(
    alloc: Global,
    slot: &mut Slot,
    path: &[u8],
    edited: &mut EditedC,
) -> u32
    ensures { Edits (valued_of Add path.now (Ok Null)) result slot.old slot.new edited.new }
{
    edit_value(alloc, slot, Verb::Add, path, Ok(Scalar::Null), edited)
}

/// Deletes from the set at a path a text.
#[unsafe(no_mangle)]
pub extern "C" fn rds_del_text(
    alloc: Global,
    slot: &mut Slot,
    path: &[u8],
    text: &[u8],
    edited: &mut EditedC,
) -> u32
    ensures { Edits (valued_of Del path.now (scalar_of_text text.now)) result slot.old slot.new edited.new }
{
    edit_text(alloc, slot, Verb::Del, path, text, edited)
}

/// Deletes from the set at a path a whole number.
#[unsafe(no_mangle)]
pub extern "C" fn rds_del_int(
    alloc: Global,
    slot: &mut Slot,
    path: &[u8],
    number: i64,
    edited: &mut EditedC,
) -> u32
    ensures { Edits (valued_of Del path.now (Ok (Int number))) result slot.old slot.new edited.new }
{
    let integer = Scalar::Int(number);
    edit_value(alloc, slot, Verb::Del, path, Ok(integer), edited)
}

/// Deletes from the set at a path a truth: 0 is false, any other number true.
#[unsafe(no_mangle)]
pub extern "C" fn rds_del_bool(
    alloc: Global,
    slot: &mut Slot,
    path: &[u8],
    truth: u8,
    edited: &mut EditedC,
) -> u32
    ensures { Edits (valued_of Del path.now (Ok (Bool (not (truth == 0))))) result slot.old slot.new edited.new }
{
    let boolean = Scalar::Bool(truth != 0);
    edit_value(alloc, slot, Verb::Del, path, Ok(boolean), edited)
}

/// Deletes from the set at a path null.
#[unsafe(no_mangle)]
pub extern "C" fn rds_del_null(
    alloc: Global,
    slot: &mut Slot,
    path: &[u8],
    edited: &mut EditedC,
) -> u32
    ensures { Edits (valued_of Del path.now (Ok Null)) result slot.old slot.new edited.new }
{
    edit_value(alloc, slot, Verb::Del, path, Ok(Scalar::Null), edited)
}

/// Clears all at or below a path.
#[unsafe(no_mangle)]
pub extern "C" fn rds_clear(
    alloc: Global,
    slot: &mut Slot,
    path: &[u8],
    edited: &mut EditedC,
) -> u32
    ensures { Edits (cleared_of path.now) result slot.old slot.new edited.new }
{
    let Ok(path) = str::from_utf8(path) else {
        return NOT_UTF8;
    };
    edit_as(alloc, slot, cleared(alloc, path), edited)
}

/// Raises the counter of a key.
#[unsafe(no_mangle)]
pub extern "C" fn rds_inc(
    alloc: Global,
    slot: &mut Slot,
    key: &[u8],
    by: u64,
    edited: &mut EditedC,
) -> u32
    ensures { Edits (raised_of key.now by) result slot.old slot.new edited.new }
{
    let Ok(key) = str::from_utf8(key) else {
        return NOT_UTF8;
    };
    edit_as(alloc, slot, raised(alloc, key, by), edited)
}

/// Lowers the counter of a key.
#[unsafe(no_mangle)]
pub extern "C" fn rds_dec(
    alloc: Global,
    slot: &mut Slot,
    key: &[u8],
    by: u64,
    edited: &mut EditedC,
) -> u32
    ensures { Edits (lowered_of key.now by) result slot.old slot.new edited.new }
{
    let Ok(key) = str::from_utf8(key) else {
        return NOT_UTF8;
    };
    edit_as(alloc, slot, lowered(alloc, key, by), edited)
}

/// Tells, as JSON, what the document shows at a path; the empty one is the root.
#[unsafe(no_mangle)]
pub extern "C" fn rds_view(
    alloc: Global,
    slot: &mut Slot,
    path: &[u8],
    room: &mut [u8],
    length: &mut usize,
) -> u32
    ensures { TellsText (IsTextAt View path.now) result slot.old slot.new room.new length.new }
{
    look_at(alloc, slot, Look::View, path, room, length)
}

/// Tells, as JSON, what stands at a path.
#[unsafe(no_mangle)]
pub extern "C" fn rds_get(
    alloc: Global,
    slot: &mut Slot,
    path: &[u8],
    room: &mut [u8],
    length: &mut usize,
) -> u32
    ensures { TellsText (IsTextAt Value path.now) result slot.old slot.new room.new length.new }
{
    look_at(alloc, slot, Look::Value, path, room, length)
}

/// Tells the registers below a path that have more than one value, a line of JSON each.
#[unsafe(no_mangle)]
pub extern "C" fn rds_conflicts(
    alloc: Global,
    slot: &mut Slot,
    path: &[u8],
    room: &mut [u8],
    length: &mut usize,
) -> u32
    ensures { TellsText (IsTextAt Conflicts path.now) result slot.old slot.new room.new length.new }
{
    look_at(alloc, slot, Look::Conflicts, path, room, length)
}

/// Tells the edits that make what the document has below a path, a line of JSON each.
#[unsafe(no_mangle)]
pub extern "C" fn rds_dump(
    alloc: Global,
    slot: &mut Slot,
    path: &[u8],
    room: &mut [u8],
    length: &mut usize,
) -> u32
    ensures { TellsText (IsTextAt Dump path.now) result slot.old slot.new room.new length.new }
{
    look_at(alloc, slot, Look::Dump, path, room, length)
}

/// Tells the snapshot.
#[unsafe(no_mangle)]
pub extern "C" fn rds_snapshot(
    alloc: Global,
    slot: &mut Slot,
    room: &mut [u8],
    length: &mut usize,
) -> u32
    ensures { TellsText (IsWholeText Snapshot) result slot.old slot.new room.new length.new }
{
    look_whole(alloc, slot, Whole::Snapshot, room, length)
}

/// Tells, as JSON, whose replica this is and how much there is of it.
#[unsafe(no_mangle)]
pub extern "C" fn rds_status_json(
    alloc: Global,
    slot: &mut Slot,
    room: &mut [u8],
    length: &mut usize,
) -> u32
    ensures { TellsText (IsWholeText Status) result slot.old slot.new room.new length.new }
{
    look_whole(alloc, slot, Whole::Status, room, length)
}

/// Tells the mark by which replicas are compared at a glance.
#[unsafe(no_mangle)]
pub extern "C" fn rds_mark(
    alloc: Global,
    slot: &mut Slot,
    room: &mut [u8],
    length: &mut usize,
) -> u32
    ensures { TellsText (IsWholeText Mark) result slot.old slot.new room.new length.new }
{
    look_whole(alloc, slot, Whole::Mark, room, length)
}

/// Tells what asks another replica for what this one lacks.
#[unsafe(no_mangle)]
pub extern "C" fn rds_ask(
    alloc: Global,
    slot: &mut Slot,
    room: &mut [u8],
    length: &mut usize,
) -> u32
    ensures { TellsText (IsWholeText Question) result slot.old slot.new room.new length.new }
{
    look_whole(alloc, slot, Whole::Question, room, length)
}

/// Tells what answers such a question.
#[unsafe(no_mangle)]
pub extern "C" fn rds_answer(
    alloc: Global,
    slot: &mut Slot,
    question: &[u8],
    room: &mut [u8],
    length: &mut usize,
) -> u32
    ensures { TellsText (Responds question.now) result slot.old slot.new room.new length.new }
{
    let Some(mut held) = take_out(alloc, slot) else {
        return CLOSED;
    };
    let made = answer_of(held.draft.document(), question);
    let ended = held.tell(alloc, made, room, length);
    put_back(slot, held);
    ended
}

/// Tells the last text again that didn't fit, or the words of the last fault.
#[unsafe(no_mangle)]
pub extern "C" fn rds_told(
    alloc: Global,
    slot: &mut Slot,
    room: &mut [u8],
    length: &mut usize,
) -> u32
    ensures told { result ≡ 0 → IsTold (left_in slot.old) room.new length.new }
    ensures left { result ≡ 66 → IsLeft (left_in slot.old) (left_in slot.new) length.new }
    ensures kept { slot.new.handle.document ≡ slot.old.handle.document }
{
    let Some(held) = take_out(alloc, slot) else {
        return CLOSED;
    };
    let ended = held.tell_again(room, length);
    put_back(slot, held);
    ended
}

/// Takes what answers a question of this replica's, and tells how many components that brought.
#[unsafe(no_mangle)]
pub extern "C" fn rds_take(
    alloc: Global,
    slot: &mut Slot,
    question: &[u8],
    answer: &[u8],
    taken: &mut u64,
) -> u32
    ensures taken { result ≡ 0 → TakesInSlot question.now answer.now slot.old slot.new taken.new }
    ensures kept { IsKeptUnlessDone result slot.old slot.new }
{
    let Some(mut held) = take_out(alloc, slot) else {
        return CLOSED;
    };
    let outcome = held.draft.take(question, answer);
    let ended = held.tell_count(alloc, outcome, taken);
    put_back(slot, held);
    ended
}

/// Takes all that a snapshot has, and tells how many components of it were lacking.
#[unsafe(no_mangle)]
pub extern "C" fn rds_merge(alloc: Global, slot: &mut Slot, snapshot: &[u8], taken: &mut u64) -> u32
    ensures taken { result ≡ 0 → Merges snapshot.now slot.old slot.new taken.new }
    ensures kept { IsKeptUnlessDone result slot.old slot.new }
{
    let Some(mut held) = take_out(alloc, slot) else {
        return CLOSED;
    };
    let outcome = held.draft.merge(snapshot);
    let ended = held.tell_count(alloc, outcome, taken);
    put_back(slot, held);
    ended
}

/// Puts a name last in the roster.
#[unsafe(no_mangle)]
pub extern "C" fn rds_grow(alloc: Global, slot: &mut Slot, name: &[u8]) -> u32
    ensures grown { result ≡ 0 → Changes (IsGrownBy name.now) slot.old slot.new }
    ensures kept { IsKeptUnlessDone result slot.old slot.new }
{
    let Ok(name) = str::from_utf8(name) else {
        return NOT_UTF8;
    };
    let Some(mut held) = take_out(alloc, slot) else {
        return CLOSED;
    };
    let outcome = held.draft.grow(name);
    let ended = held.tell_done(alloc, outcome);
    put_back(slot, held);
    ended
}

/// Opens the replica of a file, which is kept as it is, and tells where the parts of the file stand.
#[unsafe(no_mangle)]
pub extern "C" fn file_open(
    alloc: Global,
    slot: &mut Slot,
    bytes: &[u8],
    layout: &mut LayoutC,
) -> u32
    ensures opened { result ≡ 0 → OpensFile bytes.now layout.new slot.new }
    ensures kept { IsKeptUnlessDone result slot.old slot.new }
{
    fill(alloc, slot, opened_file(alloc, bytes, layout))
}

/// The replica of a file, which is kept as it is.
fn opened_file(alloc: Global, bytes: &[u8], layout: &mut LayoutC) -> Result<Draft, Fault>
    ensures { IfOk result (IsOpenedFrom bytes.now layout.new) }
{
    let (document, stands) = Document::open_stored(alloc, bytes)?;
    *layout = layout_for_c(stands);
    let mut draft = Draft::of(document);
    draft.set_kept();
    Ok(draft)
}

/// Tells the record of what changed the replica since it was kept. It is refused as too long where that isn't noted, or
/// is more than a record has.
#[unsafe(no_mangle)]
pub extern "C" fn file_change(
    alloc: Global,
    slot: &mut Slot,
    room: &mut [u8],
    length: &mut usize,
) -> u32
    ensures { TellsTextOf IsRecord result slot.old slot.new room.new length.new }
{
    let Some(mut held) = take_out(alloc, slot) else {
        return CLOSED;
    };
    let made = record_of(alloc, &held.draft);
    let ended = held.tell(alloc, made, room, length);
    put_back(slot, held);
    ended
}

/// The replica was kept as it is now.
#[unsafe(no_mangle)]
pub extern "C" fn file_kept(alloc: Global, slot: &mut Slot) -> u32
    ensures kept { result ≡ 0 → SetsKept slot.old slot.new }
    ensures closed { IsKeptUnlessDone result slot.old slot.new }
{
    let Some(mut held) = take_out(alloc, slot) else {
        return CLOSED;
    };
    held.draft.set_kept();
    put_back(slot, held);
    OK
}
