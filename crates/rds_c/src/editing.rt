//! Edits of the document in a slot.
ghost use Rattle.rds_c.specs.Asked.{valued_of};
ghost use Rattle.rds_c.specs.Promises.{Edits};
ghost use Rattle.rds_names.specs.Scalar.{scalar_of_text};

use crate::asking::{Verb, valued};
use crate::slot::{Slot, put_back, take_out};
use crate::status::{CLOSED, EditedC, NOT_UTF8};
use rds_store::{Command, Fault, Scalar};
use std::alloc::Global;

/// Edits as was asked for.
pub fn edit_as(
    alloc: Global,
    slot: &mut Slot,
    asked: Result<Command, Fault>,
    edited: &mut EditedC,
) -> u32
    ensures { Edits asked result slot.old slot.new edited.new }
{
    let Some(mut held) = take_out(alloc, slot) else {
        return CLOSED;
    };
    let ended = held.edit(alloc, asked, edited);
    put_back(slot, held);
    ended
}

/// Sets, adds or deletes a value at the path that the bytes are.
pub fn edit_value(
    alloc: Global,
    slot: &mut Slot,
    verb: Verb,
    path: &[u8],
    value: Result<Scalar, Fault>,
    edited: &mut EditedC,
) -> u32
    ensures { Edits (valued_of verb path.now value) result slot.old slot.new edited.new }
{
    let Ok(path) = str::from_utf8(path) else {
        return NOT_UTF8;
    };
    edit_as(alloc, slot, valued(alloc, verb, path, value), edited)
}

/// The same of the text that bytes are.
pub fn edit_text(
    alloc: Global,
    slot: &mut Slot,
    verb: Verb,
    path: &[u8],
    text: &[u8],
    edited: &mut EditedC,
) -> u32
    ensures { Edits (valued_of verb path.now (scalar_of_text text.now)) result slot.old slot.new edited.new }
{
    let Ok(text) = str::from_utf8(text) else {
        return NOT_UTF8;
    };
    edit_value(alloc, slot, verb, path, Scalar::text(alloc, text), edited)
}
