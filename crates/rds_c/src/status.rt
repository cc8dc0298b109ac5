//! How a call ended, as a number, and what an edit did, as C has it.
ghost use Rattle.std.specs.Prelude.{◌≡◌, ◌≢◌, ◌≤◌};
ghost use Rattle.rds_names.specs.Fault.{number_of};
ghost use Rattle.rds_c.specs.Told.{IsNarrowed, IsWordsOf, edited_for_c, layout_for_c};

use rds_codec::Format;
use rds_keep::Layout;
use rds_store::{Edited, Fault};
use std::alloc::Global;

/// It was done.
pub const OK: u32 = 0;

/// There is no document in the slot.
pub const CLOSED: u32 = 64;

/// There is one already.
pub const OPENED: u32 = 65;

/// The bytes don't fit into the room.
pub const ROOM: u32 = 66;

/// A text isn't UTF-8.
pub const NOT_UTF8: u32 = 67;

/// What an edit did: whether it made a dot live, that dot's number, and how many live dots it made dead.
#[repr(C)]
#[derive(Drop)]
pub struct EditedC {
    pub has_dot: u64,
    pub number: u64,
    pub killed: u64,
}

/// Where the parts of a file stand: whether records may follow, as its snapshot is of the format that is written, where
/// its snapshot ends, and where its last whole record does.
#[repr(C)]
#[derive(Drop)]
pub struct LayoutC {
    pub takes_records: u64,
    pub snapshot: u64,
    pub whole: u64,
}

/// Where the parts of a file stand, for C.
pub fn layout_for_c(layout: Layout) -> LayoutC
    ensures { result ≡ layout_for_c layout }
{
    let takes_records = match layout.format {
        Format::One => 0,
        Format::Two => 1,
    };
    LayoutC {
        takes_records,
        snapshot: layout.snapshot,
        whole: layout.whole,
    }
}

/// A fault's number.
pub fn status(fault: Fault) -> u32
    ensures number { result ≡ number_of fault }
    ensures some { result ≢ 0 }
    ensures few { result ≤ 63 }
{
    u32::from(fault.number())
}

/// A fault in words. There are none where there is no memory for them.
pub fn words_of(alloc: Global, fault: Fault) -> Vec<u8>
    ensures { IsWordsOf fault result.items }
{
    match format!(in alloc; "{fault}") {
        Ok(words) => words.into_bytes(),
        Err(_) => Vec::new(alloc),
    }
}

/// What an edit did, for C.
pub fn edited_for_c(edited: Edited) -> EditedC
    ensures { result ≡ edited_for_c edited }
{
    match edited.dot {
        Some(dot) => EditedC {
            has_dot: 1,
            number: dot.seq,
            killed: edited.killed,
        },
        None => EditedC {
            has_dot: 0,
            number: 0,
            killed: edited.killed,
        },
    }
}

/// How many components came, or the greatest number of 64 bits where they are more.
pub fn narrowed(components: u128) -> u64
    ensures { IsNarrowed components result }
{
    match u64::try_from(components) {
        Ok(components) => components,
        Err(_) => u64::MAX,
    }
}
