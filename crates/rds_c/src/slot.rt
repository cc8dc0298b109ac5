//! What C keeps of a document: `rds` of the header. All zeros is one that is closed.
ghost use Rattle.std.specs.Prelude.{◌≡◌, None, Some, MatchOption};
ghost use Rattle.rds_c.specs.Held.{is_held};

use crate::handle::{Handle, closed, into_parts, of_parts};
use crate::opened::Opened;
use crate::parts::Parts;
use std::alloc::Global;
use std::mem::replace;

/// A handle, and whether it has a document.
#[repr(C)]
#[derive(Drop)]
pub struct Slot {
    is_open: u64,
    pub handle: Handle,
    ghost agrees: { is_open ≡ is_held handle.document },
}

/// The document of a slot, which is closed then.
pub fn take_out(alloc: Global, slot: &mut Slot) -> Option<Box<Opened>>
    ensures closed { slot.new.handle.document ≡ None }
    ensures was { MatchOption result (slot.old.handle.document ≡ None)
        (λ document. slot.old.handle.document ≡ Some document.value) }
{
    let empty = Slot {
        is_open: 0,
        handle: closed(alloc),
    };
    let Slot { is_open, handle } = replace(slot, empty);
    if is_open != 1 {
        return None;
    }
    Some(into_parts(handle).into_box())
}

/// Puts a document into a slot that is closed, so that none is lost there.
pub fn put_back(slot: &mut Slot, document: Box<Opened>)
    requires { slot.old.handle.document ≡ None }
    ensures { slot.new.handle.document ≡ Some document.value }
{
    *slot = Slot {
        is_open: 1,
        handle: of_parts(Parts::of(document)),
    };
}
