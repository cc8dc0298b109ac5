//! A document behind a pointer that C may keep: the pointer says nothing of what it leads to, and what it owns is a
//! ghost's to tell.
ghost use Rattle.std.specs.Prelude.{◌≡◌, Option, None, Some};
ghost use Rattle.rds_c.specs.declared.opened.Opened.{Opened};
ghost use Rattle.rds_c.specs.Held.{held_owns, document_coded, is_held};

use crate::opened::Opened;
use crate::parts::Parts;
use std::alloc::Global;
use std::marker::Model;
use std::ptr::null_mut;

/// What the pointer of a handle leads to, as far as its type tells.
#[repr(C)]
#[derive(Drop)]
pub struct Opaque {
    byte: u8,
}

/// A document of its own, or none.
#[repr(C)]
#[derive(Drop)]
pub struct Handle {
    at: *mut Opaque,
    alloc: Global,
    pub ghost document: { Option Opened } by { document_coded },
}

impl Model for Handle {
    ghost also_owns = { λ h. held_owns h.alloc h.at h.document };
}

// Proved beside it: it moves as the document does at its pointer.
unsafe impl Send for Handle {}

/// The handle of no document.
pub fn closed(alloc: Global) -> Handle
    ensures { result.document ≡ None }
{
    Handle {
        at: null_mut(),
        alloc,
    }
}

/// The handle of a document.
pub fn of_parts(parts: Parts<Opened, Global>) -> Handle
    ensures { result.document ≡ Some parts.value }
{
    let Parts { ptr, alloc } = parts;
    Handle {
        at: ptr as *mut Opaque,
        alloc,
    }
}

/// The document of a handle that has one.
pub fn into_parts(handle: Handle) -> Parts<Opened, Global>
    requires { is_held handle.document ≡ 1 }
    ensures { handle.document ≡ Some result.value }
{
    let Handle { at, alloc } = handle;
    Parts {
        ptr: at as *mut Opened,
        alloc,
    }
}
