//! The header of a snapshot, which stands before the dots.
ghost use Rattle.rds_bytes.specs.Spelling.{header_text};
ghost use Rattle.rds_bytes.specs.Writing.{Adds};

use crate::numbers::put;
use crate::roster::put_member;
use rds_names::Roster;
use std::alloc::AllocError;

/// What the text of a snapshot begins with: the format's name, and its number.
pub const MAGIC: &[u8; 4] = b"RDS1";

/// The header.
pub fn put_header(out: &mut Vec<u8>, roster: &Roster, own: u8) -> Result<(), AllocError>
    ensures { Adds out.old.items out.new.items (header_text roster.now own) result }
{
    put(out, MAGIC)?;
    put_member(out, roster, own)
}
