//! What a record that wasn't written whole may leave.
ghost use Rattle.std.specs.Prelude.{◌≡◌, ◌+◌, ◌≤◌, ◌↔◌, IsTrue, length};
ghost use Rattle.rds_journal.specs.Records.{claimed, claimed_in_all, HasNoRecord, IsTorn};

use crate::records::{HEAD, MOST, first_record};

/// The most bytes that are read to tell that no record begins at any place of a torn end.
pub const SCAN: usize = 536_870_912;

/// Whether the bytes behind the whole records are a torn end, which the next writer cuts off. Other bytes there are
/// damage: a whole record may stand behind what was damaged.
pub fn is_torn(rest: &[u8]) -> bool
    ensures { IsTrue result ↔ IsTorn rest.now }
{
    if MOST + HEAD < rest.len() || SCAN < claimed_in_all(rest) {
        return false;
    }
    has_no_record(rest)
}

// How many bytes are to be read to tell that.
fn claimed_in_all(bytes: &[u8]) -> usize
    requires { length bytes.now ≤ MOST + HEAD }
    ensures { result ≡ claimed_in_all bytes.now }
{
    let mut sum = 0;
    let mut rest = bytes;
    'adding: while let Some((_, later)) = rest.split_first() {
        sum += claimed(rest);
        rest = later;
    }
    sum
}

// How many bytes a record has that the bytes seem to begin with.
fn claimed(bytes: &[u8]) -> usize
    ensures { result ≡ claimed bytes.now }
{
    if bytes.len() < HEAD {
        return 0;
    }
    let count = u32::from_be_bytes([bytes[0], bytes[1], bytes[2], bytes[3]]) as usize;
    if count <= MOST && count + HEAD <= bytes.len() {
        count + HEAD
    } else {
        0
    }
}

// Whether no record begins at any place.
fn has_no_record(bytes: &[u8]) -> bool
    ensures { IsTrue result ↔ HasNoRecord bytes.now }
{
    let mut rest = bytes;
    'seeking: while let Some((_, later)) = rest.split_first() {
        if first_record(rest).is_some() {
            return false;
        }
        rest = later;
    }
    true
}
