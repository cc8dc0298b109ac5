//! How long a text may be.
ghost use Rattle.std.specs.Prelude.{◌≡◌, ◌≤◌, []};
ghost use Rattle.rds_codec.specs.Writing.{HasRoom};

use rds_names::Fault;
use std::alloc::Global;

/// The greatest length of a text, in bytes.
pub const LIMIT: usize = 268_435_456;

/// No bytes, with room for a text of this length and no longer one.
pub fn room_for(alloc: Global, length: u128) -> Result<Vec<u8>, Fault>
    ensures { HasRoom length result }
{
    if u128::from(LIMIT as u64) < length {
        return Err(Fault::TooLong);
    }
    Ok(Vec::with_capacity(alloc, length as usize)?)
}
