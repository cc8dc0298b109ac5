//! Links over which what the system has taken may still be on its way.
ghost use Rattle.std.specs.Prelude.{◌≡◌, ◌/◌, min};

/// So many bytes of it give a second more.
const SLOWEST: u64 = 16_384;

/// There are so many seconds more at most.
const MOST_MORE: u64 = 270;

/// How many seconds more the other end of a connection is waited for, where the system has taken so many bytes for it
/// since it was heard.
pub fn more_seconds(taken: u64) -> u64
    ensures { result ≡ min (taken / 16384) 270 }
{
    (taken / SLOWEST).min(MOST_MORE)
}
