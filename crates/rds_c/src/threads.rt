//! What C keeps of a document moves between threads.
ghost use Rattle.std.specs.Prelude.{◌≡◌};

use crate::slot::Slot;

/// A value that another thread may have.
fn sent<T: Send>(value: T) -> T
    ensures { result ≡ value }
{
    value
}

/// A slot, which another thread may have: nothing of its document is shared but by atomic counts.
pub fn sent_slot(slot: Slot) -> Slot
    ensures { result ≡ slot }
{
    sent(slot)
}
