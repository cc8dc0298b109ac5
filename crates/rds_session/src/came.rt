//! The bytes that came of a message, for contracts alone.
ghost use Rattle.std.specs.Prelude.{◌≡◌, ℕ, List, [], ◌++◌};
ghost use Rattle.std.specs.Borrow.{ftrue};

use std::marker::{Model, PhantomData};

/// The bytes that came. Only contracts see them: no memory holds them.
#[derive(Drop)]
pub struct Came {
    marker: PhantomData<u8>,
    pub ghost bytes: { List ℕ },
}

impl Model for Came {
    ghost also_owns = { λ _. ftrue };
}

impl Came {
    /// No bytes.
    pub fn nothing() -> Came
        ensures { result.bytes ≡ [] }
    {
        Came {
            marker: PhantomData,
        }
    }

    /// These bytes have come behind the others.
    pub fn add(&mut self, _piece: &[u8])
        ensures { self.new.bytes ≡ self.old.bytes ++ _piece.now }
    {}
}
