//! What is made of a value once it is whole.
ghost use Rattle.std.specs.Prelude.{◌≡◌, ℕ, List, ◌++◌, Result, IfOk, IfErr};
ghost use Rattle.rds_names.specs.declared.fault.Fault.{Fault};
ghost use Rattle.rds_feeds.specs.Pieces.{ReadsOn, RefusesAlready};
ghost use Rattle.rds_feeds.specs.Parts.{makes, RefusesValue};

use crate::unfinished::{Progress, Unfinished};
use rds_names::Fault;
use std::alloc::Global;

/// What makes another value of a whole one, or refuses it.
pub trait Making<W>: Sized + Drop {
    /// The other value.
    type Made: Drop;

    ghost made: { Self → W → Result Self.Made Fault };

    /// The other value, or the fault for which there is none.
    fn make(self, whole: W) -> Result<Self::Made, Fault>
        ensures ok { IfOk result (λ value. made self whole ≡ Ok value) }
        ensures err { IfErr result (RefusesValue (made self whole)) };
}

/// A value that is made of another once that is whole.
#[derive(Drop)]
pub struct Made<U, M> {
    pub from: U,
    pub maker: M,
}

impl<U: Unfinished, M: Making<U::Whole>> Unfinished for Made<U, M> {
    type Whole = M::Made;

    ghost finish = { λ s. makes (U.finish s.from) (M.made s.maker) };

    fn read_on<'a>(
        self,
        alloc: Global,
        bytes: &'a [u8],
    ) -> Result<(Progress<Self, Self::Whole>, &'a [u8]), Fault> {
        let Made { from, maker } = self;
        let (progress, rest) = from.read_on(alloc, bytes)?;
        match progress {
            Progress::More(from) => Ok((Progress::More(Made { from, maker }), rest)),
            Progress::Whole(whole) => {
                let value = maker.make(whole)?;
                Ok((Progress::Whole(value), rest))
            }
        }
    }
}
