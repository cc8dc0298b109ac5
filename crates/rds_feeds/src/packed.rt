//! A packed number.
ghost use Rattle.std.specs.Prelude.{◌≡◌, ℕ, List};
ghost use Rattle.rds_bytes.specs.Packed.{packed_at};
ghost use Rattle.rds_bytes.specs.SteadyParts.{packed_steady};

use crate::once::{Once, Part};
use crate::unfinished::Unfinished;
use rds_bytes::read_packed;
use rds_names::Fault;
use std::alloc::Global;

/// Reads a packed number.
#[derive(Drop)]
pub struct PackedReader {}

impl Part for PackedReader {
    type Read = u64;

    type Whole = u64;

    ghost reader = { λ _. packed_at };

    ghost made = { λ _ number. number };

    fn read<'a>(&self, _alloc: Global, bytes: &'a [u8]) -> Result<(u64, &'a [u8]), Fault> {
        let (number, rest) = read_packed(bytes)?;
        Ok((number, rest))
    }

    fn make(self, part: u64) -> Result<u64, Fault> {
        let PackedReader {} = self;
        Ok(part)
    }

    ghost steady = { λ _. packed_steady };
}

/// A packed number that is being read.
pub type UnfinishedPacked = Once<PackedReader>;

/// A packed number of which nothing was read.
pub fn unfinished_packed() -> UnfinishedPacked
    ensures { (bytes : List ℕ) → ⟦<UnfinishedPacked as Unfinished>⟧.finish result bytes ≡ packed_at bytes }
{
    Once {
        part: PackedReader {},
    }
}
