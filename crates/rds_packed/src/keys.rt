//! Keys that are read by their packed numbers in a table.
ghost use Rattle.std.specs.Prelude.{◌≡◌, ◌<◌, ◌^◌, IfOk, refl};
ghost use Rattle.rds_bytes.specs.Reading.{Reads, ReadsExactly};
ghost use Rattle.rds_bytes.specs.TableValue.{meeting};
ghost use Rattle.rds_packed.specs.PackedReading.{packed_u32_at, packed_key_at};

use rds_bytes::{KeySource, TableKeys, read_packed};
use rds_names::{Fault, Key};
use std::alloc::Global;
use std::marker::Model;

/// The keys of a table by their packed numbers, and how many of them have been met in turn.
#[derive(Drop)]
pub struct PackedKeys<'a> {
    keys: TableKeys<'a>,
}

impl<'a> Model for PackedKeys<'a> {
    ghost use Rattle.rds_bytes.specs.TableValue.{TableValue, coded_table};

    ghost Value = { TableValue };

    ghost coded = { coded_table };

    ghost view = { λ k. k.keys };
}

impl<'a> PackedKeys<'a> {
    /// The same keys, by their packed numbers.
    pub fn new(keys: TableKeys<'a>) -> PackedKeys<'a>
        ensures { result ≡ keys.entry }
    {
        PackedKeys { keys }
    }
}

impl PackedKeys<'_> {
    /// How many keys have been met in turn, or nothing where one was met out of turn.
    pub fn into_met(self) -> Option<usize>
        ensures { result ≡ self.entry.met }
    {
        self.keys.into_met()
    }
}

/// A packed number that four bytes can say.
pub fn read_packed_u32(bytes: &[u8]) -> Result<(u32, &[u8]), Fault>
    ensures { ReadsExactly (λ x. (x.0, x.1.now)) result (packed_u32_at bytes.now) }
{
    let (number, rest) = read_packed(bytes)?;
    if number > u64::from(u32::MAX) {
        return Err(Fault::Bad);
    }
    Ok((number as u32, rest))
}

impl KeySource for PackedKeys<'_> {
    ghost reader = { λ t. packed_key_at t.keys };

    ghost after = { meeting };

    ghost steady = { λ s key. refl };

    fn read<'a>(&mut self, alloc: Global, bytes: &'a [u8]) -> Result<(Key, &'a [u8]), Fault> {
        let (number, rest) = read_packed_u32(bytes)?;
        // A table gives its keys by numbers of four bytes.
        let spelled = number.to_be_bytes();
        let (key, _) = self.keys.read(alloc, &spelled)?;
        Ok((key, rest))
    }
}
