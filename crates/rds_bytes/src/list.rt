//! Reading a list of parts. What a reader says of the bytes that are there holds for all that may follow them.
ghost use Rattle.std.specs.Prelude.{◌≡◌, ℕ, List, [], Result};
ghost use Rattle.rds_names.specs.declared.fault.Fault.{Fault};
ghost use Rattle.rds_bytes.specs.Reading.{Reads, rows_after};
ghost use Rattle.rds_bytes.specs.Steady.{IsSteady};

use rds_names::Fault;
use std::alloc::Global;

/// How the parts of a list are read, each in the light of those before it.
pub trait PartReader<T> {
    ghost reader: { Self → List T → List ℕ → Result (T × List ℕ) Fault };

    /// The next part, where these stand before it, and the bytes after it; or the fault of a part that is cut or bad.
    fn read<'a>(&self, alloc: Global, before: &[T], bytes: &'a [u8]) -> Result<(T, &'a [u8]), Fault>
        ensures { Reads (λ x. (x.0, x.1.now)) result (reader self.now before.now bytes.now) };

    /// What is read stays read whatever follows, and a fault other than `Cut` stays that fault.
    ghost steady: { (r : Self) (before : List T) → IsSteady (reader r before) };
}

/// As many parts as are asked for. Room is made for each as it comes.
pub fn read_parts<'a, T: Drop, R: PartReader<T>>(
    alloc: Global,
    reader: &R,
    count: u32,
    bytes: &'a [u8],
) -> Result<(Vec<T>, &'a [u8]), Fault>
    ensures { Reads (λ x. (x.0.items, x.1.now)) result (rows_after (R.reader reader.now) [] count bytes.now) }
{
    let mut parts = Vec::new(alloc);
    let mut rest = bytes;
    for _ in 0..count {
        let (part, after) = reader.read(alloc, &parts, rest)?;
        parts.push(part)?;
        rest = after;
    }
    Ok((parts, rest))
}
