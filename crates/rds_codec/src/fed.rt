//! Texts of which all bytes are there: they are fed at once, and then the end.
ghost use Rattle.std.specs.Prelude.{◌≡◌, ◌<◌, length, Err};
ghost use Rattle.rds_names.specs.declared.fault.Fault.TheVariants.{TooLong};
ghost use Rattle.rds_bytes.specs.Reading.{Reads};
ghost use Rattle.rds_codec.specs.Decoding.{ReadsAll, all_of};
ghost use Rattle.rds_codec.specs.declared.limits.TheConstants.{LIMIT};

use crate::limits::LIMIT;
use rds_feeds::{Progress, Unfinished};
use rds_names::Fault;
use std::alloc::Global;

/// Feeds all of the bytes, and then the end.
fn read_all<U: Unfinished>(alloc: Global, unfinished: U, bytes: &[u8]) -> Result<U::Whole, Fault>
    ensures { Reads (λ v. v) result (all_of (U.finish unfinished) bytes.now) }
{
    let (progress, rest) = unfinished.read_on(alloc, bytes)?;
    match progress {
        Progress::More(_) => Err(Fault::Cut),
        Progress::Whole(whole) => {
            if !rest.is_empty() {
                return Err(Fault::Extra);
            }
            Ok(whole)
        }
    }
}

/// The value that all of the bytes are. Refused are bytes above the limit (`TooLong`, before anything is read), bytes
/// that go on after it (`Extra`), bytes that end before it does (`Cut`), and what its reading refuses.
pub fn read_whole<U: Unfinished>(
    alloc: Global,
    unfinished: U,
    bytes: &[u8],
) -> Result<U::Whole, Fault>
    ensures long { LIMIT < length bytes.now → result ≡ Err TooLong }
    ensures read { ReadsAll (U.finish unfinished) bytes.now result }
{
    if LIMIT < bytes.len() {
        return Err(Fault::TooLong);
    }
    read_all(alloc, unfinished, bytes)
}
