//! The four bytes in front of a text, and what follows them.
ghost use Rattle.std.specs.Prelude.{◌≡◌, ◌++◌, length};
ghost use Rattle.rds_bytes.specs.Reading.{ReadsExactly};
ghost use Rattle.rds_bytes.specs.Writing.{Adds};
ghost use Rattle.rds_codec.specs.Writing.{Encodes};
ghost use Rattle.rds_questions.specs.Questions.{front_at};

use rds_codec::LIMIT;
use rds_names::Fault;
use std::alloc::{AllocError, Global};

/// What the text of a question begins with.
pub const QUESTION_FRONT: &[u8; 4] = b"RDSB";

/// What the text of a response begins with.
pub const RESPONSE_FRONT: &[u8; 4] = b"RDSC";

/// The bytes after these four.
pub fn read_front<'a>(front: &[u8; 4], bytes: &'a [u8]) -> Result<&'a [u8], Fault>
    ensures { ReadsExactly (λ rest. (front.now, rest.now)) result (front_at front.now bytes.now) }
{
    if bytes.len() < 4 {
        return Err(Fault::Cut);
    }
    let (own, rest) = bytes.split_at(4);
    if own != front.as_slice() {
        return Err(Fault::Bad);
    }
    Ok(rest)
}

/// Adds the four bytes and two parts.
fn put_parts(
    out: &mut Vec<u8>,
    front: &[u8; 4],
    hello: &[u8],
    body: &[u8],
) -> Result<(), AllocError>
    ensures { Adds out.old.items out.new.items (front.now ++ (hello.now ++ body.now)) result }
{
    out.extend_from_slice(front)?;
    out.extend_from_slice(hello)?;
    out.extend_from_slice(body)
}

/// A text of the four bytes and two parts. Above the limit it is refused (`TooLong`) before any memory is taken; then
/// all memory that it needs is taken at once.
pub fn whole_text(
    alloc: Global,
    front: &[u8; 4],
    hello: &[u8],
    body: &[u8],
) -> Result<Vec<u8>, Fault>
    ensures { Encodes (front.now ++ (hello.now ++ body.now)) result }
{
    let length = 4 + hello.len() as u128 + body.len() as u128;
    if u128::from(LIMIT as u64) < length {
        return Err(Fault::TooLong);
    }
    let mut out = Vec::with_capacity(alloc, length as usize)?;
    put_parts(&mut out, front, hello, body)?;
    Ok(out)
}
