//! The formats of texts that hold a state.
ghost use Rattle.std.specs.Prelude.{◌≡◌};
ghost use Rattle.rds_bytes.specs.Reading.{ReadsExactly};
ghost use Rattle.rds_bytes.specs.Writing.{Adds};
ghost use Rattle.rds_codec.specs.FormatTexts.{format_at};
ghost use Rattle.rds_codec.specs.HelloTexts.{format_spoken, version_of};
ghost use Rattle.rds_codec.specs.StateTexts.{magic_of};

use rds_bytes::MAGIC;
use rds_names::Fault;
use std::alloc::AllocError;

/// What a snapshot of format 2 begins with.
const MAGIC_TWO: &[u8; 4] = b"RDS2";

/// How the keys of a state are written.
#[derive(Clone, Copy, Debug, PartialEq, Eq)]
pub enum Format {
    /// Each key is spelled out wherever it stands.
    One,
    /// A table of the keys stands in front, and each key is its number there.
    Two,
}

impl Format {
    /// The version that a hello says, whose session speaks in this format.
    pub fn version(self) -> u8
        ensures { result ≡ version_of self }
    {
        match self {
            Format::One => 1,
            Format::Two => 2,
        }
    }

    /// The format in which a session speaks whose hello says this version.
    pub fn of_version(version: u8) -> Option<Format>
        ensures { result ≡ format_spoken version }
    {
        match version {
            1 => Some(Format::One),
            2 => Some(Format::Two),
            _ => None,
        }
    }
}

/// The format that the four bytes in front of a snapshot say.
#[tactic(auto, unfolding(crate::specs::FormatTexts::format_at))]
pub fn read_format(bytes: &[u8]) -> Result<(Format, &[u8]), Fault>
    ensures { ReadsExactly (λ x. (x.0, x.1.now)) result (format_at bytes.now) }
{
    if bytes.len() < 4 {
        return Err(Fault::Cut);
    }
    let (front, rest) = bytes.split_at(4);
    if front == MAGIC.as_slice() {
        return Ok((Format::One, rest));
    }
    if front == MAGIC_TWO.as_slice() {
        return Ok((Format::Two, rest));
    }
    Err(Fault::Bad)
}

/// The four bytes in front of a snapshot in a format.
pub fn put_magic(out: &mut Vec<u8>, format: Format) -> Result<(), AllocError>
    ensures { Adds out.old.items out.new.items (magic_of format) result }
{
    match format {
        Format::One => out.extend_from_slice(MAGIC),
        Format::Two => out.extend_from_slice(MAGIC_TWO),
    }
}
