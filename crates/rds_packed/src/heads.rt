//! The head of an entry: how many keys, which kind and which tag.
ghost use Rattle.std.specs.Prelude.{◌≡◌, ◌<◌};
ghost use Rattle.rds_bytes.specs.Reading.{ReadsExactly};
ghost use Rattle.rds_packed.specs.PackedReading.{head_at, head_kind};
ghost use Rattle.rds_packed.specs.PackedTexts.{entry_head, kind_bit};

use crate::scalars::value_tag;
use rds_bytes::read_byte;
use rds_names::{Entry, Fault, Kind};

/// The first byte that is no head: there are seven tags.
const NO_HEAD: u8 = 112;

/// The next head.
#[tactic(auto, unfolding(crate::specs::PackedReading::head_at))]
pub fn read_head(bytes: &[u8]) -> Result<(u8, &[u8]), Fault>
    ensures { ReadsExactly (λ x. (x.0, x.1.now)) result (head_at bytes.now) }
{
    let (head, rest) = read_byte(bytes)?;
    if head >= NO_HEAD {
        return Err(Fault::Bad);
    }
    Ok((head, rest))
}

/// The kind that a head has.
pub fn head_kind(head: u8) -> Kind
    ensures { result ≡ head_kind head }
{
    if head / 8 % 2 == 0 {
        return Kind::Reg;
    }
    Kind::Elem
}

fn kind_bit(kind: Kind) -> u8
    ensures { result ≡ kind_bit kind }
{
    match kind {
        Kind::Reg => 0,
        Kind::Elem => 1,
    }
}

/// The head of an entry.
pub fn entry_head(entry: &Entry) -> u8
    ensures head { result ≡ entry_head entry.now }
    ensures below { result < 112 }
{
    let keys = (entry.path.len() - 1) as u8;
    keys + 8 * kind_bit(entry.kind) + 16 * value_tag(&entry.value)
}
