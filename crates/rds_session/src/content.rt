//! What whole messages say.
use crate::kinds::ByeCode;
use crate::talk::Side;
use crate::version::Version;
use rds_codec::{Answer, Format, Hello};
use rds_delta::Digest;
use rds_dots::DotSet;
use rds_state::Mark;

/// The message that is waited for, with what its body is read by.
#[derive(Clone, Copy, Debug, PartialEq, Eq)]
pub enum Expected {
    /// A HELLO to this side.
    Hello {
        side: Side,
    },
    /// A digest as a version says it, of a roster of so many replicas, or where it may come so its hash.
    Digest {
        version: Version,
        replicas: u16,
        hashed: bool,
    },
    /// An answer in a format, of a roster of so many replicas.
    Delta {
        format: Format,
        replicas: u16,
    },
    /// A BYE, which says a mark behind the code `Done` or none.
    Bye {
        marked: bool,
    },
}

impl Expected {
    ghost use Rattle.std.specs.Prelude.{◌≡◌};
    ghost use Rattle.rds_session.specs.Contents.{expects_hash, expects_mark};

    /// Whether it is a BYE that says a mark.
    pub fn is_marked(self) -> bool
        ensures { result ≡ expects_mark self }
    {
        match self {
            Expected::Bye { marked } => marked,
            _ => false,
        }
    }

    /// Whether it may be the hash of a digest.
    pub fn is_hashed(self) -> bool
        ensures { result ≡ expects_hash self }
    {
        match self {
            Expected::Digest { hashed, .. } => hashed,
            _ => false,
        }
    }
}

/// What a message says, before it is judged.
#[derive(Drop)]
pub enum Content<S: DotSet> {
    /// Who speaks, in a version that is spoken here.
    Hello(Version, Hello),
    Digest(Digest<S>),
    /// The hash of a digest.
    Hash([u8; 32]),
    Delta(Answer<S>),
    Bye(ByeCode),
    /// The code `Done`, with this mark.
    Mark(Mark),
}
