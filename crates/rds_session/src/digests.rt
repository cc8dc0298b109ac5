//! A digest that is said whole: its text, or from some version on its brief.
ghost use Rattle.std.specs.Prelude.{◌≡◌};
ghost use Rattle.rds_briefs.specs.ReadBriefs.{brief_at};
ghost use Rattle.rds_codec.specs.Decoding.{ReadsAll};
ghost use Rattle.rds_delta.specs.Digested.{digest_of};
ghost use Rattle.rds_session.specs.Messages.{digest_body};
ghost use Rattle.rds_session.specs.Sending.{IsTextOrLost};
ghost use Rattle.rds_session.specs.Wants.{said_behind};

use crate::version::Version;
use crate::wants::said_behind;
use rds_briefs::{decode_brief, encode_brief};
use rds_codec::encode_digest;
use rds_delta::Digest;
use rds_dots::DotSet;
use rds_names::Fault;
use rds_state::Replica;
use std::alloc::Global;

/// A digest as a version says it. One that is over the limit so isn't said (`TooLong`).
fn digest_body<S: DotSet>(
    alloc: Global,
    version: Version,
    digest: &Digest<S>,
) -> Result<Vec<u8>, Fault>
    ensures { IsTextOrLost (digest_body version digest.now) result }
{
    if version.says_briefs() {
        encode_brief(alloc, digest)
    } else {
        encode_digest(alloc, digest)
    }
}

/// A replica's digest as a version says it.
pub fn own_digest<S: DotSet>(
    alloc: Global,
    kept: &Replica<S>,
    version: Version,
) -> Result<Vec<u8>, Fault>
    ensures { IsTextOrLost (digest_body version (digest_of kept.now.state)) result }
{
    let digest = Digest::of(alloc, kept.state())?;
    digest_body(alloc, version, &digest)
}

/// The same as it is said to a peer whose digest is known.
pub fn digest_behind<S: DotSet>(
    alloc: Global,
    kept: &Replica<S>,
    version: Version,
    peer: &Digest<S>,
) -> Result<Vec<u8>, Fault>
    ensures { IsTextOrLost (digest_body version (said_behind version (digest_of kept.now.state) peer.now)) result }
{
    let said = said_behind(alloc, version, kept.state(), peer)?;
    digest_body(alloc, version, &said)
}

/// The digest whose brief these bytes are, of a roster of so many replicas. Bytes that end inside a brief are bad ones.
pub fn read_brief<S: DotSet>(alloc: Global, replicas: u16, bytes: &[u8]) -> Result<Digest<S>, Fault>
    ensures { ReadsAll (brief_at replicas) bytes.now result }
{
    match decode_brief(alloc, replicas, bytes) {
        Err(Fault::Cut) => Err(Fault::Bad),
        read => read,
    }
}
