//! Tags: what a replica has seen, and what it holds.
ghost use Rattle.std.specs.Prelude.{◌≡◌, ◌↔◌, IsTrue, IfErr, IfOk};
ghost use Rattle.rds_bytes.specs.Reading.{ReadsExactly, bytes_at};
ghost use Rattle.rds_bytes.specs.Writing.{Adds};
ghost use Rattle.rds_state.specs.Mark.{mark_of};
ghost use Rattle.rds_questions.specs.Tags.{IsForkOf, IsTagOf, RefusesTag, tag_at, tag_bytes};

use crate::questions::Question;
use rds_bytes::{put_u64, read_u64};
use rds_dots::DotSet;
use rds_names::Fault;
use rds_state::{Mark, Replica};
use std::alloc::{AllocError, Global};

/// The tag of what a replica asks. Replicas with one hash have seen the same: they have the same roster and the same
/// digest. Then they have one mark too, unless their histories are forked.
#[derive(Clone, Copy, Debug, PartialEq, Eq)]
pub struct Tag {
    /// The hash of the question, as [`Question::hash`] tells it.
    pub hash: [u8; 32],
    /// The mark of the state.
    pub mark: Mark,
}

impl Tag {
    /// The tag of what a replica asks. A digest whose brief is above the limit has none (`TooLong`).
    pub fn of<S: DotSet>(alloc: Global, replica: &Replica<S>) -> Result<Tag, Fault>
        ensures tag { IfOk result (IsTagOf replica.now) }
        ensures fault { IfErr result (RefusesTag replica.now) }
    {
        Tag::with_mark(alloc, replica, replica.state().mark())
    }

    /// The same, where the mark of the replica's state is known: no pass over its rows is made for it.
    pub fn with_mark<S: DotSet>(
        alloc: Global,
        replica: &Replica<S>,
        mark: Mark,
    ) -> Result<Tag, Fault>
        requires { mark ≡ mark_of replica.now.state }
        ensures tag { IfOk result (IsTagOf replica.now) }
        ensures fault { IfErr result (RefusesTag replica.now) }
    {
        let question = Question::of(alloc, replica)?;
        let hash = question.hash(alloc)?;
        Ok(Tag { hash, mark })
    }

    /// Whether two replicas with these tags are forked: they have seen the same, and hold different entries.
    pub fn is_fork_of(&self, other: &Tag) -> bool
        ensures { IsTrue result ↔ IsForkOf self.now other.now }
    {
        self.hash == other.hash && self.mark != other.mark
    }
}

/// Adds the bytes of a hash.
fn put_hash(out: &mut Vec<u8>, hash: &[u8; 32]) -> Result<(), AllocError>
    ensures { Adds out.old.items out.new.items hash.now result }
{
    out.extend_from_slice(hash)?;
    Ok(())
}

/// Adds the text of a tag.
pub fn put_tag(out: &mut Vec<u8>, tag: &Tag) -> Result<(), AllocError>
    ensures { Adds out.old.items out.new.items (tag_bytes tag.now) result }
{
    put_hash(out, &tag.hash)?;
    put_u64(out, tag.mark.high)?;
    put_u64(out, tag.mark.low)?;
    Ok(())
}

/// The 32 bytes of a hash, and the bytes after them.
fn read_hash(bytes: &[u8]) -> Result<([u8; 32], &[u8]), Fault>
    ensures { ReadsExactly (λ x. (x.0, x.1.now)) result (bytes_at 32 bytes.now) }
{
    match bytes.split_first_chunk::<32>() {
        Some((hash, rest)) => Ok((*hash, rest)),
        None => Err(Fault::Cut),
    }
}

/// A tag, and the bytes after it.
#[tactic(auto, unfolding(crate::specs::Tags::tag_at))]
pub fn read_tag(bytes: &[u8]) -> Result<(Tag, &[u8]), Fault>
    ensures { ReadsExactly (λ x. (x.0, x.1.now)) result (tag_at bytes.now) }
{
    let (hash, rest) = read_hash(bytes)?;
    let (high, rest) = read_u64(rest)?;
    let (low, rest) = read_u64(rest)?;
    let mark = Mark { high, low };
    Ok((Tag { hash, mark }, rest))
}
