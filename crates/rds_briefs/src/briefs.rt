//! The brief of a digest: its short text.
ghost use Rattle.std.specs.Prelude.{◌≡◌, ◌≢◌, ◌≤◌, ◌<◌, ◌^◌, ℕ, List, ◌++◌, length, IfOk, IfErr, MatchOption, MatchResult};
ghost use Rattle.rds_names.specs.declared.fault.Fault.TheVariants.{Memory};
ghost use Rattle.rds_delta.specs.Digested.{DigestValue};
ghost use Rattle.rds_counts.specs.Counted.{Counted};
ghost use Rattle.rds_counts.specs.RowsOf.{count_rows};
ghost use Rattle.rds_bytes.specs.Reading.{Reads};
ghost use Rattle.rds_bytes.specs.Spelling.{counters_text};
ghost use Rattle.rds_bytes.specs.Values.{AreCountsOf};
ghost use Rattle.rds_codec.specs.Decoding.{Decodes, ReadsAll};
ghost use Rattle.rds_codec.specs.DigestTexts.{IsDigestOf};
ghost use Rattle.rds_codec.specs.Writing.{Encodes};
ghost use Rattle.rds_codec.specs.declared.limits.TheConstants.{LIMIT};
ghost use Rattle.rds_briefs.specs.Briefs.{RefusesBrief, brief_kind, brief_text};
ghost use Rattle.rds_briefs.specs.ReadBriefs.{brief_at, cut_as_bad};
ghost use Rattle.rds_briefs.specs.Readers.{OrMemory};

use crate::runs::read_runs;
use crate::text::Text;
use crate::writing::put_runs;
use rds_codec::LIMIT;
use rds_counts::Counts;
use rds_delta::Digest;
use rds_dots::DotSet;
use rds_feeds::{Progress, Unfinished, unfinished_counters};
use rds_names::Fault;
use std::alloc::Global;

/// The digest's brief. Above the limit it is refused (`TooLong`).
///
/// It is written in one pass over the runs of the digest, into memory that grows with it.
pub fn encode_brief<S: DotSet>(alloc: Global, digest: &Digest<S>) -> Result<Vec<u8>, Fault>
    ensures { Encodes (brief_text digest.now) result }
{
    let mut text = Text::new(alloc);
    put_runs(alloc, &mut text, digest.seen(), digest.live());
    text.with_counters(digest.counts())
}

/// The value at the front of bytes, and the bytes after it; `Cut` where it isn't whole.
fn read_front<'a, U: Unfinished>(
    alloc: Global,
    unfinished: U,
    bytes: &'a [u8],
) -> Result<(U::Whole, &'a [u8]), Fault>
    ensures { Reads (λ x. (x.0, x.1.now)) result (U.finish unfinished bytes.now) }
{
    let (progress, rest) = unfinished.read_on(alloc, bytes)?;
    match progress {
        Progress::More(_) => Err(Fault::Cut),
        Progress::Whole(whole) => Ok((whole, rest)),
    }
}

/// The counters at the front of bytes, and the bytes after them.
fn read_counters(alloc: Global, replicas: u16, bytes: &[u8]) -> Result<(Counts, &[u8]), Fault>
    ensures are { IfOk result (λ x. AreCountsOf replicas x.0) }
    ensures text { (m : Counted) (rest : List ℕ) → AreCountsOf replicas m → length (count_rows m) < 2 ^ 32
        → bytes.now ≡ counters_text m ++ rest → OrMemory (λ x. (x.0 ≡ m) × (x.1.now ≡ rest)) result }
{
    let (counts, rest) = read_front(alloc, unfinished_counters(alloc, replicas), bytes)?;
    Ok((counts, rest))
}

/// A digest of so many replicas, which is the one whose brief stands at the front of the bytes, if one does.
fn read_digest<S: DotSet>(alloc: Global, replicas: u16, bytes: &[u8]) -> Result<Digest<S>, Fault>
    requires within { length bytes.now ≤ LIMIT }
    ensures value { IfOk result (λ digest. IsDigestOf replicas digest) }
    ensures text { (g : DigestValue) (rest : List ℕ) → IsDigestOf replicas g → bytes.now ≡ brief_text g ++ rest
        → OrMemory (λ digest. digest ≡ g) result }
{
    let (sets, rest) = read_runs::<S>(alloc, replicas, bytes)?;
    let (counts, _) = read_counters(alloc, replicas, rest)?;
    let (seen, live) = sets;
    match Digest::from_parts(seen, live, counts) {
        Some(digest) => Ok(digest),
        None => Err(Fault::Bad),
    }
}

/// What follows a text at the front of bytes. `None` where they begin otherwise.
fn after_text<'a>(bytes: &'a [u8], text: &[u8]) -> Option<&'a [u8]>
    ensures { MatchOption result ((rest : List ℕ) → bytes.now ≢ text.now ++ rest)
        (λ rest. bytes.now ≡ text.now ++ rest.now) }
{
    bytes.strip_prefix(text)
}

/// What follows the digest's brief at the front of bytes. `None` where they begin otherwise.
fn after_brief<'a, S: DotSet>(
    alloc: Global,
    digest: &Digest<S>,
    bytes: &'a [u8],
) -> Result<Option<&'a [u8]>, Fault>
    requires { length bytes.now ≤ LIMIT }
    ensures exact { IfOk result (λ found. MatchOption found
        ((rest : List ℕ) → bytes.now ≢ brief_text digest.now ++ rest)
        (λ rest. bytes.now ≡ brief_text digest.now ++ rest.now)) }
    ensures memory { IfErr result (λ e. e ≡ Memory) }
{
    match encode_brief(alloc, digest) {
        Ok(text) => Ok(after_text(bytes, &text)),
        Err(Fault::TooLong) => Ok(None),
        Err(_) => Err(Fault::Memory),
    }
}

/// Why bytes have no brief in front.
fn refusal(fault: Fault) -> Fault
    ensures one { RefusesBrief result }
    ensures memory { fault ≡ Memory → result ≡ Memory }
{
    match fault {
        Fault::Memory => Fault::Memory,
        Fault::Cut => Fault::Cut,
        _ => Fault::Bad,
    }
}

/// The digest of so many replicas whose brief stands at the front of the bytes, and the bytes after it.
///
/// A digest is read as from a text that is one. Its brief is written then, and compared.
fn read_brief<'a, S: DotSet>(
    alloc: Global,
    replicas: u16,
    bytes: &'a [u8],
) -> Result<(Digest<S>, &'a [u8]), Fault>
    requires { length bytes.now ≤ LIMIT }
    ensures value { IfOk result (λ x. IsDigestOf replicas x.0 × (bytes.now ≡ brief_text x.0 ++ x.1.now)) }
    ensures text { (g : DigestValue) (rest : List ℕ) → IsDigestOf replicas g → bytes.now ≡ brief_text g ++ rest
        → OrMemory (λ x. (x.0 ≡ g) × (x.1.now ≡ rest)) result }
    ensures fault { IfErr result RefusesBrief }
{
    let digest = match read_digest::<S>(alloc, replicas, bytes) {
        Ok(digest) => digest,
        Err(fault) => return Err(refusal(fault)),
    };
    let found = after_brief(alloc, &digest, bytes)?;
    match found {
        Some(rest) => Ok((digest, rest)),
        None => Err(Fault::Bad),
    }
}

/// The digest whose brief the bytes are, of a roster of so many replicas.
///
/// Refused are bytes above the limit (`TooLong`, before anything is read); bytes that go on after a brief (`Extra`);
/// and other bytes that are no brief: `Cut` where they end inside a part, `Bad` where a part that is there is none or
/// isn't written so, as the longer of the two forms. The work is by the bytes and by the runs that they say, never by a
/// number that stands in them.
pub fn decode_brief<S: DotSet>(
    alloc: Global,
    replicas: u16,
    bytes: &[u8],
) -> Result<Digest<S>, Fault>
    ensures text { Decodes (brief_kind replicas) bytes.now result }
    ensures reads { ReadsAll (brief_at replicas) bytes.now (cut_as_bad result) }
{
    if LIMIT < bytes.len() {
        return Err(Fault::TooLong);
    }
    let (digest, rest) = read_brief(alloc, replicas, bytes)?;
    if !rest.is_empty() {
        return Err(Fault::Extra);
    }
    Ok(digest)
}
