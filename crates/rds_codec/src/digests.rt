//! The text of a digest: the dots that were seen, those of them that are live, and the counters.
ghost use Rattle.std.specs.Prelude.{◌≡◌, ℕ, List, ◌≤◌, length, Ok, Err, if◌then◌else◌};
ghost use Rattle.rds_names.specs.declared.fault.Fault.TheVariants.{Bad};
ghost use Rattle.rds_dots.specs.Runs.{runs_of};
ghost use Rattle.rds_codec.specs.Decoding.{Decodes, ReadsAll};
ghost use Rattle.rds_codec.specs.DigestTexts.{DigestFits, IsDigestOf, are_seen, digest_text, digest_at, digest_kind};
ghost use Rattle.rds_bytes.specs.DotRows.{rows_from};
ghost use Rattle.rds_bytes.specs.Values.{AreDotsOf};
ghost use Rattle.rds_codec.specs.Writing.{Encodes};
ghost use Rattle.rds_bytes.specs.Writing.{Adds};

use crate::fed::read_whole;
use crate::limits::{LIMIT, room_for};
use rds_bytes::{counters_length, measure_dots, put_counters, put_dots};
use rds_counts::Counts;
use rds_delta::{Digest, is_inside};
use rds_dots::DotSet;
use rds_feeds::{
    Made, Making, Pair, Progress, SeenDots, Unfinished, UnfinishedCounters, UnfinishedDots, pair,
    unfinished_counters, unfinished_dots,
};
use rds_names::Fault;
use std::alloc::{AllocError, Global};
use std::marker::Model;

/// Seen dots, and the live ones of them.
#[derive(Drop)]
pub struct Marked<S: DotSet> {
    seen: S,
    live: S,
}

impl<S: DotSet> Model for Marked<S> {
    ghost use Rattle.std.specs.Coded.{coded×};
    ghost use Rattle.rds_dots.specs.Dots.{Dots};
    ghost use Rattle.rds_delta.specs.Digested.{IsInside};
    ghost use Rattle.rds_life.specs.Code.{coded_dots};

    ghost Value = { Dots × Dots };

    ghost coded = { coded× coded_dots coded_dots };

    ghost view = { λ m. (S.contents m.seen, S.contents m.live) };

    ghost invariant = { λ m. IsInside (S.contents m.live) (S.contents m.seen) };
}

/// Judges that each live dot is seen.
#[derive(Drop)]
pub struct LiveAreSeen {}

impl<S: DotSet> Making<(SeenDots<S>, SeenDots<S>)> for LiveAreSeen {
    type Made = Marked<S>;

    ghost made = { λ _ p. if are_seen p.0 p.1 then Ok p else Err Bad };

    fn make(self, whole: (SeenDots<S>, SeenDots<S>)) -> Result<Marked<S>, Fault> {
        let (seen, live) = whole;
        let seen = seen.into_set();
        let live = live.into_set();
        if !is_inside(&live, &seen) {
            return Err(Fault::Bad);
        }
        Ok(Marked { seen, live })
    }
}

/// The digest of marked dots and counters.
#[derive(Drop)]
pub struct PartsAreDigest {}

impl<S: DotSet> Making<(Marked<S>, Counts)> for PartsAreDigest {
    type Made = Digest<S>;

    ghost made = { λ _ p. Ok (record { seen = p.0.0; live = p.0.1; counts = p.1 }) };

    fn make(self, whole: (Marked<S>, Counts)) -> Result<Digest<S>, Fault> {
        let (marked, counts) = whole;
        let Marked { seen, live } = marked;
        Ok(Digest::with_parts(seen, live, counts))
    }
}

type MarkedParts<S> = Made<Pair<UnfinishedDots<S>, UnfinishedDots<S>>, LiveAreSeen>;

type DigestParts<S> = Made<Pair<MarkedParts<S>, UnfinishedCounters>, PartsAreDigest>;

/// A digest that is being read. No more than one row or gap is held.
#[derive(Drop)]
pub struct UnfinishedDigest<S: DotSet> {
    parts: DigestParts<S>,
}

impl<S: DotSet> Unfinished for UnfinishedDigest<S> {
    type Whole = Digest<S>;

    ghost finish = { λ u. ⟦<DigestParts<S> as Unfinished>⟧.finish u.parts };

    fn read_on<'a>(
        self,
        alloc: Global,
        bytes: &'a [u8],
    ) -> Result<(Progress<Self, Digest<S>>, &'a [u8]), Fault> {
        let (progress, rest) = self.parts.read_on(alloc, bytes)?;
        match progress {
            Progress::More(parts) => Ok((Progress::More(UnfinishedDigest { parts }), rest)),
            Progress::Whole(digest) => Ok((Progress::Whole(digest), rest)),
        }
    }
}

/// A digest of so many replicas, of which nothing was read.
pub fn unfinished_digest<S: DotSet>(alloc: Global, replicas: u16) -> UnfinishedDigest<S>
    ensures { (bytes : List ℕ) → ⟦<UnfinishedDigest<S> as Unfinished>⟧.finish result bytes
        ≡ digest_at replicas bytes }
{
    let marked = Made {
        from: pair(
            unfinished_dots(alloc, replicas),
            unfinished_dots(alloc, replicas),
        ),
        maker: LiveAreSeen {},
    };
    let counters = unfinished_counters(alloc, replicas);
    UnfinishedDigest {
        parts: Made {
            from: pair(marked, counters),
            maker: PartsAreDigest {},
        },
    }
}

/// The digest whose text the bytes are, of a roster of so many replicas.
///
/// They are read from the left, and each part is judged as soon as it is there. Refused are bytes above the
/// limit (`TooLong`, before anything is read); bytes that go on after a text (`Extra`); and other bytes that are no
/// text: `Cut` where they end inside a part, `Bad` where a part that is there is none, as a set of live dots that
/// aren't all seen.
pub fn decode_digest<S: DotSet>(
    alloc: Global,
    replicas: u16,
    bytes: &[u8],
) -> Result<Digest<S>, Fault>
    ensures text { Decodes (digest_kind replicas) bytes.now result }
    ensures read { ReadsAll (digest_at replicas) bytes.now result }
{
    read_whole(alloc, unfinished_digest::<S>(alloc, replicas), bytes)
}

/// The numbers of rows of the seen dots and of the live ones, and the length of the text.
fn measure<S: DotSet>(digest: &Digest<S>) -> ((u16, u16), u128)
    ensures seen { result.0.0 ≡ length (rows_from 0 (runs_of digest.now.seen)) }
    ensures live { result.0.1 ≡ length (rows_from 0 (runs_of digest.now.live)) }
    ensures length { result.1 ≡ length (digest_text digest.now) }
    ensures dots { (replicas : ℕ) → DigestFits replicas digest.now → AreDotsOf replicas digest.now.seen }
    ensures value { (replicas : ℕ) → DigestFits replicas digest.now → IsDigestOf replicas digest.now }
{
    let (seen_rows, seen_length) = measure_dots(digest.seen());
    let (live_rows, live_length) = measure_dots(digest.live());
    (
        (seen_rows, live_rows),
        seen_length + live_length + counters_length(digest.counts()),
    )
}

fn put_digest<S: DotSet>(
    out: &mut Vec<u8>,
    digest: &Digest<S>,
    seen_rows: u16,
    live_rows: u16,
) -> Result<(), AllocError>
    requires seen { seen_rows ≡ length (rows_from 0 (runs_of digest.now.seen)) }
    requires live { live_rows ≡ length (rows_from 0 (runs_of digest.now.live)) }
    requires within { length (digest_text digest.now) ≤ LIMIT }
    ensures { Adds out.old.items out.new.items (digest_text digest.now) result }
{
    put_dots(out, digest.seen(), seen_rows)?;
    put_dots(out, digest.live(), live_rows)?;
    put_counters(out, digest.counts())
}

/// The digest's text, as [`encode_digest`] gives it, and what its measure shows of the digest.
pub fn text_of_digest<S: DotSet>(alloc: Global, digest: &Digest<S>) -> Result<Vec<u8>, Fault>
    ensures text { Encodes (digest_text digest.now) result }
    ensures dots { (replicas : ℕ) → DigestFits replicas digest.now → AreDotsOf replicas digest.now.seen }
    ensures value { (replicas : ℕ) → DigestFits replicas digest.now → IsDigestOf replicas digest.now }
{
    let ((seen_rows, live_rows), length) = measure(digest);
    let mut out = room_for(alloc, length)?;
    put_digest(&mut out, digest, seen_rows, live_rows)?;
    Ok(out)
}

/// The digest's text. Above the limit it is refused (`TooLong`) before any memory is taken; then all memory that
/// the text needs is taken at once.
pub fn encode_digest<S: DotSet>(alloc: Global, digest: &Digest<S>) -> Result<Vec<u8>, Fault>
    ensures text { Encodes (digest_text digest.now) result }
{
    text_of_digest(alloc, digest)
}

/// The text of a digest that fits so many replicas is read again by a roster of these. The function only measures: its
/// contract is this law.
pub fn digests_have_texts<S: DotSet>(digest: &Digest<S>)
    ensures dots { (replicas : ℕ) → DigestFits replicas digest.now → AreDotsOf replicas digest.now.seen }
    ensures value { (replicas : ℕ) → DigestFits replicas digest.now → IsDigestOf replicas digest.now }
{
    measure(digest);
}
