//! Rows that call digests.
use crate::documents::Documents;
use crate::drafts::insert;
use crate::words::Words;
use rds_counts::Counts;
use rds_delta::{Digest, is_inside};
use rds_dots::DotSet;
use rds_names::Fault;
use rds_rows::told::said_if;
use rds_rows::words::parted;
use std::alloc::Global;

/// `digest NAME STATE` makes the digest of a state, and says how many dots are seen, how many are live, and how many
/// numbers are above 0.
pub fn digest<S: DotSet>(
    documents: &mut Documents<S>,
    alloc: Global,
    rest: &str,
) -> Result<String, Fault> {
    let mut words = Words::new(rest);
    let name = words.word()?;
    let digest = Digest::of(alloc, documents.state(words.word()?)?)?;
    let answer = sizes_text(alloc, &digest)?;
    documents.digests.put(alloc, name, digest)?;
    Ok(answer)
}

fn sizes_text<S: DotSet>(alloc: Global, digest: &Digest<S>) -> Result<String, Fault> {
    let seen = digest.seen().count();
    let live = digest.live().count();
    let numbers = digest.counts().components();
    Ok(format!(in alloc; "seen {seen}; live {live}; numbers {numbers}")?)
}

/// `digest_of_sets SEEN; LIVE` asks whether the sets are those of a digest.
pub fn digest_of_sets<S: DotSet>(alloc: Global, rest: &str) -> Result<String, Fault> {
    let (seen, live) = two_sets::<S>(alloc, rest)?;
    let digest = Digest::from_parts(seen, live, Counts::empty(alloc));
    said_if(alloc, digest.is_some())
}

/// `inside OUTER; INNER` asks whether the outer set has all dots of the inner one.
pub fn inside<S: DotSet>(alloc: Global, rest: &str) -> Result<String, Fault> {
    let (outer, inner) = two_sets::<S>(alloc, rest)?;
    said_if(alloc, is_inside(&inner, &outer))
}

fn two_sets<S: DotSet>(alloc: Global, text: &str) -> Result<(S, S), Fault> {
    let (left, right) = parted(text, ";")?;
    let left = one_run(alloc, left)?;
    let right = one_run(alloc, right)?;
    Ok((left, right))
}

fn one_run<S: DotSet>(alloc: Global, text: &str) -> Result<S, Fault> {
    let mut dots = S::empty(alloc);
    insert(&mut dots, Words::new(text).run()?)?;
    Ok(dots)
}

/// `rank_in DIGEST REPLICA NUMBER` asks how far a dot has come.
pub fn rank_in<S: DotSet>(
    documents: &Documents<S>,
    alloc: Global,
    rest: &str,
) -> Result<String, Fault> {
    let mut words = Words::new(rest);
    let digest = documents.digests.get(words.word()?)?;
    let rank = digest.rank(words.dot()?);
    Ok(format!(in alloc; "{rank:?}")?)
}

/// `pair_in DIGEST KEY REPLICA` asks what a replica has counted.
pub fn pair_in<S: DotSet>(
    documents: &Documents<S>,
    alloc: Global,
    rest: &str,
) -> Result<String, Fault> {
    let mut words = Words::new(rest);
    let digest = documents.digests.get(words.word()?)?;
    let key = words.key(alloc)?;
    let (p, n) = digest.pair(&key, words.small()?);
    Ok(format!(in alloc; "{p} {n}")?)
}
