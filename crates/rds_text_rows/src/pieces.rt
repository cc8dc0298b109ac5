//! Rows on texts whose bytes come in pieces.
use crate::forms::REPLICAS;
use rds_codec::{
    Format, UnfinishedAnswer, UnfinishedDigest, UnfinishedSnapshot, UnfinishedState, encode_answer,
    encode_answer_in, encode_certificate, encode_digest, encode_hello, encode_snapshot_in,
    encode_state, encode_state_in,
};
use rds_dots::DotSet;
use rds_keep::{Fed, Feed};
use rds_names::Fault;
use rds_rows::told::{fault_text, named, said};
use rds_rows::words::{bytes_of, cut};
use std::alloc::Global;

/// `cuts FORM DIGITS`: of how many places at which the text is cut in two the pieces are read as it, and of how many.
pub fn cuts<S: DotSet>(alloc: Global, rest: &str) -> Result<String, Fault> {
    let (form, digits) = cut(rest)?;
    let text = bytes_of(alloc, digits)?;
    let mut same = 0u64;
    for place in 0..text.len() {
        let written = again::<S>(alloc, form, &text[..place], &text[place..])?;
        if written.as_slice() == text.as_slice() {
            same = same.saturating_add(1);
        }
    }
    let all = text.len();
    Ok(format!(in alloc; "{same} of {all} cuts give the text")?)
}

/// What two pieces are read as, written again; a snapshot in its own format.
fn again<S: DotSet>(
    alloc: Global,
    form: &str,
    front: &[u8],
    back: &[u8],
) -> Result<Vec<u8>, Fault> {
    match form {
        "snapshot" => snapshot_again::<S>(alloc, front, back),
        "state" => state_again::<S>(alloc, front, back),
        "state-1" => spelled_state_again::<S>(alloc, front, back),
        "digest" => digest_again::<S>(alloc, front, back),
        "certificate" => certificate_again(alloc, front, back),
        "answer" => answer_again::<S>(alloc, front, back),
        "answer-1" => spelled_answer_again::<S>(alloc, front, back),
        "hello" => hello_again(alloc, front, back),
        _ => Err(Fault::Usage),
    }
}

fn snapshot_again<S: DotSet>(alloc: Global, front: &[u8], back: &[u8]) -> Result<Vec<u8>, Fault> {
    let feed: Feed<UnfinishedSnapshot<S>> = Feed::snapshot(alloc);
    let (format, replica) = fed(feed, front, back)?;
    encode_snapshot_in(alloc, format, &replica)
}

fn state_again<S: DotSet>(alloc: Global, front: &[u8], back: &[u8]) -> Result<Vec<u8>, Fault> {
    let feed: Feed<UnfinishedState<S>> = Feed::state(alloc, REPLICAS);
    encode_state(alloc, &fed(feed, front, back)?)
}

fn spelled_state_again<S: DotSet>(
    alloc: Global,
    front: &[u8],
    back: &[u8],
) -> Result<Vec<u8>, Fault> {
    let feed: Feed<UnfinishedState<S>> = Feed::state_in(alloc, Format::One, REPLICAS);
    encode_state_in(alloc, Format::One, &fed(feed, front, back)?)
}

fn digest_again<S: DotSet>(alloc: Global, front: &[u8], back: &[u8]) -> Result<Vec<u8>, Fault> {
    let feed: Feed<UnfinishedDigest<S>> = Feed::digest(alloc, REPLICAS);
    encode_digest(alloc, &fed(feed, front, back)?)
}

fn certificate_again(alloc: Global, front: &[u8], back: &[u8]) -> Result<Vec<u8>, Fault> {
    encode_certificate(
        alloc,
        &fed(Feed::certificate(alloc, REPLICAS), front, back)?,
    )
}

fn answer_again<S: DotSet>(alloc: Global, front: &[u8], back: &[u8]) -> Result<Vec<u8>, Fault> {
    let feed: Feed<UnfinishedAnswer<S>> = Feed::answer(alloc, REPLICAS);
    let answer = fed(feed, front, back)?;
    encode_answer(alloc, answer.asker, &answer.state, &answer.certificate)
}

fn spelled_answer_again<S: DotSet>(
    alloc: Global,
    front: &[u8],
    back: &[u8],
) -> Result<Vec<u8>, Fault> {
    let feed: Feed<UnfinishedAnswer<S>> = Feed::answer_in(alloc, Format::One, REPLICAS);
    let answer = fed(feed, front, back)?;
    let (state, certificate) = (&answer.state, &answer.certificate);
    encode_answer_in(alloc, Format::One, answer.asker, state, certificate)
}

fn hello_again(alloc: Global, front: &[u8], back: &[u8]) -> Result<Vec<u8>, Fault> {
    encode_hello(alloc, &fed(Feed::hello(alloc), front, back)?)
}

fn fed<U: Fed>(feed: Feed<U>, front: &[u8], back: &[u8]) -> Result<U::Whole, Fault> {
    let mut feed = feed;
    feed.feed(front)?;
    feed.feed(back)?;
    feed.end()
}

/// `drops FORM DIGITS`: whether the bytes, one by one, are a text, or which byte is refused how, and how they end.
pub fn drops<S: DotSet>(alloc: Global, rest: &str) -> Result<String, Fault> {
    let (form, digits) = cut(rest)?;
    let bytes = bytes_of(alloc, digits)?;
    match form {
        "snapshot" => dropped::<UnfinishedSnapshot<S>>(alloc, Feed::snapshot(alloc), &bytes),
        "state" => dropped::<UnfinishedState<S>>(alloc, Feed::state(alloc, REPLICAS), &bytes),
        "state-1" => spelled_state_dropped::<S>(alloc, &bytes),
        "digest" => dropped::<UnfinishedDigest<S>>(alloc, Feed::digest(alloc, REPLICAS), &bytes),
        "certificate" => dropped(alloc, Feed::certificate(alloc, REPLICAS), &bytes),
        "answer" => dropped::<UnfinishedAnswer<S>>(alloc, Feed::answer(alloc, REPLICAS), &bytes),
        "answer-1" => spelled_answer_dropped::<S>(alloc, &bytes),
        "hello" => dropped(alloc, Feed::hello(alloc), &bytes),
        _ => Err(Fault::Usage),
    }
}

fn spelled_state_dropped<S: DotSet>(alloc: Global, bytes: &[u8]) -> Result<String, Fault> {
    let feed: Feed<UnfinishedState<S>> = Feed::state_in(alloc, Format::One, REPLICAS);
    dropped(alloc, feed, bytes)
}

fn spelled_answer_dropped<S: DotSet>(alloc: Global, bytes: &[u8]) -> Result<String, Fault> {
    let feed: Feed<UnfinishedAnswer<S>> = Feed::answer_in(alloc, Format::One, REPLICAS);
    dropped(alloc, feed, bytes)
}

fn dropped<U: Fed>(alloc: Global, feed: Feed<U>, bytes: &[u8]) -> Result<String, Fault> {
    let mut feed = feed;
    let mut count = 0u64;
    for byte in bytes {
        count = count.saturating_add(1);
        if let Err(fault) = feed.feed(&[*byte]) {
            return refused(alloc, fault, count, feed.end());
        }
    }
    ended(alloc, feed.end())
}

fn refused<V: Drop>(
    alloc: Global,
    fault: Fault,
    count: u64,
    end: Result<V, Fault>,
) -> Result<String, Fault> {
    let first = fault_text(alloc, fault)?;
    let last = ended(alloc, end)?;
    Ok(format!(in alloc; "{first}, by byte {count}; {last}")?)
}

fn ended<V: Drop>(alloc: Global, end: Result<V, Fault>) -> Result<String, Fault> {
    match end {
        Ok(_) => said(alloc, "a text"),
        Err(fault) => {
            let fault = named(alloc, fault)?;
            Ok(format!(in alloc; "at the end {fault}")?)
        }
    }
}
