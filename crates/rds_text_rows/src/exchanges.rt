//! Rows on what is asked, answered and taken by texts.
use crate::forms::REPLICAS;
use rds_codec::{
    Format, answer_in, decode_digest, decode_snapshot, encode_snapshot, pull, snapshot_length,
};
use rds_delta::Digest;
use rds_dots::DotSet;
use rds_names::Fault;
use rds_rows::told::digits_of;
use rds_rows::words::{bytes_of, cut, small};
use rds_state::Replica;
use std::alloc::Global;

/// `ask`: the digest with which the replica of the held snapshot asks.
pub fn ask<S: DotSet>(alloc: Global, held: &[u8]) -> Result<String, Fault> {
    let replica: Replica<S> = decode_snapshot(alloc, held)?;
    let digest = rds_codec::ask(alloc, replica.state())?;
    digits_of(alloc, &digest)
}

/// `answer ASKER DIGEST`: what the replica of the held snapshot answers the one of this number that asks with this
/// digest, and how many components the delta has. `answer-1` says it in format 1.
pub fn answer<S: DotSet>(
    alloc: Global,
    format: Format,
    held: &[u8],
    rest: &str,
) -> Result<String, Fault> {
    let (asker, digits) = cut(rest)?;
    let asker = small(asker)?;
    let digest = bytes_of(alloc, digits)?;
    let (text, components) = answered::<S>(alloc, format, held, asker, &digest)?;
    with_components(alloc, &text, components)
}

// In format 2 by the call that isn't told a format.
fn answered<S: DotSet>(
    alloc: Global,
    format: Format,
    held: &[u8],
    asker: u8,
    digest: &[u8],
) -> Result<(Vec<u8>, u128), Fault> {
    let replica: Replica<S> = decode_snapshot(alloc, held)?;
    let digest: Digest<S> = decode_digest(alloc, REPLICAS, digest)?;
    match format {
        Format::One => answer_in(alloc, format, asker, replica.state(), &digest),
        Format::Two => rds_codec::answer(alloc, asker, replica.state(), &digest),
    }
}

/// `exchange ANSWERER ASKED`: the replica of the held snapshot asks as it was then, a snapshot, and takes what the other
/// one answers, a snapshot too. Its snapshot after that, and how many components the delta had.
pub fn exchanged<S: DotSet>(alloc: Global, held: &[u8], rest: &str) -> Result<String, Fault> {
    let (answerer, asked) = cut(rest)?;
    let answerer = bytes_of(alloc, answerer)?;
    let asked = bytes_of(alloc, asked)?;
    let (text, components) = taken::<S>(alloc, held, &answerer, &asked)?;
    with_components(alloc, &text, components)
}

fn taken<S: DotSet>(
    alloc: Global,
    held: &[u8],
    answerer: &[u8],
    asked: &[u8],
) -> Result<(Vec<u8>, u128), Fault> {
    let mut asker: Replica<S> = decode_snapshot(alloc, held)?;
    let answerer: Replica<S> = decode_snapshot(alloc, answerer)?;
    let asked: Replica<S> = decode_snapshot(alloc, asked)?;
    let answer = pull(alloc, &answerer, &asked, &mut asker)?;
    let text = encode_snapshot(alloc, &asker)?;
    Ok((text, answer.state.components()))
}

/// A text, and the components of the delta in question.
fn with_components(alloc: Global, text: &[u8], components: u128) -> Result<String, Fault> {
    let digits = digits_of(alloc, text)?;
    Ok(format!(in alloc; "{digits}, {components} components")?)
}

/// `length`: how many bytes the text has that is written of the held snapshot's replica.
pub fn length<S: DotSet>(alloc: Global, held: &[u8]) -> Result<String, Fault> {
    let replica: Replica<S> = decode_snapshot(alloc, held)?;
    let length = snapshot_length(alloc, &replica)?;
    Ok(format!(in alloc; "{length} bytes")?)
}
