//! The forms of text.
use rds_codec::{
    Answer, Format, decode_answer, decode_answer_in, decode_certificate, decode_digest,
    decode_hello, decode_snapshot, decode_snapshot_with_format, decode_state, decode_state_in,
    encode_answer, encode_answer_in, encode_certificate, encode_digest, encode_hello,
    encode_snapshot, encode_snapshot_in, encode_state, encode_state_in,
};
use rds_delta::Digest;
use rds_dots::DotSet;
use rds_names::Fault;
use rds_state::{Replica, State};
use std::alloc::Global;

/// How many replicas the group has.
pub const REPLICAS: u16 = 3;

/// What the bytes are read as, written again. States and answers are of format 2, and as `state-1` and `answer-1` of format
/// 1. A snapshot is read in either format. It is written in format 2, as `snapshot-1` in format 1, and as `snapshot-in` in
/// its own.
pub fn again<S: DotSet>(alloc: Global, form: &str, bytes: &[u8]) -> Result<Vec<u8>, Fault> {
    match form {
        "snapshot" => snapshot_again::<S>(alloc, bytes),
        "snapshot-1" => spelled_snapshot::<S>(alloc, bytes),
        "snapshot-in" => snapshot_in_its_format::<S>(alloc, bytes),
        "state" => state_again::<S>(alloc, bytes),
        "state-1" => state_from::<S>(alloc, Format::One, Format::One, REPLICAS, bytes),
        "digest" => digest_again::<S>(alloc, bytes),
        "certificate" => certificate_again(alloc, bytes),
        "answer" => answer_again::<S>(alloc, bytes),
        "answer-1" => spelled_answer_again::<S>(alloc, bytes),
        "hello" => hello_again(alloc, bytes),
        _ => Err(Fault::Usage),
    }
}

/// The state of a group of so many replicas that the bytes are in one format, written in another.
pub fn state_from<S: DotSet>(
    alloc: Global,
    from: Format,
    to: Format,
    replicas: u16,
    bytes: &[u8],
) -> Result<Vec<u8>, Fault> {
    let state: State<S> = decode_state_in(alloc, from, replicas, bytes)?;
    encode_state_in(alloc, to, &state)
}

fn state_again<S: DotSet>(alloc: Global, bytes: &[u8]) -> Result<Vec<u8>, Fault> {
    let state: State<S> = decode_state(alloc, REPLICAS, bytes)?;
    encode_state(alloc, &state)
}

fn snapshot_again<S: DotSet>(alloc: Global, bytes: &[u8]) -> Result<Vec<u8>, Fault> {
    let replica: Replica<S> = decode_snapshot(alloc, bytes)?;
    encode_snapshot(alloc, &replica)
}

fn spelled_snapshot<S: DotSet>(alloc: Global, bytes: &[u8]) -> Result<Vec<u8>, Fault> {
    let replica: Replica<S> = decode_snapshot(alloc, bytes)?;
    encode_snapshot_in(alloc, Format::One, &replica)
}

fn snapshot_in_its_format<S: DotSet>(alloc: Global, bytes: &[u8]) -> Result<Vec<u8>, Fault> {
    let (format, replica) = decode_snapshot_with_format::<S>(alloc, bytes)?;
    encode_snapshot_in(alloc, format, &replica)
}

fn digest_again<S: DotSet>(alloc: Global, bytes: &[u8]) -> Result<Vec<u8>, Fault> {
    let digest: Digest<S> = decode_digest(alloc, REPLICAS, bytes)?;
    encode_digest(alloc, &digest)
}

fn certificate_again(alloc: Global, bytes: &[u8]) -> Result<Vec<u8>, Fault> {
    let certificate = decode_certificate(alloc, REPLICAS, bytes)?;
    encode_certificate(alloc, &certificate)
}

fn answer_again<S: DotSet>(alloc: Global, bytes: &[u8]) -> Result<Vec<u8>, Fault> {
    let answer: Answer<S> = decode_answer(alloc, REPLICAS, bytes)?;
    encode_answer(alloc, answer.asker, &answer.state, &answer.certificate)
}

fn spelled_answer_again<S: DotSet>(alloc: Global, bytes: &[u8]) -> Result<Vec<u8>, Fault> {
    let answer: Answer<S> = decode_answer_in(alloc, Format::One, REPLICAS, bytes)?;
    encode_answer_in(
        alloc,
        Format::One,
        answer.asker,
        &answer.state,
        &answer.certificate,
    )
}

fn hello_again(alloc: Global, bytes: &[u8]) -> Result<Vec<u8>, Fault> {
    let hello = decode_hello(alloc, bytes)?;
    encode_hello(alloc, &hello)
}
