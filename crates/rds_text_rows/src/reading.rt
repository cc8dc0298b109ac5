//! Rows that read what is held, byte by byte.
use rds_codec::encode_snapshot;
use rds_dots::DotSet;
use rds_keep::{Kept, Reading, read_snapshot};
use rds_names::Fault;
use rds_rows::devices::{Drip, Manner};
use rds_rows::told::{answer_text, digits_of};
use rds_rows::words::{cut, number};
use std::alloc::Global;

/// `read whole CALL` and `read turns TURNS`: the snapshot that is read. The call of this number fails, if there is one,
/// or so many turns are made. `read front TURNS`: one byte that is read, and then two.
pub fn answer<S: DotSet>(alloc: Global, held: &[u8], rest: &str) -> Result<String, Fault> {
    let (name, count) = cut(rest)?;
    let count = number(count)?;
    match name {
        "whole" => read_whole::<S>(alloc, Reading::new(drip(held, count))),
        "turns" => read_whole::<S>(alloc, Reading::with_budget(drip(held, 0), count)),
        "front" => read_front(alloc, Reading::with_budget(drip(held, 0), count)),
        _ => Err(Fault::Usage),
    }
}

fn drip(held: &[u8], fails_at: u64) -> Drip<'_> {
    Drip::new(held, Manner::byte_a_call(fails_at))
}

/// What was read or why not, and what the reader counted.
fn read_whole<S: DotSet>(alloc: Global, mut reader: Reading<Drip<'_>>) -> Result<String, Fault> {
    let read = answer_text(alloc, snapshot_in::<S>(alloc, &mut reader))?;
    let (failed, turns) = (reader.failed(), reader.budget());
    Ok(format!(in alloc; "{read}; {failed} failed, {turns} turns")?)
}

fn snapshot_in<S: DotSet>(alloc: Global, reader: &mut Reading<Drip<'_>>) -> Result<String, Fault> {
    let kept: Kept<S> = read_snapshot(alloc, reader)?;
    let text = encode_snapshot(alloc, kept.view_of())?;
    digits_of(alloc, &text)
}

fn read_front(alloc: Global, mut reader: Reading<Drip<'_>>) -> Result<String, Fault> {
    let mut byte = [0u8; 1];
    reader.read(&mut byte)?;
    let two = reader.read_front(alloc, 2)?;
    let byte = digits_of(alloc, &byte)?;
    let two = digits_of(alloc, &two)?;
    Ok(format!(in alloc; "{byte}, {two}")?)
}
