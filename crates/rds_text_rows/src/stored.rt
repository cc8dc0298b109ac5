//! Rows on files: a snapshot with records behind it.
use rds_codec::encode_snapshot;
use rds_dots::DotSet;
use rds_keep::{Layout, Reading, Refused, Stored, decode_stored, read_stored};
use rds_names::Fault;
use rds_rows::devices::{Drip, Manner};
use rds_rows::told::{digits_of, fault_text};
use rds_rows::words::bytes_of;
use std::alloc::Global;

/// `stored BYTES`: the snapshot of the replica that a file of these bytes holds, and where its parts end; or why it is
/// refused, and up to which byte it is whole. The bytes are read at once, and one by one, which has to be the same.
pub fn answer<S: DotSet>(alloc: Global, rest: &str) -> Result<String, Fault> {
    let bytes = bytes_of(alloc, rest)?;
    let decoded = told::<S>(alloc, decode_stored(alloc, &bytes))?;
    let mut reader = Reading::new(Drip::new(&bytes, Manner::byte_a_call(0)));
    let read = told::<S>(alloc, read_stored(alloc, &mut reader))?;
    if decoded == read {
        return Ok(decoded);
    }
    Ok(format!(in alloc; "{decoded}, and one by one {read}")?)
}

fn told<S: DotSet>(alloc: Global, outcome: Result<Stored<S>, Refused>) -> Result<String, Fault> {
    match outcome {
        Ok(stored) => stored_text(alloc, &stored),
        Err(refused) => refused_text(alloc, refused),
    }
}

fn stored_text<S: DotSet>(alloc: Global, stored: &Stored<S>) -> Result<String, Fault> {
    let digits = digits_of(alloc, &encode_snapshot(alloc, stored.kept.view_of())?)?;
    let Layout {
        snapshot,
        whole,
        length,
        ..
    } = stored.layout;
    Ok(format!(in alloc;
        "{digits}; a snapshot to {snapshot}, records to {whole}, of {length} bytes"
    )?)
}

fn refused_text(alloc: Global, refused: Refused) -> Result<String, Fault> {
    let fault = fault_text(alloc, refused.fault)?;
    let at = refused.at;
    Ok(format!(in alloc; "{fault}, whole to {at}")?)
}
