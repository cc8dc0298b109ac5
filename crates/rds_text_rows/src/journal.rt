//! Rows about records, and about a record that is appended to a file.
ghost use Rattle.std.specs.Prelude.{IsTrue};
ghost use Rattle.rds_journal.specs.Appending.{IsEnd};

use crate::disk::{Disk, Plan};
use rds_journal::{AppendError, MOST, append, first_record, is_torn, put_record, record_length};
use rds_names::Fault;
use rds_rows::told::{digits_of, said};
use rds_rows::words::{bytes_of, cut, first, number, parted};
use std::alloc::{AllocError, Global};

/// What a row about records is answered.
pub fn answer(alloc: Global, name: &str, rest: &str) -> Result<String, Fault> {
    match name {
        "record" => record(alloc, rest),
        "records" => records(alloc, rest),
        "record-cuts" => cuts(alloc, rest),
        "record-flips" => flips(alloc, rest),
        "record-appended" => appended(alloc, rest),
        "torn-times" => torn_times(alloc, rest),
        _ => Err(Fault::Usage),
    }
}

/// `record PAYLOAD`: the payload's record.
fn record(alloc: Global, digits: &str) -> Result<String, Fault> {
    let payload = bytes_of(alloc, digits)?;
    if MOST < payload.len() {
        return Err(Fault::Usage);
    }
    let mut text = Vec::new(alloc);
    put_record(&mut text, &payload)?;
    if text.len() != record_length(payload.len()) {
        return said(alloc, "it has another length than was told");
    }
    digits_of(alloc, &text)
}

/// `records BYTES`: the payloads of the whole records at the front of the bytes, and what stands behind them.
fn records(alloc: Global, digits: &str) -> Result<String, Fault> {
    let bytes = bytes_of(alloc, digits)?;
    let mut told = String::new(alloc);
    let mut rest = bytes.as_slice();
    'reading: while let Some((payload, behind)) = first_record(rest) {
        told.push_str(digits_of(alloc, payload)?.as_str())?;
        told.push_str(", ")?;
        rest = behind;
    }
    let left = rest.len();
    let state = state_of(rest);
    Ok(format!(in alloc; "{told}then {left} bytes, {state}")?)
}

fn state_of(rest: &[u8]) -> &'static str {
    if is_torn(rest) { "torn" } else { "damaged" }
}

/// What is read of bytes: how many whole records stand at the front, and whether a torn end stands behind them.
#[derive(Clone, Copy, PartialEq, Eq)]
struct Reading {
    whole: u64,
    is_torn: bool,
}

fn reading_of(bytes: &[u8]) -> Reading {
    let mut whole = 0u64;
    let mut rest = bytes;
    'reading: while let Some((_, behind)) = first_record(rest) {
        whole = whole.saturating_add(1);
        rest = behind;
    }
    Reading {
        whole,
        is_torn: is_torn(rest),
    }
}

fn reading_text(alloc: Global, reading: Reading) -> Result<String, AllocError> {
    let whole = reading.whole;
    let state = if reading.is_torn { "torn" } else { "damaged" };
    format!(in alloc; "{whole} and {state}")
}

/// `record-cuts BYTES`: what is read of each prefix of the bytes, from the least length on at which it is that.
fn cuts(alloc: Global, digits: &str) -> Result<String, Fault> {
    let bytes = bytes_of(alloc, digits)?;
    let mut told = String::new(alloc);
    let mut last: Option<Reading> = None;
    for end in 0..=bytes.len() {
        let reading = reading_of(&bytes[..end]);
        if last != Some(reading) {
            let text = reading_text(alloc, reading)?;
            told.push_str(format!(in alloc; "{end}: {text}; ")?.as_str())?;
            last = Some(reading);
        }
    }
    Ok(told)
}

/// `record-flips BYTES`: what is read where one bit is flipped, for each bit, from the first byte on at which it is
/// that.
fn flips(alloc: Global, digits: &str) -> Result<String, Fault> {
    let mut bytes = bytes_of(alloc, digits)?;
    let mut told = String::new(alloc);
    let mut last: Option<Reading> = None;
    for at in 0..bytes.len() {
        for bit in 0..8u8 {
            bytes[at] ^= 1 << bit;
            let reading = reading_of(&bytes);
            bytes[at] ^= 1 << bit;
            if last != Some(reading) {
                let text = reading_text(alloc, reading)?;
                told.push_str(format!(in alloc; "{at}: {text}; ")?.as_str())?;
                last = Some(reading);
            }
        }
    }
    Ok(told)
}

/// `torn-times COUNT*BYTES ..`: whether the bytes, so many times one behind the other, are a torn end, where several
/// are named behind one another.
fn torn_times(alloc: Global, row: &str) -> Result<String, Fault> {
    let mut all = Vec::new(alloc);
    for part in row.split_whitespace() {
        let (count, digits) = parted(part, "*")?;
        let count = number(count)?;
        let bytes = bytes_of(alloc, digits)?;
        for _ in 0..count {
            all.extend_from_slice(&bytes)?;
        }
    }
    said(alloc, state_of(&all))
}

/// `record-appended END TORN FAILS ROOM TEXT FILE`: appends the text to a file whose whole records end there, with a
/// torn end behind them or not; the call with this number fails, and the file has room for so many bytes. Answers what
/// came of it, what stands in the file, and what crashes may leave: with half of the first call since the last sync,
/// and none behind it, with the first and half of the next, and so on.
fn appended(alloc: Global, row: &str) -> Result<String, Fault> {
    let (end, row) = cut(row)?;
    let (torn, row) = cut(row)?;
    let (fails_at, row) = cut(row)?;
    let (room, row) = cut(row)?;
    let (text, file) = first(row);
    let plan = Plan {
        fails_at: number(fails_at)?,
        room: number(room)?,
    };
    let file = bytes_of(alloc, file)?;
    let text = bytes_of(alloc, text)?;
    let end = number(end)?;
    let is_torn = torn == "torn";
    if !is_end(end, is_torn, &file) {
        return Err(Fault::Usage);
    }
    let mut disk = Disk::new(alloc, &file, plan)?;
    let came = match append(&mut disk, end, is_torn, &text) {
        Ok(()) => "done",
        Err(AppendError::Unwritten) => "unwritten",
        Err(AppendError::Unsure) => "unsure",
    };
    disk_text(alloc, came, &disk)
}

// Whether the whole records of the file may end there.
fn is_end(end: u64, is_torn: bool, file: &[u8]) -> bool
    ensures { IsTrue result → IsEnd end is_torn file.now }
{
    let length = file.len() as u64;
    if is_torn {
        end <= length
    } else {
        end == length
    }
}

fn disk_text(alloc: Global, came: &str, disk: &Disk) -> Result<String, Fault> {
    let seen = digits_of(alloc, disk.bytes())?;
    let mut told = format!(in alloc; "{came}: {seen}; crashes leave")?;
    for kept in 0..=disk.calls() {
        let left = digits_of(alloc, &disk.after_crash(kept)?)?;
        told.push_str(format!(in alloc; " {left},")?.as_str())?;
    }
    Ok(told)
}
