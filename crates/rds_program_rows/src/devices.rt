//! Readers and writers that give and take little, and fail.
use rds_keep::Reading;
use rds_names::Fault;
use rds_rows::devices::{Drip, Manner};
use rds_rows::words::{cut, first, number};
use std::alloc::Global;
use std::io::{self, Write};

/// `STEP TURNS END ..`: a reader of the bytes that gives at most so many a call, has such a budget, and `fails`
/// or `ends` behind them; and what else the row says.
pub fn reader_of<'a>(row: &'a str, bytes: &'a [u8]) -> Result<(Reading<Drip<'a>>, &'a str), Fault> {
    let (step, row) = cut(row)?;
    let (turns, row) = cut(row)?;
    let (end, row) = first(row);
    let manner = manner_of(number(step)?, end, bytes.len() as u64)?;
    let drip = Drip::new(bytes, manner);
    Ok((Reading::with_budget(drip, number(turns)?), row))
}

// Of the calls that give so many bytes each, the one behind a number of bytes fails, or none does.
fn manner_of(step: u64, end: &str, count: u64) -> Result<Manner, Fault> {
    let fails_at = match end {
        "fails" => count.div_ceil(step.max(1)).saturating_add(1),
        "ends" => 0,
        _ => return Err(Fault::Usage),
    };
    Ok(Manner {
        most: step as usize,
        fails_at,
    })
}

/// Takes so many bytes in all, and no more.
#[derive(Drop)]
pub struct Narrow {
    taken: Vec<u8>,
    room: usize,
}

impl Narrow {
    /// It takes so many bytes.
    pub fn new(alloc: Global, room: usize) -> Narrow {
        Narrow {
            taken: Vec::new(alloc),
            room,
        }
    }

    /// What it took.
    pub fn taken(&self) -> &[u8] {
        &self.taken
    }
}

impl Write for Narrow {
    fn write(&mut self, buf: &[u8]) -> io::Result<usize> {
        let count = self.room.min(buf.len());
        self.taken.extend_from_slice(&buf[..count])?;
        self.room -= count;
        Ok(count)
    }

    fn flush(&mut self) -> io::Result<()> {
        Ok(())
    }
}

/// `ROOM TURNS ..`: how many bytes a writer takes, its budget, and what else the row says.
pub fn room_of(row: &str) -> Result<(usize, u64, &str), Fault> {
    let (room, row) = cut(row)?;
    let (turns, row) = cut(row)?;
    let room = number(room)? as usize;
    let turns = number(turns)?;
    Ok((room, turns, row))
}
