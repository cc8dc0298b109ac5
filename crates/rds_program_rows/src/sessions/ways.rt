//! What comes of a session for each number of a way in which it may go.
use super::End;
use super::exchanges::{Line, exchange_over};
use super::outcomes::Outcomes;
use super::steps::hear_in_pieces;
use rds_dots::DotSet;
use rds_names::Fault;
use rds_session::Input;
use std::alloc::Global;
use std::ops::Range;

/// What a number says of a session.
#[derive(Clone, Copy, Debug, PartialEq, Eq)]
pub enum Way {
    /// How long the pieces are in which it hears the stream.
    Pieces,
    /// How many bytes it hears before the stream ends.
    Cut,
    /// Which of its reads of a byte fails.
    FailingReads,
    /// Which of its writes of a byte fails.
    FailingWrites,
}

/// The way that a word names.
pub fn way_of(word: &str) -> Result<Way, Fault> {
    match word {
        "hear" => Ok(Way::Pieces),
        "cut" => Ok(Way::Cut),
        "failing_reads" => Ok(Way::FailingReads),
        "failing_writes" => Ok(Way::FailingWrites),
        _ => Err(Fault::Usage),
    }
}

impl Way {
    // The numbers that say something of a session that hears so many bytes.
    fn numbers(self, length: u64) -> Range<u64> {
        match self {
            Way::Pieces => 1..length.saturating_add(1),
            Way::Cut => 0..length,
            Way::FailingReads | Way::FailingWrites => 1..length.saturating_add(2),
        }
    }

    // What comes of the session with this number.
    fn outcome<S: DotSet>(
        self,
        alloc: Global,
        end: &End<S>,
        heard: &[u8],
        number: u64,
    ) -> Result<String, Fault> {
        match self {
            Way::Pieces => hear_all(alloc, end, heard, number as usize),
            Way::Cut => hear_front(alloc, end, heard, number as usize),
            Way::FailingReads => exchange_over(alloc, end, heard, Line::failing(number, 0)),
            Way::FailingWrites => exchange_over(alloc, end, heard, Line::failing(0, number)),
        }
    }
}

/// What comes of the session for each number of a way. It is reported once where it stays the same.
pub fn each_outcome<S: DotSet>(
    alloc: Global,
    end: &End<S>,
    heard: &[u8],
    way: Way,
) -> Result<String, Fault> {
    let mut outcomes = Outcomes::new(alloc);
    for number in way.numbers(heard.len() as u64) {
        let outcome = way.outcome(alloc, end, heard, number)?;
        outcomes.note(number, outcome)?;
    }
    Ok(outcomes.into_lines())
}

// What comes of the session that hears all in pieces of this length.
fn hear_all<S: DotSet>(
    alloc: Global,
    end: &End<S>,
    heard: &[u8],
    length: usize,
) -> Result<String, Fault> {
    hear_in_pieces(alloc, end, heard, length)?.into_told(alloc)
}

// What comes of the session that hears so many bytes in pieces of seven, and then the end.
fn hear_front<S: DotSet>(
    alloc: Global,
    end: &End<S>,
    heard: &[u8],
    count: usize,
) -> Result<String, Fault> {
    let (front, _) = heard.split_at(count.min(heard.len()));
    let mut course = hear_in_pieces(alloc, end, front, 7)?;
    course.step(alloc, Input::End)?;
    course.into_told(alloc)
}
