//! Rows that try texts.
use crate::forms::{REPLICAS, again, state_from};
use crate::pieces::{cuts, drops};
use rds_codec::{Format, VERSION};
use rds_dots::DotSet;
use rds_names::Fault;
use rds_rows::told::{digits_of, said};
use rds_rows::words::{bytes_of, cut, first, number, small};
use std::alloc::Global;

/// What a row that tries a text is answered.
pub fn answer<S: DotSet>(alloc: Global, name: &str, rest: &str) -> Result<String, Fault> {
    match name {
        "again" => read_and_written::<S>(alloc, rest),
        "beginnings" => beginnings::<S>(alloc, rest),
        "bytes" => bytes::<S>(alloc, rest),
        "cuts" => cuts::<S>(alloc, rest),
        "drops" => drops::<S>(alloc, rest),
        "state-of" => state_of::<S>(alloc, rest),
        "tabled" => rewritten::<S>(alloc, Format::One, Format::Two, rest),
        "untabled" => rewritten::<S>(alloc, Format::Two, Format::One, rest),
        "version" => version_told(alloc, rest),
        "zeros" => zeros::<S>(alloc, rest),
        _ => Err(Fault::Usage),
    }
}

/// `again FORM DIGITS`: the text, read and written again.
fn read_and_written<S: DotSet>(alloc: Global, rest: &str) -> Result<String, Fault> {
    let (form, digits) = first(rest);
    let text = bytes_of(alloc, digits)?;
    let written = again::<S>(alloc, form, &text)?;
    digits_of(alloc, &written)
}

/// `beginnings FORM DIGITS`: how many proper beginnings of the text are refused as cut or bad, and of how many.
fn beginnings<S: DotSet>(alloc: Global, rest: &str) -> Result<String, Fault> {
    let (form, digits) = cut(rest)?;
    let text = bytes_of(alloc, digits)?;
    let mut refused = 0u64;
    for end in 0..text.len() {
        if is_refused::<S>(alloc, form, &text[..end]) {
            refused = refused.saturating_add(1);
        }
    }
    let all = text.len();
    Ok(format!(in alloc; "{refused} of {all} are cut or bad")?)
}

fn is_refused<S: DotSet>(alloc: Global, form: &str, text: &[u8]) -> bool {
    matches!(again::<S>(alloc, form, text), Err(Fault::Cut | Fault::Bad))
}

/// `bytes FORM DIGITS`: with each value of a byte in each place of the text, how many texts are read, and how many of
/// those are written otherwise.
fn bytes<S: DotSet>(alloc: Global, rest: &str) -> Result<String, Fault> {
    let (form, digits) = cut(rest)?;
    let text = bytes_of(alloc, digits)?;
    let mut tally = Tally {
        read: 0,
        otherwise: 0,
    };
    for place in 0..text.len() {
        let changed = Vec::from_slice(alloc, &text)?;
        tally.count_changed::<S>(alloc, form, changed, place);
    }
    let Tally { read, otherwise } = tally;
    Ok(format!(in alloc; "{read} are read, {otherwise} are written otherwise")?)
}

/// How many texts are read, and how many of those are written otherwise.
#[derive(Clone, Copy)]
struct Tally {
    read: u64,
    otherwise: u64,
}

impl Tally {
    /// Counts the texts with each value of a byte in this place.
    fn count_changed<S: DotSet>(
        &mut self,
        alloc: Global,
        form: &str,
        mut text: Vec<u8>,
        place: usize,
    ) {
        for value in 0..=255u8 {
            if let Some(byte) = text.get_mut(place) {
                *byte = value;
            }
            self.count::<S>(alloc, form, text.as_slice());
        }
    }

    fn count<S: DotSet>(&mut self, alloc: Global, form: &str, text: &[u8]) {
        if let Ok(written) = again::<S>(alloc, form, text) {
            self.read = self.read.saturating_add(1);
            if written.as_slice() != text {
                self.otherwise = self.otherwise.saturating_add(1);
            }
        }
    }
}

/// `state-of REPLICAS DIGITS`: the state of format 1 of a group of so many replicas, read and written again.
fn state_of<S: DotSet>(alloc: Global, rest: &str) -> Result<String, Fault> {
    let (replicas, digits) = cut(rest)?;
    let Ok(replicas) = replicas.parse::<u16>() else {
        return Err(Fault::Usage);
    };
    let text = bytes_of(alloc, digits)?;
    let written = state_from::<S>(alloc, Format::One, Format::One, replicas, &text)?;
    digits_of(alloc, &written)
}

/// `tabled DIGITS`: the state of format 1, written in format 2; `untabled DIGITS`: that of format 2, written in format 1.
fn rewritten<S: DotSet>(
    alloc: Global,
    from: Format,
    to: Format,
    rest: &str,
) -> Result<String, Fault> {
    let text = bytes_of(alloc, rest)?;
    let written = state_from::<S>(alloc, from, to, REPLICAS, &text)?;
    digits_of(alloc, &written)
}

/// `zeros COUNT`: so many bytes 0, as a state.
fn zeros<S: DotSet>(alloc: Global, rest: &str) -> Result<String, Fault> {
    let count = number(rest)?;
    let text = vec![in alloc; 0u8; count as usize]?;
    let written = again::<S>(alloc, "state", &text)?;
    digits_of(alloc, &written)
}

/// `version NUMBER`: the version of the format in which a session speaks whose hello says this one, and whether sessions
/// begin with it.
fn version_told(alloc: Global, rest: &str) -> Result<String, Fault> {
    let Some(format) = Format::of_version(small(rest)?) else {
        return said(alloc, "no format");
    };
    let version = format.version();
    let begins = if version == VERSION {
        ", with which sessions begin"
    } else {
        ""
    };
    Ok(format!(in alloc; "format {version}{begins}")?)
}
