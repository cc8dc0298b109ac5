//! What is written on standard error of lines of an input that are refused: which line it is, and why.
use crate::causes::{AMOUNT, COUNTER_KEY, PATH, VALUE, bad_key};
use crate::responses::refused_line;
use rds_files::Disk;
use rds_names::Fault;
use rds_output::Reply;
use serde_json::Value;
use std::alloc::Global;
use std::str;

/// The most lines of one input that are told of.
const MOST_LINES: usize = 10;

/// The most characters that are quoted of a line, or of a part of it.
const MOST_CHARACTERS: usize = 60;

/// The most bytes of a line, without its newline.
const LINE_LIMIT: usize = 65_536;

/// A line.
const EXAMPLE: &str = "[\"set\",\"a/b\",1]";

/// The words that a line begins with.
const WORDS: &str = "\"set\", \"add\", \"del\", \"clear\", \"inc\" and \"dec\"";

/// What stands behind the word of a line.
#[derive(Clone, Copy, Debug)]
enum Form {
    Entry,
    Part,
    Count,
}

impl Form {
    // What belongs behind a word.
    fn of(word: &str) -> Option<Form> {
        match word {
            "set" | "add" | "del" => Some(Form::Entry),
            "clear" => Some(Form::Part),
            "inc" | "dec" => Some(Form::Count),
            _ => None,
        }
    }

    fn text(self) -> &'static str {
        match self {
            Form::Entry => "PATH,VALUE",
            Form::Part => "PATH",
            Form::Count => "KEY,BY",
        }
    }

    // How many members the array has, of which the word is one.
    fn len(self) -> usize {
        match self {
            Form::Part => 2,
            Form::Entry | Form::Count => 3,
        }
    }
}

/// A line that was refused.
#[derive(Clone, Copy, Debug)]
struct RefusedLine {
    number: u64,
    fault: Fault,
}

/// The first lines of an input that were refused, in their order, and how many more there are.
#[derive(Drop)]
struct RefusedLines {
    first: Vec<RefusedLine>,
    more: u64,
}

impl RefusedLines {
    fn new(alloc: Global) -> RefusedLines {
        RefusedLines {
            first: Vec::new(alloc),
            more: 0,
        }
    }

    fn add(&mut self, number: u64, fault: Fault) -> Result<(), Fault> {
        if self.first.len() < MOST_LINES {
            self.first.push(RefusedLine { number, fault })?;
        } else {
            self.more = self.more.saturating_add(1);
        }
        Ok(())
    }
}

/// Tells which lines of an input a replica refused, and why, where the status of their answers says that one was.
pub fn note_lines<H: Disk>(rt: &H, input: &[u8], answers: &[Reply], status: u8) {
    if status != 0 {
        if let Ok(lines) = refused_by(rt.alloc(), answers) {
            note_refused(rt, input, &lines);
        }
    }
}

/// The same of an input that a site was given: its answers are lines of JSON.
pub fn note_lines_of_site<H: Disk>(rt: &H, input: &[u8], told: &[u8]) {
    if let Ok(told) = str::from_utf8(told) {
        if let Ok(lines) = refused_in(rt.alloc(), told) {
            note_refused(rt, input, &lines);
        }
    }
}

// The lines that were refused by answers.
fn refused_by(alloc: Global, answers: &[Reply]) -> Result<RefusedLines, Fault> {
    let mut lines = RefusedLines::new(alloc);
    for answer in answers {
        if let Reply::RefusedLine { line, fault } = answer {
            lines.add(*line, *fault)?;
        }
    }
    Ok(lines)
}

// The same of answers as JSON.
fn refused_in(alloc: Global, told: &str) -> Result<RefusedLines, Fault> {
    let mut lines = RefusedLines::new(alloc);
    for answer in told.lines() {
        if let Some((number, fault)) = refused_line(answer) {
            lines.add(number, fault)?;
        }
    }
    Ok(lines)
}

// Tells of lines that were refused, the first ones one by one.
fn note_refused<H: Disk>(rt: &H, input: &[u8], lines: &RefusedLines) {
    note_first(rt, input, &lines.first);
    if lines.more > 0 {
        let more = lines.more;
        let _ = eprintln!(rt; "and {more} more");
    }
}

// Tells of lines one by one. What is behind the last of them isn't looked at.
fn note_first<H: Disk>(rt: &H, input: &[u8], lines: &[RefusedLine]) {
    let mut rest = lines;
    let mut number: u64 = 0;
    for bytes in input.split(|byte| *byte == b'\n') {
        let Some((line, later)) = rest.split_first() else {
            return;
        };
        number = number.saturating_add(1);
        if line.number == number {
            note_line(rt, *line, bytes);
            rest = later;
        }
    }
}

// Tells of one line. Where there is no memory for more, that is its fault.
fn note_line<H: Disk>(rt: &H, line: RefusedLine, bytes: &[u8]) {
    let RefusedLine { number, fault } = line;
    let _ = match cause_of(rt.alloc(), bytes, fault) {
        Ok(cause) => eprintln!(rt; "line {number}: {cause}"),
        Err(_) => eprintln!(rt; "line {number}: {fault}"),
    };
}

// Why a line is refused by a fault.
fn cause_of(alloc: Global, bytes: &[u8], fault: Fault) -> Result<String, Fault> {
    let length = bytes.len();
    if LINE_LIMIT < length {
        return Ok(format!(in alloc; "it has {length} bytes, and a line has at most {LINE_LIMIT}")?);
    }
    if begins_with_mark(bytes) {
        return Ok(format!(in alloc;
            "it begins with a byte order mark: save the input as UTF-8 without one"
        )?);
    }
    match str::from_utf8(bytes) {
        Ok(text) => cause_in_text(alloc, text, fault),
        Err(error) => {
            let place = error.valid_up_to().saturating_add(1);
            Ok(format!(in alloc; "it isn't UTF-8 from its byte {place} on")?)
        }
    }
}

// Whether bytes begin with a byte order mark, of UTF-8 or of UTF-16.
fn begins_with_mark(bytes: &[u8]) -> bool {
    bytes.starts_with(b"\xef\xbb\xbf")
        || bytes.starts_with(b"\xff\xfe")
        || bytes.starts_with(b"\xfe\xff")
}

// Why the text of a line is refused.
fn cause_in_text(alloc: Global, text: &str, fault: Fault) -> Result<String, Fault> {
    let line = match Value::from_str(alloc, text) {
        Ok(line) => line,
        Err(error) if error.is_memory() => return Err(Fault::Memory),
        Err(_) => {
            let text = excerpt(alloc, text.trim_ascii())?;
            return Ok(format!(in alloc; "'{text}' is no JSON, as {EXAMPLE} is")?);
        }
    };
    let Some(members) = line.as_array() else {
        let text = excerpt(alloc, text.trim_ascii())?;
        return Ok(format!(in alloc; "'{text}' is no array, as {EXAMPLE} is")?);
    };
    match members.first().and_then(Value::as_str) {
        Some(word) => cause_behind(alloc, word, members, fault),
        None => {
            let text = excerpt(alloc, text.trim_ascii())?;
            Ok(format!(in alloc; "'{text}' begins with no word, as {WORDS} are")?)
        }
    }
}

// Why a line is refused that begins with a word.
fn cause_behind(
    alloc: Global,
    word: &str,
    members: &[Value],
    fault: Fault,
) -> Result<String, Fault> {
    match Form::of(word) {
        Some(form) => cause_in_form(alloc, form, word, members, fault),
        None => {
            let word = excerpt(alloc, word)?;
            Ok(format!(in alloc; "'{word}' is no word of a line, as {WORDS} are")?)
        }
    }
}

// The same of one of the words that there are.
fn cause_in_form(
    alloc: Global,
    form: Form,
    word: &str,
    members: &[Value],
    fault: Fault,
) -> Result<String, Fault> {
    let place = members.get(1).and_then(Value::as_str);
    match (fault, place) {
        (Fault::BadPath, Some(path)) => path_cause(alloc, path),
        (Fault::BadKey, Some(key)) => key_cause(alloc, form, key),
        (Fault::BadScalar, _) => value_cause(alloc, members.get(2)),
        (Fault::BadLine, _) if members.len() != form.len() => {
            let (count, due) = (members.len(), form.text());
            Ok(format!(in alloc;
                "'{word}' stands in an array of {count}, and [\"{word}\",{due}] is due"
            )?)
        }
        (Fault::BadLine, None) => {
            let (place, due) = (excerpt_of(alloc, members.get(1))?, form.text());
            Ok(format!(in alloc; "'{place}' is no text, and [\"{word}\",{due}] is due")?)
        }
        (Fault::BadLine, Some(_)) if matches!(form, Form::Count) => {
            let amount = excerpt_of(alloc, members.get(2))?;
            Ok(format!(in alloc; "BY '{amount}' {AMOUNT}")?)
        }
        _ => Ok(format!(in alloc; "{fault}")?),
    }
}

// Why a path is none.
fn path_cause(alloc: Global, path: &str) -> Result<String, Fault> {
    let path = excerpt(alloc, path)?;
    Ok(format!(in alloc; "'{path}' isn't {PATH}")?)
}

// Why a key of a path is none, or that of a counter.
fn key_cause(alloc: Global, form: Form, place: &str) -> Result<String, Fault> {
    let shown = excerpt(alloc, place)?;
    if let Form::Count = form {
        return Ok(format!(in alloc; "'{shown}' {COUNTER_KEY}")?);
    }
    let key = excerpt(alloc, bad_key(place))?;
    Ok(format!(in alloc; "'{shown}' isn't {PATH}: '{key}' is none")?)
}

// Why a value is none.
fn value_cause(alloc: Global, value: Option<&Value>) -> Result<String, Fault> {
    let value = excerpt_of(alloc, value)?;
    Ok(format!(in alloc; "'{value}' {VALUE}")?)
}

// The beginning of a value as JSON.
fn excerpt_of(alloc: Global, value: Option<&Value>) -> Result<String, Fault> {
    match value {
        Some(value) => excerpt(alloc, value.to_string(alloc)?.as_str()),
        None => Ok(String::new(alloc)),
    }
}

// The beginning of a text, without what a terminal would act on.
fn excerpt(alloc: Global, text: &str) -> Result<String, Fault> {
    let mut shown = String::new(alloc);
    let mut count: usize = 0;
    for character in text.chars() {
        if count == MOST_CHARACTERS {
            shown.push_str("..")?;
            return Ok(shown);
        }
        count = count.saturating_add(1);
        shown.push(if character.is_control() {
            ' '
        } else {
            character
        })?;
    }
    Ok(shown)
}
