//! The command line's library has a tip for each word that begins with a hyphen. Where it leads nowhere it is left out,
//! and what is right is reported in its place.
use clap::Error;
use clap::error::ErrorKind;
use rds_names::Fault;
use std::alloc::Global;
use std::convert::AsStr;

/// What stands before a word that the library would have behind two dashes.
const TIP: &str = "\n\n  tip: to pass '";

/// The command's name in words of which the first is the program's.
pub fn command_in<S: AsStr>(words: &[S]) -> &str {
    match words.get(1) {
        Some(word) => word.as_str(),
        None => "",
    }
}

/// The library's text on a command's words, without a tip that leads nowhere.
pub fn shown_text(alloc: Global, command: &str, error: &Error) -> Result<String, Fault> {
    let text = format!(in alloc; "{error}")?;
    without_tip(alloc, command, text.as_str())
}

fn without_tip(alloc: Global, command: &str, text: &str) -> Result<String, Fault> {
    if let Some((head, tip)) = text.split_once(TIP) {
        if let Some((_, usage)) = tip.split_once("\n\n") {
            if leads_nowhere(command, tip) {
                return Ok(format!(in alloc; "{head}\n\n{usage}")?);
            }
        }
    }
    Ok(String::from_str(alloc, text)?)
}

// Whether behind dashes the word is refused too: an option that the command doesn't have, or a number below 0 where it
// has none.
fn leads_nowhere(command: &str, word: &str) -> bool {
    word.starts_with("--") || (is_below_zero(word) && has_amounts(command))
}

// Whether it may be a number below 0.
fn is_below_zero(word: &str) -> bool {
    match word.as_bytes() {
        [b'-', digit, ..] => digit.is_ascii_digit(),
        _ => false,
    }
}

// Whether all numbers of the command are 0 or more.
fn has_amounts(command: &str) -> bool {
    matches!(command, "inc" | "dec" | "serve" | "sync" | "run")
}

/// Tells what the library's text doesn't say of a mistake in words.
pub fn note_mistake<H: Eprint, S: AsStr>(rt: &H, words: &[S], error: &Error) {
    match error.kind() {
        ErrorKind::UnknownArgument => {
            note_below_zero(rt, words);
            note_one_more(rt, words);
        }
        ErrorKind::MissingRequiredArgument => note_lacking(rt, words),
        _ => (),
    }
}

// Tells what a number of the command is, where one below 0 was given.
fn note_below_zero<H: Eprint, S: AsStr>(rt: &H, words: &[S]) {
    for word in words {
        if is_below_zero(word.as_str()) {
            note_amount(rt, command_in(words), word.as_str());
            return;
        }
    }
}

// Tells that a file is one too many for `merge`.
fn note_one_more<H: Eprint, S: AsStr>(rt: &H, words: &[S]) {
    if command_in(words) == "merge" && !has_option(words) {
        if let Some(word) = words.get(4) {
            let word = word.as_str();
            let _ = eprintln!(rt; "merge takes one FROM a call, and '{word}' is one more");
        }
    }
}

// Whether one of these words is an option.
fn has_option<S: AsStr>(words: &[S]) -> bool {
    for word in words {
        if word.as_str().starts_with('-') {
            return true;
        }
    }
    false
}

// Tells what `init` lacks with `--from`, of which the library knows only what it lacks without.
fn note_lacking<H: Eprint, S: AsStr>(rt: &H, words: &[S]) {
    if command_in(words) == "init" {
        let _ = match words_beside_from(words) {
            Some(1) => eprintln!(rt;
                "OWN lacks: with --from, init takes FILE and OWN, and no GROUP"
            ),
            Some(_) => eprintln!(rt;
                "FILE and OWN lack: with --from, init takes both, and no GROUP"
            ),
            None => Ok(()),
        };
    }
}

// How many words of a command stand beside `--from` and its value, where that is given.
fn words_beside_from<S: AsStr>(words: &[S]) -> Option<usize> {
    let count = words.len().saturating_sub(2);
    for word in words {
        if word.as_str() == "--from" {
            return Some(count.saturating_sub(2));
        }
        if word.as_str().starts_with("--from=") {
            return Some(count.saturating_sub(1));
        }
    }
    None
}

fn note_amount<H: Eprint>(rt: &H, command: &str, word: &str) {
    let _ = match command {
        "inc" | "dec" => eprintln!(rt;
            "'{word}' is below 0: BY is a whole number, 0 or more: inc raises by it, and dec lowers"
        ),
        "serve" | "sync" => eprintln!(rt;
            "'{word}' is below 0: --sessions and --timeout are whole numbers, 0 or more"
        ),
        "run" => eprintln!(rt;
            "'{word}' is below 0: --every is a whole number of seconds from 1 to 86400"
        ),
        _ => Ok(()),
    };
}
