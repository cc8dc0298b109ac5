//! What is written on standard error of words and files that are refused, and of edits. Each thing is reported once:
//! `rds_files` tells of a file that can't be used or isn't one of rds.
use crate::address_notes::{note_no_address, note_no_file};
use crate::causes::{AMOUNT, COUNTER_KEY, PATH, VALUE, bad_key, bad_name, stands_twice};
use crate::visits::is_site;
use rds_dots::DotSet;
use rds_files::{Disk, ReplicaFile, is_beside};
use rds_gaps::GapSet;
use rds_lines::place_of;
use rds_listing::{conflicts, conflicts_shown};
use rds_names::{Fault, Name, Path};
use rds_output::Reply;
use rds_state::State;
use rds_tree::view_of_key;
use rds_words::{
    EditWords, GrowWords, InitFromWords, InitWords, ServeWords, SyncWords, ValueWord, amount_of,
};
use std::alloc::Global;

/// Tells which file a command was refused for, and by which fault, unless that was reported of the file already.
pub fn note_file<H: Disk>(rt: &H, path: &str, fault: Fault) {
    match fault {
        Fault::Device => note_no_file(rt, path),
        _ => note_refusal(rt, path, fault),
    }
}

/// The same of a command that takes no node's address.
pub fn note_file_alone<H: Eprint>(rt: &H, path: &str, fault: Fault) {
    match fault {
        Fault::Device => note_no_address(rt, path),
        _ => note_refusal(rt, path, fault),
    }
}

/// The same of a command that reads a second file.
pub fn note_files<H: Eprint>(rt: &H, path: &str, other: &str, fault: Fault) {
    note_file_alone(rt, path, fault);
    if let Fault::Device = fault {
        note_no_address(rt, other);
    }
}

// Tells that a file's command was refused, unless that was reported already.
fn note_refusal<H: Eprint>(rt: &H, path: &str, fault: Fault) {
    match fault {
        Fault::Cut | Fault::Bad | Fault::Extra => (),
        Fault::Unsure => {
            let _ = eprintln!(rt;
                "{path}: may have the change or not: read it before you give the command again"
            );
        }
        _ => {
            let _ = eprintln!(rt; "{path}: {fault}");
        }
    }
}

/// Tells that the input was refused, and by which fault.
pub fn note_input<H: Eprint>(rt: &H, fault: Fault) {
    let _ = eprintln!(rt; "standard input: {fault}");
}

/// Tells why `init` was refused. Why the file can't be made, which is `Usage`, was reported already.
pub fn note_init<H: Eprint>(rt: &H, words: &InitWords<'_>, fault: Fault) {
    match fault {
        Fault::Usage => (),
        Fault::BadKey => note_key(rt, words.group, "group"),
        Fault::BadName if Name::new(words.own).is_err() => note_name(rt, words.own),
        Fault::BadName => note_names(rt, &words.names),
        Fault::BadRoster => note_roster(rt, &words.names),
        Fault::NoSuch => {
            let own = words.own;
            let _ = eprintln!(rt; "OWN '{own}' is none of NAMES");
        }
        Fault::Unsure => note_made(rt, words.file),
        _ => note_file_alone(rt, words.file, fault),
    }
}

// Tells that a file was made that may not last.
fn note_made<H: Eprint>(rt: &H, path: &str) {
    let _ = eprintln!(rt;
        "{path}: is made, and may not last: see whether it is there before you give the command again"
    );
}

/// Tells why `init` with `--from` was refused.
pub fn note_init_from<H: Disk>(rt: &H, words: &InitFromWords<'_>, fault: Fault) {
    let own = words.own;
    let from = words.from;
    match fault {
        Fault::Usage => (),
        Fault::BadName => {
            note_name(rt, own);
            note_swapped(rt, words);
        }
        Fault::NoSuch => {
            let _ = eprintln!(rt; "'{own}' is no name of the group: 'grow {from} {own}' adds it");
        }
        Fault::SameReplica => {
            let _ = eprintln!(rt;
                "'{own}' is used: {from} is its file, or has seen something of it"
            );
        }
        Fault::Unsure => note_made(rt, words.file),
        Fault::Device => {
            note_no_address(rt, words.file);
            note_no_file(rt, from);
        }
        _ => note_file_alone(rt, words.file, fault),
    }
}

// Tells that the file and its name may stand in each other's place, where both look so.
fn note_swapped<H: Eprint>(rt: &H, words: &InitFromWords<'_>) {
    let (file, own, from) = (words.file, words.own, words.from);
    if Name::new(file).is_ok() && (own.contains('.') || own.contains('/')) {
        let _ = eprintln!(rt; "did you mean 'init {own} {file} --from {from}'?");
    }
}

/// The same where a site was asked. That what it told is no file wasn't reported yet.
pub fn note_init_from_site<H: Disk>(rt: &H, words: &InitFromWords<'_>, fault: Fault) {
    let own = words.own;
    let from = words.from;
    match fault {
        Fault::Cut | Fault::Bad => {
            let _ = eprintln!(rt; "{from}: what it told isn't an rds file: {fault}");
        }
        Fault::SameReplica => {
            let _ = eprintln!(rt;
                "'{own}' is used: it is the name of {from}, or that has seen something of it"
            );
        }
        _ => note_init_from(rt, words, fault),
    }
}

/// Tells why `grow` was refused.
pub fn note_grow<H: Disk>(rt: &H, words: &GrowWords<'_>, fault: Fault) {
    match fault {
        Fault::BadName => note_names(rt, &words.names),
        Fault::BadRoster => match known_name(rt, words) {
            Some(name) => {
                let _ = eprintln!(rt; "'{name}' is in the group already");
            }
            None => note_roster(rt, &words.names),
        },
        _ => note_file(rt, words.file, fault),
    }
}

/// Tells which names the group of a site has now, where it has refused the next one.
pub fn note_grown<H: Eprint>(rt: &H, address: &str, names: &[&str]) {
    for name in names {
        let _ = eprintln!(rt; "{address}: '{name}' is in the group now");
    }
}

// The first name that the group of the replica in the file has already.
fn known_name<'a, H: Disk>(rt: &H, words: &GrowWords<'a>) -> Option<&'a str> {
    let file: ReplicaFile<'_, GapSet> = ReplicaFile::open(rt, words.file).ok()?;
    let roster = file.kept().view_of().roster();
    for text in &words.names {
        if let Ok(name) = Name::new(text) {
            if roster.number_of(name).is_some() {
                return Some(*text);
            }
        }
    }
    None
}

// Tells which of these is no name.
fn note_names<H: Eprint>(rt: &H, names: &[&str]) {
    if let Some(name) = bad_name(names) {
        note_name(rt, name);
    }
}

fn note_name<H: Eprint>(rt: &H, name: &str) {
    let _ = eprintln!(rt;
        "'{name}' is no name: a to z first, then a to z, 0 to 9 and '-', at most 16"
    );
}

// Tells why these names make no roster.
fn note_roster<H: Eprint>(rt: &H, names: &[&str]) {
    let _ = match stands_twice(names) {
        Some(name) => eprintln!(rt; "'{name}' stands twice among NAMES"),
        None => eprintln!(rt; "a group has at most 256 names"),
    };
}

fn note_key<H: Eprint>(rt: &H, key: &str, what: &str) {
    let _ = eprintln!(rt; "'{key}' is no {what}: 1 to 64 bytes without '/'");
}

/// Tells why what is asked of a part of a document was refused: its path is quoted, where that is why.
pub fn note_part<H: Disk>(rt: &H, file: &str, path: &str, fault: Fault) {
    match fault {
        Fault::BadPath => {
            let _ = eprintln!(rt; "'{path}' isn't {PATH}");
        }
        Fault::BadKey => {
            let key = bad_key(path);
            let _ = eprintln!(rt; "'{path}' isn't {PATH}: '{key}' is none");
        }
        _ => note_file(rt, file, fault),
    }
}

/// The same of a command that takes no node's address.
pub fn note_part_alone<H: Disk>(rt: &H, file: &str, path: &str, fault: Fault) {
    match fault {
        Fault::Device => note_no_address(rt, file),
        _ => note_part(rt, file, path, fault),
    }
}

/// Tells why an edit was refused: the word that is why is quoted.
pub fn note_edit<H: Disk>(rt: &H, file: &str, words: &EditWords<'_>, fault: Fault) {
    match words {
        EditWords::Set { path, value }
        | EditWords::Add { path, value }
        | EditWords::Del { path, value } => note_entry(rt, file, path, *value, fault),
        EditWords::Clear { path } => note_clear(rt, file, path, fault),
        EditWords::ClearAll => note_file(rt, file, fault),
        EditWords::Inc { key, by } | EditWords::Dec { key, by } => {
            note_count(rt, file, key, by, fault);
        }
    }
}

/// The same of an edit that is made only where it changes something, which a site doesn't do.
pub fn note_edit_if_changed<H: Disk>(rt: &H, file: &str, words: &EditWords<'_>, fault: Fault) {
    match fault {
        Fault::Device if is_site(file) => {
            let _ = eprintln!(rt; "{file}: --if-changed is for files alone");
        }
        _ => note_edit(rt, file, words, fault),
    }
}

// The same of a clear. An empty path may be a variable that isn't set, so it isn't the whole document's.
fn note_clear<H: Disk>(rt: &H, file: &str, path: &str, fault: Fault) {
    note_part(rt, file, path, fault);
    if path.is_empty() && matches!(fault, Fault::BadPath) {
        let _ = eprintln!(rt; "'clear {file} --all' empties the whole document");
    }
}

// The same of an entry. Where its value is no JSON, that may be text without quotes.
fn note_entry<H: Disk>(rt: &H, file: &str, path: &str, value: ValueWord<'_>, fault: Fault) {
    match (fault, value) {
        (Fault::BadLine, ValueWord::Json(value)) => {
            let _ = eprintln!(rt; "'{value}' is no JSON: did you mean '\"{value}\"', or --text?");
        }
        (Fault::BadScalar, ValueWord::Json(value)) => {
            let _ = eprintln!(rt; "'{value}' {VALUE}");
        }
        (Fault::BadScalar, ValueWord::Text(value)) => {
            let length = value.len();
            let _ = eprintln!(rt; "VALUE has {length} bytes: a text has at most 1024");
        }
        _ => note_part(rt, file, path, fault),
    }
}

// The same of a counter's change.
fn note_count<H: Disk>(rt: &H, file: &str, key: &str, by: &str, fault: Fault) {
    match fault {
        Fault::BadKey => {
            let _ = eprintln!(rt; "'{key}' {COUNTER_KEY}");
        }
        Fault::Usage => {
            let _ = eprintln!(rt; "BY '{by}' {AMOUNT}");
        }
        _ => note_file(rt, file, fault),
    }
}

/// Tells that a whole document was cleared, and how many entries went.
pub fn note_cleared<H: Eprint>(rt: &H, words: &EditWords<'_>, answer: &Reply) {
    if let (EditWords::ClearAll, Reply::Edited { killed, .. }) = (words, answer) {
        let _ = eprintln!(rt; "the whole document was cleared: {killed} entries");
    }
}

/// Tells that a file was changed, where the answer that says so couldn't be written.
pub fn note_unwritten<H: Eprint>(rt: &H, path: &str, changed: bool, status: u8) {
    if changed && status != 0 {
        let _ = eprintln!(rt; "{path} was changed, and the answer can't be written");
    }
}

/// Tells each register with more than one value at the path of a text and below it: its lines say which of them is set
/// last.
pub fn note_conflicts<H: Disk>(rt: &H, file: &ReplicaFile<'_, GapSet>, text: &str) {
    let alloc = rt.alloc();
    if let Ok(keys) = Path::new(alloc, text) {
        if let Ok(lines) = conflicts_at(alloc, file.kept().view_of().state(), &keys) {
            let _ = eprint!(rt; "{lines}");
        }
    }
}

// The registers with more than one value at a path and below it, a line each.
fn conflicts_at<S: DotSet>(alloc: Global, state: &State<S>, path: &Path) -> Result<String, Fault> {
    if path.is_empty() {
        return conflicts(alloc, state, path);
    }
    let (above, key) = place_of(alloc, path)?;
    conflicts_shown(alloc, &above, &view_of_key(alloc, state, &above, &key)?)
}

/// Tells that the words of a command don't go together.
pub fn note_together<H: Eprint>(rt: &H, command: &str) {
    let _ = match command {
        "init" => eprintln!(rt;
            "init takes FILE, GROUP, OWN and all NAMES, OWN among them; or FILE, OWN and --from FILE"
        ),
        "get" => eprintln!(rt; "get takes one of --reg, --set and --counter"),
        "clear" => eprintln!(rt; "clear takes a PATH, or --all for the whole document"),
        _ => eprintln!(rt; "these words don't go together: 'rds_node help COMMAND' says which do"),
    };
}

/// Tells why words of `serve` are refused.
pub fn note_serve<H: Eprint>(rt: &H, words: &ServeWords<'_>) {
    if amount_of(words.sessions).is_err() {
        let sessions = words.sessions;
        let _ = eprintln!(rt; "--sessions '{sessions}' is no whole number; 0 is no end");
    } else {
        note_timeout(rt, words.file, words.timeout);
    }
}

/// Tells what it means that a site has something of the file's own that the file lacks.
pub fn note_visit<H: Eprint>(rt: &H, path: &str, fault: Option<Fault>) {
    if let Some(Fault::OwnAhead(_)) = fault {
        note_older(rt, path);
    }
}

// Tells that a file lacks something of its own, and what is to be done.
fn note_older<H: Eprint>(rt: &H, path: &str) {
    let _ = eprintln!(rt;
        "{path} is an older copy, or both were edited: keep both files, and see docs/FAULTS.md"
    );
}

/// Tells why words of `sync` are refused.
pub fn note_sync<H: Eprint>(rt: &H, words: &SyncWords<'_>) {
    if words.token_file.is_some() && !is_site(words.addr) {
        let addr = words.addr;
        let _ = eprintln!(rt;
            "--token-file is for a node alone, and '{addr}' isn't 'http://HOST:PORT'"
        );
    } else {
        note_timeout(rt, words.file, words.timeout);
    }
}

fn note_timeout<H: Eprint>(rt: &H, path: &str, timeout: &str) {
    if amount_of(timeout).is_err() {
        let _ = eprintln!(rt; "--timeout '{timeout}' is no whole number of seconds; 0 is no limit");
    } else {
        note_beside(rt, path);
    }
}

/// Tells that a path is that of a file beside another, where it is.
pub fn note_beside<H: Eprint>(rt: &H, path: &str) {
    if is_beside(path) {
        let _ = eprintln!(rt; "{path}: ends in .new, as a file that is written beside another");
    }
}

/// Tells why a copy isn't merged into a file.
pub fn note_merge<H: Disk>(rt: &H, path: &str, from: &str, fault: Fault) {
    match fault {
        Fault::OwnAhead(_) => {
            let _ = eprintln!(rt; "{from} has something of {path}'s own that it lacks");
            note_older(rt, path);
        }
        Fault::Conflict { replica, seq } => note_conflict(rt, path, from, replica, seq),
        Fault::WrongGroup | Fault::WrongRoster => {
            let _ = eprintln!(rt; "{path} and {from}: {fault}");
        }
        _ => note_files(rt, path, from, fault),
    }
}

// Tells which replica's dot has two entries: by its name, where the file still tells that.
fn note_conflict<H: Disk>(rt: &H, path: &str, from: &str, replica: u8, seq: u64) {
    let _ = match name_in(rt, path, replica) {
        Some(name) => {
            let name = name.as_str();
            eprintln!(rt;
                "{path} and {from}: Conflict: the dot {seq} of replica '{name}' has two entries"
            )
        }
        None => {
            let fault = Fault::Conflict { replica, seq };
            eprintln!(rt; "{path} and {from}: {fault}")
        }
    };
}

// The name of a replica of the group of the file's.
fn name_in<H: Disk>(rt: &H, path: &str, number: u8) -> Option<Name> {
    let file: ReplicaFile<'_, GapSet> = ReplicaFile::open(rt, path).ok()?;
    file.kept().view_of().roster().name_of(number)
}

/// Tells that several kinds stand at a path.
pub fn note_several<H: Eprint>(rt: &H, path: &str) {
    let _ = eprintln!(rt; "several kinds stand at '{path}': say --reg, --set or --counter");
}
