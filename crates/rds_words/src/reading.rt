//! From what the library found to the task.
ghost use Rattle.std.specs.Prelude.{◌≡◌, [], ◌∷◌, codes, map, None, option_map, Some, unwrap_or, IfOk};
ghost use Rattle.clap.specs.Words.{all_of, first_of, found_of, rows_of, subcommand_rows_of};
ghost use Rattle.rds_words.specs.Raw.{clear_words, raw_words};
ghost use Rattle.rds_words.specs.Task.{
  changed_words_in,
  clear_words_in,
  delta_words_behind,
  edit_words_behind,
  entry_words_in,
  file_and_path,
  file_words_behind,
  get_words_in,
  grow_words_in,
  init_words_by,
  init_words_in,
  is_given,
  kind_words,
  looking_words_behind,
  named_words,
  plain_words_behind,
  raw_words_in,
  run_words_in,
  session_words_behind,
  show_words_in,
  sync_words_in,
  value_words,
  watch_words_in,
  words_in,
  task_words,
  words_under,
};

use crate::tasks::{
    EditWords, GrowWords, InitFromWords, InitWords, RawKind, RunWords, ServeWords, SyncWords, Task,
    ValueWord, WatchWords,
};
use clap::ArgMatches;
use std::alloc::{AllocError, Global};

/// The task that the matches name.
pub fn named_task<'a>(
    alloc: Global,
    matches: &ArgMatches<'a>,
) -> Result<Option<Task<'a>>, AllocError>
    ensures { IfOk result (λ task. option_map task_words task
        ≡ words_in (subcommand_rows_of matches.now)) }
{
    match entered(matches) {
        None => Ok(None),
        Some(("init", inner)) => init_task(alloc, inner),
        Some(("grow", inner)) => grow_task(alloc, inner),
        Some(("run", inner)) => run_task(alloc, inner),
        Some((name, inner)) => Ok(plain_task(name, inner)),
    }
}

// The subcommand's name, and what was found behind it.
fn entered<'m, 'a>(matches: &'m ArgMatches<'a>) -> Option<(&'a str, &'m ArgMatches<'a>)>
    ensures { option_map (λ p. (p.0.now, rows_of (found_of p.1.now))) result
        ≡ subcommand_rows_of matches.now }
{
    matches.subcommand()
}

// The task of a command but `init`, `grow` and `run`.
fn plain_task<'a>(name: &str, inner: &ArgMatches<'a>) -> Option<Task<'a>>
    ensures { option_map task_words result
        ≡ named_words name.now (plain_words_behind name.now (rows_of (found_of inner.now))) }
{
    match name {
        "join" => Some(Task::Join),
        "sim" => Some(Task::Sim),
        "files" => Some(Task::Files),
        "faults" => Some(Task::Faults),
        "show" => show_task(inner),
        _ => file_task(name, inner),
    }
}

// The task of `show`.
fn show_task<'a>(inner: &ArgMatches<'a>) -> Option<Task<'a>>
    ensures { option_map task_words result
        ≡ named_words (codes "show") (show_words_in (rows_of (found_of inner.now))) }
{
    let (file, path) = file_and_path(inner)?;
    if is_given(inner, "PRETTY") {
        Some(Task::ShowPretty { file, path })
    } else {
        Some(Task::Show { file, path })
    }
}

// The task of any command on files but `init`, `grow`, `run` and `show`.
fn file_task<'a>(name: &str, inner: &ArgMatches<'a>) -> Option<Task<'a>>
    ensures { option_map task_words result
        ≡ named_words name.now (file_words_behind name.now (rows_of (found_of inner.now))) }
{
    match name {
        "edit" => {
            let file = word_under(inner, "FILE")?;
            Some(Task::EditLines { file })
        }
        "get" => get_task(inner),
        "status" => {
            let file = word_under(inner, "FILE")?;
            Some(Task::Status { file })
        }
        "compact" => {
            let file = word_under(inner, "FILE")?;
            Some(Task::Compact { file })
        }
        _ => looking_task(name, inner),
    }
}

// The task of a command that looks at documents, makes sessions, carries a delta or edits.
fn looking_task<'a>(name: &str, inner: &ArgMatches<'a>) -> Option<Task<'a>>
    ensures { option_map task_words result
        ≡ named_words name.now (looking_words_behind name.now (rows_of (found_of inner.now))) }
{
    match name {
        "dump" => {
            let (file, path) = file_and_path(inner)?;
            Some(Task::Dump { file, path })
        }
        "conflicts" => {
            let (file, path) = file_and_path(inner)?;
            Some(Task::Conflicts { file, path })
        }
        "diff" => {
            let (file, other) = two_words(inner, "FILE", "OTHER")?;
            Some(Task::Diff { file, other })
        }
        _ => session_task(name, inner),
    }
}

// The task of a command that makes sessions, follows a node, carries a delta, or edits the replica in a file.
fn session_task<'a>(name: &str, inner: &ArgMatches<'a>) -> Option<Task<'a>>
    ensures { option_map task_words result
        ≡ named_words name.now (session_words_behind name.now (rows_of (found_of inner.now))) }
{
    match name {
        "serve" => {
            let (file, addr, sessions, timeout) = file_and_three(
                inner, "ADDR", "SESSIONS", "TIMEOUT",
            )?;
            Some(Task::Serve(ServeWords {
                file,
                addr,
                sessions,
                timeout,
            }))
        }
        "sync" => sync_task(inner),
        "watch" => watch_task(inner),
        "pair" => {
            let (first, second) = two_words(inner, "FILE", "PEER")?;
            Some(Task::Pair { first, second })
        }
        _ => delta_task(name, inner),
    }
}

// The task of `sync`.
fn sync_task<'a>(inner: &ArgMatches<'a>) -> Option<Task<'a>>
    ensures { option_map task_words result
        ≡ named_words (codes "sync") (sync_words_in (rows_of (found_of inner.now))) }
{
    let (file, addr, timeout) = file_and_two(inner, "ADDR", "TIMEOUT")?;
    Some(Task::Sync(SyncWords {
        file,
        addr,
        timeout,
        token_file: word_under(inner, "TOKEN_FILE"),
    }))
}

// The task of `watch`.
fn watch_task<'a>(inner: &ArgMatches<'a>) -> Option<Task<'a>>
    ensures { option_map task_words result
        ≡ named_words (codes "watch") (watch_words_in (rows_of (found_of inner.now))) }
{
    let node = word_under(inner, "NODE")?;
    let part = word_under(inner, "PATH").unwrap_or("");
    let token = word_under(inner, "TOKEN_FILE");
    Some(Task::Watch(WatchWords {
        node,
        path: part,
        token_file: token,
    }))
}

// The task of a command that carries a delta, or that edits the replica in a file.
fn delta_task<'a>(name: &str, inner: &ArgMatches<'a>) -> Option<Task<'a>>
    ensures { option_map task_words result
        ≡ named_words name.now (delta_words_behind name.now (rows_of (found_of inner.now))) }
{
    match name {
        "ask" => {
            let file = word_under(inner, "FILE")?;
            Some(Task::Ask { file })
        }
        "answer" => {
            let file = word_under(inner, "FILE")?;
            Some(Task::Answer { file })
        }
        "take" => {
            let (file, question, answer) = file_and_two(inner, "QUESTION", "ANSWER")?;
            Some(Task::Take {
                file,
                question,
                answer,
            })
        }
        "merge" => {
            let (file, from) = two_words(inner, "FILE", "FROM")?;
            Some(Task::Merge { file, from })
        }
        "check" => {
            let (question, answer) = two_words(inner, "QUESTION", "ANSWER")?;
            Some(Task::Check { question, answer })
        }
        _ => edit_task(name, inner),
    }
}

// The task of a command that edits the replica in a file.
fn edit_task<'a>(name: &str, inner: &ArgMatches<'a>) -> Option<Task<'a>>
    ensures { option_map task_words result
        ≡ named_words name.now (edit_words_behind name.now (rows_of (found_of inner.now))) }
{
    match name {
        "set" => set_task(inner),
        "add" => add_task(inner),
        "del" => {
            let (file, path, value) = entry_words(inner)?;
            let edit = EditWords::Del { path, value };
            Some(Task::Edit { file, edit })
        }
        "clear" => clear_task(inner),
        "inc" => {
            let (file, key, by) = file_and_two(inner, "KEY", "BY")?;
            let edit = EditWords::Inc { key, by };
            Some(Task::Edit { file, edit })
        }
        "dec" => {
            let (file, key, by) = file_and_two(inner, "KEY", "BY")?;
            let edit = EditWords::Dec { key, by };
            Some(Task::Edit { file, edit })
        }
        _ => None,
    }
}

// The file, the path and the value of an entry.
fn entry_words<'a>(inner: &ArgMatches<'a>) -> Option<(&'a str, &'a str, ValueWord<'a>)>
    ensures { option_map (λ w. w.0.now ∷ w.1.now ∷ value_words w.2) result
        ≡ entry_words_in (rows_of (found_of inner.now)) }
{
    let (file, path, value) = file_and_two(inner, "PATH", "VALUE")?;
    if is_given(inner, "TEXT") {
        Some((file, path, ValueWord::Text(value)))
    } else {
        Some((file, path, ValueWord::Json(value)))
    }
}

// The task of `set`.
fn set_task<'a>(inner: &ArgMatches<'a>) -> Option<Task<'a>>
    ensures { option_map task_words result
        ≡ named_words (codes "set") (changed_words_in (rows_of (found_of inner.now))) }
{
    let (file, path, value) = entry_words(inner)?;
    let edit = EditWords::Set { path, value };
    if is_given(inner, "IF_CHANGED") {
        Some(Task::EditIfChanged { file, edit })
    } else {
        Some(Task::Edit { file, edit })
    }
}

// The task of `add`.
fn add_task<'a>(inner: &ArgMatches<'a>) -> Option<Task<'a>>
    ensures { option_map task_words result
        ≡ named_words (codes "add") (changed_words_in (rows_of (found_of inner.now))) }
{
    let (file, path, value) = entry_words(inner)?;
    let edit = EditWords::Add { path, value };
    if is_given(inner, "IF_CHANGED") {
        Some(Task::EditIfChanged { file, edit })
    } else {
        Some(Task::Edit { file, edit })
    }
}

// The task of `clear`.
fn clear_task<'a>(inner: &ArgMatches<'a>) -> Option<Task<'a>>
    ensures { option_map task_words result
        ≡ named_words (codes "clear") (clear_words_in (rows_of (found_of inner.now))) }
{
    let file = word_under(inner, "FILE")?;
    let path = word_under(inner, "PATH");
    let all = is_given(inner, "ALL");
    clear_of(file, path, all)
}

// Either a path or the whole document.
fn clear_of<'a>(file: &'a str, path: Option<&'a str>, all: bool) -> Option<Task<'a>>
    ensures { option_map task_words result
        ≡ named_words (codes "clear") (clear_words file.now (option_map (λ p. p.now) path.entry) all) }
{
    match (path, all) {
        (Some(path), false) => {
            let edit = EditWords::Clear { path };
            Some(Task::Edit { file, edit })
        }
        (None, true) => {
            let edit = EditWords::ClearAll;
            Some(Task::Edit { file, edit })
        }
        _ => None,
    }
}

// The task of `get`.
fn get_task<'a>(inner: &ArgMatches<'a>) -> Option<Task<'a>>
    ensures { option_map task_words result
        ≡ named_words (codes "get") (get_words_in (rows_of (found_of inner.now))) }
{
    let (file, path) = two_words(inner, "FILE", "PATH")?;
    match raw_kind(inner)? {
        Some(kind) => Some(Task::GetRaw { file, path, kind }),
        None => Some(Task::Get { file, path }),
    }
}

// Which values are printed, where they stand alone. Two kinds together are none.
fn raw_kind(inner: &ArgMatches<'_>) -> Option<Option<RawKind>>
    ensures { option_map kind_words result ≡ raw_words_in (rows_of (found_of inner.now)) }
{
    let raw = is_given(inner, "RAW");
    let register = is_given(inner, "REG");
    let set = is_given(inner, "SET");
    let counter = is_given(inner, "COUNTER");
    kind_of(raw, register, set, counter)
}

fn kind_of(raw: bool, register: bool, set: bool, counter: bool) -> Option<Option<RawKind>>
    ensures { option_map kind_words result ≡ raw_words raw register set counter }
{
    match (register, set, counter) {
        (true, false, false) => Some(Some(RawKind::Register)),
        (false, true, false) => Some(Some(RawKind::Set)),
        (false, false, true) => Some(Some(RawKind::Counter)),
        (false, false, false) => Some(if raw { Some(RawKind::Any) } else { None }),
        _ => None,
    }
}

fn init_task<'a>(alloc: Global, inner: &ArgMatches<'a>) -> Result<Option<Task<'a>>, AllocError>
    ensures { IfOk result (λ task. option_map task_words task
        ≡ named_words (codes "init") (init_words_in (rows_of (found_of inner.now)))) }
{
    let Some(file) = word_under(inner, "FILE") else {
        return Ok(None);
    };
    let Some(group) = word_under(inner, "GROUP") else {
        return Ok(None);
    };
    let own = word_under(inner, "OWN");
    let names = words_under(inner, "NAMES");
    match word_under(inner, "FROM") {
        Some(from) => Ok(init_from(file, group, own, names, from)),
        None => init_named(alloc, file, group, own, names),
    }
}

// The task of `init` with `--from`, where no more words are given.
fn init_from<'a>(
    file: &'a str,
    own: &'a str,
    more: Option<&'a str>,
    names: Option<&[&'a str]>,
    from: &'a str,
) -> Option<Task<'a>>
    ensures { option_map task_words result ≡ named_words (codes "init")
        (init_words_by file.now own.now (option_map (λ w. w.now) more.entry)
        (option_map (λ ws. map (λ w. w.now) ws.now) names.entry) (Some from.now)) }
{
    match more {
        Some(_) => None,
        None => match names {
            Some(_) => None,
            None => Some(Task::InitFrom(InitFromWords { file, from, own })),
        },
    }
}

// The task of `init` without it, where all words are given.
fn init_named<'a>(
    alloc: Global,
    file: &'a str,
    group: &'a str,
    own: Option<&'a str>,
    names: Option<&[&'a str]>,
) -> Result<Option<Task<'a>>, AllocError>
    ensures { IfOk result (λ task. option_map task_words task ≡ named_words (codes "init")
        (init_words_by file.now group.now (option_map (λ w. w.now) own.entry)
        (option_map (λ ws. map (λ w. w.now) ws.now) names.entry) None)) }
{
    let Some(own) = own else {
        return Ok(None);
    };
    let Some(names) = names else {
        return Ok(None);
    };
    if names.is_empty() {
        return Ok(None);
    }
    let names = Vec::from_slice(alloc, names)?;
    Ok(Some(Task::Init(InitWords {
        file,
        group,
        own,
        names,
    })))
}

fn grow_task<'a>(alloc: Global, inner: &ArgMatches<'a>) -> Result<Option<Task<'a>>, AllocError>
    ensures { IfOk result (λ task. option_map task_words task
        ≡ named_words (codes "grow") (grow_words_in (rows_of (found_of inner.now)))) }
{
    let Some(file) = word_under(inner, "FILE") else {
        return Ok(None);
    };
    let Some(names) = words_under(inner, "NAMES") else {
        return Ok(None);
    };
    let names = Vec::from_slice(alloc, names)?;
    Ok(Some(Task::Grow(GrowWords { file, names })))
}

fn run_task<'a>(alloc: Global, inner: &ArgMatches<'a>) -> Result<Option<Task<'a>>, AllocError>
    ensures { IfOk result (λ task. option_map task_words task
        ≡ named_words (codes "run") (run_words_in (rows_of (found_of inner.now)))) }
{
    let Some((file, http, every)) = file_and_two(inner, "HTTP", "EVERY") else {
        return Ok(None);
    };
    let peers = listed_words(alloc, inner, "PEERS")?;
    let token_file = word_under(inner, "TOKEN_FILE");
    let is_open = is_given(inner, "OPEN");
    let log = is_given(inner, "LOG");
    Ok(Some(Task::Run(RunWords {
        file,
        http,
        peers,
        every,
        token_file,
        is_open,
        log,
    })))
}

// The words under an id, which may have none.
fn listed_words<'a>(
    alloc: Global,
    inner: &ArgMatches<'a>,
    id: &str,
) -> Result<Vec<&'a str>, AllocError>
    ensures { IfOk result (λ words. map (λ w. w.now) words.items
        ≡ unwrap_or (all_of id.now (rows_of (found_of inner.now))) []) }
{
    match words_under(inner, id) {
        Some(words) => Vec::from_slice(alloc, words),
        None => Ok(Vec::new(alloc)),
    }
}

// The words under these two ids.
fn two_words<'a>(inner: &ArgMatches<'a>, first: &str, second: &str) -> Option<(&'a str, &'a str)>
    ensures { option_map (λ w. w.0.now ∷ w.1.now ∷ []) result
        ≡ words_under (first.now ∷ second.now ∷ []) (rows_of (found_of inner.now)) }
{
    let first = word_under(inner, first)?;
    let second = word_under(inner, second)?;
    Some((first, second))
}

// The file, and the words under these two ids.
fn file_and_two<'a>(
    inner: &ArgMatches<'a>,
    second: &str,
    third: &str,
) -> Option<(&'a str, &'a str, &'a str)>
    ensures { option_map (λ w. w.0.now ∷ w.1.now ∷ w.2.now ∷ []) result
        ≡ words_under (codes "FILE" ∷ second.now ∷ third.now ∷ []) (rows_of (found_of inner.now)) }
{
    let file = word_under(inner, "FILE")?;
    let second = word_under(inner, second)?;
    let third = word_under(inner, third)?;
    Some((file, second, third))
}

// The file, and the words under these three ids.
fn file_and_three<'a>(
    inner: &ArgMatches<'a>,
    second: &str,
    third: &str,
    fourth: &str,
) -> Option<(&'a str, &'a str, &'a str, &'a str)>
    ensures { option_map (λ w. w.0.now ∷ w.1.now ∷ w.2.now ∷ w.3.now ∷ []) result
        ≡ words_under (codes "FILE" ∷ second.now ∷ third.now ∷ fourth.now ∷ [])
        (rows_of (found_of inner.now)) }
{
    let file = word_under(inner, "FILE")?;
    let second = word_under(inner, second)?;
    let third = word_under(inner, third)?;
    let fourth = word_under(inner, fourth)?;
    Some((file, second, third, fourth))
}

// The file, and the path, which is the root where there is none.
fn file_and_path<'a>(inner: &ArgMatches<'a>) -> Option<(&'a str, &'a str)>
    ensures { option_map (λ w. w.0.now ∷ w.1.now ∷ []) result
        ≡ file_and_path (rows_of (found_of inner.now)) }
{
    let file = word_under(inner, "FILE")?;
    let path = word_under(inner, "PATH").unwrap_or("");
    Some((file, path))
}

// Whether an option without a value was given.
fn is_given(inner: &ArgMatches<'_>, id: &str) -> bool
    ensures { result ≡ is_given id.now (rows_of (found_of inner.now)) }
{
    match word_under(inner, id) {
        Some(word) => word == "true",
        None => false,
    }
}

// The first word under an id.
fn word_under<'a>(inner: &ArgMatches<'a>, id: &str) -> Option<&'a str>
    ensures { option_map (λ w. w.now) result ≡ first_of id.now (rows_of (found_of inner.now)) }
{
    inner.get_str(id)
}

// All words under an id.
fn words_under<'m, 'a>(inner: &'m ArgMatches<'a>, id: &str) -> Option<&'m [&'a str]>
    ensures { option_map (λ ws. map (λ w. w.now) ws.now) result
        ≡ all_of id.now (rows_of (found_of inner.now)) }
{
    inner.get_strs(id)
}
