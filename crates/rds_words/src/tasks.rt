//! The tasks that the words of a command line name.
ghost use Rattle.std.specs.Prelude.{◌≡◌, map, option_map, IfOk, Some, MatchResult};
ghost use Rattle.clap.specs.Words.{FailsBy, Text, fault_of, kind_of, subcommand_of, subcommand_rows_of};
ghost use Rattle.rds_words.specs.Commands.{edit_lines_words, node_app, join_words, sim_words};
ghost use Rattle.rds_words.specs.Task.{EditsByLines, task_words, words_in};
ghost use Rattle.rds_words.specs.Entered.{Names};

use crate::builders::node_command;
use crate::reading::named_task;
use clap::error::ErrorKind;
use clap::{ArgMatches, Error};
use std::alloc::Global;
use std::convert::AsStr;

/// What the words ask for. Each text is a word as it was given.
#[derive(Debug, Drop)]
pub enum Task<'a> {
    /// Joins two snapshots.
    Join,
    /// Answers lines about a group of replicas in memory.
    Sim,
    /// Tells how files are read and written.
    Files,
    /// Tells what the faults are.
    Faults,
    /// Makes a file that holds an empty replica.
    Init(InitWords<'a>),
    /// Makes a file that holds the next replica of a group, from a file of that group.
    InitFrom(InitFromWords<'a>),
    /// Adds replicas to the group of the replica in a file.
    Grow(GrowWords<'a>),
    /// Edits the replica in a file.
    Edit {
        /// The file.
        file: &'a str,
        /// How it is edited.
        edit: EditWords<'a>,
    },
    /// Edits it so, unless the value stands there already.
    EditIfChanged {
        /// The file.
        file: &'a str,
        /// How it is edited.
        edit: EditWords<'a>,
    },
    /// Edits the replica in a file as the lines say that are read.
    EditLines {
        /// The file.
        file: &'a str,
    },
    /// Prints what stands at a path of the replica in a file.
    Get {
        /// The file.
        file: &'a str,
        /// The path.
        path: &'a str,
    },
    /// Prints the values alone that stand there, one a line.
    GetRaw {
        /// The file.
        file: &'a str,
        /// The path.
        path: &'a str,
        /// Which values.
        kind: RawKind,
    },
    /// Prints a part of the document of the replica in a file.
    Show {
        /// The file.
        file: &'a str,
        /// The path of the part, empty for the root.
        path: &'a str,
    },
    /// Prints such a part with indents.
    ShowPretty {
        /// The file.
        file: &'a str,
        /// The path of the part, empty for the root.
        path: &'a str,
    },
    /// Prints the lines that give a part of the document again.
    Dump {
        /// The file.
        file: &'a str,
        /// The path of the part, empty for the root.
        path: &'a str,
    },
    /// Writes the file of a replica anew, without records.
    Compact {
        /// The file.
        file: &'a str,
    },
    /// Prints whose replica a file holds, and how much there is of it.
    Status {
        /// The file.
        file: &'a str,
    },
    /// Serves the replica in a file to peers, one session after the other.
    Serve(ServeWords<'a>),
    /// Serves the replica in a file to programs and people over HTTP.
    Run(RunWords<'a>),
    /// Has one session with a replica that is served.
    Sync(SyncWords<'a>),
    /// Has one session between the replicas in two files.
    Pair {
        /// The client's file.
        first: &'a str,
        /// The server's file.
        second: &'a str,
    },
    /// Writes the question of the replica in a file.
    Ask {
        /// The file.
        file: &'a str,
    },
    /// Reads a question, and writes the answer of the replica in a file.
    Answer {
        /// The file.
        file: &'a str,
    },
    /// Takes the answer to its question into a file.
    Take {
        /// The file.
        file: &'a str,
        /// The question's file, or `-` for the input.
        question: &'a str,
        /// The answer's file, or `-` for the input.
        answer: &'a str,
    },
    /// Joins all that another file has seen into a file.
    Merge {
        /// The file.
        file: &'a str,
        /// The other, which stays as it is.
        from: &'a str,
    },
    /// Says whether the answer's certificate holds, and prints the answer's delta.
    Check {
        /// The question's file, or `-` for the input.
        question: &'a str,
        /// The answer's file, or `-` for the input.
        answer: &'a str,
    },
    /// Lists the registers with more than one value.
    Conflicts {
        /// The file.
        file: &'a str,
        /// The path of the part in which they stand, empty for the root.
        path: &'a str,
    },
    /// Lists what the document of one file shows and that of the other doesn't.
    Diff {
        /// The file.
        file: &'a str,
        /// The other.
        other: &'a str,
    },
    /// Prints the changes of a node as they come.
    Watch(WatchWords<'a>),
}

/// Which values are printed.
#[derive(Clone, Copy, Debug, PartialEq, Eq)]
pub enum RawKind {
    /// Those of the one kind that stands there.
    Any,
    /// The register's.
    Register,
    /// The set's.
    Set,
    /// The counter's.
    Counter,
}

/// An empty replica in words.
#[derive(Debug, Drop)]
pub struct InitWords<'a> {
    /// The file that is to hold it.
    pub file: &'a str,
    /// The group's name.
    pub group: &'a str,
    /// The replica's own name.
    pub own: &'a str,
    /// The names of all replicas, in their order.
    pub names: Vec<&'a str>,
}

/// The next replica of a group in words.
#[derive(Clone, Copy, Debug)]
pub struct InitFromWords<'a> {
    /// The file that is to hold it.
    pub file: &'a str,
    /// The file of a replica of the group.
    pub from: &'a str,
    /// The new replica's own name.
    pub own: &'a str,
}

/// New replicas of a group, in words.
#[derive(Debug, Drop)]
pub struct GrowWords<'a> {
    /// The file of a replica of the group.
    pub file: &'a str,
    /// The new names, in their order.
    pub names: Vec<&'a str>,
}

/// Sessions with peers, in words.
#[derive(Clone, Copy, Debug)]
pub struct ServeWords<'a> {
    /// The file.
    pub file: &'a str,
    /// The address that peers connect to.
    pub addr: &'a str,
    /// How many sessions, 0 for no end.
    pub sessions: &'a str,
    /// After how many seconds a silent peer is given up, 0 for never.
    pub timeout: &'a str,
}

/// A site over a file, in words.
#[derive(Debug, Drop)]
pub struct RunWords<'a> {
    /// The file.
    pub file: &'a str,
    /// The address that browsers and programs connect to.
    pub http: &'a str,
    /// The addresses of the peers that it meets, each a host and a port, in the order in which they were given.
    pub peers: Vec<&'a str>,
    /// After how many seconds it meets them again.
    pub every: &'a str,
    /// The file of the token that is asked for, where one is.
    pub token_file: Option<&'a str>,
    /// Whether other machines may come, also where there is no token.
    pub is_open: bool,
    /// Whether each request is reported by a line on standard output.
    pub log: bool,
}

/// A session with a replica that is served, in words.
#[derive(Clone, Copy, Debug)]
pub struct SyncWords<'a> {
    /// The file.
    pub file: &'a str,
    /// The address where the other replica is served, or that of a node, as `http://HOST:PORT`.
    pub addr: &'a str,
    /// After how many seconds a silent peer is given up, 0 for never.
    pub timeout: &'a str,
    /// The file of the token that the node asks for, where one is.
    pub token_file: Option<&'a str>,
}

/// A node whose changes are followed, in words.
#[derive(Clone, Copy, Debug)]
pub struct WatchWords<'a> {
    /// The node's address, as `http://HOST:PORT`.
    pub node: &'a str,
    /// The path of the part whose changes are printed, empty for the root.
    pub path: &'a str,
    /// The file of the token that the node asks for, where one is.
    pub token_file: Option<&'a str>,
}

/// A value in words.
#[derive(Clone, Copy, Debug)]
pub enum ValueWord<'a> {
    /// The word is JSON.
    Json(&'a str),
    /// The word is the text itself.
    Text(&'a str),
}

/// An edit in words: paths are keys with '/' between them.
#[derive(Clone, Copy, Debug)]
pub enum EditWords<'a> {
    /// Writes a register.
    Set {
        /// Its path.
        path: &'a str,
        /// Its new value.
        value: ValueWord<'a>,
    },
    /// Adds an element to a set.
    Add {
        /// The set's path.
        path: &'a str,
        /// The element.
        value: ValueWord<'a>,
    },
    /// Deletes an element of a set.
    Del {
        /// The set's path.
        path: &'a str,
        /// The element.
        value: ValueWord<'a>,
    },
    /// Takes away all entries at a path and below it.
    Clear {
        /// The path, which isn't empty.
        path: &'a str,
    },
    /// Takes away all entries.
    ClearAll,
    /// Raises a counter.
    Inc {
        /// The counter's key.
        key: &'a str,
        /// By how much.
        by: &'a str,
    },
    /// Lowers a counter.
    Dec {
        /// The counter's key.
        key: &'a str,
        /// By how much.
        by: &'a str,
    },
}

/// Reads the words, of which the first is the program's name.
pub fn task_of<'a, S: AsStr>(alloc: Global, words: &'a [S]) -> Result<Option<Task<'a>>, Error>
    ensures task { IfOk result (λ task. option_map task_words task
        ≡ words_in (subcommand_of node_app (map S.text words.entry.now))) }
    ensures kinds { FailsBy (fault_of node_app (map S.text words.entry.now)) result }
    ensures join { Names (map S.text words.entry.now) join_words
        → MatchResult result (λ task. task ≡ Some Task.Join)
        (λ e. kind_of e ≡ ErrorKind.OutOfMemory) }
    ensures sim { Names (map S.text words.entry.now) sim_words
        → MatchResult result (λ task. task ≡ Some Task.Sim)
        (λ e. kind_of e ≡ ErrorKind.OutOfMemory) }
    ensures edit { (file : Text) → Names (map S.text words.entry.now) (edit_lines_words file)
        → MatchResult result (EditsByLines file) (λ e. kind_of e ≡ ErrorKind.OutOfMemory) }
{
    let matches = matches_of(alloc, words)?;
    Ok(named_task(alloc, &matches)?)
}

fn matches_of<'a, S: AsStr>(alloc: Global, words: &'a [S]) -> Result<ArgMatches<'a>, Error>
    ensures rows { IfOk result (λ m.
        subcommand_rows_of m ≡ subcommand_of node_app (map S.text words.entry.now)) }
    ensures kinds { FailsBy (fault_of node_app (map S.text words.entry.now)) result }
{
    let command = node_command(alloc)?;
    command.try_get_matches_from(words)
}
