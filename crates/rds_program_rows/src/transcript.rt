//! Which row does what.
use crate::addresses::{run_away, run_busy};
use crate::disk::answer_disk;
use crate::files::{
    copy, hold, leads, link, make_folder, mode, name, put, remove_file, remove_folder, set_mode,
};
use crate::input::Input;
use crate::lengths::answer_lengths;
use crate::replicas::{components_told, keep, read, replace, settle_nothing, settle_received};
use crate::runs::{
    run_barred, run_into, run_long, run_reading, run_renamed, run_spaced, run_writing, usual_turns,
};
use crate::sessions::Sessions;
use crate::simulated::Simulated;
use crate::sizes::{add_digits_in, fill, holds_as, run_as};
use crate::wire::{
    answer_by_lines, answer_failing, answer_held, answer_notes, answer_older, answer_over,
    answer_piped, answer_serving, answer_slow, answer_talk, answer_wire,
};
use crate::worlds::Worlds;
use rds_dots::ListSet;
use rds_files::ReplicaFile;
use rds_gaps::GapSet;
use rds_json::lines_mean_their_spelling;
use rds_lines::{join_is_known, sim_shows_updates};
use rds_names::Fault;
use rds_rows::told::said;
use rds_rows::words::first;
use rds_rows::{Both, Table};
use rds_words::{word_laws, words_mean_their_spelling};
use std::alloc::Global;

/// What rows have made so far.
#[derive(Drop)]
pub struct Transcript<'a> {
    rt: &'a HostRuntime,
    sessions: Both<Sessions<GapSet>, Sessions<ListSet>>,
    worlds: Both<Worlds<GapSet>, Worlds<ListSet>>,
    input: Input,
    simulated: Simulated,
    file: Option<ReplicaFile<'static, GapSet>>,
}

impl<'a> Transcript<'a> {
    /// No row has made anything yet.
    pub fn new(rt: &'a HostRuntime) -> Transcript<'a> {
        Transcript {
            rt,
            sessions: both_sessions(rt.alloc()),
            worlds: both_worlds(rt.alloc()),
            input: Input::new(rt.alloc()),
            simulated: Simulated::new(rt.alloc()),
            file: None,
        }
    }

    // Rows that make the input.
    fn answer_input(&mut self, alloc: Global, name: &str, rest: &str) -> Result<String, Fault> {
        match name {
            "empty" => self.input.empty(),
            "<" => self.input.add_line(rest)?,
            "<-" => self.input.add(rest.as_bytes())?,
            "<x" => return self.input.add_digits(alloc, rest),
            "<f" => return self.input.add_file(self.rt, rest),
            "<n" => return self.input.add_repeated(alloc, rest),
            "<," => return self.input.add_listed(alloc, rest),
            "<@" => return self.input.add_bytes_numbered(alloc, rest),
            "digits" => return add_digits_in(self.rt, rest, &mut self.input),
            _ => return self.input.add_numbered(alloc, rest),
        }
        self.input.told(alloc)
    }

    // Rows that run the program.
    fn answer_run(&self, name: &str, rest: &str) -> Result<String, Fault> {
        let input = self.input.as_slice();
        match name {
            "$" => run_spaced(self.rt, rest, input),
            "$|" => run_barred(self.rt, rest, input),
            "$$" => run_renamed(self.rt, rest, input),
            "into" => run_into(self.rt, rest, input),
            "last" => run_long(self.rt, rest, input),
            "reads" => run_reading(self.rt, rest, input),
            "writes" => run_writing(self.rt, rest, input),
            "busy" => run_busy(self.rt, rest),
            "writes_as" => run_as(self.rt, rest, input),
            _ => run_away(self.rt, rest),
        }
    }

    // Rows about files, and none else.
    fn answer_file(&self, action: &str, rest: &str) -> Result<String, Fault> {
        match action {
            "put" => put(self.rt, rest),
            "hold" => hold(self.rt, rest),
            "copy" => copy(self.rt, rest),
            "folder" => make_folder(self.rt, rest),
            "remove" => remove_file(self.rt, rest),
            "replace" => replace(self.rt, rest),
            "mode" => mode(self.rt, rest),
            "set_mode" => set_mode(self.rt, rest),
            "link" => link(self.rt, rest),
            "name" => name(self.rt, rest),
            "leads" => leads(self.rt, rest),
            "fill" => fill(self.rt, rest, self.input.as_slice()),
            "holds_as" => holds_as(self.rt, rest),
            "remove_folder" => remove_folder(self.rt, rest),
            _ => Err(Fault::Usage),
        }
    }

    // Rows about the file that the last row `read` has read.
    fn answer_read(&self, name: &str, rest: &str) -> Result<String, Fault> {
        let Some(file) = &self.file else {
            return Err(Fault::Usage);
        };
        match name {
            "keep" => keep(self.rt, rest, file.kept()),
            "settle" => settle_received(self.rt, rest, file),
            _ => settle_nothing(self.rt, file),
        }
    }

    // `read`: reads the replica in the file, and answers how many components it has.
    fn read(&mut self, alloc: Global) -> Result<String, Fault> {
        let file = read(self.rt)?;
        let answer = components_told(alloc, file.kept());
        self.file = Some(file);
        answer
    }
}

impl Table for Transcript<'_> {
    fn answer(&mut self, alloc: Global, name: &str, rest: &str) -> Result<String, Fault> {
        match name {
            "session" => answer_words(&mut self.sessions, alloc, rest),
            "world" => answer_words(&mut self.worlds, alloc, rest),
            "empty" | "<" | "<-" | "<x" | "<f" | "<n" | "<#" | "<," | "<@" | "digits" => {
                self.answer_input(alloc, name, rest)
            }
            "$"
            | "$|"
            | "$$"
            | "into"
            | "last"
            | "reads"
            | "writes"
            | "busy"
            | "away"
            | "writes_as" => self.answer_run(name, rest),
            "group" => self.simulated.begin(self.rt, rest),
            "sim" => self.simulated.go_on(self.rt, rest),
            "turns" => usual_turns(alloc),
            "laws" => laws(alloc),
            "lengths" => answer_lengths(alloc, rest, self.input.as_slice()),
            "disk" => answer_disk(alloc, rest, self.input.as_slice()),
            "wire" => answer_wire(self.rt, rest),
            "over" => answer_over(self.rt, rest, self.input.as_slice()),
            "by_lines" => answer_by_lines(self.rt, rest, self.input.as_slice()),
            "failing" => answer_failing(self.rt, rest),
            "older" => answer_older(self.rt, rest, self.input.as_slice()),
            "held" => answer_held(self.rt, rest),
            "notes" => answer_notes(self.rt, rest),
            "serving" => answer_serving(self.rt, rest, self.input.as_slice()),
            "talk" => answer_talk(self.rt, rest, self.input.as_slice()),
            "slow" => answer_slow(self.rt, rest, self.input.as_slice()),
            "piped" => answer_piped(self.rt, rest, self.input.as_slice()),
            "read" => self.read(alloc),
            "keep" | "settle" | "settle_nothing" => self.answer_read(name, rest),
            _ => self.answer_file(name, rest),
        }
    }
}

// `laws`: the functions whose contracts are the laws of joins, of lines and of words are called.
fn laws(alloc: Global) -> Result<String, Fault> {
    join_is_known();
    lines_mean_their_spelling();
    sim_shows_updates();
    word_laws();
    words_mean_their_spelling();
    said(alloc, "called")
}

// Sessions over both sets of dots.
fn both_sessions(alloc: Global) -> Both<Sessions<GapSet>, Sessions<ListSet>> {
    Both {
        first: Sessions::new(alloc),
        second: Sessions::new(alloc),
    }
}

// Worlds over both sets of dots.
fn both_worlds(alloc: Global) -> Both<Worlds<GapSet>, Worlds<ListSet>> {
    Both {
        first: Worlds::new(alloc),
        second: Worlds::new(alloc),
    }
}

// What a table answers to a row behind whose name there is the word that says what it is.
fn answer_words<T: Table>(table: &mut T, alloc: Global, row: &str) -> Result<String, Fault> {
    let (word, rest) = first(row);
    table.answer(alloc, word, rest)
}
