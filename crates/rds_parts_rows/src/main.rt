//! Rows on the parts of a document: names, keys, paths, values, entries, rosters, faults, sets of dots, lives and
//! counters. Each row's first word says which part it is on; the sets, the lives and the counters stay from row to row.
//!
//! Each row is answered twice: where sets are kept as runs, and where they are kept as lists.
#![tactic(auto)]

mod counts;
mod dots;
mod entries;
mod faults;
mod keys;
mod life;
mod paths;
mod rosters;
mod scalars;
mod words;

use counts::Counters;
use dots::Sets;
use life::Histories;
use rds_dots::{DotSet, ListSet};
use rds_gaps::GapSet;
use rds_names::Fault;
use rds_rows::words::first;
use rds_rows::{Both, Table, write_answers};
use std::alloc::Global;
use std::io;

/// What stays from row to row.
#[derive(Drop)]
struct Parts<S: DotSet> {
    sets: Sets<S>,
    histories: Histories<S>,
    counters: Counters,
}

impl<S: DotSet> Table for Parts<S> {
    fn answer(&mut self, alloc: Global, name: &str, rest: &str) -> Result<String, Fault> {
        let (asked, words) = first(rest);
        match name {
            "fault" => faults::answer(asked, words),
            "words" => faults::shown(alloc, asked, words),
            "name" => keys::answer_name(alloc, rest),
            "key" => keys::answer(alloc, asked, words),
            "path" => paths::answer(alloc, asked, words),
            "scalar" => scalars::answer(alloc, asked, words),
            "entry" => entries::answer(alloc, asked, words),
            "roster" => rosters::answer(alloc, asked, words),
            "dots" => self.sets.answer(alloc, asked, words),
            "life" => self.histories.answer(alloc, asked, words),
            "counts" => self.counters.answer(alloc, asked, words),
            _ => Err(Fault::Usage),
        }
    }
}

impl<S: DotSet> Parts<S> {
    fn empty(alloc: Global) -> Parts<S> {
        Parts {
            sets: Sets::empty(alloc),
            histories: Histories::empty(alloc),
            counters: Counters::empty(alloc),
        }
    }
}

fn main(rt: HostRuntime) -> io::Result<()> {
    let gaps: Parts<GapSet> = Parts::empty(rt.alloc());
    let lists: Parts<ListSet> = Parts::empty(rt.alloc());
    let mut both = Both {
        first: gaps,
        second: lists,
    };
    write_answers(&rt, &mut both)
}
