//! Rows that call replicas, states, digests, deltas with their certificates, and views.
//!
//! Each row is answered twice: where sets are kept as runs, and where they are kept as lists.
#![tactic(auto)]

mod certificates;
mod commands;
mod deltas;
mod digests;
mod documents;
mod drafts;
mod indexes;
mod laws;
mod listing;
mod replicas;
mod scalars;
mod states;
mod table;
mod views;
mod words;

use documents::Documents;
use rds_dots::ListSet;
use rds_gaps::GapSet;
use rds_rows::{Both, write_answers};
use std::io;

fn main(rt: HostRuntime) -> io::Result<()> {
    let gaps: Documents<GapSet> = Documents::new(rt.alloc());
    let lists: Documents<ListSet> = Documents::new(rt.alloc());
    let mut both = Both {
        first: gaps,
        second: lists,
    };
    write_answers(&rt, &mut both)
}
