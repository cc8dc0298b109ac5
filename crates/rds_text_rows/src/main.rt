//! Answers rows on texts, on records and on what is kept outside memory. `rt ci` compares what it writes with what the
//! rows are to be answered.
//!
//! Bytes stand in rows as hex digits, apart from each other or not. The group is that of a, b and c, whose replicas have
//! the numbers 0 to 2, where no snapshot says another one.
#![tactic(auto)]

mod devices;
mod disk;
mod exchanges;
mod forms;
mod held;
mod journal;
mod pieces;
mod places;
mod reading;
mod stored;
mod texts;

use held::Held;
use rds_dots::ListSet;
use rds_gaps::GapSet;
use rds_rows::{Both, write_answers};
use std::io;

fn main(rt: HostRuntime) -> io::Result<()> {
    let gaps: Held<GapSet> = Held::new(rt.alloc());
    let lists: Held<ListSet> = Held::new(rt.alloc());
    let mut both = Both {
        first: gaps,
        second: lists,
    };
    write_answers(&rt, &mut both)
}
