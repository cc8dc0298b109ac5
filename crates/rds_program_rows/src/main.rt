//! Rows about sessions, about worlds of replicas, and about the program rds_node: it is run on the words, the input and
//! the files that rows give it, and has sessions with peers whose bytes stand in rows.
#![tactic(auto)]

mod addresses;
mod calls;
mod devices;
mod disk;
mod files;
mod input;
mod lengths;
mod replicas;
mod runs;
mod sessions;
mod simulated;
mod site;
mod sizes;
mod told;
mod transcript;
mod wire;
mod worlds;

use rds_rows::write_answers;
use std::io;
use transcript::Transcript;

fn main(rt: HostRuntime) -> io::Result<()> {
    write_answers(&rt, &mut Transcript::new(&rt))
}
