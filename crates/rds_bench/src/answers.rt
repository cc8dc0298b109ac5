//! An answer that is read as a session reads it.

use crate::report;
use rds_codec::UnfinishedAnswer;
use rds_gaps::GapSet;
use rds_keep::{Feed, Reading, read_fed};
use rds_names::Fault;
use std::io;

/// How many replicas the roster of the answer's maker has.
const REPLICAS: u16 = 2;

/// Reads an answer from the standard input, as its bytes come, and prints how many components it brings and how many rows
/// its certificate has.
pub fn read(rt: &HostRuntime) -> io::Result<()> {
    let feed: Feed<UnfinishedAnswer<GapSet>> = Feed::answer(rt.alloc(), REPLICAS);
    match read_fed(feed, &mut Reading::new(rt.reader())) {
        Ok(answer) => {
            let components = answer.state.components();
            let rows = answer.certificate.rows().len();
            println!(rt; "{components} {rows}")
        }
        Err(fault) => report(rt, fault),
    }
}
