//! Encoding and decoding a state.
ghost use Rattle.std.specs.Prelude.{◌≤◌};

use crate::report;
use crate::samples::{Living, state};
use rds_codec::{decode_state, encode_state};
use rds_gaps::GapSet;
use rds_names::Fault;
use rds_state::State;
use std::io;
use std::time::Instant;

/// Prints the dots, the bytes of the text, and the microseconds that encoding and decoding took.
pub fn time(rt: &HostRuntime, dots: u64) -> io::Result<()>
    requires least { 1 ≤ dots }
    requires most { dots ≤ 1000000 }
{
    let alloc = rt.alloc();
    match state(alloc, dots, Living::TwoOfThree) {
        Ok(sample) => time_state(rt, dots, &sample),
        Err(fault) => report(rt, fault),
    }
}

fn time_state(rt: &HostRuntime, dots: u64, state: &State<GapSet>) -> io::Result<()> {
    let alloc = rt.alloc();
    let start = Instant::now(rt)?;
    match encode_state(alloc, state) {
        Ok(text) => {
            let encoded = start.elapsed(rt)?.as_micros();
            time_text(rt, dots, text.as_slice(), encoded)
        }
        Err(fault) => report(rt, fault),
    }
}

fn time_text(rt: &HostRuntime, dots: u64, text: &[u8], encoded: u128) -> io::Result<()> {
    let alloc = rt.alloc();
    let bytes = text.len();
    let start = Instant::now(rt)?;
    let read: Result<State<GapSet>, Fault> = decode_state(alloc, 1, text);
    match read {
        Ok(_) => {
            let decoded = start.elapsed(rt)?.as_micros();
            println!(rt; "{dots} {bytes} {encoded} {decoded}")
        }
        Err(fault) => report(rt, fault),
    }
}
