//! Encoding and decoding a state in both formats.
ghost use Rattle.std.specs.Prelude.{◌≤◌};

use crate::keyed::{Keys, state};
use crate::report;
use rds_codec::{Format, decode_state_in, encode_state_in};
use rds_gaps::GapSet;
use rds_names::Fault;
use rds_state::State;
use std::io;
use std::time::Instant;

/// How often each text is written and read.
const ROUNDS: usize = 5;

/// The bytes of a text, and the microseconds that encoding and decoding took.
#[derive(Clone, Copy)]
struct Figures {
    bytes: usize,
    encoded: u128,
    decoded: u128,
}

impl Figures {
    /// These bytes, and the least of each time.
    fn least(self, other: Figures) -> Figures {
        Figures {
            bytes: self.bytes,
            encoded: self.encoded.min(other.encoded),
            decoded: self.decoded.min(other.decoded),
        }
    }
}

/// Prints the dots; and of each format the bytes of the text, and the fewest microseconds that encoding and decoding
/// took.
pub fn time(rt: &HostRuntime, dots: u64, keys: Keys) -> io::Result<()>
    requires least { 1 ≤ dots }
    requires most { dots ≤ 1000000 }
{
    match state(rt.alloc(), dots, keys) {
        Ok(sample) => time_state(rt, dots, &sample),
        Err(fault) => report(rt, fault),
    }
}

fn time_state(rt: &HostRuntime, dots: u64, state: &State<GapSet>) -> io::Result<()> {
    let (mut one, mut two) = match time_round(rt, state)? {
        Ok(figures) => figures,
        Err(fault) => return report(rt, fault),
    };
    for _ in 1..ROUNDS {
        match time_round(rt, state)? {
            Ok((again, also)) => {
                one = one.least(again);
                two = two.least(also);
            }
            Err(fault) => return report(rt, fault),
        }
    }
    print!(rt; "{dots} ")?;
    print_figures(rt, one)?;
    print!(rt; " ")?;
    print_figures(rt, two)?;
    println!(rt; "")
}

fn print_figures(rt: &HostRuntime, figures: Figures) -> io::Result<()> {
    let Figures {
        bytes,
        encoded,
        decoded,
    } = figures;
    print!(rt; "{bytes} {encoded} {decoded}")
}

/// The formats one after the other, so that both find the memory that earlier rounds left.
fn time_round(
    rt: &HostRuntime,
    state: &State<GapSet>,
) -> io::Result<Result<(Figures, Figures), Fault>> {
    let one = match time_format(rt, Format::One, state)? {
        Ok(figures) => figures,
        Err(fault) => return Ok(Err(fault)),
    };
    match time_format(rt, Format::Two, state)? {
        Ok(two) => Ok(Ok((one, two))),
        Err(fault) => Ok(Err(fault)),
    }
}

fn time_format(
    rt: &HostRuntime,
    format: Format,
    state: &State<GapSet>,
) -> io::Result<Result<Figures, Fault>> {
    let start = Instant::now(rt)?;
    match encode_state_in(rt.alloc(), format, state) {
        Ok(text) => {
            let encoded = start.elapsed(rt)?.as_micros();
            time_text(rt, format, text.as_slice(), encoded)
        }
        Err(fault) => Ok(Err(fault)),
    }
}

fn time_text(
    rt: &HostRuntime,
    format: Format,
    text: &[u8],
    encoded: u128,
) -> io::Result<Result<Figures, Fault>> {
    let bytes = text.len();
    let start = Instant::now(rt)?;
    let read: Result<State<GapSet>, Fault> = decode_state_in(rt.alloc(), format, 1, text);
    match read {
        Ok(_) => {
            let decoded = start.elapsed(rt)?.as_micros();
            Ok(Ok(Figures {
                bytes,
                encoded,
                decoded,
            }))
        }
        Err(fault) => Ok(Err(fault)),
    }
}
