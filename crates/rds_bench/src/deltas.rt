//! What one replica lacks of another: the digest, the delta, the certificate, the check, the take.
ghost use Rattle.std.specs.Prelude.{◌<◌, ◌≤◌};

use crate::report;
use crate::samples::{self, Living, state};
use rds_codec::{encode_certificate, encode_digest, encode_state};
use rds_delta::{Certificate, Digest, certificate, check, delta};
use rds_gaps::GapSet;
use rds_names::Fault;
use rds_state::{Replica, State};
use std::alloc::Global;
use std::io;
use std::time::Instant;

/// How many dots one that is behind lacks.
const LACKING: u64 = 10;

/// The replica that asks.
#[derive(Clone, Copy)]
pub enum Asker {
    /// It lacks the last ten dots.
    Behind,
    /// It has no dots.
    Fresh,
}

/// What goes from one replica to another.
#[derive(Drop)]
struct Sent {
    digest: Digest<GapSet>,
    delta: State<GapSet>,
    certificate: Certificate,
}

/// Prints the dots, the bytes of the digest, the delta and the certificate, and the microseconds of the digest, the
/// delta, the certificate, the check and the take.
pub fn time(rt: &HostRuntime, dots: u64, asker: Asker) -> io::Result<()>
    requires least { 1 ≤ dots }
    requires most { dots ≤ 1000000 }
{
    if dots <= LACKING {
        return println!(rt; "a size is above {LACKING}");
    }
    let alloc = rt.alloc();
    match (state(alloc, dots, Living::All), replica(alloc, dots, asker)) {
        (Ok(whole), Ok(mut asker)) => match time_sending(rt, dots, &whole, asker.state()) {
            Ok(Ok(sent)) => time_taking(rt, &mut asker, &sent),
            Ok(Err(fault)) => report(rt, fault),
            Err(error) => Err(error),
        },
        (Err(fault), _) => report(rt, fault),
        (_, Err(fault)) => report(rt, fault),
    }
}

/// The replica that asks one with so many live dots.
fn replica(alloc: Global, dots: u64, asker: Asker) -> Result<Replica<GapSet>, Fault>
    requires least { 10 < dots }
    requires most { dots ≤ 1000000 }
{
    samples::replica(alloc, asking(alloc, dots, asker)?)
}

/// What the replica that asks has of so many live dots.
fn asking(alloc: Global, dots: u64, asker: Asker) -> Result<State<GapSet>, Fault>
    requires least { 10 < dots }
    requires most { dots ≤ 1000000 }
{
    match asker {
        Asker::Behind => state(alloc, dots - LACKING, Living::All),
        Asker::Fresh => Ok(State::empty(alloc)),
    }
}

/// Prints the first figures, and hands out what is sent.
fn time_sending(
    rt: &HostRuntime,
    dots: u64,
    whole: &State<GapSet>,
    asked: &State<GapSet>,
) -> io::Result<Result<Sent, Fault>> {
    let alloc = rt.alloc();
    let start = Instant::now(rt)?;
    let digest = match Digest::of(alloc, asked) {
        Ok(digest) => digest,
        Err(fault) => return Ok(Err(fault)),
    };
    let digested = start.elapsed(rt)?.as_micros();
    let delta = match delta(alloc, whole, &digest) {
        Ok(delta) => delta,
        Err(fault) => return Ok(Err(fault)),
    };
    let answered = start.elapsed(rt)?.as_micros();
    let certificate = match certificate(alloc, &digest, &delta) {
        Ok(certificate) => certificate,
        Err(fault) => return Ok(Err(fault)),
    };
    let certified = start.elapsed(rt)?.as_micros();
    let sent = Sent {
        digest,
        delta,
        certificate,
    };
    match sizes(alloc, &sent) {
        Ok((digest_bytes, delta_bytes, certificate_bytes)) => {
            print!(rt;
                "{dots} {digest_bytes} {delta_bytes} {certificate_bytes} {digested} {answered} {certified}"
            )?;
            Ok(Ok(sent))
        }
        Err(fault) => Ok(Err(fault)),
    }
}

/// The bytes of the texts.
fn sizes(alloc: Global, sent: &Sent) -> Result<(usize, usize, usize), Fault> {
    let digest = encode_digest(alloc, &sent.digest)?;
    let delta = encode_state(alloc, &sent.delta)?;
    let certificate = encode_certificate(alloc, &sent.certificate)?;
    Ok((digest.len(), delta.len(), certificate.len()))
}

/// Prints the last figures.
fn time_taking(rt: &HostRuntime, asker: &mut Replica<GapSet>, sent: &Sent) -> io::Result<()> {
    let start = Instant::now(rt)?;
    let holds = check(&sent.digest, &sent.delta, &sent.certificate);
    let checked = start.elapsed(rt)?.as_micros();
    if !holds || !asker.fits(&sent.delta) {
        return report(rt, Fault::BadCertificate);
    }
    match asker.take(&sent.delta) {
        Ok(()) => {
            let taken = start.elapsed(rt)?.as_micros();
            println!(rt; " {checked} {taken}")
        }
        Err(fault) => report(rt, fault),
    }
}
