//! What came of sessions, as text.
use crate::told::{bytes_told, joined};
use rds_codec::encode_state;
use rds_dots::DotSet;
use rds_names::{Fault, Roster};
use rds_rows::told::{named, said};
use rds_session::{Ended, Exchanged};
use rds_state::State;
use std::alloc::Global;
use std::fmt::Write;

/// What was sent, how the session stands, what it received, and the names of the peer's roster where that is longer.
pub fn outcome_told<S: DotSet>(
    alloc: Global,
    sent: &[u8],
    ended: Ended,
    received: Option<&State<S>>,
    roster: Option<&Roster>,
) -> Result<String, Fault> {
    let sent = bytes_told(alloc, sent)?;
    let ended = ended_told(alloc, ended)?;
    let received = received_told(alloc, received)?;
    let roster = roster_told(alloc, roster)?;
    let parts = [
        "sent ",
        sent.as_str(),
        ", ",
        ended.as_str(),
        ", received ",
        received.as_str(),
        roster.as_str(),
    ];
    Ok(joined(alloc, &parts)?)
}

/// The same of a session that came to this.
pub fn exchange_told<S: DotSet>(
    alloc: Global,
    sent: &[u8],
    exchanged: &Exchanged<S>,
) -> Result<String, Fault> {
    outcome_told(
        alloc,
        sent,
        exchanged.ended,
        exchanged.received.as_ref(),
        exchanged.roster.as_ref(),
    )
}

fn received_told<S: DotSet>(alloc: Global, received: Option<&State<S>>) -> Result<String, Fault> {
    match received {
        Some(state) => bytes_told(alloc, &encode_state(alloc, state)?),
        None => said(alloc, "nothing"),
    }
}

fn roster_told(alloc: Global, roster: Option<&Roster>) -> Result<String, Fault> {
    let mut told = String::new(alloc);
    let Some(roster) = roster else {
        return Ok(told);
    };
    told.push_str(", roster")?;
    for name in roster.names() {
        told.push_str(" ")?;
        told.push_str(name.as_str())?;
    }
    Ok(told)
}

fn ended_told(alloc: Global, ended: Ended) -> Result<String, Fault> {
    match ended {
        Ended::Going => said(alloc, "going"),
        Ended::Done => said(alloc, "done"),
        Ended::Failed(fault) => failed_told(alloc, fault),
    }
}

fn failed_told(alloc: Global, fault: Fault) -> Result<String, Fault> {
    let fault = named(alloc, fault)?;
    Ok(format!(in alloc; "failed {fault}")?)
}

/// The lengths of the chunks of a stream, and what stands behind the last of them.
pub fn chunks_told(alloc: Global, stream: &[u8]) -> Result<String, Fault> {
    let mut lengths = String::new(alloc);
    let mut rest = stream;
    for _ in 0..stream.len() {
        let [high, low, more @ ..] = rest else {
            break;
        };
        let length = u16::from_be_bytes([*high, *low]);
        write!(lengths, "{length} ")?;
        let (_, later) = more.split_at(more.len().min(usize::from(length)));
        rest = later;
    }
    lengths.push_str(bytes_told(alloc, rest)?.as_str())?;
    Ok(lengths)
}
