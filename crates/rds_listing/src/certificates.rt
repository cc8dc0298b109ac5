//! The rows of a certificate, as lines of JSON.
ghost use Rattle.std.specs.Prelude.{◌≡◌, ◌++◌, ◌∷◌, [], Some, IfErr, IfOk, OnOk, string_bytes};
ghost use Rattle.std.specs.FinMap as fin;
ghost use Rattle.rds_life.specs.Life.{entry_of};
ghost use Rattle.rds_listing.specs.Evidence.{counter_text, dead_line, entry_evidence, evidence_text, kind_text, live_line, much_text, name_text, number_line, rank_text, replica_text, row_line, named_run_text, which_text};
ghost use Rattle.rds_names.specs.declared.fault.Fault.TheVariants.{Memory};

use crate::pieces::{path_text, push_line};
use rds_counts::Which;
use rds_delta::{Certificate, Row};
use rds_dots::{Dot, DotSet, Run};
use rds_json::{show_scalar, show_text};
use rds_names::{Entry, Fault, Key, Kind, Roster};
use rds_state::State;
use std::alloc::Global;

/// The rows of a delta's certificate, each as a line of JSON: a live dot with the entry that it has in the delta, a run
/// of dead dots with what they were, a counter's number with what it was. A replica's number that the roster lacks is
/// told as the empty text, and a dot that isn't live in the delta has null in place of each part of its entry.
pub fn evidence<S: DotSet>(
    alloc: Global,
    roster: &Roster,
    delta: &State<S>,
    certificate: &Certificate,
) -> Result<String, Fault>
    ensures text { IfOk result (λ text. string_bytes text ≡ evidence_text roster.now delta.now certificate.now) }
    ensures memory { IfErr result (λ fault. fault ≡ Memory) }
{
    rows_text(alloc, roster, delta, certificate.rows())
}

fn rows_text<S: DotSet>(
    alloc: Global,
    roster: &Roster,
    delta: &State<S>,
    rows: &[Row],
) -> Result<String, Fault>
    ensures text { IfOk result (λ text. string_bytes text ≡ evidence_text roster.now delta.now rows.now) }
    ensures memory { IfErr result (λ fault. fault ≡ Memory) }
{
    let mut text = String::new(alloc);
    for row in rows {
        push_row(alloc, &mut text, roster, delta, row)?;
    }
    Ok(text)
}

// Adds the line of a row.
fn push_row<S: DotSet>(
    alloc: Global,
    text: &mut String,
    roster: &Roster,
    delta: &State<S>,
    row: &Row,
) -> Result<(), Fault>
    ensures text { OnOk result
        (string_bytes text.new ≡ string_bytes text.old ++ (row_line roster.now delta.now row.now ++ 10 ∷ [])) }
    ensures memory { IfErr result (λ fault. fault ≡ Memory) }
{
    let line = row_line(alloc, roster, delta, row)?;
    push_line(text, line.as_str())
}

fn row_line<S: DotSet>(
    alloc: Global,
    roster: &Roster,
    delta: &State<S>,
    row: &Row,
) -> Result<String, Fault>
    ensures text { IfOk result (λ text. string_bytes text ≡ row_line roster.now delta.now row.now) }
    ensures memory { IfErr result (λ fault. fault ≡ Memory) }
{
    match row {
        Row::Live(dot) => live_line(alloc, roster, delta, *dot),
        Row::Dead(run, rank) => dead_line(alloc, roster, *run, *rank),
        Row::Count {
            key,
            replica,
            which,
            sent,
            peer,
        } => number_line(alloc, roster, key, *replica, *which, *sent, *peer),
    }
}

// The line of a live dot.
fn live_line<S: DotSet>(
    alloc: Global,
    roster: &Roster,
    delta: &State<S>,
    dot: Dot,
) -> Result<String, Fault>
    ensures text { IfOk result (λ text. string_bytes text ≡ live_line roster.now delta.now dot) }
    ensures memory { IfErr result (λ fault. fault ≡ Memory) }
{
    let Dot { replica, seq } = dot;
    let name = name_text(alloc, roster, replica)?;
    let entry = found_text(alloc, delta, dot)?;
    Ok(format!(in alloc; "{{\"live\":[{name},{seq}],{entry}}}")?)
}

// The members of what a dot has in the delta.
fn found_text<S: DotSet>(alloc: Global, delta: &State<S>, dot: Dot) -> Result<String, Fault>
    ensures text { IfOk result
        (λ text. string_bytes text ≡ entry_evidence (entry_of (fin.get delta.now.lives dot))) }
    ensures memory { IfErr result (λ fault. fault ≡ Memory) }
{
    match delta.lives().entry(dot) {
        Some(entry) => entry_text(alloc, entry),
        None => Ok(String::from_str(alloc, "\"path\":null,\"kind\":null,\"value\":null")?),
    }
}

// The members of an entry.
fn entry_text(alloc: Global, entry: &Entry) -> Result<String, Fault>
    ensures text { IfOk result (λ text. string_bytes text ≡ entry_evidence (Some entry.now)) }
    ensures memory { IfErr result (λ fault. fault ≡ Memory) }
{
    let path = path_text(alloc, entry.path().keys())?;
    let path = show_text(alloc, path.as_str())?;
    let kind = kind_text(entry.kind());
    let value = show_scalar(alloc, entry.value())?;
    Ok(format!(in alloc; "\"path\":{path},\"kind\":{kind},\"value\":{value}")?)
}

fn kind_text(kind: Kind) -> &'static str
    ensures { result.now ≡ kind_text kind }
{
    match kind {
        Kind::Reg => "\"reg\"",
        Kind::Elem => "\"set\"",
    }
}

// The line of a run of dead dots.
fn dead_line(alloc: Global, roster: &Roster, run: Run, rank: u8) -> Result<String, Fault>
    ensures text { IfOk result (λ text. string_bytes text ≡ dead_line roster.now run rank) }
    ensures memory { IfErr result (λ fault. fault ≡ Memory) }
{
    let dots = run_text(alloc, roster, run)?;
    let was = rank_text(rank);
    Ok(format!(in alloc; "{{\"dead\":[{dots}],\"was\":{was}}}")?)
}

// Whose dots a run has, and which.
fn run_text(alloc: Global, roster: &Roster, run: Run) -> Result<String, Fault>
    ensures text { IfOk result (λ text. string_bytes text ≡ named_run_text roster.now run) }
    ensures memory { IfErr result (λ fault. fault ≡ Memory) }
{
    let Run { replica, lo, hi } = run;
    let name = name_text(alloc, roster, replica)?;
    Ok(format!(in alloc; "{name},{lo},{hi}")?)
}

fn rank_text(rank: u8) -> &'static str
    ensures { result.now ≡ rank_text rank }
{
    if rank == 0 {
        return "\"unseen\"";
    }
    if rank == 1 {
        return "\"live\"";
    }
    "\"dead\""
}

// The line of a counter's number.
fn number_line(
    alloc: Global,
    roster: &Roster,
    key: &Key,
    replica: u8,
    which: Which,
    sent: u64,
    peer: u64,
) -> Result<String, Fault>
    ensures text { IfOk result
        (λ text. string_bytes text ≡ number_line roster.now key.now replica which sent peer) }
    ensures memory { IfErr result (λ fault. fault ≡ Memory) }
{
    let counter = counter_text(alloc, key)?;
    let whose = replica_text(alloc, roster, replica)?;
    let much = much_text(alloc, which, sent, peer)?;
    Ok(format!(in alloc; "{counter}{whose}{much}")?)
}

// Which counter it is.
fn counter_text(alloc: Global, key: &Key) -> Result<String, Fault>
    ensures text { IfOk result (λ text. string_bytes text ≡ counter_text key.now) }
    ensures memory { IfErr result (λ fault. fault ≡ Memory) }
{
    let key = show_text(alloc, key.as_str())?;
    Ok(format!(in alloc; "{{\"counter\":{key},")?)
}

// Whose number it is.
fn replica_text(alloc: Global, roster: &Roster, replica: u8) -> Result<String, Fault>
    ensures text { IfOk result (λ text. string_bytes text ≡ replica_text roster.now replica) }
    ensures memory { IfErr result (λ fault. fault ≡ Memory) }
{
    let name = name_text(alloc, roster, replica)?;
    Ok(format!(in alloc; "\"replica\":{name},")?)
}

// The number, and what it was.
fn much_text(alloc: Global, which: Which, sent: u64, peer: u64) -> Result<String, Fault>
    ensures text { IfOk result (λ text. string_bytes text ≡ much_text which sent peer) }
    ensures memory { IfErr result (λ fault. fault ≡ Memory) }
{
    let which = which_text(which);
    Ok(format!(in alloc; "{which}:{sent},\"was\":{peer}}}")?)
}

fn which_text(which: Which) -> &'static str
    ensures { result.now ≡ which_text which }
{
    match which {
        Which::P => "\"plus\"",
        Which::N => "\"minus\"",
    }
}

// The name of a replica's number.
fn name_text(alloc: Global, roster: &Roster, number: u8) -> Result<String, Fault>
    ensures text { IfOk result (λ text. string_bytes text ≡ name_text roster.now number) }
    ensures memory { IfErr result (λ fault. fault ≡ Memory) }
{
    match roster.name_of(number) {
        Some(name) => show_text(alloc, name.as_str()),
        None => show_text(alloc, ""),
    }
}
