//! Rows that call certificates, whose rows stand as texts, with a semicolon between two.
//!
//! - `live REPLICA NUMBER`: the dot is live in the delta.
//! - `dead REPLICA FIRST LAST PEER`: these dots are dead in the delta, and have this rank in the digest.
//! - `count KEY REPLICA WHICH SENT PEER`: a number of the delta, and the one in the digest.
use crate::documents::Documents;
use crate::listing::Listing;
use crate::words::Words;
use rds_counts::Which;
use rds_delta::{Certificate, Row};
use rds_dots::{Dot, DotSet, Run};
use rds_names::{Fault, Key};
use rds_rows::told::said_if;
use rds_rows::words::{cut, first};
use std::alloc::Global;

/// Keeps a certificate under a name, and writes its rows.
fn keep<S: DotSet>(
    documents: &mut Documents<S>,
    alloc: Global,
    name: &str,
    certificate: Certificate,
) -> Result<String, Fault> {
    let answer = rows_text(alloc, certificate.rows())?;
    documents.certificates.put(alloc, name, certificate)?;
    Ok(answer)
}

/// `certificate NAME DIGEST DELTA` makes the certificate of a delta.
pub fn certificate<S: DotSet>(
    documents: &mut Documents<S>,
    alloc: Global,
    rest: &str,
) -> Result<String, Fault> {
    let (name, asked) = cut(rest)?;
    let certificate = certificate_of(documents, alloc, asked)?;
    keep(documents, alloc, name, certificate)
}

fn certificate_of<S: DotSet>(
    documents: &Documents<S>,
    alloc: Global,
    asked: &str,
) -> Result<Certificate, Fault> {
    let (digest, delta) = cut(asked)?;
    let digest = documents.digests.get(digest)?;
    rds_delta::certificate(alloc, digest, documents.state(delta)?)
}

/// `given NAME ROWS` makes the certificate of these rows.
pub fn given<S: DotSet>(
    documents: &mut Documents<S>,
    alloc: Global,
    rest: &str,
) -> Result<String, Fault> {
    let (name, rows) = first(rest);
    let certificate = Certificate::new(read_rows(alloc, rows)?);
    keep(documents, alloc, name, certificate)
}

/// `check DIGEST DELTA CERTIFICATE` checks a delta.
pub fn check<S: DotSet>(
    documents: &Documents<S>,
    alloc: Global,
    rest: &str,
) -> Result<String, Fault> {
    let mut words = Words::new(rest);
    let digest = documents.digests.get(words.word()?)?;
    let delta = documents.state(words.word()?)?;
    let certificate = documents.certificates.get(words.word()?)?;
    said_if(alloc, rds_delta::check(digest, delta, certificate))
}

fn read_rows(alloc: Global, text: &str) -> Result<Vec<Row>, Fault> {
    let mut rows = Vec::new(alloc);
    if text.is_empty() {
        return Ok(rows);
    }
    for part in text.split(';') {
        rows.push(read_row(alloc, &mut Words::new(part))?)?;
    }
    Ok(rows)
}

fn read_row(alloc: Global, words: &mut Words<'_>) -> Result<Row, Fault> {
    match words.word()? {
        "live" => Ok(Row::Live(words.dot()?)),
        "dead" => Ok(Row::Dead(words.run()?, words.small()?)),
        "count" => read_count(alloc, words),
        _ => Err(Fault::Usage),
    }
}

fn read_count(alloc: Global, words: &mut Words<'_>) -> Result<Row, Fault> {
    let key = words.key(alloc)?;
    let replica = words.small()?;
    let which = words.which()?;
    let sent = words.number()?;
    let peer = words.number()?;
    Ok(Row::Count {
        key,
        replica,
        which,
        sent,
        peer,
    })
}

fn rows_text(alloc: Global, rows: &[Row]) -> Result<String, Fault> {
    let mut listing = Listing::new(alloc);
    for row in rows {
        listing.push(row_text(alloc, row)?.as_str())?;
    }
    listing.into_text(alloc)
}

fn row_text(alloc: Global, row: &Row) -> Result<String, Fault> {
    match row {
        Row::Live(dot) => live_text(alloc, *dot),
        Row::Dead(run, peer) => dead_text(alloc, *run, *peer),
        Row::Count {
            key,
            replica,
            which,
            sent,
            peer,
        } => count_text(alloc, key, *replica, *which, *sent, *peer),
    }
}

fn live_text(alloc: Global, dot: Dot) -> Result<String, Fault> {
    let Dot { replica, seq } = dot;
    Ok(format!(in alloc; "live {replica} {seq}")?)
}

fn dead_text(alloc: Global, run: Run, peer: u8) -> Result<String, Fault> {
    let Run { replica, lo, hi } = run;
    Ok(format!(in alloc; "dead {replica} {lo} {hi} {peer}")?)
}

fn count_text(
    alloc: Global,
    key: &Key,
    replica: u8,
    which: Which,
    sent: u64,
    peer: u64,
) -> Result<String, Fault> {
    let key = key.as_str();
    Ok(format!(in alloc; "count {key} {replica} {which:?} {sent} {peer}")?)
}
