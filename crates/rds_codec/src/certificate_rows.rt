//! The rows of a certificate, each after a tag.
ghost use Rattle.std.specs.Prelude.{◌≡◌, ◌≤◌, length};
ghost use Rattle.std.specs.Int.{w64};
ghost use Rattle.rds_codec.specs.CertificateTexts.{
  IsHeldRow,
  run_text,
  which_byte,
  claim_text,
  row_text,
  claimed_dot_at,
  ends_at,
  run_at,
  dead_at,
  which_at,
  amount_at,
  amounts_at,
  counter_at,
  number_claim_at,
  tagged_row_at,
  certificate_row_at,
};
ghost use Rattle.rds_bytes.specs.Reading.{Reads, ReadsExactly, number_at, when_at, is_between};
ghost use Rattle.rds_bytes.specs.Spelling.{byte_text, dot_text};
ghost use Rattle.rds_bytes.specs.Writing.{Adds};

use rds_bytes::{
    key_length, put_byte, put_place, put_u64, read_byte, read_key, read_length, read_replica,
    read_u64,
};
use rds_counts::{MAX_COUNT, Which};
use rds_delta::Row;
use rds_dots::{Dot, MAX_SEQ, Run};
use rds_names::{Fault, Key};
use std::alloc::{AllocError, Global};

/// A number of a dot, from a least one on.
fn read_seq(least: u64, bytes: &[u8]) -> Result<(u64, &[u8]), Fault>
    ensures { ReadsExactly (λ x. (x.0, x.1.now)) result (when_at (is_between least MAX_SEQ) (number_at w64) bytes.now) }
{
    let (seq, rest) = read_u64(bytes)?;
    if seq < least || MAX_SEQ < seq {
        return Err(Fault::Bad);
    }
    Ok((seq, rest))
}

#[tactic(auto, unfolding(crate::specs::CertificateTexts::claimed_dot_at))]
fn read_dot(replicas: u16, bytes: &[u8]) -> Result<(Dot, &[u8]), Fault>
    ensures { ReadsExactly (λ x. (x.0, x.1.now)) result (claimed_dot_at replicas bytes.now) }
{
    let (replica, rest) = read_replica(replicas, bytes)?;
    let (seq, rest) = read_seq(1, rest)?;
    Ok((Dot { replica, seq }, rest))
}

#[tactic(auto, unfolding(crate::specs::CertificateTexts::ends_at))]
fn read_ends(bytes: &[u8]) -> Result<((u64, u64), &[u8]), Fault>
    ensures { ReadsExactly (λ x. (x.0, x.1.now)) result (ends_at bytes.now) }
{
    let (lo, rest) = read_seq(1, bytes)?;
    let (hi, rest) = read_seq(lo, rest)?;
    Ok(((lo, hi), rest))
}

#[tactic(auto, unfolding(crate::specs::CertificateTexts::run_at))]
fn read_run(replicas: u16, bytes: &[u8]) -> Result<(Run, &[u8]), Fault>
    ensures { ReadsExactly (λ x. (x.0, x.1.now)) result (run_at replicas bytes.now) }
{
    let (replica, rest) = read_replica(replicas, bytes)?;
    let ((lo, hi), rest) = read_ends(rest)?;
    Ok((Run { replica, lo, hi }, rest))
}

/// A run of dead dots, and their rank at the peer.
#[tactic(auto, unfolding(crate::specs::CertificateTexts::dead_at))]
fn read_dead(replicas: u16, bytes: &[u8]) -> Result<((Run, u8), &[u8]), Fault>
    ensures { ReadsExactly (λ x. (x.0, x.1.now)) result (dead_at replicas bytes.now) }
{
    let (run, rest) = read_run(replicas, bytes)?;
    let (peer, rest) = read_length(0, 1, rest)?;
    Ok(((run, peer), rest))
}

#[tactic(auto, unfolding(crate::specs::CertificateTexts::which_at))]
fn read_which(bytes: &[u8]) -> Result<(Which, &[u8]), Fault>
    ensures { ReadsExactly (λ x. (x.0, x.1.now)) result (which_at bytes.now) }
{
    let (which, rest) = read_byte(bytes)?;
    match which {
        1 => Ok((Which::P, rest)),
        2 => Ok((Which::N, rest)),
        _ => Err(Fault::Bad),
    }
}

#[tactic(auto, unfolding(crate::specs::CertificateTexts::amount_at))]
fn read_amount(bytes: &[u8]) -> Result<(u64, &[u8]), Fault>
    ensures { ReadsExactly (λ x. (x.0, x.1.now)) result (amount_at bytes.now) }
{
    let (amount, rest) = read_u64(bytes)?;
    if MAX_COUNT < amount {
        return Err(Fault::Bad);
    }
    Ok((amount, rest))
}

/// Which number, what was sent of it, and what the peer has.
#[tactic(auto, unfolding(crate::specs::CertificateTexts::amounts_at))]
fn read_claim(bytes: &[u8]) -> Result<((Which, (u64, u64)), &[u8]), Fault>
    ensures { ReadsExactly (λ x. (x.0, x.1.now)) result (amounts_at bytes.now) }
{
    let (which, rest) = read_which(bytes)?;
    let (sent, rest) = read_amount(rest)?;
    let (peer, rest) = read_amount(rest)?;
    Ok(((which, (sent, peer)), rest))
}

/// The place of a counter.
#[tactic(auto, unfolding(crate::specs::CertificateTexts::counter_at))]
fn read_place(alloc: Global, replicas: u16, bytes: &[u8]) -> Result<((Key, u8), &[u8]), Fault>
    ensures { Reads (λ x. (x.0, x.1.now)) result (counter_at replicas bytes.now) }
{
    let (key, rest) = read_key(alloc, bytes)?;
    let (replica, rest) = read_replica(replicas, rest)?;
    Ok(((key, replica), rest))
}

/// A row, after its tag.
#[tactic(auto, unfolding(crate::specs::CertificateTexts::number_claim_at))]
fn read_tagged(alloc: Global, replicas: u16, tag: u8, bytes: &[u8]) -> Result<(Row, &[u8]), Fault>
    ensures { Reads (λ x. (x.0, x.1.now)) result (tagged_row_at replicas tag bytes.now) }
{
    match tag {
        1 => {
            let (dot, rest) = read_dot(replicas, bytes)?;
            Ok((Row::Live(dot), rest))
        }
        2 => {
            let ((run, peer), rest) = read_dead(replicas, bytes)?;
            Ok((Row::Dead(run, peer), rest))
        }
        3 => {
            let ((key, replica), rest) = read_place(alloc, replicas, bytes)?;
            let ((which, (sent, peer)), rest) = read_claim(rest)?;
            let row = Row::Count {
                key,
                replica,
                which,
                sent,
                peer,
            };
            Ok((row, rest))
        }
        _ => Err(Fault::Bad),
    }
}

/// A row of a certificate, of so many replicas.
#[tactic(auto, unfolding(crate::specs::CertificateTexts::certificate_row_at))]
pub fn read_certificate_row(
    alloc: Global,
    replicas: u16,
    bytes: &[u8],
) -> Result<(Row, &[u8]), Fault>
    ensures { Reads (λ x. (x.0, x.1.now)) result (certificate_row_at replicas bytes.now) }
{
    let (tag, rest) = read_byte(bytes)?;
    let (row, rest) = read_tagged(alloc, replicas, tag, rest)?;
    Ok((row, rest))
}

pub fn row_length(row: &Row) -> usize
    ensures length { result ≡ length (row_text row.now) }
    ensures most { result ≤ 128 }
    ensures held { IsHeldRow row.now }
{
    // Bytes: their ranges show where they are read.
    match row {
        Row::Live(_) => 10,
        Row::Dead(run, _) => {
            let _replica = run.replica;
            19
        }
        Row::Count { key, replica, .. } => {
            let _replica = *replica;
            19 + key_length(key)
        }
    }
}

fn put_dot(out: &mut Vec<u8>, dot: Dot) -> Result<(), AllocError>
    ensures { Adds out.old.items out.new.items (dot_text dot) result }
{
    put_byte(out, dot.replica)?;
    put_u64(out, dot.seq)
}

fn put_run(out: &mut Vec<u8>, run: Run) -> Result<(), AllocError>
    ensures { Adds out.old.items out.new.items (run_text run) result }
{
    put_byte(out, run.replica)?;
    put_u64(out, run.lo)?;
    put_u64(out, run.hi)
}

fn put_which(out: &mut Vec<u8>, which: Which) -> Result<(), AllocError>
    ensures { Adds out.old.items out.new.items (byte_text (which_byte which)) result }
{
    match which {
        Which::P => put_byte(out, 1),
        Which::N => put_byte(out, 2),
    }
}

fn put_claim(out: &mut Vec<u8>, which: Which, sent: u64, peer: u64) -> Result<(), AllocError>
    ensures { Adds out.old.items out.new.items (claim_text which sent peer) result }
{
    put_which(out, which)?;
    put_u64(out, sent)?;
    put_u64(out, peer)
}

pub fn put_row(out: &mut Vec<u8>, row: &Row) -> Result<(), AllocError>
    ensures { Adds out.old.items out.new.items (row_text row.now) result }
{
    match row {
        Row::Live(dot) => {
            put_byte(out, 1)?;
            put_dot(out, *dot)
        }
        Row::Dead(run, peer) => {
            put_byte(out, 2)?;
            put_run(out, *run)?;
            put_byte(out, *peer)
        }
        Row::Count {
            key,
            replica,
            which,
            sent,
            peer,
        } => {
            put_byte(out, 3)?;
            put_place(out, key, *replica)?;
            put_claim(out, *which, *sent, *peer)
        }
    }
}
