//! The certificate of a delta.
ghost use Rattle.std.specs.Prelude.{◌≡◌, ◌++◌, [], ℕ, List, true, None, is_some, IfOk, IfErr, IsOk, OnOk};
ghost use Rattle.std.specs.FinMap as map;
ghost use Rattle.rds_names.specs.declared.fault.Fault.TheVariants.{Memory};
ghost use Rattle.rds_dots.specs.declared.dot.Dot.{Dot};
ghost use Rattle.rds_dots.specs.Dots.{is_dot};
ghost use Rattle.rds_counts.specs.Counted.{number, place};
ghost use Rattle.rds_state.specs.Fits.{Fits};
ghost use Rattle.rds_state.specs.Value.{coordinates, size};
ghost use Rattle.rds_delta.specs.declared.row.Row.{Row};
ghost use Rattle.rds_delta.specs.Claims.{IsCertificate};
ghost use Rattle.rds_delta.specs.CounterRows.{counter_rows, number_rows};
ghost use Rattle.rds_delta.specs.Digested.{rank_in, ranks_in};
ghost use Rattle.rds_delta.specs.Least.{IsAbove};
ghost use Rattle.rds_delta.specs.Ranges.{AreRowsWithin};
ghost use Rattle.rds_delta.specs.Rest.{is_flat, certified_row, claims_after};

use crate::digest::Digest;
use crate::row::{Certificate, Row};
use crate::step::{DotRow, next_row};
use rds_counts::{CountRow, Counts, Which};
use rds_dots::DotSet;
use rds_life::Lives;
use rds_names::{Fault, Key};
use rds_state::State;
use std::alloc::Global;

/// What the digest has in place of each component of a delta, in rows of which no two neighbours could be one: there
/// is one such list. It says something of a delta whose components are all above the digest, as those of a least
/// delta are: then each row lies in its range. That of a delta without components takes no memory.
pub fn certificate<S: DotSet>(
    alloc: Global,
    digest: &Digest<S>,
    delta: &State<S>,
) -> Result<Certificate, Fault>
    ensures ok { IfOk result (λ rows. IsCertificate (ranks_in digest.now) delta.now rows) }
    ensures unique { IfOk result
        (λ rows. (others : List Row) → IsCertificate (ranks_in digest.now) delta.now others → others ≡ rows) }
    ensures within { (replicas : ℕ) → Fits replicas (coordinates delta.now)
        → IsAbove (coordinates delta.now) (ranks_in digest.now) → IfOk result (AreRowsWithin replicas) }
    ensures memory { IfErr result (λ fault. fault ≡ Memory) }
    ensures nothing { size delta.now ≡ 0 → IsOk result }
{
    let mut rows = dot_rows(alloc, digest, delta.lives())?;
    push_counts(alloc, &mut rows, digest.counts(), delta.counts().rows())?;
    Ok(Certificate::new(rows))
}

/// The rows of all dots. Those that aren't unseen lie in the range of dots.
fn dot_rows<S: DotSet>(
    alloc: Global,
    digest: &Digest<S>,
    lives: &Lives<S>,
) -> Result<Vec<Row>, Fault>
    ensures ok { IfOk result
        (λ rows. (more : List Row) → is_flat more ≡ true
        → rows.items ++ more ≡ claims_after (rank_in digest.now) lives.now None more) }
    ensures dots { IsOk result → (d : Dot) → is_some (map.get lives.now d) ≡ true → is_dot d ≡ true }
    ensures memory { IfErr result (λ fault. fault ≡ Memory) }
    ensures nothing { map.len lives.now ≡ 0 → IsOk result }
{
    let mut rows = Vec::new(alloc);
    let mut after = None;
    'telling: loop {
        match next_row(digest, lives, after) {
            None => return Ok(rows),
            Some(next) => {
                rows.push(row(next))?;
                after = Some(next.last());
            }
        }
    }
}

/// The row of a live dot, or of dead ones.
fn row(next: DotRow) -> Row
    ensures { result ≡ certified_row next }
{
    match next {
        DotRow::Live(dot, _) => Row::Live(dot),
        DotRow::Dead(run, peer) => Row::Dead(run, peer),
    }
}

/// Puts the rows of all numbers at the end.
#[tactic(auto, using(crate::proofs::Appends::appends))]
fn push_counts(
    alloc: Global,
    rows: &mut Vec<Row>,
    peer: &Counts,
    counts: &[CountRow],
) -> Result<(), Fault>
    ensures ok { OnOk result (rows.new.items ≡ rows.old.items ++ counter_rows (number peer.now) counts.now) }
    ensures memory { IfErr result (λ fault. fault ≡ Memory) }
    ensures nothing { counts.now ≡ [] → IsOk result }
{
    if counts.is_empty() {
        return Ok(());
    }
    let mut left = counts;
    'telling: while let Some((count, later)) = left.split_first() {
        let (p, n) = peer.pair(&count.key, count.replica);
        push_number(alloc, rows, &count.key, count.replica, Which::P, count.p, p)?;
        push_number(alloc, rows, &count.key, count.replica, Which::N, count.n, n)?;
        left = later;
    }
    Ok(())
}

/// Puts the row of a number at the end, if it is above 0.
fn push_number(
    alloc: Global,
    rows: &mut Vec<Row>,
    key: &Key,
    replica: u8,
    which: Which,
    sent: u64,
    peer: u64,
) -> Result<(), Fault>
    ensures ok { OnOk result (rows.new.items ≡ rows.old.items ++ number_rows (place key.now replica which) sent peer) }
    ensures memory { IfErr result (λ fault. fault ≡ Memory) }
{
    if sent == 0 {
        return Ok(());
    }
    rows.push(Row::Count {
        key: key.copy(alloc)?,
        replica,
        which,
        sent,
        peer,
    })?;
    Ok(())
}
