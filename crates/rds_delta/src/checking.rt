//! Whether a delta is needed, component by component, and its certificate says so.
ghost use Rattle.std.specs.Prelude.{◌≡◌, ◌↔◌, ◌++◌, List, IsTrue, MatchOption};
ghost use Rattle.rds_counts.specs.Counted.{number, place};
ghost use Rattle.rds_state.specs.Value.{coordinates};
ghost use Rattle.rds_delta.specs.declared.row.Row.{Row};
ghost use Rattle.rds_delta.specs.declared.row.Row.TheVariants as rows;
ghost use Rattle.rds_delta.specs.Claimed.{IsClaimed, IsUnclaimed, row_above};
ghost use Rattle.rds_delta.specs.Claims.{IsCertificate};
ghost use Rattle.rds_delta.specs.CounterRows.{AreAbove, IsNumberAbove, counter_rows, number_rows};
ghost use Rattle.rds_delta.specs.Digested.{rank_in, ranks_in};
ghost use Rattle.rds_delta.specs.Least.{IsAbove};
ghost use Rattle.rds_delta.specs.Rest.{certified_row};

use crate::digest::Digest;
use crate::row::{Certificate, Row};
use crate::step::{DotRow, next_row};
use rds_counts::{CountRow, Counts, Which};
use rds_dots::DotSet;
use rds_life::Lives;
use rds_names::Key;
use rds_state::State;

/// Whether every component of the delta is above the digest's value, and the rows are the delta's certificate.
/// Takes no memory.
pub fn check<S: DotSet>(digest: &Digest<S>, delta: &State<S>, certificate: &Certificate) -> bool
    ensures { IsTrue result
        ↔ (IsAbove (coordinates delta.now) (ranks_in digest.now)
        × IsCertificate (ranks_in digest.now) delta.now certificate.now) }
{
    match dots_claimed(digest, delta.lives(), certificate.rows()) {
        None => false,
        Some(rest) => counts_claimed(digest.counts(), delta.counts().rows(), rest),
    }
}

/// The rows after those of the dots, or `None` where these aren't as they must be or a dot isn't above.
fn dots_claimed<'a, S: DotSet>(
    digest: &Digest<S>,
    lives: &Lives<S>,
    rows: &'a [Row],
) -> Option<&'a [Row]>
    ensures { MatchOption result (IsUnclaimed (rank_in digest.now) lives.now rows.entry.now)
        (λ rest. IsClaimed (rank_in digest.now) lives.now rows.entry.now rest.now) }
{
    let mut after = None;
    let mut rest = rows;
    'claiming: loop {
        match next_row(digest, lives, after) {
            None => return Some(rest),
            Some(next) => {
                if !is_above(next) {
                    return None;
                }
                let (row, later) = rest.split_first()?;
                if !is_row(row, next) {
                    return None;
                }
                after = Some(next.last());
                rest = later;
            }
        }
    }
}

/// Whether the dots are above the digest's rank.
fn is_above(next: DotRow) -> bool
    ensures { result ≡ row_above next }
{
    match next {
        DotRow::Live(_, peer) => peer == 0,
        DotRow::Dead(_, peer) => peer < 2,
    }
}

/// Whether the row is that of the dots.
fn is_row(row: &Row, next: DotRow) -> bool
    ensures { IsTrue result ↔ (row.now ≡ certified_row next) }
{
    match next {
        DotRow::Live(dot, _) => match row {
            Row::Live(own) => *own == dot,
            _ => false,
        },
        DotRow::Dead(run, peer) => match row {
            Row::Dead(own, rank) => *own == run && *rank == peer,
            _ => false,
        },
    }
}

/// Whether the rows are those of the counters, each number of which is above the peer's.
fn counts_claimed(peer: &Counts, counts: &[CountRow], rows: &[Row]) -> bool
    ensures { IsTrue result
        ↔ (AreAbove (number peer.now) counts.now × (rows.now ≡ counter_rows (number peer.now) counts.now)) }
{
    let mut left = counts;
    let mut rest = rows;
    'claiming: while let Some((count, later)) = left.split_first() {
        let (p, n) = peer.pair(&count.key, count.replica);
        let after_p = match number_claimed(rest, &count.key, count.replica, Which::P, count.p, p) {
            Some(after) => after,
            None => return false,
        };
        let after_n = match number_claimed(
            after_p,
            &count.key,
            count.replica,
            Which::N,
            count.n,
            n,
        ) {
            Some(after) => after,
            None => return false,
        };
        left = later;
        rest = after_n;
    }
    rest.is_empty()
}

/// The rows after that of a number, if it is as it must be and above the peer's.
fn number_claimed<'a>(
    rows: &'a [Row],
    key: &Key,
    replica: u8,
    which: Which,
    sent: u64,
    peer: u64,
) -> Option<&'a [Row]>
    ensures { MatchOption result (IsNumberAbove sent peer → (rest : List Row)
        → rows.entry.now ≡ number_rows (place key.now replica which) sent peer ++ rest → ⊥)
        (λ rest. IsNumberAbove sent peer
        × (rows.entry.now ≡ number_rows (place key.now replica which) sent peer ++ rest.now)) }
{
    if sent == 0 {
        return Some(rows);
    }
    if peer >= sent {
        return None;
    }
    let (row, rest) = rows.split_first()?;
    if !is_count(row, key, replica, which, sent, peer) {
        return None;
    }
    Some(rest)
}

/// Whether the row is that of the number.
fn is_count(row: &Row, key: &Key, replica: u8, which: Which, sent: u64, peer: u64) -> bool
    ensures { IsTrue result ↔ (row.now ≡ rows.Count key.now replica which sent peer) }
{
    match row {
        Row::Count {
            key: own_key,
            replica: own_replica,
            which: own_which,
            sent: own_sent,
            peer: own_peer,
        } => {
            own_key == key
                && *own_replica == replica
                && *own_which == which
                && *own_sent == sent
                && *own_peer == peer
        }
        _ => false,
    }
}
