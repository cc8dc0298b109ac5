//! The least delta.
ghost use Rattle.std.specs.Prelude.{◌≡◌, ◌≤◌, ◌∷◌, [], true, false, length, nat_lt, cond, None, IfOk, IfErr, IsOk};
ghost use Rattle.std.specs.FinMap as map;
ghost use Rattle.std.specs.FinSet as set;
ghost use Rattle.rds_names.specs.declared.fault.Fault.TheVariants.{Memory};
ghost use Rattle.rds_dots.specs.declared.dot.Dot.{Dot};
ghost use Rattle.rds_dots.specs.Ascending.{ascends};
ghost use Rattle.rds_life.specs.Life.{keys, live_rows};
ghost use Rattle.rds_counts.specs.Place.{Place};
ghost use Rattle.rds_counts.specs.Counted.{number};
ghost use Rattle.rds_state.specs.Value.{coordinates};
ghost use Rattle.rds_delta.specs.Digested.{rank_in, ranks_in};
ghost use Rattle.rds_delta.specs.Higher.{higher, higher_rows, is_sent, unseen_rows};
ghost use Rattle.rds_delta.specs.Least.{IsNothing, least};
ghost use Rattle.rds_delta.specs.Ranks.{life_rank};

use crate::digest::Digest;
use crate::inside::is_inside;
use crate::killed::dots_killed;
use crate::stretches::stretch_from;
use rds_counts::{CountRow, Counts};
use rds_dots::{Dot, DotSet};
use rds_life::{LiveRows, Lives};
use rds_names::{Entry, Fault};
use rds_state::State;
use std::alloc::Global;

/// The least delta of a state against a digest: the state's components that are above the digest's values, and
/// nothing else (after Enes, Almeida, Baquero, Leitão 2019). Joined into what was digested, or into what that has
/// become since, it does what the whole state would do. One without components takes no memory.
pub fn delta<S: DotSet>(
    alloc: Global,
    state: &State<S>,
    digest: &Digest<S>,
) -> Result<State<S>, Fault>
    ensures ok { IfOk result (λ delta. coordinates delta ≡ least (coordinates state.now) (ranks_in digest.now)) }
    ensures memory { IfErr result (λ fault. fault ≡ Memory) }
    ensures nothing { IsNothing (least (coordinates state.now) (ranks_in digest.now)) → IsOk result }
{
    let lives = lives_above(alloc, state.lives(), digest)?;
    let counts = counts_above(alloc, state.counts(), digest.counts())?;
    Ok(State::from_parts(lives, counts))
}

/// The lives that are above the digest's ranks.
fn lives_above<S: DotSet>(
    alloc: Global,
    lives: &Lives<S>,
    digest: &Digest<S>,
) -> Result<Lives<S>, Fault>
    ensures ok { IfOk result
        (λ above. (d : Dot) → map.get above d
        ≡ cond (nat_lt (rank_in digest.now d) (life_rank (map.get lives.now d))) (map.get lives.now d) None) }
    ensures memory { IfErr result (λ fault. fault ≡ Memory) }
    ensures nothing { ((d : Dot)
        → cond (nat_lt (rank_in digest.now d) (life_rank (map.get lives.now d))) (map.get lives.now d) None ≡ None)
        → IsOk result }
{
    let known = digest.seen();
    let seen = dots_above(alloc, lives, digest)?;
    let rows = rows_unseen(alloc, known, lives)?;
    Ok(Lives::with_rows(seen, rows))
}

/// The dots that are above the digest's ranks: those that it hasn't, and those that are dead here and live there.
#[tactic(auto, using(crate::proofs::Sent::sets))]
fn dots_above<S: DotSet>(alloc: Global, lives: &Lives<S>, digest: &Digest<S>) -> Result<S, Fault>
    ensures ok { IfOk result
        (λ dots. (d : Dot) → set.contains (S.contents dots) d
        ≡ is_sent (map.get lives.now d) (set.contains digest.now.seen d) (set.contains digest.now.live d)) }
    ensures memory { IfErr result (λ fault. fault ≡ Memory) }
    ensures nothing { ((d : Dot)
        → is_sent (map.get lives.now d) (set.contains digest.now.seen d) (set.contains digest.now.live d) ≡ false)
        → IsOk result }
{
    let killed = dots_killed(alloc, lives, digest.live())?;
    if is_inside(lives.seen(), digest.seen()) {
        return Ok(killed);
    }
    let new = lives.seen().minus(alloc, digest.seen())?;
    let sent = new.union(alloc, &killed)?;
    Ok(sent)
}

/// Copies of the live rows whose dots aren't in the set.
fn rows_unseen<S: DotSet>(
    alloc: Global,
    seen: &S,
    lives: &Lives<S>,
) -> Result<Vec<(Dot, Entry)>, Fault>
    ensures ok { IfOk result
        (λ unseen. unseen.items ≡ unseen_rows (set.contains (S.contents seen.now)) (live_rows lives.now)) }
    ensures memory { IfErr result (λ fault. fault ≡ Memory) }
    ensures nothing { unseen_rows (set.contains (S.contents seen.now)) (live_rows lives.now) ≡ [] → IsOk result }
{
    let mut unseen = Vec::new(alloc);
    let mut rest = lives.live();
    'copying: loop {
        let (dot, entry) = match rest.next() {
            Some(row) => row,
            None => return Ok(unseen),
        };
        if seen.contains(dot) {
            rest = past_run(seen, dot, rest);
        } else {
            unseen.push((dot, entry.copy(alloc)?))?;
        }
    }
}

/// Of the rows behind a dot of the set, those past the set's run of that dot.
fn past_run<'a, S: DotSet>(seen: &S, dot: Dot, mut rows: LiveRows<'a>) -> LiveRows<'a>
    requires seen { set.contains (S.contents seen.now) dot ≡ true }
    requires rise { ascends (dot ∷ keys rows) ≡ true }
    ensures unseen { let has = set.contains (S.contents seen.now) in
        unseen_rows has result ≡ unseen_rows has rows.entry }
    ensures rise { ascends (keys result) ≡ true }
    ensures fewer { length result ≤ length rows.entry }
{
    let last = Dot {
        replica: dot.replica,
        seq: stretch_from(seen, dot).until,
    };
    rows.skip_past(last);
    rows
}

/// The numbers that are above the peer's.
fn counts_above(alloc: Global, counts: &Counts, peer: &Counts) -> Result<Counts, Fault>
    ensures ok { IfOk result
        (λ above. (q : Place) → number above q ≡ higher (number counts.now q) (number peer.now q)) }
    ensures memory { IfErr result (λ fault. fault ≡ Memory) }
    ensures nothing { ((q : Place) → higher (number counts.now q) (number peer.now q) ≡ 0) → IsOk result }
{
    let rows = rows_above(alloc, peer, counts.rows())?;
    Ok(Counts::with_rows(rows))
}

/// The rows with the numbers that are above the peer's, and 0 in place of the others.
fn rows_above(alloc: Global, peer: &Counts, rows: &[CountRow]) -> Result<Vec<CountRow>, Fault>
    ensures ok { IfOk result (λ above. above.items ≡ higher_rows (number peer.now) rows.now) }
    ensures memory { IfErr result (λ fault. fault ≡ Memory) }
    ensures nothing { higher_rows (number peer.now) rows.now ≡ [] → IsOk result }
{
    let mut above = Vec::new(alloc);
    let mut rest = rows;
    'copying: while let Some((row, later)) = rest.split_first() {
        let (peer_p, peer_n) = peer.pair(&row.key, row.replica);
        let p = number_above(row.p, peer_p);
        let n = number_above(row.n, peer_n);
        if p > 0 || n > 0 {
            above.push(CountRow {
                key: row.key.copy(alloc)?,
                replica: row.replica,
                p,
                n,
            })?;
        }
        rest = later;
    }
    Ok(above)
}

/// The number where it is above the peer's, else 0.
fn number_above(number: u64, peer: u64) -> u64
    ensures { result ≡ higher number peer }
{
    if peer < number { number } else { 0 }
}
