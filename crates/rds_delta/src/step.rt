//! The dot rows of a certificate, one after another.
ghost use Rattle.std.specs.Prelude.{◌≡◌, ◌≤◌, true, is_some};
ghost use Rattle.std.specs.FinMap as map;
ghost use Rattle.rds_dots.specs.declared.dot.Dot.{Dot};
ghost use Rattle.rds_dots.specs.Dots.{is_dot};
ghost use Rattle.rds_delta.specs.Claimed.{end_of};
ghost use Rattle.rds_delta.specs.Digested.{rank_in};
ghost use Rattle.rds_delta.specs.Next.{IsAlike, IsLifelessUntil, IsNextRow};

use crate::digest::Digest;
use crate::stretches::{part_after, stretch_from};
use rds_dots::{Dot, DotSet, MAX_SEQ, Run};
use rds_life::Lives;

/// A live dot, or dead dots in a row, with the digest's rank there.
#[derive(Clone, Copy)]
pub enum DotRow {
    /// A live dot.
    Live(Dot, u8),
    /// Dead dots of one rank.
    Dead(Run, u8),
}

/// The digest's rank at a dot, and the last number up to which it stays so.
#[derive(Clone, Copy)]
pub struct Peer {
    /// The rank: 0 for unseen, 1 for live, 2 for dead.
    pub rank: u8,
    /// The last number of that rank.
    pub until: u64,
}

impl DotRow {
    /// The last dot of the row.
    pub fn last(self) -> Dot
        ensures { result ≡ end_of self }
    {
        match self {
            DotRow::Live(dot, _) => dot,
            DotRow::Dead(run, _) => Dot {
                replica: run.replica,
                seq: run.hi,
            },
        }
    }
}

/// The digest's rank at a dot.
pub fn peer_from<S: DotSet>(digest: &Digest<S>, dot: Dot) -> Peer
    requires { is_dot dot ≡ true }
    ensures alike { IsAlike (rank_in digest.now) dot result.rank result.until }
    ensures within { result.rank ≤ 2 }
{
    let live = stretch_from(digest.live(), dot);
    let seen = stretch_from(digest.seen(), dot);
    let rank = if live.has {
        1
    } else if seen.has {
        2
    } else {
        0
    };
    Peer {
        rank,
        until: live.until.min(seen.until),
    }
}

/// The last number from the dot on up to which none lives, or `None` where the dot itself does.
pub fn lifeless_until<S: DotSet>(lives: &Lives<S>, dot: Dot) -> Option<u64>
    requires { is_dot dot ≡ true }
    ensures { IsLifelessUntil lives.now dot result }
{
    let (next, _) = match lives.first_from(dot) {
        Some(row) => row,
        None => return Some(MAX_SEQ),
    };
    if next.replica != dot.replica {
        return Some(MAX_SEQ);
    }
    if next.seq == dot.seq {
        return None;
    }
    Some(next.seq - 1)
}

/// What stands at the next dots after the given one. The dots that aren't unseen lie in the range of dots.
pub fn next_row<S: DotSet>(
    digest: &Digest<S>,
    lives: &Lives<S>,
    after: Option<Dot>,
) -> Option<DotRow>
    ensures next { IsNextRow (rank_in digest.now) lives.now after result }
    ensures dots { (d : Dot) → is_some (map.get lives.now d) ≡ true → is_dot d ≡ true }
{
    let part = part_after(lives.seen(), after)?;
    let dot = Dot {
        replica: part.replica,
        seq: part.lo,
    };
    let peer = peer_from(digest, dot);
    match lifeless_until(lives, dot) {
        None => Some(DotRow::Live(dot, peer.rank)),
        Some(until) => Some(DotRow::Dead(
            Run {
                replica: part.replica,
                lo: part.lo,
                hi: part.hi.min(peer.until).min(until),
            },
            peer.rank,
        )),
    }
}
