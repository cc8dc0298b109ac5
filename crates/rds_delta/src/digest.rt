//! What a replica has, without entries.
ghost use Rattle.std.specs.Prelude.{◌≡◌, ◌≤◌, true, IfOk, IfErr, IfSome, IsOk, MatchOption};
ghost use Rattle.std.specs.FinMap as map;
ghost use Rattle.std.specs.FinSet as set;
ghost use Rattle.rds_names.specs.declared.fault.Fault.TheVariants.{Memory};
ghost use Rattle.rds_counts.specs.declared.row.Which.TheVariants.{P, N};
ghost use Rattle.rds_counts.specs.declared.row.TheConstants.{MAX_COUNT};
ghost use Rattle.rds_counts.specs.Counted.{place};
ghost use Rattle.rds_state.specs.Value.{coordinates, size};
ghost use Rattle.rds_delta.specs.Digested.{DigestValue, IsInside, digest_of, ranks_in};
ghost use Rattle.rds_delta.specs.Ranks.{rank_number, ranks};

use crate::inside::is_inside;
use rds_counts::Counts;
use rds_dots::{Dot, DotSet};
use rds_life::Rank;
use rds_names::{Fault, Key};
use rds_state::State;
use std::alloc::Global;
use std::marker::Model;

/// What a replica tells of its state when it asks for what it lacks: the dots that it has seen, those of them that
/// are live, and its counters. It has no entries. (Digest-driven synchronization: Enes, Almeida, Baquero, Leitão 2019.)
pub struct Digest<S: DotSet> {
    seen: S,
    live: S,
    counts: Counts,
}

impl<S: DotSet> Drop for Digest<S> {
    fn drop(self) {
        let Digest {
            seen: _seen,
            live: _live,
            counts: _counts,
        } = self;
    }
}

impl<S: DotSet> Model for Digest<S> {
    ghost use Rattle.rds_delta.specs.Digested.{DigestValue, IsInside, coded_digest};

    ghost Value = { DigestValue };

    ghost coded = { coded_digest };

    ghost view = { λ g. record { seen = S.contents g.seen; live = S.contents g.live; counts = g.counts } };

    ghost invariant = { λ g. IsInside (S.contents g.live) (S.contents g.seen) };
}

impl<S: DotSet> Digest<S> {
    /// The digest of a state. That of one without components takes no memory.
    pub fn of(alloc: Global, state: &State<S>) -> Result<Digest<S>, Fault>
        ensures ranks { IfOk result (λ digest. ranks_in digest ≡ ranks (coordinates state.now)) }
        ensures value { IfOk result (λ digest. digest ≡ digest_of state.now) }
        ensures memory { IfErr result (λ fault. fault ≡ Memory) }
        ensures nothing { size state.now ≡ 0 → IsOk result }
    {
        if state.components() == 0 {
            return Ok(Digest::empty(alloc));
        }
        let seen = state.lives().seen().copy(alloc)?;
        let live = state.lives().live_dots(alloc)?;
        let counts = state.counts().copy(alloc)?;
        Ok(Digest { seen, live, counts })
    }

    /// The digest of a state without components.
    fn empty(alloc: Global) -> Digest<S>
        ensures value { let none : DigestValue = record { seen = set.empty; live = set.empty; counts = map.empty } in
            result ≡ none }
    {
        Digest {
            seen: S::empty(alloc),
            live: S::empty(alloc),
            counts: Counts::empty(alloc),
        }
    }

    /// The digest of these parts. Takes no memory, and tests nothing: each live dot is known to be among the seen ones.
    pub fn with_parts(seen: S, live: S, counts: Counts) -> Digest<S>
        requires inside { IsInside (S.contents live) (S.contents seen) }
        ensures value { let parts : DigestValue = record {
          seen = S.contents seen;
          live = S.contents live;
          counts = counts;
        } in
            result ≡ parts }
    {
        Digest { seen, live, counts }
    }

    /// The digest of these parts, as a text holds them. `None` where a live dot isn't among the seen ones. Takes no
    /// memory.
    pub fn from_parts(seen: S, live: S, counts: Counts) -> Option<Digest<S>>
        ensures exact { MatchOption result (¬ (IsInside (S.contents live) (S.contents seen)))
            (λ _. IsInside (S.contents live) (S.contents seen)) }
        ensures value { let parts : DigestValue = record {
          seen = S.contents seen;
          live = S.contents live;
          counts = counts;
        } in
            IfSome result (λ digest. digest ≡ parts) }
    {
        if !is_inside(&live, &seen) {
            return None;
        }
        Some(Digest::with_parts(seen, live, counts))
    }

    /// The dots that aren't unseen, the live ones among them.
    pub fn seen(&self) -> &S
        ensures dots { S.contents result.now ≡ self.now.seen }
        ensures inside { IsInside self.now.live self.now.seen }
    {
        &self.seen
    }

    /// The dots that are live.
    pub fn live(&self) -> &S
        ensures { S.contents result.now ≡ self.now.live }
    {
        &self.live
    }

    /// The numbers of each counter.
    pub fn counts(&self) -> &Counts
        ensures { result.now ≡ self.now.counts }
    {
        &self.counts
    }

    /// How far a dot has come.
    pub fn rank(&self, dot: Dot) -> Rank
        ensures { rank_number result ≡ (ranks_in self.now).rank dot }
    {
        if self.live.contains(dot) {
            return Rank::Live;
        }
        if self.seen.contains(dot) {
            return Rank::Dead;
        }
        Rank::Unseen
    }

    /// The sums of a replica's increments and of its decrements under a key.
    pub fn pair(&self, key: &Key, replica: u8) -> (u64, u64)
        ensures p { result.0 ≡ (ranks_in self.now).number (place key.now replica P) }
        ensures n { result.1 ≡ (ranks_in self.now).number (place key.now replica N) }
        ensures within { (result.0 ≤ MAX_COUNT) × (result.1 ≤ MAX_COUNT) }
    {
        self.counts.pair(key, replica)
    }
}
