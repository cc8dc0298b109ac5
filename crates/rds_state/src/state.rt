//! The state of a document.
ghost use Rattle.std.specs.Prelude.{◌≡◌, ◌≢◌, ◌↔◌, ◌+◌, IsTrue, true, false, None, Err, count_by, IfOk, IfErr, OnOk};
ghost use Rattle.std.specs.Prelude.{OnErr, MatchResult, IsOk};
ghost use Rattle.std.specs.FinMap as map;
ghost use Rattle.rds_names.specs.declared.fault.Fault.TheVariants.{Memory};
ghost use Rattle.rds_counts.specs.Counted.{number, place};
ghost use Rattle.rds_counts.specs.declared.row.Which.TheVariants.{P, N};
ghost use Rattle.rds_dots.specs.declared.dot.Dot.{Dot};
ghost use Rattle.rds_dots.specs.Dots.{is_dot};
ghost use Rattle.rds_life.specs.Killed.{but_for, killed_by};
ghost use Rattle.rds_life.specs.Life.{LivesAreCompatible, Live, MergeGives, live_rows};
ghost use Rattle.rds_state.specs.Chosen.{AreRaised};
ghost use Rattle.rds_state.specs.Coordinates.{join};
ghost use Rattle.rds_state.specs.Edit.{count_fault, makes_pair, IsDue};
ghost use Rattle.rds_state.specs.Mark.{mark_of};
ghost use Rattle.rds_state.specs.Value.{coordinates, size};

use crate::mark::Mark;
use crate::sameness::are_same_lives;
use rds_counts::{Counts, Which};
use rds_dots::{Dot, DotSet};
use rds_life::{Found, Lives};
use rds_names::{Entry, Fault, Key};
use std::alloc::Global;
use std::marker::Model;

/// What a replica knows of a document: the life of each dot, and the numbers of each counter.
pub struct State<S: DotSet> {
    lives: Lives<S>,
    counts: Counts,
}

// Written out, so that where a state is let go a caller's proof has one call, and not a step for each part of its
// parts.
impl<S: DotSet> Drop for State<S> {
    fn drop(self) {
        let State {
            lives: _lives,
            counts: _counts,
        } = self;
    }
}

impl<S: DotSet> Model for State<S> {
    ghost use Rattle.rds_state.specs.Value.{StateValue, coded_state};

    ghost Value = { StateValue };

    ghost coded = { coded_state };

    ghost view = { λ s. record { lives = s.lives; counts = s.counts } };
}

impl<S: DotSet> State<S> {
    /// Every dot is unseen and every number 0. Takes no memory.
    pub fn empty(alloc: Global) -> State<S>
        ensures lives { result.lives ≡ map.empty }
        ensures counts { result.counts ≡ map.empty }
    {
        State {
            lives: Lives::empty(alloc),
            counts: Counts::empty(alloc),
        }
    }

    /// A state without counters. Takes no memory.
    pub fn from_lives(alloc: Global, lives: Lives<S>) -> State<S>
        ensures lives { result.lives ≡ lives }
        ensures counts { result.counts ≡ map.empty }
    {
        State {
            lives,
            counts: Counts::empty(alloc),
        }
    }

    /// The state of these parts. Takes no memory.
    pub fn from_parts(lives: Lives<S>, counts: Counts) -> State<S>
        ensures lives { result.lives ≡ lives }
        ensures counts { result.counts ≡ counts }
    {
        State { lives, counts }
    }

    /// The life of each dot.
    pub fn lives(&self) -> &Lives<S>
        ensures { result.now ≡ self.now.lives }
    {
        &self.lives
    }

    /// The numbers of each counter.
    pub fn counts(&self) -> &Counts
        ensures { result.now ≡ self.now.counts }
    {
        &self.counts
    }

    /// How many components the state has: dots that aren't unseen, and numbers above 0.
    pub fn components(&self) -> u128
        ensures { result ≡ size self.now }
    {
        let dots = self.lives.seen().count();
        let numbers = self.counts.components();
        u128::from(dots) + numbers
    }

    /// The mark by which the state is compared at a glance, in one pass over its live dots and rows of counters. Takes
    /// no memory.
    #[tactic(auto, unfolding(crate::specs::Mark::mark_of))]
    pub fn mark(&self) -> Mark
        ensures { result ≡ mark_of self.now }
    {
        Mark::empty()
            .plus_live(self.lives.live())
            .plus_counts(self.counts.rows())
    }

    /// Whether the two are equal at each coordinate.
    pub fn same(&self, other: &State<S>) -> bool
        ensures { IsTrue result ↔ (self.now ≡ other.now) }
    {
        are_same_lives(&self.lives, &other.lives) && self.counts.same(&other.counts)
    }

    /// Joins the other state into this one (Shapiro, Preguiça, Baquero, Zawirski 2011): each coordinate becomes the
    /// later life or the greater number. Refuses a `Conflict`, which names the least dot that is live in both with
    /// different entries. Another state without components takes no memory, and one without counters none for
    /// counters.
    pub fn merge(&mut self, other: &State<S>) -> Result<(), Fault>
        ensures ok { OnOk result (coordinates self.new ≡ join (coordinates self.old) (coordinates other.now)) }
        ensures gives { MergeGives self.old.lives other.now.lives result }
        ensures nothing { size other.now ≡ 0 → IsOk result }
        ensures err { OnErr result (self.new ≡ self.old) }
    {
        if let Some(dot) = self.lives.conflict(&other.lives) {
            return Err(Fault::Conflict {
                replica: dot.replica,
                seq: dot.seq,
            });
        }
        self.merge_compatible(other)
    }

    /// Joins the other state into this one, where they are known to have no conflict. The numbers are joined aside, so
    /// that all is as it was where there is no memory for the lives.
    fn merge_compatible(&mut self, other: &State<S>) -> Result<(), Fault>
        requires compatible { LivesAreCompatible self.old.lives other.now.lives }
        ensures ok { OnOk result (coordinates self.new ≡ join (coordinates self.old) (coordinates other.now)) }
        ensures memory { IfErr result (λ fault. fault ≡ Memory) }
        ensures nothing { size other.now ≡ 0 → IsOk result }
        ensures err { OnErr result (self.new ≡ self.old) }
    {
        if other.counts.rows().is_empty() {
            return self.lives.merge_compatible(&other.lives);
        }
        let counts = self.counts.joined(self.counts.alloc(), &other.counts)?;
        self.lives.merge_compatible(&other.lives)?;
        self.counts = counts;
        Ok(())
    }

    /// An equal state with memory of its own. One without components takes none.
    pub fn copy(&self, alloc: Global) -> Result<State<S>, Fault>
        ensures ok { IfOk result (λ state. state ≡ self.now) }
        ensures memory { IfErr result (λ fault. fault ≡ Memory) }
        ensures nothing { size self.now ≡ 0 → IsOk result }
    {
        Ok(State {
            lives: self.lives.copy(alloc)?,
            counts: self.counts.copy(alloc)?,
        })
    }
}

/// The steps of an edit.
impl<S: DotSet> State<S> {
    /// Puts the live entries into a map.
    pub(crate) fn index(&mut self) -> Result<(), Fault>
        ensures same { self.new ≡ self.old }
        ensures memory { IfErr result (λ fault. fault ≡ Memory) }
    {
        self.lives.index()
    }

    /// The allocator that the state grows by.
    pub(crate) fn alloc(&self) -> Global {
        self.counts.alloc()
    }

    /// Makes an unseen dot live.
    pub(crate) fn put_live(&mut self, dot: Dot, entry: Entry) -> Result<(), Fault>
        requires dot { is_dot dot ≡ true }
        requires unseen { map.get self.old.lives dot ≡ None }
        ensures lives { OnOk result (self.new.lives ≡ map.insert self.old.lives dot (Live entry)) }
        ensures counts { self.new.counts ≡ self.old.counts }
        ensures err { OnErr result (self.new ≡ self.old) }
        ensures memory { IfErr result (λ fault. fault ≡ Memory) }
    {
        self.lives.put_live(dot, entry)
    }

    /// Makes the live dots dead that were found, but the one that is to stay, and says how many there were.
    pub(crate) fn kill_found<F: Found>(&mut self, found: &F, but: Option<Dot>) -> u64
        ensures lives { (d : Dot)
            → map.get self.new.lives d ≡ killed_by (but_for but (F.found found.now)) d (map.get self.old.lives d) }
        ensures counts { self.new.counts ≡ self.old.counts }
        ensures killed { result ≡ count_by (λ r. but_for but (F.found found.now) r.0 r.1) (live_rows self.old.lives) }
    {
        self.lives.kill_found(found, but)
    }

    /// Adds an amount to one of a replica's numbers.
    pub(crate) fn raise(
        &mut self,
        key: &Key,
        replica: u8,
        which: Which,
        by: u64,
    ) -> Result<(), Fault>
        ensures numbers { OnOk result (AreRaised self.old.counts (place key.now replica which) by self.new.counts) }
        ensures lives { self.new.lives ≡ self.old.lives }
        ensures refusal { let due = count_fault (number self.old.counts (place key.now replica which) + by) in
            MatchResult result (λ _. due ≡ None) (IsDue due) }
        ensures room { makes_pair (number self.old.counts (place key.now replica P))
            (number self.old.counts (place key.now replica N)) by ≡ false → result ≢ Err Memory }
        ensures err { OnErr result (self.new ≡ self.old) }
    {
        self.counts.raise(key, replica, which, by)
    }
}
