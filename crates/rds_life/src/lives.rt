//! The life of each dot.
ghost use Rattle.std.specs.Prelude.{◌≡◌, true, None, IfOk, IfErr, IfSome, IsOk, count_by, OnOk, OnErr, MatchOption};
ghost use Rattle.std.specs.Prelude.{◌<◌, ◌≤◌, ℕ, filter, is_some, length};
ghost use Rattle.std.specs.FinMap as map;
ghost use Rattle.std.specs.FinSet as set;
ghost use Rattle.std.specs.Option.{option_copied, option_map};
ghost use Rattle.rds_names.specs.declared.fault.Fault.TheVariants.{Memory};
ghost use Rattle.rds_dots.specs.declared.dot.Dot.{Dot};
ghost use Rattle.rds_dots.specs.Ascending.{ascends};
ghost use Rattle.rds_dots.specs.Dots.{is_dot};
ghost use Rattle.rds_dots.specs.Lacking.{dot_of};
ghost use Rattle.rds_life.specs.Killed.{killed_by, but_for, is_the};
ghost use Rattle.rds_life.specs.KnownDead.{HasMore};
ghost use Rattle.rds_life.specs.Life.{Live, Dead, AreRows, keys, lives_of, seen_of, live_of, live_rows, entry_of};
ghost use Rattle.rds_life.specs.Life.{is_dead, LivesAreCompatible, Conflicts, IsJoin, IsLeastAbove, MergeGives};
ghost use Rattle.rds_life.specs.Past.{first_row, rows_from};
ghost use Rattle.rds_life.specs.Rank.{rank_of};

use crate::chosen::Choice;
use crate::dead_dots::{DeadDots, with_dot, with_dots};
use crate::dots::{dots_of, insert_dot};
use crate::found::Found;
use crate::gone::rows_gone;
use crate::live_rows::LiveRows;
use crate::rank::Rank;
use crate::rows::are_rows;
use crate::store::Rows;
use crate::stretches::has_until;
use rds_dots::{Dot, DotSet};
use rds_names::{Entry, Fault};
use std::alloc::Global;
use std::marker::Model;

/// The life of each dot, seen as a finite map from dots to lives; a dot that isn't in it is unseen.
///
/// It keeps the set of seen dots and, in the order of the dots, the entries of those that are live:
/// the dot store and causal context of Almeida, Shoker, Baquero 2018. The entries stand in a list,
/// or in a map once the lives are indexed. From then on the dead dots are kept too, so that what asks
/// for them goes by runs and not by rows; lack of memory only ends that.
pub struct Lives<S: DotSet> {
    seen: S,
    rows: Rows,
    dead: Option<DeadDots<S>>,
}

impl<S: DotSet> Drop for Lives<S> {
    fn drop(self) {
        let Lives {
            seen: _seen,
            rows: _rows,
            dead: _dead,
        } = self;
    }
}

impl<S: DotSet> Model for Lives<S> {
    ghost use Rattle.rds_life.specs.Life.{Lived, lives_of};
    ghost use Rattle.rds_life.specs.Code.{coded_lives};
    ghost use Rattle.rds_life.specs.KnownDead.{AreKept};

    ghost Value = { Lived };

    ghost coded = { coded_lives };

    ghost view = { λ l. lives_of (S.contents l.seen) l.rows };

    ghost invariant = { λ l. AreKept (S.contents l.seen) l.rows l.dead };
}

impl<S: DotSet> Lives<S> {
    /// Every dot is unseen. Takes no memory.
    pub fn empty(alloc: Global) -> Lives<S>
        ensures { result ≡ map.empty }
    {
        Lives {
            seen: S::empty(alloc),
            rows: Rows::listed(Vec::new(alloc)),
            dead: None,
        }
    }

    /// The dots of the rows are live with their entries, and the other dots of the set are dead. Takes
    /// no memory, and tests nothing: the rows are known to ascend, each of a dot of the set.
    pub fn with_rows(seen: S, rows: Vec<(Dot, Entry)>) -> Lives<S>
        requires rows { AreRows (S.contents seen) rows.items }
        ensures lives { result ≡ lives_of (S.contents seen) rows.items }
        ensures seen { seen_of result ≡ S.contents seen }
        ensures live { live_rows result ≡ rows.items }
    {
        Lives {
            seen,
            rows: Rows::listed(rows),
            dead: None,
        }
    }

    /// The dots of the rows are live with their entries, and the other dots of the set are dead.
    /// `None` where the rows don't ascend by dot, or have a dot that isn't in the set. Takes no
    /// memory.
    pub fn from_parts(seen: S, rows: Vec<(Dot, Entry)>) -> Option<Lives<S>>
        ensures exact { MatchOption result (¬ (AreRows (S.contents seen) rows.items))
            (λ _. AreRows (S.contents seen) rows.items) }
        ensures lives { IfSome result (λ lives. lives ≡ lives_of (S.contents seen) rows.items) }
        ensures seen { IfSome result (λ lives. seen_of lives ≡ S.contents seen) }
        ensures live { IfSome result (λ lives. live_rows lives ≡ rows.items) }
    {
        if !are_rows(&seen, &rows) {
            return None;
        }
        Some(Lives::with_rows(seen, rows))
    }

    /// How far a dot has come.
    pub fn rank(&self, dot: Dot) -> Rank
        ensures { result ≡ rank_of (map.get self.now dot) }
    {
        if !self.seen.contains(dot) {
            return Rank::Unseen;
        }
        match self.rows.find(dot) {
            Some(_) => Rank::Live,
            None => Rank::Dead,
        }
    }

    /// The entry of a dot that is live.
    pub fn entry(&self, dot: Dot) -> Option<&Entry>
        ensures { option_copied result ≡ entry_of (map.get self.now dot) }
    {
        self.rows.find(dot)
    }

    /// The dots that aren't unseen.
    pub fn seen(&self) -> &S
        ensures { S.contents result.now ≡ seen_of self.now }
    {
        &self.seen
    }

    /// The live dots with their entries, in the order of the dots.
    pub fn live(&self) -> LiveRows<'_>
        ensures rows { result ≡ live_rows self.now }
        ensures ascending { ascends (keys result) ≡ true }
    {
        self.rows.iter()
    }

    /// The first live dot from the given one on, with its entry: a search, whose cost grows with
    /// the logarithm of how many dots are live.
    pub fn first_from(&self, dot: Dot) -> Option<(Dot, &Entry)>
        ensures { option_map (λ row. (row.0, row.1.now)) result ≡ first_row (rows_from dot (live_rows self.now)) }
    {
        self.rows.first_from(dot)
    }

    /// How many dots are live.
    pub fn live_len(&self) -> usize
        ensures { result ≡ length (live_rows self.now) }
    {
        self.rows.len()
    }

    /// The dots that are live.
    pub fn live_dots(&self, alloc: Global) -> Result<S, Fault>
        ensures dots { IfOk result (λ live. S.contents live ≡ live_of self.now) }
        ensures memory { IfErr result (λ fault. fault ≡ Memory) }
    {
        if let Some(dead) = &self.dead {
            let dead = dead.dots(alloc)?;
            let left = self.seen.minus(alloc, &dead)?;
            return Ok(left);
        }
        let live = dots_of(alloc, self.rows.iter())?;
        Ok(live)
    }

    /// The dots that are dead.
    pub fn dead(&self, alloc: Global) -> Result<S, Fault>
        ensures dots { IfOk result
            (λ dead. (d : Dot) → set.contains (S.contents dead) d ≡ is_dead (map.get self.now d)) }
        ensures memory { IfErr result (λ fault. fault ≡ Memory) }
    {
        if let Some(dead) = &self.dead {
            return dead.dots(alloc);
        }
        let live = self.live_dots(alloc)?;
        let dead = self.seen.minus(alloc, &live)?;
        Ok(dead)
    }

    /// A number up to which the dots of a replica after the given one are live, found by runs. `None` where the dead
    /// dots aren't kept, as they are once the lives are indexed.
    pub fn live_until(&self, dot: Dot) -> Option<u64>
        ensures from { IfSome result (λ until. dot.seq ≤ until) }
        ensures live { IfSome result (λ until. (n : ℕ) → dot.seq < n → n ≤ until
            → is_some (entry_of (map.get self.now (dot_of dot.replica n))) ≡ true) }
    {
        match &self.dead {
            Some(dead) => Some(has_until(&self.seen, dot).min(dead.lacks_until(dot))),
            None => None,
        }
    }

    /// Copies of the rows of live dots that are dead in the other lives, in the order of the dots. They are found by
    /// the other's seen dots: that costs a search for each run of these, and for each live dot here that the other
    /// has seen.
    pub fn rows_dead_in(&self, alloc: Global, other: &Lives<S>) -> Result<Vec<(Dot, Entry)>, Fault>
        ensures ok { IfOk result
            (λ rows. rows.items ≡ filter (λ r. is_dead (map.get other.now r.0)) (live_rows self.now)) }
        ensures memory { IfErr result (λ fault. fault ≡ Memory) }
    {
        let rows = rows_gone(alloc, self.live(), &other.seen, &other.rows)?;
        Ok(rows)
    }

    /// Equal lives with memory of their own, their live dots in a list. Where no dot was seen, they
    /// take none.
    pub fn copy(&self, alloc: Global) -> Result<Lives<S>, Fault>
        ensures ok { IfOk result (λ lives. lives ≡ self.now) }
        ensures memory { IfErr result (λ fault. fault ≡ Memory) }
        ensures nothing { map.len self.now ≡ 0 → IsOk result }
    {
        if self.seen.count() == 0 {
            return Ok(Lives::empty(alloc));
        }
        Ok(Lives {
            seen: self.seen.copy(alloc)?,
            rows: self.rows.copy(alloc)?,
            dead: None,
        })
    }
}

impl<S: DotSet> Lives<S> {
    /// Moves the live dots with their entries into a map, and keeps the dead dots. From then on, to make
    /// a dot live or dead costs a search, where a list has to move all that come after the dot.
    pub fn index(&mut self) -> Result<(), Fault>
        ensures same { self.new ≡ self.old }
        ensures memory { IfErr result (λ fault. fault ≡ Memory) }
    {
        self.rows.index()?;
        self.keep_dead()
    }

    /// Keeps the dead dots from now on.
    fn keep_dead(&mut self) -> Result<(), Fault>
        ensures same { self.new ≡ self.old }
        ensures memory { IfErr result (λ fault. fault ≡ Memory) }
    {
        if self.dead.is_some() {
            return Ok(());
        }
        let alloc = self.rows.alloc();
        let dead = self.dead(alloc)?;
        self.dead = Some(DeadDots::of(alloc, dead));
        Ok(())
    }

    /// Makes an unseen dot live.
    pub fn put_live(&mut self, dot: Dot, entry: Entry) -> Result<(), Fault>
        requires dot { is_dot dot ≡ true }
        requires unseen { map.get self.old dot ≡ None }
        ensures ok { OnOk result (self.new ≡ map.insert self.old dot (Live entry)) }
        ensures err { OnErr result (self.new ≡ self.old) }
        ensures memory { IfErr result (λ fault. fault ≡ Memory) }
    {
        self.rows.insert(dot, entry)?;
        if let Err(fault) = insert_dot(&mut self.seen, dot) {
            self.rows.remove(dot);
            return Err(fault);
        }
        Ok(())
    }

    /// Makes a dot dead, for good. Can't fail where the dot isn't unseen: lack of memory does no harm
    /// there.
    pub fn kill(&mut self, dot: Dot) -> Result<(), Fault>
        requires { is_dot dot ≡ true }
        ensures ok { OnOk result (self.new ≡ map.insert self.old dot Dead) }
        ensures err { OnErr result (self.new ≡ self.old) }
        ensures memory { IfErr result (λ fault. fault ≡ Memory) }
        ensures seen { map.contains_key self.old dot ≡ true → IsOk result }
    {
        if self.seen.contains(dot) {
            self.rows.remove(dot);
            self.dead = with_dot(self.dead.take(), self.rows.alloc(), dot);
            return Ok(());
        }
        insert_dot(&mut self.seen, dot)?;
        self.dead = with_dot(self.dead.take(), self.rows.alloc(), dot);
        Ok(())
    }

    /// Makes the live dots that are chosen dead, in place and without memory, and says how many
    /// there were.
    pub fn kill_chosen<C: Choice>(&mut self, choice: &C) -> u64
        ensures lives { (d : Dot) → map.get self.new d ≡ killed_by (C.chosen choice.now) d (map.get self.old d) }
        ensures killed { result ≡ count_by (λ r. C.chosen choice.now r.0 r.1) (live_rows self.old) }
    {
        self.dead = None;
        self.rows.remove_chosen(choice)
    }

    /// Makes a dot dead if it is live. Want of memory does no harm.
    pub fn kill_live(&mut self, dot: Dot)
        ensures { (d : Dot) → map.get self.new d ≡ killed_by (is_the dot) d (map.get self.old d) }
    {
        if !self.seen.contains(dot) {
            return;
        }
        let alloc = self.rows.alloc();
        self.rows.remove(dot);
        self.dead = with_dot(self.dead.take(), alloc, dot);
    }

    /// Makes the live dots dead that were found, but the one that is to stay, and says how many there
    /// were. Want of memory does no harm.
    pub fn kill_found<F: Found>(&mut self, found: &F, but: Option<Dot>) -> u64
        ensures lives { (d : Dot)
            → map.get self.new d ≡ killed_by (but_for but (F.found found.now)) d (map.get self.old d) }
        ensures killed { result ≡ count_by (λ r. but_for but (F.found found.now) r.0 r.1) (live_rows self.old) }
    {
        let before = self.live_len();
        found.kill_in(self, but);
        (before - self.live_len()) as u64
    }

    /// The least dot that is live in both with different entries: where there is one, the two don't
    /// come from one history, and have no join.
    pub fn conflict(&self, other: &Lives<S>) -> Option<Dot>
        ensures { Conflicts self.now other.now result }
    {
        self.rows.clash(&other.rows)
    }

    /// Joins the other's lives into these, as `joined` says, and refuses as it does. Others of which no
    /// dot was seen take no memory. Lives that are indexed are joined in place and stay indexed: that
    /// copies the entries that are new here, not those that they had. Without an index, the live dots
    /// then stand in a list.
    pub fn merge(&mut self, other: &Lives<S>) -> Result<(), Fault>
        ensures ok { OnOk result (IsJoin self.old other.now self.new) }
        ensures least { OnOk result (IsLeastAbove self.old other.now self.new) }
        ensures gives { MergeGives self.old other.now result }
        ensures nothing { map.len other.now ≡ 0 → IsOk result }
        ensures err { OnErr result (self.new ≡ self.old) }
    {
        self.check_join(other)?;
        self.merge_compatible(other)
    }

    /// Joins the other's lives into these as `merge` does, where they are known to have a join.
    pub fn merge_compatible(&mut self, other: &Lives<S>) -> Result<(), Fault>
        requires compatible { LivesAreCompatible self.old other.now }
        ensures ok { OnOk result (IsJoin self.old other.now self.new) }
        ensures least { OnOk result (IsLeastAbove self.old other.now self.new) }
        ensures memory { IfErr result (λ fault. fault ≡ Memory) }
        ensures nothing { map.len other.now ≡ 0 → IsOk result }
        ensures err { OnErr result (self.new ≡ self.old) }
    {
        if other.seen.count() == 0 {
            return Ok(());
        }
        let seen = self.seen.union(self.rows.alloc(), &other.seen)?;
        self.rows.join_in(&self.seen, &other.seen, &other.rows)?;
        self.seen = seen;
        self.dead = other.add_dead(self.rows.alloc(), self.dead.take());
        Ok(())
    }

    /// Dead dots with those of these lives. Where memory ends, they are kept no more.
    fn add_dead(&self, alloc: Global, dead: Option<DeadDots<S>>) -> Option<DeadDots<S>>
        ensures { HasMore (λ d. is_dead (map.get self.now d)) dead result }
    {
        if dead.is_none() {
            return None;
        }
        match self.dead(alloc) {
            Ok(own) => with_dots(dead, alloc, &own),
            Err(_) => None,
        }
    }

    /// The join of both: each dot has the later of its two lives, so that what is dead in one is
    /// dead. The join is the least above both (Shapiro, Preguiça, Baquero, Zawirski 2011). Refuses a
    /// `Conflict`, which names the least dot that is live in both with different entries.
    pub fn joined(&self, alloc: Global, other: &Lives<S>) -> Result<Lives<S>, Fault>
        ensures ok { IfOk result (IsJoin self.now other.now) }
        ensures least { IfOk result (IsLeastAbove self.now other.now) }
        ensures gives { MergeGives self.now other.now result }
    {
        self.check_join(other)?;
        let seen = self.seen.union(alloc, &other.seen)?;
        let rows = self
            .rows
            .joined(alloc, &self.seen, &other.seen, &other.rows)?;
        Ok(Lives {
            seen,
            rows,
            dead: None,
        })
    }

    /// Refuses lives that have no join.
    fn check_join(&self, other: &Lives<S>) -> Result<(), Fault>
        ensures gives { MergeGives self.now other.now result }
        ensures nothing { map.len other.now ≡ 0 → IsOk result }
    {
        if let Some(dot) = self.conflict(other) {
            return Err(Fault::Conflict {
                replica: dot.replica,
                seq: dot.seq,
            });
        }
        Ok(())
    }
}
