//! All counters of a document.
ghost use Rattle.std.specs.Prelude.{◌≡◌, ◌≢◌, ◌≤◌, ◌<◌, ◌+◌, ◌^◌, ◌↔◌, ◌⊎◌, ℕ, Err, IsTrue, IsOk, IfOk, IfErr, OnOk};
ghost use Rattle.std.specs.Prelude.{OnErr, MatchOption, max};
ghost use Rattle.std.specs.FinMap as map;
ghost use Rattle.rds_names.specs.declared.fault.Fault.TheVariants.{Memory, CounterFull};
ghost use Rattle.rds_counts.specs.Place.{Place};
ghost use Rattle.rds_counts.specs.Counted.{number, place, counts_of, AreCountRows};
ghost use Rattle.rds_counts.specs.RowsOf.{count_rows};
ghost use Rattle.rds_counts.specs.Value.{value_of};
ghost use Rattle.rds_counts.specs.declared.row.Which.{Which as WhichNumber};
ghost use Rattle.rds_counts.specs.declared.row.Which.TheVariants.{P, N};

use crate::row::{CountRow, MAX_COUNT, Which};
use crate::rows::{
    are_rows, copy_rows, find_row, merged_rows, numbers_above, pair_at, put_row, raised_pair,
    same_rows, totals,
};
use rds_names::{Fault, Key};
use std::alloc::Global;
use std::marker::Model;

/// The numbers of all keys and replicas. One that was never raised is 0.
pub struct Counts {
    rows: Vec<CountRow>,
}

impl Drop for Counts {
    fn drop(self) {
        let Counts { rows: _rows } = self;
    }
}

impl Model for Counts {
    ghost use Rattle.rds_counts.specs.Counted.{Counted, coded_counts, counts_of, AreCountRows};

    ghost Value = { Counted };

    ghost coded = { coded_counts };

    ghost view = { λ c. counts_of c.rows.items };

    ghost invariant = { λ c. AreCountRows c.rows.items };
}

impl Counts {
    /// Counters of which none was raised.
    pub fn empty(alloc: Global) -> Counts
        ensures { result ≡ map.empty }
    {
        Counts {
            rows: Vec::new(alloc),
        }
    }

    /// The counters of rows that are known to ascend by key and replica, each with a number above 0 and
    /// none above `MAX_COUNT`. Takes no memory, and tests nothing.
    pub fn with_rows(rows: Vec<CountRow>) -> Counts
        requires rows { AreCountRows rows.items }
        ensures value { result ≡ counts_of rows.items }
        ensures only { count_rows result ≡ rows.items }
    {
        Counts { rows }
    }

    /// The counters of these rows, as a text holds them. `None` where the rows don't ascend by key
    /// and replica, where both numbers of a row are 0, or where one is above `MAX_COUNT`.
    pub fn from_rows(rows: Vec<CountRow>) -> Option<Counts>
        ensures { MatchOption result (¬ (AreCountRows rows.items))
            (λ counts. AreCountRows rows.items × (counts ≡ counts_of rows.items)) }
    {
        if !are_rows(&rows) {
            return None;
        }
        Some(Counts::with_rows(rows))
    }

    /// The pairs that aren't both 0, by key, then replica.
    pub fn rows(&self) -> &[CountRow]
        ensures are_rows { AreCountRows result.now }
        ensures value { self.now ≡ counts_of result.now }
        ensures only { result.now ≡ count_rows self.now }
    {
        &self.rows
    }

    /// The allocator that the counters grow by.
    pub fn alloc(&self) -> Global {
        *self.rows.allocator()
    }

    /// The sums of a replica's increments and of its decrements under a key.
    pub fn pair(&self, key: &Key, replica: u8) -> (u64, u64)
        ensures p { result.0 ≡ number self.now (place key.now replica P) }
        ensures n { result.1 ≡ number self.now (place key.now replica N) }
        ensures within { (result.0 ≤ MAX_COUNT) × (result.1 ≤ MAX_COUNT) }
    {
        pair_at(&self.rows, find_row(&self.rows, key, replica))
    }

    /// What the counter stands at: all increments less all decrements.
    pub fn value(&self, key: &Key) -> i64
        ensures { result ≡ value_of self.now key.now }
    {
        let (p, n) = totals(&self.rows, key);
        p as i64 - n as i64
    }

    /// How many numbers are above 0.
    pub fn components(&self) -> u128
        ensures size { result ≡ map.len self.now }
        ensures few { result < 2 ^ 66 }
    {
        numbers_above(&self.rows)
    }

    /// Adds an amount to one of a replica's numbers. A sum above `MAX_COUNT` is refused
    /// (`CounterFull`). An amount of 0 is always fine and changes nothing. Takes no memory where one
    /// of the two numbers of the key and the replica is above 0 already.
    pub fn raise(&mut self, key: &Key, replica: u8, which: Which, by: u64) -> Result<(), Fault>
        ensures raised { OnOk result (number self.new (place key.now replica which)
            ≡ number self.old (place key.now replica which) + by) }
        ensures others { OnOk result ((q : Place) → ¬ (q ≡ place key.now replica which)
            → number self.new q ≡ number self.old q) }
        ensures full { (result ≡ Err CounterFull) ↔ (MAX_COUNT < number self.old (place key.now replica which) + by) }
        ensures faults { IfErr result (λ fault. (fault ≡ Memory) ⊎ (fault ≡ CounterFull)) }
        ensures nothing { by ≡ 0 → IsOk result × (self.new ≡ self.old) }
        ensures there { (some : WhichNumber) → 0 < number self.old (place key.now replica some) → result ≢ Err Memory }
        ensures err { OnErr result (self.new ≡ self.old) }
    {
        let found = find_row(&self.rows, key, replica);
        let pair = raised_pair(pair_at(&self.rows, found), which, by)?;
        if by == 0 {
            return Ok(());
        }
        put_row(&mut self.rows, found, key, replica, pair)?;
        Ok(())
    }

    /// Takes the greater of each number, which is the join of positive-negative counters (Shapiro, Preguiça, Baquero,
    /// Zawirski 2011). Others of which none was raised take no memory.
    pub fn merge(&mut self, other: &Counts) -> Result<(), Fault>
        ensures ok { OnOk result ((q : Place) → number self.new q ≡ max (number self.old q) (number other.now q)) }
        ensures memory { IfErr result (λ fault. fault ≡ Memory) }
        ensures nothing { map.len other.now ≡ 0 → IsOk result }
        ensures err { OnErr result (self.new ≡ self.old) }
    {
        if other.rows.as_slice().is_empty() {
            return Ok(());
        }
        *self = self.joined(self.alloc(), other)?;
        Ok(())
    }

    /// The greater of each number, with memory of its own.
    pub fn joined(&self, alloc: Global, other: &Counts) -> Result<Counts, Fault>
        ensures ok { IfOk result
            (λ counts. (q : Place) → number counts q ≡ max (number self.now q) (number other.now q)) }
        ensures memory { IfErr result (λ fault. fault ≡ Memory) }
    {
        let rows = merged_rows(alloc, &self.rows, &other.rows)?;
        Ok(Counts::with_rows(rows))
    }

    /// Whether all numbers are the same.
    pub fn same(&self, other: &Counts) -> bool
        ensures { IsTrue result ↔ (self.now ≡ other.now) }
    {
        same_rows(&self.rows, &other.rows)
    }

    /// Equal counters with memory of their own. Those of which none was raised take none.
    pub fn copy(&self, alloc: Global) -> Result<Counts, Fault>
        ensures ok { IfOk result (λ counts. counts ≡ self.now) }
        ensures memory { IfErr result (λ fault. fault ≡ Memory) }
        ensures nothing { map.len self.now ≡ 0 → IsOk result }
    {
        Ok(Counts {
            rows: copy_rows(alloc, &self.rows)?,
        })
    }
}
