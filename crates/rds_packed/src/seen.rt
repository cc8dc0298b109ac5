//! A set of dots in few bytes, which is read gap by gap.
ghost use Rattle.std.specs.Prelude.{◌≡◌, ℕ, List, [], Result, Ok, IfErr, OnOk, ◌≤◌};
ghost use Rattle.rds_names.specs.declared.fault.Fault.{Fault};
ghost use Rattle.rds_names.specs.declared.fault.Fault.TheVariants.{Memory};
ghost use Rattle.rds_bytes.specs.RowDots.{first_after_gap, run_before};
ghost use Rattle.rds_feeds.specs.Chained.{then_finish};
ghost use Rattle.rds_feeds.specs.Parts.{makes};
ghost use Rattle.rds_feeds.specs.SeenDots.{with_runs, begin_row, add_gap, whole_row};
ghost use Rattle.rds_packed.specs.GoOn.{few_rows};
ghost use Rattle.rds_packed.specs.SeenReading.{packed_gap_at, packed_head_at, packed_dots_at};
ghost use Rattle.rds_packed.specs.SeenRows.{packed_gaps_of, next_packed_row};
ghost use Rattle.rds_packed.specs.SeenSteady.{packed_gap_steady, packed_head_steady};

use crate::gaps::{read_gap, read_row_head};
use rds_bytes::{Gap, RowHead};
use rds_dots::{DotSet, MAX_SEQ, Run};
use rds_feeds::{
    Following, Gathering, Made, Making, Many, Once, Part, Progress, Repeating, SeenDots, Then,
    Unfinished, UnfinishedPacked, unfinished_packed,
};
use rds_names::Fault;
use std::alloc::Global;
use std::marker::Model;

/// The dots of whole rows of so many replicas, and from which replica on the next one may be.
#[derive(Drop)]
pub struct RowsSoFar<S: DotSet> {
    replicas: u16,
    least: u16,
    seen: S,
}

impl<S: DotSet> Model for RowsSoFar<S> {
    ghost use Rattle.rds_feeds.specs.SeenDots.{RowsValue, coded_rows};

    ghost Value = { RowsValue };

    ghost coded = { coded_rows };

    ghost view = { λ r. record { replicas = r.replicas; least = r.least; seen = S.contents r.seen } };
}

/// The dots of whole rows, with those of a row up to the last gap of it that was read.
#[derive(Drop)]
pub struct GapsSoFar<S: DotSet> {
    replicas: u16,
    replica: u8,
    top: u64,
    before: Option<Gap>,
    seen: S,
}

impl<S: DotSet> Model for GapsSoFar<S> {
    ghost use Rattle.rds_feeds.specs.SeenDots.{GapsValue, IsBelowTop, coded_gaps};

    ghost Value = { GapsValue };

    ghost coded = { coded_gaps };

    ghost view = { λ g. record {
      replicas = g.replicas;
      replica = g.replica;
      top = g.top;
      before = g.before;
      seen = S.contents g.seen;
    } };

    ghost invariant = { λ g. IsBelowTop (record {
      replicas = g.replicas;
      replica = g.replica;
      top = g.top;
      before = g.before;
      seen = S.contents g.seen;
    }) };
}

impl<S: DotSet> Part for RowsSoFar<S> {
    type Read = RowHead;

    type Whole = (u32, GapsSoFar<S>);

    ghost reader = { λ r. packed_head_at r.replicas r.least };

    ghost made = { begin_row };

    fn read<'a>(&self, _alloc: Global, bytes: &'a [u8]) -> Result<(RowHead, &'a [u8]), Fault> {
        let (head, rest) = read_row_head(self.replicas, self.least, bytes)?;
        Ok((head, rest))
    }

    fn make(self, part: RowHead) -> Result<(u32, GapsSoFar<S>), Fault> {
        let RowsSoFar {
            replicas,
            least: _,
            seen,
        } = self;
        let begun = GapsSoFar {
            replicas,
            replica: part.replica,
            top: part.top,
            before: None,
            seen,
        };
        Ok((part.gaps, begun))
    }

    ghost steady = { λ r. packed_head_steady r.replicas r.least };
}

/// The number at which the dots after a gap begin.
fn first_after(before: Option<Gap>) -> u64
    requires { first_after_gap before ≤ MAX_SEQ }
    ensures { result ≡ first_after_gap before }
{
    match before {
        Some(gap) => gap.hi + 1,
        None => 1,
    }
}

/// Puts the numbers from a least one on, before a gap, into the set.
fn insert_before<S: DotSet>(seen: &mut S, replica: u8, least: u64, lo: u64) -> Result<(), Fault>
    requires from_one { 1 ≤ least }
    requires within { lo ≤ MAX_SEQ }
    ensures ok { OnOk result (S.contents seen.new ≡ with_runs (run_before replica least lo []) (S.contents seen.old)) }
    ensures memory { IfErr result (λ fault. fault ≡ Memory) }
{
    if least < lo {
        seen.insert_run(Run {
            replica,
            lo: least,
            hi: lo - 1,
        })?;
    }
    Ok(())
}

impl<S: DotSet> Part for GapsSoFar<S> {
    type Read = Gap;

    type Whole = GapsSoFar<S>;

    ghost reader = { λ g. packed_gap_at g.top g.before };

    ghost made = { add_gap };

    fn read<'a>(&self, _alloc: Global, bytes: &'a [u8]) -> Result<(Gap, &'a [u8]), Fault> {
        let (gap, rest) = read_gap(self.top, self.before, bytes)?;
        Ok((gap, rest))
    }

    fn make(self, part: Gap) -> Result<GapsSoFar<S>, Fault> {
        let mut whole = self;
        whole.add(part, 0, 0)?;
        Ok(whole)
    }

    ghost steady = { λ g. packed_gap_steady g.top g.before };
}

impl<S: DotSet> Gathering for GapsSoFar<S> {
    fn add(&mut self, part: Gap, _coming: u32, _bytes: usize) -> Result<(), Fault> {
        insert_before(
            &mut self.seen,
            self.replica,
            first_after(self.before),
            part.lo,
        )?;
        self.before = Some(part);
        Ok(())
    }
}

type GapsToRead<S> = Many<Once<GapsSoFar<S>>, GapsSoFar<S>>;

/// The gaps of a row that is begun.
#[derive(Drop)]
pub struct GapsFollow {}

impl<S: DotSet> Following<(u32, GapsSoFar<S>)> for GapsFollow {
    type Next = GapsToRead<S>;

    ghost after = { λ _ first. packed_gaps_of first };

    fn start(self, _alloc: Global, first: (u32, GapsSoFar<S>)) -> Result<GapsToRead<S>, Fault> {
        let (left, gaps) = first;
        Ok(Many::Rows(left, gaps))
    }
}

/// The dots after the last gap of a row.
#[derive(Drop)]
pub struct RowEnds {}

impl<S: DotSet> Making<GapsSoFar<S>> for RowEnds {
    type Made = RowsSoFar<S>;

    ghost made = { λ _ g. whole_row g };

    fn make(self, whole: GapsSoFar<S>) -> Result<RowsSoFar<S>, Fault> {
        let GapsSoFar {
            replicas,
            replica,
            top,
            before,
            mut seen,
        } = whole;
        seen.insert_run(Run {
            replica,
            lo: first_after(before),
            hi: top,
        })?;
        Ok(RowsSoFar {
            replicas,
            least: u16::from(replica) + 1,
            seen,
        })
    }
}

type RowParts<S> = Made<Then<Once<RowsSoFar<S>>, GapsFollow, GapsToRead<S>>, RowEnds>;

/// A row: its replica and top, and then its gaps.
#[derive(Drop)]
pub struct UnfinishedRow<S: DotSet> {
    parts: RowParts<S>,
}

impl<S: DotSet> Unfinished for UnfinishedRow<S> {
    type Whole = RowsSoFar<S>;

    ghost finish = { λ u. ⟦<RowParts<S> as Unfinished>⟧.finish u.parts };

    fn read_on<'a>(
        self,
        alloc: Global,
        bytes: &'a [u8],
    ) -> Result<(Progress<Self, RowsSoFar<S>>, &'a [u8]), Fault> {
        let (progress, rest) = self.parts.read_on(alloc, bytes)?;
        match progress {
            Progress::More(parts) => Ok((Progress::More(UnfinishedRow { parts }), rest)),
            Progress::Whole(rows) => Ok((Progress::Whole(rows), rest)),
        }
    }
}

impl<S: DotSet> Repeating for UnfinishedRow<S> {
    ghost next = { next_packed_row };

    fn again(rows: RowsSoFar<S>) -> UnfinishedRow<S> {
        UnfinishedRow {
            parts: Made {
                from: Then::First(Once { part: rows }, GapsFollow {}),
                maker: RowEnds {},
            },
        }
    }

    fn read_next<'a>(
        _rows: &mut RowsSoFar<S>,
        _alloc: Global,
        _coming: u32,
        _bytes: &'a [u8],
    ) -> Result<Option<&'a [u8]>, Fault> {
        Ok(None)
    }
}

type RowsToRead<S> = Many<UnfinishedRow<S>, RowsSoFar<S>>;

/// The rows that follow their number.
#[derive(Drop)]
pub struct RowsFollow<S: DotSet> {
    rows: RowsSoFar<S>,
}

impl<S: DotSet> Following<u64> for RowsFollow<S> {
    type Next = RowsToRead<S>;

    ghost after = { λ f count. few_rows ⟦<RowsToRead<S> as Unfinished>⟧.finish f.rows count };

    fn start(self, _alloc: Global, first: u64) -> Result<RowsToRead<S>, Fault> {
        if first > u64::from(u32::MAX) {
            return Err(Fault::Bad);
        }
        let RowsFollow { rows } = self;
        Ok(Many::Rows(first as u32, rows))
    }
}

/// The set that has the dots of all rows.
#[derive(Drop)]
pub struct RowsEnd {}

impl<S: DotSet> Making<RowsSoFar<S>> for RowsEnd {
    type Made = SeenDots<S>;

    ghost made = { λ _ r. Ok r.seen };

    fn make(self, whole: RowsSoFar<S>) -> Result<SeenDots<S>, Fault> {
        let RowsSoFar {
            replicas: _,
            least: _,
            seen,
        } = whole;
        Ok(SeenDots { dots: seen })
    }
}

type DotsParts<S> = Made<Then<UnfinishedPacked, RowsFollow<S>, RowsToRead<S>>, RowsEnd>;

/// A set of dots that is being read. However many gaps a row has, no more than one is held.
#[derive(Drop)]
pub struct UnfinishedPackedDots<S: DotSet> {
    parts: DotsParts<S>,
}

impl<S: DotSet> Unfinished for UnfinishedPackedDots<S> {
    type Whole = SeenDots<S>;

    ghost finish = { λ u. makes (then_finish ⟦<UnfinishedPacked as Unfinished>⟧.finish
        (λ f count. few_rows ⟦<RowsToRead<S> as Unfinished>⟧.finish f.rows count)
        ⟦<RowsToRead<S> as Unfinished>⟧.finish u.parts.from) (λ r. Ok r.seen) };

    fn read_on<'a>(
        self,
        alloc: Global,
        bytes: &'a [u8],
    ) -> Result<(Progress<Self, SeenDots<S>>, &'a [u8]), Fault> {
        let (progress, rest) = self.parts.read_on(alloc, bytes)?;
        match progress {
            Progress::More(parts) => Ok((Progress::More(UnfinishedPackedDots { parts }), rest)),
            Progress::Whole(dots) => Ok((Progress::Whole(dots), rest)),
        }
    }
}

/// A set of dots of so many replicas, of which nothing was read.
pub fn unfinished_packed_dots<S: DotSet>(alloc: Global, replicas: u16) -> UnfinishedPackedDots<S>
    ensures { (bytes : List ℕ) → ⟦<UnfinishedPackedDots<S> as Unfinished>⟧.finish result bytes
        ≡ packed_dots_at replicas bytes }
{
    let rows = RowsSoFar {
        replicas,
        least: 0,
        seen: S::empty(alloc),
    };
    UnfinishedPackedDots {
        parts: Made {
            from: Then::First(unfinished_packed(), RowsFollow { rows }),
            maker: RowsEnd {},
        },
    }
}
