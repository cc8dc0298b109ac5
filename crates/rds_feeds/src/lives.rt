//! Lives, whose live rows are read one by one once the seen dots are there.
ghost use Rattle.std.specs.Prelude.{◌≡◌, ℕ, List, Ok};
ghost use Rattle.rds_life.specs.Life.{AreRows, lives_of};
ghost use Rattle.rds_bytes.specs.Reading.{made_at, then_at, dots_at, live_row_at, live_rows_at};
ghost use Rattle.rds_bytes.specs.SteadyParts.{live_row_steady};
ghost use Rattle.rds_feeds.specs.LiveRows.{lives_by};
ghost use Rattle.rds_feeds.specs.Chained.{then_finish};
ghost use Rattle.rds_feeds.specs.LiveRows.{no_live_rows, live_rows_go_on};

use crate::dots::{SeenDots, UnfinishedDots, unfinished_dots};
use crate::listed::{Listed, RowReader, Rows, rows};
use crate::made::{Made, Making};
use crate::many::CountWidth;
use crate::then::{Following, Then};
use crate::unfinished::{Progress, Unfinished};
use rds_bytes::{LiveRowReader, PartReader};
use rds_dots::{Dot, DotSet};
use rds_life::Lives;
use rds_names::{Entry, Fault};
use std::alloc::Global;

/// Reads the rows of live dots, and has the set of the dots that were seen.
#[derive(Drop)]
pub struct SeenReader<S: DotSet> {
    pub seen: S,
}

impl<S: DotSet> PartReader<(Dot, Entry)> for SeenReader<S> {
    ghost reader = { λ r before. live_row_at (S.contents r.seen) before };

    fn read<'a>(
        &self,
        alloc: Global,
        before: &[(Dot, Entry)],
        bytes: &'a [u8],
    ) -> Result<((Dot, Entry), &'a [u8]), Fault> {
        LiveRowReader { seen: &self.seen }.read(alloc, before, bytes)
    }

    ghost steady = { λ r before. live_row_steady (S.contents r.seen) before };
}

impl<S: DotSet> RowReader<(Dot, Entry)> for SeenReader<S> {
    ghost are_rows = { λ r rows. AreRows (S.contents r.seen) rows };

    ghost begins = { λ r. no_live_rows (S.contents r.seen) };

    ghost goes_on = { λ r rows row are read. live_rows_go_on (S.contents r.seen) rows row are read };
}

/// The lives of rows that were read.
#[derive(Drop)]
pub struct RowsAreLives {}

impl<S: DotSet> Making<Listed<SeenReader<S>, (Dot, Entry)>> for RowsAreLives {
    type Made = Lives<S>;

    ghost made = { λ _ l. Ok (lives_of (S.contents l.0.seen) l.1) };

    fn make(self, whole: Listed<SeenReader<S>, (Dot, Entry)>) -> Result<Lives<S>, Fault> {
        let Listed { reader, rows } = whole;
        Ok(Lives::with_rows(reader.seen, rows))
    }
}

/// Lives that are being read. No more than one live row is held.
pub type UnfinishedLives<S> = Made<Rows<SeenReader<S>, (Dot, Entry)>, RowsAreLives>;

/// The lives of the dots that were seen, of which no live row was read.
pub fn unfinished_lives<S: DotSet>(alloc: Global, seen: S) -> UnfinishedLives<S>
    ensures { (bytes : List ℕ) → ⟦<UnfinishedLives<S> as Unfinished>⟧.finish result bytes
        ≡ made_at (lives_of (S.contents seen)) (live_rows_at (S.contents seen)) bytes }
{
    let from = rows(alloc, CountWidth::Four, SeenReader { seen });
    Made {
        from,
        maker: RowsAreLives {},
    }
}

/// The live rows after a set of seen dots.
#[derive(Drop)]
pub struct LivesFollow {}

impl<S: DotSet> Following<SeenDots<S>> for LivesFollow {
    type Next = UnfinishedLives<S>;

    ghost after = { λ _ seen. made_at (lives_of seen) (live_rows_at seen) };

    fn start(self, alloc: Global, first: SeenDots<S>) -> Result<UnfinishedLives<S>, Fault> {
        Ok(unfinished_lives(alloc, first.into_set()))
    }
}

type SeenParts<S> = Then<UnfinishedDots<S>, LivesFollow, UnfinishedLives<S>>;

/// The dots that were seen and then the live rows, which are being read.
#[derive(Drop)]
pub struct UnfinishedSeen<S: DotSet> {
    parts: SeenParts<S>,
}

impl<S: DotSet> Unfinished for UnfinishedSeen<S> {
    type Whole = Lives<S>;

    ghost finish = { λ u. then_finish ⟦<UnfinishedDots<S> as Unfinished>⟧.finish
        (λ _ seen. made_at (lives_of seen) (live_rows_at seen)) ⟦<UnfinishedLives<S> as Unfinished>⟧.finish u.parts };

    fn read_on<'a>(
        self,
        alloc: Global,
        bytes: &'a [u8],
    ) -> Result<(Progress<Self, Lives<S>>, &'a [u8]), Fault> {
        let (progress, rest) = self.parts.read_on(alloc, bytes)?;
        match progress {
            Progress::More(parts) => Ok((Progress::More(UnfinishedSeen { parts }), rest)),
            Progress::Whole(lives) => Ok((Progress::Whole(lives), rest)),
        }
    }
}

/// The lives of dots of so many replicas, of which nothing was read.
pub fn unfinished_seen<S: DotSet>(alloc: Global, replicas: u16) -> UnfinishedSeen<S>
    ensures { (bytes : List ℕ) → ⟦<UnfinishedSeen<S> as Unfinished>⟧.finish result bytes
        ≡ made_at lives_by (then_at (dots_at replicas) live_rows_at) bytes }
{
    let parts = Then::First(unfinished_dots(alloc, replicas), LivesFollow {});
    UnfinishedSeen { parts }
}
