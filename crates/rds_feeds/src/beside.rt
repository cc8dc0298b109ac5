//! A value that stands beside the one that is read.
ghost use Rattle.std.specs.Prelude.{◌≡◌, ℕ, List, ◌++◌, Result, IfOk, IfErr};
ghost use Rattle.rds_names.specs.declared.fault.Fault.{Fault};
ghost use Rattle.rds_bytes.specs.Reading.{made_at, pair_at};
ghost use Rattle.rds_feeds.specs.Pieces.{ReadsOn, RefusesAlready};

use crate::then::{Following, Then};
use crate::unfinished::{Progress, Unfinished};
use rds_names::Fault;
use std::alloc::Global;

/// A value that was read before, and one that is being read.
#[derive(Drop)]
pub struct Beside<C, U> {
    pub carried: C,
    pub read: U,
}

impl<C: Drop, U: Unfinished> Unfinished for Beside<C, U> {
    type Whole = (C, U::Whole);

    ghost finish = { λ s. made_at (λ whole. (s.carried, whole)) (U.finish s.read) };

    fn read_on<'a>(
        self,
        alloc: Global,
        bytes: &'a [u8],
    ) -> Result<(Progress<Self, Self::Whole>, &'a [u8]), Fault> {
        let Beside { carried, read } = self;
        let (progress, rest) = read.read_on(alloc, bytes)?;
        match progress {
            Progress::More(read) => Ok((Progress::More(Beside { carried, read }), rest)),
            Progress::Whole(whole) => Ok((Progress::Whole((carried, whole)), rest)),
        }
    }
}

/// What is read after a value without regard to it.
#[derive(Drop)]
pub struct Also<U> {
    pub read: U,
}

impl<W: Drop, U: Unfinished> Following<W> for Also<U> {
    type Next = Beside<W, U>;

    ghost after = { λ also first. made_at (λ whole. (first, whole)) (U.finish also.read) };

    fn start(self, _alloc: Global, first: W) -> Result<Beside<W, U>, Fault> {
        Ok(Beside {
            carried: first,
            read: self.read,
        })
    }
}

/// Two values, of which the second doesn't depend on the first.
pub type Pair<A, B> = Then<A, Also<B>, Beside<<A as Unfinished>::Whole, B>>;

/// One value and then the other.
pub fn pair<A: Unfinished, B: Unfinished>(first: A, second: B) -> Pair<A, B>
    ensures { (bytes : List ℕ) → ⟦<Pair<A, B> as Unfinished>⟧.finish result bytes
        ≡ pair_at (A.finish first) (B.finish second) bytes }
{
    Then::First(first, Also { read: second })
}
