//! One value after another.
ghost use Rattle.std.specs.Prelude.{◌≡◌, ℕ, List, ◌++◌, Result, IfOk, IfErr};
ghost use Rattle.rds_names.specs.declared.fault.Fault.{Fault};
ghost use Rattle.rds_feeds.specs.Pieces.{ReadsOn, RefusesAlready};
ghost use Rattle.rds_feeds.specs.Chained.{then_finish};

use crate::unfinished::{Progress, Unfinished};
use rds_names::Fault;
use std::alloc::Global;

/// What begins once another value is whole.
pub trait Following<W>: Sized + Drop {
    type Next: Unfinished;

    // How what follows is read.
    ghost after: { Self → W → List ℕ → Result (Self.Next.Whole × List ℕ) Fault };

    fn start(self, alloc: Global, first: W) -> Result<Self::Next, Fault>
        ensures ok { IfOk result (λ b. (more : List ℕ) → Self.after self first more ≡ Self.Next.finish b more) }
        ensures err { IfErr result (RefusesAlready (Self.after self first)) };
}

/// A value, and then another that is made from it.
#[derive(Drop)]
pub enum Then<A, M, B> {
    First(A, M),
    Second(B),
}

/// Reads on what was begun.
fn read_second<'a, A: Unfinished, M: Following<A::Whole>>(
    alloc: Global,
    second: M::Next,
    bytes: &'a [u8],
) -> Result<
    (
        Progress<Then<A, M, M::Next>, <M::Next as Unfinished>::Whole>,
        &'a [u8],
    ),
    Fault,
>
    ensures ok { IfOk result (λ x. ReadsOn (then_finish A.finish M.after M.Next.finish)
        (λ more. M.Next.finish second (bytes.now ++ more)) x.0 x.1.now) }
    ensures err { IfErr result (RefusesAlready (λ more. M.Next.finish second (bytes.now ++ more))) }
{
    let (progress, rest) = second.read_on(alloc, bytes)?;
    match progress {
        Progress::More(b) => Ok((Progress::More(Then::Second(b)), rest)),
        Progress::Whole(b) => Ok((Progress::Whole(b), rest)),
    }
}

impl<A: Unfinished, M: Following<A::Whole>> Unfinished for Then<A, M, M::Next> {
    type Whole = <M::Next as Unfinished>::Whole;

    ghost finish = { then_finish A.finish M.after M.Next.finish };

    fn read_on<'a>(
        self,
        alloc: Global,
        bytes: &'a [u8],
    ) -> Result<(Progress<Self, Self::Whole>, &'a [u8]), Fault> {
        match self {
            Then::First(a, m) => {
                let (progress, rest) = a.read_on(alloc, bytes)?;
                match progress {
                    Progress::More(a) => Ok((Progress::More(Then::First(a, m)), rest)),
                    Progress::Whole(a) => {
                        let second = m.start(alloc, a)?;
                        read_second(alloc, second, rest)
                    }
                }
            }
            Then::Second(second) => read_second(alloc, second, bytes),
        }
    }
}
