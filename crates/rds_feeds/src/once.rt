//! One part, which is held until it is there as a whole.
ghost use Rattle.std.specs.Prelude.{◌≡◌, ℕ, List, ◌++◌, Result, IfOk, IfErr, OnOk};
ghost use Rattle.rds_names.specs.declared.fault.Fault.{Fault};
ghost use Rattle.rds_names.specs.declared.fault.Fault.TheVariants.{Memory};
ghost use Rattle.rds_bytes.specs.Reading.{Reads, made_at};
ghost use Rattle.rds_feeds.specs.Pieces.{ReadsOn, RefusesAlready};
ghost use Rattle.rds_feeds.specs.Parts.{WasRead};
ghost use Rattle.rds_bytes.specs.Steady.{IsSteady};

use crate::unfinished::{Progress, Unfinished};
use rds_names::Fault;
use std::alloc::Global;

/// What a part is read for, and what is made of both.
pub trait Part: Sized + Drop {
    /// The part.
    type Read: Drop;
    /// What is made of it.
    type Whole: Drop;

    /// How the part is read.
    ghost reader: { Self → List ℕ → Result (Self.Read × List ℕ) Fault };

    /// What is made of it.
    ghost made: { Self → Self.Read → Self.Whole };

    /// The part, and the bytes after it; or the fault of one that is cut or bad.
    fn read<'a>(&self, alloc: Global, bytes: &'a [u8]) -> Result<(Self::Read, &'a [u8]), Fault>
        ensures { Reads (λ x. (x.0, x.1.now)) result (reader self.now bytes.now) };

    /// What is made of a part that was read. Only memory may be wanting.
    fn make(self, part: Self::Read) -> Result<Self::Whole, Fault>
        requires { WasRead (reader self) part }
        ensures ok { IfOk result (λ whole. whole ≡ made self part) }
        ensures memory { IfErr result (λ fault. fault ≡ Memory) };

    /// More bytes change neither what was read nor that nothing can be.
    ghost steady: { (part : Self) → IsSteady (reader part) };
}

/// What parts are added to in its place, one after the other.
pub trait Gathering: Part<Whole = Self> {
    /// Adds a part that was read. At most so many more come, from so many bytes that are at hand. Only memory may be
    /// wanting.
    fn add(&mut self, part: Self::Read, coming: u32, bytes: usize) -> Result<(), Fault>
        requires { WasRead (Self.reader self.old) part }
        ensures ok { OnOk result (self.new ≡ Self.made self.old part) }
        ensures memory { IfErr result (λ fault. fault ≡ Memory) };
}

/// One part.
#[derive(Drop)]
pub struct Once<P> {
    pub part: P,
}

impl<P: Part> Unfinished for Once<P> {
    type Whole = P::Whole;

    ghost finish = { λ once. made_at (P.made once.part) (P.reader once.part) };

    fn read_on<'a>(
        self,
        alloc: Global,
        bytes: &'a [u8],
    ) -> Result<(Progress<Self, Self::Whole>, &'a [u8]), Fault> {
        match self.part.read(alloc, bytes) {
            Ok((read, rest)) => {
                let whole = self.part.make(read)?;
                Ok((Progress::Whole(whole), rest))
            }
            Err(fault) => match fault {
                Fault::Cut => Ok((Progress::More(self), bytes)),
                fault => Err(fault),
            },
        }
    }
}
