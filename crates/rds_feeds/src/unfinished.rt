//! Values that are read as their bytes come.
ghost use Rattle.std.specs.Prelude.{ℕ, List, ◌++◌, Result, IfOk, IfErr};
ghost use Rattle.rds_names.specs.declared.fault.Fault.{Fault};
ghost use Rattle.rds_feeds.specs.Pieces.{ReadsOn, RefusesAlready};

use rds_names::Fault;
use std::alloc::Global;

/// How far reading has come: more bytes are wanted, or the value is whole.
#[derive(Drop)]
pub enum Progress<U, W> {
    More(U),
    Whole(W),
}

/// A value of which a prefix was read.
///
/// It isn't told what it was read from: `finish` says what reading gives of all bytes, once the ones that it hasn't
/// taken are known.
pub trait Unfinished: Sized + Drop {
    /// The value that it becomes.
    type Whole: Drop;

    /// What reading gives, if these bytes follow those that were taken.
    ghost finish: { Self → List ℕ → Result (Self.Whole × List ℕ) Fault };

    /// Reads on as far as the bytes go, and answers those that it leaves: what is there of the next part, or what
    /// follows the value where that is whole.
    ///
    /// It is refused, but for `Memory`, only where no bytes that may follow would help.
    fn read_on<'a>(
        self,
        alloc: Global,
        bytes: &'a [u8],
    ) -> Result<(Progress<Self, Self::Whole>, &'a [u8]), Fault>
        ensures ok { IfOk result (λ x. ReadsOn Self.finish (λ more. Self.finish self (bytes.now ++ more)) x.0 x.1.now) }
        ensures err { IfErr result (RefusesAlready (λ more. Self.finish self (bytes.now ++ more))) };
}
