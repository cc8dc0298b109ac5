//! A reader or a writer, with a count of the calls on it that failed. Only what stands here and in the modules
//! below can raise the count; `reading` and `writing`, which make calls one after the other, can't.
ghost use Rattle.std.specs.Prelude.{◌≡◌, ◌-◌, ◌<◌, ◌≤◌, false, length, IfOk, IfErr, OnOk, OnErr};
ghost use Rattle.std.specs.Io.KnownBytes.{ReadConsumes, WriteAppends};
ghost use Rattle.rds_names.specs.declared.fault.Fault.TheVariants.{Device};
ghost use Rattle.rds_keep.specs.Counted.{one_more};

mod places;
mod shown;

use rds_names::Fault;
use std::io::{Read, Write};
use std::marker::Model;

/// How many reads a loop may make where nothing else is said.
const BUDGET: u64 = 2_147_483_648;

/// A reader, a writer or a place. It counts the calls on it that failed, and has a budget of the reads that a
/// loop over it makes: one more counts as a call that failed. Nothing else makes the count rise. A full
/// count stays, and is to be taken as risen. It also tells whether a rename through it was made.
#[derive(Drop)]
pub struct Counted<T> {
    inner: T,
    failed: u64,
    budget: u64,
    left: u64,
    renamed: bool,
}

impl<T> Model for Counted<T> {
    ghost use Rattle.rds_keep.specs.Counted.{CountedValue, counted_code};

    ghost Value = { CountedValue T };

    ghost coded = { counted_code T.code };

    ghost view = { λ c. record {
      inner = c.inner;
      failed = c.failed;
      budget = c.budget;
      left = c.left;
      renamed = c.renamed;
    } };
}

impl<T> Counted<T> {
    /// Counts from 0, with the usual budget: 2,147,483,648.
    pub fn new(inner: T) -> Counted<T>
        ensures { result
            ≡ record { inner = inner; failed = 0; budget = 2147483648; left = 2147483648; renamed = false } }
    {
        Counted::with_budget(inner, BUDGET)
    }

    /// Counts from 0, with this budget.
    pub fn with_budget(inner: T, budget: u64) -> Counted<T>
        ensures { result ≡ record { inner = inner; failed = 0; budget = budget; left = budget; renamed = false } }
    {
        Counted {
            inner,
            failed: 0,
            budget,
            left: budget,
            renamed: false,
        }
    }

    /// How many calls failed.
    pub fn failed(&self) -> u64
        ensures { result ≡ self.now.failed }
    {
        self.failed
    }

    /// How many reads a loop may make.
    pub fn budget(&self) -> u64
        ensures { result ≡ self.now.budget }
    {
        self.budget
    }

    /// Whether a rename through it was made. No other call changes that.
    pub fn renamed(&self) -> bool
        ensures { result ≡ self.now.renamed }
    {
        self.renamed
    }

    /// A loop of reads begins: from here on it may make as many as the bound says.
    pub fn renew_budget(&mut self)
        ensures { self.new ≡ record self.old { left = self.old.budget } }
    {
        self.left = self.budget;
    }

    // Counts a failure, and names its fault.
    fn fail(&mut self) -> Fault
        ensures fault { result ≡ Device }
        ensures counted { self.new ≡ record self.old { failed = one_more self.old.failed } }
    {
        self.failed = self.failed.saturating_add(1);
        Fault::Device
    }
}

impl<R: Read> Counted<R> {
    /// One call of the reader's `read`, which takes a turn. Whatever it fails by is `Device`, and so is
    /// a read for which no turn is left: then the reader isn't called.
    pub fn read(&mut self, buf: &mut [u8]) -> Result<usize, Fault>
        ensures bound { IfOk result (λ n. n ≤ length buf.new) }
        ensures bytes { ReadConsumes (R.remaining self.old.inner) (R.remaining self.new.inner)
            result buf.new }
        ensures fault { IfErr result (λ e. e ≡ Device) }
        ensures spent { self.old.left ≡ 0 → self.new.inner ≡ self.old.inner }
        ensures turn { OnOk result (0 < self.old.left) }
        ensures left { self.new.left ≡ self.old.left - 1 }
        ensures steady { OnOk result (self.new.failed ≡ self.old.failed) }
        ensures counted { OnErr result (self.new.failed ≡ one_more self.old.failed) }
        ensures budget { self.new.budget ≡ self.old.budget }
        ensures renamed { self.new.renamed ≡ self.old.renamed }
    {
        if self.left == 0 {
            return Err(self.fail());
        }
        self.left -= 1;
        match self.inner.read(buf) {
            Ok(n) => Ok(n),
            Err(_) => Err(self.fail()),
        }
    }
}

impl<W: Write> Counted<W> {
    /// One call of the writer's `write`: how many bytes it took, from the first on. Whatever it
    /// fails by is `Device`, and so is a call that takes none of the bytes that it is given.
    pub fn write(&mut self, bytes: &[u8]) -> Result<usize, Fault>
        ensures some { IfOk result (λ n. 0 < length bytes.now → 0 < n) }
        ensures bound { IfOk result (λ n. n ≤ length bytes.now) }
        ensures bytes { WriteAppends (W.contents self.old.inner) (W.contents self.new.inner)
            result bytes.now }
        ensures fault { IfErr result (λ e. e ≡ Device) }
        ensures steady { OnOk result (self.new.failed ≡ self.old.failed) }
        ensures counted { OnErr result (self.new.failed ≡ one_more self.old.failed) }
        ensures budget { self.new.budget ≡ self.old.budget }
        ensures left { self.new.left ≡ self.old.left }
        ensures renamed { self.new.renamed ≡ self.old.renamed }
    {
        match self.inner.write(bytes) {
            Ok(0) if !bytes.is_empty() => Err(self.fail()),
            Ok(n) => Ok(n),
            Err(_) => Err(self.fail()),
        }
    }
}
