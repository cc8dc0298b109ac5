//! A counted place.
ghost use Rattle.std.specs.Prelude.{◌≡◌, true, IfErr, OnOk, OnErr};
ghost use Rattle.std.specs.Io.KnownBytes.{Keeps};
ghost use Rattle.rds_names.specs.declared.fault.Fault.TheVariants.{Device};
ghost use Rattle.rds_keep.specs.Counted.{one_more};

use super::Counted;
use crate::place::Place;
use rds_names::Fault;

impl<P: Place> Counted<P> {
    /// Makes the place synced. Whatever that fails by is `Device`.
    pub fn sync(&mut self) -> Result<(), Fault>
        ensures synced { OnOk result (P.synced self.new.inner ≡ true) }
        ensures bytes { Keeps (P.contents self.old.inner) (P.contents self.new.inner) }
        ensures fault { IfErr result (λ e. e ≡ Device) }
        ensures steady { OnOk result (self.new.failed ≡ self.old.failed) }
        ensures counted { OnErr result (self.new.failed ≡ one_more self.old.failed) }
        ensures budget { self.new.budget ≡ self.old.budget }
        ensures left { self.new.left ≡ self.old.left }
        ensures renamed { self.new.renamed ≡ self.old.renamed }
    {
        match self.inner.sync() {
            Ok(()) => Ok(()),
            Err(_) => Err(self.fail()),
        }
    }

    /// Makes the place renamed. Its caller gives a place that was synced and not written to since.
    /// Whatever that fails by is `Device`.
    pub fn rename(&mut self) -> Result<(), Fault>
        requires { P.synced self.old.inner ≡ true }
        ensures place { OnOk result (P.renamed self.new.inner ≡ true) }
        ensures renamed { OnOk result (self.new.renamed ≡ true) }
        ensures kept { OnErr result (self.new.renamed ≡ self.old.renamed) }
        ensures bytes { Keeps (P.contents self.old.inner) (P.contents self.new.inner) }
        ensures fault { IfErr result (λ e. e ≡ Device) }
        ensures steady { OnOk result (self.new.failed ≡ self.old.failed) }
        ensures counted { OnErr result (self.new.failed ≡ one_more self.old.failed) }
        ensures budget { self.new.budget ≡ self.old.budget }
        ensures left { self.new.left ≡ self.old.left }
    {
        match self.inner.rename() {
            Ok(()) => {
                self.renamed = true;
                Ok(())
            }
            Err(_) => Err(self.fail()),
        }
    }
}
