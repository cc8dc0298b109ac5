//! A replica that is kept outside memory.
ghost use Rattle.std.specs.Prelude.{◌≡◌};
ghost use Rattle.rds_keep.specs.Kept.{IsKept};

use rds_dots::DotSet;
use rds_state::Replica;
use std::marker::Model;

/// A replica whose snapshot was written whole or read whole: what a start of the program finds again.
/// Only `write_snapshot`, `read_snapshot` and `keep_in` make one, and nothing changes it.
#[derive(Drop)]
pub struct Kept<S: DotSet> {
    replica: Replica<S>,
}

impl<S: DotSet> Model for Kept<S> {
    ghost use Rattle.rds_state.specs.Fits.{ReplicaValue, coded_replica};
    ghost use Rattle.rds_keep.specs.Kept.{IsKept};

    ghost Value = { ReplicaValue };

    ghost coded = { coded_replica };

    ghost view = { λ k. k.replica };

    ghost invariant = { λ k. IsKept k.replica };
}

impl<S: DotSet> Kept<S> {
    /// For a replica whose text was written whole or read whole.
    pub(crate) fn new(replica: Replica<S>) -> Kept<S>
        requires { IsKept replica }
        ensures { result ≡ replica }
    {
        Kept { replica }
    }

    /// The replica.
    pub fn view_of(&self) -> &Replica<S>
        ensures replica { result.now ≡ self.now }
        ensures kept { IsKept self.now }
    {
        &self.replica
    }

    /// The replica, to be edited.
    pub fn replica(self) -> Replica<S>
        ensures replica { result ≡ self }
        ensures kept { IsKept result }
    {
        self.replica
    }
}
