//! What a value was, for contracts alone.
ghost use Rattle.std.specs.Prelude.{◌≡◌};
ghost use Rattle.rds_keep.specs.Kept.{IsKept};
ghost use Rattle.std.specs.Borrow.{ftrue};

use crate::kept::Kept;
use rds_dots::DotSet;
use rds_state::Replica;
use std::marker::{Model, PhantomData};

/// What a value was. Only contracts see it: no memory holds it. Only `of` makes one, from a value that is there.
#[derive(Drop)]
pub struct Past<T> {
    marker: PhantomData<T>,
    pub ghost value: { T },
}

impl<T> Model for Past<T> {
    ghost also_owns = { λ _. ftrue };
}

impl<T> Past<T> {
    /// What the value is now.
    pub fn of(_value: &T) -> Past<T>
        ensures { result.value ≡ _value.now }
    {
        Past {
            marker: PhantomData,
        }
    }
}

/// A replica that was kept. Only contracts see it: no memory holds it. `of` makes one of a replica that is kept, and
/// [`Changed::append`](crate::Changed::append) one of a replica whose change was put behind the others.
#[derive(Drop)]
pub struct WasKept<S: DotSet> {
    replica: Past<Replica<S>>,
}

impl<S: DotSet> Model for WasKept<S> {
    ghost use Rattle.rds_state.specs.Fits.{ReplicaValue, coded_replica};
    ghost use Rattle.rds_keep.specs.Kept.{IsKept};

    ghost Value = { ReplicaValue };

    ghost coded = { coded_replica };

    ghost view = { λ w. w.replica.value };

    ghost invariant = { λ w. IsKept w.replica.value };
}

impl<S: DotSet> WasKept<S> {
    /// What the kept replica is now.
    pub fn of(kept: &Kept<S>) -> WasKept<S>
        ensures { result ≡ kept.now }
    {
        WasKept::was(Past::of(kept.view_of()))
    }

    /// For what a replica was that is kept.
    pub(crate) fn was(replica: Past<Replica<S>>) -> WasKept<S>
        requires { IsKept replica.value }
        ensures { result ≡ replica.value }
    {
        WasKept { replica }
    }

    /// The function does nothing: its contract is what holds of each.
    pub(crate) fn stands(&self)
        ensures { IsKept self.now }
    {
        let _replica = &self.replica;
    }

    /// The kept replica, where its like is at hand.
    pub fn again(self, replica: Replica<S>) -> Kept<S>
        requires { replica ≡ self }
        ensures { result ≡ replica }
    {
        Kept::new(replica)
    }
}
