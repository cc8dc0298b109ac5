//! The laws of a file that crashes left.
ghost use Rattle.std.specs.Prelude.{List, ℕ};
ghost use Rattle.rds_keep.specs.Changed.{ChangedValue};
ghost use Rattle.rds_keep.specs.declared.layout.Layout.{Layout};
ghost use Rattle.rds_recovery.specs.AtAnyMoment.{SafeIsRead, SafeIsWithin, StaysSafe, SyncedIsSafe};
ghost use Rattle.rds_recovery.specs.Events.{ChangeIsEvents, EditIsEvents, EditsAreEvents};
ghost use Rattle.rds_recovery.specs.Recovery.{
  Append,
  HoldsOne,
  InOrderIsNoOther,
  NoneIsLost,
  NoneIsMadeUp,
  TornIsNoOther,
};
ghost use Rattle.rds_world.specs.Replicas.{KeptStays};
ghost use Rattle.rds_world.specs.World.{World};

use rds_journal::Device;

/// No change that was acknowledged is lost. A file is read, and then changes are appended, each to what is read of the
/// file that the one before it left. Some are acknowledged, others are broken off by a crash at any moment. What is read
/// at the end has all of the state that was there at first, and of each replica whose change was acknowledged. Nothing
/// is asked of the checksums. And a file is read as one replica.
///
/// [`read_stored`](rds_keep::read_stored) gives `read` by its `stored`, and [`Changed::new`](rds_keep::Changed::new)
/// requires `changed`. [`Changed::append`](rds_keep::Changed::append) gives `leaves` by `stored` where the change was
/// acknowledged, by `unwritten` and `unsure` where it failed, and by the front of `any_moment` where a crash came. For
/// that the file has to be all that a crash could leave when the append began, as it is after a crash, and by `lasts`
/// after a change that was acknowledged. Of a crash after appends that failed [`appends_are_safe_at_any_moment`] speaks.
///
/// The function does nothing: its contract is this law.
pub fn acknowledged_changes_are_never_lost()
    ensures one { (file : List ℕ) → HoldsOne file }
    ensures lost { (file : List ℕ) (appends : List Append) → NoneIsLost file appends }
{}

/// The same of a device, for whatever a crash may leave at each moment. What was synced and is read as a replica is safe:
/// a crash leaves what is read with all that the replica has. It stays safe at any moment of each append behind it, and
/// after it, whether the append was done or failed; and an append to what is read of a file that begins with it comes
/// behind it.
///
/// `Only` is given by `lasts` of [`Changed::append`](rds_keep::Changed::append), and `LeavesOnly` by its `any_moment`.
/// The function does nothing: its contract is this law.
pub fn appends_are_safe_at_any_moment<D: Device>()
    ensures synced { (device : D) → SyncedIsSafe (D.may_leave device) }
    ensures read { (device : D) → SafeIsRead (D.may_leave device) }
    ensures within { (device : D) → SafeIsWithin (D.may_leave device) }
    ensures stays { (old new : D) → StaysSafe D.moment D.left_since D.may_leave old new }
{}

/// Nothing is made up. Where a crash broke off a change, and no other record came about behind the whole ones, the file is
/// read as the replica before the change, or as the one after it. Where the bytes come to the disk in their order, no
/// other record comes about. Where they come in any order, no more is wanted than that a record which stands there is
/// the one that was appended: other bytes would have their own SHA-256 in front of them by chance.
///
/// [`Changed::new`](rds_keep::Changed::new) gives `IsRecordOf` by `record`. [`append`](rds_keep::Changed::append) gives
/// the premise of `in_order` by `unwritten`, and that of `torn` by `from_rest`. The function does nothing: its contract
/// is this law.
pub fn crashes_make_nothing_up()
    ensures found { (file : List ℕ) (change : ChangedValue) (layout : Layout) (left : List ℕ) →
        NoneIsMadeUp file change layout left }
    ensures in_order { (file : List ℕ) (change : ChangedValue) (layout : Layout) (left : List ℕ) →
        InOrderIsNoOther file change layout left }
    ensures torn { (file : List ℕ) (change : ChangedValue) (layout : Layout) (left : List ℕ) →
        TornIsNoOther file change layout left }
{}

/// Changes of a file that crashes broke off are events of the model of all replicas, where no other record came about.
/// Let the model's replica have kept what is read of the file. A change that is acknowledged is a crash of that replica,
/// the events that made the change, and a save. One that was broken off is a crash, these events and another crash, or
/// the same with a save before the last. What is read next is what the model's replica has kept by then, and the other
/// replicas have kept what they had. The events of an edit are those of its commands. Of any number of edits it is so,
/// and what was said of one is again the premise of the next, whatever happens between them: no event but its own save
/// changes what a replica has kept. So the law over every list of events holds of files that crashes left.
///
/// The premises are met as those of [`acknowledged_changes_are_never_lost`] and [`crashes_make_nothing_up`]. The
/// function does nothing: its contract is this law.
pub fn broken_edits_are_events()
    ensures change { (w : World) (file : List ℕ) (a : Append) → ChangeIsEvents w file a }
    ensures edit { (w : World) (file : List ℕ) (a : Append) → EditIsEvents w file a }
    ensures edits { (w : World) (file : List ℕ) (appends : List Append) → EditsAreEvents w file appends }
    ensures stays { KeptStays }
{}
