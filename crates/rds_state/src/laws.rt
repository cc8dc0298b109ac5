//! The laws of the join, and of what a replica does.
ghost use Rattle.std.specs.Prelude.{◌≡◌, ◌≢◌, ℕ, List, Result, Err, None, Some};
ghost use Rattle.std.specs.FinMap as map;
ghost use Rattle.rds_names.specs.declared.entry.Entry.{Entry};
ghost use Rattle.rds_names.specs.declared.fault.Fault.{Fault};
ghost use Rattle.rds_names.specs.declared.fault.Fault.TheVariants.{Memory};
ghost use Rattle.rds_dots.specs.declared.dot.Dot.{Dot};
ghost use Rattle.rds_life.specs.Life.{Dead, Live, entry_of};
ghost use Rattle.rds_counts.specs.Value.{value_of};
ghost use Rattle.rds_state.specs.Coordinates.{Coordinates, AtMost, AreCompatible, join};
ghost use Rattle.rds_state.specs.Document.{value_in};
ghost use Rattle.rds_state.specs.Friends.{FriendsAreTaken};
ghost use Rattle.rds_state.specs.Mark.{live_mark, mark_of, plus};
ghost use Rattle.rds_state.specs.Results.{IsEdited, IsMerged, IsTaken};
ghost use Rattle.rds_state.specs.Value.{StateValue, coordinates};
ghost use Rattle.rds_state.specs.declared.command.Command.{Command};
ghost use Rattle.rds_state.specs.declared.command.Edited.{Edited};

/// States are ordered coordinate by coordinate, and the join of compatible states is the least state above both
/// (Shapiro, Preguiça, Baquero, Zawirski 2011). The join is associative and idempotent, and commutative on compatible
/// states; what is compatible with both of two states is so with their join, so that states of which every two are
/// compatible merge in any order; equal coordinates are equal states. The function does nothing: its contract is
/// these laws.
pub fn join_laws()
    ensures reflexive { (a : Coordinates) → AtMost a a }
    ensures transitive { (a b c : Coordinates) → AtMost a b → AtMost b c → AtMost a c }
    ensures antisymmetric { (a b : Coordinates) → AtMost a b → AtMost b a → a ≡ b }
    ensures above_left { (a b : Coordinates) → AtMost a (join a b) }
    ensures above_right { (a b : Coordinates) → AreCompatible a b → AtMost b (join a b) }
    ensures least { (a b c : Coordinates) → AtMost a c → AtMost b c → AtMost (join a b) c }
    ensures commutative { (a b : Coordinates) → AreCompatible a b → join a b ≡ join b a }
    ensures compatible { (a b c : Coordinates) → AreCompatible a c → AreCompatible b c
        → AreCompatible (join a b) c }
    ensures associative { (a b c : Coordinates) → join (join a b) c ≡ join a (join b c) }
    ensures idempotent { (a : Coordinates) → join a a ≡ a }
    ensures same_value { (v w : StateValue) → coordinates v ≡ coordinates w → v ≡ w }
{}

/// Replicas are friends where they are compatible, and each has all that the other has of its own. A take of a
/// friend's state is refused with `Memory` alone. The function does nothing: its contract is this law.
pub fn friends_take_each_other()
    ensures { FriendsAreTaken }
{}

/// The document of a state has the sums that its counters answer. The function does nothing: its contract is this law.
pub fn documents_have_the_sums()
    ensures { (v : StateValue) (key : List ℕ) → value_in (coordinates v) key ≡ value_of v.counts key }
{}

/// What [`State::merge`](crate::State::merge), [`Replica::take`](crate::Replica::take) and
/// [`Replica::edit`](crate::Replica::edit) say of their answer and of the state after it is met by no second pair, but
/// that memory may run out. So these contracts refuse each wrong result. The function does nothing: its contract is
/// this law.
pub fn a_change_has_one_result()
    ensures merge { (a b v w : StateValue) (r s : Result (Unit {0}) Fault) → IsMerged a b r v → IsMerged a b s w
        → r ≢ Err Memory → s ≢ Err Memory → (r ≡ s) × (v ≡ w) }
    ensures take { (a d v w : StateValue) (own : ℕ) (r s : Result (Unit {0}) Fault) → IsTaken a own d r v
        → IsTaken a own d s w → r ≢ Err Memory → s ≢ Err Memory → (r ≡ s) × (v ≡ w) }
    ensures edit { (a v w : StateValue) (own : ℕ) (command : Command) (r s : Result Edited Fault)
        → IsEdited a own command r v → IsEdited a own command s w → r ≢ Err Memory → s ≢ Err Memory
        → (r ≡ s) × (v ≡ w) }
{}

/// The mark of a state is a sum: a dot that is made live adds its own mark, and one that dies takes it away. The
/// function does nothing: its contract is these laws.
pub fn marks_add_up()
    ensures live { (v : StateValue) (d : Dot) (e : Entry) → entry_of (map.get v.lives d) ≡ None
        → mark_of (record { lives = map.insert v.lives d (Live e); counts = v.counts })
        ≡ plus (mark_of v) (live_mark d e) }
    ensures dead { (v : StateValue) (d : Dot) (e : Entry) → map.get v.lives d ≡ Some (Live e)
        → plus (mark_of (record { lives = map.insert v.lives d Dead; counts = v.counts })) (live_mark d e)
        ≡ mark_of v }
{}
