//! What the least delta is for, and what a check of a delta is worth.
ghost use Rattle.std.specs.Prelude.{◌≡◌, ◌≤◌, ◌⊎◌, ℕ, Result, Ok, Err};
ghost use Rattle.rds_names.specs.declared.fault.Fault.{Fault as Refusal};
ghost use Rattle.rds_names.specs.declared.fault.Fault.TheVariants.{Memory};
ghost use Rattle.rds_state.specs.Ahead.{TakeGives};
ghost use Rattle.rds_state.specs.Coordinates.{Coordinates, AtMost, AreCompatible, join};
ghost use Rattle.rds_state.specs.Fits.{Fits};
ghost use Rattle.rds_state.specs.Friends.{AreFriends};
ghost use Rattle.rds_state.specs.Value.{StateValue, coordinates, size};
ghost use Rattle.rds_delta.specs.Least.{IsAbove, least};
ghost use Rattle.rds_delta.specs.Ranks.{Ranks, ranks};
ghost use Rattle.rds_delta.specs.Sized.{HasComponents};

/// Of all that does to a state B what a state A does, the least delta of A against B is the least: it does so to B
/// and to whatever B has become since, it is a part of A, and it lies below each state that is compatible with B and
/// does the same to it, so that none of these has fewer components, of which the size is the number (after the
/// decompositions of Enes, Almeida, Baquero, Leitão 2019). The function does nothing: its contract is these laws.
pub fn least_delta_laws()
    ensures effect { (a b grown : Coordinates) → AtMost b grown → join grown (least a (ranks b)) ≡ join grown a }
    ensures below { (a b c : Coordinates) → AreCompatible b c → join b c ≡ join b a → AtMost (least a (ranks b)) c }
    ensures fewest { (a b c d : StateValue) → coordinates d ≡ least (coordinates a) (ranks (coordinates b))
        → AreCompatible (coordinates b) (coordinates c)
        → join (coordinates b) (coordinates c) ≡ join (coordinates b) (coordinates a) → size d ≤ size c }
    ensures counted { (v : StateValue) → HasComponents (coordinates v) (size v) }
    ensures part { (a : Coordinates) (b : Ranks) → AtMost (least a b) a }
    ensures above { (a : Coordinates) (b : Ranks) → IsAbove (least a b) b }
    ensures compatible { (a c : Coordinates) (b : Ranks) → AreCompatible c a → AreCompatible c (least a b) }
{}

/// What [`delta`](crate::delta) says of its result is met by no second state: the least delta of a state against a
/// digest is one. So the contract refuses each wrong delta. The function does nothing: its contract is this law.
pub fn a_delta_has_one_result()
    ensures { (a : Coordinates) (b : Ranks) (v w : StateValue) → coordinates v ≡ least a b → coordinates w ≡ least a b
        → v ≡ w }
{}

/// A delta whose components are all above a digest, as `check` says of it, does no harm, whoever made it: the state
/// that was digested is compatible with it, and it lies below each state that is compatible with that one and does
/// to it what the delta does, so that it has nothing that isn't needed. The function does nothing: its contract is
/// these laws.
pub fn checked_delta_laws()
    ensures compatible { (d b : Coordinates) → IsAbove d (ranks b) → AreCompatible b d }
    ensures below { (d b c : Coordinates) → IsAbove d (ranks b) → AreCompatible b c → join b c ≡ join b d → AtMost d c }
    ensures fewest { (d b c : StateValue) → IsAbove (coordinates d) (ranks (coordinates b))
        → AreCompatible (coordinates b) (coordinates c)
        → join (coordinates b) (coordinates c) ≡ join (coordinates b) (coordinates d) → size d ≤ size c }
    ensures least { (d b : Coordinates) → IsAbove d (ranks b) → d ≡ least d (ranks b) }
{}

/// Replicas A and B are friends, and B has asked for what it lacks when it knew less, or as much: the least delta
/// that A answers fits where A's state fits, B's take of it is refused with `Memory` alone, and B then knows all
/// that both knew. The function does nothing: its contract is these laws.
pub fn friends_exchange_deltas()
    ensures fits { (replicas : ℕ) (a asked : Coordinates) → Fits replicas a → Fits replicas (least a (ranks asked)) }
    ensures taken { (left right : ℕ) (a b d : StateValue) (asked : Coordinates) (answer : Result (Unit {0}) Refusal)
        → AreFriends left (coordinates a) right (coordinates b) → coordinates d ≡ least (coordinates a) (ranks asked)
        → TakeGives b right d answer → (answer ≡ Ok tt) ⊎ (answer ≡ Err Memory) }
    ensures joins { (a b d : StateValue) (asked : Coordinates) → AtMost asked (coordinates b)
        → coordinates d ≡ least (coordinates a) (ranks asked)
        → join (coordinates b) (coordinates d) ≡ join (coordinates b) (coordinates a) }
{}
