//! What changed a document since it was kept.
ghost use Rattle.std.specs.Prelude.{◌≡◌, ◌<◌, true, None, Some, IfOk, IfErr, IfSome, OnOk, length, vec_capacity};
ghost use Rattle.std.specs.Prelude.{if◌then◌else◌, option_map, vec_len};
ghost use Rattle.rds_names.specs.declared.fault.Fault.TheVariants.{Memory};
ghost use Rattle.rds_state.specs.Coordinates.{Coordinates, join};
ghost use Rattle.rds_state.specs.Fits.{ReplicaValue};
ghost use Rattle.rds_state.specs.Value.{coordinates};
ghost use Rattle.rds_store.specs.Changes.{IsSince, with_deltas};
ghost use Rattle.rds_store.specs.Noting.{AreSince, Notes};

use crate::document::Document;
use rds_gaps::GapSet;
use rds_keep::Past;
use rds_names::{Fault, Roster};
use rds_state::State;
use std::alloc::Global;

/// The most deltas that are noted. Where there are more, the document is written anew.
const MOST: usize = 65_536;

/// What a document was when it was kept, the deltas that it was joined with since, if they are noted, and whether its
/// roster grew.
#[derive(Drop)]
pub struct Changes {
    pub kept: Past<Document>,
    pub deltas: Option<Vec<State<GapSet>>>,
    pub is_grown: bool,
}

impl Changes {
    /// Those of a document from now on, which aren't noted.
    pub fn unnoted(document: &Document) -> Changes
        ensures kept { result.kept.value ≡ document.now }
        ensures none { result.deltas ≡ None }
    {
        Changes {
            kept: Past::of(document),
            deltas: None,
            is_grown: false,
        }
    }

    /// Those of a document from now on: there are none yet.
    pub fn none(alloc: Global, document: &Document) -> Changes
        ensures kept { result.kept.value ≡ document.now }
        ensures since { AreSince result document.now }
    {
        Changes {
            kept: Past::of(document),
            deltas: Some(Vec::new(alloc)),
            is_grown: false,
        }
    }

    /// Makes room for one more delta. Where there are too many, they are noted no more.
    pub fn make_room(&mut self) -> Result<(), Fault>
        ensures room { OnOk result (IfSome self.new.deltas (λ deltas. vec_len deltas < vec_capacity deltas)) }
        ensures since { (now : ReplicaValue) → AreSince self.old now → AreSince self.new now }
        ensures kept { self.new.kept.value ≡ self.old.kept.value }
        ensures memory { IfErr result (λ fault. fault ≡ Memory) }
    {
        if self.are_full() {
            self.deltas = None;
        }
        match &mut self.deltas {
            Some(deltas) => Ok(deltas.reserve(1)?),
            None => Ok(()),
        }
    }

    /// Whether there are too many deltas for one more.
    fn are_full(&self) -> bool {
        match &self.deltas {
            Some(deltas) => deltas.len() >= MOST,
            None => false,
        }
    }

    /// Notes a delta that the document was joined with, and whether its roster grew by that. There is room.
    pub fn note(&mut self, delta: State<GapSet>, grew: bool)
        requires room { IfSome self.old.deltas (λ deltas. vec_len deltas < vec_capacity deltas) }
        ensures { Notes delta grew self.old self.new }
    {
        if let Some(deltas) = &mut self.deltas {
            deltas.push_reserved(delta);
        }
        self.is_grown |= grew;
    }

    /// Notes that the roster grew.
    pub fn note_grown(&mut self)
        ensures { self.new ≡ record self.old { is_grown = true } }
    {
        self.is_grown = true;
    }

    /// The roster of the document, where it grew.
    pub fn roster<'a>(&self, document: &'a Document) -> Option<&'a Roster>
        ensures { option_map (λ roster. roster.now) result
            ≡ (if self.now.is_grown then Some document.now.roster else None) }
    {
        if self.is_grown {
            Some(document.replica().roster())
        } else {
            None
        }
    }
}

/// Deltas joined to one, by halves: each is copied as often as they can be halved, and no oftener.
pub fn joined(alloc: Global, deltas: &[State<GapSet>]) -> Result<State<GapSet>, Fault>
    ensures { IfOk result (λ delta. (a : Coordinates) → with_deltas a deltas.now ≡ join a (coordinates delta)) }
{
    if deltas.len() < 2 {
        return first_of(alloc, deltas);
    }
    let (left, right) = deltas.split_at(deltas.len() / 2);
    let mut all = joined(alloc, left)?;
    all.merge(&joined(alloc, right)?)?;
    Ok(all)
}

/// A copy of the first delta, where there is one at most.
fn first_of(alloc: Global, deltas: &[State<GapSet>]) -> Result<State<GapSet>, Fault>
    requires { length deltas.now < 2 }
    ensures { IfOk result (λ delta. (a : Coordinates) → with_deltas a deltas.now ≡ join a (coordinates delta)) }
{
    match deltas.first() {
        Some(delta) => delta.copy(alloc),
        None => Ok(State::empty(alloc)),
    }
}
