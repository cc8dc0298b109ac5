//! Rows that call states.
use crate::documents::Documents;
use crate::drafts::{Draft, state_text};
use crate::listing::refused;
use crate::words::Words;
use rds_dots::DotSet;
use rds_names::Fault;
use rds_rows::told::{said, said_if};
use rds_rows::words::cut;
use rds_state::State;
use std::alloc::Global;

/// Keeps a state under a name, and says how many components it has.
pub fn keep<S: DotSet>(
    documents: &mut Documents<S>,
    alloc: Global,
    name: &str,
    state: State<S>,
) -> Result<String, Fault> {
    let components = state.components();
    documents.states.put(alloc, name, state)?;
    Ok(format!(in alloc; "components {components}")?)
}

/// `state NAME PARTS` makes the state of these parts.
pub fn state<S: DotSet>(
    documents: &mut Documents<S>,
    alloc: Global,
    rest: &str,
) -> Result<String, Fault> {
    let (name, parts) = cut(rest)?;
    let (lives, counts) = Draft::read(alloc, parts)?.into_parts()?;
    keep(documents, alloc, name, State::from_parts(lives, counts))
}

/// `lives NAME PARTS` makes the state of the lives alone.
pub fn lives<S: DotSet>(
    documents: &mut Documents<S>,
    alloc: Global,
    rest: &str,
) -> Result<String, Fault> {
    let (name, parts) = cut(rest)?;
    let (lives, _) = Draft::read(alloc, parts)?.into_parts()?;
    keep(documents, alloc, name, State::from_lives(alloc, lives))
}

/// `empty NAME` makes the empty state.
pub fn empty<S: DotSet>(
    documents: &mut Documents<S>,
    alloc: Global,
    rest: &str,
) -> Result<String, Fault> {
    keep(documents, alloc, rest, State::empty(alloc))
}

/// `copy_of NAME STATE` copies a state.
pub fn copy_of<S: DotSet>(
    documents: &mut Documents<S>,
    alloc: Global,
    rest: &str,
) -> Result<String, Fault> {
    let mut words = Words::new(rest);
    let name = words.word()?;
    let copy = documents.state(words.word()?)?.copy(alloc)?;
    keep(documents, alloc, name, copy)
}

/// `merge NAME STATE` joins a state into the one of this name.
pub fn merge<S: DotSet>(
    documents: &mut Documents<S>,
    alloc: Global,
    rest: &str,
) -> Result<String, Fault> {
    let mut words = Words::new(rest);
    let name = words.word()?;
    let other = documents.state(words.word()?)?.copy(alloc)?;
    match documents.states.get_mut(name)?.merge(&other) {
        Ok(()) => said(alloc, "merged"),
        Err(fault) => refused(alloc, fault),
    }
}

/// `show STATE` writes the whole state.
pub fn show<S: DotSet>(
    documents: &Documents<S>,
    alloc: Global,
    rest: &str,
) -> Result<String, Fault> {
    state_text(alloc, documents.state(rest)?)
}

/// `same STATE STATE` asks whether two states are equal.
pub fn same<S: DotSet>(
    documents: &Documents<S>,
    alloc: Global,
    rest: &str,
) -> Result<String, Fault> {
    let mut words = Words::new(rest);
    let left = documents.state(words.word()?)?;
    let right = documents.state(words.word()?)?;
    said_if(alloc, left.same(right))
}

/// `rank STATE REPLICA NUMBER` asks how far a dot has come.
pub fn rank<S: DotSet>(
    documents: &Documents<S>,
    alloc: Global,
    rest: &str,
) -> Result<String, Fault> {
    let mut words = Words::new(rest);
    let state = documents.state(words.word()?)?;
    let rank = state.lives().rank(words.dot()?);
    Ok(format!(in alloc; "{rank:?}")?)
}

/// `value STATE KEY` asks what a counter stands at.
pub fn value<S: DotSet>(
    documents: &Documents<S>,
    alloc: Global,
    rest: &str,
) -> Result<String, Fault> {
    let mut words = Words::new(rest);
    let state = documents.state(words.word()?)?;
    let value = state.counts().value(&words.key(alloc)?);
    Ok(value.to_string(alloc)?)
}

/// `components STATE` asks how many components a state has.
pub fn components<S: DotSet>(
    documents: &Documents<S>,
    alloc: Global,
    rest: &str,
) -> Result<String, Fault> {
    let components = documents.state(rest)?.components();
    Ok(components.to_string(alloc)?)
}

/// `mark STATE` writes the mark of a state.
pub fn mark<S: DotSet>(
    documents: &Documents<S>,
    alloc: Global,
    rest: &str,
) -> Result<String, Fault> {
    let mark = documents.state(rest)?.mark();
    Ok(mark.to_string(alloc)?)
}
