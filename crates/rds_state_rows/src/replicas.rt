//! Rows that call replicas.
use crate::commands::{command, edited_text};
use crate::documents::Documents;
use crate::listing::refused;
use crate::words::Words;
use rds_dots::DotSet;
use rds_names::{Fault, Roster};
use rds_rows::told::{said, said_if};
use rds_rows::words;
use rds_state::{Replica, State};
use rds_tree::edit_with_delta;
use std::alloc::Global;

/// The roster of the group g with its replicas a, b and c.
fn roster(alloc: Global) -> Result<Roster, Fault> {
    words::roster(alloc, "g a b c")
}

/// Keeps a replica under a name, and says its number and how many there are.
fn keep<S: DotSet>(
    documents: &mut Documents<S>,
    alloc: Global,
    name: &str,
    replica: Replica<S>,
) -> Result<String, Fault> {
    let own = replica.own();
    let replicas = replica.roster().len();
    documents.replicas.put(alloc, name, replica)?;
    Ok(format!(in alloc; "replica {own} of {replicas}")?)
}

/// `new NAME NUMBER` makes a replica that has done nothing.
pub fn make<S: DotSet>(
    documents: &mut Documents<S>,
    alloc: Global,
    rest: &str,
) -> Result<String, Fault> {
    let mut words = Words::new(rest);
    let name = words.word()?;
    let own = words.small()?;
    let replica = Replica::new(alloc, roster(alloc)?, own)?;
    keep(documents, alloc, name, replica)
}

/// `hold NAME NUMBER STATE` makes a replica that has this state.
pub fn hold<S: DotSet>(
    documents: &mut Documents<S>,
    alloc: Global,
    rest: &str,
) -> Result<String, Fault> {
    let mut words = Words::new(rest);
    let name = words.word()?;
    let own = words.small()?;
    let state = documents.state(words.word()?)?.copy(alloc)?;
    let replica = Replica::from_parts(roster(alloc)?, own, state)?;
    keep(documents, alloc, name, replica)
}

/// `edit NAME COMMAND` edits by a copy of the command.
pub fn edit<S: DotSet>(
    documents: &mut Documents<S>,
    alloc: Global,
    rest: &str,
) -> Result<String, Fault> {
    let mut words = Words::new(rest);
    let name = words.word()?;
    let command = command(alloc, &mut words)?.copy(alloc)?;
    let edited = documents.replicas.get_mut(name)?.edit(command)?;
    edited_text(alloc, edited)
}

/// `edit_delta NAME STATE COMMAND` edits a replica, and keeps what that changed as the state of this name.
pub fn edit_delta<S: DotSet>(
    documents: &mut Documents<S>,
    alloc: Global,
    rest: &str,
) -> Result<String, Fault> {
    let mut words = Words::new(rest);
    let name = words.word()?;
    let state = words.word()?;
    let command = command(alloc, &mut words)?;
    let replica = documents.replicas.get_mut(name)?;
    let (edited, delta) = edit_with_delta(alloc, replica, &command)?;
    documents.states.put(alloc, state, delta)?;
    edited_text(alloc, edited)
}

/// `take NAME STATE` has a replica take a state.
pub fn take<S: DotSet>(
    documents: &mut Documents<S>,
    alloc: Global,
    rest: &str,
) -> Result<String, Fault> {
    let mut words = Words::new(rest);
    let name = words.word()?;
    let state = documents.state(words.word()?)?.copy(alloc)?;
    take_state(alloc, documents.replicas.get_mut(name)?, &state)
}

fn take_state<S: DotSet>(
    alloc: Global,
    replica: &mut Replica<S>,
    state: &State<S>,
) -> Result<String, Fault> {
    if !replica.fits(state) {
        return said(alloc, "unfit");
    }
    match replica.take(state) {
        Ok(()) => said(alloc, "taken"),
        Err(fault) => refused(alloc, fault),
    }
}

/// `copy NAME REPLICA` copies a replica.
pub fn copy<S: DotSet>(
    documents: &mut Documents<S>,
    alloc: Global,
    rest: &str,
) -> Result<String, Fault> {
    let mut words = Words::new(rest);
    let name = words.word()?;
    let replica = documents.replicas.get(words.word()?)?.copy(alloc)?;
    keep(documents, alloc, name, replica)
}

/// `rejoin NAME REPLICA` takes a copy of a replica apart, and makes one of the parts.
pub fn rejoin<S: DotSet>(
    documents: &mut Documents<S>,
    alloc: Global,
    rest: &str,
) -> Result<String, Fault> {
    let mut words = Words::new(rest);
    let name = words.word()?;
    let whole = documents.replicas.get(words.word()?)?.copy(alloc)?;
    let (roster, own, state) = whole.into_parts();
    let replica = Replica::from_parts(roster, own, state)?;
    keep(documents, alloc, name, replica)
}

/// `fits REPLICA STATE` asks whether the state's replicas are all in the roster.
pub fn fits<S: DotSet>(
    documents: &Documents<S>,
    alloc: Global,
    rest: &str,
) -> Result<String, Fault> {
    let mut words = Words::new(rest);
    let replica = documents.replicas.get(words.word()?)?;
    let state = documents.state(words.word()?)?;
    said_if(alloc, replica.fits(state))
}
