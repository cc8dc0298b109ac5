//! Rows that call replicas with the tree of their live dots.
use crate::commands::{command, edited_text};
use crate::documents::Documents;
use crate::listing::{Listing, refused};
use crate::views::whole_text;
use crate::words::Words;
use rds_dots::{Dot, DotSet};
use rds_names::{Fault, Path};
use rds_rows::told::said;
use rds_tree::{Index, view};
use std::alloc::Global;

/// The paths that the steps use, but the root.
const PATHS: &str = "m m/k m/k/l r s";

/// `index NAME REPLICA` makes an index of a copy of the replica.
pub fn index<S: DotSet>(
    documents: &mut Documents<S>,
    alloc: Global,
    rest: &str,
) -> Result<String, Fault> {
    let mut words = Words::new(rest);
    let name = words.word()?;
    let replica = documents.replicas.get(words.word()?)?.copy(alloc)?;
    documents
        .indexes
        .put(alloc, name, Index::of(alloc, replica)?)?;
    said(alloc, "indexed")
}

/// `index_edit NAME COMMAND` edits an index.
pub fn index_edit<S: DotSet>(
    documents: &mut Documents<S>,
    alloc: Global,
    rest: &str,
) -> Result<String, Fault> {
    let mut words = Words::new(rest);
    let name = words.word()?;
    let command = command(alloc, &mut words)?;
    let edited = documents.indexes.get_mut(name)?.edit(command)?;
    edited_text(alloc, edited)
}

/// `index_delta NAME STATE COMMAND` edits an index, and keeps what that changed as the state of this name.
pub fn index_delta<S: DotSet>(
    documents: &mut Documents<S>,
    alloc: Global,
    rest: &str,
) -> Result<String, Fault> {
    let mut words = Words::new(rest);
    let name = words.word()?;
    let state = words.word()?;
    let command = command(alloc, &mut words)?;
    let (edited, delta) = documents.indexes.get_mut(name)?.edit_with_delta(&command)?;
    documents.states.put(alloc, state, delta)?;
    edited_text(alloc, edited)
}

/// `index_take NAME STATE` has an index take a state.
pub fn index_take<S: DotSet>(
    documents: &mut Documents<S>,
    alloc: Global,
    rest: &str,
) -> Result<String, Fault> {
    let mut words = Words::new(rest);
    let name = words.word()?;
    let state = documents.state(words.word()?)?.copy(alloc)?;
    let index = documents.indexes.get_mut(name)?;
    if !index.replica().fits(&state) {
        return said(alloc, "unfit");
    }
    match index.take(&state) {
        Ok(()) => said(alloc, "taken"),
        Err(fault) => refused(alloc, fault),
    }
}

/// `index_view NAME PATH` shows what an index has at a path.
pub fn index_view<S: DotSet>(
    documents: &Documents<S>,
    alloc: Global,
    rest: &str,
) -> Result<String, Fault> {
    let mut words = Words::new(rest);
    let index = documents.indexes.get(words.word()?)?;
    let path = words.path(alloc)?;
    whole_text(alloc, &index.view(&path)?)
}

/// `step NAME COMMAND` edits an index, and compares what it shows at each path.
pub fn step<S: DotSet>(
    documents: &mut Documents<S>,
    alloc: Global,
    rest: &str,
) -> Result<String, Fault> {
    let mut words = Words::new(rest);
    let name = words.word()?;
    let command = command(alloc, &mut words)?;
    let index = documents.indexes.get_mut(name)?;
    index.edit_by(&command)?;
    compared(alloc, index)
}

/// `step_take NAME STATE` has an index take a state, and compares what it shows at each path.
pub fn step_take<S: DotSet>(
    documents: &mut Documents<S>,
    alloc: Global,
    rest: &str,
) -> Result<String, Fault> {
    let mut words = Words::new(rest);
    let name = words.word()?;
    let state = documents.state(words.word()?)?.copy(alloc)?;
    let index = documents.indexes.get_mut(name)?;
    if !index.replica().fits(&state) {
        return said(alloc, "unfit");
    }
    index.take(&state)?;
    compared(alloc, index)
}

/// Whether the index shows at each path what a tree shows that is made anew.
fn compared<S: DotSet>(alloc: Global, index: &Index<S>) -> Result<String, Fault> {
    if !is_equal_at(alloc, index, &Path::new(alloc, "")?)? {
        return said(alloc, "another view of the root");
    }
    for text in PATHS.split_whitespace() {
        if !is_equal_at(alloc, index, &Path::new(alloc, text)?)? {
            return Ok(format!(in alloc; "another view of {text}")?);
        }
    }
    said(alloc, "equal views")
}

fn is_equal_at<S: DotSet>(alloc: Global, index: &Index<S>, path: &Path) -> Result<bool, Fault> {
    let kept = whole_text(alloc, &index.view(path)?)?;
    let anew = whole_text(alloc, &view(alloc, index.replica().state(), path)?)?;
    Ok(kept == anew)
}

/// `covered REPLICA COMMAND` lists the live dots that the command covers.
pub fn covered<S: DotSet>(
    documents: &Documents<S>,
    alloc: Global,
    rest: &str,
) -> Result<String, Fault> {
    let mut words = Words::new(rest);
    let replica = documents.replicas.get(words.word()?)?;
    let command = command(alloc, &mut words)?;
    let dots = replica.covered(alloc, &command)?;
    listed(alloc, &dots)
}

/// `index_covered NAME COMMAND` lists the live dots that the command covers, as the tree finds them.
pub fn index_covered<S: DotSet>(
    documents: &Documents<S>,
    alloc: Global,
    rest: &str,
) -> Result<String, Fault> {
    let mut words = Words::new(rest);
    let index = documents.indexes.get(words.word()?)?;
    let command = command(alloc, &mut words)?;
    let mut dots = Vec::new(alloc);
    index.gather_covered(&command, &mut dots)?;
    listed(alloc, &dots)
}

fn listed(alloc: Global, dots: &[Dot]) -> Result<String, Fault> {
    let mut listing = Listing::new(alloc);
    for dot in dots {
        listing.push(dot_text(alloc, *dot)?.as_str())?;
    }
    listing.into_text(alloc)
}

fn dot_text(alloc: Global, dot: Dot) -> Result<String, Fault> {
    let Dot { replica, seq } = dot;
    Ok(format!(in alloc; "{replica} {seq}")?)
}
