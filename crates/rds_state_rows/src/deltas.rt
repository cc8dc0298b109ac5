//! Rows that call least deltas.
use crate::documents::Documents;
use crate::states::keep;
use rds_dots::DotSet;
use rds_names::Fault;
use rds_rows::words::cut;
use rds_state::State;
use std::alloc::Global;

/// `delta NAME STATE DIGEST` makes the least delta of a state against a digest.
pub fn delta<S: DotSet>(
    documents: &mut Documents<S>,
    alloc: Global,
    rest: &str,
) -> Result<String, Fault> {
    let (name, asked) = cut(rest)?;
    let delta = delta_of(documents, alloc, asked)?;
    keep(documents, alloc, name, delta)
}

fn delta_of<S: DotSet>(
    documents: &Documents<S>,
    alloc: Global,
    asked: &str,
) -> Result<State<S>, Fault> {
    let (state, digest) = cut(asked)?;
    let state = documents.state(state)?;
    rds_delta::delta(alloc, state, documents.digests.get(digest)?)
}
