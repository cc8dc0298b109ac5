//! What each row calls.
use crate::certificates::{certificate, check, given};
use crate::deltas::delta;
use crate::digests::{digest, digest_of_sets, inside, pair_in, rank_in};
use crate::documents::Documents;
use crate::indexes::{
    covered, index, index_covered, index_delta, index_edit, index_take, index_view, step, step_take,
};
use crate::laws::laws;
use crate::replicas::{copy, edit, edit_delta, fits, hold, make, rejoin, take};
use crate::states::{
    components, copy_of, empty, lives, mark, merge, rank, same, show, state, value,
};
use crate::views::show_view;
use rds_dots::DotSet;
use rds_names::Fault;
use rds_rows::Table;
use std::alloc::Global;

impl<S: DotSet> Table for Documents<S> {
    fn answer(&mut self, alloc: Global, name: &str, rest: &str) -> Result<String, Fault> {
        match name {
            "new" | "hold" | "edit" | "edit_delta" | "take" | "copy" | "rejoin" | "fits" => {
                replica_answer(self, alloc, name, rest)
            }
            "digest" | "digest_of_sets" | "inside" | "rank_in" | "pair_in" => {
                digest_answer(self, alloc, name, rest)
            }
            "index"
            | "index_covered"
            | "index_delta"
            | "index_edit"
            | "index_take"
            | "index_view"
            | "step"
            | "step_take"
            | "covered" => { index_answer(self, alloc, name, rest) }
            "delta" => delta(self, alloc, rest),
            "certificate" => certificate(self, alloc, rest),
            "given" => given(self, alloc, rest),
            "check" => check(self, alloc, rest),
            "laws" => laws(alloc),
            "view" => show_view(self, alloc, rest),
            _ => state_answer(self, alloc, name, rest),
        }
    }
}

fn replica_answer<S: DotSet>(
    documents: &mut Documents<S>,
    alloc: Global,
    name: &str,
    rest: &str,
) -> Result<String, Fault> {
    match name {
        "new" => make(documents, alloc, rest),
        "hold" => hold(documents, alloc, rest),
        "edit" => edit(documents, alloc, rest),
        "edit_delta" => edit_delta(documents, alloc, rest),
        "take" => take(documents, alloc, rest),
        "copy" => copy(documents, alloc, rest),
        "rejoin" => rejoin(documents, alloc, rest),
        "fits" => fits(documents, alloc, rest),
        _ => Err(Fault::Usage),
    }
}

fn index_answer<S: DotSet>(
    documents: &mut Documents<S>,
    alloc: Global,
    name: &str,
    rest: &str,
) -> Result<String, Fault> {
    match name {
        "index" => index(documents, alloc, rest),
        "index_covered" => index_covered(documents, alloc, rest),
        "index_delta" => index_delta(documents, alloc, rest),
        "index_edit" => index_edit(documents, alloc, rest),
        "index_take" => index_take(documents, alloc, rest),
        "index_view" => index_view(documents, alloc, rest),
        "step" => step(documents, alloc, rest),
        "step_take" => step_take(documents, alloc, rest),
        "covered" => covered(documents, alloc, rest),
        _ => Err(Fault::Usage),
    }
}

fn state_answer<S: DotSet>(
    documents: &mut Documents<S>,
    alloc: Global,
    name: &str,
    rest: &str,
) -> Result<String, Fault> {
    match name {
        "state" => state(documents, alloc, rest),
        "lives" => lives(documents, alloc, rest),
        "empty" => empty(documents, alloc, rest),
        "copy_of" => copy_of(documents, alloc, rest),
        "merge" => merge(documents, alloc, rest),
        "show" => show(documents, alloc, rest),
        "same" => same(documents, alloc, rest),
        "mark" => mark(documents, alloc, rest),
        "rank" => rank(documents, alloc, rest),
        "value" => value(documents, alloc, rest),
        "components" => components(documents, alloc, rest),
        _ => Err(Fault::Usage),
    }
}

fn digest_answer<S: DotSet>(
    documents: &mut Documents<S>,
    alloc: Global,
    name: &str,
    rest: &str,
) -> Result<String, Fault> {
    match name {
        "digest" => digest(documents, alloc, rest),
        "digest_of_sets" => digest_of_sets::<S>(alloc, rest),
        "inside" => inside::<S>(alloc, rest),
        "rank_in" => rank_in(documents, alloc, rest),
        "pair_in" => pair_in(documents, alloc, rest),
        _ => Err(Fault::Usage),
    }
}
