//! Rows on sets of dots, through the trait: each representation can answer the same rows.
use crate::words::{dot, push, run, said_number};
use rds_dots::{
    DotSet, MAX_SEQ, Run, are_below, equal_sets_have_equal_runs, first_lacking, runs, same,
};
use rds_names::Fault;
use rds_rows::told::{said, said_if};
use rds_rows::words::small;
use std::alloc::Global;
use std::mem;

/// The set that rows are on, and another one.
#[derive(Drop)]
pub struct Sets<S: DotSet> {
    set: S,
    other: S,
}

impl<S: DotSet> Sets<S> {
    /// Two sets without dots.
    pub fn empty(alloc: Global) -> Sets<S> {
        Sets {
            set: S::empty(alloc),
            other: S::empty(alloc),
        }
    }

    /// Answers a row on sets of dots.
    pub fn answer(&mut self, alloc: Global, asked: &str, rest: &str) -> Result<String, Fault> {
        match asked {
            "clear" => self.clear(alloc),
            "swap" => self.swap(alloc),
            "insert" => self.insert(alloc, rest),
            "union" => self.union(alloc),
            "minus" => self.minus(alloc),
            "copy" => self.copy(alloc),
            _ => self.tell(alloc, asked, rest),
        }
    }

    fn clear(&mut self, alloc: Global) -> Result<String, Fault> {
        *self = Sets::empty(alloc);
        shown(alloc, &self.set)
    }

    /// Turns to the other set.
    fn swap(&mut self, alloc: Global) -> Result<String, Fault> {
        mem::swap(&mut self.set, &mut self.other);
        shown(alloc, &self.set)
    }

    fn insert(&mut self, alloc: Global, rest: &str) -> Result<String, Fault> {
        insert(&mut self.set, run(rest)?)?;
        shown(alloc, &self.set)
    }

    /// Makes the other set that of the dots in either.
    fn union(&mut self, alloc: Global) -> Result<String, Fault> {
        self.other = self.set.union(alloc, &self.other)?;
        shown(alloc, &self.other)
    }

    /// Makes the other set that of the dots which it lacks.
    fn minus(&mut self, alloc: Global) -> Result<String, Fault> {
        self.other = self.set.minus(alloc, &self.other)?;
        shown(alloc, &self.other)
    }

    /// Makes the other set one of the same dots.
    fn copy(&mut self, alloc: Global) -> Result<String, Fault> {
        self.other = self.set.copy(alloc)?;
        shown(alloc, &self.other)
    }

    fn tell(&self, alloc: Global, asked: &str, rest: &str) -> Result<String, Fault> {
        match asked {
            "runs" => shown(alloc, &self.set),
            "has" => said_if(alloc, self.set.contains(dot(rest)?)),
            "top" => said_number(alloc, Some(self.set.top(small(rest)?))),
            "count" => said_number(alloc, Some(self.set.count())),
            "after" => self.after(alloc, rest),
            "same" => said_if(alloc, same(&self.set, &self.other)),
            "below" => self.below(alloc, rest),
            "lacks" => self.lacks(alloc, rest),
            "together" => self.together(alloc),
            _ => Err(Fault::Usage),
        }
    }

    /// The first run after a dot, or the first of all after `none`.
    fn after(&self, alloc: Global, rest: &str) -> Result<String, Fault> {
        let after = match rest {
            "none" => None,
            _ => Some(dot(rest)?),
        };
        match self.set.run_after(after) {
            Some(run) => shown_run(alloc, run),
            None => said(alloc, "none"),
        }
    }

    fn below(&self, alloc: Global, rest: &str) -> Result<String, Fault> {
        let replicas = u16::from(small(rest)?);
        if replicas == 0 {
            return Err(Fault::Usage);
        }
        said_if(alloc, are_below(&self.set, replicas))
    }

    /// The least number of a replica's dots that the other set has and this one lacks.
    fn lacks(&self, alloc: Global, rest: &str) -> Result<String, Fault> {
        said_number(alloc, first_lacking(&self.set, &self.other, small(rest)?))
    }

    /// The runs of both sets, side by side.
    fn together(&self, alloc: Global) -> Result<String, Fault> {
        let (ours, theirs) = equal_sets_have_equal_runs(&self.set, &self.other);
        let mut line = String::new(alloc);
        for (our, their) in ours.zip(theirs) {
            push(&mut line, shown_run(alloc, our)?.as_str())?;
            push(&mut line, shown_run(alloc, their)?.as_str())?;
        }
        Ok(line)
    }
}

/// Puts a run into a set; what is no run is answered `Usage`.
pub fn insert<S: DotSet>(set: &mut S, run: Run) -> Result<(), Fault> {
    if run.lo < 1 || run.hi < run.lo || run.hi > MAX_SEQ {
        return Err(Fault::Usage);
    }
    set.insert_run(run)
}

/// The maximal runs of a set.
pub fn shown<S: DotSet>(alloc: Global, set: &S) -> Result<String, Fault> {
    let mut line = String::new(alloc);
    for run in runs(set) {
        push(&mut line, shown_run(alloc, run)?.as_str())?;
    }
    if line.is_empty() {
        return said(alloc, "empty");
    }
    Ok(line)
}

fn shown_run(alloc: Global, run: Run) -> Result<String, Fault> {
    let Run { replica, lo, hi } = run;
    Ok(format!(in alloc; "{replica}:{lo}-{hi}")?)
}
