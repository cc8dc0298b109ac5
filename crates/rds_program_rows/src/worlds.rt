//! Rows of worlds: what comes of lists of events.
mod events;

use crate::told::{bytes_told, count_told};
use events::event;
use rds_dots::{Dot, DotSet};
use rds_life::Rank;
use rds_names::{Entry, Fault, Scalar};
use rds_rows::Table;
use rds_rows::told::said;
use rds_rows::words::{first, number, roster, small};
use rds_state::Replica;
use rds_world::{
    Event, World, a_step_has_one_result, coherent_replicas_are_friends, edits_are_steps,
    lost_dots_are_used_again, replicas_obey_the_law, rosters_grow, runs_go_on, simulate,
    worlds_have_one_value, worlds_stay_coherent,
};
use std::alloc::Global;
use std::mem;

/// The world at hand, which keeps sets of dots as `S`, and the events that are to be simulated.
#[derive(Drop)]
pub struct Worlds<S: DotSet> {
    world: Option<World<S>>,
    events: Vec<Event>,
}

impl<S: DotSet> Table for Worlds<S> {
    fn answer(&mut self, alloc: Global, word: &str, rest: &str) -> Result<String, Fault> {
        match word {
            "later" => self.plan(alloc, rest),
            "simulate" => self.simulate(alloc, rest),
            "laws" => laws(alloc),
            _ => match &self.world {
                Some(world) => look(alloc, world, word, rest),
                None => Err(Fault::Usage),
            },
        }
    }
}

impl<S: DotSet> Worlds<S> {
    /// No world and no events.
    pub fn new(alloc: Global) -> Worlds<S> {
        Worlds {
            world: None,
            events: Vec::new(alloc),
        }
    }

    fn plan(&mut self, alloc: Global, words: &str) -> Result<String, Fault> {
        self.events.push(event(alloc, words)?)?;
        count_told(alloc, self.events.len(), "events")
    }

    // Simulates the events that were planned.
    fn simulate(&mut self, alloc: Global, words: &str) -> Result<String, Fault> {
        let roster = roster(alloc, words)?;
        let events = mem::replace(&mut self.events, Vec::new(alloc));
        match simulate(alloc, roster, &events) {
            Ok(world) => self.come_to(alloc, world, None),
            Err((world, fault)) => self.come_to(alloc, world, Some(fault)),
        }
    }

    // This world is then the one at hand.
    fn come_to(
        &mut self,
        alloc: Global,
        world: World<S>,
        fault: Option<Fault>,
    ) -> Result<String, Fault> {
        self.world = Some(world);
        match fault {
            Some(fault) => Err(fault),
            None => said(alloc, "done"),
        }
    }
}

// A look at the world.
fn look<S: DotSet>(
    alloc: Global,
    world: &World<S>,
    word: &str,
    rest: &str,
) -> Result<String, Fault> {
    match word {
        "memory" => size_told(alloc, world.memory(small(rest)?)?),
        "kept" => size_told(alloc, world.kept(small(rest)?)?.view_of()),
        "asked" => bytes_told(alloc, world.ask_bytes(number(rest)?)?),
        "answered" => bytes_told(alloc, world.answer_bytes(number(rest)?)?),
        "dot" => find_dot(alloc, world, rest),
        _ => Err(Fault::Usage),
    }
}

fn size_told<S: DotSet>(alloc: Global, replica: &Replica<S>) -> Result<String, Fault> {
    let components = replica.state().components();
    Ok(format!(in alloc; "components {components}")?)
}

// How far a dot has come in a replica's memory: its words are the replica that looks, and the dot's replica and number.
fn find_dot<S: DotSet>(alloc: Global, world: &World<S>, words: &str) -> Result<String, Fault> {
    let (looking, words) = first(words);
    let memory = world.memory(small(looking)?)?;
    dot_told(alloc, memory, dot(words)?)
}

fn dot(words: &str) -> Result<Dot, Fault> {
    let (replica, seq) = first(words);
    Ok(Dot {
        replica: small(replica)?,
        seq: number(seq)?,
    })
}

fn dot_told<S: DotSet>(alloc: Global, replica: &Replica<S>, dot: Dot) -> Result<String, Fault> {
    let lives = replica.state().lives();
    match lives.rank(dot) {
        Rank::Unseen => said(alloc, "unseen"),
        Rank::Dead => said(alloc, "dead"),
        Rank::Live => entry_told(alloc, lives.entry(dot)),
    }
}

// Rows give no entry another value than a number.
fn entry_told(alloc: Global, entry: Option<&Entry>) -> Result<String, Fault> {
    let Some(entry) = entry else {
        return Err(Fault::Bad);
    };
    match entry.value() {
        Scalar::Int(number) => Ok(format!(in alloc; "live with number {number}")?),
        _ => Err(Fault::Usage),
    }
}

// The laws have no answer: their contracts are proved.
fn laws(alloc: Global) -> Result<String, Fault> {
    worlds_stay_coherent();
    rosters_grow();
    worlds_have_one_value();
    a_step_has_one_result();
    coherent_replicas_are_friends();
    edits_are_steps();
    replicas_obey_the_law();
    runs_go_on();
    lost_dots_are_used_again();
    said(alloc, "called")
}
