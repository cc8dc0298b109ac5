//! All replicas of a document, in memory and as kept, and what an event does to them.
ghost use Rattle.std.specs.Prelude.{◌≡◌, ◌≤◌, ◌⊎◌, [], Some, None, Err, IfOk, IfErr, OnOk, OnErr, MatchResult, length};
ghost use Rattle.std.specs.Prelude.{take, slice_get};
ghost use Rattle.rds_names.specs.Roster.{Begins};
ghost use Rattle.rds_names.specs.declared.fault.Fault.TheVariants.{Memory, NoSuch};
ghost use Rattle.rds_tree.specs.Shown.{shown_view};
ghost use Rattle.rds_world.specs.declared.event.Event.TheVariants.{Edit, Save, Crash, Ask, Answer, Take, Grow};
ghost use Rattle.rds_world.specs.Events.{IsAccepted, RefusesEvent, IsDone, roster_after_event};
ghost use Rattle.rds_world.specs.Shows.{IsNoSuch, ShowsAt};
ghost use Rattle.rds_world.specs.Simulation.{HasNoReplicas};
ghost use Rattle.rds_world.specs.Stands.{Stands, AreNew, IsWhole};
ghost use Rattle.rds_world.specs.Steps.{IsStep, IsStopped, MayGrow};
ghost use Rattle.rds_world.specs.Stored.{ask_bytes_at, answer_bytes_at};
ghost use Rattle.rds_world.specs.World.{World as ModelWorld, after, initial_world};

use crate::event::{Done, Event};
use crate::messages;
use crate::replicas::{empty_replicas, indexed, keep, newcomer, push_both};
use crate::texts::{Answering, Asking};
use rds_dots::DotSet;
use rds_keep::Kept;
use rds_names::{Fault, Name, Path, Roster};
use rds_state::{Command, Replica};
use rds_tree::{Index, View};
use std::alloc::Global;
use std::marker::Model;

/// All replicas of a document: what each has in memory and what it has kept, and every ask and answer that was made, as
/// bytes. In memory an [`Index`] holds each.
#[derive(Drop)]
pub struct World<S: DotSet> {
    roster: Roster,
    memory: Vec<Index<S>>,
    kept: Vec<Kept<S>>,
    asks: Vec<Asking>,
    answers: Vec<Answering>,
}

impl<S: DotSet> Model for World<S> {
    ghost use Rattle.rds_world.specs.Stored.{WorldValue, coded_world};
    ghost use Rattle.rds_world.specs.Stands.{IsWorld};

    ghost Value = { WorldValue };

    ghost coded = { coded_world };

    ghost view = { λ w. record {
      roster = w.roster;
      memory = w.memory.items;
      kept = w.kept.items;
      asks = w.asks.items;
      answers = w.answers.items;
    } };

    ghost invariant = { λ w. IsWorld (record {
      roster = w.roster;
      memory = w.memory.items;
      kept = w.kept.items;
      asks = w.asks.items;
      answers = w.answers.items;
    }) };
}

impl<S: DotSet> World<S> {
    /// The replicas of the roster, all empty in memory and as kept, without asks or answers.
    pub fn new(alloc: Global, roster: Roster) -> Result<World<S>, Fault>
        ensures start { IfOk result (λ world. Stands world (initial_world roster.names)) }
        ensures roster { IfOk result (λ world. world.roster ≡ roster) }
        ensures memory { IfErr result (λ fault. fault ≡ Memory) }
    {
        let (memory, kept) = empty_replicas(alloc, &roster)?;
        Ok(World::opened(alloc, roster, memory, kept))
    }

    /// The same, or a world without replicas.
    pub(crate) fn open(alloc: Global, roster: Roster) -> Result<World<S>, (World<S>, Fault)>
        ensures start { IfOk result (λ world. Stands world (initial_world roster.names)) }
        ensures nothing { IfErr result (λ e. HasNoReplicas e.0 e.1) }
        ensures roster { MatchResult result (λ world. world.roster ≡ roster) (λ e. e.0.roster ≡ roster) }
        ensures few { length roster.names ≤ 256 }
    {
        match empty_replicas(alloc, &roster) {
            Ok((memory, kept)) => Ok(World::opened(alloc, roster, memory, kept)),
            Err(fault) => Err((
                World::opened(alloc, roster, Vec::new(alloc), Vec::new(alloc)),
                fault,
            )),
        }
    }

    /// A world of these replicas, which have no components.
    fn opened(alloc: Global, roster: Roster, memory: Vec<Index<S>>, kept: Vec<Kept<S>>) -> World<S>
        requires memory { AreNew roster memory.items (length memory.items) }
        requires kept { AreNew roster kept.items (length memory.items) }
        requires whole { IsWhole roster memory.items }
        ensures start { Stands result (initial_world (take (length memory.items) roster.names)) }
        ensures roster { result.roster ≡ roster }
        ensures memory { result.memory ≡ memory.items }
        ensures kept { result.kept ≡ kept.items }
        ensures asks { result.asks ≡ [] }
        ensures answers { result.answers ≡ [] }
    {
        World {
            roster,
            memory,
            kept,
            asks: Vec::new(alloc),
            answers: Vec::new(alloc),
        }
    }

    /// The names of the replicas.
    pub fn roster(&self) -> &Roster
        ensures { result.now ≡ self.now.roster }
    {
        &self.roster
    }

    /// What the replica with this number has in memory.
    pub fn memory(&self, number: u8) -> Result<&Replica<S>, Fault>
        ensures there { IfOk result (λ replica. slice_get self.now.memory number ≡ Some replica.now) }
        ensures own { IfOk result (λ replica. replica.now.own ≡ number) }
        ensures roster { IfOk result (λ replica. Begins replica.now.roster self.now.roster) }
        ensures absent { IfErr result (λ fault. (fault ≡ NoSuch) × (slice_get self.now.memory number ≡ None)) }
    {
        Ok(self.index_at(number)?.replica())
    }

    /// The index that holds the replica with this number in memory.
    fn index_at(&self, number: u8) -> Result<&Index<S>, Fault>
        ensures there { IfOk result (λ index. slice_get self.now.memory number ≡ Some index.now) }
        ensures own { IfOk result (λ index. index.now.own ≡ number) }
        ensures roster { IfOk result (λ index. Begins index.now.roster self.now.roster) }
        ensures absent { IfErr result (λ fault. (fault ≡ NoSuch) × (slice_get self.now.memory number ≡ None)) }
    {
        match self.memory.get(usize::from(number)) {
            Some(index) => Ok(index),
            None => Err(Fault::NoSuch),
        }
    }

    /// What the document of the replica with this number has in memory at a path. In its index it walks only what it
    /// shows.
    pub fn view(&self, number: u8, path: &Path) -> Result<View, Fault>
        ensures shown { IfOk result (λ view. ShowsAt self.now.memory number path.now (shown_view view)) }
        ensures absent { slice_get self.now.memory number ≡ None → result ≡ Err NoSuch }
        ensures refused { IfErr result (λ fault. (fault ≡ Memory) ⊎ IsNoSuch self.now.memory number fault) }
    {
        let index = self.index_at(number)?;
        let view = index.view(path)?;
        Ok(view)
    }

    /// What the replica with this number has kept.
    pub fn kept(&self, number: u8) -> Result<&Kept<S>, Fault>
        ensures there { IfOk result (λ kept. slice_get self.now.kept number ≡ Some kept.now) }
        ensures own { IfOk result (λ kept. kept.now.own ≡ number) }
        ensures roster { IfOk result (λ kept. Begins kept.now.roster self.now.roster) }
        ensures absent { IfErr result (λ fault. (fault ≡ NoSuch) × (slice_get self.now.kept number ≡ None)) }
    {
        match self.kept.get(usize::from(number)) {
            Some(kept) => Ok(kept),
            None => Err(Fault::NoSuch),
        }
    }

    /// The bytes of the ask with this number: the text of the digest.
    pub fn ask_bytes(&self, number: u64) -> Result<&[u8], Fault>
        ensures there { IfOk result (λ bytes. ask_bytes_at self.now.asks number ≡ Some bytes.now) }
        ensures absent { IfErr result (λ fault. (fault ≡ NoSuch) × (ask_bytes_at self.now.asks number ≡ None)) }
    {
        match self.asks.get(number as usize) {
            Some(ask) => Ok(&ask.bytes),
            None => Err(Fault::NoSuch),
        }
    }

    /// The bytes of the answer with this number: who asked, the delta and its certificate.
    pub fn answer_bytes(&self, number: u64) -> Result<&[u8], Fault>
        ensures there { IfOk result (λ bytes. answer_bytes_at self.now.answers number ≡ Some bytes.now) }
        ensures absent { IfErr result (λ fault. (fault ≡ NoSuch) × (answer_bytes_at self.now.answers number ≡ None)) }
    {
        match self.answers.get(number as usize) {
            Some(answer) => Ok(&answer.bytes),
            None => Err(Fault::NoSuch),
        }
    }
}

impl<S: DotSet> World<S> {
    /// Makes the event happen, if nothing is in its way, and says what it did.
    ///
    /// Refuses `NoSuch` where there is no such replica, ask or answer; what an edit refuses; `WrongRoster` where the
    /// roster grows at a replica that doesn't know all of it, then `BadRoster` where the name is known or there are
    /// 256; and `TooLong` where the text of a snapshot, an ask or an answer would be above the limit. No other fault
    /// comes but `Memory`, and that one only where no fault is due that is found without memory, and where the event
    /// may take memory, as an edit does only if it adds a live dot or a number: every answer is taken, whenever and
    /// however often it comes.
    pub fn step(&mut self, alloc: Global, event: &Event) -> Result<Done, Fault>
        ensures accepted { OnOk result ((w : ModelWorld) → Stands self.old w → IsAccepted self.old w event.now) }
        ensures after { OnOk result ((w : ModelWorld) → Stands self.old w → Stands self.new (after w event.now)) }
        ensures done { IfOk result (λ done. (w : ModelWorld) → Stands self.old w → IsDone self.old w event.now done) }
        ensures refused { IfErr result (λ fault. (w : ModelWorld) → Stands self.old w → RefusesEvent self.old w event.now fault) }
        ensures err { OnErr result (self.new ≡ self.old) }
        ensures roster { OnOk result (self.new.roster ≡ roster_after_event self.old.roster event.now) }
        ensures begins { Begins self.old.roster self.new.roster }
    {
        self.perform(alloc, event)
    }

    fn perform(&mut self, alloc: Global, event: &Event) -> Result<Done, Fault>
        ensures ok { IfOk result (λ done. IsStep self.old event.now done self.new) }
        ensures err { IfErr result (λ fault. IsStopped self.old event.now fault self.new) }
    {
        match event {
            Event::Edit(number, command) => self.edit(*number, command),
            Event::Save(number) => self.save(alloc, *number),
            Event::Crash(number) => self.crash(alloc, *number),
            Event::Ask(number) => self.ask(alloc, *number),
            Event::Answer(number, question) => self.answer(alloc, *number, *question),
            Event::Take(number) => self.take(alloc, *number),
            Event::Grow(number, name) => self.grow(alloc, *number, *name),
        }
    }

    fn edit(&mut self, number: u8, command: &Command) -> Result<Done, Fault>
        ensures ok { IfOk result (λ done. IsStep self.old (Edit number command.now) done self.new) }
        ensures err { IfErr result (λ fault. IsStopped self.old (Edit number command.now) fault self.new) }
    {
        let at = usize::from(number);
        if at >= self.memory.len() {
            return Err(Fault::NoSuch);
        }
        let edited = self.memory[at].edit_by(command)?;
        Ok(Done::Edited(edited))
    }

    fn save(&mut self, alloc: Global, number: u8) -> Result<Done, Fault>
        ensures ok { IfOk result (λ done. IsStep self.old (Save number) done self.new) }
        ensures err { IfErr result (λ fault. IsStopped self.old (Save number) fault self.new) }
    {
        let at = usize::from(number);
        if at >= self.memory.len() {
            return Err(Fault::NoSuch);
        }
        let kept = keep(alloc, self.memory[at].replica())?;
        self.kept[at] = kept;
        Ok(Done::Plain)
    }

    fn crash(&mut self, alloc: Global, number: u8) -> Result<Done, Fault>
        ensures ok { IfOk result (λ done. IsStep self.old (Crash number) done self.new) }
        ensures err { IfErr result (λ fault. IsStopped self.old (Crash number) fault self.new) }
    {
        let at = usize::from(number);
        if at >= self.memory.len() {
            return Err(Fault::NoSuch);
        }
        let replica = indexed(alloc, self.kept[at].view_of())?;
        self.memory[at] = replica;
        Ok(Done::Plain)
    }

    fn ask(&mut self, alloc: Global, number: u8) -> Result<Done, Fault>
        ensures ok { IfOk result (λ done. IsStep self.old (Ask number) done self.new) }
        ensures err { IfErr result (λ fault. IsStopped self.old (Ask number) fault self.new) }
    {
        let at = usize::from(number);
        if at >= self.memory.len() {
            return Err(Fault::NoSuch);
        }
        let kept = self.kept[at].view_of();
        let ask = messages::ask(alloc, kept)?;
        let question = self.asks.len() as u64;
        self.asks.push(ask)?;
        Ok(Done::Asked(question))
    }

    fn answer(&mut self, alloc: Global, number: u8, question: u64) -> Result<Done, Fault>
        ensures ok { IfOk result (λ done. IsStep self.old (Answer number question) done self.new) }
        ensures err { IfErr result (λ fault. IsStopped self.old (Answer number question) fault self.new) }
    {
        let at = usize::from(number);
        if at >= self.memory.len() {
            return Err(Fault::NoSuch);
        }
        if question >= self.asks.len() as u64 {
            return Err(Fault::NoSuch);
        }
        let kept = self.kept[at].view_of();
        let ask = &self.asks[question as usize];
        let (answer, components) = messages::answer(alloc, kept, question, ask)?;
        let number = self.answers.len() as u64;
        self.answers.push(answer)?;
        Ok(Done::Answered(number, components))
    }

    fn take(&mut self, alloc: Global, number: u64) -> Result<Done, Fault>
        ensures ok { IfOk result (λ done. IsStep self.old (Take number) done self.new) }
        ensures err { IfErr result (λ fault. IsStopped self.old (Take number) fault self.new) }
    {
        if number >= self.answers.len() as u64 {
            return Err(Fault::NoSuch);
        }
        let answer = &self.answers[number as usize];
        let ask = &self.asks[answer.question as usize];
        let replica = &mut self.memory[usize::from(answer.asker)];
        messages::take(alloc, replica, ask, answer)?;
        Ok(Done::Plain)
    }

    fn grow(&mut self, alloc: Global, number: u8, name: Name) -> Result<Done, Fault>
        ensures ok { IfOk result (λ done. IsStep self.old (Grow number name) done self.new) }
        ensures err { IfErr result (λ fault. IsStopped self.old (Grow number name) fault self.new) }
    {
        let roster = self.roster_with(alloc, number, name)?;
        let (index, kept) = newcomer(alloc, &roster, self.memory.len() as u8)?;
        let own = roster.copy(alloc)?;
        push_both(&mut self.memory, index, &mut self.kept, kept)?;
        // Its own roster begins this one, so nothing is refused any more.
        self.memory[usize::from(number)].grow(own)?;
        self.roster = roster;
        Ok(Done::Plain)
    }

    /// The roster with the name after all others, by a replica that knows them.
    fn roster_with(&self, alloc: Global, number: u8, name: Name) -> Result<Roster, Fault>
        ensures ok { IfOk result (MayGrow self.now number name) }
        ensures err { IfErr result (λ fault. IsStopped self.now (Grow number name) fault self.now) }
    {
        let at = usize::from(number);
        if at >= self.memory.len() {
            return Err(Fault::NoSuch);
        }
        let own = self.memory[at].replica().roster();
        if usize::from(own.len()) < self.memory.len() {
            return Err(Fault::WrongRoster);
        }
        own.grown(alloc, &[name])
    }
}
