//! All replicas of a group in memory, which lines edit and ask.
ghost use Rattle.std.specs.Prelude.{◌≡◌, ◌⊎◌, List, ℕ, Ok, Err, Some, None, Option, IfOk, IfErr, slice_get};
ghost use Rattle.rds_names.specs.declared.fault.Fault.TheVariants.{Memory, NoSuch};
ghost use Rattle.rds_lines.specs.Views.{ShowsView};
ghost use Rattle.rds_lines.specs.Lines.{ReadsText};
ghost use Rattle.rds_names.specs.Roster.{number_named};
ghost use Rattle.rds_lines.specs.Sim.{Group, MeetsBytes, done_reply, request_of};
ghost use Rattle.rds_lines.specs.Simulated.{IsGroup, LeadsGroupTo, LineLeadsTo, reply_of};
ghost use Rattle.rds_state.specs.Fits.{ReplicaValue};

use crate::answering::Answers;
use crate::views::{Layout, printed};
use rds_dots::DotSet;
use rds_gaps::GapSet;
use rds_json::{Line, LineReader};
use rds_names::{Fault, Name, Path, Roster};
use rds_output::Reply;
use rds_world::{Done, Event, World};
use std::alloc::Global;

/// All replicas of a group, once a line has named them.
#[derive(Drop)]
pub struct Simulation {
    world: Option<World<GapSet>>,
    reader: LineReader,
}

// What a line asks of replicas that are there.
#[derive(Drop)]
enum Request {
    // That this happens.
    Event(Event),
    // What a replica has in memory at a path.
    Show(u8, Path),
}

impl Simulation {
    /// No line has named a group yet.
    pub fn new(alloc: Global) -> Simulation
        ensures { result.world ≡ None }
    {
        Simulation {
            world: None,
            reader: LineReader::new(alloc),
        }
    }

    // Answers a line, or refuses it.
    fn answered(&mut self, alloc: Global, line: Result<String, Fault>) -> Result<Reply, Fault>
        ensures { (bytes : List ℕ) (now : Option Group) → ReadsText bytes line → IsGroup self.old.world now
            → (next : Option Group) × IsGroup self.new.world next × MeetsBytes now bytes (reply_of result) next }
    {
        let text = line?;
        let line = self.reader.command(alloc, text.as_str())?;
        self.meet(alloc, line)
    }

    // Does what a line asks for.
    fn meet(&mut self, alloc: Global, line: Line) -> Result<Reply, Fault>
        ensures { (now : Option Group) → LineLeadsTo self.old.world now line result self.new.world }
    {
        match &mut self.world {
            Some(world) => meet_in(alloc, world, line),
            None => {
                self.world = Some(open(alloc, line)?);
                Ok(Reply::Done)
            }
        }
    }
}

impl Answers for Simulation {
    ghost use Rattle.std.specs.Prelude.{Option, refl};
    ghost use Rattle.rds_lines.specs.Sim.{Group, MeetsLines};
    ghost use Rattle.rds_lines.specs.Simulated.{IsGroup};

    ghost may_answer = { λ s lines out refused.
        (now : Option Group) → IsGroup s.world now → MeetsLines lines now out refused };

    fn answer(&mut self, alloc: Global, line: Result<String, Fault>) -> Reply {
        match self.answered(alloc, line) {
            Ok(answer) => answer,
            Err(fault) => Reply::Refused(fault),
        }
    }

    ghost ends = { λ s now h. (refl, refl) };
}

// The replicas of the first line's roster.
fn open<S: DotSet>(alloc: Global, line: Line) -> Result<World<S>, Fault>
    ensures ok { IfOk result (λ world. LineLeadsTo None None line (Ok Reply.Done) (Some world)) }
    ensures err { IfErr result (λ fault. LineLeadsTo None None line (Err fault) None) }
{
    match line {
        Line::Roster(roster) => World::new(alloc, roster),
        _ => Err(Fault::NoSuch),
    }
}

// Does what a line asks of these replicas.
fn meet_in<S: DotSet>(alloc: Global, world: &mut World<S>, line: Line) -> Result<Reply, Fault>
    ensures { (now : Group) → LineLeadsTo (Some world.old) (Some now) line result (Some world.new) }
{
    match request_of(world.roster(), line)? {
        Request::Event(event) => happen(alloc, world, &event),
        Request::Show(number, path) => show(alloc, world, number, &path),
    }
}

// What a line asks of replicas of this roster.
fn request_of(roster: &Roster, line: Line) -> Result<Request, Fault>
    ensures { result ≡ request_of roster.now line }
{
    Ok(match line {
        Line::Roster(_) => return Err(Fault::BadRoster),
        Line::Edit(name, command) => Request::Event(Event::Edit(number_of(roster, name)?, command)),
        Line::Save(name) => Request::Event(Event::Save(number_of(roster, name)?)),
        Line::Crash(name) => Request::Event(Event::Crash(number_of(roster, name)?)),
        Line::Ask(name) => Request::Event(Event::Ask(number_of(roster, name)?)),
        Line::Answer(name, ask) => Request::Event(Event::Answer(number_of(roster, name)?, ask)),
        Line::Take(answer) => Request::Event(Event::Take(answer)),
        Line::Grow(name, newcomer) => {
            Request::Event(Event::Grow(number_of(roster, name)?, newcomer))
        }
        Line::Show(name, path) => Request::Show(number_of(roster, name)?, path),
    })
}

fn number_of(roster: &Roster, name: Name) -> Result<u8, Fault>
    ensures { result ≡ number_named roster.now name }
{
    match roster.number_of(name) {
        Some(number) => Ok(number),
        None => Err(Fault::NoSuch),
    }
}

// Lets an event happen, and answers what it did.
fn happen<S: DotSet>(alloc: Global, world: &mut World<S>, event: &Event) -> Result<Reply, Fault>
    ensures { (now : Group) → LeadsGroupTo world.old now event.now result world.new }
{
    let done = world.step(alloc, event)?;
    Ok(done_reply(world.roster(), &done))
}

// The answer to an event that happened.
fn done_reply(roster: &Roster, done: &Done) -> Reply
    ensures { result ≡ done_reply roster.now done.now }
{
    match done {
        Done::Edited(edited) => Reply::of_edit(roster, edited),
        Done::Plain => Reply::Done,
        Done::Asked(number) => Reply::Asked(*number),
        Done::Answered(number, components) => Reply::Answered {
            number: *number,
            components: *components,
        },
    }
}

// Shows what a replica has in memory at a path.
fn show<S: DotSet>(alloc: Global, world: &World<S>, number: u8, path: &Path) -> Result<Reply, Fault>
    ensures shown { IfOk result
        (λ answer. (replica : ReplicaValue) × (slice_get world.now.memory number ≡ Some replica)
        × ShowsView Layout.Compact replica.state path.now answer) }
    ensures refused { IfErr result
        (λ fault. (fault ≡ Memory) ⊎ ((fault ≡ NoSuch) × (slice_get world.now.memory number ≡ None))) }
{
    let view = world.view(number, path)?;
    printed(alloc, &view, Layout::Compact)
}
