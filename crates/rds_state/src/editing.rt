//! The edit of a state.
ghost use Rattle.std.specs.Prelude.{◌≡◌, ◌+◌, ◌≢◌, [], true, false, None, Some, Err, count_by, IfOk, IfErr, OnErr};
ghost use Rattle.std.specs.Prelude.{MatchResult};
ghost use Rattle.std.specs.FinMap as map;
ghost use Rattle.rds_counts.specs.Counted.{number, place};
ghost use Rattle.rds_counts.specs.declared.row.Which.TheVariants.{P, N};
ghost use Rattle.rds_dots.specs.declared.dot.Dot.{Dot};
ghost use Rattle.rds_dots.specs.Dots.{is_dot};
ghost use Rattle.rds_life.specs.Killed.{killed_by};
ghost use Rattle.rds_life.specs.Life.{Live, live_rows};
ghost use Rattle.rds_names.specs.declared.entry.Entry.{Entry};
ghost use Rattle.rds_names.specs.declared.fault.Fault.TheVariants.{Memory};
ghost use Rattle.rds_names.specs.Entry.{HasParts};
ghost use Rattle.rds_state.specs.Chosen.{is_chosen, command_parts, CommandParts, AreRaised};
ghost use Rattle.rds_state.specs.Edit.{covers, JoinsEffect, new_dot, makes_pair, needs_room, own_top, path_fault};
ghost use Rattle.rds_state.specs.Edit.{refusal, seq_fault, count_fault, IsDue};
ghost use Rattle.rds_dots.specs.Lacking.{dot_of};
ghost use Rattle.rds_state.specs.Value.{coordinates};

use crate::command::{Command, Edited};
use crate::covering::covers_entry;
use crate::state::State;
use rds_counts::Which;
use rds_dots::{Dot, DotSet, MAX_SEQ};
use rds_life::{Choice, Found, Lives};
use rds_names::{Entry, Fault, Key, Kind, Path, Scalar};
use std::alloc::Global;

/// The live dots that a command covers, but a new one.
#[derive(Drop)]
struct Covered<'a> {
    command: &'a Command,
    but: Option<Dot>,
}

impl<'a> Choice for Covered<'a> {
    ghost chosen = { λ c. is_chosen c.command.now c.but };

    fn chooses(&self, dot: Dot, entry: &Entry) -> bool {
        match self.but {
            None => covers_entry(self.command, entry),
            Some(new) => new != dot && covers_entry(self.command, entry),
        }
    }
}

/// The live dots that a command covers, found by a look at each.
#[derive(Drop)]
pub struct Searched<'a> {
    pub command: &'a Command,
}

impl<'a> Found for Searched<'a> {
    ghost found = { λ s d e. covers s.command.now e };

    fn kill_in<S: DotSet>(&self, lives: &mut Lives<S>, but: Option<Dot>) {
        lives.kill_chosen(&Covered {
            command: self.command,
            but,
        });
    }
}

/// Joins the effect of a command on the state of a replica to that state. The live dots that it covers were found.
pub fn edit<S: DotSet, F: Found>(
    state: &mut State<S>,
    own: u8,
    command: &Command,
    found: &F,
) -> Result<Edited, Fault>
    requires found { (d : Dot) (e : Entry) → map.get state.old.lives d ≡ Some (Live e)
        → F.found found.now d e ≡ covers command.now e }
    ensures joined { IfOk result (λ _. JoinsEffect (coordinates state.old) own command.now (coordinates state.new)) }
    ensures dot { IfOk result (λ edited. edited.dot ≡ new_dot (coordinates state.old) own command.now) }
    ensures killed { IfOk result
        (λ edited. edited.killed ≡ count_by (λ r. covers command.now r.1) (live_rows state.old.lives)) }
    ensures refusal { let due = refusal (coordinates state.old) own command.now in
        MatchResult result (λ _. due ≡ None) (IsDue due) }
    ensures room { needs_room (coordinates state.old) own command.now ≡ false → result ≢ Err Memory }
    ensures err { OnErr result (state.new ≡ state.old) }
{
    match command {
        Command::Set(path, value) => put(state, own, command, found, path, Kind::Reg, value),
        Command::Add(path, value) => put(state, own, command, found, path, Kind::Elem, value),
        Command::Del(path, _) => {
            if path.is_empty() {
                return Err(Fault::BadPath);
            }
            Ok(kill(state, command, found))
        }
        Command::Clear(_) => Ok(kill(state, command, found)),
        Command::Inc(key, by) => raise(state, own, key, Which::P, *by),
        Command::Dec(key, by) => raise(state, own, key, Which::N, *by),
    }
}

/// Makes the next own dot live with the command's entry, and the dots dead that the command covers.
fn put<S: DotSet, F: Found>(
    state: &mut State<S>,
    own: u8,
    command: &Command,
    found: &F,
    path: &Path,
    kind: Kind,
    value: &Scalar,
) -> Result<Edited, Fault>
    requires parts { let parts : CommandParts = record { path = path.now; kind = kind; value = value.now } in
        command_parts command.now ≡ Some parts }
    requires found { (d : Dot) (e : Entry) → map.get state.old.lives d ≡ Some (Live e)
        → F.found found.now d e ≡ covers command.now e }
    ensures joined { IfOk result (λ _. JoinsEffect (coordinates state.old) own command.now (coordinates state.new)) }
    ensures dot { IfOk result (λ edited. edited.dot ≡ new_dot (coordinates state.old) own command.now) }
    ensures killed { IfOk result
        (λ edited. edited.killed ≡ count_by (λ r. covers command.now r.1) (live_rows state.old.lives)) }
    ensures refusal { let due = refusal (coordinates state.old) own command.now in
        MatchResult result (λ _. due ≡ None) (IsDue due) }
    ensures err { OnErr result (state.new ≡ state.old) }
{
    let dot = next_dot(state, own, path)?;
    let entry = entry_of(state.alloc(), path, kind, value)?;
    let killed = replace(state, dot, entry, command, found)?;
    Ok(Edited {
        dot: Some(dot),
        killed,
    })
}

/// The next own dot, for an entry at the path.
pub fn next_dot<S: DotSet>(state: &State<S>, own: u8, path: &Path) -> Result<Dot, Fault>
    ensures exact { let top = own_top (coordinates state.now) own in
        MatchResult result (λ dot. (path_fault path.now (seq_fault top) ≡ None) × (dot ≡ dot_of own (top + 1)))
        (λ fault. path_fault path.now (seq_fault top) ≡ Some fault) }
    ensures unseen { IfOk result (λ dot. map.get state.now.lives dot ≡ None) }
{
    if path.is_empty() {
        return Err(Fault::BadPath);
    }
    let top = state.lives().seen().top(own);
    if top >= MAX_SEQ {
        return Err(Fault::SeqFull);
    }
    Ok(Dot {
        replica: own,
        seq: top + 1,
    })
}

/// The entry of these parts, with memory of its own.
fn entry_of(alloc: Global, path: &Path, kind: Kind, value: &Scalar) -> Result<Entry, Fault>
    requires { path.now ≢ [] }
    ensures ok { IfOk result (HasParts path.now kind value.now) }
    ensures memory { IfErr result (λ fault. fault ≡ Memory) }
{
    Entry::new(path.copy(alloc)?, kind, value.copy(alloc)?)
}

/// Makes a dot live, and then the other dots dead that the command covers; how many there were. Only the first step
/// can want memory, so a refusal leaves all as it was.
fn replace<S: DotSet, F: Found>(
    state: &mut State<S>,
    dot: Dot,
    entry: Entry,
    command: &Command,
    found: &F,
) -> Result<u64, Fault>
    requires dot { is_dot dot ≡ true }
    requires unseen { map.get state.old.lives dot ≡ None }
    requires found { (d : Dot) (e : Entry) → map.get state.old.lives d ≡ Some (Live e)
        → F.found found.now d e ≡ covers command.now e }
    ensures lives { IfOk result
        (λ _. (d : Dot) → map.get state.new.lives d
        ≡ killed_by (is_chosen command.now (Some dot)) d (map.get (map.insert state.old.lives dot (Live entry)) d)) }
    ensures counts { state.new.counts ≡ state.old.counts }
    ensures killed { IfOk result
        (λ killed. killed ≡ count_by (λ r. covers command.now r.1) (live_rows state.old.lives)) }
    ensures err { OnErr result (state.new ≡ state.old) }
    ensures memory { IfErr result (λ fault. fault ≡ Memory) }
{
    state.put_live(dot, entry)?;
    Ok(state.kill_found(found, Some(dot)))
}

/// Makes the dots dead that the command covers.
fn kill<S: DotSet, F: Found>(state: &mut State<S>, command: &Command, found: &F) -> Edited
    requires found { (d : Dot) (e : Entry) → map.get state.old.lives d ≡ Some (Live e)
        → F.found found.now d e ≡ covers command.now e }
    ensures lives { (d : Dot)
        → map.get state.new.lives d ≡ killed_by (is_chosen command.now None) d (map.get state.old.lives d) }
    ensures counts { state.new.counts ≡ state.old.counts }
    ensures killed { result.killed ≡ count_by (λ r. covers command.now r.1) (live_rows state.old.lives) }
    ensures dot { result.dot ≡ None }
{
    let killed = state.kill_found(found, None);
    Edited { dot: None, killed }
}

/// Adds an amount to one of a replica's numbers.
fn raise<S: DotSet>(
    state: &mut State<S>,
    own: u8,
    key: &Key,
    which: Which,
    by: u64,
) -> Result<Edited, Fault>
    ensures numbers { IfOk result (λ _. AreRaised state.old.counts (place key.now own which) by state.new.counts) }
    ensures lives { state.new.lives ≡ state.old.lives }
    ensures edited { IfOk result (λ edited. (edited.dot ≡ None) × (edited.killed ≡ 0)) }
    ensures refusal { let due = count_fault (number state.old.counts (place key.now own which) + by) in
        MatchResult result (λ _. due ≡ None) (IsDue due) }
    ensures room { makes_pair (number state.old.counts (place key.now own P))
        (number state.old.counts (place key.now own N)) by ≡ false → result ≢ Err Memory }
    ensures err { OnErr result (state.new ≡ state.old) }
{
    state.raise(key, own, which, by)?;
    Ok(Edited {
        dot: None,
        killed: 0,
    })
}
