//! Edits that hand out their effect, as a state.
ghost use Rattle.std.specs.Prelude.{◌≡◌, ◌+◌, ◌≤◌, true, Some, IfOk, IfErr, IfSome};
ghost use Rattle.std.specs.FinMap as map;
ghost use Rattle.std.specs.List.{list_all};
ghost use Rattle.rds_counts.specs.Counted.{number, place};
ghost use Rattle.rds_counts.specs.Place.{Place};
ghost use Rattle.rds_counts.specs.declared.row.TheConstants.{MAX_COUNT};
ghost use Rattle.rds_dots.specs.declared.dot.Dot.{Dot};
ghost use Rattle.rds_dots.specs.Dots.{is_dot};
ghost use Rattle.rds_life.specs.Life.{live_rows};
ghost use Rattle.rds_names.specs.declared.fault.Fault.TheVariants.{Memory};
ghost use Rattle.rds_state.specs.Chosen.{command_parts, CommandParts};
ghost use Rattle.rds_state.specs.Edit.{count_fault, effect, life_killed, number_raised, refusal, IsDue};
ghost use Rattle.rds_state.specs.Made.{entry_made};
ghost use Rattle.rds_state.specs.Mark.{mark_of};
ghost use Rattle.rds_state.specs.Value.{coordinates};
ghost use Rattle.rds_tree.specs.Cuts.{path_covered};
ghost use Rattle.rds_tree.specs.EditsWithDelta.{EditsWithDelta};
ghost use Rattle.rds_tree.specs.Growing.{Holds};
ghost use Rattle.rds_tree.specs.Held.{killed_in};

use crate::covered::covered;
use crate::marking::edit_marked;
use crate::node::Node;
use rds_counts::{Counts, MAX_COUNT, Which};
use rds_dots::{Dot, DotSet};
use rds_life::Lives;
use rds_names::{Entry, Fault, Key, Kind, Path, Scalar};
use rds_state::{Command, Edited, Mark, Replica, State};
use std::alloc::Global;

/// Edits a replica, as [`Replica::edit_by`] does, and hands out what that changed, as a delta. What the command covers is
/// found by a look at each live entry, so that no tree has to be built. A command that makes dots dead takes memory for
/// it.
pub fn edit_with_delta<S: DotSet>(
    alloc: Global,
    replica: &mut Replica<S>,
    command: &Command,
) -> Result<(Edited, State<S>), Fault>
    ensures { EditsWithDelta replica.old command.now result replica.new }
{
    let delta = effect(alloc, replica, None, command)?;
    let edited = replica.edit_by(command)?;
    let _within = replica.state();
    Ok((edited, delta))
}

/// Edits the replica and its tree, keeps the mark of its state, and hands out the effect. All of it is made before
/// anything changes.
pub fn edit_tree_with_delta<S: DotSet>(
    alloc: Global,
    replica: &mut Replica<S>,
    tree: &mut Node,
    mark: &mut Mark,
    command: &Command,
) -> Result<(Edited, State<S>), Fault>
    requires holds { Holds (live_rows replica.old.state.lives) tree.old }
    requires marked { mark.old ≡ mark_of replica.old.state }
    ensures holds { Holds (live_rows replica.new.state.lives) tree.new }
    ensures marked { mark.new ≡ mark_of replica.new.state }
    ensures edited { EditsWithDelta replica.old command.now result replica.new }
{
    let delta = effect(alloc, replica, Some(&*tree), command)?;
    let edited = edit_marked(alloc, replica, tree, mark, command)?;
    let _within = replica.state();
    Ok((edited, delta))
}

/// The effect of a command, or why it is refused. Where the replica keeps a tree, what the command covers is found there.
fn effect<S: DotSet>(
    alloc: Global,
    replica: &Replica<S>,
    tree: Option<&Node>,
    command: &Command,
) -> Result<State<S>, Fault>
    requires holds { IfSome tree (λ t. Holds (live_rows replica.now.state.lives) t.now) }
    ensures ok { IfOk result (λ delta. coordinates delta
        ≡ effect (coordinates replica.now.state) replica.now.own command.now (entry_made command.now)) }
    ensures due { IfErr result (IsDue (refusal (coordinates replica.now.state) replica.now.own command.now)) }
{
    match command {
        Command::Set(path, value) => put(alloc, replica, tree, command, path, Kind::Reg, value),
        Command::Add(path, value) => put(alloc, replica, tree, command, path, Kind::Elem, value),
        Command::Del(path, _) => {
            if path.is_empty() {
                return Err(Fault::BadPath);
            }
            let lives = killed(alloc, replica, tree, command, path)?;
            Ok(State::from_lives(alloc, lives))
        }
        Command::Clear(path) => {
            let lives = killed(alloc, replica, tree, command, path)?;
            Ok(State::from_lives(alloc, lives))
        }
        Command::Inc(key, by) => raise(alloc, replica, key, Which::P, *by),
        Command::Dec(key, by) => raise(alloc, replica, key, Which::N, *by),
    }
}

/// The effect of a command that makes an entry live.
fn put<S: DotSet>(
    alloc: Global,
    replica: &Replica<S>,
    tree: Option<&Node>,
    command: &Command,
    path: &Path,
    kind: Kind,
    value: &Scalar,
) -> Result<State<S>, Fault>
    requires parts { let parts : CommandParts = record { path = path.now; kind = kind; value = value.now } in
        command_parts command.now ≡ Some parts }
    requires holds { IfSome tree (λ t. Holds (live_rows replica.now.state.lives) t.now) }
    ensures ok { IfOk result (λ delta. coordinates delta
        ≡ effect (coordinates replica.now.state) replica.now.own command.now (entry_made command.now)) }
    ensures due { IfErr result (IsDue (refusal (coordinates replica.now.state) replica.now.own command.now)) }
{
    let dot = replica.next_dot(path)?;
    let _replica = dot.replica;
    let entry = Entry::new(path.copy(alloc)?, kind, value.copy(alloc)?)?;
    let mut lives = killed(alloc, replica, tree, command, path)?;
    lives.put_live(dot, entry)?;
    Ok(State::from_lives(alloc, lives))
}

/// The effect of a command that raises a number.
fn raise<S: DotSet>(
    alloc: Global,
    replica: &Replica<S>,
    key: &Key,
    which: Which,
    by: u64,
) -> Result<State<S>, Fault>
    ensures lives { IfOk result (λ delta. delta.lives ≡ map.empty) }
    ensures numbers { IfOk result (λ delta. (q : Place) → number delta.counts q
        ≡ number_raised (coordinates replica.now.state) (place key.now replica.now.own which) by q) }
    ensures due { IfErr result
        (IsDue (count_fault (number replica.now.state.counts (place key.now replica.now.own which) + by))) }
{
    let own = replica.own();
    let before = number_of(replica.state().counts(), key, own, which);
    if MAX_COUNT - before < by {
        return Err(Fault::CounterFull);
    }
    let mut counts = Counts::empty(alloc);
    if let Err(fault) = counts.raise(key, own, which, before + by) {
        return Err(fault);
    }
    Ok(State::from_parts(Lives::empty(alloc), counts))
}

/// One of a replica's numbers under a key.
fn number_of(counts: &Counts, key: &Key, replica: u8, which: Which) -> u64
    ensures number { result ≡ number counts.now (place key.now replica which) }
    ensures within { result ≤ MAX_COUNT }
{
    let (p, n) = counts.pair(key, replica);
    match which {
        Which::P => p,
        Which::N => n,
    }
}

/// The dots that a command covers, dead.
fn killed<S: DotSet>(
    alloc: Global,
    replica: &Replica<S>,
    tree: Option<&Node>,
    command: &Command,
    path: &Path,
) -> Result<Lives<S>, Fault>
    requires path { path.now ≡ path_covered command.now }
    requires holds { IfSome tree (λ t. Holds (live_rows replica.now.state.lives) t.now) }
    ensures ok { IfOk result (λ lives. (d : Dot)
        → map.get lives d ≡ life_killed command.now (map.get replica.now.state.lives d)) }
    ensures memory { IfErr result (λ fault. fault ≡ Memory) }
{
    let _dots_alone = replica.state().lives().seen();
    let dots = covered(alloc, replica, tree, command, path)?;
    dead(alloc, &dots)
}

/// Lives of which these dots are dead, and all others unseen. Dots in order go to the end of the set, one by one.
fn dead<S: DotSet>(alloc: Global, dots: &[Dot]) -> Result<Lives<S>, Fault>
    requires { list_all is_dot dots.now ≡ true }
    ensures ok { IfOk result (λ lives. (d : Dot) → map.get lives d ≡ killed_in dots.now d) }
    ensures memory { IfErr result (λ fault. fault ≡ Memory) }
{
    let mut lives = Lives::empty(alloc);
    let mut rest = dots;
    'killing: while let Some((dot, later)) = rest.split_first() {
        lives.kill(*dot)?;
        rest = later;
    }
    Ok(lives)
}
