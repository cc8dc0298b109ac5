//! Joining two snapshots.
ghost use Rattle.std.specs.Prelude.{◌≡◌, ◌⊎◌, Ok, Err, IfOk, IfErr, MatchResult};
ghost use Rattle.rds_names.specs.declared.fault.Fault.TheVariants.{Memory};
ghost use Rattle.rds_lines.specs.Join.{AfterBoth, LineRead, JoinedTo, JoinsTo, MayJoinTo};
ghost use Rattle.rds_lines.specs.JoinLaws.{AnswersSpelled, IsJoinedOnce};
ghost use Rattle.rds_lines.specs.Refusal.{refusal_fault};

use crate::lines::split_line;
use crate::refusal::Refusal;
use rds_codec::{decode_snapshot, encode_snapshot};
use rds_dots::DotSet;
use rds_gaps::GapSet;
use rds_names::Fault;
use rds_state::Replica;
use std::alloc::Global;

/// The most bytes of a line.
const LINE_LIMIT: usize = 536_870_912;

/// The text in format 2 of the join of the two snapshots that the input's lines are in hex digits, of
/// either case. Each line may be of format 1 or 2. The join is the least above both (Shapiro, Preguiça,
/// Baquero, Zawirski 2011), with the first one's own number and the longer of their rosters. The two
/// own numbers may be equal.
///
/// The faults, in the order in which they are looked for: those of the first line, then those of the
/// second (`TooLong` above 536,870,912 bytes whatever they are, `Bad` where they are no hex digits,
/// else those of decoding); `Extra` where anything follows; `WrongGroup`; `WrongRoster`, where neither
/// roster begins the other; `Conflict`; `TooLong` for the text.
pub fn join(alloc: Global, input: &[u8]) -> Result<Vec<u8>, Refusal>
    ensures { MatchResult result (λ v. JoinsTo input.now (Ok v.items))
        (λ e. MayJoinTo input.now (Err (refusal_fault e))) }
{
    let (line, rest) = split_line(input);
    let first: Replica<GapSet> = read_line(alloc, line)?;
    let (line, rest) = split_line(rest);
    let second = read_line(alloc, line)?;
    Ok(join_read(alloc, rest, first, second)?)
}

// The text of the join of two snapshots that were read, before a rest of the input.
fn join_read<S: DotSet>(
    alloc: Global,
    rest: &[u8],
    first: Replica<S>,
    second: Replica<S>,
) -> Result<Vec<u8>, Fault>
    ensures { MatchResult result (λ v. AfterBoth rest.now first second (Ok v.items))
        (λ fault. (fault ≡ Memory) ⊎ AfterBoth rest.now first second (Err fault)) }
{
    if !rest.is_empty() {
        return Err(Fault::Extra);
    }
    let both = joined(first, second)?;
    encode_snapshot(alloc, &both)
}

// The snapshot that a line of hex digits is, of either format.
fn read_line<S: DotSet>(alloc: Global, line: &[u8]) -> Result<Replica<S>, Fault>
    ensures { (result ≡ Err Memory) ⊎ LineRead line.now result }
{
    if LINE_LIMIT < line.len() {
        return Err(Fault::TooLong);
    }
    match hex::decode(alloc, line) {
        Ok(bytes) => decode_snapshot(alloc, &bytes),
        Err(hex::FromHexError::OutOfMemory) => Err(Fault::Memory),
        Err(_) => Err(Fault::Bad),
    }
}

// The first one with the join of both states, in the longer roster.
fn joined<S: DotSet>(first: Replica<S>, second: Replica<S>) -> Result<Replica<S>, Fault>
    ensures ok { IfOk result (λ both. JoinedTo first second (Ok both)) }
    ensures err { IfErr result (λ fault. (fault ≡ Memory) ⊎ JoinedTo first second (Err fault)) }
{
    first.roster().may_meet(second.roster())?;
    let (roster, own, mut state) = first.into_parts();
    let (other, _, seen) = second.into_parts();
    state.merge(&seen)?;
    Replica::from_parts(roster.longer(other), own, state)
}

/// Two snapshots are joined to one thing alone. So whatever `join` answers for the lines of two
/// snapshots, each in either format, is the text of their join in format 2, or why there is none, or
/// `Memory`.
pub fn join_is_known()
    ensures once { IsJoinedOnce }
    ensures answers { AnswersSpelled }
{}
