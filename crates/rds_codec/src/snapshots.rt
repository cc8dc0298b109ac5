//! The text of a snapshot in either format: four bytes that say the format, the roster, the replica's own number, and
//! its state, of as many replicas as the roster has names.
ghost use Rattle.std.specs.Prelude.{◌≡◌, ◌≤◌, ◌^◌, ℕ, List, length, Ok, IfOk, IfErr};
ghost use Rattle.std.specs.FinMap as map;
ghost use Rattle.rds_names.specs.declared.fault.Fault.TheVariants.{Memory};
ghost use Rattle.rds_codec.specs.DecodedSnapshots.{DecodesSnapshot};
ghost use Rattle.rds_codec.specs.Decoding.{Decodes, ReadsAll, all_of};
ghost use Rattle.rds_codec.specs.FormatTexts.{snapshot_in_at, snapshot_text_in, snapshot_kind_in};
ghost use Rattle.rds_codec.specs.FormatWriting.{EncodesIn, EncodesTabled};
ghost use Rattle.rds_codec.specs.Measured.{IsMeasured, format_with};
ghost use Rattle.rds_codec.specs.Openings.{
  opening_at,
  opening_steady,
  opening_as_it_is,
  state_after_opening,
  snapshot_of_parts,
};
ghost use Rattle.rds_codec.specs.StateTexts.{IsSnapshot, snapshot_text};
ghost use Rattle.rds_codec.specs.declared.formats.Format.{Format};
ghost use Rattle.rds_codec.specs.declared.formats.Format.TheVariants.{Two};
ghost use Rattle.rds_codec.specs.declared.limits.TheConstants.{LIMIT};
ghost use Rattle.rds_bytes.specs.Values.{IsMember};
ghost use Rattle.rds_bytes.specs.Writing.{Adds};
ghost use Rattle.rds_feeds.specs.Chained.{then_finish};
ghost use Rattle.rds_feeds.specs.Parts.{makes};

use crate::fed::read_whole;
use crate::format_one::measure_one;
use crate::formats::{Format, put_magic, read_format};
use crate::limits::room_for;
use crate::measured::{Measured, measure, put_state};
use crate::states::{UnfinishedState, unfinished_state};
use rds_bytes::{member_length, put_member, read_member};
use rds_dots::DotSet;
use rds_feeds::{Beside, Following, Made, Making, Once, Part, Progress, Then, Unfinished};
use rds_names::{Fault, Roster};
use rds_state::{Replica, State};
use std::alloc::{AllocError, Global};
use std::marker::PhantomData;

/// The format, the roster and the own number. They are short, and read as one part.
#[derive(Drop)]
pub struct Opening {}

impl Part for Opening {
    type Read = (Format, (Roster, u8));

    type Whole = (Format, (Roster, u8));

    ghost reader = { λ _. opening_at };

    ghost made = { λ _ opening. opening };

    fn read<'a>(
        &self,
        alloc: Global,
        bytes: &'a [u8],
    ) -> Result<((Format, (Roster, u8)), &'a [u8]), Fault> {
        let (format, rest) = read_format(bytes)?;
        let (member, rest) = read_member(alloc, rest)?;
        Ok(((format, member), rest))
    }

    fn make(self, part: (Format, (Roster, u8))) -> Result<(Format, (Roster, u8)), Fault> {
        Ok(part)
    }

    ghost steady = { λ _. opening_steady };
}

type Opened = (Format, (Roster, u8));

type OpenedState<S> = Beside<Opened, UnfinishedState<S>>;

/// The state after an opening, in its format, of as many replicas as the roster has names.
#[derive(Drop)]
pub struct StateFollows<S: DotSet> {
    set: PhantomData<S>,
}

impl<S: DotSet> Following<Opened> for StateFollows<S> {
    type Next = OpenedState<S>;

    ghost after = { λ _ o. state_after_opening o };

    fn start(self, alloc: Global, first: Opened) -> Result<OpenedState<S>, Fault> {
        let (format, member) = first;
        let read = unfinished_state(alloc, format, member.0.len());
        Ok(Beside {
            carried: (format, member),
            read,
        })
    }
}

/// The replica of an opening and a state, beside the format.
#[derive(Drop)]
pub struct PartsAreSnapshot {}

impl<S: DotSet> Making<(Opened, State<S>)> for PartsAreSnapshot {
    type Made = (Format, Replica<S>);

    ghost made = { λ _ p. snapshot_of_parts p };

    fn make(self, whole: (Opened, State<S>)) -> Result<(Format, Replica<S>), Fault> {
        let (opened, state) = whole;
        let (format, member) = opened;
        let (roster, own) = member;
        match Replica::from_parts(roster, own, state) {
            Ok(replica) => Ok((format, replica)),
            Err(_) => Err(Fault::Bad),
        }
    }
}

type SnapshotParts<S> = Made<
    Then<Once<Opening>, StateFollows<S>, OpenedState<S>>,
    PartsAreSnapshot,
>;

/// A snapshot that is being read, in either format. No more than what stands before its state, or one row or gap, is
/// held, and in format 2 the table of the state.
#[derive(Drop)]
pub struct UnfinishedSnapshot<S: DotSet> {
    parts: SnapshotParts<S>,
}

impl<S: DotSet> Unfinished for UnfinishedSnapshot<S> {
    type Whole = (Format, Replica<S>);

    ghost finish = { λ u. makes (then_finish (λ _. opening_as_it_is) (λ _ o. state_after_opening o)
        ⟦<OpenedState<S> as Unfinished>⟧.finish u.parts.from) snapshot_of_parts };

    fn read_on<'a>(
        self,
        alloc: Global,
        bytes: &'a [u8],
    ) -> Result<(Progress<Self, (Format, Replica<S>)>, &'a [u8]), Fault> {
        let (progress, rest) = self.parts.read_on(alloc, bytes)?;
        match progress {
            Progress::More(parts) => Ok((Progress::More(UnfinishedSnapshot { parts }), rest)),
            Progress::Whole(snapshot) => Ok((Progress::Whole(snapshot), rest)),
        }
    }
}

/// A snapshot of which nothing was read: which format it is in, its first four bytes say.
pub fn unfinished_snapshot<S: DotSet>() -> UnfinishedSnapshot<S>
    ensures { (bytes : List ℕ) → ⟦<UnfinishedSnapshot<S> as Unfinished>⟧.finish result bytes
        ≡ snapshot_in_at bytes }
{
    let opening = Once { part: Opening {} };
    let state = StateFollows { set: PhantomData };
    UnfinishedSnapshot {
        parts: Made {
            from: Then::First(opening, state),
            maker: PartsAreSnapshot {},
        },
    }
}

/// The replica whose snapshot the bytes are, and the format that it is in, which the first four bytes say.
///
/// They are read from the left, and each part is judged as soon as it is there. Refused are bytes above the
/// limit (`TooLong`, before anything is read); bytes that go on after a text (`Extra`); and other bytes that are no
/// text: `Cut` where they end inside a part, `Bad` where a part that is there is none. In format 2 the state is
/// refused as [`decode_state_in`](crate::decode_state_in) does.
pub fn decode_snapshot_with_format<S: DotSet>(
    alloc: Global,
    bytes: &[u8],
) -> Result<(Format, Replica<S>), Fault>
    ensures text { Decodes snapshot_kind_in bytes.now result }
    ensures read { ReadsAll snapshot_in_at bytes.now result }
{
    read_whole(alloc, unfinished_snapshot::<S>(), bytes)
}

/// The replica whose snapshot the bytes are, in whichever format. Refused are bytes as [`decode_snapshot_with_format`]
/// refuses them.
pub fn decode_snapshot<S: DotSet>(alloc: Global, bytes: &[u8]) -> Result<Replica<S>, Fault>
    ensures { DecodesSnapshot bytes.now result }
{
    let (_format, replica) = decode_snapshot_with_format(alloc, bytes)?;
    Ok(replica)
}

/// The length of the text of a snapshot whose state was measured. That of a replica without components is within the
/// limit.
fn length_of<S: DotSet>(replica: &Replica<S>, measured: &Measured) -> u128
    requires measured { IsMeasured replica.now.state measured.now }
    requires few { measured.now.text_length ≤ 2 ^ 101 }
    ensures length { result ≡ length (snapshot_text_in (format_with measured.now.keys) replica.now) }
    ensures small { replica.now.state.lives ≡ map.empty → replica.now.state.counts ≡ map.empty → result ≤ LIMIT }
    ensures member { IsMember replica.now.roster replica.now.own }
{
    4 + member_length(replica.roster(), replica.own()) as u128 + measured.text_length
}

/// The length of the text of the replica's snapshot, be it within the limit or not. To number its keys takes memory.
pub fn snapshot_length<S: DotSet>(alloc: Global, replica: &Replica<S>) -> Result<u128, Fault>
    ensures length { IfOk result (λ found. found ≡ length (snapshot_text replica.now)) }
    ensures memory { IfErr result (λ fault. fault ≡ Memory) }
{
    let measured = measure(alloc, Format::Two, replica.state())?;
    Ok(length_of(replica, &measured))
}

/// The bytes in front, the roster and the own number, and the state.
fn put_snapshot<S: DotSet>(
    out: &mut Vec<u8>,
    replica: &Replica<S>,
    measured: &Measured,
) -> Result<(), AllocError>
    requires measured { IsMeasured replica.now.state measured.now }
    requires within { length (snapshot_text_in (format_with measured.now.keys) replica.now) ≤ LIMIT }
    ensures { Adds out.old.items out.new.items (snapshot_text_in (format_with measured.now.keys) replica.now) result }
{
    put_magic(out, measured.keys.format())?;
    put_member(out, replica.roster(), replica.own())?;
    put_state(out, replica.state(), measured)
}

/// The text of the replica's snapshot in a format. It is refused as that of the state is
/// ([`encode_state_in`](crate::encode_state_in)). All of the text, read again, is this very replica in this format.
/// Nothing but `Memory` hinders that of a replica without components.
pub fn encode_snapshot_in<S: DotSet>(
    alloc: Global,
    format: Format,
    replica: &Replica<S>,
) -> Result<Vec<u8>, Fault>
    ensures text { EncodesIn format (snapshot_text_in format replica.now) result }
    ensures again { IfOk result (λ bytes. all_of snapshot_in_at bytes.items ≡ Ok (format, replica.now)) }
    ensures small { replica.now.state.lives ≡ map.empty → replica.now.state.counts ≡ map.empty
        → IfErr result (λ fault. fault ≡ Memory) }
{
    let measured = measure(alloc, format, replica.state())?;
    let mut out = room_for(alloc, length_of(replica, &measured))?;
    put_snapshot(&mut out, replica, &measured)?;
    Ok(out)
}

/// The text of the replica's snapshot. Its keys are numbered first, which takes memory. Above the limit the text is
/// refused then (`TooLong`); within it all memory that it needs is taken at once. All of the text, read again, is this
/// very replica. Nothing but `Memory` hinders that of a replica without components.
pub fn encode_snapshot<S: DotSet>(alloc: Global, replica: &Replica<S>) -> Result<Vec<u8>, Fault>
    ensures text { EncodesTabled (snapshot_text replica.now) result }
    ensures again { IfOk result (λ bytes. all_of snapshot_in_at bytes.items ≡ Ok (Two, replica.now)) }
    ensures small { replica.now.state.lives ≡ map.empty → replica.now.state.counts ≡ map.empty
        → IfErr result (λ fault. fault ≡ Memory) }
{
    encode_snapshot_in(alloc, Format::Two, replica)
}

/// In each format the text of a replica's snapshot is read again, and that of a replica without components is within
/// the limit. The function only measures: its contract is this law.
pub fn snapshots_have_texts<S: DotSet>(replica: &Replica<S>)
    ensures small { (format : Format) → replica.now.state.lives ≡ map.empty → replica.now.state.counts ≡ map.empty
        → length (snapshot_text_in format replica.now) ≤ LIMIT }
    ensures value { IsSnapshot replica.now }
{
    measure_one(replica.state());
    member_length(replica.roster(), replica.own());
}
