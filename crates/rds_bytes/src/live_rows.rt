//! The rows of live dots: each dot and its entry.
ghost use Rattle.std.specs.Prelude.{◌≡◌, fold, IfOk, ◌*◌, ◌^◌, ◌<◌, ◌≤◌, length};
ghost use Rattle.std.specs.List.{flat_map, AllByRecursion};
ghost use Rattle.rds_dots.specs.Dots.{comes_after};
ghost use Rattle.rds_life.specs.Life.{live_rows};
ghost use Rattle.rds_bytes.specs.Reading.{
  Reads,
  ReadsExactly,
  dot_at,
  live_row_at,
  keyed_live_row_at,
  dot_of_row,
  last,
};
ghost use Rattle.rds_bytes.specs.SteadyParts.{live_row_steady};
ghost use Rattle.rds_bytes.specs.Values.{IsLiveRow};
ghost use Rattle.rds_bytes.specs.Spelling.{live_row_text, live_rows_text};
ghost use Rattle.rds_bytes.specs.Writing.{Adds};

use crate::entries::{entry_length, put_entry, read_keyed_entry};
use crate::list::PartReader;
use crate::numbers::{put_byte, put_u32, put_u64, read_byte, read_u64};
use crate::sources::{KeySource, SpelledKeys};
use rds_dots::{Dot, DotSet};
use rds_life::Lives;
use rds_names::{Entry, Fault};
use std::alloc::{AllocError, Global};

/// The dot of the last row, if there is one.
fn last_dot(rows: &[(Dot, Entry)]) -> Option<Dot>
    ensures { result ≡ dot_of_row (last rows.now) }
{
    rows.last().map(|row| row.0)
}

/// Whether a dot comes after the given one, as each does where there is none.
fn comes_after(after: Option<Dot>, dot: Dot) -> bool
    ensures { result ≡ comes_after after dot }
{
    after.is_none_or(|last| last < dot)
}

/// The dot of the next row, which ascends and was seen.
#[tactic(auto, unfolding(crate::specs::Reading::dot_at))]
fn read_dot<'a, S: DotSet>(
    seen: &S,
    before: &[(Dot, Entry)],
    bytes: &'a [u8],
) -> Result<(Dot, &'a [u8]), Fault>
    ensures { ReadsExactly (λ x. (x.0, x.1.now)) result (dot_at (S.contents seen.now) before.now bytes.now) }
{
    let (replica, rest) = read_byte(bytes)?;
    let (seq, rest) = read_u64(rest)?;
    let dot = Dot { replica, seq };
    if !comes_after(last_dot(before), dot) || !seen.contains(dot) {
        return Err(Fault::Bad);
    }
    Ok((dot, rest))
}

/// The next row, wherever its keys come from.
#[tactic(auto, unfolding(crate::specs::Reading::keyed_live_row_at))]
pub fn read_keyed_live_row<'a, K: KeySource, S: DotSet>(
    alloc: Global,
    keys: &mut K,
    seen: &S,
    before: &[(Dot, Entry)],
    bytes: &'a [u8],
) -> Result<((Dot, Entry), &'a [u8]), Fault>
    ensures read { Reads (λ x. (x.0, x.1.now)) result
        (keyed_live_row_at (K.reader keys.old) (S.contents seen.now) before.now bytes.now) }
    ensures after { IfOk result (λ x. keys.new ≡ fold K.after keys.old x.0.1.path) }
{
    let (dot, rest) = read_dot(seen, before, bytes)?;
    let (entry, rest) = read_keyed_entry(alloc, keys, rest)?;
    Ok(((dot, entry), rest))
}

/// Reads the rows of live dots, which ascend, each of a seen dot. Each key is a short text.
#[derive(Drop)]
pub struct LiveRowReader<'a, S: DotSet> {
    pub seen: &'a S,
}

impl<S: DotSet> PartReader<(Dot, Entry)> for LiveRowReader<'_, S> {
    ghost reader = { λ r before. live_row_at (S.contents r.seen.now) before };

    ghost steady = { λ r before. live_row_steady (S.contents r.seen.now) before };

    fn read<'b>(
        &self,
        alloc: Global,
        before: &[(Dot, Entry)],
        bytes: &'b [u8],
    ) -> Result<((Dot, Entry), &'b [u8]), Fault> {
        let mut keys = SpelledKeys;
        read_keyed_live_row(alloc, &mut keys, self.seen, before, bytes)
    }
}

/// The length of the rows of live dots, without their number.
#[tactic(auto, using(crate::proofs::Lengths::length_more))]
pub fn live_rows_length<S: DotSet>(lives: &Lives<S>) -> u128
    ensures length { result ≡ length (flat_map live_row_text (live_rows lives.now)) }
    ensures most { result ≤ 2048 * length (live_rows lives.now) }
    ensures few { length (live_rows lives.now) < 2 ^ 64 }
    ensures are_entries { AllByRecursion IsLiveRow (live_rows lives.now) }
{
    let _few = lives.live_len();
    let mut total = 0;
    for (dot, entry) in lives.live() {
        total += 9 + entry_length(entry) as u128;
    }
    total
}

fn put_live_row(out: &mut Vec<u8>, dot: Dot, entry: &Entry) -> Result<(), AllocError>
    ensures { Adds out.old.items out.new.items (live_row_text (dot, entry.now)) result }
{
    put_byte(out, dot.replica)?;
    put_u64(out, dot.seq)?;
    put_entry(out, entry)
}

/// The rows of live dots, after their number.
pub fn put_live_rows<S: DotSet>(out: &mut Vec<u8>, lives: &Lives<S>) -> Result<(), AllocError>
    requires { length (live_rows lives.now) < 2 ^ 32 }
    ensures { Adds out.old.items out.new.items (live_rows_text (live_rows lives.now)) result }
{
    put_u32(out, lives.live_len() as u32)?;
    for (dot, entry) in lives.live() {
        put_live_row(out, dot, entry)?;
    }
    Ok(())
}
