//! Live rows, whose keys have numbers in a table: their length, and writing them.
ghost use Rattle.std.specs.Prelude.{
  ◌≡◌,
  ◌+◌,
  ◌*◌,
  ◌<◌,
  ◌≤◌,
  ◌^◌,
  ℕ,
  List,
  length,
  drop,
  fold,
  IfOk,
};
ghost use Rattle.rds_life.specs.Life.{live_rows};
ghost use Rattle.rds_bytes.specs.Numbers.{count_of_keys};
ghost use Rattle.rds_bytes.specs.Packed.{packed_text};
ghost use Rattle.rds_bytes.specs.Writing.{Adds};
ghost use Rattle.rds_bytes.specs.Reading.{Reads};
ghost use Rattle.rds_packed.specs.PackedReading.{packed_row_at};
ghost use Rattle.rds_packed.specs.PackedTexts.{
  AreNumbersIn,
  CanStepAll,
  numbers_rows_text,
  packed_key_text,
  packed_lives_text,
  zeroth_dot,
};

use crate::dots::{put_step, read_dot, step_length, zeroth_dot};
use crate::entries::{entry_length, put_entry, read_entry};
use rds_bytes::{KeySource, MAX_PACKED, packed_length, put_packed};
use rds_dots::{Dot, DotSet};
use rds_life::Lives;
use rds_names::{Entry, Fault};
use std::alloc::{AllocError, Global};

/// The next row, wherever its keys come from.
#[tactic(auto, unfolding(crate::specs::PackedReading::packed_row_at))]
pub fn read_row<'a, K: KeySource, S: DotSet>(
    alloc: Global,
    keys: &mut K,
    seen: &S,
    before: &[(Dot, Entry)],
    bytes: &'a [u8],
) -> Result<((Dot, Entry), &'a [u8]), Fault>
    ensures read { Reads (λ x. (x.0, x.1.now)) result
        (packed_row_at (K.reader keys.old) (S.contents seen.now) before.now bytes.now) }
    ensures after { IfOk result (λ x. keys.new ≡ fold K.after keys.old x.0.1.path) }
{
    let (dot, rest) = read_dot(seen, before, bytes)?;
    let (entry, rest) = read_entry(alloc, keys, rest)?;
    Ok(((dot, entry), rest))
}

/// The length of the number of rows.
pub fn count_length(count: usize) -> usize
    ensures length { result ≡ length (packed_text count) }
    ensures most { result ≤ 7 }
{
    let count = count as u64;
    if count > MAX_PACKED {
        return 7;
    }
    packed_length(count)
}

/// The length of rows, without their number.
fn rows_length<S: DotSet>(lives: &Lives<S>, numbers: &[u32]) -> u128
    requires numbers { count_of_keys (live_rows lives.now) ≤ length numbers.now }
    requires dots { CanStepAll zeroth_dot (live_rows lives.now) }
    ensures length { result ≡ length (numbers_rows_text zeroth_dot (live_rows lives.now) numbers.now) }
    ensures most { result ≤ 2048 * length (live_rows lives.now) }
{
    let _few = lives.live_len();
    let mut from = zeroth_dot();
    let mut left = numbers;
    let mut total = 0;
    for (dot, entry) in lives.live() {
        let (own, later) = left.split_at(entry.path.len());
        total += (step_length(from, dot) + entry_length(entry, own)) as u128;
        from = dot;
        left = later;
    }
    total
}

/// The length of live rows with packed numbers in place of their keys, which stand first among these. The numbers are
/// those of the keys in a table.
pub fn packed_lives_length<S: DotSet>(lives: &Lives<S>, numbers: &[u32]) -> u128
    requires { count_of_keys (live_rows lives.now) ≤ length numbers.now }
    ensures length { (table more : List (List ℕ)) → AreNumbersIn table more (live_rows lives.now) numbers.now
        → result ≡ length (packed_lives_text (packed_key_text table) (live_rows lives.now)) }
    ensures most { result ≤ 7 + 2048 * length (live_rows lives.now) }
{
    // That live dots are within their limits shows where their set is at hand.
    let _seen = lives.seen();
    count_length(lives.live_len()) as u128 + rows_length(lives, numbers)
}

/// Rows, each with as many of the numbers as it has keys; and the numbers that are left.
fn put_rows<'n, S: DotSet>(
    out: &mut Vec<u8>,
    lives: &Lives<S>,
    numbers: &'n [u32],
) -> Result<&'n [u32], AllocError>
    requires numbers { count_of_keys (live_rows lives.now) ≤ length numbers.now }
    requires dots { CanStepAll zeroth_dot (live_rows lives.now) }
    ensures text { Adds out.old.items out.new.items
        (numbers_rows_text zeroth_dot (live_rows lives.now) numbers.now) result }
    ensures left { IfOk result (λ left. left.now ≡ drop (count_of_keys (live_rows lives.now)) numbers.now) }
{
    let mut from = zeroth_dot();
    let mut left = numbers;
    for (dot, entry) in lives.live() {
        let (own, later) = left.split_at(entry.path.len());
        put_step(out, from, dot)?;
        put_entry(out, entry, own)?;
        from = dot;
        left = later;
    }
    Ok(left)
}

/// Live rows with packed numbers in place of their keys, which stand first among these. The numbers are those of the
/// keys in a table; those that are left are answered.
pub fn put_packed_lives<'n, S: DotSet>(
    out: &mut Vec<u8>,
    lives: &Lives<S>,
    numbers: &'n [u32],
) -> Result<&'n [u32], AllocError>
    requires numbers { count_of_keys (live_rows lives.now) ≤ length numbers.now }
    requires rows { length (live_rows lives.now) < 2 ^ 32 }
    ensures text { (table more : List (List ℕ)) → AreNumbersIn table more (live_rows lives.now) numbers.now
        → Adds out.old.items out.new.items (packed_lives_text (packed_key_text table) (live_rows lives.now)) result }
    ensures left { IfOk result (λ left. left.now ≡ drop (count_of_keys (live_rows lives.now)) numbers.now) }
{
    // That live dots are within their limits shows where their set is at hand.
    let _seen = lives.seen();
    put_packed(out, lives.live_len() as u64)?;
    put_rows(out, lives, numbers)
}
