//! The lives of dots in a row as text.
ghost use Rattle.std.specs.Prelude.{◌≡◌, ◌≤◌, ◌<◌, ◌+◌, ◌-◌, ◌^◌, List, []};
ghost use Rattle.rds_dots.specs.declared.dot.TheConstants.{MAX_SEQ};
ghost use Rattle.rds_dots.specs.Dots.{IsRun};
ghost use Rattle.rds_dots.specs.Runs.{runs_of};
ghost use Rattle.rds_briefs.specs.Lives.{lives_in, byte_from, up_to_eight};
ghost use Rattle.rds_briefs.specs.BriefTexts.{lengths_text, bits_text, lives_text, brief_run_text, runs_text};
ghost use Rattle.rds_briefs.specs.Texts.{Extends};

use crate::stretches::stretch;
use crate::text::Text;
use rds_dots::{Dot, DotSet, Run, runs};
use std::alloc::Global;

/// The lengths of the stretches of so many dots from one on, live ones first.
fn put_lengths<S: DotSet>(text: &mut Text, live: &S, first: Dot, count: u64)
    requires from_one { 1 ≤ first.seq }
    requires some { 1 ≤ count }
    requires most { first.seq + count ≤ MAX_SEQ + 1 }
    ensures { Extends text.old text.new (lengths_text (lives_in (S.contents live.now) first.replica) first.seq count) }
{
    let mut seq = first.seq;
    let mut left = count;
    let mut is_live = true;
    'telling: while left > 0 {
        let here = Dot {
            replica: first.replica,
            seq,
        };
        let length = stretch(live, here, left, is_live);
        text.put_packed(length);
        seq += length;
        left -= length;
        is_live = !is_live;
    }
}

/// Whether each of so many dots from one on is live, as bits, the first one lowest.
fn byte_of<S: DotSet>(live: &S, first: Dot, count: u64) -> u8
    requires few { count ≤ 8 }
    requires most { first.seq + count ≤ MAX_SEQ + 1 }
    ensures { result ≡ byte_from (lives_in (S.contents live.now) first.replica) first.seq count }
{
    let mut byte = 0;
    let mut left = count;
    'telling: while left > 0 {
        left -= 1;
        let dot = Dot {
            replica: first.replica,
            seq: first.seq + left,
        };
        byte *= 2;
        if live.contains(dot) {
            byte += 1;
        }
    }
    byte
}

/// How many of so many dots a byte tells of.
pub(crate) fn in_a_byte(count: u64) -> u64
    ensures exact { result ≡ up_to_eight count }
    ensures few { result ≤ 8 }
    ensures within { result ≤ count }
    ensures some { 1 ≤ count → 1 ≤ result }
{
    if count < 8 { count } else { 8 }
}

/// Whether each of so many dots from one on is live, in as few bytes as hold that.
fn put_bits<S: DotSet>(text: &mut Text, live: &S, first: Dot, count: u64)
    requires most { first.seq + count ≤ MAX_SEQ + 1 }
    ensures { Extends text.old text.new (bits_text (lives_in (S.contents live.now) first.replica) first.seq count) }
{
    let mut seq = first.seq;
    let mut left = count;
    'telling: while left > 0 {
        let here = Dot {
            replica: first.replica,
            seq,
        };
        let many = in_a_byte(left);
        text.put_byte(byte_of(live, here, many));
        seq += many;
        left -= many;
    }
}

/// The lives of so many dots from one on, in the shorter form.
fn put_lives<S: DotSet>(alloc: Global, text: &mut Text, live: &S, first: Dot, count: u64)
    requires from_one { 1 ≤ first.seq }
    requires some { 1 ≤ count }
    requires most { first.seq + count ≤ MAX_SEQ + 1 }
    ensures { Extends text.old text.new (lives_text (lives_in (S.contents live.now) first.replica) first.seq count) }
{
    let mut lengths = Text::counted(alloc);
    put_lengths(&mut lengths, live, first, count);
    if lengths.length() <= (count + 7) / 8 {
        text.put_byte(0);
        put_lengths(text, live, first, count);
    } else {
        text.put_byte(1);
        put_bits(text, live, first, count);
    }
}

/// A run of seen dots, and which of them are live.
fn put_run<S: DotSet>(alloc: Global, text: &mut Text, live: &S, run: Run)
    requires { IsRun run }
    ensures { Extends text.old text.new (brief_run_text (S.contents live.now) run) }
{
    text.put_packed(run.lo);
    text.put_byte(run.replica);
    text.put_packed(run.hi - run.lo);
    let first = Dot {
        replica: run.replica,
        seq: run.lo,
    };
    put_lives(alloc, text, live, first, run.hi + 1 - run.lo);
}

/// The runs of the seen dots, each with its live ones, and their end.
pub fn put_runs<S: DotSet>(alloc: Global, text: &mut Text, seen: &S, live: &S)
    ensures { Extends text.old text.new (runs_text (S.contents live.now) (runs_of (S.contents seen.now))) }
{
    'telling: for run in runs(seen) {
        put_run(alloc, text, live, run);
    }
    text.put_byte(0);
}
