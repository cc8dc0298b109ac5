//! Marks: 128 bits by which states are compared at a glance.
ghost use Rattle.std.specs.Prelude.{◌≡◌, fold};
ghost use Rattle.std.specs.Int.{w64, from_be_bytes};
ghost use Rattle.rds_state.specs.Mark.{count_mark, finished, kind_number, last_word, live_mark, no_mark, plus};
ghost use Rattle.rds_state.specs.Mark.{plus_count, plus_live, with_byte, with_bytes, with_entry, with_scalar};
ghost use Rattle.rds_state.specs.Mark.{with_word};

use rds_counts::CountRow;
use rds_dots::Dot;
use rds_life::LiveRows;
use rds_names::{Entry, Key, Kind, Scalar};
use std::fmt;

/// An odd number, whose bits stand in no order: 2^64 by the golden ratio.
const FACTOR: u64 = 0x9e37_79b9_7f4a_7c15;

/// What the mark of a live dot begins with: digits of pi.
const LIVE: Mark = Mark {
    high: 0x243f_6a88_85a3_08d3,
    low: 0,
};

/// What the mark of a row of counters begins with: further digits of pi.
const COUNTED: Mark = Mark {
    high: 0x1319_8a2e_0370_7344,
    low: 0,
};

/// 128 bits by which states are compared at a glance: equal states have equal marks. Marks are added over live dots and
/// rows of counters, so that one is kept in step with what comes and goes. Dead dots don't enter. Nothing is claimed of
/// states with one mark: strangers may choose them.
#[derive(Clone, Copy, Debug, PartialEq, Eq)]
pub struct Mark {
    pub high: u64,
    pub low: u64,
}

/// Marks and their sums.
impl Mark {
    /// The mark of the empty state.
    pub fn empty() -> Mark
        ensures { result ≡ no_mark }
    {
        Mark { high: 0, low: 0 }
    }

    /// The mark of a live dot with its entry.
    #[tactic(auto, unfolding(crate::specs::Mark::live_mark))]
    pub fn of_live(dot: Dot, entry: &Entry) -> Mark
        ensures { result ≡ live_mark dot entry.now }
    {
        LIVE.with_word(u64::from(dot.replica))
            .with_word(dot.seq)
            .with_entry(entry)
            .finished()
    }

    /// The mark of a row of counters.
    #[tactic(auto, unfolding(crate::specs::Mark::count_mark))]
    pub fn of_count(row: &CountRow) -> Mark
        ensures { result ≡ count_mark row.now }
    {
        COUNTED
            .with_bytes(row.key.as_bytes())
            .with_word(u64::from(row.replica))
            .with_word(row.p)
            .with_word(row.n)
            .finished()
    }

    /// The sum of two marks.
    #[tactic(auto, unfolding(crate::specs::Mark::plus))]
    pub fn plus(self, other: Mark) -> Mark
        ensures { result ≡ plus self other }
    {
        Mark {
            high: self.high.wrapping_add(other.high),
            low: self.low.wrapping_add(other.low),
        }
    }

    /// The mark that gives this one with the other.
    #[tactic(auto, unfolding(crate::specs::Mark::plus))]
    pub fn minus(self, other: Mark) -> Mark
        ensures { plus result other ≡ self }
    {
        Mark {
            high: self.high.wrapping_sub(other.high),
            low: self.low.wrapping_sub(other.low),
        }
    }

    /// With the marks of live dots.
    pub fn plus_live(self, rows: LiveRows<'_>) -> Mark
        ensures { result ≡ fold plus_live self rows.entry }
    {
        let mut mark = self;
        for (dot, entry) in rows {
            mark = mark.plus(Mark::of_live(dot, entry));
        }
        mark
    }

    /// With the marks of rows of counters.
    pub fn plus_counts(self, mut rows: &[CountRow]) -> Mark
        ensures { result ≡ fold plus_count self rows.entry.now }
    {
        let mut mark = self;
        'adding: while let Some((row, later)) = rows.split_first() {
            mark = mark.plus(Mark::of_count(row));
            rows = later;
        }
        mark
    }
}

/// How a mark is mixed.
impl Mark {
    /// With a word mixed in.
    #[tactic(auto, unfolding(crate::specs::Mark::with_word))]
    fn with_word(self, word: u64) -> Mark
        ensures { result ≡ with_word self word }
    {
        let (low, high) = (self.high ^ word).carrying_mul(FACTOR, 0);
        Mark {
            high: self.low ^ high,
            low,
        }
    }

    /// With eight bytes at a time mixed in.
    fn with_words(self, mut words: &[[u8; 8]]) -> Mark
        ensures { result ≡ fold (λ n word. with_word n (from_be_bytes w64 word)) self words.entry.now }
    {
        let mut mark = self;
        'mixing: while let Some((word, later)) = words.split_first() {
            mark = mark.with_word(u64::from_be_bytes(*word));
            words = later;
        }
        mark
    }

    /// With bytes mixed in.
    #[tactic(auto, unfolding(crate::specs::Mark::with_bytes))]
    fn with_bytes(self, bytes: &[u8]) -> Mark
        ensures { result ≡ with_bytes self bytes.now }
    {
        let (words, _rest) = bytes.as_chunks::<8>();
        self.with_word(bytes.len() as u64)
            .with_words(words)
            .with_word(last_word(bytes))
    }

    /// With the keys of a path mixed in.
    fn with_keys(self, mut keys: &[Key]) -> Mark
        ensures { result ≡ fold with_bytes self keys.entry.now }
    {
        let mut mark = self;
        'mixing: while let Some((key, later)) = keys.split_first() {
            mark = mark.with_bytes(key.as_bytes());
            keys = later;
        }
        mark
    }

    /// With a value mixed in.
    fn with_scalar(self, value: &Scalar) -> Mark
        ensures { result ≡ with_scalar self value.now }
    {
        match value {
            Scalar::Null => self.with_word(0),
            Scalar::Bool(false) => self.with_word(1),
            Scalar::Bool(true) => self.with_word(2),
            Scalar::Int(value) => self.with_word(3).with_word(value.cast_unsigned()),
            Scalar::Text(text) => self.with_word(4).with_bytes(text.as_str().as_bytes()),
        }
    }

    /// With an entry mixed in.
    fn with_entry(self, entry: &Entry) -> Mark
        ensures { result ≡ with_entry self entry.now }
    {
        let keys = entry.path.keys();
        self.with_word(keys.len() as u64)
            .with_keys(keys)
            .with_word(kind_number(entry.kind))
            .with_scalar(&entry.value)
    }

    /// What is mixed no more.
    #[tactic(auto, unfolding(crate::specs::Mark::finished))]
    fn finished(self) -> Mark
        ensures { result ≡ finished self }
    {
        self.with_word(0)
            .with_word(0)
            .with_word(0)
            .with_word(0)
            .with_word(0)
    }
}

/// 32 hex digits in lower case.
impl fmt::Display for Mark {
    ghost use Rattle.std.specs.Prelude.{Some};
    ghost use Rattle.rds_state.specs.Mark.{mark_text};

    ghost output = { λ mark. Some (mark_text mark) };

    #[tactic(auto, unfolding(crate::specs::Mark::mark_text))]
    fn fmt<W: fmt::Write>(&self, f: &mut fmt::Formatter<W>) -> fmt::Result {
        let Mark { high, low } = *self;
        write!(f, "{high:016x}{low:016x}")
    }
}

fn kind_number(kind: Kind) -> u64
    ensures { result ≡ kind_number kind }
{
    match kind {
        Kind::Reg => 1,
        Kind::Elem => 2,
    }
}

/// A number, with a byte put behind it.
#[tactic(auto, unfolding(crate::specs::Mark::with_byte))]
fn with_byte(word: u64, byte: u8) -> u64
    ensures { result ≡ with_byte word byte }
{
    word.wrapping_mul(256).wrapping_add(u64::from(byte))
}

/// A few bytes as a number.
fn short_word(mut bytes: &[u8]) -> u64
    ensures { result ≡ fold with_byte 0 bytes.entry.now }
{
    let mut word = 0;
    'reading: while let Some((byte, later)) = bytes.split_first() {
        word = with_byte(word, *byte);
        bytes = later;
    }
    word
}

/// The last eight bytes as a number, or all where they are fewer.
fn last_word(bytes: &[u8]) -> u64
    ensures { result ≡ last_word bytes.now }
{
    match bytes.last_chunk::<8>() {
        Some(last) => u64::from_be_bytes(*last),
        None => short_word(bytes),
    }
}
