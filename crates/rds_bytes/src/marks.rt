//! Marks of keys: numbers made of their bytes, by which most keys are told apart at once.
ghost use Rattle.std.specs.Prelude.{◌≡◌, fold};
ghost use Rattle.std.specs.Int.{w64, from_le_bytes};
ghost use Rattle.rds_bytes.specs.Marks.{mixed, with_byte, last_eight, mark};

use rds_names::Key;

/// An odd number, whose bits stand in no order: 2^64 by the golden ratio.
const FACTOR: u64 = 0x9e37_79b9_7f4a_7c15;

/// A number, with another mixed in. Both halves of a product are taken, so that each bit of the two tells on the low ones,
/// which name buckets.
#[tactic(auto, unfolding(crate::specs::Marks::mixed))]
fn mixed(mark: u64, word: u64) -> u64
    ensures { result ≡ mixed mark word }
{
    let (low, high) = (mark ^ word).carrying_mul(FACTOR, 0);
    low ^ high
}

/// What eight bytes at a time make.
fn mix_words(mut words: &[[u8; 8]]) -> u64
    ensures { result ≡ fold (λ m word. mixed m (from_le_bytes w64 word)) 0 words.entry.now }
{
    let mut mark = 0;
    'mixing: while let Some((word, later)) = words.split_first() {
        mark = mixed(mark, u64::from_le_bytes(*word));
        words = later;
    }
    mark
}

/// A number, with a byte put behind it.
#[tactic(auto, unfolding(crate::specs::Marks::with_byte))]
fn with_byte(word: u64, byte: u8) -> u64
    ensures { result ≡ with_byte word byte }
{
    word.wrapping_mul(256).wrapping_add(u64::from(byte))
}

/// A few bytes as a number.
fn short_word(mut bytes: &[u8]) -> u64
    ensures { result ≡ fold with_byte 0 bytes.entry.now }
{
    let mut word = 0;
    'reading: while let Some((byte, later)) = bytes.split_first() {
        word = with_byte(word, *byte);
        bytes = later;
    }
    word
}

/// The last eight bytes as a number, or all where they are fewer.
fn last_word(bytes: &[u8]) -> u64
    ensures { result ≡ last_eight bytes.now }
{
    match bytes.last_chunk::<8>() {
        Some(last) => u64::from_le_bytes(*last),
        None => short_word(bytes),
    }
}

/// The mark of a key. Equal keys have one mark, and strangers may choose keys that have one too.
#[tactic(auto, unfolding(crate::specs::Marks::mark))]
pub fn mark_of(key: &Key) -> u64
    ensures { result ≡ mark key.now }
{
    let bytes = key.as_bytes();
    let (words, _rest) = bytes.as_chunks::<8>();
    mixed(mix_words(words), last_word(bytes))
}
