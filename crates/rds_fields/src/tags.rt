//! The tag of what a replica asks, as a text: an entity tag (RFC 9110, 2022).
ghost use Rattle.std.specs.Prelude.{◌≡◌, ◌≢◌, ◌↔◌, ◌<◌, ◌^◌, ◌++◌, None, List, ℕ, IfOk, IfSome, IsTrue, codes, length, string_bytes};
ghost use Rattle.std.specs.Str.{IsAscii};
ghost use Rattle.hex.specs.Hex.{IsBytes, encode_lower};
ghost use Rattle.rds_questions.specs.Tags.{IsTag};
ghost use Rattle.rds_questions.specs.declared.tags.Tag.{Tag as TagValue};
ghost use Rattle.rds_state.specs.declared.mark.Mark.{Mark as MarkValue};
ghost use Rattle.rds_fields.specs.Tags.{HoldsTagged, IsFrame, mark_half, mark_digits, quoted, tag_text};

use hex::{decode_to_slice, encode_to_slice};
use rds_questions::Tag;
use rds_state::Mark;
use std::alloc::{AllocError, Global};

/// How many bytes the text of a tag has.
const LENGTH: usize = 99;

/// The text of a tag: a quote, the 64 digits of the hash, a dash, the 32 digits of the mark, and a quote. Digits are hex
/// digits in lower case.
#[tactic(auto, unfolding(crate::specs::Tags::tag_text))]
pub fn tag_text(alloc: Global, tag: &Tag) -> Result<String, AllocError>
    ensures ok { IfOk result (λ text. string_bytes text ≡ tag_text tag.now) }
{
    let hash = hash_digits(&tag.hash);
    let high = half_digits(tag.mark.high);
    let low = half_digits(tag.mark.low);
    let hash = text_of(&hash);
    let high = text_of(&high);
    let low = text_of(&low);
    format!(in alloc; "\"{hash}-{high}{low}\"")
}

/// The tag of which this is the text.
#[tactic(auto, unfolding(crate::specs::Tags::tag_text))]
pub fn parse_tag(text: &[u8]) -> Option<Tag>
    ensures some { IfSome result (λ tag. text.now ≡ tag_text tag) }
    ensures none { result ≡ None → (tag : TagValue) → IsTag tag → text.now ≢ tag_text tag }
{
    let (hash, mark) = digits_in(text)?;
    Some(Tag {
        hash: hash_in(hash)?,
        mark: mark_in(mark)?,
    })
}

/// The tag whose text stands in front, and what stands behind it.
pub fn split_tag(bytes: &[u8]) -> Option<(Tag, &[u8])>
    ensures { IfSome result (λ found. HoldsTagged bytes.now found.0 found.1.now) }
{
    let (text, rest) = bytes.split_at_checked(LENGTH)?;
    Some((parse_tag(text)?, rest))
}

/// The digits in a text of a tag: of the hash, and of the mark.
fn digits_in(text: &[u8]) -> Option<(&[u8], &[u8])>
    ensures some { IfSome result (λ digits. text.now ≡ quoted digits.0.now digits.1.now) }
    ensures length { IfSome result (λ digits. length digits.0.now ≡ 64) }
    ensures none { result ≡ None → (hash mark : List ℕ) → length hash ≡ 64 → length mark ≡ 32
        → text.now ≢ quoted hash mark }
{
    if text.len() != LENGTH {
        return None;
    }
    let (start, rest) = text.split_at(1);
    let (hash, rest) = rest.split_at(64);
    let (dash, rest) = rest.split_at(1);
    let (mark, end) = rest.split_at(32);
    if is_frame(start, dash, end) {
        Some((hash, mark))
    } else {
        None
    }
}

/// Whether these are a quote, a dash and a quote.
fn is_frame(start: &[u8], dash: &[u8], end: &[u8]) -> bool
    ensures { IsTrue result ↔ IsFrame start.now dash.now end.now }
{
    start == b"\"".as_slice() && dash == b"-".as_slice() && end == b"\"".as_slice()
}

/// The hash whose digits these are.
fn hash_in(digits: &[u8]) -> Option<[u8; 32]>
    ensures some { IfSome result (λ hash. digits.now ≡ encode_lower hash) }
    ensures none { result ≡ None → (hash : List ℕ) → length hash ≡ 32 → IsBytes hash
        → digits.now ≢ encode_lower hash }
{
    let mut hash = [0; 32];
    decode_to_slice(digits, &mut hash).ok()?;
    if hash_digits(&hash).as_slice() == digits {
        Some(hash)
    } else {
        None
    }
}

/// The mark whose digits these are.
fn mark_in(digits: &[u8]) -> Option<Mark>
    ensures some { IfSome result (λ mark. digits.now ≡ mark_digits mark) }
    ensures none { result ≡ None → (mark : MarkValue) → mark.high < 2 ^ 64 → mark.low < 2 ^ 64
        → digits.now ≢ mark_digits mark }
{
    let (high, low) = digits.split_at_checked(16)?;
    Some(Mark {
        high: half_in(high)?,
        low: half_in(low)?,
    })
}

/// The half of a mark whose digits these are.
fn half_in(digits: &[u8]) -> Option<u64>
    ensures some { IfSome result (λ half. digits.now ≡ mark_half half) }
    ensures none { result ≡ None → (half : ℕ) → half < 2 ^ 64 → digits.now ≢ mark_half half }
{
    let mut bytes = [0; 8];
    decode_to_slice(digits, &mut bytes).ok()?;
    let half = u64::from_be_bytes(bytes);
    if half_digits(half).as_slice() == digits {
        Some(half)
    } else {
        None
    }
}

/// The digits of a hash.
fn hash_digits(hash: &[u8; 32]) -> [u8; 64]
    ensures { result ≡ encode_lower hash.now }
{
    let mut digits = [0; 64];
    match encode_to_slice(hash, &mut digits) {
        Ok(()) => digits,
        Err(_) => unreachable!(),
    }
}

/// The digits of half of a mark.
fn half_digits(half: u64) -> [u8; 16]
    ensures { result ≡ mark_half half }
{
    let mut digits = [0; 16];
    match encode_to_slice(&half.to_be_bytes(), &mut digits) {
        Ok(()) => digits,
        Err(_) => unreachable!(),
    }
}

/// Digits as a text.
fn text_of(digits: &[u8]) -> &str
    requires { IsAscii digits.now }
    ensures { result.now ≡ digits.now }
{
    match str::from_utf8(digits) {
        Ok(text) => text,
        Err(_) => unreachable!(),
    }
}
