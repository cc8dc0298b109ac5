//! Requests for what changed, and for changes of what did not.
ghost use Rattle.std.specs.Prelude.{◌≡◌, IfOk, codes, string_bytes};
ghost use Rattle.rds_fields.specs.Tokens.{field_values};
ghost use Rattle.rds_http.specs.Tags.{
  always,
  has_strong_tag,
  has_tag,
  is_known,
  is_matched,
  is_matched_by,
  is_met,
  is_named_by,
  is_same_tag,
  standing,
  state_tag,
  text_tag,
  without_blanks,
};

use crate::access::are_joined;
use hex::encode;
use http::HeaderMap;
use http::header::{HeaderValue, IF_MATCH, IF_NONE_MATCH};
use rds_store::Document;
use sha2::{Digest, Sha256};
use std::alloc::{AllocError, Global};
use std::marker::Model;

/// What is reported of a place where nothing stands.
const NOTHING: &[u8] = b"{\"counter\":null,\"reg\":[],\"set\":[]}";

/// What the conditions of a request are about: its tag, which has no comma, and whether there is anything.
#[derive(Drop)]
pub struct Current {
    tag: String,
    is_there: bool,
}

impl Model for Current {
    ghost use Rattle.std.specs.Prelude.{string_bytes};
    ghost use Rattle.rds_http.specs.Tags.{CurrentValue, coded_current};

    ghost Value = { CurrentValue };

    ghost coded = { coded_current };

    ghost view = { λ c. record { tag = string_bytes c.tag; is_there = c.is_there } };
}

impl Current {
    /// What has this tag, which is always there.
    pub fn always(tag: String) -> Current
        ensures { result ≡ always (string_bytes tag) }
    {
        Current {
            tag,
            is_there: true,
        }
    }

    /// What stands at a place, by the text that is told of it.
    pub fn at_place(alloc: Global, text: &[u8]) -> Result<Current, AllocError>
        ensures { IfOk result (λ current. current ≡ standing text.now) }
    {
        Ok(Current {
            tag: text_tag(alloc, text)?,
            is_there: text != NOTHING,
        })
    }

    /// Whether a request has what this is, and wants no more of it (RFC 9110, 2022): an `If-None-Match` field names the
    /// tag, weak or not, or is `*` where there is anything.
    pub fn is_known(&self, headers: &HeaderMap<HeaderValue>) -> bool
        ensures { result ≡ is_known headers.now self.now }
    {
        for value in headers.get_all(IF_NONE_MATCH) {
            if self.is_named_by(value.as_bytes()) {
                return true;
            }
        }
        false
    }

    /// Whether a request with these header fields may change what it wants to where this is so (RFC 9110, 2022): it has
    /// no `If-Match` field, or one that names the tag, and not as a weak one, or is `*` where there is anything; and
    /// this isn't known.
    pub fn meets(&self, headers: &HeaderMap<HeaderValue>) -> bool
        ensures { result ≡ is_met headers.now self.now }
    {
        self.is_matched(headers) && !self.is_known(headers)
    }

    /// Whether there is no `If-Match` field, or one names the tag, or is `*`.
    fn is_matched(&self, headers: &HeaderMap<HeaderValue>) -> bool
        ensures { result ≡ is_matched headers.now self.now }
    {
        if headers.get(IF_MATCH).is_none() {
            return true;
        }
        for value in headers.get_all(IF_MATCH) {
            if self.is_matched_by(value.as_bytes()) {
                return true;
            }
        }
        false
    }

    /// Whether a field is `*`, or one of its members the tag.
    fn is_named_by(&self, value: &[u8]) -> bool
        ensures { result ≡ is_named_by self.now value.now }
    {
        (self.is_there && value == b"*".as_slice()) || has_tag(self.tag.as_bytes(), value)
    }

    /// Whether a field is `*`, or one of its members the tag, and strong.
    fn is_matched_by(&self, value: &[u8]) -> bool
        ensures { result ≡ is_matched_by self.now value.now }
    {
        (self.is_there && value == b"*".as_slice()) || has_strong_tag(self.tag.as_bytes(), value)
    }
}

/// What is shown has this tag, and whether the one that asks knows it.
#[derive(Drop)]
pub struct Seen {
    pub tag: String,
    pub is_known: bool,
}

/// What a request with these header fields has seen of what has this tag.
pub fn seen_of(tag: String, headers: &HeaderMap<HeaderValue>) -> Seen
    ensures tag { string_bytes result.tag ≡ string_bytes tag }
    ensures known { result.is_known ≡ is_known headers.now (always (string_bytes tag)) }
{
    let current = Current::always(tag);
    let is_known = current.is_known(headers);
    Seen {
        tag: current.tag,
        is_known,
    }
}

/// The tag of what is shown of a document: its mark, quoted.
pub fn document_tag(alloc: Global, document: &Document) -> Result<String, AllocError>
    ensures { IfOk result (λ tag. string_bytes tag ≡ state_tag document.now.state) }
{
    let mark = document.mark();
    format!(in alloc; "\"{mark}\"")
}

/// The tag of what stands at a place, by the text that is told of it: the first 16 bytes of the hash of that, as hex
/// digits, quoted.
pub fn text_tag(alloc: Global, text: &[u8]) -> Result<String, AllocError>
    ensures { IfOk result (λ tag. string_bytes tag ≡ text_tag text.now) }
{
    let hash = Sha256::digest(text);
    let digits = encode(alloc, &hash[..16])?;
    format!(in alloc; "\"{digits}\"")
}

/// Whether one of the tags of a field is this one.
fn has_tag(tag: &[u8], value: &[u8]) -> bool
    ensures { result ≡ has_tag tag.now value.now }
{
    value
        .split(|b| *b == b',')
        .any(|member| is_same_tag(tag, without_blanks(member)))
}

/// Whether one of the tags of a field is this one, and strong.
fn has_strong_tag(tag: &[u8], value: &[u8]) -> bool
    ensures { result ≡ has_strong_tag tag.now value.now }
{
    value
        .split(|b| *b == b',')
        .any(|member| without_blanks(member) == tag)
}

/// Whether tags have the same opaque part, where the first is strong.
fn is_same_tag(tag: &[u8], other: &[u8]) -> bool
    ensures { result ≡ is_same_tag tag.now other.now }
{
    other == tag || are_joined(b"W/", tag, other)
}

/// A text without the blanks before and behind.
fn without_blanks(text: &[u8]) -> &[u8]
    ensures { result.now ≡ without_blanks text.now }
{
    text.trim_ascii()
}
