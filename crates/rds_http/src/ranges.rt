//! The rest of a text, for who has its first bytes (RFC 9110, 2022).
ghost use Rattle.std.specs.Prelude.{◌≡◌, ◌<◌, ◌∷◌, ◌++◌, [], codes, drop, length, IfSome, IsTrue, OnOk, string_bytes};
ghost use Rattle.http_header.specs.FieldValue.{is_visible_text};
ghost use Rattle.http_server.specs.Response.{IsBlank};
ghost use Rattle.rds_http.specs.Ranges.{AsksRest, IsNumeralOf, TellsFile, TellsRest, WantsRest};
ghost use Rattle.rds_http.specs.Tags.{text_tag};

use crate::conditions::{seen_of, text_tag};
use crate::replies::{add_field, add_tag, fill_tagged, tell_known};
use bytes::Bytes;
use http::StatusCode;
use http::header::{CONTENT_RANGE, CONTENT_TYPE, HeaderMap, HeaderValue, IF_RANGE, RANGE};
use http_server::Response;
use std::alloc::{AllocError, Global};

/// Fills a response with a body of this type and a tag of its own: the whole, or the rest that the request wants, or no
/// more than the tag where that is known. The rest of what has changed since is the whole.
pub fn fill_file(
    alloc: Global,
    headers: &HeaderMap<HeaderValue>,
    kind: &'static str,
    body: Vec<u8>,
    response: &mut Response,
) -> Result<(), AllocError>
    requires blank { IsBlank response.old }
    requires visible { IsTrue (is_visible_text kind.now) }
    ensures { OnOk result
        (TellsFile headers.now (text_tag body.items) kind.now body.items response.new) }
{
    let tag = text_tag(alloc, body.as_slice())?;
    let seen = seen_of(tag, headers);
    if seen.is_known {
        return tell_known(response, seen.tag);
    }
    match rest_wanted(headers, seen.tag.as_bytes()) {
        Some(first) if first < body.len() => {
            fill_rest(alloc, first, kind, seen.tag, body, response)
        }
        _ => fill_tagged(response, kind, seen.tag, body),
    }
}

/// Fills a response with what of a body of this type and tag stands behind its first bytes.
fn fill_rest(
    alloc: Global,
    first: usize,
    kind: &'static str,
    tag: String,
    body: Vec<u8>,
    response: &mut Response,
) -> Result<(), AllocError>
    requires blank { IsBlank response.old }
    requires visible { IsTrue (is_visible_text kind.now) }
    requires inside { first < length body.items }
    ensures { OnOk result (TellsRest first (string_bytes tag) kind.now body.items response.new) }
{
    let (length, last) = (body.len(), body.len() - 1);
    let range = format!(in alloc; "bytes {first}-{last}/{length}")?;
    let Ok(range) = HeaderValue::from_vec(range.into_bytes()) else {
        return Err(AllocError);
    };
    response.status = StatusCode::PARTIAL_CONTENT;
    add_field(response, CONTENT_TYPE, kind)?;
    add_tag(response, tag)?;
    response.add_header(CONTENT_RANGE, range)?;
    let whole = Bytes::from_vec(body)?;
    response.body.push(whole.slice(first..)?)
}

/// From which byte on a request with these header fields wants what has this tag. `None` where it wants the whole: there
/// is no `Range` field that asks for one part up to the end, or `If-Range` names another tag.
fn rest_wanted(headers: &HeaderMap<HeaderValue>, tag: &[u8]) -> Option<usize>
    ensures { IfSome result (λ first. WantsRest headers.now tag.now first) }
{
    let range = headers.get(RANGE)?;
    if let Some(since) = headers.get(IF_RANGE) {
        if since.as_bytes() != tag {
            return None;
        }
    }
    first_in(range.as_bytes())
}

/// From which byte on a field asks for all. `None` where it asks for something else.
fn first_in(value: &[u8]) -> Option<usize>
    ensures { IfSome result (λ first. AsksRest value.now first) }
{
    number_in(digits_in(value)?)
}

/// What stands in a field that asks for all from a byte on, between its unit and its hyphen.
fn digits_in(value: &[u8]) -> Option<&[u8]>
    ensures { IfSome result (λ digits. value.now ≡ codes "bytes=" ++ (digits.now ++ codes "-")) }
{
    value.strip_prefix(b"bytes=")?.strip_suffix(b"-")
}

/// The number that digits are.
fn number_in(digits: &[u8]) -> Option<usize>
    ensures { IfSome result (λ number. IsNumeralOf digits.now number) }
{
    match str::from_utf8(digits) {
        Ok(text) => text.parse::<usize>().ok(),
        Err(_) => None,
    }
}
