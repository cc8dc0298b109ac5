//! The secret that requests show.
ghost use Rattle.std.specs.Prelude.{◌≡◌, ◌⊎◌, ◌++◌, Ok, Err, bytes_eq, codes, string_bytes, IfOk, MatchResult};
ghost use Rattle.std.specs.List.{list_all, list_any};
ghost use Rattle.rds_names.specs.declared.fault.Fault.TheVariants.{Memory};
ghost use Rattle.rds_fields.specs.Tokens.{
  cookie_start,
  has_cookie,
  is_bearing,
  is_shown,
  is_token,
  is_token_byte,
  token_in,
  field_values,
  without_newline,
  without_space,
};

use crate::names::are_same_names;
use http::HeaderMap;
use http::header::{AUTHORIZATION, COOKIE, HeaderValue};
use rds_names::Fault;
use std::alloc::{AllocError, Global};
use std::marker::Model;

/// The least and the most bytes of a token.
const LEAST: usize = 16;

const MOST: usize = 128;

/// The scheme by which a field shows a token, and the space behind it.
const SCHEME: &[u8] = b"Bearer ";

/// A secret that requests show: 16 to 128 bytes of `A-Z a-z 0-9 - . _ ~`.
#[derive(Drop)]
pub struct Token {
    bytes: Vec<u8>,
}

impl Model for Token {
    ghost use Rattle.std.specs.Prelude.{ℕ, List};

    ghost Value = { List ℕ };

    ghost view = { λ t. t.bytes.items };
}

impl Token {
    /// The token that bytes are, as those of a file, which may end in a line feed. Others are refused (`Usage`).
    pub fn read(alloc: Global, bytes: &[u8]) -> Result<Token, Fault>
        ensures { MatchResult result (λ token. token_in bytes.now ≡ Ok token)
            (λ fault. (fault ≡ Memory) ⊎ (token_in bytes.now ≡ Err fault)) }
    {
        let text = without_newline(bytes);
        if !is_token(text) {
            return Err(Fault::Usage);
        }
        let bytes = Vec::from_slice(alloc, text)?;
        Ok(Token { bytes })
    }

    /// Its text.
    pub fn as_bytes(&self) -> &[u8]
        ensures { result.now ≡ self.now }
    {
        &self.bytes
    }

    /// Whether bytes are the token. The time that this takes tells nothing of the token but its length.
    pub fn is(&self, shown: &[u8]) -> bool
        ensures { result ≡ bytes_eq shown.now self.now }
    {
        are_same(shown, &self.bytes)
    }

    /// Whether header fields show it: `Authorization: Bearer TOKEN` (RFC 6750, 2012), with the scheme in whatever case, or
    /// a cookie (RFC 6265, 2011) that begins so and goes on with the token.
    pub fn is_shown(&self, start: &[u8], headers: &HeaderMap<HeaderValue>) -> bool
        ensures { result ≡ is_shown start.now self.now headers.now }
    {
        self.is_borne(headers) || self.is_kept(start, headers)
    }

    /// Whether an `Authorization` field shows it.
    fn is_borne(&self, headers: &HeaderMap<HeaderValue>) -> bool
        ensures { result ≡ list_any (is_bearing self.now) (field_values headers.now (codes "authorization")) }
    {
        for value in headers.get_all(AUTHORIZATION) {
            if self.is_borne_by(value.as_bytes()) {
                return true;
            }
        }
        false
    }

    /// Whether the value of a field is the scheme, in whatever case (RFC 9110, 2022), a space and the token.
    fn is_borne_by(&self, value: &[u8]) -> bool
        ensures { result ≡ is_bearing self.now value.now }
    {
        match value.split_at_checked(SCHEME.len()) {
            Some((scheme, shown)) => are_same_names(scheme, SCHEME) && self.is(shown),
            None => false,
        }
    }

    /// Whether a `Cookie` field shows it.
    fn is_kept(&self, start: &[u8], headers: &HeaderMap<HeaderValue>) -> bool
        ensures { result ≡ list_any (has_cookie start.now self.now) (field_values headers.now (codes "cookie")) }
    {
        for value in headers.get_all(COOKIE) {
            if self.is_among(start, value.as_bytes()) {
                return true;
            }
        }
        false
    }

    /// Whether one of the cookies of a field shows it.
    fn is_among(&self, start: &[u8], cookies: &[u8]) -> bool
        ensures { result ≡ has_cookie start.now self.now cookies.now }
    {
        cookies
            .split(|b| *b == b';')
            .any(|cookie| self.is_behind(start, without_space(cookie)))
    }

    /// Whether bytes are these and then the token.
    fn is_behind(&self, start: &[u8], bytes: &[u8]) -> bool
        ensures { result ≡ bytes_eq bytes.now (start.now ++ self.now) }
    {
        match bytes.strip_prefix(start) {
            Some(shown) => self.is(shown),
            None => false,
        }
    }
}

/// The name of the cookie that shows the token to a site at this port, and the sign behind it. A browser sends the
/// cookies of a host to each of its ports, so that nodes on one machine need names of their own.
pub fn cookie_start(alloc: Global, port: u16) -> Result<String, AllocError>
    ensures { IfOk result (λ start. string_bytes start ≡ cookie_start port) }
{
    format!(in alloc; "rds_{port}=")
}

/// Whether bytes are the same, with all of them compared.
fn are_same(shown: &[u8], due: &[u8]) -> bool
    ensures { result ≡ bytes_eq shown.now due.now }
{
    if shown.len() != due.len() {
        return false;
    }
    let mut same = true;
    for (i, byte) in shown.iter().enumerate() {
        same &= *byte == due[i];
    }
    same
}

/// The bytes without a line feed at their end.
fn without_newline(bytes: &[u8]) -> &[u8]
    ensures { result.now ≡ without_newline bytes.now }
{
    match bytes.last() {
        Some(b'\n') => &bytes[..bytes.len() - 1],
        _ => bytes,
    }
}

fn is_token(text: &[u8]) -> bool
    ensures { result ≡ is_token text.now }
{
    LEAST <= text.len() && text.len() <= MOST && are_token_bytes(text)
}

fn are_token_bytes(text: &[u8]) -> bool
    ensures { result ≡ list_all is_token_byte text.now }
{
    text.iter().all(|b| is_token_byte(*b))
}

fn is_token_byte(byte: u8) -> bool
    ensures { result ≡ is_token_byte byte }
{
    byte.is_ascii_alphanumeric() || matches!(byte, b'-' | b'.' | b'_' | b'~')
}

/// A cookie without the space before it.
fn without_space(cookie: &[u8]) -> &[u8]
    ensures { result.now ≡ without_space cookie.now }
{
    match cookie.split_first() {
        Some((b' ', rest)) => rest,
        _ => cookie,
    }
}
