//! Who may come.
ghost use Rattle.std.specs.Prelude.{◌≡◌, ◌++◌, bytes_eq, codes, option_map, IfOk};
ghost use Rattle.std.specs.List.{list_any};
ghost use Rattle.std.specs.Net.Socket.{socket_port};
ghost use Rattle.std.specs.Str.{str_eq_ignore_ascii_case};
ghost use Rattle.rds_http.specs.Access.{
  allowed_hosts,
  are_own_origins,
  denial,
  host_in,
  hosts_at,
  is_among,
  is_own_origin,
  is_watched,
  needs_token,
  shows_token,
};

use crate::routes::{Asked, Look, Post};
use http::HeaderMap;
use http::header::{HOST, HeaderValue, ORIGIN};
use rds_fields::{Token, are_same_names, cookie_start};
use std::alloc::{AllocError, Global};
use std::marker::Model;
use std::net::SocketAddr;

/// Why a request isn't let in.
#[derive(Clone, Copy, Debug, PartialEq, Eq)]
pub enum Denied {
    /// It names a host that isn't this machine.
    Host,
    /// It comes from a page of another site.
    Origin,
    /// It doesn't show the token.
    Token,
}

/// Who may come to a site. Where there is no token, and it isn't open, requests have to name this machine: the address,
/// or `localhost`, `127.0.0.1` or `[::1]` with its port.
#[derive(Drop)]
pub struct Access {
    address: SocketAddr,
    token: Option<Token>,
    is_open: bool,
}

impl Model for Access {
    ghost use Rattle.std.specs.Net.Socket.{socket_port};
    ghost use Rattle.rds_http.specs.Access.{AccessValue, allowed_hosts, coded_access};

    ghost Value = { AccessValue };

    ghost coded = { coded_access };

    ghost view = { λ a. record {
      hosts = allowed_hosts a.address a.token a.is_open;
      port = socket_port a.address;
      token = a.token;
    } };
}

impl Access {
    /// Who may come to a site at this address.
    pub fn new(address: SocketAddr, token: Option<Token>, is_open: bool) -> Access
        ensures { result ≡ record {
          hosts = allowed_hosts address token is_open;
          port = socket_port address;
          token = token;
        } }
    {
        Access {
            address,
            token,
            is_open,
        }
    }

    /// The port of the address.
    pub fn port(&self) -> u16
        ensures { result ≡ self.now.port }
    {
        self.address.port()
    }

    /// The token that is due, if one is.
    pub fn token(&self) -> Option<&Token>
        ensures { option_map (λ token. token.now) result ≡ self.now.token }
    {
        self.token.as_ref()
    }

    /// Why a request that asks for this, with these header fields, isn't let in. `None` where it is.
    pub fn denial(
        &self,
        alloc: Global,
        asked: Asked,
        headers: &HeaderMap<HeaderValue>,
    ) -> Result<Option<Denied>, AllocError>
        ensures { IfOk result (λ denied. denied ≡ denial self.now asked headers.now) }
    {
        if !self.allows_host(alloc, host_in(headers))? {
            return Ok(Some(Denied::Host));
        }
        if is_watched(asked) && !are_own_origins(headers) {
            return Ok(Some(Denied::Origin));
        }
        if needs_token(asked) && !self.is_shown_token(alloc, headers)? {
            return Ok(Some(Denied::Token));
        }
        Ok(None)
    }

    /// Whether requests may name this host.
    fn allows_host(&self, alloc: Global, host: Option<&[u8]>) -> Result<bool, AllocError>
        ensures { IfOk result (λ allowed. allowed ≡ is_among self.now.hosts (option_map (λ h. h.now) host.entry)) }
    {
        if self.is_open || self.token.is_some() {
            return Ok(true);
        }
        match host {
            Some(host) => is_host_at(alloc, self.address, host),
            None => Ok(false),
        }
    }

    /// Whether the token is shown, where one is due.
    fn is_shown_token(
        &self,
        alloc: Global,
        headers: &HeaderMap<HeaderValue>,
    ) -> Result<bool, AllocError>
        ensures { IfOk result (λ shown. shown ≡ shows_token self.now.port self.now.token headers.now) }
    {
        match &self.token {
            Some(token) => {
                let start = cookie_start(alloc, self.port())?;
                Ok(token.is_shown(start.as_bytes(), headers))
            }
            None => Ok(true),
        }
    }
}

/// Whether a host names this machine, in whatever case, with the port of its address.
fn is_host_at(alloc: Global, address: SocketAddr, host: &[u8]) -> Result<bool, AllocError>
    ensures { IfOk result (λ own. own ≡ list_any (str_eq_ignore_ascii_case host.now) (hosts_at address)) }
{
    let port = address.port();
    let given = format!(in alloc; "{address}")?;
    let name = format!(in alloc; "localhost:{port}")?;
    let four = format!(in alloc; "127.0.0.1:{port}")?;
    let six = format!(in alloc; "[::1]:{port}")?;
    Ok(
        are_same_names(host, given.as_bytes())
            || are_same_names(host, name.as_bytes())
            || are_same_names(host, four.as_bytes())
            || are_same_names(host, six.as_bytes()),
    )
}

/// Whether it is asked for something that pages of other sites may not ask for.
fn is_watched(asked: Asked) -> bool
    ensures { result ≡ is_watched asked }
{
    matches!(asked, Asked::Post(_) | Asked::Change(_) | Asked::Live)
}

/// Whether it is asked for something that is shown to none without the token.
fn needs_token(asked: Asked) -> bool
    ensures { result ≡ needs_token asked }
{
    !matches!(asked, Asked::Look(Look::Page) | Asked::Post(Post::Login))
}

/// The host that a request names, where it names one.
fn host_in(headers: &HeaderMap<HeaderValue>) -> Option<&[u8]>
    ensures { option_map (λ host. host.now) result ≡ host_in headers.now }
{
    let mut hosts = headers.get_all(HOST).into_iter();
    let first = hosts.next()?;
    match hosts.next() {
        Some(_) => None,
        None => Some(first.as_bytes()),
    }
}

/// Whether a request comes from no page, or from one of the host that it names.
fn are_own_origins(headers: &HeaderMap<HeaderValue>) -> bool
    ensures { result ≡ are_own_origins headers.now }
{
    let host = host_in(headers);
    for origin in headers.get_all(ORIGIN) {
        if !is_own_origin(host, origin.as_bytes()) {
            return false;
        }
    }
    true
}

/// Whether an origin is that of a host.
fn is_own_origin(host: Option<&[u8]>, origin: &[u8]) -> bool
    ensures { result ≡ is_own_origin (option_map (λ h. h.now) host.entry) origin.now }
{
    match host {
        Some(host) => {
            are_joined(b"http://", host, origin) || are_joined(b"https://", host, origin)
        }
        None => false,
    }
}

/// Whether bytes are these two, one behind the other.
pub fn are_joined(start: &[u8], end: &[u8], bytes: &[u8]) -> bool
    ensures { result ≡ bytes_eq bytes.now (start.now ++ end.now) }
{
    match bytes.strip_prefix(start) {
        Some(rest) => rest == end,
        None => false,
    }
}
