//! Where nodes are that are called: the one that a command names, and the peers of a site.
ghost use Rattle.std.specs.Prelude.{◌≡◌, ◌<◌, ◌++◌, Err, codes, length, option_map, vec_len, IfOk};
ghost use Rattle.rds_names.specs.declared.fault.Fault.TheVariants.{Usage};
ghost use Rattle.rds_client.specs.declared.destinations.TheConstants.{MOST_PEERS};

use crate::troubles::{Trouble, tell};
use rds_fields::Token;
use rds_names::Fault;
use std::alloc::{AllocError, Global};
use std::io;
use std::io::ErrorKind;
use std::marker::Model;
use std::net::{Net, SocketAddr, ToSocketAddrs};

/// A site meets so many peers at most.
pub const MOST_PEERS: usize = 64;

/// The longest name of a host, with its port.
const LONGEST: usize = 261;

/// Where a peer is, and what requests to it show.
#[derive(Drop)]
pub struct Destination<'a> {
    name: &'a str,
    // Where it was when its name was found last. None where it never was.
    addresses: Vec<SocketAddr>,
    // Whether the name is to be looked up before the next try.
    is_stale: bool,
    // Which address is tried next.
    at: usize,
    authorization: Option<Vec<u8>>,
}

impl<'a> Model for Destination<'a> {
    ghost use Rattle.std.specs.Prelude.{option_map};
    ghost use Rattle.rds_client.specs.Destinations.{DestinationValue, coded_destination};

    ghost Value = { DestinationValue };

    ghost coded = { coded_destination };

    ghost view = { λ d. record {
      name = d.name.now;
      authorization = option_map (λ value. value.items) d.authorization;
    } };
}

impl<'a> Destination<'a> {
    /// Its host and port, as it was named.
    pub fn name(&self) -> &'a str
        ensures { result.now ≡ self.now.name }
    {
        self.name
    }

    /// What requests show of the token, where there is one: the value of `Authorization` (RFC 6750).
    pub(crate) fn authorization(&self) -> Option<&[u8]>
        ensures { option_map (λ value. value.now) result ≡ self.now.authorization }
    {
        match &self.authorization {
            Some(value) => Some(value.as_slice()),
            None => None,
        }
    }

    /// The address that is tried next.
    pub fn address(&self) -> Option<SocketAddr> {
        self.addresses.get(self.at).copied()
    }

    /// Turns to the next address. Answers whether there is one that wasn't tried in this round.
    pub fn turn(&mut self) -> bool
        ensures { self.new ≡ self.old }
    {
        self.at = self.at.saturating_add(1);
        if self.at < self.addresses.len() {
            return true;
        }
        self.at = 0;
        false
    }

    /// Looks its name up where that is due. Where it isn't found, it may still be where it was before.
    pub fn look_up<H: Net + AllocGlobal>(&mut self, rt: &H) -> io::Result<()>
        ensures { self.new ≡ self.old }
    {
        if !self.is_stale {
            return Ok(());
        }
        match look_up(rt, self.name) {
            Ok(addresses) => {
                self.addresses = addresses;
                self.at = 0;
                self.is_stale = false;
                Ok(())
            }
            Err(error) if self.addresses.is_empty() => Err(error),
            Err(_) => Ok(()),
        }
    }

    /// Its name is to be looked up before the next try.
    pub fn doubt(&mut self)
        ensures { self.new ≡ self.old }
    {
        self.is_stale = true;
        self.at = 0;
    }
}

/// Finds the peers that the words name, for a site at an address. A text that names no host and port, one that names
/// the site itself, and more than 64 are refused (`Usage`), with a line on standard error. A host that isn't found has
/// one too, and that peer has no address yet.
pub fn find_peers<'a, H: Net + Eprint + AllocGlobal>(
    rt: &H,
    names: &[&'a str],
    own: SocketAddr,
    token: Option<&Token>,
) -> Result<Vec<Destination<'a>>, Fault>
    ensures few { MOST_PEERS < length names.now → result ≡ Err Usage }
    ensures all { IfOk result (λ found. vec_len found ≡ length names.now) }
{
    if MOST_PEERS < names.len() {
        let _ = eprintln!(rt; "there are more than {MOST_PEERS} peers");
        return Err(Fault::Usage);
    }
    let mut found = Vec::new(rt.alloc());
    for name in names {
        found.push(find_peer(rt, name, own, token)?)?;
    }
    Ok(found)
}

// Finds one peer.
fn find_peer<'a, H: Net + Eprint + AllocGlobal>(
    rt: &H,
    name: &'a str,
    own: SocketAddr,
    token: Option<&Token>,
) -> Result<Destination<'a>, Fault> {
    check_place(rt, name)?;
    let addresses = addresses_now(rt, name)?;
    for address in addresses.as_slice() {
        if is_same_place(own, *address) {
            let _ = eprintln!(rt; "the peer {name} is this node itself");
            return Err(Fault::Usage);
        }
    }
    Ok(destination_of(rt.alloc(), name, addresses, token)?)
}

// The addresses of a peer. None where it isn't found, which is reported as of one that is lost.
fn addresses_now<H: Net + Eprint + AllocGlobal>(
    rt: &H,
    name: &str,
) -> Result<Vec<SocketAddr>, Fault> {
    match look_up(rt, name) {
        Ok(addresses) => Ok(addresses),
        Err(error) => match tell(rt, name, Trouble::from(error)) {
            Fault::Memory => Err(Fault::Memory),
            _ => Ok(Vec::new(rt.alloc())),
        },
    }
}

/// Finds the node of this name. A text that names no host and port is refused (`Usage`), and a host that isn't found
/// (`Device`), with a line on standard error, as where there is no memory to look it up (`Memory`).
pub fn find_node<'a, H: Net + Eprint + AllocGlobal>(
    rt: &H,
    name: &'a str,
    token: Option<&Token>,
) -> Result<Destination<'a>, Fault>
    ensures name { IfOk result (λ found. found.name ≡ name.now) }
    ensures shown { IfOk result (λ found. found.authorization
        ≡ option_map (λ token. codes "Bearer " ++ token.now) token.entry) }
{
    check_place(rt, name)?;
    let addresses = find_addresses(rt, name)?;
    Ok(destination_of(rt.alloc(), name, addresses, token)?)
}

// Refuses a text that names no host and port, with a line on standard error.
fn check_place<H: Eprint>(rt: &H, name: &str) -> Result<(), Fault> {
    if is_place(name) {
        return Ok(());
    }
    let _ = eprintln!(rt;
        "'{name}' is no host and port, as 192.0.2.7:7780 or node.example:7780 is"
    );
    Err(Fault::Usage)
}

// A peer of this name at these addresses.
fn destination_of<'a>(
    alloc: Global,
    name: &'a str,
    addresses: Vec<SocketAddr>,
    token: Option<&Token>,
) -> Result<Destination<'a>, AllocError>
    ensures name { IfOk result (λ found. found.name ≡ name.now) }
    ensures shown { IfOk result (λ found. found.authorization
        ≡ option_map (λ token. codes "Bearer " ++ token.now) token.entry) }
{
    Ok(Destination {
        name,
        is_stale: addresses.is_empty(),
        addresses,
        at: 0,
        authorization: authorization(alloc, token)?,
    })
}

// The addresses of a host and port: at least one.
fn find_addresses<H: Net + Eprint + AllocGlobal>(
    rt: &H,
    name: &str,
) -> Result<Vec<SocketAddr>, Fault> {
    match look_up(rt, name) {
        Ok(addresses) => Ok(addresses),
        Err(error) => {
            let _ = eprintln!(rt; "cannot find the peer {name}: {error}");
            Err(Trouble::from(error).fault())
        }
    }
}

// Looks the addresses of a host and port up: at least one.
fn look_up<H: Net + AllocGlobal>(rt: &H, name: &str) -> io::Result<Vec<SocketAddr>> {
    let mut addresses = Vec::new(rt.alloc());
    for address in name.to_socket_addrs(rt)? {
        addresses.push(address)?;
    }
    if addresses.is_empty() {
        return Err(io::Error::from(ErrorKind::NotFound));
    }
    Ok(addresses)
}

// Whether a text is an address and port, or a name and a port.
fn is_place(text: &str) -> bool {
    if LONGEST < text.len() {
        return false;
    }
    match SocketAddr::parse_ascii(text.as_bytes()) {
        Ok(address) => address.port() != 0,
        Err(_) => match text.rsplit_once(':') {
            Some((host, port)) => is_host_name(host.as_bytes()) && is_port(port),
            None => false,
        },
    }
}

fn is_host_name(host: &[u8]) -> bool {
    !host.is_empty()
        && host.iter().all(|b| b.is_ascii_alphanumeric() || matches!(b, b'-' | b'.' | b'_'))
}

fn is_port(port: &str) -> bool {
    port.as_bytes().iter().all(|b| b.is_ascii_digit())
        && matches!(port.parse::<u16>(), Ok(number) if number != 0)
}

// Whether who calls this address comes to a site at the own one.
fn is_same_place(own: SocketAddr, address: SocketAddr) -> bool {
    let is_any = own.ip().is_unspecified() && address.ip().is_loopback();
    own.port() == address.port() && (is_any || own.ip() == address.ip())
}

// What requests show of a token, where there is one.
fn authorization(alloc: Global, token: Option<&Token>) -> Result<Option<Vec<u8>>, AllocError>
    ensures shown { IfOk result (λ value. option_map (λ v. v.items) value
        ≡ option_map (λ token. codes "Bearer " ++ token.now) token.entry) }
{
    let Some(token) = token else {
        return Ok(None);
    };
    let mut value = Vec::from_slice(alloc, b"Bearer ")?;
    value.extend_from_slice(token.as_bytes())?;
    Ok(Some(value))
}
