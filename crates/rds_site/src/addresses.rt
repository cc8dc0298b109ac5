//! The address of a site.
ghost use Rattle.std.specs.Prelude.{◌≡◌, ◌↔◌, IfErr, IfOk, IsOk};
ghost use Rattle.std.specs.Net.Grammar.{IsSocketText};
ghost use Rattle.rds_names.specs.declared.fault.Fault.TheVariants.{Usage};
ghost use Rattle.rds_site.specs.Addresses.{MayStand};

use rds_names::Fault;
use std::net::SocketAddr;

/// The address and port that a text spells. Another text is refused, with a line on standard error.
pub fn read_address<H: Eprint>(rt: &H, text: &str) -> Result<SocketAddr, Fault>
    ensures spelled { IfOk result (IsSocketText text.now) }
    ensures fault { IfErr result (λ fault. fault ≡ Usage) }
{
    match SocketAddr::parse_ascii(text.as_bytes()) {
        Ok(address) => Ok(address),
        Err(_) => {
            let _ = eprintln!(rt; "'{text}' is no address and port, as 127.0.0.1:7780 is");
            Err(Fault::Usage)
        }
    }
}

/// Whether a site may stand at an address: where others than this machine can reach it, a token is due, or the word
/// that lets everybody in. Else it is refused, with a line on standard error.
pub fn check_reach<H: Eprint>(
    rt: &H,
    address: SocketAddr,
    has_token: bool,
    is_open: bool,
) -> Result<(), Fault>
    ensures ok { IsOk result ↔ MayStand address has_token is_open }
    ensures fault { IfErr result (λ fault. fault ≡ Usage) }
{
    if address.ip().is_loopback() || has_token || is_open {
        return Ok(());
    }
    let _ = eprintln!(rt;
        "{address} can be reached from other machines: give --token-file PATH, or --open for all"
    );
    Err(Fault::Usage)
}
