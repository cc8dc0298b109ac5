//! What is written on standard error of words that may be meant as the address of a node, and aren't one.
use crate::visits::is_site;
use rds_files::Disk;
use std::fs;

/// The port that a node has unless it is given another.
const NODE_PORT: &str = "7780";

/// What a word may be meant as.
#[derive(Clone, Copy, Debug)]
enum Meant {
    /// A node behind TLS.
    Https,
    /// A node, though it doesn't begin with `http://`.
    Http,
    /// A host and a port.
    Place,
    /// None of these.
    Other,
}

// What a word that is no site's address may be meant as.
fn meant_as(word: &str) -> Meant {
    let scheme = match word.split_once(':') {
        Some((scheme, _)) => scheme,
        None => return Meant::Other,
    };
    if scheme.eq_ignore_ascii_case("https") {
        Meant::Https
    } else if scheme.eq_ignore_ascii_case("http") {
        Meant::Http
    } else if is_place(word) {
        Meant::Place
    } else {
        Meant::Other
    }
}

// Whether a word is a host and a port.
fn is_place(word: &str) -> bool {
    match word.rsplit_once(':') {
        Some((host, port)) => {
            !host.is_empty() && !host.contains('/') && port.parse::<u16>().is_ok()
        }
        None => false,
    }
}

fn note_https<H: Eprint>(rt: &H, word: &str) {
    let _ = eprintln!(rt;
        "{word}: https isn't spoken here: a tunnel or a proxy on this machine does it (docs/GUIDE.md)"
    );
}

fn note_http<H: Eprint>(rt: &H, word: &str) {
    let _ = eprintln!(rt; "'{word}' is no node's address, as http://127.0.0.1:7780 is");
}

fn note_place<H: Eprint>(rt: &H, word: &str) {
    let _ = eprintln!(rt; "did you mean http://{word}?");
}

/// Tells what a word may be meant as that stands where a file or a node does, where it is neither.
pub fn note_no_file<H: Disk>(rt: &H, word: &str) {
    match meant_as(word) {
        Meant::Https => note_https(rt, word),
        Meant::Http if !is_site(word) => note_http(rt, word),
        Meant::Place if is_missing(rt, word) => note_place(rt, word),
        _ => (),
    }
}

/// Tells that a node's address stands where a file alone does.
pub fn note_no_address<H: Eprint>(rt: &H, word: &str) {
    if let Meant::Https | Meant::Http = meant_as(word) {
        let _ = eprintln!(rt; "{word}: this command takes no node's address, only a file");
    }
}

// Whether no file is at a path.
fn is_missing<H: Disk>(rt: &H, path: &str) -> bool {
    matches!(fs::exists(rt, path), Ok(false))
}

/// Tells that a node's address is to stand where another word does, and what that may be meant as.
pub fn note_no_site<H: Eprint>(rt: &H, word: &str) {
    let _ = eprintln!(rt; "'{word}' is no node, as http://127.0.0.1:7780 is");
    match meant_as(word) {
        Meant::Https => note_https(rt, word),
        Meant::Place => note_place(rt, word),
        _ => (),
    }
}

/// Tells that a word is no address of a peer, as where it is that of a node, or a file's path.
pub fn note_no_peer<H: Eprint>(rt: &H, word: &str) {
    match meant_as(word) {
        Meant::Https => note_https(rt, word),
        Meant::Http => note_http(rt, word),
        _ if !word.contains(':') => {
            let _ = eprintln!(rt;
                "'{word}' is no HOST:PORT, as 127.0.0.1:4000 is; two files meet by 'pair'"
            );
        }
        _ => (),
    }
}

/// Tells where a node may be, where a session with a peer failed at the port that nodes have.
pub fn note_node_port<H: Eprint>(rt: &H, word: &str, status: u8) {
    if status != 0 && word.ends_with(NODE_PORT) && is_place(word) {
        let _ = eprintln!(rt; "port {NODE_PORT} is that of nodes: did you mean http://{word}?");
    }
}
