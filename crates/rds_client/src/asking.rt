//! A node that a command asks, or has edit its document.
use crate::calling::{caller_of, name_in};
use crate::requests::{Request, Resource};
use crate::secrets::read_secret;
use rds_files::Disk;
use rds_names::Fault;
use std::net::Net;
use std::time::Duration;

/// Which node a command asks, and how.
#[derive(Clone, Copy)]
pub struct AskWords<'a> {
    /// Where the node is, as `http://127.0.0.1:7780`.
    pub node: &'a str,
    /// The path of a file that has the token that the node asks for.
    pub token_file: Option<&'a str>,
    /// How long it is waited for.
    pub timeout: Duration,
}

/// Makes one request of a node, for a resource at a path, with a body of these pieces, and answers the body of its response.
/// What the request asks for may be done where there is no response.
///
/// `Usage` where the text names no host and port, or the token's file has none. `Device` where the node can't be reached or waited
/// for, or lets wait too long; `OutOfTurn` where it is no node; `TooLong` of a response. Where it refuses the
/// request that is its own fault; `PeerEnded` where it tells none, where it says that the document is older than what is
/// taken, or ends the connection. Standard error has a line that says why.
pub fn ask_node<H: Disk + Net>(
    rt: &H,
    words: &AskWords<'_>,
    resource: Resource,
    path: &str,
    pieces: &[&[u8]],
) -> Result<Vec<u8>, Fault> {
    let name = name_in(words.node);
    let token = read_secret(rt, words.token_file)?;
    let mut caller = caller_of(rt, name, token.as_ref(), Some(words.timeout))?;
    match caller.ask(rt, &Request::new(resource, path, pieces)) {
        Ok(response) => Ok(response.body),
        Err(trouble) => Err(trouble.refusal()),
    }
}
