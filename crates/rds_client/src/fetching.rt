//! A file that is fetched from a node, also over a link that breaks on the way.
use crate::asking::AskWords;
use crate::calling::{Caller, caller_of, name_in};
use crate::requests::{DONE, LONGEST_BODY, PARTIAL, Part, Resource, Response, Rest, Talk};
use crate::secrets::read_secret;
use crate::troubles::Trouble;
use rds_files::Disk;
use rds_names::Fault;
use std::alloc::Global;
use std::net::Net;
use std::thread;
use std::time::Duration;

/// So many tries, one after the other, may bring no more of a file once some of it has come.
const TRIES: u32 = 30;

/// The pause before the next try, in milliseconds.
const PAUSE: u64 = 1_000;

/// Asks a node for a file, and answers its bytes. Where the connection is lost on the way, the rest is asked for a second
/// later, by the file's tag: a node that has changed it since gives the whole. Refuses as [`ask_node`](crate::ask_node)
/// does; the time that it is waited for is that of all tries together.
pub fn fetch_node<H: Disk + Net>(
    rt: &H,
    words: &AskWords<'_>,
    resource: Resource,
) -> Result<Vec<u8>, Fault> {
    let name = name_in(words.node);
    let token = read_secret(rt, words.token_file)?;
    let mut caller = caller_of(rt, name, token.as_ref(), Some(words.timeout))?;
    match fetch(rt, &mut caller, resource) {
        Ok(bytes) => Ok(bytes),
        Err(trouble) => {
            trouble.tell(rt, name);
            Err(trouble.refusal())
        }
    }
}

// Tries again as long as some of the file is there, and more of it may come.
fn fetch<H: Disk + Net>(
    rt: &H,
    caller: &mut Caller<'_>,
    resource: Resource,
) -> Result<Vec<u8>, Trouble> {
    let mut fetched = Fetched::new(rt.alloc());
    let mut tries: u32 = 0;
    for _ in 0..u64::MAX {
        let had = fetched.bytes.len();
        let trouble = match fetched.go_on(rt, caller, resource) {
            Ok(()) => return Ok(fetched.bytes),
            Err(trouble) => trouble,
        };
        tries = if had < fetched.bytes.len() {
            0
        } else {
            tries.saturating_add(1)
        };
        if fetched.bytes.is_empty() || TRIES < tries || !trouble.may_pass() {
            return Err(trouble);
        }
        thread::sleep(rt, Duration::from_millis(PAUSE));
    }
    Err(Trouble::Ended)
}

/// The first bytes of a file, and the text of the tag that it has.
#[derive(Drop)]
struct Fetched {
    alloc: Global,
    bytes: Vec<u8>,
    tag: Vec<u8>,
}

impl Fetched {
    fn new(alloc: Global) -> Fetched {
        Fetched {
            alloc,
            bytes: Vec::new(alloc),
            tag: Vec::new(alloc),
        }
    }

    // Asks for what is lacking. Where that doesn't come whole, what came of it is kept.
    fn go_on<H: Disk + Net>(
        &mut self,
        rt: &H,
        caller: &mut Caller<'_>,
        resource: Resource,
    ) -> Result<(), Trouble> {
        let mut talk = Talk::new(self.alloc);
        let first = self.bytes.len();
        let range = format!(in self.alloc; "bytes={first}-")?;
        let rest = Rest {
            range: range.as_str(),
            tag: self.tag.as_slice(),
        };
        let is_begun = !self.bytes.is_empty() && !self.tag.is_empty();
        let answer = caller.ask_file(rt, resource, is_begun.then_some(rest), &mut talk);
        match answer {
            Ok(response) => {
                let (head, body) = (response.head, response.body);
                if head.status != DONE && head.status != PARTIAL {
                    return Err(Trouble::Refused(Response { head, body }));
                }
                let tag = talk.take_part().tag;
                self.take(Part { head, tag, body })
            }
            Err(trouble) => {
                self.take(talk.take_part())?;
                Err(trouble)
            }
        }
    }

    // Takes the whole, or what stands behind what is there. Anything else is none of a node.
    fn take(&mut self, part: Part) -> Result<(), Trouble> {
        let Part { head, tag, body } = part;
        match (head.status, head.first) {
            (DONE, _) => {
                self.bytes = body;
                self.tag = tag;
                Ok(())
            }
            (PARTIAL, Some(first)) if first == self.bytes.len() as u64 => {
                if LONGEST_BODY.saturating_sub(self.bytes.len()) < body.len() {
                    return Err(Trouble::TooLong);
                }
                self.bytes.extend_from_slice(body.as_slice())?;
                Ok(())
            }
            (PARTIAL, _) => Err(Trouble::Foreign),
            _ => Ok(()),
        }
    }
}
