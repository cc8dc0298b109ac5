//! The sites that the program runs, meets, calls and follows.
use rds_client::{AskWords, Resource, VisitWords, ask_node, fetch_node, sync_site, watch_node};
use rds_commands::{RunSite, SiteRequest, Visit};
use rds_files::{Disk, LockFile};
use rds_names::{Fault, Path};
use rds_site::{SiteWords, run_site};
use rds_words::{RunWords, SyncWords, WatchWords, interval_of};
use std::env;
use std::env::{Env, VarError};
use std::net::Net;
use std::random::RandomSource;
use std::time::Duration;

/// How many seconds a command waits for a node that it calls.
const PATIENCE: u64 = 60;

/// The variable of the environment that has the path of the token's file for commands that call a node.
const TOKEN_FILE: &str = "RDS_TOKEN_FILE";

/// The sites that the program runs, meets, calls and follows.
pub struct Sites;

impl<H: Disk + Env + Net + RandomSource + Print> RunSite<H> for Sites
where
    H::File: LockFile,
{
    fn run_site(&self, rt: &H, words: RunWords<'_>) -> Fault {
        let Ok(every) = interval_of(words.every) else {
            note_every(rt, words.every);
            return Fault::Usage;
        };
        let site = SiteWords {
            file: words.file,
            http: words.http,
            peers: &words.peers,
            every,
            token_file: words.token_file,
            is_open: words.is_open,
            log: words.log,
        };
        run_site(rt, &site)
    }

    fn sync_site(&self, rt: &H, words: SyncWords<'_>, timeout: Option<Duration>) -> Visit {
        let named = match token_file(rt) {
            Ok(named) => named,
            Err(fault) => {
                return Visit {
                    taken: None,
                    fault: Some(fault),
                };
            }
        };
        let visit = sync_site(
            rt,
            &VisitWords {
                file: words.file,
                node: words.addr,
                token_file: first_of(words.token_file, &named),
                timeout,
            },
        );
        Visit {
            taken: visit.taken,
            fault: visit.fault,
        }
    }

    fn call_site(&self, rt: &H, address: &str, request: SiteRequest<'_>) -> Result<Vec<u8>, Fault> {
        let named = token_file(rt)?;
        let words = ask_words(address, first_of(None, &named));
        match request {
            SiteRequest::Edits(lines) => ask_node(rt, &words, Resource::Edits, "", &[lines]),
            SiteRequest::Value(path) => ask_node(rt, &words, Resource::Value, path, &[]),
            SiteRequest::Document(path) => ask_node(rt, &words, Resource::Document, path, &[]),
            SiteRequest::Conflicts(path) => ask_node(rt, &words, Resource::Conflicts, path, &[]),
            SiteRequest::Status => ask_node(rt, &words, Resource::Status, "", &[]),
            SiteRequest::Ask => ask_node(rt, &words, Resource::Ask, "", &[]),
            SiteRequest::Answer(question) => {
                ask_node(rt, &words, Resource::Answer, "", &[question])
            }
            SiteRequest::Take { question, answer } => give(rt, &words, question, answer),
            SiteRequest::Grow(name) => {
                ask_node(rt, &words, Resource::Grow, "", &[name.as_bytes()])
            }
            SiteRequest::Snapshot => fetch_node(rt, &words, Resource::Snapshot),
        }
    }

    fn watch_site(&self, rt: &H, words: WatchWords<'_>, part: &Path) -> Fault {
        match token_file(rt) {
            Ok(named) => {
                let token_file = first_of(words.token_file, &named);
                watch_node(rt, &ask_words(words.node, token_file), part)
            }
            Err(fault) => fault,
        }
    }
}

// Gives a node the answer to its question: the length of the question in 4 bytes, big-endian, and both.
fn give<H: Disk + Net>(
    rt: &H,
    words: &AskWords<'_>,
    question: &[u8],
    answer: &[u8],
) -> Result<Vec<u8>, Fault> {
    let Ok(length) = u32::try_from(question.len()) else {
        return Err(Fault::TooLong);
    };
    let length = length.to_be_bytes();
    ask_node(rt, words, Resource::Take, "", &[&length, question, answer])
}

// How a command asks the node at an address.
fn ask_words<'a>(node: &'a str, token_file: Option<&'a str>) -> AskWords<'a> {
    AskWords {
        node,
        token_file,
        timeout: Duration::from_secs(PATIENCE),
    }
}

// The path of the token's file, where the environment has one.
fn token_file<H: Env + AllocGlobal>(rt: &H) -> Result<Option<String>, Fault> {
    match env::var(rt, TOKEN_FILE) {
        Ok(path) => Ok(Some(path)),
        Err(VarError::NotPresent) => Ok(None),
        Err(VarError::OutOfMemory) => Err(Fault::Memory),
        Err(_) => Err(Fault::Usage),
    }
}

// The path that the words name, or else that of the environment.
fn first_of<'a>(named: Option<&'a str>, set: &'a Option<String>) -> Option<&'a str> {
    match (named, set) {
        (Some(path), _) => Some(path),
        (None, Some(path)) => Some(path.as_str()),
        (None, None) => None,
    }
}

// Tells that no site meets its peers so often.
fn note_every<H: Eprint>(rt: &H, every: &str) {
    let _ = eprintln!(rt; "--every '{every}' is no whole number of seconds from 1 to 86400");
}
