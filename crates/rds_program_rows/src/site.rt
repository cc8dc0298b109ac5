//! What rows have in place of a site: it says by its fault which words it was given.
ghost use Rattle.std.specs.Prelude.{◌≡◌};

use rds_commands::{RunSite, SiteRequest, Visit};
use rds_files::Disk;
use rds_names::{Fault, Path};
use rds_words::{RunWords, SyncWords, WatchWords, interval_of};
use std::alloc::Global;
use std::fs;
use std::time::Duration;

/// How a site refuses an edit.
const REFUSAL: &[u8] = b"{\"fault\":8,\"name\":\"CounterFull\",\"line\":1}";

/// Serves nothing.
pub struct ToldSite;

impl<H: Disk> RunSite<H> for ToldSite {
    // `Usage` for seconds that are none; `Device` for the file f alone, which is every 10 seconds, `Unsure` for all
    // options, with two peers every 86,400, and `NoSuch` for other words.
    fn run_site(&self, _rt: &H, words: RunWords<'_>) -> Fault {
        let Ok(every) = interval_of(words.every) else {
            return Fault::Usage;
        };
        if words.file != "f" {
            return Fault::NoSuch;
        }
        if is_plain(&words, every) {
            return Fault::Device;
        }
        if is_full(&words, every) {
            return Fault::Unsure;
        }
        Fault::NoSuch
    }

    // Of the file f and the site http://h:1, nothing taken and no fault where 0 seconds were said, and no answer where
    // none were; `Forked` behind nothing taken for the token t and 5 seconds. `Device` for other options, and `NoSuch`
    // for other words.
    fn sync_site(&self, _rt: &H, words: SyncWords<'_>, timeout: Option<Duration>) -> Visit {
        if words.file != "f" || words.addr != "http://h:1" {
            return told(None, Some(Fault::NoSuch));
        }
        let seconds = timeout.map(|timeout| timeout.as_secs());
        match (words.token_file, seconds) {
            (None, None) => told(Some(0), None),
            (None, Some(60)) => told(None, None),
            (Some(token), Some(5)) if token == "t" => told(Some(0), Some(Fault::Forked)),
            _ => told(None, Some(Fault::Device)),
        }
    }

    // Of the site http://h:1 what is asked, in words; of lines these themselves. The site http://v:1 tells of a path the
    // path's own text, and refuses an edit. The site http://s:1 tells the bytes of the file s as its snapshot. `Device`
    // for other sites.
    fn call_site(&self, rt: &H, address: &str, request: SiteRequest<'_>) -> Result<Vec<u8>, Fault> {
        let alloc = rt.alloc();
        match (address, request) {
            ("http://h:1", _) => said(alloc, request),
            ("http://v:1", SiteRequest::Edits(_)) => Ok(Vec::from_slice(alloc, REFUSAL)?),
            ("http://v:1", SiteRequest::Value(text)) => Ok(Vec::from_slice(
                alloc,
                text.as_bytes(),
            )?),
            ("http://v:1", SiteRequest::Document(text)) => {
                Ok(Vec::from_slice(alloc, text.as_bytes())?)
            }
            ("http://s:1", SiteRequest::Snapshot) => match fs::read(rt, "s") {
                Ok(bytes) => Ok(bytes),
                Err(_) => Err(Fault::Device),
            },
            _ => Err(Fault::Device),
        }
    }

    // Of the site http://h:1, `PeerEnded` where the root is followed and there is no token, `OutOfTurn` for the path a/b and
    // the token t, and `Device` for other words; `NoSuch` for other sites.
    fn watch_site(&self, _rt: &H, words: WatchWords<'_>, part: &Path) -> Fault {
        if words.node != "http://h:1" {
            return Fault::NoSuch;
        }
        match (words.path, part.len(), words.token_file) {
            ("", 0, None) => Fault::PeerEnded,
            ("a/b", 2, Some(token)) if token == "t" => Fault::OutOfTurn,
            _ => Fault::Device,
        }
    }
}

// What is asked, in words. Each name is taken but z, which is there.
fn said(alloc: Global, request: SiteRequest<'_>) -> Result<Vec<u8>, Fault> {
    match request {
        SiteRequest::Edits(lines) => Ok(Vec::from_slice(alloc, lines)?),
        SiteRequest::Value(path) => named(alloc, "value", path),
        SiteRequest::Document(path) => named(alloc, "document", path),
        SiteRequest::Conflicts("") => Ok(Vec::new(alloc)),
        SiteRequest::Conflicts(path) => named(alloc, "conflicts", path),
        SiteRequest::Status => Ok(Vec::from_slice(alloc, b"status\n")?),
        SiteRequest::Ask => Ok(Vec::from_slice(alloc, b"ask")?),
        SiteRequest::Answer(question) => lettered(alloc, "answer", question),
        SiteRequest::Take { question, answer } => {
            let mut text = lettered(alloc, "take", question)?;
            text.extend_from_slice(&lettered(alloc, " with", answer)?)?;
            Ok(text)
        }
        SiteRequest::Grow("z") => Err(Fault::BadRoster),
        SiteRequest::Grow(name) => named(alloc, "grow", name),
        SiteRequest::Snapshot => Ok(Vec::from_slice(alloc, b"snapshot")?),
    }
}

// What is asked at a path.
fn named(alloc: Global, what: &str, path: &str) -> Result<Vec<u8>, Fault> {
    Ok(format!(in alloc; "{what} {path}")?.into_bytes())
}

// A word and the letter that goes with it.
fn lettered(alloc: Global, word: &str, letter: &[u8]) -> Result<Vec<u8>, Fault> {
    let mut text = format!(in alloc; "{word} ")?.into_bytes();
    text.extend_from_slice(letter)?;
    Ok(text)
}

// What came of a meeting.
fn told(taken: Option<u128>, fault: Option<Fault>) -> Visit
    ensures { result.taken ≡ taken }
{
    Visit { taken, fault }
}

// Whether nothing but the file was said.
fn is_plain(words: &RunWords<'_>, every: u32) -> bool {
    words.http == "127.0.0.1:7780"
        && words.peers.is_empty()
        && every == 10
        && words.token_file.is_none()
        && !words.is_open
        && !words.log
}

// Whether all options were, with the peers in this order.
fn is_full(words: &RunWords<'_>, every: u32) -> bool {
    let Some(token) = words.token_file else {
        return false;
    };
    match words.peers.as_slice() {
        [first, second] => {
            words.http == "h:1"
                && *first == "p:2"
                && *second == "q:3"
                && every == 86_400
                && token == "t"
                && words.is_open
                && words.log
        }
        _ => false,
    }
}
