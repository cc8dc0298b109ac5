//! Sites, which are run, met and called by commands, and made above this crate.
ghost use Rattle.std.specs.Prelude.{IfSome};
ghost use Rattle.rds_offline.specs.Letters.{IsBrought};

use rds_names::{Fault, Path};
use rds_words::{RunWords, SyncWords, WatchWords};
use std::time::Duration;

/// What came of a meeting with a site.
#[derive(Clone, Copy, Debug, PartialEq, Eq)]
pub struct Visit {
    /// How many components the file took, where the site's answer was judged and kept.
    pub taken: Option<u128>,
    /// The fault by which the meeting ended.
    pub fault: Option<Fault>,
}

/// What a command asks of a site, whose address stands in place of a file.
#[derive(Clone, Copy, Debug)]
pub enum SiteRequest<'a> {
    /// That it edits its document as lines of JSON say.
    Edits(&'a [u8]),
    /// What stands at a path, as `get` prints it.
    Value(&'a str),
    /// The document at a path, as `show` prints it.
    Document(&'a str),
    /// The registers with several values, at a path and below it, as `conflicts` prints them.
    Conflicts(&'a str),
    /// Whose replica it has, and how much there is of it, as `status` prints that.
    Status,
    /// What it asks of another replica, as `ask` prints it.
    Ask,
    /// What answers another replica's question, as `answer` prints it.
    Answer(&'a [u8]),
    /// That it takes the answer to a question of its own, as `take` does.
    Take {
        question: &'a [u8],
        answer: &'a [u8],
    },
    /// That it puts a name last in its roster, as `grow` does of a file.
    Grow(&'a str),
    /// The document's snapshot, which is a file of its replica.
    Snapshot,
}

/// Runs sites, each over the replica in a file, meets them, calls them, and follows them.
pub trait RunSite<H> {
    /// Serves the file over HTTP until a fault ends that, and answers the fault.
    fn run_site(&self, rt: &H, words: RunWords<'_>) -> Fault;

    /// Has the file meet the site at the address, `http://HOST:PORT`. A wait for it takes so long at most.
    fn sync_site(&self, rt: &H, words: SyncWords<'_>, timeout: Option<Duration>) -> Visit
        ensures taken { IfSome result.taken (IsBrought words.entry.file.now) };

    /// Asks the site at the address, `http://HOST:PORT`, and answers what it says. A fault by which it refuses comes
    /// back as that, such as `BadName` and `BadRoster` of a name. Why there is no answer is reported on standard error.
    fn call_site(&self, rt: &H, address: &str, request: SiteRequest<'_>) -> Result<Vec<u8>, Fault>;

    /// Prints what the site at the address, `http://HOST:PORT`, tells of its changes at a path, below it or above it,
    /// until a fault ends that, and answers the fault. Why it ended is reported on standard error.
    fn watch_site(&self, rt: &H, words: WatchWords<'_>, part: &Path) -> Fault;
}
