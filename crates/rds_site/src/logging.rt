//! The log of requests: a line for each on standard output, where that is wished.
ghost use Rattle.std.specs.Prelude.{◌≡◌, ◌&&◌, IfOk, IsTrue, OnErr, OnOk};
ghost use Rattle.rds_state.specs.Mark.{mark_of};
ghost use Rattle.http_server.specs.Response.{IsBlank};
ghost use Rattle.rds_site.specs.Refusals.{AnswersOrRefuses, refusal_of};

use crate::behind::shows_behind;
use crate::forks::{is_told_question, names_fork};
use crate::refusals::{Refusal, is_change, is_edit, is_long, refuse};
use crate::remains::leave;
use bytes::Bytes;
use http::{Method, Request};
use http_server::{Response, Service};
use rds_files::{Disk, LockFile, Whereabouts};
use rds_http::Site;
use rds_names::Fault;
use rds_state::Mark;
use std::alloc::{AllocError, Global};
use std::net::SocketAddr;
use std::time::Duration;

/// So many bytes of a method and of a target are told at most: strangers choose them.
const MOST_TOLD: usize = 200;

/// How many bytes of an escape may stand at the end of what is reported, which isn't whole then.
const PART: usize = 2;

/// The lines of a turn, but for the time that it takes. Where there is no memory for one it is left out.
#[derive(Drop)]
pub struct Log {
    alloc: Global,
    lines: Vec<String>,
    // How many of them stay where what changed in the turn can't be kept.
    fixed: usize,
}

impl Log {
    /// Without a line.
    pub fn new(alloc: Global) -> Log {
        Log {
            alloc,
            lines: Vec::new(alloc),
            fixed: 0,
        }
    }

    // Notes a request of a client, and what it is answered. That may be replaced, where something has changed by then.
    fn note(
        &mut self,
        client: SocketAddr,
        request: &Request<Bytes>,
        response: &Response,
        has_changed: bool,
    ) {
        if let Ok(line) = line_of(self.alloc, client, request, response) {
            let _ = self.lines.push(line);
        }
        if !has_changed {
            self.fixed = self.lines.len();
        }
    }

    // Drops the lines of answers that were replaced.
    fn cut(&mut self) {
        self.lines.truncate(self.fixed);
    }

    /// Writes the lines of a turn that took so long, and begins anew. Whether they can be written changes nothing.
    pub fn write<H: Print>(&mut self, rt: &H, took: Duration) {
        if self.lines.is_empty() {
            return;
        }
        if let Ok(text) = text_of(self.alloc, &self.lines, took) {
            let _ = print!(rt; "{text}");
        }
        self.lines.clear();
        self.fixed = 0;
    }
}

/// What a client is answered in one hearing.
#[derive(Clone, Copy, Debug)]
pub struct Hearing {
    /// Where the client is.
    pub client: SocketAddr,
    /// Whether the first request may change the document. `None` where none was answered.
    pub is_change: Option<bool>,
    /// How many bytes the bodies of its answers have.
    pub given: usize,
}

impl Hearing {
    /// Of a client that was answered nothing yet.
    pub fn of(client: SocketAddr) -> Hearing {
        Hearing {
            client,
            is_change: None,
            given: 0,
        }
    }

    fn note(&mut self, request: &Request<Bytes>, response: &Response) {
        if self.is_change.is_none() {
            self.is_change = Some(is_change(request));
        }
        self.given = self.given.saturating_add(response.body.len());
    }
}

/// A site, and the log of what it is asked, where one is kept. Once its file is known to be older than what its replica
/// has sent, edits are refused; changes are while the file can't be written, and long answers while many are under way.
pub struct LoggedSite<'a, H: Disk> {
    pub alloc: Global,
    /// The path of its file.
    pub file: &'a str,
    pub site: Site<'a, H>,
    pub log: Option<Log>,
    /// Who asks, and what that is answered.
    pub hearing: Hearing,
    /// How many requests came of a fork. A full count stays.
    pub forks: u64,
    /// Whether the file is known to be older than what its replica has sent.
    pub is_behind: bool,
    /// After how many seconds a change may be tried again, where changes are refused now.
    pub stalled: Option<u64>,
    /// Whether one change is tried, since the file couldn't be written.
    pub is_trying: bool,
    /// Whether many answers are under way.
    pub is_crowded: bool,
}

impl<H: Disk> Drop for LoggedSite<'_, H> {
    fn drop(self) {
        let LoggedSite {
            alloc: _,
            file: _,
            site: _site,
            log: _log,
            hearing: _,
            forks: _,
            is_behind: _,
            stalled: _,
            is_trying: _,
            is_crowded: _,
        } = self;
    }
}

impl<H: Disk> Service for LoggedSite<'_, H>
where
    H::File: LockFile,
{
    ghost use Rattle.std.specs.Prelude.{IsTrue};
    ghost use Rattle.rds_site.specs.Refusals.{AnswersOrRefuses, refusal_of};

    ghost answers = { λ old request response new.
        AnswersOrRefuses (refusal_of old.is_behind old.stalled old.is_crowded request) old.site request response
        new.site × (IsTrue old.is_behind → IsTrue new.is_behind) };

    fn call(
        &mut self,
        request: &Request<Bytes>,
        response: &mut Response,
    ) -> Result<(), AllocError> {
        self.answer(request, response)?;
        self.hearing.note(request, response);
        let has_changed = self.site.has_changed();
        if let Some(log) = &mut self.log {
            log.note(self.hearing.client, request, response, has_changed);
        }
        Ok(())
    }
}

impl<H: Disk> LoggedSite<'_, H>
where
    H::File: LockFile,
{
    // Has the site answer a request, and notes whether that shows that its file is behind; or refuses it.
    fn answer(
        &mut self,
        request: &Request<Bytes>,
        response: &mut Response,
    ) -> Result<(), AllocError>
        requires { IsBlank response.old }
        ensures answered { OnOk result
            (AnswersOrRefuses (refusal_of self.old.is_behind self.old.stalled self.old.is_crowded request.now)
            self.old.site request.now response.new self.new.site) }
        ensures behind { IsTrue self.old.is_behind → IsTrue self.new.is_behind }
        ensures err { OnErr result (self.new ≡ self.old) }
    {
        if let Some(refusal) = self.refusal(request) {
            return refuse(self.alloc, refusal, response);
        }
        self.site.call(request, response)?;
        self.is_behind |= shows_behind(request, response);
        self.note_fork(request, response);
        Ok(())
    }

    // Why a request is refused, where it is.
    fn refusal(&self, request: &Request<Bytes>) -> Option<Refusal>
        ensures { result ≡ refusal_of self.now.is_behind self.now.stalled self.now.is_crowded request.now }
    {
        if self.is_behind && is_edit(request) {
            return Some(Refusal::Behind);
        }
        if is_change(request) {
            return match self.stalled {
                Some(seconds) => Some(Refusal::Stalled(seconds)),
                None => None,
            };
        }
        if self.is_crowded && is_long(request) {
            return Some(Refusal::Crowded);
        }
        None
    }

    // Counts a request that came of a fork.
    fn note_fork(&mut self, request: &Request<Bytes>, response: &Response)
        ensures site { self.new.site ≡ self.old.site }
        ensures behind { self.new.is_behind ≡ self.old.is_behind }
    {
        if !is_told_question(request, response) {
            return;
        }
        if let Ok(own) = self.site.tag() {
            if names_fork(request, &own) {
                self.forks = self.forks.saturating_add(1);
            }
        }
    }
}

impl<'a, H: Disk> LoggedSite<'a, H>
where
    H::File: LockFile,
{
    /// The same over its file, which is read anew, where what had changed couldn't be kept: what it holds has to have
    /// this mark. Refuses as [`Site::reopen`] does. `Device` also where others moved, removed or wrote over the file:
    /// what it held is left beside it, where it is nowhere else.
    pub fn reopen(self, rt: &H, kept: Mark) -> Result<LoggedSite<'a, H>, Fault>
        ensures behind { IfOk result (λ logged. logged.is_behind ≡ self.entry.is_behind) }
        ensures kept { IfOk result (λ logged. logged.site.document ≡ logged.site.kept) }
        ensures mark { IfOk result (λ logged. mark_of logged.site.kept.state ≡ kept) }
    {
        let LoggedSite {
            alloc,
            file,
            site,
            mut log,
            hearing,
            forks,
            is_behind,
            stalled,
            is_trying,
            is_crowded,
        } = self;
        let site = match site.whereabouts(rt) {
            Whereabouts::There => site.reopen(rt, file, kept)?,
            Whereabouts::Elsewhere => return Err(Fault::Device),
            Whereabouts::Lost => {
                leave(rt, file, site);
                return Err(Fault::Device);
            }
        };
        if let Some(log) = &mut log {
            log.cut();
        }
        Ok(LoggedSite {
            alloc,
            file,
            site,
            log,
            hearing,
            forks,
            is_behind,
            stalled,
            is_trying,
            is_crowded,
        })
    }
}

// A line: the client's address, the method, the target, the status, and how many bytes the answer's body has. Three
// dots stand behind a method or a target of which a part is reported.
fn line_of(
    alloc: Global,
    client: SocketAddr,
    request: &Request<Bytes>,
    response: &Response,
) -> Result<String, AllocError> {
    let uri = request.uri();
    let mut target = String::new(alloc);
    push_visible(&mut target, format!(in alloc; "{uri}")?.as_bytes())?;
    let mut line = format!(in alloc; "{client} ")?;
    push_told(&mut line, request.method().as_str())?;
    line.push(' ')?;
    push_told(&mut line, target.as_str())?;
    let status = response.status.as_u16();
    let length = if *request.method() == Method::HEAD {
        0
    } else {
        response.body.len()
    };
    write!(line, " {status} {length}")?;
    Ok(line)
}

// Adds bytes. Those that aren't visible characters of ASCII are percent-encoded (RFC 3986).
fn push_visible(text: &mut String, bytes: &[u8]) -> Result<(), AllocError> {
    for byte in bytes {
        if byte.is_ascii_graphic() {
            text.push(char::from(*byte))?;
        } else {
            write!(text, "%{byte:02X}")?;
        }
    }
    Ok(())
}

// Adds what is reported of visible characters: all, or the first of them without a part of an escape.
fn push_told(line: &mut String, text: &str) -> Result<(), AllocError> {
    match text.get(..told_len(text.as_bytes())) {
        Some(told) if told.len() < text.len() => write!(line, "{told}..."),
        _ => line.push_str(text),
    }
}

fn told_len(text: &[u8]) -> usize {
    if text.len() <= MOST_TOLD {
        return text.len();
    }
    for len in MOST_TOLD - PART..MOST_TOLD {
        if text.get(len) == Some(&b'%') {
            return len;
        }
    }
    MOST_TOLD
}

// The lines, each with the time in microseconds.
fn text_of(alloc: Global, lines: &[String], took: Duration) -> Result<String, AllocError> {
    let took = took.as_micros();
    let mut text = String::new(alloc);
    for line in lines {
        writeln!(text, "{line} {took}")?;
    }
    Ok(text)
}
