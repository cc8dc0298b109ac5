//! A site: a document in its file, who may come, and what is counted.
ghost use Rattle.std.specs.Prelude.{◌≡◌, ◌≢◌, ◌⊎◌, false, IfErr, IfOk, OnErr, OnOk};
ghost use Rattle.http.specs.Request.{body_of};
ghost use Rattle.http_server.specs.Response.{IsBlank};
ghost use Rattle.rds_files.specs.Files.{IsHeldAt, IsUnkept, RefusesFile, RefusesLock};
ghost use Rattle.rds_names.specs.Roster.{Begins};
ghost use Rattle.rds_names.specs.declared.fault.Fault.TheVariants.{Memory};
ghost use Rattle.rds_state.specs.Mark.{mark_of};
ghost use Rattle.rds_http.specs.Answers.{
  Does,
  DoesChange,
  DoesChangeAt,
  DoesPost,
  DoesPostUnless,
  KeepsRest,
  is_changing,
  is_conditional,
  is_unmet,
  may_change,
};
ghost use Rattle.rds_http.specs.Handshakes.{headers_of};
ghost use Rattle.rds_http.specs.Site.{after_keep};

use crate::access::Access;
use crate::changing::{Held, edit, grow, push, take};
use crate::conditions::{Current, document_tag};
use crate::live::upgrade;
use crate::login::log_in;
use crate::metrics::Metrics;
use crate::pulling::pull;
use crate::putting::put;
use crate::reading::{answer, look, value_at};
use crate::refusals::{deny, refuse, refuse_method, refuse_unknown, refuse_unmet, refuse_unmet_at};
use crate::reopening::open_same;
use crate::routes::{Asked, Change, Post, Route, route_of};
use crate::tracked::Tracked;
use bytes::Bytes;
use http::header::HeaderValue;
use http::{HeaderMap, Request};
use http_server::{Response, Service};
use rds_files::{CreatedFile, Disk, LockFile, Whereabouts};
use rds_json::LineReader;
use rds_names::Fault;
use rds_state::Mark;
use rds_store::{DocumentFile, GapSet, create_file};
use std::alloc::{AllocError, Global};
use std::marker::Model;

/// A document in its file, who may come, and what is counted. Requests look at the document or change it, in memory:
/// [`keep`](Site::keep) keeps it.
pub struct Site<'a, H: Disk> {
    pub(crate) alloc: Global,
    pub(crate) held: Held<'a, H>,
    pub(crate) reader: LineReader,
    pub(crate) access: Access,
    pub(crate) turn: u64,
    pub(crate) has_news: bool,
    pub(crate) metrics: Metrics,
}

// Written out, so that where a site is let go a caller's proof has one call.
impl<H: Disk> Drop for Site<'_, H> {
    fn drop(self) {
        let Site {
            alloc: _alloc,
            held: _held,
            reader: _reader,
            access: _access,
            turn: _turn,
            has_news: _has_news,
            metrics: _metrics,
        } = self;
    }
}

impl<'a, H: Disk> Model for Site<'a, H> {
    ghost use Rattle.rds_http.specs.Site.{ChangesAreNoted, SiteValue, coded_site};

    ghost Value = { SiteValue };

    ghost coded = { coded_site };

    ghost view = { λ s. record {
      path = s.held.file.path;
      document = s.held.file.document;
      kept = s.held.file.kept;
      has_changed = s.held.has_changed;
      turn = s.turn;
      has_news = s.has_news;
      access = s.access;
    } };

    ghost invariant = { λ s. ChangesAreNoted s.held.has_changed s.held.file.document s.held.file.kept };
}

impl<'a, H: Disk> Site<'a, H>
where
    H::File: LockFile,
{
    /// A site where nothing was asked for yet.
    pub fn new(alloc: Global, file: DocumentFile<'a, H>, access: Access) -> Site<'a, H>
        requires kept { file.document ≡ file.kept }
        ensures { result ≡ record {
          path = file.entry.path;
          document = file.entry.document;
          kept = file.entry.kept;
          has_changed = false;
          turn = 0;
          has_news = false;
          access = access;
        } }
    {
        Site {
            alloc,
            held: Held {
                file: Tracked::new(alloc, file),
                has_changed: false,
            },
            reader: LineReader::new(alloc),
            access,
            turn: 0,
            has_news: false,
            metrics: Metrics::new(),
        }
    }

    /// Whether the document may have changed since it was kept.
    pub fn has_changed(&self) -> bool
        ensures value { result ≡ self.now.has_changed }
        ensures kept { result ≡ false → self.now.document ≡ self.now.kept }
    {
        self.held.has_changed
    }

    /// Keeps the document in its file, where it may have changed since it was kept, and counts that. Refuses as
    /// [`DocumentFile::keep`] does.
    pub fn keep(&mut self, rt: &H) -> Result<(), Fault>
        ensures kept { OnOk result (self.new ≡ after_keep self.old) }
        ensures err { OnErr result (self.new ≡ self.old) }
        ensures fault { IfErr result (IsUnkept self.old.document) }
    {
        if self.held.has_changed {
            self.held.file.keep(rt)?;
            self.held.has_changed = false;
            self.turn = self.turn.saturating_add(1);
            self.has_news = true;
            self.metrics.note_sync();
        }
        Ok(())
    }

    /// The same site over its file, which is let go, and then locked and read anew: what wasn't kept is gone. Edits of
    /// that were refused, as far as is counted. Refuses as [`DocumentFile::open`] does. `Device` also where the file
    /// holds another document than the one of this mark, or of another replica: others may have had it meanwhile.
    pub fn reopen(self, rt: &H, path: &'a str, kept: Mark) -> Result<Site<'a, H>, Fault>
        ensures held { IfOk result (λ site. IsHeldAt path.now (record { path = site.path; kept = site.kept })) }
        ensures document { IfOk result (λ site. site.document ≡ site.kept) }
        ensures unchanged { IfOk result (λ site. site.has_changed ≡ false) }
        ensures mark { IfOk result (λ site. mark_of site.kept.state ≡ kept) }
        ensures own { IfOk result (λ site. site.kept.own ≡ self.entry.document.own) }
        ensures roster { IfOk result (λ site. Begins site.kept.roster self.entry.document.roster) }
        ensures turn { IfOk result (λ site. site.turn ≡ self.entry.turn) }
        ensures news { IfOk result (λ site. site.has_news ≡ self.entry.has_news) }
        ensures access { IfOk result (λ site. site.access ≡ self.entry.access) }
        ensures fault { IfErr result (λ fault. (fault ≡ Memory) ⊎ RefusesLock path.now fault) }
    {
        let Site {
            alloc,
            held,
            reader,
            access,
            turn,
            has_news,
            mut metrics,
        } = self;
        let was = held.file.document().replica();
        let own = was.own();
        let roster = was.roster().copy(alloc)?;
        drop(held);
        let file = open_same(rt, path, kept, own, &roster)?;
        metrics.note_loss();
        Ok(Site {
            alloc,
            held: Held {
                file: Tracked::new(alloc, file),
                has_changed: false,
            },
            reader,
            access,
            turn,
            has_news,
            metrics,
        })
    }

    /// What became of the file, as [`DocumentFile::whereabouts`] has it.
    pub fn whereabouts(&self, rt: &H) -> Whereabouts {
        self.held.file.whereabouts(rt)
    }

    /// Leaves the document, with what wasn't kept, in a new file of this path, and lets its own file go. Refuses as
    /// [`create_file`] does.
    pub fn leave<'b>(self, rt: &H, path: &'b str) -> Result<CreatedFile<'b, GapSet>, Fault>
        ensures left { IfOk result (λ file. file ≡ record { path = path.now; kept = self.entry.document }) }
        ensures fault { IfErr result (RefusesFile self.entry.document) }
    {
        let Site {
            alloc: _alloc,
            held,
            reader: _reader,
            access: _access,
            turn: _turn,
            has_news: _has_news,
            metrics: _metrics,
        } = self;
        create_file(rt, path, held.into_document())
    }

    /// The mark of the document. It takes no time.
    pub fn mark(&self) -> Mark
        ensures { result ≡ mark_of self.now.document.state }
    {
        self.held.file.document().mark()
    }

    /// How many times what had changed was kept. A full count stays.
    pub fn turn(&self) -> u64
        ensures { result ≡ self.now.turn }
    {
        self.turn
    }

    /// Notes how many connections there are, and how many of them listen. Where none does, no path is noted at which the
    /// document changes.
    pub fn note_clients(&mut self, clients: usize, listeners: usize)
        ensures { self.new ≡ self.old }
    {
        self.metrics.clients = clients;
        self.metrics.listeners = listeners;
        self.held.file.watch(listeners != 0);
    }
}

impl<H: Disk> Site<'_, H> {
    /// Answers a request that is let in.
    fn respond(
        &mut self,
        route: Route<'_>,
        request: &Request<Bytes>,
        response: &mut Response,
    ) -> Result<(), AllocError>
        requires { IsBlank response.old }
        ensures done { OnOk result
            (Does route.entry.asked route.entry.place.now self.old request.now response.new self.new) }
        ensures rest { KeepsRest self.old self.new }
        ensures refused { OnOk result (response.new.status ≢ 200 → self.new ≡ self.old) }
        ensures looked { may_change route.entry.asked ≡ false → self.new ≡ self.old }
        ensures err { OnErr result (self.new ≡ self.old) }
    {
        let alloc = self.alloc;
        match route.asked {
            Asked::Look(asked) => {
                let file = &mut self.held.file;
                look(
                    alloc,
                    file,
                    &self.metrics,
                    asked,
                    route.place,
                    request.headers(),
                    response,
                )
            }
            Asked::Post(post) => self.respond_to_post(post, request, response),
            Asked::Change(change) => self.respond_at(change, route.place, request, response),
            Asked::Live => upgrade(alloc, request, response),
            Asked::NotAllowed(resource) => refuse_method(alloc, resource, response),
            Asked::Unknown => refuse_unknown(alloc, response),
        }
    }

    /// Answers what is posted, unless the request names tags of which the document has none (412).
    fn respond_to_post(
        &mut self,
        post: Post,
        request: &Request<Bytes>,
        response: &mut Response,
    ) -> Result<(), AllocError>
        requires { IsBlank response.old }
        ensures done { OnOk result
            (DoesPostUnless (is_unmet post (headers_of request.now) self.old.document.state) post (body_of request.now)
            self.old response.new self.new) }
        ensures rest { KeepsRest self.old self.new }
        ensures refused { OnOk result (response.new.status ≢ 200 → self.new ≡ self.old) }
        ensures looked { is_changing post ≡ false → self.new ≡ self.old }
        ensures err { OnErr result (self.new ≡ self.old) }
    {
        if self.is_unmet(post, request.headers())? {
            return refuse_unmet(self.alloc, response);
        }
        self.do_post(post, request.body().as_slice(), response)
    }

    /// Whether a request with these header fields names tags, and the document has none of them.
    fn is_unmet(&self, post: Post, headers: &HeaderMap<HeaderValue>) -> Result<bool, AllocError>
        ensures { IfOk result (λ unmet. unmet ≡ is_unmet post headers.now self.now.document.state) }
    {
        if !is_conditional(post) {
            return Ok(false);
        }
        let current = Current::always(document_tag(self.alloc, self.held.file.document())?);
        Ok(!current.meets(headers))
    }

    /// Does what is posted, and answers that.
    fn do_post(
        &mut self,
        post: Post,
        body: &[u8],
        response: &mut Response,
    ) -> Result<(), AllocError>
        requires { IsBlank response.old }
        ensures done { OnOk result (DoesPost post body.now self.old response.new self.new) }
        ensures rest { KeepsRest self.old self.new }
        ensures refused { OnOk result (response.new.status ≢ 200 → self.new ≡ self.old) }
        ensures looked { is_changing post ≡ false → self.new ≡ self.old }
        ensures err { OnErr result (self.new ≡ self.old) }
    {
        let alloc = self.alloc;
        match post {
            Post::Edits => edit(
                alloc,
                &mut self.reader,
                &mut self.held,
                &mut self.metrics,
                body,
                response,
            ),
            Post::Grow => grow(alloc, &mut self.held, body, response),
            Post::Take => take(alloc, &mut self.held, &mut self.metrics, body, response),
            Post::Push => push(alloc, &mut self.held, &mut self.metrics, body, response),
            Post::Pull => pull(alloc, &mut self.held.file, body, response),
            Post::Answer => answer(alloc, self.held.file.document(), body, response),
            Post::Login => log_in(alloc, &self.access, body, response),
        }
    }

    /// Answers what is sent for a place, unless the request has conditions that what stands there doesn't meet (412). A
    /// place that is no path below the root is refused (`BadPath`, `BadKey`).
    fn respond_at(
        &mut self,
        change: Change,
        place: &[u8],
        request: &Request<Bytes>,
        response: &mut Response,
    ) -> Result<(), AllocError>
        requires { IsBlank response.old }
        ensures done { OnOk result
            (DoesChangeAt change place.now (headers_of request.now) (body_of request.now) self.old response.new
            self.new) }
        ensures rest { KeepsRest self.old self.new }
        ensures refused { OnOk result (response.new.status ≢ 200 → self.new ≡ self.old) }
        ensures err { OnErr result (self.new ≡ self.old) }
    {
        let alloc = self.alloc;
        let current = match value_at(alloc, self.held.file.document(), place) {
            Ok(text) => Current::at_place(alloc, text.as_bytes())?,
            Err(fault) => return refuse(alloc, fault, response),
        };
        if !current.meets(request.headers()) {
            return refuse_unmet_at(alloc, response);
        }
        self.change(change, place, request.body().as_slice(), response)
    }

    /// Does what is sent for a place, and answers that.
    fn change(
        &mut self,
        change: Change,
        place: &[u8],
        body: &[u8],
        response: &mut Response,
    ) -> Result<(), AllocError>
        requires { IsBlank response.old }
        ensures done { OnOk result (DoesChange change place.now body.now self.old response.new self.new) }
        ensures rest { KeepsRest self.old self.new }
        ensures refused { OnOk result (response.new.status ≢ 200 → self.new ≡ self.old) }
        ensures err { OnErr result (self.new ≡ self.old) }
    {
        let alloc = self.alloc;
        match change {
            Change::Edits => self.do_post(Post::Edits, body, response),
            Change::Set => put(
                alloc,
                &mut self.held,
                &mut self.metrics,
                place,
                body,
                response,
            ),
        }
    }
}

/// Whether this is done only where the document has a tag that the request names.
fn is_conditional(post: Post) -> bool
    ensures { result ≡ is_conditional post }
{
    matches!(post, Post::Edits | Post::Grow)
}

impl<H: Disk> Service for Site<'_, H> {
    ghost use Rattle.rds_http.specs.Answers.{Answers};

    ghost answers = { Answers };

    fn call(
        &mut self,
        request: &Request<Bytes>,
        response: &mut Response,
    ) -> Result<(), AllocError> {
        self.metrics.note_request();
        let route = route_of(
            request.method().as_str().as_bytes(),
            request.uri().path().as_bytes(),
        );
        match self
            .access
            .denial(self.alloc, route.asked, request.headers())?
        {
            Some(why) => deny(self.alloc, why, response),
            None => self.respond(route, request, response),
        }
    }
}
