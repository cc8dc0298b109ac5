//! Requests that change the document.
ghost use Rattle.std.specs.Prelude.{◌≡◌, ◌≢◌, ◌*◌, ◌≤◌, [], IfErr, IfOk, OnErr, OnOk, false, length, true};
ghost use Rattle.std.specs.List.{list_all};
ghost use Rattle.http_server.specs.Response.{IsBlank, IsResponse, fields_of};
ghost use Rattle.rds_lines.specs.Editing.{EditsLines, replies_text};
ghost use Rattle.rds_lines.specs.Lines.{lines_in};
ghost use Rattle.rds_names.specs.declared.fault.Fault.TheVariants.{Cut, Memory};
ghost use Rattle.rds_offline.specs.Letters.{TakesResponse};
ghost use Rattle.rds_output.specs.Reply.{is_refusal};
ghost use Rattle.rds_store.specs.Documents.{IsGrownBy};
ghost use Rattle.rds_store.specs.Meetings.{RefusesTaking};
ghost use Rattle.rds_http.specs.Changes.{
  AnswersEdits,
  AnswersGrowth,
  AnswersPush,
  AnswersTake,
  AnswersTexts,
  HoldsBoth,
  RefusesNewName,
};
ghost use Rattle.rds_http.specs.Lines.{is_short, lines_status};
ghost use Rattle.rds_http.specs.Site.{ChangesAreNoted, KeepsFile};
ghost use Rattle.rds_http.specs.declared.lines.TheConstants.{LONGEST};

use crate::lines::{LONGEST, MOST_LINES, are_refusals, line_count, lines_status, put_lines};
use crate::metrics::Metrics;
use crate::refusals::{refuse, refuse_tag};
use crate::replies::{JSON, LINES, add_field};
use crate::tracked::Tracked;
use bytes::BufMut;
use http::header::CONTENT_TYPE;
use http_server::Response;
use rds_files::Disk;
use rds_json::LineReader;
use rds_names::Fault;
use rds_output::Reply;
use rds_store::Document;
use std::alloc::{AllocError, Global};

/// A document in its file, and whether it may have changed since it was kept.
pub struct Held<'a, H: Disk> {
    pub file: Tracked<'a, H>,
    pub has_changed: bool,
}

impl<H: Disk> Drop for Held<'_, H> {
    fn drop(self) {
        let Held {
            file: _file,
            has_changed: _has_changed,
        } = self;
    }
}

impl<H: Disk> Held<'_, H> {
    /// The document, with what wasn't kept. The file is let go.
    pub fn into_document(self) -> Document
        ensures { result ≡ self.entry.file.document }
    {
        let Held {
            file,
            has_changed: _,
        } = self;
        file.into_document()
    }
}

/// Edits the document as the lines of a body say, and answers each but the empty ones. What that takes is there before
/// the first is done, so that what is done is answered. Where each line is refused, the status is that of the first. A
/// body of too many lines is refused whole (`TooLong`).
pub fn edit<H: Disk>(
    alloc: Global,
    reader: &mut LineReader,
    held: &mut Held<'_, H>,
    metrics: &mut Metrics,
    body: &[u8],
    response: &mut Response,
) -> Result<(), AllocError>
    requires blank { IsBlank response.old }
    requires noted { ChangesAreNoted held.old.has_changed held.old.file.document held.old.file.kept }
    ensures answered { OnOk result (AnswersEdits body.now held.old.file.document held.new.file.document response.new) }
    ensures noted { ChangesAreNoted held.new.has_changed held.new.file.document held.new.file.kept }
    ensures file { KeepsFile held.old.file held.new.file }
    ensures refused { OnOk result (response.new.status ≢ 200 → held.new ≡ held.old) }
    ensures err { OnErr result (held.new ≡ held.old) }
{
    let lines = line_count(body);
    if lines > MOST_LINES {
        return refuse(alloc, Fault::TooLong, response);
    }
    if make_room(response, lines).is_err() {
        return refuse(alloc, Fault::Memory, response);
    }
    add_field(response, CONTENT_TYPE, LINES)?;
    match edit_in(reader, held, body) {
        Ok(replies) => {
            metrics.note_edits(&replies);
            tell_replies(response, &replies);
            Ok(())
        }
        Err(fault) => {
            response.clear();
            refuse(alloc, fault, response)
        }
    }
}

/// Edits the document as lines say, and notes whether one was done.
fn edit_in<H: Disk>(
    reader: &mut LineReader,
    held: &mut Held<'_, H>,
    lines: &[u8],
) -> Result<Vec<Reply>, Fault>
    requires noted { ChangesAreNoted held.old.has_changed held.old.file.document held.old.file.kept }
    ensures edited { IfOk result
        (λ replies. EditsLines (lines_in lines.now) held.old.file.document held.new.file.document replies.items) }
    ensures short { IfOk result (λ replies. list_all is_short replies.items ≡ true) }
    ensures few { IfOk result (λ replies. length replies.items ≤ length (lines_in lines.now)) }
    ensures refused { IfOk result (λ replies. list_all is_refusal replies.items ≡ true → held.new ≡ held.old) }
    ensures memory { IfErr result (λ fault. fault ≡ Memory) }
    ensures noted { ChangesAreNoted held.new.has_changed held.new.file.document held.new.file.kept }
    ensures file { KeepsFile held.old.file held.new.file }
    ensures err { OnErr result (held.new ≡ held.old) }
{
    let replies = held.file.edit_lines(reader, lines)?;
    held.has_changed |= !are_refusals(&replies);
    Ok(replies)
}

/// Fills a response with the lines of replies, for which there is room, and their status.
pub fn tell_replies(response: &mut Response, replies: &[Reply])
    requires empty { response.old.body.items ≡ [] }
    requires short { list_all is_short replies.now ≡ true }
    requires room { LONGEST * length replies.now ≤ response.old.body.spare }
    ensures { IsResponse (lines_status replies.now) (fields_of response.old) (replies_text replies.now) response.new }
{
    response.status = lines_status(replies);
    put_lines(&mut response.body, replies);
}

/// Puts the name that a body is last in the roster, and answers that it is done.
pub fn grow<H: Disk>(
    alloc: Global,
    held: &mut Held<'_, H>,
    body: &[u8],
    response: &mut Response,
) -> Result<(), AllocError>
    requires blank { IsBlank response.old }
    requires noted { ChangesAreNoted held.old.has_changed held.old.file.document held.old.file.kept }
    ensures answered { OnOk result (AnswersGrowth body.now held.old.file.document held.new.file.document response.new) }
    ensures noted { ChangesAreNoted held.new.has_changed held.new.file.document held.new.file.kept }
    ensures file { KeepsFile held.old.file held.new.file }
    ensures refused { OnOk result (response.new.status ≢ 200 → held.new ≡ held.old) }
    ensures err { OnErr result (held.new ≡ held.old) }
{
    make_room(response, 1)?;
    add_field(response, CONTENT_TYPE, JSON)?;
    match grow_in(held, body) {
        Ok(()) => {
            put_lines(&mut response.body, &[Reply::Done]);
            Ok(())
        }
        Err(fault) => {
            response.clear();
            refuse(alloc, fault, response)
        }
    }
}

/// Puts the name that bytes are last in the roster, and notes that. Bytes that are no UTF-8 are no name (`BadName`).
fn grow_in<H: Disk>(held: &mut Held<'_, H>, bytes: &[u8]) -> Result<(), Fault>
    requires noted { ChangesAreNoted held.old.has_changed held.old.file.document held.old.file.kept }
    ensures grown { OnOk result (IsGrownBy bytes.now held.old.file.document held.new.file.document) }
    ensures fault { IfErr result (RefusesNewName bytes.now held.old.file.document) }
    ensures noted { ChangesAreNoted held.new.has_changed held.new.file.document held.new.file.kept }
    ensures file { KeepsFile held.old.file held.new.file }
    ensures err { OnErr result (held.new ≡ held.old) }
{
    let Ok(name) = str::from_utf8(bytes) else {
        return Err(Fault::BadName);
    };
    held.file.grow(name)?;
    held.has_changed = true;
    Ok(())
}

/// Takes what answers a question of this replica's, both in the body, and answers how many components that brought.
pub fn take<H: Disk>(
    alloc: Global,
    held: &mut Held<'_, H>,
    metrics: &mut Metrics,
    body: &[u8],
    response: &mut Response,
) -> Result<(), AllocError>
    requires blank { IsBlank response.old }
    requires noted { ChangesAreNoted held.old.has_changed held.old.file.document held.old.file.kept }
    ensures answered { OnOk result (AnswersTake body.now held.old.file.document held.new.file.document response.new) }
    ensures noted { ChangesAreNoted held.new.has_changed held.new.file.document held.new.file.kept }
    ensures file { KeepsFile held.old.file held.new.file }
    ensures refused { OnOk result (response.new.status ≢ 200 → held.new ≡ held.old) }
    ensures err { OnErr result (held.new ≡ held.old) }
{
    match letter_in(body) {
        Ok((question, answer)) => take_texts(alloc, held, metrics, question, answer, response),
        Err(fault) => refuse(alloc, fault, response),
    }
}

/// Takes what answers a question that this replica asked, by its tag, and answers how many components that brought. Nothing
/// is taken where the tag is of no question that is known (412).
pub fn push<H: Disk>(
    alloc: Global,
    held: &mut Held<'_, H>,
    metrics: &mut Metrics,
    body: &[u8],
    response: &mut Response,
) -> Result<(), AllocError>
    requires blank { IsBlank response.old }
    requires noted { ChangesAreNoted held.old.has_changed held.old.file.document held.old.file.kept }
    ensures answered { OnOk result (AnswersPush body.now held.old.file.document held.new.file.document response.new) }
    ensures noted { ChangesAreNoted held.new.has_changed held.new.file.document held.new.file.kept }
    ensures file { KeepsFile held.old.file held.new.file }
    ensures refused { OnOk result (response.new.status ≢ 200 → held.new ≡ held.old) }
    ensures err { OnErr result (held.new ≡ held.old) }
{
    match held.file.asked_at(body) {
        Ok(Some((question, answer))) => take_texts(
            alloc, held, metrics, &question, answer, response,
        ),
        Ok(None) => refuse_tag(alloc, response),
        Err(fault) => refuse(alloc, fault, response),
    }
}

/// Takes what answers a question of this replica's, and answers how many components that brought.
fn take_texts<H: Disk>(
    alloc: Global,
    held: &mut Held<'_, H>,
    metrics: &mut Metrics,
    question: &[u8],
    answer: &[u8],
    response: &mut Response,
) -> Result<(), AllocError>
    requires blank { IsBlank response.old }
    requires noted { ChangesAreNoted held.old.has_changed held.old.file.document held.old.file.kept }
    ensures answered { OnOk result
        (AnswersTexts question.now answer.now held.old.file.document held.new.file.document response.new) }
    ensures noted { ChangesAreNoted held.new.has_changed held.new.file.document held.new.file.kept }
    ensures file { KeepsFile held.old.file held.new.file }
    ensures refused { OnOk result (response.new.status ≢ 200 → held.new ≡ held.old) }
    ensures err { OnErr result (held.new ≡ held.old) }
{
    make_room(response, 1)?;
    add_field(response, CONTENT_TYPE, JSON)?;
    match take_answer(held, metrics, question, answer) {
        Ok(components) => {
            put_lines(&mut response.body, &[Reply::Taken(components)]);
            Ok(())
        }
        Err(fault) => {
            response.clear();
            refuse(alloc, fault, response)
        }
    }
}

/// Takes what answers a question of this replica's, notes whether anything came, and counts the take.
pub fn take_answer<H: Disk>(
    held: &mut Held<'_, H>,
    metrics: &mut Metrics,
    question: &[u8],
    answer: &[u8],
) -> Result<u128, Fault>
    requires noted { ChangesAreNoted held.old.has_changed held.old.file.document held.old.file.kept }
    ensures taken { IfOk result
        (TakesResponse question.now answer.now held.old.file.document held.new.file.document) }
    ensures fault { IfErr result (RefusesTaking question.now answer.now held.old.file.document) }
    ensures noted { ChangesAreNoted held.new.has_changed held.new.file.document held.new.file.kept }
    ensures file { KeepsFile held.old.file held.new.file }
    ensures err { OnErr result (held.new ≡ held.old) }
{
    let names = name_count(held.file.document());
    let components = held.file.take(question, answer)?;
    held.has_changed |= has_come(components, names, name_count(held.file.document()));
    metrics.note_take();
    Ok(components)
}

/// Whether components came, or names.
fn has_come(components: u128, before: u16, after: u16) -> bool
    ensures { result ≡ false → (components ≡ 0) × (after ≡ before) }
{
    components != 0 || after != before
}

/// How many names the roster of a document has.
fn name_count(document: &Document) -> u16
    ensures { result ≡ length document.now.roster.names }
{
    document.replica().roster().len()
}

/// The question and the response in a body: the length of the question in 4 bytes, big-endian, and both.
fn letter_in(body: &[u8]) -> Result<(&[u8], &[u8]), Fault>
    ensures ok { IfOk result (λ texts. HoldsBoth body.now texts.0.now texts.1.now) }
    ensures err { IfErr result (λ fault. fault ≡ Cut) }
{
    let Some((length, rest)) = body.split_at_checked(4) else {
        return Err(Fault::Cut);
    };
    let length = u32::from_be_bytes([length[0], length[1], length[2], length[3]]);
    match rest.split_at_checked(length as usize) {
        Some(texts) => Ok(texts),
        None => Err(Fault::Cut),
    }
}

/// Makes room for so many lines.
pub fn make_room(response: &mut Response, lines: usize) -> Result<(), AllocError>
    requires { IsBlank response.old }
    ensures room { OnOk result (LONGEST * lines ≤ response.new.body.spare) }
    ensures blank { IsBlank response.new }
{
    match lines.checked_mul(LONGEST) {
        Some(bytes) => response.body.reserve(bytes),
        None => Err(AllocError),
    }
}
