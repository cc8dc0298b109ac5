//! Requests that put the value of a register.
ghost use Rattle.std.specs.Prelude.{◌≡◌, ◌≢◌, IfOk, OnErr, OnOk, false, true};
ghost use Rattle.http_server.specs.Response.{IsBlank};
ghost use Rattle.rds_json.specs.MayGive.{MayGive};
ghost use Rattle.rds_json.specs.Members.{of_one};
ghost use Rattle.rds_json.specs.Scalar.{scalar_of};
ghost use Rattle.rds_lines.specs.Editing.{line_reply_of};
ghost use Rattle.rds_output.specs.Reply.{is_refusal};
ghost use Rattle.rds_http.specs.Changes.{AnswersPut, MeetsPut, body_value, put_command};
ghost use Rattle.rds_http.specs.Site.{ChangesAreNoted, KeepsFile};
ghost use Rattle.serde_json.specs.Read.{read};

use crate::changing::{Held, make_room, tell_replies};
use crate::metrics::Metrics;
use crate::reading::path_in;
use crate::replies::{LINES, add_field};
use http::header::CONTENT_TYPE;
use http_server::Response;
use rds_files::Disk;
use rds_json::scalar;
use rds_lines::Edits;
use rds_names::{Fault, Path, Scalar};
use rds_output::Reply;
use rds_state::Command;
use serde_json::Value;
use std::alloc::{AllocError, Global};

/// A value of more bytes isn't read: no line that edits has more.
const LONGEST: usize = 65_536;

/// Sets the register at a place to the value that a body of JSON is, and answers that as `/edits` answers a line.
pub fn put<H: Disk>(
    alloc: Global,
    held: &mut Held<'_, H>,
    metrics: &mut Metrics,
    place: &[u8],
    body: &[u8],
    response: &mut Response,
) -> Result<(), AllocError>
    requires blank { IsBlank response.old }
    requires noted { ChangesAreNoted held.old.has_changed held.old.file.document held.old.file.kept }
    ensures answered { OnOk result
        (AnswersPut place.now body.now held.old.file.document held.new.file.document response.new) }
    ensures noted { ChangesAreNoted held.new.has_changed held.new.file.document held.new.file.kept }
    ensures file { KeepsFile held.old.file held.new.file }
    ensures refused { OnOk result (response.new.status ≢ 200 → held.new ≡ held.old) }
    ensures err { OnErr result (held.new ≡ held.old) }
{
    make_room(response, 1)?;
    add_field(response, CONTENT_TYPE, LINES)?;
    let replies = [put_in(alloc, held, place, body)];
    metrics.note_edits(&replies);
    tell_replies(response, &replies);
    Ok(())
}

/// Sets the register at a place, and answers that, or why it is refused, as a line.
fn put_in<H: Disk>(alloc: Global, held: &mut Held<'_, H>, place: &[u8], body: &[u8]) -> Reply
    requires noted { ChangesAreNoted held.old.has_changed held.old.file.document held.old.file.kept }
    ensures met { MeetsPut place.now body.now held.old.file.document result held.new.file.document }
    ensures noted { ChangesAreNoted held.new.has_changed held.new.file.document held.new.file.kept }
    ensures file { KeepsFile held.old.file held.new.file }
    ensures refused { is_refusal result ≡ true → held.new ≡ held.old }
{
    match set(alloc, held, place, body) {
        Ok(reply) => reply,
        Err(fault) => Reply::RefusedLine { line: 1, fault },
    }
}

/// Sets the register at a place, and notes that.
fn set<H: Disk>(
    alloc: Global,
    held: &mut Held<'_, H>,
    place: &[u8],
    body: &[u8],
) -> Result<Reply, Fault>
    requires noted { ChangesAreNoted held.old.has_changed held.old.file.document held.old.file.kept }
    ensures met { MeetsPut place.now body.now held.old.file.document (line_reply_of 1 result) held.new.file.document }
    ensures noted { ChangesAreNoted held.new.has_changed held.new.file.document held.new.file.kept }
    ensures file { KeepsFile held.old.file held.new.file }
    ensures done { IfOk result (λ reply. is_refusal reply ≡ false) }
    ensures err { OnErr result (held.new ≡ held.old) }
{
    let command = put_command(alloc, place, body)?;
    let edited = held.file.edit_by(&command)?;
    held.has_changed = true;
    Ok(Reply::of_edit(held.file.roster(), &edited))
}

/// The edit that sets the register at a place to the value that a body is.
fn put_command(alloc: Global, place: &[u8], body: &[u8]) -> Result<Command, Fault>
    ensures { MayGive result (put_command place.now body.now) }
{
    let path = Path::new(alloc, &path_in(alloc, place)?)?;
    Ok(Command::Set(path, body_value(alloc, body)?))
}

/// The value that a body of JSON is. One that is none is refused (`BadLine`), and so is one that is no scalar
/// (`BadScalar`).
fn body_value(alloc: Global, body: &[u8]) -> Result<Scalar, Fault>
    ensures { MayGive result (body_value body.now) }
{
    if LONGEST < body.len() {
        return Err(Fault::BadLine);
    }
    match str::from_utf8(body) {
        Ok(text) => value_of(alloc, text),
        Err(_) => Err(Fault::BadLine),
    }
}

/// The value that a text of JSON is.
fn value_of(alloc: Global, text: &str) -> Result<Scalar, Fault>
    ensures { MayGive result (of_one scalar_of (read text.now)) }
{
    match Value::from_str(alloc, text) {
        Ok(value) => scalar(alloc, &value),
        Err(error) => Err(if error.is_memory() {
            Fault::Memory
        } else {
            Fault::BadLine
        }),
    }
}
