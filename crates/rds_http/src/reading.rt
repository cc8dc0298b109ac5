//! Requests that only look.
ghost use Rattle.std.specs.Prelude.{◌≡◌, ◌⊎◌, ◌∷◌, [], ℕ, Err, IfErr, IfOk, IsTrue, List, MatchResult, None, Ok};
ghost use Rattle.std.specs.Prelude.{OnOk, option_map, string_bytes};
ghost use Rattle.http_header.specs.FieldValue.{is_visible_text};
ghost use Rattle.http_server.specs.Response.{IsBlank, IsResponse};
ghost use Rattle.rds_listing.specs.Conflicts.{conflicts_text};
ghost use Rattle.rds_names.specs.Path.{path_of};
ghost use Rattle.rds_names.specs.declared.fault.Fault.TheVariants.{Memory};
ghost use Rattle.rds_questions.specs.Tags.{IsTagOf};
ghost use Rattle.rds_store.specs.Looks.{here_text, view_text};
ghost use Rattle.rds_http.specs.Changes.{AnswersQuestion};
ghost use Rattle.rds_http.specs.Looks.{
  AnswersLook,
  IsJson,
  IsNoPlace,
  IsValueAt,
  MayShow,
  Shows,
  ShowsQuestion,
  ShowsSnapshot,
  ShowsStatus,
  ShowsValue,
  TellsOf,
  lines_of_json,
  own_field,
  page_fields,
  path_in,
  told_in,
  with_peers,
};
ghost use Rattle.rds_http.specs.Replies.{TellsIfUnknown};
ghost use Rattle.rds_http.specs.Refusals.{TellsFault, json};
ghost use Rattle.rds_http.specs.Tags.{text_tag};

use crate::conditions::{Seen, document_tag, seen_of, text_tag};
use crate::metrics::{Metrics, PeerCounts};
use crate::ranges::fill_file;
use crate::refusals::refuse;
use crate::replies::{BYTES, JSON, LINES, add_field, fill, fill_tagged, tell_known};
use crate::routes::Look;
use crate::tracked::Tracked;
use bytes::Bytes;
use http::StatusCode;
use http::header::{
    CACHE_CONTROL, CONTENT_SECURITY_POLICY, CONTENT_TYPE, HeaderMap, HeaderName, HeaderValue,
    REFERRER_POLICY, X_CONTENT_TYPE_OPTIONS,
};
use http_server::Response;
use percent_encoding::{DecodeError, percent_decode};
use rds_fields::tag_text;
use rds_files::Disk;
use rds_names::{Fault, Path};
use rds_page::{PAGE, POLICY};
use rds_questions::Tag;
use rds_store::Document;
use std::alloc::{AllocError, Global};

/// Answers with what is looked at, by a request with these header fields.
pub fn look<H: Disk>(
    alloc: Global,
    file: &mut Tracked<'_, H>,
    metrics: &Metrics,
    asked: Look,
    place: &[u8],
    headers: &HeaderMap<HeaderValue>,
    response: &mut Response,
) -> Result<(), AllocError>
    requires { IsBlank response.old }
    ensures answered { OnOk result (AnswersLook asked file.old.document place.now headers.now response.new) }
    ensures same { file.new ≡ file.old }
{
    match asked {
        Look::Page => show_page(response),
        Look::View => show_view(alloc, file.document(), place, headers, response),
        Look::Here => show_here(alloc, file.document(), place, headers, response),
        Look::Value => show_value(alloc, file.document(), place, headers, response),
        Look::Conflicts => show_conflicts(alloc, file.document(), place, headers, response),
        Look::Status => show_status(alloc, file.document(), metrics, response),
        Look::Metrics => show_metrics(alloc, file.document(), metrics, response),
        Look::Ask => show_question(alloc, file, headers, response),
        Look::Snapshot => show_snapshot(alloc, file.document(), headers, response),
    }
}

/// Answers a question of another replica's.
pub fn answer(
    alloc: Global,
    document: &Document,
    question: &[u8],
    response: &mut Response,
) -> Result<(), AllocError>
    requires { IsBlank response.old }
    ensures { OnOk result (AnswersQuestion question.now document.now response.new) }
{
    match document.answer(question) {
        Ok(bytes) => fill(response, StatusCode::OK, BYTES, bytes),
        Err(fault) => refuse(alloc, fault, response),
    }
}

/// Answers with what asks another replica for what the document lacks, and with the tag of that.
fn show_question<H: Disk>(
    alloc: Global,
    file: &mut Tracked<'_, H>,
    headers: &HeaderMap<HeaderValue>,
    response: &mut Response,
) -> Result<(), AllocError>
    requires { IsBlank response.old }
    ensures answered { OnOk result (ShowsQuestion headers.now file.old.document response.new) }
    ensures same { file.new ≡ file.old }
{
    // Where it can't be kept, nobody speaks of it by its tag.
    let _kept = file.note_asked();
    match file.tag() {
        Ok(tag) => tell_question(alloc, file.document(), tag, headers, response),
        Err(fault) => refuse(alloc, fault, response),
    }
}

/// Answers with a question that has this tag.
fn tell_question(
    alloc: Global,
    document: &Document,
    tag: Tag,
    headers: &HeaderMap<HeaderValue>,
    response: &mut Response,
) -> Result<(), AllocError>
    requires blank { IsBlank response.old }
    requires tag { IsTagOf document.now tag }
    ensures { OnOk result (ShowsQuestion headers.now document.now response.new) }
{
    let text = tag_text(alloc, &tag)?;
    let seen = seen_of(text, headers);
    if seen.is_known {
        add_own(alloc, document, response)?;
        return tell_known(response, seen.tag);
    }
    match document.ask() {
        Ok(bytes) => {
            add_own(alloc, document, response)?;
            fill_tagged(response, BYTES, seen.tag, bytes)
        }
        Err(fault) => refuse(alloc, fault, response),
    }
}

/// Adds the field that tells the number of the document's replica.
fn add_own(alloc: Global, document: &Document, response: &mut Response) -> Result<(), AllocError>
    requires { IsBlank response.old }
    ensures { OnOk result (IsResponse 200 (own_field document.now ∷ []) [] response.new) }
{
    let own = document.replica().own();
    let text = format!(in alloc; "{own}")?;
    let Ok(value) = HeaderValue::from_vec(text.into_bytes()) else {
        return Err(AllocError);
    };
    response.add_header(HeaderName::from_static("rds-replica"), value)
}

/// Answers with the document's snapshot, or with the rest of it.
fn show_snapshot(
    alloc: Global,
    document: &Document,
    headers: &HeaderMap<HeaderValue>,
    response: &mut Response,
) -> Result<(), AllocError>
    requires { IsBlank response.old }
    ensures { OnOk result (ShowsSnapshot headers.now document.now response.new) }
{
    match document.snapshot() {
        Ok(bytes) => fill_file(alloc, headers, BYTES, bytes, response),
        Err(fault) => refuse(alloc, fault, response),
    }
}

/// Answers with what the document shows at a place.
fn show_view(
    alloc: Global,
    document: &Document,
    place: &[u8],
    headers: &HeaderMap<HeaderValue>,
    response: &mut Response,
) -> Result<(), AllocError>
    requires { IsBlank response.old }
    ensures { OnOk result
        (Shows headers.now document.now.state json (told_in view_text document.now.state place.now) response.new) }
{
    let tag = document_tag(alloc, document)?;
    let seen = seen_of(tag, headers);
    let told = view_at(alloc, document, &seen, place);
    show(alloc, told, JSON, seen, response)
}

/// The same, with each map below the place shown empty.
fn show_here(
    alloc: Global,
    document: &Document,
    place: &[u8],
    headers: &HeaderMap<HeaderValue>,
    response: &mut Response,
) -> Result<(), AllocError>
    requires { IsBlank response.old }
    ensures { OnOk result
        (Shows headers.now document.now.state json (told_in here_text document.now.state place.now) response.new) }
{
    let tag = document_tag(alloc, document)?;
    let seen = seen_of(tag, headers);
    let told = here_at(alloc, document, &seen, place);
    show(alloc, told, JSON, seen, response)
}

/// Answers with what stands at a place.
fn show_value(
    alloc: Global,
    document: &Document,
    place: &[u8],
    headers: &HeaderMap<HeaderValue>,
    response: &mut Response,
) -> Result<(), AllocError>
    requires { IsBlank response.old }
    ensures { OnOk result (ShowsValue headers.now document.now.state place.now response.new) }
{
    match value_at(alloc, document, place) {
        Ok(text) => tell_value(alloc, text, headers, response),
        Err(fault) => refuse(alloc, fault, response),
    }
}

/// Answers with the text of what stands at a place, and its tag.
fn tell_value(
    alloc: Global,
    text: String,
    headers: &HeaderMap<HeaderValue>,
    response: &mut Response,
) -> Result<(), AllocError>
    requires { IsBlank response.old }
    ensures { OnOk result
        (TellsOf headers.now (text_tag (string_bytes text)) json (string_bytes text) response.new) }
{
    let tag = text_tag(alloc, text.as_bytes())?;
    let seen = seen_of(tag, headers);
    if seen.is_known {
        return tell_known(response, seen.tag);
    }
    fill_tagged(response, JSON, seen.tag, text.into_bytes())
}

/// Answers with the registers below a place that have more than one value.
fn show_conflicts(
    alloc: Global,
    document: &Document,
    place: &[u8],
    headers: &HeaderMap<HeaderValue>,
    response: &mut Response,
) -> Result<(), AllocError>
    requires { IsBlank response.old }
    ensures { OnOk result
        (Shows headers.now document.now.state lines_of_json
        (told_in conflicts_text document.now.state place.now) response.new) }
{
    let tag = document_tag(alloc, document)?;
    let seen = seen_of(tag, headers);
    let told = conflicts_at(alloc, document, &seen, place);
    show(alloc, told, LINES, seen, response)
}

/// Answers with a text of this type that has a tag, with no more than the tag where that is known, or by the fault why
/// there is none.
fn show(
    alloc: Global,
    told: Result<Option<String>, Fault>,
    kind: &'static str,
    seen: Seen,
    response: &mut Response,
) -> Result<(), AllocError>
    requires blank { IsBlank response.old }
    requires visible { IsTrue (is_visible_text kind.now) }
    ensures { OnOk result (MatchResult told
        (λ text. TellsIfUnknown (option_map string_bytes text) (string_bytes seen.tag) kind.now response.new)
        (λ fault. TellsFault fault response.new)) }
{
    match told {
        Ok(Some(text)) => fill_tagged(response, kind, seen.tag, text.into_bytes()),
        Ok(None) => tell_known(response, seen.tag),
        Err(fault) => refuse(alloc, fault, response),
    }
}

/// What the document shows at a place. `None` where that is known.
fn view_at(
    alloc: Global,
    document: &Document,
    seen: &Seen,
    place: &[u8],
) -> Result<Option<String>, Fault>
    ensures { MayShow seen.now.is_known (told_in view_text document.now.state place.now) result }
{
    let path = path_in(alloc, place)?;
    if seen.is_known {
        return known_path(alloc, &path);
    }
    Ok(Some(document.view_json(&path)?))
}

/// The same, with each map below the place shown empty.
fn here_at(
    alloc: Global,
    document: &Document,
    seen: &Seen,
    place: &[u8],
) -> Result<Option<String>, Fault>
    ensures { MayShow seen.now.is_known (told_in here_text document.now.state place.now) result }
{
    let path = path_in(alloc, place)?;
    if seen.is_known {
        return known_path(alloc, &path);
    }
    Ok(Some(document.here_json(&path)?))
}

/// The registers below a place that have more than one value. `None` where that is known.
fn conflicts_at(
    alloc: Global,
    document: &Document,
    seen: &Seen,
    place: &[u8],
) -> Result<Option<String>, Fault>
    ensures { MayShow seen.now.is_known (told_in conflicts_text document.now.state place.now) result }
{
    let path = path_in(alloc, place)?;
    if seen.is_known {
        return known_path(alloc, &path);
    }
    Ok(Some(document.conflicts(&path)?))
}

/// What is reported of what stands at a place. The root is none (`BadPath`), nor is what is no path (`BadPath`,
/// `BadKey`).
pub fn value_at(alloc: Global, document: &Document, place: &[u8]) -> Result<String, Fault>
    ensures told { IfOk result (λ text. IsValueAt document.now.state place.now (string_bytes text)) }
    ensures fault { IfErr result (λ fault. (fault ≡ Memory) ⊎ IsNoPlace place.now fault) }
{
    let path = path_in(alloc, place)?;
    document.value_json(&path)
}

/// What is known of a path is reported no more. A text that is no path is refused (`BadPath`, `BadKey`).
fn known_path(alloc: Global, path: &str) -> Result<Option<String>, Fault>
    ensures known { IfOk result (λ told. (told ≡ None) × ((keys : List (List ℕ)) × (path_of path.now ≡ Ok keys))) }
    ensures fault { IfErr result (λ fault. (fault ≡ Memory) ⊎ (path_of path.now ≡ Err fault)) }
{
    Path::new(alloc, path)?;
    Ok(None)
}

/// The path that a percent-encoded place is. Bytes that are no UTF-8 are no keys.
pub fn path_in(alloc: Global, place: &[u8]) -> Result<String, Fault>
    ensures { MatchResult result (λ path. path_in place.now ≡ Ok (string_bytes path))
        (λ fault. (fault ≡ Memory) ⊎ (path_in place.now ≡ Err fault)) }
{
    match percent_decode(place).decode_utf8(alloc) {
        Ok(path) => Ok(path.into_owned(alloc)?),
        Err(DecodeError::Utf8(_)) => Err(Fault::BadKey),
        Err(DecodeError::OutOfMemory) => Err(Fault::Memory),
    }
}

/// Answers with the page.
fn show_page(response: &mut Response) -> Result<(), AllocError>
    requires { IsBlank response.old }
    ensures { OnOk result (IsResponse 200 page_fields PAGE.now response.new) }
{
    add_field(response, CONTENT_TYPE, "text/html; charset=utf-8")?;
    add_field(response, CONTENT_SECURITY_POLICY, POLICY)?;
    add_field(response, X_CONTENT_TYPE_OPTIONS, "nosniff")?;
    add_field(response, REFERRER_POLICY, "no-referrer")?;
    add_field(response, CACHE_CONTROL, "no-cache")?;
    response.body.push(Bytes::from_static(PAGE.as_bytes()))
}

/// Answers with whose replica the document is, how much there is of it, and how the other nodes stand.
fn show_status(
    alloc: Global,
    document: &Document,
    metrics: &Metrics,
    response: &mut Response,
) -> Result<(), AllocError>
    requires { IsBlank response.old }
    ensures { OnOk result (ShowsStatus document.now response.new) }
{
    match document.status() {
        Ok(text) => {
            let body = with_peers(alloc, text, metrics)?;
            fill(response, StatusCode::OK, JSON, body)
        }
        Err(fault) => refuse(alloc, fault, response),
    }
}

/// An object of JSON, with how many other nodes there are, how each of them stands, and what they have shown as its
/// last members.
fn with_peers(alloc: Global, object: String, metrics: &Metrics) -> Result<Vec<u8>, AllocError>
    ensures { IfOk result (λ bytes. (each : List ℕ) × IsJson each
        × (bytes.items ≡ with_peers (string_bytes object) metrics.now.peers each)) }
{
    let PeerCounts {
        named,
        met,
        forked,
        refused: _,
        exchanges: _,
        forks,
        is_behind,
        is_unwritable,
    } = metrics.peers;
    let each = metrics.standings_json(alloc)?;
    let told = format!(in alloc;
        ",\"peers\":{{\"named\":{named},\"met\":{met},\"forked\":{forked},\"each\":{each}}}"
    )?;
    let shown = format!(in alloc;
        ",\"callers\":{{\"forked\":{forks}}},\"behind\":{is_behind},\"unwritable\":{is_unwritable}}}"
    )?;
    let mut bytes = object.into_bytes();
    bytes.truncate(bytes.len().saturating_sub(1));
    bytes.extend_from_slice(told.as_bytes())?;
    bytes.extend_from_slice(shown.as_bytes())?;
    Ok(bytes)
}

/// Answers with what was counted.
fn show_metrics(
    alloc: Global,
    document: &Document,
    metrics: &Metrics,
    response: &mut Response,
) -> Result<(), AllocError>
    requires { IsBlank response.old }
    ensures { OnOk result (response.new.status ≡ 200) }
{
    let live = document.replica().state().lives().live_len();
    let text = metrics.text(alloc, live)?;
    fill(
        response,
        StatusCode::OK,
        "text/plain; version=0.0.4",
        text.into_bytes(),
    )
}
