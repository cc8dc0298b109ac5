//! Requests for what a replica lacks that was as far as this one, by the tag of what that asked then.
ghost use Rattle.std.specs.Prelude.{◌≡◌, ◌≢◌, [], ◌∷◌, None, IfSome, OnOk, length};
ghost use Rattle.http_server.specs.Response.{IsBlank};
ghost use Rattle.rds_http.specs.Changes.{AnswersAs, AnswersPull, MayAnswerAs};

use crate::refusals::{refuse, refuse_tag};
use crate::replies::{BYTES, fill};
use crate::tracked::Tracked;
use http::StatusCode;
use http_server::Response;
use rds_files::Disk;
use rds_gaps::GapSet;
use rds_names::Fault;
use rds_questions::{Question, decode_question, respond};
use rds_store::Document;
use std::alloc::{AllocError, Global};

/// Answers the replica of a number as if it had asked a question of this replica's, where a body has the tag of that and
/// the number behind it in one byte. Nothing is answered where the tag is of no question that is known (412).
pub fn pull<H: Disk>(
    alloc: Global,
    file: &mut Tracked<'_, H>,
    body: &[u8],
    response: &mut Response,
) -> Result<(), AllocError>
    requires { IsBlank response.old }
    ensures answered { OnOk result (AnswersPull body.now file.old.document response.new) }
    ensures same { file.new ≡ file.old }
{
    match file.asked_at(body) {
        Ok(Some((question, rest))) => match lone_byte(rest) {
            Some(number) => answer_as(alloc, file.document(), number, &question, response),
            None => refuse(alloc, Fault::Bad, response),
        },
        Ok(None) => refuse_tag(alloc, response),
        Err(fault) => refuse(alloc, fault, response),
    }
}

/// The one byte that these are.
fn lone_byte(bytes: &[u8]) -> Option<u8>
    ensures some { IfSome result (λ byte. bytes.now ≡ byte ∷ []) }
    ensures none { result ≡ None → length bytes.now ≢ 1 }
{
    match bytes.split_first() {
        Some((byte, rest)) if rest.is_empty() => Some(*byte),
        _ => None,
    }
}

/// Answers the replica of a number as if it had asked a question.
fn answer_as(
    alloc: Global,
    document: &Document,
    number: u8,
    question: &[u8],
    response: &mut Response,
) -> Result<(), AllocError>
    requires { IsBlank response.old }
    ensures { OnOk result (AnswersAs number question.now document.now response.new) }
{
    match respond_as(alloc, document, number, question) {
        Ok(bytes) => fill(response, StatusCode::OK, BYTES, bytes),
        Err(fault) => refuse(alloc, fault, response),
    }
}

/// What is responded where the replica of a number asks a question.
pub fn respond_as(
    alloc: Global,
    document: &Document,
    number: u8,
    question: &[u8],
) -> Result<Vec<u8>, Fault>
    ensures { MayAnswerAs number question.now document.now result }
{
    let mut asked: Question<GapSet> = decode_question(alloc, question)?;
    asked.hello.own = number;
    respond(alloc, document.replica(), document.mark(), &asked)
}
