//! What a request is answered that isn't done.
ghost use Rattle.std.specs.Prelude.{◌≡◌, IfOk, OnOk};
ghost use Rattle.http_server.specs.Response.{IsBlank};
ghost use Rattle.rds_names.specs.Fault.{text_of_fault, words_of};
ghost use Rattle.rds_http.specs.Refusals.{
  IsDenied,
  IsNotAllowed,
  IsUnknown,
  IsUnknownTag,
  IsUnmet,
  IsUnmetAt,
  TellsFault,
  TellsWords,
  fault_json,
  status_of,
};

use crate::access::Denied;
use crate::replies::{JSON, add_field, fill};
use crate::routes::{Resource, is_put};
use http::StatusCode;
use http::header::{ALLOW, WWW_AUTHENTICATE};
use http_server::Response;
use rds_names::Fault;
use std::alloc::{AllocError, Global};

/// Answers by a fault of the document.
pub fn refuse(alloc: Global, fault: Fault, response: &mut Response) -> Result<(), AllocError>
    requires { IsBlank response.old }
    ensures { OnOk result (TellsFault fault response.new) }
{
    let text = fault_json(alloc, fault)?;
    fill(response, status_of(fault), JSON, text)
}

/// Answers that a request isn't let in.
pub fn deny(alloc: Global, why: Denied, response: &mut Response) -> Result<(), AllocError>
    requires { IsBlank response.old }
    ensures { OnOk result (IsDenied why response.new) }
{
    match why {
        Denied::Host => tell(alloc, StatusCode::FORBIDDEN, FOREIGN_HOST, response),
        Denied::Origin => tell(alloc, StatusCode::FORBIDDEN, FOREIGN_PAGE, response),
        Denied::Token => {
            tell(alloc, StatusCode::UNAUTHORIZED, NO_TOKEN, response)?;
            add_field(response, WWW_AUTHENTICATE, "Bearer")
        }
    }
}

/// Answers that there is no such resource.
pub fn refuse_unknown(alloc: Global, response: &mut Response) -> Result<(), AllocError>
    requires { IsBlank response.old }
    ensures { OnOk result (IsUnknown response.new) }
{
    tell(alloc, StatusCode::NOT_FOUND, "no such resource", response)
}

/// Answers that a tag is of no question that is known.
pub fn refuse_tag(alloc: Global, response: &mut Response) -> Result<(), AllocError>
    requires { IsBlank response.old }
    ensures { OnOk result (IsUnknownTag response.new) }
{
    refuse_condition(alloc, "the tag is of no question that is known", response)
}

/// Answers that the document's tag isn't one for which the request is meant.
pub fn refuse_unmet(alloc: Global, response: &mut Response) -> Result<(), AllocError>
    requires { IsBlank response.old }
    ensures { OnOk result (IsUnmet response.new) }
{
    refuse_condition(
        alloc,
        "the document's tag doesn't meet the condition",
        response,
    )
}

/// Answers that what stands at a place isn't what the request is meant for.
pub fn refuse_unmet_at(alloc: Global, response: &mut Response) -> Result<(), AllocError>
    requires { IsBlank response.old }
    ensures { OnOk result (IsUnmetAt response.new) }
{
    refuse_condition(
        alloc,
        "what stands there doesn't meet the condition",
        response,
    )
}

/// Answers by words that a request was made of something else than what is here.
fn refuse_condition(alloc: Global, words: &str, response: &mut Response) -> Result<(), AllocError>
    requires { IsBlank response.old }
    ensures { OnOk result (TellsWords 412 words.now response.new) }
{
    tell(alloc, StatusCode::PRECONDITION_FAILED, words, response)
}

/// Answers that a resource doesn't have the method, and which it has.
pub fn refuse_method(
    alloc: Global,
    resource: Resource,
    response: &mut Response,
) -> Result<(), AllocError>
    requires { IsBlank response.old }
    ensures { OnOk result (IsNotAllowed resource response.new) }
{
    tell(
        alloc,
        StatusCode::METHOD_NOT_ALLOWED,
        "the resource doesn't have this method",
        response,
    )?;
    let methods = match resource {
        Resource::Look(look) if is_put(look) => "GET, HEAD, PUT",
        Resource::Look(_) => "GET, HEAD",
        Resource::Post(_) | Resource::EditsAt => "POST",
        Resource::Live => "GET",
        Resource::Unknown => "",
    };
    add_field(response, ALLOW, methods)
}

const FOREIGN_HOST: &str = "the Host field has to name this machine and this port";

const FOREIGN_PAGE: &str = "the Origin field names another site";

const NO_TOKEN: &str = "the token is due: none or a wrong one was given";

/// Answers with a status and words.
pub fn tell(
    alloc: Global,
    status: StatusCode,
    words: &str,
    response: &mut Response,
) -> Result<(), AllocError>
    requires { IsBlank response.old }
    ensures { OnOk result (TellsWords status words.now response.new) }
{
    let number = status.as_u16();
    let text = format!(in alloc; "{{\"status\":{number},\"text\":\"{words}\"}}")?;
    fill(response, status, JSON, text.into_bytes())
}

/// A fault as JSON: its number, its name and what it is in words.
fn fault_json(alloc: Global, fault: Fault) -> Result<Vec<u8>, AllocError>
    ensures { IfOk result (λ text. text.items ≡ fault_json fault) }
{
    let number = fault.number();
    let name = fault.name();
    let head = format!(in alloc; "{{\"fault\":{number},\"name\":\"{name}\",\"text\":\"")?;
    let printed = format!(in alloc; "{fault}")?;
    let mut text = head.into_bytes();
    text.extend_from_slice(words_in(printed.as_bytes(), fault))?;
    text.extend_from_slice(b"\"}")?;
    Ok(text)
}

/// What a fault is in words: what is printed of it, without its name and ": ".
fn words_in(printed: &[u8], fault: Fault) -> &[u8]
    requires { printed.now ≡ text_of_fault fault }
    ensures { result.now ≡ words_of fault }
{
    &printed[fault.name().len() + 2..]
}

/// The status by which a fault of the document is answered.
pub fn status_of(fault: Fault) -> StatusCode
    ensures { result ≡ status_of fault }
{
    match fault {
        Fault::Memory => StatusCode::SERVICE_UNAVAILABLE,
        Fault::TooLong => StatusCode::PAYLOAD_TOO_LARGE,
        Fault::Conflict { .. }
        | Fault::OwnAhead(_)
        | Fault::WrongAsker
        | Fault::WrongGroup
        | Fault::WrongRoster
        | Fault::SameReplica
        | Fault::BadCertificate => StatusCode::CONFLICT,
        _ => StatusCode::BAD_REQUEST,
    }
}
