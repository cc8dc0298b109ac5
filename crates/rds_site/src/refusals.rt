//! What a site refuses without a look at the document, and what it answers then.
ghost use Rattle.std.specs.Prelude.{◌≡◌, [], ◌∷◌, ◌++◌, OnOk};
ghost use Rattle.http_server.specs.Response.{IsBlank, IsResponse, fields_of};
ghost use Rattle.rds_site.specs.Refusals.{TellsRefusal, is_change, is_edit, is_long, retry_field};

use bytes::Bytes;
use http::header::{CONTENT_TYPE, HeaderValue, RETRY_AFTER};
use http::{Request, StatusCode};
use http_server::Response;
use std::alloc::{AllocError, Global};

/// Why a request isn't handed to the site.
#[derive(Clone, Copy, Debug, PartialEq, Eq)]
pub enum Refusal {
    /// It is an edit, and the file is older than what its replica has sent: each would fork the replica.
    Behind,
    /// It may change the document, and the file can't be written. It may be tried again after so many seconds.
    Stalled(u64),
    /// It changes nothing, its answer may be long, and many answers are under way.
    Crowded,
}

/// What edits are answered where the file is behind.
const BEHIND: &str =
    "{\"fault\":10,\"name\":\"OwnAhead\",\"text\":\"the file is older than what its replica has sent\"}";

/// What a change is answered that isn't kept.
pub const UNKEPT: &str =
    "{\"fault\":24,\"name\":\"Device\",\"text\":\"reading, writing or another call of the system failed\"}";

/// What is answered where many answers are under way.
const CROWDED: &str = "{\"status\":503,\"text\":\"too many answers are under way\"}";

/// Whether a request is to edit the document, or to put a name in its roster.
pub fn is_edit(request: &Request<Bytes>) -> bool
    ensures { result ≡ is_edit request.now }
{
    rds_http::is_own_change(
        request.method().as_str().as_bytes(),
        request.uri().path().as_bytes(),
    )
}

/// Whether a request may change the document.
pub fn is_change(request: &Request<Bytes>) -> bool
    ensures { result ≡ is_change request.now }
{
    rds_http::may_change(
        request.method().as_str().as_bytes(),
        request.uri().path().as_bytes(),
    )
}

/// Whether a request changes nothing, and its answer may be long.
pub fn is_long(request: &Request<Bytes>) -> bool
    ensures { result ≡ is_long request.now }
{
    rds_http::may_be_long(
        request.method().as_str().as_bytes(),
        request.uri().path().as_bytes(),
    )
}

/// Answers why a request is refused.
pub fn refuse(alloc: Global, refusal: Refusal, response: &mut Response) -> Result<(), AllocError>
    requires { IsBlank response.old }
    ensures { OnOk result (TellsRefusal refusal response.new) }
{
    response.add_header(CONTENT_TYPE, HeaderValue::from_static("application/json"))?;
    match refusal {
        Refusal::Behind => fill(response, StatusCode::CONFLICT, BEHIND),
        Refusal::Stalled(seconds) => {
            add_retry(alloc, seconds, response)?;
            fill(response, StatusCode::INSUFFICIENT_STORAGE, UNKEPT)
        }
        Refusal::Crowded => {
            add_retry(alloc, 1, response)?;
            fill(response, StatusCode::SERVICE_UNAVAILABLE, CROWDED)
        }
    }
}

/// Adds the field that tells after how many seconds a request may be tried again.
fn add_retry(alloc: Global, seconds: u64, response: &mut Response) -> Result<(), AllocError>
    ensures fields { OnOk result (fields_of response.new ≡ fields_of response.old ++ retry_field seconds ∷ []) }
    ensures status { response.new.status ≡ response.old.status }
    ensures body { response.new.body ≡ response.old.body }
{
    let text = format!(in alloc; "{seconds}")?;
    let Ok(value) = HeaderValue::from_vec(text.into_bytes()) else {
        return Err(AllocError);
    };
    response.add_header(RETRY_AFTER, value)
}

/// Fills a response, which may have fields, with a status and a text.
fn fill(response: &mut Response, status: StatusCode, text: &'static str) -> Result<(), AllocError>
    requires empty { IsResponse 200 (fields_of response.old) [] response.old }
    ensures { OnOk result (IsResponse status (fields_of response.old) text.now response.new) }
{
    response.status = status;
    response.body.push(Bytes::from_static(text.as_bytes()))
}
