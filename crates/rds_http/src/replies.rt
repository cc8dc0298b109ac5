//! Responses that are filled.
ghost use Rattle.std.specs.Prelude.{◌≡◌, [], ◌∷◌, ◌++◌, IsTrue, OnOk, string_bytes};
ghost use Rattle.http_header.specs.FieldValue.{is_visible_text};
ghost use Rattle.http_server.specs.Response.{IsBlank, IsResponse, fields_of};
ghost use Rattle.rds_http.specs.Replies.{Tells, tag_fields, type_field};

use bytes::Bytes;
use http::StatusCode;
use http::header::{CACHE_CONTROL, CONTENT_TYPE, ETAG, HeaderName, HeaderValue};
use http_server::Response;
use std::alloc::AllocError;

/// One value of JSON.
pub const JSON: &str = "application/json";

/// A value of JSON a line.
pub const LINES: &str = "application/x-ndjson";

/// Bytes of a format of the store.
pub const BYTES: &str = "application/octet-stream";

/// Fills a response with this status, and a body of this type.
pub fn fill(
    response: &mut Response,
    status: StatusCode,
    kind: &'static str,
    body: Vec<u8>,
) -> Result<(), AllocError>
    requires blank { IsBlank response.old }
    requires visible { IsTrue (is_visible_text kind.now) }
    ensures { OnOk result (Tells status kind.now body.items response.new) }
{
    response.status = status;
    add_field(response, CONTENT_TYPE, kind)?;
    response.body.push(Bytes::from_vec(body)?)
}

/// Fills a response, which may have fields, with a body of this type that has this tag.
pub fn fill_tagged(
    response: &mut Response,
    kind: &'static str,
    tag: String,
    body: Vec<u8>,
) -> Result<(), AllocError>
    requires empty { IsResponse 200 (fields_of response.old) [] response.old }
    requires visible { IsTrue (is_visible_text kind.now) }
    ensures { OnOk result
        (IsResponse 200 (fields_of response.old ++ (type_field kind.now ∷ tag_fields (string_bytes tag))) body.items
        response.new) }
{
    add_field(response, CONTENT_TYPE, kind)?;
    add_tag(response, tag)?;
    response.body.push(Bytes::from_vec(body)?)
}

/// Fills a response, which may have fields, that tells no more than that what has this tag is known.
pub fn tell_known(response: &mut Response, tag: String) -> Result<(), AllocError>
    requires { IsResponse 200 (fields_of response.old) [] response.old }
    ensures { OnOk result
        (IsResponse 304 (fields_of response.old ++ tag_fields (string_bytes tag)) [] response.new) }
{
    response.status = StatusCode::NOT_MODIFIED;
    add_tag(response, tag)
}

/// Adds the fields of what has this tag.
pub fn add_tag(response: &mut Response, tag: String) -> Result<(), AllocError>
    ensures fields { OnOk result (fields_of response.new ≡ fields_of response.old ++ tag_fields (string_bytes tag)) }
    ensures status { response.new.status ≡ response.old.status }
    ensures body { response.new.body ≡ response.old.body }
{
    let Ok(value) = HeaderValue::from_vec(tag.into_bytes()) else {
        return Err(AllocError);
    };
    add_field(response, CACHE_CONTROL, "no-cache")?;
    response.add_header(ETAG, value)
}

/// Adds a header field to a response.
pub fn add_field(
    response: &mut Response,
    name: HeaderName,
    value: &'static str,
) -> Result<(), AllocError>
    requires { IsTrue (is_visible_text value.now) }
    ensures fields { OnOk result (fields_of response.new ≡ fields_of response.old ++ (name, value.now) ∷ []) }
    ensures status { response.new.status ≡ response.old.status }
    ensures body { response.new.body ≡ response.old.body }
{
    response.add_header(name, HeaderValue::from_static(value))
}
