//! The handshake after which a client is told of each turn.
ghost use Rattle.std.specs.Prelude.{◌≡◌, [], IfSome, OnOk};
ghost use Rattle.http_server.specs.Response.{IsBlank, IsResponse};
ghost use Rattle.rds_http.specs.Handshakes.{AnswersHandshake, IsAcceptOf, headers_of, upgrade_fields};

use crate::refusals::tell;
use crate::replies::add_field;
use bytes::Bytes;
use http::header::{
    CONNECTION, HeaderMap, HeaderValue, SEC_WEBSOCKET_ACCEPT, SEC_WEBSOCKET_KEY,
    SEC_WEBSOCKET_VERSION, UPGRADE,
};
use http::{Request, StatusCode, Version};
use http_server::Response;
use std::alloc::{AllocError, Global};
use websocket::handshake::server::accept_key;

/// Hands the connection over to WebSocket (RFC 6455, 2011), or answers that a handshake for it is due.
pub fn upgrade(
    alloc: Global,
    request: &Request<Bytes>,
    response: &mut Response,
) -> Result<(), AllocError>
    requires { IsBlank response.old }
    ensures { OnOk result (AnswersHandshake (headers_of request.now) response.new) }
{
    match accepted(request) {
        Some(key) => accept(alloc, &key, response),
        None => ask_for_handshake(alloc, response),
    }
}

/// Answers that the connection is handed over.
fn accept(alloc: Global, key: &[u8], response: &mut Response) -> Result<(), AllocError>
    requires { IsBlank response.old }
    ensures { OnOk result (IsResponse 101 (upgrade_fields key.now) [] response.new) }
{
    let Ok(key) = HeaderValue::from_bytes(alloc, key) else {
        return Err(AllocError);
    };
    response.status = StatusCode::SWITCHING_PROTOCOLS;
    add_field(response, CONNECTION, "Upgrade")?;
    add_field(response, UPGRADE, "websocket")?;
    response.add_header(SEC_WEBSOCKET_ACCEPT, key)
}

/// Answers which handshake is due.
fn ask_for_handshake(alloc: Global, response: &mut Response) -> Result<(), AllocError>
    requires { IsBlank response.old }
    ensures { OnOk result (response.new.status ≡ 426) }
{
    tell(
        alloc,
        StatusCode::UPGRADE_REQUIRED,
        "a handshake of WebSocket, version 13, is due",
        response,
    )?;
    add_field(response, UPGRADE, "websocket")?;
    add_field(response, SEC_WEBSOCKET_VERSION, "13")
}

/// What accepts the handshake of a request, where it is one.
fn accepted(request: &Request<Bytes>) -> Option<[u8; 28]>
    ensures { IfSome result (IsAcceptOf (headers_of request.now)) }
{
    let headers = request.headers();
    let is_asked = request.version() == Version::HTTP_11
        && has_word(headers.get(CONNECTION)?, b"upgrade")
        && has_word(headers.get(UPGRADE)?, b"websocket")
        && headers.get(SEC_WEBSOCKET_VERSION)?.as_bytes() == b"13".as_slice();
    if !is_asked {
        return None;
    }
    accept_key(headers.get(SEC_WEBSOCKET_KEY)?.as_bytes()).ok()
}

/// Whether one of the words of a field is this one, whatever their case.
fn has_word(value: &HeaderValue, word: &[u8]) -> bool {
    value
        .as_bytes()
        .split(|b| *b == b',')
        .any(|part| part.trim_ascii().eq_ignore_ascii_case(word))
}
