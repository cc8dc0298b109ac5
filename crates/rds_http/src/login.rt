//! A browser shows the token once, and gets it back as a cookie.
ghost use Rattle.std.specs.Prelude.{◌≡◌, [], ◌∷◌, codes, IfOk, OnOk};
ghost use Rattle.http_server.specs.Response.{IsBlank, IsResponse};
ghost use Rattle.rds_http.specs.Login.{AnswersLogin, cookie_of};

use crate::access::{Access, Denied};
use crate::refusals::deny;
use http::StatusCode;
use http::header::{HeaderValue, SET_COOKIE};
use http_server::Response;
use rds_fields::cookie_start;
use std::alloc::{AllocError, Global};

/// Answers a body that is to be the token. Where no token is due, any is.
pub fn log_in(
    alloc: Global,
    access: &Access,
    body: &[u8],
    response: &mut Response,
) -> Result<(), AllocError>
    requires { IsBlank response.old }
    ensures { OnOk result (AnswersLogin access.now.port access.now.token body.now response.new) }
{
    if let Some(token) = access.token() {
        if !token.is(body) {
            return deny(alloc, Denied::Token, response);
        }
        set_cookie(alloc, access.port(), token.as_bytes(), response)?;
    }
    response.status = StatusCode::NO_CONTENT;
    Ok(())
}

/// Has the browser show the token from here on, in requests that pages of this site make.
fn set_cookie(
    alloc: Global,
    port: u16,
    token: &[u8],
    response: &mut Response,
) -> Result<(), AllocError>
    requires { IsBlank response.old }
    ensures { OnOk result (IsResponse 200 ((codes "set-cookie", cookie_of port token.now) ∷ []) [] response.new) }
{
    let text = cookie_of(alloc, port, token)?;
    match HeaderValue::from_vec(text) {
        Ok(value) => response.add_header(SET_COOKIE, value),
        Err(_) => Err(AllocError),
    }
}

/// The cookie of a token, for a site at this port.
fn cookie_of(alloc: Global, port: u16, token: &[u8]) -> Result<Vec<u8>, AllocError>
    ensures { IfOk result (λ text. text.items ≡ cookie_of port token.now) }
{
    let mut text = cookie_start(alloc, port)?.into_bytes();
    text.extend_from_slice(token)?;
    text.extend_from_slice(b"; Path=/; HttpOnly; SameSite=Strict")?;
    Ok(text)
}
