//! What a site does whose file is older than what its replica has sent, as a backup is that was put back: it refuses
//! edits, each of which would fork the replica.
ghost use Rattle.std.specs.Prelude.{◌≡◌, bytes_eq, codes};
ghost use Rattle.http.specs.Request.{head_of};

use bytes::{Buf, Bytes};
use http::{Request, StatusCode};
use http_server::Response;

/// The number of the fault that tells of it, `OwnAhead`.
pub const OWN_AHEAD: u8 = 10;

/// How a body begins that tells of this fault.
const START: &[u8] = b"{\"fault\":10,";

/// Whether a request brought something of the replica's own that the file lacks, and was refused for that.
pub fn shows_behind(request: &Request<Bytes>, response: &Response) -> bool {
    let path = request.uri().path().as_bytes();
    is_post(request)
        && (path == b"/take".as_slice() || path == b"/push".as_slice())
        && response.status == StatusCode::CONFLICT
        && response.body.chunk().starts_with(START)
}

fn is_post(request: &Request<Bytes>) -> bool
    ensures { result ≡ bytes_eq (head_of request.now).method (codes "POST") }
{
    request.method().as_str().as_bytes() == b"POST".as_slice()
}

/// Tells on standard error, in a line, that edits of this file are refused from here on, and what to do.
pub fn tell_behind<H: Eprint>(rt: &H, file: &str) {
    let due = "stop the node, and go on under a new name (docs/FAULTS.md, 'Back to a backup')";
    let _ = eprintln!(rt;
        "{file}: is older than what its replica has sent, and edits are refused from here on: {due}"
    );
}
