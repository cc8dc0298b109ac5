//! What a request shows of a fork: who asks tells by its tag what it has seen, and which entries it holds.
use bytes::Bytes;
use http::header::IF_NONE_MATCH;
use http::{Request, StatusCode};
use http_server::Response;
use rds_fields::parse_tag;
use rds_questions::Tag;

/// Whether a request was told the site's question, or that it has the tag of that.
pub fn is_told_question(request: &Request<Bytes>, response: &Response) -> bool {
    let is_told = matches!(response.status, StatusCode::OK | StatusCode::NOT_MODIFIED);
    is_told && request.uri().path() == "/ask"
}

/// Whether a request names a tag of who has seen the same as who has this one, and holds different entries.
pub fn names_fork(request: &Request<Bytes>, own: &Tag) -> bool {
    for value in request.headers().get_all(IF_NONE_MATCH) {
        for member in value.as_bytes().split(|b| *b == b',') {
            if let Some(theirs) = parse_tag(member.trim_ascii()) {
                if own.is_fork_of(&theirs) {
                    return true;
                }
            }
        }
    }
    false
}
