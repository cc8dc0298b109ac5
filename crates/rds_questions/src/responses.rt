//! What is responded to a question: who answers, its tag, and the answer.
ghost use Rattle.std.specs.Prelude.{◌≡◌, ◌≤◌, length, max};
ghost use Rattle.rds_bytes.specs.Reading.{Reads};
ghost use Rattle.rds_codec.specs.Decoding.{Decodes, ReadsAll, all_of};
ghost use Rattle.rds_codec.specs.declared.limits.TheConstants.{LIMIT};
ghost use Rattle.rds_questions.specs.Responses.{format_said, response_at, response_kind};

use crate::fronts::{RESPONSE_FRONT, read_front};
use crate::tags::{Tag, read_tag};
use rds_codec::{Answer, Format, Hello, LIMIT, decode_answer_in, read_hello};
use rds_dots::DotSet;
use rds_names::Fault;
use std::alloc::Global;
use std::marker::Model;

/// What a replica responds to a question: who it is, what it holds, and the answer to the question's digest.
#[derive(Drop)]
pub struct Response<S: DotSet> {
    /// Who answers. Its version is that of the answer's format.
    pub hello: Hello,
    /// Its tag, by which a fork is reported.
    pub tag: Tag,
    /// For the one that asked: the delta, and its certificate.
    pub answer: Answer<S>,
}

impl<S: DotSet> Model for Response<S> {
    ghost use Rattle.rds_questions.specs.Responses.{ResponseValue, coded_response};

    ghost Value = { ResponseValue };

    ghost coded = { coded_response };

    ghost view = { λ r. record { hello = r.hello; tag = r.tag; answer = r.answer } };
}

/// The format of a version: 1 is that of format 1, and any other asks for format 2.
pub fn format_said(version: u8) -> Format
    ensures { result ≡ format_said version }
{
    if version == 1 {
        Format::One
    } else {
        Format::Two
    }
}

#[tactic(auto, unfolding(crate::specs::Responses::response_at))]
fn read_response<S: DotSet>(alloc: Global, askers: u16, bytes: &[u8]) -> Result<Response<S>, Fault>
    requires within { length bytes.now ≤ LIMIT }
    ensures { Reads (λ x. x) result (all_of (response_at askers) bytes.now) }
{
    let rest = read_front(RESPONSE_FRONT, bytes)?;
    let (hello, rest) = read_hello(alloc, rest)?;
    let (tag, rest) = read_tag(rest)?;
    let replicas = askers.max(hello.roster.len());
    let answer = decode_answer_in(alloc, format_said(hello.version), replicas, rest)?;
    Ok(Response { hello, tag, answer })
}

/// The response whose text the bytes are, to a question whose roster has so many replicas. Who answers and what for
/// isn't judged, nor the certificate: that is what [`receive`](crate::receive) does.
///
/// They are read from the left, and each part is judged as soon as it is there. Refused are bytes above the limit
/// (`TooLong`, before anything is read); bytes that go on after a text (`Extra`); and other bytes that are no text:
/// `Cut` where they end inside a part, `Bad` where a part that is there is none. Of the first four bytes `RDSC` alone
/// are one, and of versions those of a format.
pub fn decode_response<S: DotSet>(
    alloc: Global,
    askers: u16,
    bytes: &[u8],
) -> Result<Response<S>, Fault>
    ensures text { Decodes (response_kind askers) bytes.now result }
    ensures read { ReadsAll (response_at askers) bytes.now result }
{
    if LIMIT < bytes.len() {
        return Err(Fault::TooLong);
    }
    read_response(alloc, askers, bytes)
}
