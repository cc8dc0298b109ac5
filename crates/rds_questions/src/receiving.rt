//! What a response brings to the replica that asked.
ghost use Rattle.std.specs.Prelude.{◌≡◌, ◌<◌, ◌≤◌, length, Err, IfOk, IfErr};
ghost use Rattle.rds_names.specs.declared.fault.Fault.TheVariants.{Memory, TooLong};
ghost use Rattle.rds_state.specs.Fits.{Fits};
ghost use Rattle.rds_names.specs.Roster.{longer};
ghost use Rattle.rds_state.specs.Value.{coordinates};
ghost use Rattle.rds_delta.specs.Claims.{IsCertificate};
ghost use Rattle.rds_delta.specs.Digested.{ranks_in};
ghost use Rattle.rds_delta.specs.Least.{IsAbove};
ghost use Rattle.rds_codec.specs.Decoding.{IsTextOf, all_of};
ghost use Rattle.rds_codec.specs.declared.limits.TheConstants.{LIMIT};
ghost use Rattle.rds_questions.specs.Questions.{askers_of};
ghost use Rattle.rds_questions.specs.Receiving.{IsReceivedFrom, ReceivesOrLost, ReceivesRead};
ghost use Rattle.rds_questions.specs.Responses.{ResponseValue, response_at, response_kind};

use crate::greeting::greet;
use crate::questions::Question;
use crate::responses::{Response, decode_response};
use crate::tags::Tag;
use rds_delta::{Certificate, check};
use rds_dots::DotSet;
use rds_names::{Fault, Roster};
use rds_state::State;
use std::alloc::Global;
use std::marker::Model;

/// What a response brings, where it was judged.
#[derive(Drop)]
pub struct Received<S: DotSet> {
    /// What the one that answered has and the one that asked lacked.
    pub delta: State<S>,
    /// The longer of the two rosters, or that of the one that asked where they have as many names.
    pub roster: Roster,
    /// What the question's digest has in place of each component of the delta.
    pub certificate: Certificate,
    /// The tag of the one that answered, as it was then.
    pub tag: Tag,
}

impl<S: DotSet> Model for Received<S> {
    ghost use Rattle.rds_questions.specs.Receiving.{ReceivedValue, coded_received};

    ghost Value = { ReceivedValue };

    ghost coded = { coded_received };

    ghost view = { λ r. record { delta = r.delta; roster = r.roster; certificate = r.certificate; tag = r.tag } };
}

/// The longer of the two rosters, the own one where they have as many names.
fn longer_of(alloc: Global, own: &Roster, other: Roster) -> Result<Roster, Fault>
    ensures ok { IfOk result (λ roster. roster ≡ longer own.now other) }
    ensures memory { IfErr result (λ fault. fault ≡ Memory) }
{
    if other.len() <= own.len() {
        return own.copy(alloc);
    }
    Ok(other)
}

/// Judges who answers, what for, and the certificate.
fn judge<S: DotSet>(
    alloc: Global,
    question: &Question<S>,
    response: Response<S>,
) -> Result<Received<S>, Fault>
    ensures { ReceivesOrLost question.now response result }
{
    greet(&question.hello.roster, question.hello.own, &response.hello)?;
    let Response { hello, tag, answer } = response;
    if answer.asker != question.hello.own {
        return Err(Fault::WrongAsker);
    }
    if !check(&question.digest, &answer.state, &answer.certificate) {
        return Err(Fault::BadCertificate);
    }
    let roster = longer_of(alloc, &question.hello.roster, hello.roster)?;
    Ok(Received {
        delta: answer.state,
        roster,
        certificate: answer.certificate,
        tag,
    })
}

/// What the bytes bring as a response to a question.
///
/// They are read first, as [`decode_response`] does, and refused as it refuses them. Then they are judged as a session
/// does: who answers is of another group (`WrongGroup`), or of a roster that neither begins that of the one that asked
/// nor goes on after it (`WrongRoster`), or has its number (`SameReplica`); the answer is for another (`WrongAsker`);
/// the certificate isn't that of the delta against the question's digest (`BadCertificate`).
pub fn receive<S: DotSet>(
    alloc: Global,
    question: &Question<S>,
    bytes: &[u8],
) -> Result<Received<S>, Fault>
    ensures long { LIMIT < length bytes.now → result ≡ Err TooLong }
    ensures read { length bytes.now ≤ LIMIT
        → ReceivesRead question.now (all_of (response_at (askers_of question.now)) bytes.now) result }
    ensures text { IfOk result (IsReceivedFrom question.now bytes.now) }
    ensures found { (r : ResponseValue) → length bytes.now ≤ LIMIT
        → IsTextOf (response_kind (askers_of question.now)) bytes.now r → ReceivesOrLost question.now r result }
    ensures fits { IfOk result (λ x. Fits (length x.roster.names) (coordinates x.delta)) }
    ensures above { IfOk result (λ x. IsAbove (coordinates x.delta) (ranks_in question.now.digest)) }
    ensures certified { IfOk result (λ x. IsCertificate (ranks_in question.now.digest) x.delta x.certificate) }
{
    let response = decode_response(alloc, question.hello.roster.len(), bytes)?;
    judge(alloc, question, response)
}
