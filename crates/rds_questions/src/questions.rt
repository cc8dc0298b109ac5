//! What a replica asks: who it is, and what it has.
ghost use Rattle.std.specs.Prelude.{◌≡◌, ◌≤◌, length, Err, IfOk, IfErr};
ghost use Rattle.rds_names.specs.declared.fault.Fault.{Fault};
ghost use Rattle.rds_names.specs.declared.fault.Fault.TheVariants.{Memory};
ghost use Rattle.rds_bytes.specs.Reading.{Reads};
ghost use Rattle.rds_codec.specs.Decoding.{GivesOrMemory, Decodes};
ghost use Rattle.rds_codec.specs.FormatWriting.{EncodesTabled};
ghost use Rattle.rds_codec.specs.declared.limits.TheConstants.{LIMIT};
ghost use Rattle.rds_questions.specs.Questions.{asker_at, question_kind, question_of, question_text};

use crate::fronts::{QUESTION_FRONT, read_front, whole_text};
use rds_briefs::{decode_brief, encode_brief};
use rds_codec::{Hello, LIMIT, VERSION, encode_hello, read_hello};
use rds_delta::Digest;
use rds_dots::DotSet;
use rds_names::Fault;
use rds_state::Replica;
use std::alloc::Global;
use std::marker::Model;

/// What a replica asks: who it is, in which format it wants to be answered, and what it has.
#[derive(Drop)]
pub struct Question<S: DotSet> {
    /// Who asks. Its version is that of the format in which the answer is to come.
    pub hello: Hello,
    /// What it has.
    pub digest: Digest<S>,
}

impl<S: DotSet> Model for Question<S> {
    ghost use Rattle.rds_questions.specs.Questions.{QuestionValue, coded_question};

    ghost Value = { QuestionValue };

    ghost coded = { coded_question };

    ghost view = { λ q. record { hello = q.hello; digest = q.digest } };
}

impl<S: DotSet> Question<S> {
    /// What a replica asks for what it lacks, in format 2.
    pub fn of(alloc: Global, replica: &Replica<S>) -> Result<Question<S>, Fault>
        ensures value { IfOk result (λ question. question ≡ question_of replica.now) }
        ensures memory { IfErr result (λ fault. fault ≡ Memory) }
    {
        let roster = replica.roster().copy(alloc)?;
        let digest = Digest::of(alloc, replica.state())?;
        let hello = Hello {
            version: VERSION,
            roster,
            own: replica.own(),
        };
        Ok(Question { hello, digest })
    }
}

/// The text of a question. Above the limit it is refused (`TooLong`).
pub fn encode_question<S: DotSet>(alloc: Global, question: &Question<S>) -> Result<Vec<u8>, Fault>
    ensures { EncodesTabled (question_text question.now) result }
{
    let hello = encode_hello(alloc, &question.hello)?;
    let brief = encode_brief(alloc, &question.digest)?;
    whole_text(alloc, QUESTION_FRONT, &hello, &brief)
}

/// Who asks, at the front of a question's text, and the bytes after that.
#[tactic(auto, unfolding(crate::specs::Questions::asker_at))]
fn read_asker(alloc: Global, bytes: &[u8]) -> Result<(Hello, &[u8]), Fault>
    ensures { Reads (λ x. (x.0, x.1.now)) result (asker_at bytes.now) }
{
    let rest = read_front(QUESTION_FRONT, bytes)?;
    let (hello, rest) = read_hello(alloc, rest)?;
    Ok((hello, rest))
}

/// The question whose text the bytes are.
///
/// Who asks is read first, from the left, and each part is judged as soon as it is there. Then the brief is judged as a
/// whole, as [`decode_brief`](rds_briefs::decode_brief) does. Refused are bytes above the limit (`TooLong`, before
/// anything is read); bytes that go on after a text (`Extra`); and other bytes that are no text: `Cut` where they end
/// inside a part, `Bad` where a part that is there is none. Of the first four bytes `RDSB` alone are one, and of versions
/// those of a format.
pub fn decode_question<S: DotSet>(alloc: Global, bytes: &[u8]) -> Result<Question<S>, Fault>
    ensures text { Decodes question_kind bytes.now result }
    ensures asker { (e : Fault) → length bytes.now ≤ LIMIT → asker_at bytes.now ≡ Err e → GivesOrMemory result (Err e) }
{
    if LIMIT < bytes.len() {
        return Err(Fault::TooLong);
    }
    let (hello, rest) = read_asker(alloc, bytes)?;
    let digest = decode_brief(alloc, hello.roster.len(), rest)?;
    Ok(Question { hello, digest })
}
