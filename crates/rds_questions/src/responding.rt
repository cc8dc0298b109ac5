//! What a replica responds to a question.
ghost use Rattle.std.specs.Prelude.{◌≡◌, IfOk, IfErr};
ghost use Rattle.rds_names.specs.declared.fault.Fault.TheVariants.{Memory};
ghost use Rattle.rds_codec.specs.HelloTexts.{hello_text};
ghost use Rattle.rds_state.specs.Mark.{mark_of};
ghost use Rattle.rds_questions.specs.Responding.{RespondGives, hello_to};
ghost use Rattle.rds_questions.specs.Responses.{answerer_text};
ghost use Rattle.rds_questions.specs.Tags.{RefusesTag, tag_of};

use crate::fronts::{RESPONSE_FRONT, whole_text};
use crate::greeting::greet;
use crate::questions::Question;
use crate::responses::format_said;
use crate::tags::{Tag, put_tag};
use rds_codec::{Hello, answer_in, encode_hello};
use rds_dots::DotSet;
use rds_names::Fault;
use rds_state::{Mark, Replica};
use std::alloc::Global;

/// The text of who answers.
fn hello_bytes<S: DotSet>(
    alloc: Global,
    held: &Replica<S>,
    question: &Question<S>,
) -> Result<Vec<u8>, Fault>
    ensures text { IfOk result (λ bytes. bytes.items ≡ hello_text (hello_to question.now held.now)) }
    ensures memory { IfErr result (λ fault. fault ≡ Memory) }
{
    let roster = held.roster().copy(alloc)?;
    let hello = Hello {
        version: format_said(question.hello.version).version(),
        roster,
        own: held.own(),
    };
    encode_hello(alloc, &hello)
}

/// The same, and the text of its tag.
fn answerer_bytes<S: DotSet>(
    alloc: Global,
    held: &Replica<S>,
    mark: Mark,
    question: &Question<S>,
) -> Result<Vec<u8>, Fault>
    requires { mark ≡ mark_of held.now.state }
    ensures text { IfOk result (λ bytes. bytes.items
        ≡ answerer_text (hello_to question.now held.now) (tag_of held.now)) }
    ensures fault { IfErr result (RefusesTag held.now) }
{
    let mut text = hello_bytes(alloc, held, question)?;
    let tag = Tag::with_mark(alloc, held, mark)?;
    put_tag(&mut text, &tag)?;
    Ok(text)
}

/// The text of what a replica responds to a question: who it is, its tag, and for the one that asked the least delta and
/// its certificate, in the format that the question asks for. The mark is that of the replica's state, which an index
/// keeps.
///
/// Who asks is judged first, as a session does: one of another group (`WrongGroup`), then one of a roster that neither
/// begins the own one nor goes on after it (`WrongRoster`), then one with the same number (`SameReplica`). Then a text
/// above the limit is refused (`TooLong`), also the brief that the tag is of, or memory runs out.
pub fn respond<S: DotSet>(
    alloc: Global,
    held: &Replica<S>,
    mark: Mark,
    question: &Question<S>,
) -> Result<Vec<u8>, Fault>
    requires { mark ≡ mark_of held.now.state }
    ensures { RespondGives question.now held.now result }
{
    greet(held.roster(), held.own(), &question.hello)?;
    let format = format_said(question.hello.version);
    let (answer, _) = answer_in(
        alloc,
        format,
        question.hello.own,
        held.state(),
        &question.digest,
    )?;
    let answerer = answerer_bytes(alloc, held, mark, question)?;
    whole_text(alloc, RESPONSE_FRONT, &answerer, &answer)
}
