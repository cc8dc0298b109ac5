//! What documents ask of one another, answer and take.
ghost use Rattle.std.specs.Prelude.{◌≡◌, length, Err, IfOk, IfErr, OnErr, OnOk};
ghost use Rattle.rds_briefs.specs.Briefs.{brief_text};
ghost use Rattle.rds_codec.specs.FormatWriting.{EncodesTabled, IsTabledUnwritten};
ghost use Rattle.rds_delta.specs.Digested.{digest_of};
ghost use Rattle.rds_delta.specs.Least.{least};
ghost use Rattle.rds_delta.specs.Ranks.{ranks};
ghost use Rattle.rds_names.specs.declared.fault.Fault.TheVariants.{Memory};
ghost use Rattle.rds_offline.specs.Letters.{IsTakenFrom, TakesResponse};
ghost use Rattle.rds_offline.specs.Merging.{CountsLacking, IsMergedFrom, RefusesMerge};
ghost use Rattle.rds_questions.specs.Hashed.{question_hash};
ghost use Rattle.rds_questions.specs.Questions.{question_of, question_text};
ghost use Rattle.rds_questions.specs.Taking.{HasAllOf, IsAsker, TakesReceived};
ghost use Rattle.rds_state.specs.Fits.{Fits};
ghost use Rattle.rds_state.specs.Mark.{mark_of};
ghost use Rattle.rds_state.specs.Value.{coordinates, size};
ghost use Rattle.rds_store.specs.Meetings.{MayAnswer, MayTellLacks, MergesSnapshot, RefusesSnapshot, RefusesTaking, TellsLevel};
ghost use Rattle.rds_store.specs.Noting.{AreSince};

use crate::changes::Changes;
use crate::document::{Document, decode_file};
use rds_delta::{Digest, delta};
use rds_gaps::GapSet;
use rds_names::Fault;
use rds_questions::{
    Lacks, Question, Received, decode_question, encode_question, judge_held, lacks_of, receive,
    respond,
};
use rds_state::{Mark, Replica, State};
use std::alloc::Global;

impl Document {
    /// What asks another replica for what this one lacks, as a text that anything can carry: who asks, and how far it
    /// has come. `rds_node ask` writes the same. Above the limit it is refused (`TooLong`).
    pub fn ask(&self) -> Result<Vec<u8>, Fault>
        ensures { EncodesTabled (question_text (question_of self.now)) result }
    {
        let question = Question::of(self.alloc, self.index.replica())?;
        encode_question(self.alloc, &question)
    }

    /// What answers such a text: who answers, and the least delta that brings the one that asked what this one has,
    /// with its certificate. Bytes that are no question are refused as decoding does (`Cut`, `Bad`, `Extra`,
    /// `TooLong`); then who asks is judged (`WrongGroup`, `WrongRoster`, `SameReplica`).
    pub fn answer(&self, question: &[u8]) -> Result<Vec<u8>, Fault>
        ensures { MayAnswer question.now self.now result }
    {
        respond_to(
            self.alloc,
            self.index.replica(),
            self.index.mark(),
            question,
        )
    }

    /// The hash of what this replica would ask, but for who asks: the SHA-256 of the texts of its roster and of its
    /// digest. Replicas that have seen the same and have one roster have the same one. Where the digest's text is above
    /// the limit, `TooLong`.
    pub fn question_hash(&self) -> Result<[u8; 32], Fault>
        ensures hash { IfOk result (λ hash. hash ≡ question_hash (question_of self.now)) }
        ensures fault { IfErr result (IsTabledUnwritten (length (brief_text (digest_of self.now.state)))) }
    {
        let question = Question::of(self.alloc, self.index.replica())?;
        question.hash(self.alloc)
    }

    /// What this replica lacks of what a question tells, and what the one that asked lacks of this one's: so it is known
    /// whether to ask that one, and whether to answer. Where both lack nothing they have the same roster and the same
    /// digest. Bytes that are no question are refused, and then who asks, as [`answer`](Document::answer) refuses them:
    /// so a copy of this very replica is refused (`SameReplica`), also where both have done as much since.
    pub fn lacks(&self, question: &[u8]) -> Result<Lacks, Fault>
        ensures told { MayTellLacks question.now self.now result }
        ensures level { IfOk result (TellsLevel question.now self.now) }
    {
        lacks_by_text(self.alloc, self.index.replica(), question)
    }

    /// Takes what answers a question that this replica asked, now or earlier, and tells how many components that
    /// brought. Both texts are judged first, as a session judges them (also `BadCertificate`); then this has to be the
    /// replica that asked, with all that it had then (`WrongAsker`, `OwnAhead`).
    pub fn take(&mut self, question: &[u8], answer: &[u8]) -> Result<u128, Fault>
        ensures taken { IfOk result (TakesResponse question.now answer.now self.old self.new) }
        ensures fault { IfErr result (RefusesTaking question.now answer.now self.old) }
        ensures err { OnErr result (self.new ≡ self.old) }
    {
        let mut changes = Changes::unnoted(self);
        take_answer(self, &mut changes, question, answer)
    }

    /// Joins all that the replica of a snapshot or a file has seen, and tells how many components of it were lacking.
    /// Bytes that are neither are refused as `open` does; then the replica as a take does (`WrongGroup`, `WrongRoster`,
    /// `OwnAhead`, `Conflict`).
    pub fn merge(&mut self, snapshot: &[u8]) -> Result<u128, Fault>
        ensures merged { IfOk result (MergesSnapshot snapshot.now self.old self.new) }
        ensures fault { IfErr result (RefusesSnapshot snapshot.now self.old) }
        ensures err { OnErr result (self.new ≡ self.old) }
    {
        let mut changes = Changes::unnoted(self);
        merge_snapshot(self, &mut changes, snapshot)
    }
}

/// What a replica responds to the question whose text the bytes are.
fn respond_to(
    alloc: Global,
    held: &Replica<GapSet>,
    mark: Mark,
    question: &[u8],
) -> Result<Vec<u8>, Fault>
    requires { mark ≡ mark_of held.now.state }
    ensures { MayAnswer question.now held.now result }
{
    let asked: Question<GapSet> = decode_question(alloc, question)?;
    respond(alloc, held, mark, &asked)
}

/// What a replica lacks of what the question tells whose text the bytes are, and what the one that asked lacks.
fn lacks_by_text(alloc: Global, held: &Replica<GapSet>, question: &[u8]) -> Result<Lacks, Fault>
    ensures told { MayTellLacks question.now held.now result }
    ensures level { IfOk result (TellsLevel question.now held.now) }
{
    let asked: Question<GapSet> = decode_question(alloc, question)?;
    lacks_of(alloc, held, &asked)
}

/// Takes the answer whose text the second bytes are to the question whose text the first are, and notes what came.
pub fn take_answer(
    document: &mut Document,
    changes: &mut Changes,
    question: &[u8],
    answer: &[u8],
) -> Result<u128, Fault>
    requires since { AreSince changes.old document.old }
    ensures since { AreSince changes.new document.new }
    ensures kept { changes.new.kept.value ≡ changes.old.kept.value }
    ensures taken { IfOk result (TakesResponse question.now answer.now document.old document.new) }
    ensures fault { IfErr result (RefusesTaking question.now answer.now document.old) }
    ensures err { OnErr result (document.new ≡ document.old) }
{
    let asked: Question<GapSet> = decode_question(document.alloc, question)?;
    let received = receive(document.alloc, &asked, answer)?;
    take_in(document, changes, &asked, received)
}

/// Takes what was received for a question, as [`take_response`](rds_questions::take_response) does, and notes it.
fn take_in(
    document: &mut Document,
    changes: &mut Changes,
    question: &Question<GapSet>,
    received: Received<GapSet>,
) -> Result<u128, Fault>
    requires since { AreSince changes.old document.old }
    requires fits { Fits (length received.roster.names) (coordinates received.delta) }
    ensures since { AreSince changes.new document.new }
    ensures kept { changes.new.kept.value ≡ changes.old.kept.value }
    ensures replica { OnOk result (IsAsker question.now document.old) }
    ensures has_all { OnOk result (HasAllOf question.now.digest document.old.state) }
    ensures taken { OnOk result (IsTakenFrom received document.old document.new) }
    ensures count { IfOk result (λ n. n ≡ size received.delta) }
    ensures fault { IfErr result (λ fault. TakesReceived question.now document.old received (Err fault)) }
    ensures err { OnErr result (document.new ≡ document.old) }
{
    judge_held(document.alloc, question, document.replica())?;
    changes.make_room()?;
    let Received {
        delta,
        roster,
        certificate: _certificate,
        tag: _tag,
    } = received;
    let components = delta.components();
    let grew = document.take_with(roster, &delta)?;
    changes.note(delta, grew);
    Ok(components)
}

/// Joins all that the replica of a snapshot has seen, and notes what was lacking.
pub fn merge_snapshot(
    document: &mut Document,
    changes: &mut Changes,
    snapshot: &[u8],
) -> Result<u128, Fault>
    requires since { AreSince changes.old document.old }
    ensures since { AreSince changes.new document.new }
    ensures kept { changes.new.kept.value ≡ changes.old.kept.value }
    ensures merged { IfOk result (MergesSnapshot snapshot.now document.old document.new) }
    ensures fault { IfErr result (RefusesSnapshot snapshot.now document.old) }
    ensures err { OnErr result (document.new ≡ document.old) }
{
    let (source, _layout) = decode_file(document.alloc, snapshot)?;
    merge_in(document, changes, &source)
}

/// Joins all that another replica has seen, notes what of it was lacking, and answers how many components that were.
fn merge_in(
    document: &mut Document,
    changes: &mut Changes,
    source: &Replica<GapSet>,
) -> Result<u128, Fault>
    requires since { AreSince changes.old document.old }
    ensures since { AreSince changes.new document.new }
    ensures kept { changes.new.kept.value ≡ changes.old.kept.value }
    ensures merged { OnOk result (IsMergedFrom source.now document.old document.new) }
    ensures counted { IfOk result (CountsLacking source.now document.old) }
    ensures fault { IfErr result (RefusesMerge source.now document.old) }
    ensures err { OnErr result (document.new ≡ document.old) }
{
    let lacking = lacking_in(document, source)?;
    changes.make_room()?;
    let roster = source.roster().copy(document.alloc)?;
    let grew = document.take_with(roster, source.state())?;
    let components = lacking.components();
    changes.note(lacking, grew);
    Ok(components)
}

/// What another replica has seen that a document lacks.
fn lacking_in(document: &Document, source: &Replica<GapSet>) -> Result<State<GapSet>, Fault>
    ensures lacking { IfOk result (λ lacking. coordinates lacking
        ≡ least (coordinates source.now.state) (ranks (coordinates document.now.state))) }
    ensures memory { IfErr result (λ fault. fault ≡ Memory) }
{
    let digest = Digest::of(document.alloc, document.replica().state())?;
    delta(document.alloc, source.state(), &digest)
}
