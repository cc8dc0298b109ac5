//! Questions and answers of the replicas in files.
ghost use Rattle.std.specs.Prelude.{◌≡◌, ◌↔◌, length, IfErr, IfOk, IsTrue, string_bytes};
ghost use Rattle.rds_files.specs.Files.{IsUnreadFile};
ghost use Rattle.rds_offline.specs.Letters.{AnswersFile, AsksFile, ChecksTexts, IsTakenFrom, RefusesAnswer, RefusesCheck, RefusesTake, RefusesTakeIn, TakesFile};
ghost use Rattle.rds_questions.specs.Forks.{TellsFork};
ghost use Rattle.rds_questions.specs.Taking.{HasAllOf, IsAsker};
ghost use Rattle.rds_state.specs.Fits.{Fits};
ghost use Rattle.rds_state.specs.Value.{coordinates, size};

use crate::changes::change_by;
use rds_files::{Disk, LockFile, LockedFile, ReplacedFile, ReplicaFile};
use rds_gaps::GapSet;
use rds_listing::evidence;
use rds_names::Fault;
use rds_questions::{
    Question, Received, decode_question, encode_question, receive, respond, take_response,
    tells_fork,
};
use std::alloc::Global;

/// A file that was read, and the bytes that it gave.
#[derive(Drop)]
pub struct ToldFile<'a> {
    /// The file.
    pub file: ReplicaFile<'a, GapSet>,
    /// A question, or an answer.
    pub bytes: Vec<u8>,
}

impl ToldFile<'_> {
    /// The bytes: the file is let go.
    pub fn into_bytes(self) -> Vec<u8>
        ensures { result.items ≡ self.entry.bytes.items }
    {
        self.bytes
    }
}

/// A file that took what an answer brought.
#[derive(Drop)]
pub struct AnsweredFile<'a> {
    /// The file.
    pub file: ReplacedFile<'a, GapSet>,
    /// How many components it took.
    pub components: u128,
    /// Whether that tells a fork: who answered had seen what the file has now, and held something else.
    pub forked: bool,
}

impl AnsweredFile<'_> {
    /// How many components it took: the file is let go.
    pub fn into_components(self) -> u128
        ensures { result ≡ self.entry.components }
    {
        self.components
    }
}

/// The question of the replica in a file, as a text: who asks, and the digest of what it has. The file is read as
/// `open_lasting` does, so that nothing is reported that a loss of power takes back.
pub fn ask_file<'a, H: Disk>(rt: &H, path: &'a str) -> Result<ToldFile<'a>, Fault>
where
    H::File: LockFile,
    ensures asked { IfOk result (λ told. AsksFile path.now told.file told.bytes.items) }
    ensures fault { IfErr result IsUnreadFile }
{
    let file: ReplicaFile<'a, GapSet> = ReplicaFile::open_lasting(rt, path)?;
    let alloc = rt.alloc();
    let question = Question::of(alloc, file.kept().view_of())?;
    let bytes = encode_question(alloc, &question)?;
    Ok(ToldFile { file, bytes })
}

/// The answer of the replica in a file to the question whose text the bytes are: who answers, the least delta and its
/// certificate. The question is judged first; then the file is read as `open_lasting` does. Refuses `WrongGroup`,
/// `WrongRoster` and `SameReplica` as a session does.
pub fn answer_file<'a, H: Disk>(
    rt: &H,
    path: &'a str,
    question: &[u8],
) -> Result<ToldFile<'a>, Fault>
where
    H::File: LockFile,
    ensures answered { IfOk result (λ told. AnswersFile path.now question.now told.file told.bytes.items) }
    ensures fault { IfErr result (RefusesAnswer question.now) }
{
    let alloc = rt.alloc();
    let asked: Question<GapSet> = decode_question(alloc, question)?;
    let file: ReplicaFile<'a, GapSet> = ReplicaFile::open_lasting(rt, path)?;
    let held = file.kept().view_of();
    let bytes = respond(alloc, held, held.state().mark(), &asked)?;
    Ok(ToldFile { file, bytes })
}

/// Takes the answer whose text the second bytes are to the question whose text the first are into a file, and answers
/// how many components it brought. Both are judged first, as a session judges them; then the file is locked and read,
/// and its replica has to be the one that asked, and to have all that it had then: else it is `WrongAsker`, or
/// `OwnAhead` where it lacks something of its own. The replica is joined with the delta, and kept. Where that tells a
/// fork it is kept all the same.
pub fn take_file<'a, H: Disk>(
    rt: &H,
    path: &'a str,
    question: &[u8],
    answer: &[u8],
) -> Result<AnsweredFile<'a>, Fault>
where
    H::File: LockFile,
    ensures taken { IfOk result (λ done. TakesFile path.now question.now answer.now done.file done.components
        done.forked) }
    ensures fault { IfErr result (RefusesTake path.now question.now answer.now) }
{
    let alloc = rt.alloc();
    let asked: Question<GapSet> = decode_question(alloc, question)?;
    let received = receive(alloc, &asked, answer)?;
    let opened: LockedFile<'a, H, GapSet> = LockedFile::open(rt, path)?;
    let done = take_in(rt, opened, &asked, &received)?;
    Ok(done)
}

/// What an answer brings to a question, as lines of JSON: one for each row of its certificate, which holds. Both are
/// judged as `take_file` judges them.
pub fn check_texts(alloc: Global, question: &[u8], answer: &[u8]) -> Result<String, Fault>
    ensures told { IfOk result (λ lines. ChecksTexts question.now answer.now (string_bytes lines)) }
    ensures fault { IfErr result (RefusesCheck question.now answer.now) }
{
    let asked: Question<GapSet> = decode_question(alloc, question)?;
    let received = receive(alloc, &asked, answer)?;
    evidence(
        alloc,
        &received.roster,
        &received.delta,
        &received.certificate,
    )
}

// Takes what was received for a question into the replica in the file, and answers once that is kept in its place.
fn take_in<'a, H: Disk>(
    rt: &H,
    file: LockedFile<'a, H, GapSet>,
    asked: &Question<GapSet>,
    received: &Received<GapSet>,
) -> Result<AnsweredFile<'a>, Fault>
where
    H::File: LockFile,
    requires fits { Fits (length received.now.roster.names) (coordinates received.now.delta) }
    ensures path { IfOk result (λ done. done.file.path ≡ file.entry.path) }
    ensures before { IfOk result (λ done. done.file.before ≡ file.entry.kept) }
    ensures replica { IfOk result (λ _. IsAsker asked.now file.entry.kept) }
    ensures has_all { IfOk result (λ _. HasAllOf asked.now.digest file.entry.kept.state) }
    ensures taken { IfOk result (λ done. IsTakenFrom received.now file.entry.kept done.file.kept) }
    ensures count { IfOk result (λ done. done.components ≡ size received.now.delta) }
    ensures forked { IfOk result (λ done. IsTrue done.forked ↔ TellsFork done.file.kept received.now) }
    ensures fault { IfErr result (RefusesTakeIn asked.now received.now file.entry.kept) }
{
    let components = received.delta.components();
    let (mut replica, emptied) = file.into_parts();
    let replicas = replica.roster().len();
    take_response(rt.alloc(), &mut replica, asked, received)?;
    let forked = tells_fork(rt.alloc(), &replica, received)?;
    let change = change_by(replicas, &received.roster, &received.delta);
    let file = emptied.keep(rt, replica, change)?;
    Ok(AnsweredFile {
        file,
        components,
        forked,
    })
}
