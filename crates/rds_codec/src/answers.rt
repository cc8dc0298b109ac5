//! The text of an answer: who asked, the delta, and its certificate.
ghost use Rattle.std.specs.Prelude.{◌≡◌, ◌<◌, ◌≤◌, ◌+◌, ◌^◌, ℕ, List, length, Ok, OnOk};
ghost use Rattle.std.specs.List.{AllByRecursion};
ghost use Rattle.rds_delta.specs.Claims.{IsCertificate};
ghost use Rattle.rds_delta.specs.Least.{IsAbove};
ghost use Rattle.rds_delta.specs.Ranks.{Ranks};
ghost use Rattle.rds_state.specs.Fits.{Fits};
ghost use Rattle.rds_state.specs.Value.{coordinates};
ghost use Rattle.rds_life.specs.Life.{seen_of};
ghost use Rattle.rds_codec.specs.AnswerTexts.{IsAnswerOf, answer, answer_text, answer_at, answer_kind};
ghost use Rattle.rds_codec.specs.CertificateTexts.{IsHeldRow, RowFits, certificate_text};
ghost use Rattle.rds_codec.specs.Decoding.{Decodes, ReadsAll};
ghost use Rattle.rds_codec.specs.FormatTexts.{answer_text_in, answer_at_in, answer_kind_in};
ghost use Rattle.rds_codec.specs.FormatWriting.{EncodesIn, EncodesTabled};
ghost use Rattle.rds_codec.specs.Measured.{IsMeasured, format_with};
ghost use Rattle.rds_codec.specs.declared.limits.TheConstants.{LIMIT};
ghost use Rattle.rds_bytes.specs.Reading.{replica_at};
ghost use Rattle.rds_bytes.specs.SteadyParts.{replica_steady};
ghost use Rattle.rds_bytes.specs.Values.{AreDotsOf};
ghost use Rattle.rds_bytes.specs.Writing.{Adds};

use crate::certificates::{
    UnfinishedCertificate, certificate_length, put_certificate, unfinished_certificate,
};
use crate::fed::read_whole;
use crate::format_one::measure_one;
use crate::formats::Format;
use crate::limits::room_for;
use crate::measured::{Measured, measure, put_state};
use crate::states::{UnfinishedState, unfinished_state};
use rds_bytes::{put_byte, read_replica};
use rds_delta::Certificate;
use rds_dots::DotSet;
use rds_feeds::{Made, Making, Once, Pair, Part, Progress, Unfinished, pair};
use rds_names::Fault;
use rds_state::State;
use std::alloc::{AllocError, Global};
use std::marker::Model;

/// What answers a digest: the delta for the replica that asked, and the certificate of it.
#[derive(Drop)]
pub struct Answer<S: DotSet> {
    /// The number of the replica that asked.
    pub asker: u8,
    /// The delta.
    pub state: State<S>,
    /// What the digest has in place of each component of the delta.
    pub certificate: Certificate,
}

impl<S: DotSet> Model for Answer<S> {
    ghost use Rattle.rds_codec.specs.AnswerValues.{AnswerValue, coded_answer};

    ghost Value = { AnswerValue };

    ghost coded = { coded_answer };

    ghost view = { λ a. record { asker = a.asker; state = a.state; certificate = a.certificate } };
}

/// The number of the replica that asked, one of so many.
#[derive(Drop)]
pub struct Asker {
    replicas: u16,
}

impl Part for Asker {
    type Read = u8;

    type Whole = u8;

    ghost reader = { λ a. replica_at a.replicas };

    ghost made = { λ _ replica. replica };

    fn read<'a>(&self, _alloc: Global, bytes: &'a [u8]) -> Result<(u8, &'a [u8]), Fault> {
        let (replica, rest) = read_replica(self.replicas, bytes)?;
        Ok((replica, rest))
    }

    fn make(self, part: u8) -> Result<u8, Fault> {
        Ok(part)
    }

    ghost steady = { λ a. replica_steady a.replicas };
}

/// The answer of an asker, a delta and its certificate.
#[derive(Drop)]
pub struct PartsAreAnswer {}

impl<S: DotSet> Making<(u8, (State<S>, Certificate))> for PartsAreAnswer {
    type Made = Answer<S>;

    ghost made = { λ _ p. Ok (answer p.0 p.1.0 p.1.1) };

    fn make(self, whole: (u8, (State<S>, Certificate))) -> Result<Answer<S>, Fault> {
        let (asker, parts) = whole;
        let (state, certificate) = parts;
        Ok(Answer {
            asker,
            state,
            certificate,
        })
    }
}

type DeltaParts<S> = Pair<UnfinishedState<S>, UnfinishedCertificate>;

type AnswerParts<S> = Made<Pair<Once<Asker>, DeltaParts<S>>, PartsAreAnswer>;

/// An answer in a format, which is being read. No more than one row or gap is held, and in format 2 the table of the
/// delta.
#[derive(Drop)]
pub struct UnfinishedAnswer<S: DotSet> {
    parts: AnswerParts<S>,
}

impl<S: DotSet> Unfinished for UnfinishedAnswer<S> {
    type Whole = Answer<S>;

    ghost finish = { λ u. ⟦<AnswerParts<S> as Unfinished>⟧.finish u.parts };

    fn read_on<'a>(
        self,
        alloc: Global,
        bytes: &'a [u8],
    ) -> Result<(Progress<Self, Answer<S>>, &'a [u8]), Fault> {
        let (progress, rest) = self.parts.read_on(alloc, bytes)?;
        match progress {
            Progress::More(parts) => Ok((Progress::More(UnfinishedAnswer { parts }), rest)),
            Progress::Whole(answer) => Ok((Progress::Whole(answer), rest)),
        }
    }
}

/// An answer of so many replicas in a format, of which nothing was read.
pub fn unfinished_answer<S: DotSet>(
    alloc: Global,
    format: Format,
    replicas: u16,
) -> UnfinishedAnswer<S>
    ensures { (bytes : List ℕ) → ⟦<UnfinishedAnswer<S> as Unfinished>⟧.finish result bytes
        ≡ answer_at_in format replicas bytes }
{
    let state = unfinished_state(alloc, format, replicas);
    let certificate = unfinished_certificate(alloc, replicas);
    let asker = Asker { replicas };
    let delta = pair(state, certificate);
    UnfinishedAnswer {
        parts: Made {
            from: pair(Once { part: asker }, delta),
            maker: PartsAreAnswer {},
        },
    }
}

/// The answer whose text in a format the bytes are, of a roster of so many replicas. Refused are bytes as
/// [`decode_snapshot`] does, and in format 2 also as
/// [`decode_state_in`](crate::decode_state_in) does. Whether its certificate is that of its delta isn't judged: that is
/// what `check` does.
pub fn decode_answer_in<S: DotSet>(
    alloc: Global,
    format: Format,
    replicas: u16,
    bytes: &[u8],
) -> Result<Answer<S>, Fault>
    ensures text { Decodes (answer_kind_in format replicas) bytes.now result }
    ensures read { ReadsAll (answer_at_in format replicas) bytes.now result }
{
    read_whole(
        alloc,
        unfinished_answer::<S>(alloc, format, replicas),
        bytes,
    )
}

/// The length of the text of an answer whose delta was measured.
fn answer_length(measured: &Measured, certificate: &Certificate) -> u128
    requires { measured.now.text_length ≤ 2 ^ 101 }
    ensures length { result ≡ 1 + measured.now.text_length + length (certificate_text certificate.now) }
    ensures held { AllByRecursion IsHeldRow certificate.now }
{
    1 + measured.text_length + certificate_length(certificate)
}

/// The asker, the delta and the certificate.
fn put_answer<S: DotSet>(
    out: &mut Vec<u8>,
    asker: u8,
    state: &State<S>,
    measured: &Measured,
    certificate: &Certificate,
) -> Result<(), AllocError>
    requires measured { IsMeasured state.now measured.now }
    requires within { length (answer_text_in (format_with measured.now.keys) (answer asker state.now certificate.now))
        ≤ LIMIT }
    ensures { Adds out.old.items out.new.items
        (answer_text_in (format_with measured.now.keys) (answer asker state.now certificate.now)) result }
{
    put_byte(out, asker)?;
    put_state(out, state, measured)?;
    put_certificate(out, certificate)
}

/// The text of an answer with these parts, in a format. It is refused as that of the delta is
/// ([`encode_state_in`](crate::encode_state_in)). That the parts make an answer shows where it is measured.
pub fn encode_answer_in<S: DotSet>(
    alloc: Global,
    format: Format,
    asker: u8,
    state: &State<S>,
    certificate: &Certificate,
) -> Result<Vec<u8>, Fault>
    ensures text { EncodesIn format (answer_text_in format (answer asker state.now certificate.now)) result }
    ensures dots { OnOk result ((replicas : ℕ) → Fits replicas (coordinates state.now)
        → AreDotsOf replicas (seen_of state.now.lives)) }
    ensures certified { OnOk result ((replicas : ℕ) (peer : Ranks) → asker < replicas
        → Fits replicas (coordinates state.now) → IsAbove (coordinates state.now) peer
        → IsCertificate peer state.now certificate.now → IsAnswerOf replicas (answer asker state.now certificate.now)) }
{
    let measured = measure(alloc, format, state)?;
    let mut out = room_for(alloc, answer_length(&measured, certificate))?;
    put_answer(&mut out, asker, state, &measured, certificate)?;
    Ok(out)
}

/// The answer whose text the bytes are, of a roster of so many replicas. Whether its certificate is that of its
/// delta isn't judged: that is what `check` does.
///
/// The bytes are read from the left, and each part is judged as soon as it is there. Refused are bytes above the
/// limit (`TooLong`, before anything is read); bytes that go on after a text (`Extra`); and other bytes that are no
/// text: `Cut` where they end inside a part, `Bad` where a part that is there is none.
pub fn decode_answer<S: DotSet>(
    alloc: Global,
    replicas: u16,
    bytes: &[u8],
) -> Result<Answer<S>, Fault>
    ensures text { Decodes (answer_kind replicas) bytes.now result }
    ensures read { ReadsAll (answer_at replicas) bytes.now result }
{
    decode_answer_in(alloc, Format::Two, replicas, bytes)
}

/// The text of an answer with these parts. The keys of the delta are numbered first, which takes memory. Above the limit
/// the text is refused then (`TooLong`); within it all memory that it needs is taken at once.
pub fn encode_answer<S: DotSet>(
    alloc: Global,
    asker: u8,
    state: &State<S>,
    certificate: &Certificate,
) -> Result<Vec<u8>, Fault>
    ensures text { EncodesTabled (answer_text (answer asker state.now certificate.now)) result }
{
    encode_answer_in(alloc, Format::Two, asker, state, certificate)
}

/// In either format the text of an answer with these parts is read again where the asker and the delta's replicas are
/// below the roster's length, and the rows of the certificate lie in the ranges of the format, as those of the delta's
/// own certificate do. The function only measures: its contract is this law.
pub fn answers_have_texts<S: DotSet>(asker: u8, state: &State<S>, certificate: &Certificate)
    ensures dots { (replicas : ℕ) → Fits replicas (coordinates state.now)
        → AreDotsOf replicas (seen_of state.now.lives) }
    ensures value { (replicas : ℕ) → asker < replicas → Fits replicas (coordinates state.now)
        → AllByRecursion (RowFits replicas) certificate.now
        → IsAnswerOf replicas (answer asker state.now certificate.now) }
    ensures certified { (replicas : ℕ) (peer : Ranks) → asker < replicas → Fits replicas (coordinates state.now)
        → IsAbove (coordinates state.now) peer → IsCertificate peer state.now certificate.now
        → IsAnswerOf replicas (answer asker state.now certificate.now) }
{
    measure_one(state);
    certificate_length(certificate);
}
