//! What has come of a message.
ghost use Rattle.std.specs.Prelude.{◌≡◌, ◌≤◌, ◌&&◌, ℕ, Bool, true, false, List, [], ◌∷◌, ◌++◌, length, Some, IfOk, IfErr};
ghost use Rattle.rds_names.specs.declared.fault.Fault.TheVariants.{Memory};
ghost use Rattle.rds_bytes.specs.Reading.{Reads};
ghost use Rattle.rds_codec.specs.declared.limits.TheConstants.{LIMIT};
ghost use Rattle.rds_keep.specs.Feeding.{EachIsByte};
ghost use Rattle.rds_session.specs.declared.content.Expected.{Expected};
ghost use Rattle.rds_session.specs.declared.content.Expected.TheVariants as expecteds;
ghost use Rattle.rds_session.specs.declared.kinds.ByeCode.TheVariants as byes;
ghost use Rattle.rds_session.specs.declared.kinds.MessageKind.TheVariants as kinds;
ghost use Rattle.rds_session.specs.Begun.{HoldsBegun, HoldsBody};
ghost use Rattle.rds_session.specs.Contents.{content_value, expects_hash, expects_mark, message_read};
ghost use Rattle.rds_session.specs.Judging.{is_done, version_with};
ghost use Rattle.rds_session.specs.Messages.{bye_of, type_byte};
ghost use Rattle.rds_session.specs.Versions.{says_briefs};
ghost use Rattle.rds_session.specs.declared.version.Version.{Version};

use crate::came::Came;
use crate::coming::Coming;
use crate::content::{Content, Expected};
use crate::digests::read_brief;
use crate::hashes::{HASH_LENGTH, read_hash};
use crate::kinds::{ByeCode, MessageKind};
use crate::marks::{MARK_LENGTH, read_mark};
use crate::talk::{Side, version_with};
use crate::version::Version;
use rds_codec::{Format, UnfinishedAnswer, UnfinishedDigest, UnfinishedHello};
use rds_dots::DotSet;
use rds_names::Fault;
use std::alloc::Global;
use std::marker::Model;

/// What has come of a message of which a byte has come.
pub enum Body<S: DotSet> {
    /// It is a HELLO to this side, of which no version has come.
    Greeting { side: Side },
    /// It is a HELLO of a version that is spoken.
    Hello(Version, Coming<UnfinishedHello>),
    /// It is a DIGEST with a text.
    Digest(Coming<UnfinishedDigest<S>>),
    /// It is a DIGEST with a brief of so many replicas, of which these bytes have come.
    Brief { replicas: u16, bytes: Vec<u8> },
    /// It is a HASH, of which these bytes have come.
    Hash(Vec<u8>),
    /// It is a DELTA.
    Delta(Coming<UnfinishedAnswer<S>>),
    /// It is a BYE, of which no code has come.
    Parting { marked: bool },
    /// It is a BYE with this code, which says no mark.
    Bye(ByeCode),
    /// It is a BYE with the code `Done` and a mark, of which these bytes have come.
    Mark(Vec<u8>),
    /// It is refused, however it goes on.
    Refused(Fault),
}

// Written out, so that where it is let go a caller's proof has one call.
impl<S: DotSet> Drop for Body<S> {
    fn drop(self) {
        match self {
            Body::Greeting { side: _ } | Body::Parting { marked: _ } => {}
            Body::Bye(_) | Body::Refused(_) => {}
            Body::Hello(_, _text) => {}
            Body::Digest(_text) => {}
            Body::Delta(_text) => {}
            Body::Mark(_bytes) | Body::Hash(_bytes) => {}
            Body::Brief {
                replicas: _,
                bytes: _bytes,
            } => {}
        }
    }
}

// What a HELLO is with the first bytes of its body. Another version is refused whatever follows it.
fn greeting<S: DotSet>(alloc: Global, side: Side, run: &[u8]) -> Result<Body<S>, Fault>
    ensures ok { IfOk result (λ new. HoldsBody (expecteds.Hello side) new (type_byte kinds.Hello ∷ run.now)) }
    ensures memory { IfErr result (λ e. e ≡ Memory) }
{
    match run {
        [] => Ok(Body::Greeting { side }),
        [byte, rest @ ..] => match version_with(side, *byte) {
            None => Ok(Body::Refused(Fault::WrongVersion)),
            Some(version) => hello(alloc, version, rest),
        },
    }
}

// What a HELLO of this version is with the next bytes: they are read as those of a hello of the version's format.
fn hello<S: DotSet>(alloc: Global, version: Version, run: &[u8]) -> Result<Body<S>, Fault>
    ensures ok { IfOk result (λ new. (side : Side) (byte : ℕ) → version_with side byte ≡ Some version
        → HoldsBody (expecteds.Hello side) new (type_byte kinds.Hello ∷ byte ∷ run.now)) }
    ensures memory { IfErr result (λ e. e ≡ Memory) }
{
    let begun = Coming::new(alloc, Format::Two, 0).add(&[version.format().version()])?;
    Ok(Body::Hello(version, begun.add(run)?))
}

// What a BYE is with the first bytes of its body, which begins with its code.
fn parting<S: DotSet>(alloc: Global, marked: bool, run: &[u8]) -> Result<Body<S>, Fault>
    ensures ok { IfOk result (λ new. (expected : Expected) → expects_mark expected ≡ marked
        → HoldsBody expected new (type_byte kinds.Bye ∷ run.now)) }
    ensures memory { IfErr result (λ e. e ≡ Memory) }
{
    match run {
        [] => Ok(Body::Parting { marked }),
        [byte, rest @ ..] => match ByeCode::from_byte(*byte) {
            None => Ok(Body::Refused(Fault::Bad)),
            Some(ByeCode::Done) if marked => marking(Vec::new(alloc), rest),
            Some(code) => Ok(parted(code, rest)),
        },
    }
}

// What a BYE with this code is with the next bytes, where it says no mark: it has none.
fn parted<S: DotSet>(code: ByeCode, run: &[u8]) -> Body<S>
    ensures { (expected : Expected) (byte : ℕ) → bye_of byte ≡ Some code
        → expects_mark expected && is_done code ≡ false
        → HoldsBody expected result (type_byte kinds.Bye ∷ byte ∷ run.now) }
{
    match run {
        [] => Body::Bye(code),
        [_, ..] => Body::Refused(Fault::Extra),
    }
}

// What a BYE with a mark, of which these bytes have come, is with the next ones.
fn marking<S: DotSet>(bytes: Vec<u8>, run: &[u8]) -> Result<Body<S>, Fault>
    ensures ok { IfOk result (λ new. (expected : Expected) (byte : ℕ) → bye_of byte ≡ Some byes.Done
        → expects_mark expected ≡ true
        → HoldsBody expected new (type_byte kinds.Bye ∷ byte ∷ (bytes.items ++ run.now))) }
    ensures memory { IfErr result (λ e. e ≡ Memory) }
{
    if MARK_LENGTH.saturating_sub(bytes.len()) < run.len() {
        return Ok(Body::Refused(Fault::Extra));
    }
    let mut bytes = bytes;
    bytes.extend_from_slice(run)?;
    Ok(Body::Mark(bytes))
}

// What a HASH, of which these bytes have come, is with the next ones.
fn hashing<S: DotSet>(bytes: Vec<u8>, run: &[u8]) -> Result<Body<S>, Fault>
    ensures ok { IfOk result (λ new. (expected : Expected) → expects_hash expected ≡ true
        → HoldsBody expected new (type_byte kinds.Hash ∷ (bytes.items ++ run.now))) }
    ensures memory { IfErr result (λ e. e ≡ Memory) }
{
    if HASH_LENGTH.saturating_sub(bytes.len()) < run.len() {
        return Ok(Body::Refused(Fault::Extra));
    }
    let mut bytes = bytes;
    bytes.extend_from_slice(run)?;
    Ok(Body::Hash(bytes))
}

// What a DIGEST, of which these bytes of a brief have come, is with the next ones.
fn briefing<S: DotSet>(replicas: u16, bytes: Vec<u8>, run: &[u8]) -> Result<Body<S>, Fault>
    ensures ok { IfOk result (λ new. (version : Version) (hashed : Bool) → says_briefs version ≡ true
        → HoldsBody (expecteds.Digest version replicas hashed) new (type_byte kinds.Digest ∷ (bytes.items ++ run.now))) }
    ensures memory { IfErr result (λ e. e ≡ Memory) }
{
    let mut bytes = bytes;
    bytes.extend_from_slice(run)?;
    Ok(Body::Brief { replicas, bytes })
}

// What a DIGEST in a version is, of whose body no byte has come.
fn digest<S: DotSet>(alloc: Global, version: Version, replicas: u16) -> Body<S>
    ensures { (hashed : Bool) → HoldsBody (expecteds.Digest version replicas hashed) result (type_byte kinds.Digest ∷ []) }
{
    if version.says_briefs() {
        Body::Brief {
            replicas,
            bytes: Vec::new(alloc),
        }
    } else {
        Body::Digest(Coming::new(alloc, Format::Two, replicas))
    }
}

impl<S: DotSet> Body<S> {
    // What a message is whose first byte has come.
    fn new(alloc: Global, expected: Expected, number: u8) -> Body<S>
        ensures { HoldsBody expected result (number ∷ []) }
    {
        match MessageKind::from_number(number) {
            None => Body::Refused(Fault::Bad),
            Some(MessageKind::Bye) => Body::Parting {
                marked: expected.is_marked(),
            },
            Some(MessageKind::Hello) => match expected {
                Expected::Hello { side } => Body::Greeting { side },
                _ => Body::Refused(Fault::OutOfTurn),
            },
            Some(MessageKind::Digest) => match expected {
                Expected::Digest {
                    version,
                    replicas,
                    hashed: _,
                } => digest(alloc, version, replicas),
                _ => Body::Refused(Fault::OutOfTurn),
            },
            Some(MessageKind::Hash) => {
                if expected.is_hashed() {
                    Body::Hash(Vec::new(alloc))
                } else {
                    Body::Refused(Fault::Bad)
                }
            }
            Some(MessageKind::Delta) => match expected {
                Expected::Delta { format, replicas } => {
                    Body::Delta(Coming::new(alloc, format, replicas))
                }
                _ => Body::Refused(Fault::OutOfTurn),
            },
        }
    }

    fn add(self, alloc: Global, run: &[u8]) -> Result<Body<S>, Fault>
        ensures ok { IfOk result (λ new. (expected : Expected) (came : List ℕ) → HoldsBody expected self came
            → HoldsBody expected new (came ++ run.now)) }
        ensures memory { IfErr result (λ e. e ≡ Memory) }
    {
        match self {
            Body::Greeting { side } => greeting(alloc, side, run),
            Body::Hello(version, text) => Ok(Body::Hello(version, text.add(run)?)),
            Body::Digest(text) => Ok(Body::Digest(text.add(run)?)),
            Body::Delta(text) => Ok(Body::Delta(text.add(run)?)),
            Body::Parting { marked } => parting(alloc, marked, run),
            Body::Bye(code) => Ok(parted(code, run)),
            Body::Mark(bytes) => marking(bytes, run),
            Body::Hash(bytes) => hashing(bytes, run),
            Body::Brief { replicas, bytes } => briefing(replicas, bytes, run),
            Body::Refused(fault) => Ok(Body::Refused(fault)),
        }
    }

    fn end(self, alloc: Global) -> Result<Content<S>, Fault>
        ensures { (expected : Expected) (came : List ℕ) → HoldsBody expected self came → length came ≤ LIMIT
            → Reads content_value result (message_read expected came) }
    {
        match self {
            Body::Greeting { side: _ } | Body::Parting { marked: _ } => Err(Fault::Cut),
            Body::Hello(version, text) => Ok(Content::Hello(version, text.end()?)),
            Body::Digest(text) => Ok(Content::Digest(text.end()?)),
            Body::Brief { replicas, bytes } => {
                Ok(Content::Digest(read_brief(alloc, replicas, &bytes)?))
            }
            Body::Delta(text) => Ok(Content::Delta(text.end()?)),
            Body::Bye(code) => Ok(Content::Bye(code)),
            Body::Mark(bytes) => Ok(Content::Mark(read_mark(&bytes)?)),
            Body::Hash(bytes) => Ok(Content::Hash(read_hash(&bytes)?)),
            Body::Refused(fault) => Err(fault),
        }
    }
}

// What a message is with the next bytes, the first of which is its type where none came before.
fn with_run<S: DotSet>(
    alloc: Global,
    expected: Expected,
    body: Option<Body<S>>,
    run: &[u8],
) -> Result<Option<Body<S>>, Fault>
    ensures ok { IfOk result (λ new. (came : List ℕ) → HoldsBegun expected body came
        → HoldsBegun expected new (came ++ run.now)) }
    ensures memory { IfErr result (λ e. e ≡ Memory) }
{
    match body {
        Some(body) => {
            let body = body.add(alloc, run)?;
            Ok(Some(body))
        }
        None => match run {
            [] => Ok(None),
            [number, rest @ ..] => {
                let body = Body::new(alloc, expected, *number).add(alloc, rest)?;
                Ok(Some(body))
            }
        },
    }
}

/// What has come of a message. No more of it is held than what was read of its text, and the next part of that.
pub struct Message<S: DotSet> {
    expected: Expected,
    body: Option<Body<S>>,
    came: Came,
}

// Written out, so that where it is let go a caller's proof has one call.
impl<S: DotSet> Drop for Message<S> {
    fn drop(self) {
        let Message {
            expected: _,
            body: _body,
            came: _came,
        } = self;
    }
}

impl<S: DotSet> Model for Message<S> {
    ghost use Rattle.rds_keep.specs.Feeding.{EachIsByte};
    ghost use Rattle.rds_session.specs.Begun.{HoldsBegun, MessageValue};

    ghost Value = { MessageValue };

    ghost view = { λ m. record { expected = m.expected; came = m.came.bytes } };

    ghost invariant = { λ m. HoldsBegun m.expected m.body m.came.bytes × EachIsByte m.came.bytes };
}

impl<S: DotSet> Message<S> {
    /// Nothing of a message. Takes no memory.
    pub fn new(expected: Expected) -> Message<S>
        ensures { result ≡ record { expected = expected; came = [] } }
    {
        Message {
            expected,
            body: None,
            came: Came::nothing(),
        }
    }

    /// The same with the next bytes. What it can't become is refused at its end, and its bytes aren't held.
    pub fn add(self, alloc: Global, run: &[u8]) -> Result<Message<S>, Fault>
        ensures ok { IfOk result (λ new. new
            ≡ record { expected = self.expected; came = self.came ++ run.now }) }
        ensures memory { IfErr result (λ e. e ≡ Memory) }
    {
        let Message {
            expected,
            body,
            came,
        } = self;
        let mut came = came;
        came.add(run);
        let body = with_run(alloc, expected, body, run)?;
        Ok(Message {
            expected,
            body,
            came,
        })
    }

    /// What the whole message says, before it is judged.
    pub fn end(self, alloc: Global) -> Result<Content<S>, Fault>
        ensures read { length self.came ≤ LIMIT
            → Reads content_value result (message_read self.expected self.came) }
        ensures bytes { EachIsByte self.came }
    {
        let Message {
            expected: _,
            body,
            came: _came,
        } = self;
        match body {
            None => Err(Fault::Cut),
            Some(body) => {
                let content = body.end(alloc)?;
                Ok(content)
            }
        }
    }
}
