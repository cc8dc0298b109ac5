//! The text of a hello, by which a session begins.
ghost use Rattle.std.specs.Prelude.{◌≡◌, ℕ, List, ◌<◌, ◌≤◌, true, length, IfErr};
ghost use Rattle.rds_names.specs.declared.fault.Fault.TheVariants.{Memory};
ghost use Rattle.rds_codec.specs.Decoding.{Decodes, ReadsAll};
ghost use Rattle.rds_codec.specs.HelloTexts.{IsHello, is_version, hello_text, version_at, hello_at, hello_kind};
ghost use Rattle.rds_codec.specs.SteadyTexts.{hello_steady};
ghost use Rattle.rds_bytes.specs.Reading.{Reads, ReadsExactly};
ghost use Rattle.rds_codec.specs.Writing.{Encodes};
ghost use Rattle.rds_bytes.specs.Writing.{Adds};

use crate::fed::read_whole;
use crate::formats::Format;
use crate::limits::room_for;
use rds_bytes::{member_length, put_byte, put_member, read_byte, read_member};
use rds_feeds::{Once, Part, Progress, Unfinished};
use rds_names::{Fault, Roster};
use std::alloc::{AllocError, Global};

/// The version that a session begins with: that of format 2.
pub const VERSION: u8 = 2;

/// What a session begins with: the version of the texts that follow, the roster, and the replica's own number.
#[derive(Drop)]
pub struct Hello {
    /// The version of the texts.
    pub version: u8,
    /// The replicas of the group.
    pub roster: Roster,
    /// The number of the replica that says hello.
    pub own: u8,
}

#[tactic(auto, unfolding(crate::specs::HelloTexts::version_at))]
fn read_version(bytes: &[u8]) -> Result<(u8, &[u8]), Fault>
    ensures { ReadsExactly (λ x. (x.0, x.1.now)) result (version_at bytes.now) }
{
    let (version, rest) = read_byte(bytes)?;
    match Format::of_version(version) {
        Some(_) => Ok((version, rest)),
        None => Err(Fault::Bad),
    }
}

/// A hello, and the bytes after it.
#[tactic(auto, unfolding(crate::specs::HelloTexts::hello_at))]
pub fn read_hello(alloc: Global, bytes: &[u8]) -> Result<(Hello, &[u8]), Fault>
    ensures { Reads (λ x. (x.0, x.1.now)) result (hello_at bytes.now) }
{
    let (version, rest) = read_version(bytes)?;
    let ((roster, own), rest) = read_member(alloc, rest)?;
    let hello = Hello {
        version,
        roster,
        own,
    };
    Ok((hello, rest))
}

/// A hello, read as one part.
#[derive(Drop)]
pub struct Greeting {}

impl Part for Greeting {
    type Read = Hello;

    type Whole = Hello;

    ghost reader = { λ _. hello_at };

    ghost made = { λ _ hello. hello };

    fn read<'a>(&self, alloc: Global, bytes: &'a [u8]) -> Result<(Hello, &'a [u8]), Fault> {
        read_hello(alloc, bytes)
    }

    fn make(self, part: Hello) -> Result<Hello, Fault> {
        Ok(part)
    }

    ghost steady = { λ _. hello_steady };
}

/// A hello that is being read. It is short, and held as bytes until it is whole.
#[derive(Drop)]
pub struct UnfinishedHello {
    parts: Once<Greeting>,
}

impl Unfinished for UnfinishedHello {
    type Whole = Hello;

    ghost finish = { λ u. ⟦<Once<Greeting> as Unfinished>⟧.finish u.parts };

    fn read_on<'a>(
        self,
        alloc: Global,
        bytes: &'a [u8],
    ) -> Result<(Progress<Self, Hello>, &'a [u8]), Fault> {
        let (progress, rest) = self.parts.read_on(alloc, bytes)?;
        match progress {
            Progress::More(parts) => Ok((Progress::More(UnfinishedHello { parts }), rest)),
            Progress::Whole(hello) => Ok((Progress::Whole(hello), rest)),
        }
    }
}

/// A hello of which nothing was read.
pub fn unfinished_hello() -> UnfinishedHello
    ensures { (bytes : List ℕ) → ⟦<UnfinishedHello as Unfinished>⟧.finish result bytes ≡ hello_at bytes }
{
    UnfinishedHello {
        parts: Once { part: Greeting {} },
    }
}

/// The hello whose text the bytes are. A version of no format is refused (`Bad`).
///
/// The bytes are read from the left, and each part is judged as soon as it is there. Refused are bytes above the
/// limit (`TooLong`, before anything is read); bytes that go on after a text (`Extra`); and other bytes that are no
/// text: `Cut` where they end inside a part, `Bad` where a part that is there is none.
pub fn decode_hello(alloc: Global, bytes: &[u8]) -> Result<Hello, Fault>
    ensures text { Decodes hello_kind bytes.now result }
    ensures read { ReadsAll hello_at bytes.now result }
{
    read_whole(alloc, unfinished_hello(), bytes)
}

fn put_hello(out: &mut Vec<u8>, hello: &Hello) -> Result<(), AllocError>
    ensures { Adds out.old.items out.new.items (hello_text hello.now) result }
{
    put_byte(out, hello.version)?;
    put_member(out, &hello.roster, hello.own)
}

/// The length of the text.
fn measure(hello: &Hello) -> u128
    ensures length { result ≡ length (hello_text hello.now) }
    ensures most { result ≤ 4421 }
    ensures value { is_version hello.now.version ≡ true → hello.now.own < length hello.now.roster.names → IsHello hello.now }
{
    1 + member_length(&hello.roster, hello.own) as u128
}

/// The hello's text. It is short, so nothing but `Memory` is a hindrance.
pub fn encode_hello(alloc: Global, hello: &Hello) -> Result<Vec<u8>, Fault>
    ensures text { Encodes (hello_text hello.now) result }
    ensures memory { IfErr result (λ fault. fault ≡ Memory) }
{
    let mut out = room_for(alloc, measure(hello))?;
    put_hello(&mut out, hello)?;
    Ok(out)
}

/// The text of a hello is read again where its version is that of a format and its own number is below the roster's
/// length. The function only measures: its contract is this law.
pub fn hellos_have_texts(hello: &Hello)
    ensures value { is_version hello.now.version ≡ true → hello.now.own < length hello.now.roster.names → IsHello hello.now }
{
    measure(hello);
}
