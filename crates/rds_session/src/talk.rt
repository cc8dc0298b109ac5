//! The words of a session: who speaks, what is waited for, what was said.
ghost use Rattle.std.specs.Prelude.{◌≡◌, IfOk, IfErr};
ghost use Rattle.rds_names.specs.declared.fault.Fault.TheVariants.{Memory};
ghost use Rattle.rds_session.specs.Judging.{version_with};
ghost use Rattle.rds_session.specs.Messages.{code_of};

use crate::kinds::ByeCode;
use crate::version::Version;
use rds_delta::Digest;
use rds_dots::DotSet;
use rds_names::{Fault, Roster};
use rds_state::{Mark, State};
use std::alloc::Global;

/// Which end of the stream.
#[derive(Clone, Copy, Debug, PartialEq, Eq)]
pub enum Side {
    /// It speaks first, in this version.
    Client { version: Version },
    /// It answers in the version of its client.
    Server,
}

/// The version that a side speaks with a peer that says this one: a server any that its client speaks, a client its own
/// alone.
pub fn version_with(side: Side, byte: u8) -> Option<Version>
    ensures { result ≡ version_with side byte }
{
    match side {
        Side::Server => Version::from_byte(byte),
        Side::Client { version } => {
            if byte == version.byte() {
                Some(version)
            } else {
                None
            }
        }
    }
}

/// Who speaks at the other end: its own number, its roster where that is longer than the own one, and the version that
/// is spoken with it.
pub struct Peer {
    pub number: u8,
    pub roster: Option<Roster>,
    pub version: Version,
}

// Written out, so that where a peer is let go a caller's proof has one call.
impl Drop for Peer {
    fn drop(self) {
        let Peer {
            number: _,
            roster: _roster,
            version: _,
        } = self;
    }
}

impl Peer {
    /// The same once more.
    pub fn copy(&self, alloc: Global) -> Result<Peer, Fault>
        ensures ok { IfOk result (λ copy. copy ≡ self.now) }
        ensures memory { IfErr result (λ fault. fault ≡ Memory) }
    {
        let roster = copy_of(alloc, &self.roster)?;
        Ok(Peer {
            number: self.number,
            roster,
            version: self.version,
        })
    }
}

/// The same roster once more, where it is there.
pub fn copy_of(alloc: Global, roster: &Option<Roster>) -> Result<Option<Roster>, Fault>
    ensures ok { IfOk result (λ copy. copy ≡ roster.now) }
    ensures memory { IfErr result (λ fault. fault ≡ Memory) }
{
    match roster {
        None => Ok(None),
        Some(roster) => Ok(Some(roster.copy(alloc)?)),
    }
}

/// The message that is waited for, with what the earlier ones said.
pub enum Turn<S: DotSet> {
    /// A HELLO to this side.
    Hello { side: Side },
    /// A digest, by its hash or whole.
    Digest { peer: Peer },
    /// A digest as it is said behind the own one: its hash wasn't that of the own one, which has been said whole.
    Whole { peer: Peer },
    Delta { peer: Peer, digest: Digest<S> },
    /// A BYE, with the mark of what is held here by then, where marks are told.
    Bye { mark: Option<Mark> },
}

// Written out, so that where a turn goes on a caller's proof has one call, and not a step for each part of its parts.
impl<S: DotSet> Drop for Turn<S> {
    fn drop(self) {
        match self {
            Turn::Hello { side: _ } | Turn::Bye { mark: _ } => {}
            Turn::Digest { peer: _peer } | Turn::Whole { peer: _peer } => {}
            Turn::Delta {
                peer: _peer,
                digest: _digest,
            } => {}
        }
    }
}

/// What an accepted message says.
#[derive(Drop)]
pub enum Act<S: DotSet> {
    /// Who the peer is.
    Greet(Peer),
    /// Who the peer is, and its digest.
    Learn(Peer, Digest<S>),
    /// Who the peer is, and that it has the own digest, which is this.
    Share(Peer, Digest<S>),
    /// Who the peer is, and that it has another digest.
    Miss(Peer),
    /// What the peer has and this side lacks, the peer's roster where that is longer, and the mark of what is held here
    /// with it, where marks are told.
    Receive(State<S>, Option<Roster>, Option<Mark>),
    /// The peer is done.
    Finish,
    /// The peer is done, and holds other entries than this side.
    Fork,
}

/// Why a message ends the session.
#[derive(Clone, Copy, Debug, PartialEq, Eq)]
pub enum Stop {
    /// It is refused.
    Refused(Fault),
    /// It says that the peer ended the session.
    Left(Fault),
}

/// The code of the BYE that a refusal sends.
pub fn code_of(fault: Fault) -> ByeCode
    ensures { result ≡ code_of fault }
{
    match fault {
        Fault::WrongVersion => ByeCode::WrongVersion,
        Fault::WrongGroup => ByeCode::WrongGroup,
        Fault::WrongRoster => ByeCode::WrongRoster,
        Fault::SameReplica => ByeCode::SameReplica,
        Fault::Memory => ByeCode::OwnFault,
        _ => ByeCode::Refused,
    }
}

impl From<Fault> for Stop {
    ghost use Rattle.rds_session.specs.declared.talk.Stop.TheVariants.{Refused};

    ghost from_gives = { λ f e. e ≡ Refused f };

    fn from(fault: Fault) -> Stop {
        Stop::Refused(fault)
    }
}
