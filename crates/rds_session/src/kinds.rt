//! What messages begin with, and what a BYE says.
ghost use Rattle.std.specs.Prelude.{◌≡◌};
ghost use Rattle.rds_session.specs.Messages.{bye_of, byte_of, kind_of, type_byte};

/// The type of a message.
#[derive(Clone, Copy, Debug, PartialEq, Eq)]
pub enum MessageKind {
    /// Who speaks.
    Hello,
    /// What is kept here, as a digest.
    Digest,
    /// What is kept here and the peer lacks.
    Delta,
    /// The end, and why.
    Bye,
    /// What is kept here, as the hash of a digest.
    Hash,
}

impl MessageKind {
    /// The byte that messages of this type begin with.
    pub fn number(self) -> u8
        ensures { result ≡ type_byte self }
    {
        match self {
            MessageKind::Hello => 1,
            MessageKind::Digest => 2,
            MessageKind::Delta => 3,
            MessageKind::Bye => 4,
            MessageKind::Hash => 5,
        }
    }

    /// The type that this byte says.
    pub fn from_number(number: u8) -> Option<MessageKind>
        ensures { result ≡ kind_of number }
    {
        match number {
            1 => Some(MessageKind::Hello),
            2 => Some(MessageKind::Digest),
            3 => Some(MessageKind::Delta),
            4 => Some(MessageKind::Bye),
            5 => Some(MessageKind::Hash),
            _ => None,
        }
    }
}

/// Why a BYE ends the session.
#[derive(Clone, Copy, Debug, PartialEq, Eq)]
pub enum ByeCode {
    /// Both sides have told the other what it lacked.
    Done,
    /// The peer's version is another one.
    WrongVersion,
    /// The peer is of another group.
    WrongGroup,
    /// The peer has another roster, and neither begins the other.
    WrongRoster,
    /// The peer has the own number of this replica.
    SameReplica,
    /// The peer's message was refused for another reason.
    Refused,
    /// Here memory ran out, or a message is over the limit.
    OwnFault,
}

impl ByeCode {
    /// The byte of a BYE.
    pub fn byte(self) -> u8
        ensures { result ≡ byte_of self }
    {
        match self {
            ByeCode::Done => 0,
            ByeCode::WrongVersion => 1,
            ByeCode::WrongGroup => 2,
            ByeCode::WrongRoster => 3,
            ByeCode::SameReplica => 4,
            ByeCode::Refused => 5,
            ByeCode::OwnFault => 6,
        }
    }

    /// What this byte of a BYE says.
    pub fn from_byte(byte: u8) -> Option<ByeCode>
        ensures { result ≡ bye_of byte }
    {
        match byte {
            0 => Some(ByeCode::Done),
            1 => Some(ByeCode::WrongVersion),
            2 => Some(ByeCode::WrongGroup),
            3 => Some(ByeCode::WrongRoster),
            4 => Some(ByeCode::SameReplica),
            5 => Some(ByeCode::Refused),
            6 => Some(ByeCode::OwnFault),
            _ => None,
        }
    }
}
