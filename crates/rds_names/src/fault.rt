//! Why a call refused.
ghost use Rattle.std.specs.Prelude.{◌≡◌};
ghost use Rattle.rds_names.specs.Fault.{number_of, name_of};
ghost use Rattle.rds_names.specs.declared.fault.Fault.TheVariants.{Memory};

use std::alloc::{AllocError, AllocFailed};
use std::error::Error;
use std::fmt;

/// What a delta holds of a replica's own that the replica itself lacks: a sign that its file is
/// older than what it has already sent.
#[derive(Clone, Copy, Debug, PartialEq, Eq)]
pub enum Own {
    /// The least number of an own dot that the replica hasn't seen.
    Seq(u64),
    /// Increments of an own counter that are above the replica's.
    Plus(u64),
    /// Decrements of an own counter that are above the replica's.
    Minus(u64),
}

/// Why a call refused. After a refusal the value that was called is unchanged. Three are not: a session, which has
/// failed from then on; a reader, of which a prefix may be read; and a writer or a new file, which may have got a
/// prefix of the text.
#[derive(Clone, Copy, Debug, PartialEq, Eq)]
pub enum Fault {
    /// There was no memory for what the call had to grow.
    Memory,
    /// A text is no name of a replica.
    BadName,
    /// A text is no key.
    BadKey,
    /// A path has more than 8 keys, or is the root where an entry or a value is meant.
    BadPath,
    /// A value is none of those that a leaf may hold.
    BadScalar,
    /// A roster has no name, more than 256 of them or one twice, or a number is beyond it.
    BadRoster,
    /// A replica has used its last dot.
    SeqFull,
    /// A counter's number would pass its limit.
    CounterFull,
    /// A dot is live on both sides with different entries; this is the least such dot.
    Conflict { replica: u8, seq: u64 },
    /// A delta holds something of the replica's own that the replica lacks.
    OwnAhead(Own),
    /// An answer was made for another replica.
    WrongAsker,
    /// Bytes end before the text that they begin is whole.
    Cut,
    /// Bytes are no text.
    Bad,
    /// More bytes follow a whole text.
    Extra,
    /// A text or a line is longer than its limit.
    TooLong,
    /// A set of dots is larger than a limit. No set has one any more, so no call answers this; its number stays its
    /// own.
    TooManyDots,
    /// A delta's certificate doesn't hold.
    BadCertificate,
    /// The peer speaks another version.
    WrongVersion,
    /// The two replicas are of different groups.
    WrongGroup,
    /// The two replicas have different rosters.
    WrongRoster,
    /// Both ends are the same replica.
    SameReplica,
    /// The peer sent another message than the one awaited.
    OutOfTurn,
    /// The peer ended before the exchange was done.
    PeerEnded,
    /// Reading, writing or another call of the system failed.
    Device,
    /// A line is no command.
    BadLine,
    /// There is no such replica, ask or answer.
    NoSuch,
    /// The words of the command line are none that the program takes.
    Usage,
    /// Both ends have seen the same dots, and hold different entries: two replicas share a name, or a backup was put
    /// back and edited.
    Forked,
    /// What was to be kept is written, and the system doesn't say that it lasts: it may be there or not.
    Unsure,
}

impl Fault {
    /// The number by which users and other programs know the fault.
    pub fn number(self) -> u8
        ensures { result ≡ number_of self }
    {
        match self {
            Fault::Memory => 1,
            Fault::BadName => 2,
            Fault::BadKey => 3,
            Fault::BadPath => 4,
            Fault::BadScalar => 5,
            Fault::BadRoster => 6,
            Fault::SeqFull => 7,
            Fault::CounterFull => 8,
            Fault::Conflict { .. } => 9,
            Fault::OwnAhead(_) => 10,
            Fault::WrongAsker => 11,
            Fault::Cut => 12,
            Fault::Bad => 13,
            Fault::Extra => 14,
            Fault::TooLong => 15,
            Fault::TooManyDots => 16,
            Fault::BadCertificate => 17,
            Fault::WrongVersion => 18,
            Fault::WrongGroup => 19,
            Fault::WrongRoster => 20,
            Fault::SameReplica => 21,
            Fault::OutOfTurn => 22,
            Fault::PeerEnded => 23,
            Fault::Device => 24,
            Fault::BadLine => 25,
            Fault::NoSuch => 26,
            Fault::Usage => 27,
            Fault::Forked => 28,
            Fault::Unsure => 29,
        }
    }

    /// The fault's name, as it is printed.
    pub fn name(self) -> &'static str
        ensures { result.now ≡ name_of self }
    {
        match self {
            Fault::Memory => "Memory",
            Fault::BadName => "BadName",
            Fault::BadKey => "BadKey",
            Fault::BadPath => "BadPath",
            Fault::BadScalar => "BadScalar",
            Fault::BadRoster => "BadRoster",
            Fault::SeqFull => "SeqFull",
            Fault::CounterFull => "CounterFull",
            Fault::Conflict { .. } => "Conflict",
            Fault::OwnAhead(_) => "OwnAhead",
            Fault::WrongAsker => "WrongAsker",
            Fault::Cut => "Cut",
            Fault::Bad => "Bad",
            Fault::Extra => "Extra",
            Fault::TooLong => "TooLong",
            Fault::TooManyDots => "TooManyDots",
            Fault::BadCertificate => "BadCertificate",
            Fault::WrongVersion => "WrongVersion",
            Fault::WrongGroup => "WrongGroup",
            Fault::WrongRoster => "WrongRoster",
            Fault::SameReplica => "SameReplica",
            Fault::OutOfTurn => "OutOfTurn",
            Fault::PeerEnded => "PeerEnded",
            Fault::Device => "Device",
            Fault::BadLine => "BadLine",
            Fault::NoSuch => "NoSuch",
            Fault::Usage => "Usage",
            Fault::Forked => "Forked",
            Fault::Unsure => "Unsure",
        }
    }
}

impl From<AllocError> for Fault {
    ghost from_gives = { λ _ fault. fault ≡ Memory };

    fn from(_error: AllocError) -> Fault {
        Fault::Memory
    }
}

impl<T: Drop> From<AllocFailed<T>> for Fault {
    ghost from_gives = { λ _ fault. fault ≡ Memory };

    fn from(_error: AllocFailed<T>) -> Fault {
        Fault::Memory
    }
}

impl fmt::Display for Own {
    ghost use Rattle.std.specs.Prelude.{Some};
    ghost use Rattle.rds_names.specs.Fault.{words_of_own};

    ghost output = { λ own. Some (words_of_own own) };

    fn fmt<W: fmt::Write>(&self, f: &mut fmt::Formatter<W>) -> fmt::Result {
        match *self {
            Own::Seq(seq) => write!(f, "dot {seq} of the replica's own isn't known to it"),
            Own::Plus(sum) => write!(f, "own increments stand at {sum} elsewhere"),
            Own::Minus(sum) => write!(f, "own decrements stand at {sum} elsewhere"),
        }
    }
}

/// What a fault is, in words.
#[derive(Clone, Copy)]
struct Words(Fault);

impl fmt::Display for Words {
    ghost use Rattle.std.specs.Prelude.{Some};
    ghost use Rattle.rds_names.specs.Fault.{words_of};

    ghost output = { λ words. Some (words_of words.0) };

    fn fmt<W: fmt::Write>(&self, f: &mut fmt::Formatter<W>) -> fmt::Result {
        let words = match self.0 {
            Fault::Memory => "there was no memory left",
            Fault::BadName => "the text is no name of a replica",
            Fault::BadKey => "the text is no key",
            Fault::BadPath => "the path has more than 8 keys, or none where one is needed",
            Fault::BadScalar => "the value is none that a leaf may hold",
            Fault::BadRoster =>
                "the roster has no name, more than 256 or one twice, or lacks a number",
            Fault::SeqFull => "the replica has used its last dot",
            Fault::CounterFull => "the counter's number would pass its limit",
            Fault::Conflict { replica, seq } => {
                return write!(f, "the dot {seq} of replica {replica} has two entries");
            }
            Fault::OwnAhead(own) => return write!(f, "{own}"),
            Fault::WrongAsker => "the answer was made for another replica",
            Fault::Cut => "the bytes end too early",
            Fault::Bad => "the bytes are no text",
            Fault::Extra => "more bytes follow a whole text",
            Fault::TooLong => "the text or the line is longer than its limit",
            Fault::TooManyDots => "the set of dots is larger than its limit",
            Fault::BadCertificate => "the certificate of the delta doesn't hold",
            Fault::WrongVersion => "the peer speaks another version",
            Fault::WrongGroup => "the replicas are of different groups",
            Fault::WrongRoster => "the replicas have different rosters",
            Fault::SameReplica => "both ends are the same replica",
            Fault::OutOfTurn => "the peer sent another message than the one awaited",
            Fault::PeerEnded => "the peer ended before the exchange was done",
            Fault::Device => "reading, writing or another call of the system failed",
            Fault::BadLine => "the line is no command",
            Fault::NoSuch => "there is no such replica, ask or answer",
            Fault::Usage => "the words of the command line are none that the program takes",
            Fault::Forked => "both ends have seen the same, and hold different entries",
            Fault::Unsure => "it is written, and may not last: read before you repeat",
        };
        f.write_str(words)
    }
}

/// The fault's name, and behind ": " what it is in words. Replicas are numbered from 0, by their places in the roster.
impl fmt::Display for Fault {
    ghost use Rattle.std.specs.Prelude.{Some};
    ghost use Rattle.rds_names.specs.Fault.{text_of_fault};

    ghost output = { λ fault. Some (text_of_fault fault) };

    fn fmt<W: fmt::Write>(&self, f: &mut fmt::Formatter<W>) -> fmt::Result {
        let name = self.name();
        let words = Words(*self);
        write!(f, "{name}: {words}")
    }
}

impl Error for Fault {}
