//! Laws of streams and sessions.
ghost use Rattle.std.specs.Prelude.{◌≡◌};
ghost use Rattle.rds_session.specs.ByMessages.{IsByMessages, IsQuiet};
ghost use Rattle.rds_session.specs.OneResult.{HasOneResult};
ghost use Rattle.rds_session.specs.Meeting.{BothEnd, BothTellForks, HoldJoins, KeepsAtEnd, ReceiveDeltas, ServesEach};
ghost use Rattle.rds_session.specs.Stream.{AreSplit, AreSplitOnce};
ghost use Rattle.rds_session.specs.declared.chunks.TheConstants.{MESSAGE_LIMIT};

/// A stream of bytes is messages and a rest, less than a message, in exactly one way, however each message was cut
/// into chunks. The function does nothing: its contract is these laws.
pub fn streams_are_split_once()
    ensures split { AreSplit }
    ensures once { AreSplitOnce }
{}

/// What a session makes of a stream is what it makes of its messages, however each was cut into chunks; and nothing
/// is answered before a message's closing chunk, but where the message is over the limit. The function does nothing:
/// its contract is these laws.
pub fn a_course_is_by_messages()
    ensures messages { IsByMessages }
    ensures quiet { IsQuiet }
{}

/// Two sessions, a client's and a server's, of replicas with different numbers and rosters one of which begins the
/// other. Their messages, in the client's version, are all within the limit.
///
/// Where each hears a prefix of what the other sent, wherever it was cut, each has received nothing, or exactly what
/// the other has and it lacks, and the other's roster exactly where that is longer. Where each hears all that the other
/// sent, both have received that and both are done. From version 3 on no dot may be live in both with different entries
/// for that. Where the marks of what they hold by then, their joins, differ, both tell a fork. All this holds in
/// versions 4 and 5, which say digests by hashes, or two different texts of digests have one SHA-256.
///
/// And of any session: the end of a stream takes nothing from what was received. The function does nothing: its
/// contract is these laws.
pub fn two_sessions()
    ensures receive { ReceiveDeltas }
    ensures end { BothEnd }
    ensures forks { BothTellForks }
    ensures joins { HoldJoins }
    ensures cut { KeepsAtEnd }
{}

/// A server hears all that a client says in a whole session in any version, however its messages were cut. The two
/// replicas have different numbers and rosters one of which begins the other, and their messages are within the limit.
/// From version 3 on no dot is live in both with different entries. Then the server has said HELLO with the client's
/// version and its delta in that version's format, and is done. It has received exactly what the client has and it
/// lacks, and the client's roster exactly where that is longer. From version 4 on each says a digest that both have by
/// its hash, and two that differ whole; all this holds there, or two different texts of digests have one SHA-256. The
/// function does nothing: its contract is this law.
pub fn a_server_speaks_its_clients_version()
    ensures { ServesEach }
{}

/// Two results of a step of a session that has the standing of a stream, where memory ran out in neither, are one: the
/// same new standing, and the same bytes sent. The function does nothing: its contract is this law.
pub fn a_step_of_a_session_has_one_result()
    ensures { HasOneResult }
{}

/// The greatest length of a message, 256 MiB, without the lengths of its chunks. The function does nothing: its
/// contract is this number.
pub fn limit_of_messages()
    ensures { MESSAGE_LIMIT ≡ 268435456 }
{}
