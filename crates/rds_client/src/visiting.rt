//! A file that meets a node over that one's HTTP: each takes what it lacks.
ghost use Rattle.std.specs.Prelude.{◌≡◌, IfOk, IfSome, None, Some};
ghost use Rattle.rds_offline.specs.Letters.{IsBrought};

use crate::calling::{Caller, caller_of, name_in};
use crate::requests::{Head, NOT_MODIFIED, Request, Resource, Response};
use crate::secrets::read_secret;
use crate::troubles::{Standing, Trouble, tell};
use rds_fields::tag_text;
use rds_files::{Disk, LockFile, ReplicaFile};
use rds_gaps::GapSet;
use rds_names::Fault;
use rds_offline::{answer_file, take_file};
use rds_questions::{Question, Tag, decode_question, encode_question, greet};
use std::net::Net;
use std::time::Duration;

/// What the command line says of a file that meets a node.
#[derive(Clone, Copy)]
pub struct VisitWords<'a> {
    /// The path of the file.
    pub file: &'a str,
    /// Where the node is, as `http://127.0.0.1:7780`.
    pub node: &'a str,
    /// The path of a file that has the token that the node asks for.
    pub token_file: Option<&'a str>,
    /// How long it is waited for, where that is bounded.
    pub timeout: Option<Duration>,
}

/// What came of a meeting with a node.
#[derive(Clone, Copy, Debug, PartialEq, Eq)]
pub struct Visit {
    /// How many components the file took, where the node's answer was judged and kept.
    pub taken: Option<u128>,
    /// The fault by which the meeting ended.
    pub fault: Option<Fault>,
}

/// A file, what it asked when it was read last, and the node that it meets.
#[derive(Drop)]
struct Meeting<'a> {
    path: &'a str,
    own: Own,
    caller: Caller<'a>,
}

/// What a file asks, and the tag of that.
#[derive(Drop)]
struct Own {
    question: Question<GapSet>,
    tag: Tag,
}

/// Meets a node over its HTTP. The file is read, and what was read is made to last, before the node is called; it isn't
/// locked while the node is waited for. The node is asked for its question, unless it has the file's tag; then for its
/// answer, which is judged and kept in what the file holds by then; and it is given the answer of what the file has
/// become. At last it is asked for its question once more, which tells whether the two are level. Each call has a
/// connection of its own.
///
/// `Usage` where the text names no host and port, or the token's file has none. What `ReplicaFile::open_lasting`, `take_file` and
/// `answer_file` refuse with, `WrongGroup`, `WrongRoster` and `SameReplica` as a session tells them. `Device` where the
/// node can't be reached or waited for, or lets wait too long; `PeerEnded` where it ends the connection or refuses a
/// request; `OutOfTurn` where it is no node; `TooLong` of a response. `Forked` where both have seen the same,
/// and hold different entries. Standard error has a line that says why. What was taken stays taken.
pub fn sync_site<H: Disk + Net>(rt: &H, words: &VisitWords<'_>) -> Visit
where
    H::File: LockFile,
    ensures taken { IfSome result.taken (IsBrought words.now.file.now) }
{
    let mut meeting = match Meeting::begin(rt, words) {
        Ok(meeting) => meeting,
        Err(fault) => return Visit::none(fault),
    };
    let theirs = match meeting.ask(rt) {
        Ok(Some(theirs)) => theirs,
        Ok(None) => return Visit::level(),
        Err(fault) => return Visit::none(fault),
    };
    match meeting.bring(rt) {
        Ok(taken) => Visit {
            taken: Some(taken),
            fault: meeting.give_back(rt, &theirs).err(),
        },
        Err(fault) => Visit::none(fault),
    }
}

impl Visit {
    // It ended before the file took anything.
    fn none(fault: Fault) -> Visit
        ensures { result.taken ≡ None }
    {
        Visit {
            taken: None,
            fault: Some(fault),
        }
    }

    // Neither lacked anything.
    fn level() -> Visit
        ensures { result.taken ≡ Some 0 }
    {
        Visit {
            taken: Some(0),
            fault: None,
        }
    }
}

impl Own {
    // Reads what the file at a path asks.
    fn read<H: Disk>(rt: &H, path: &str) -> Result<Own, Fault> {
        let alloc = rt.alloc();
        let file: ReplicaFile<'_, GapSet> = ReplicaFile::open_lasting(rt, path)?;
        let replica = file.kept().view_of();
        let question = Question::of(alloc, replica)?;
        let tag = Tag {
            hash: question.hash(alloc)?,
            mark: replica.state().mark(),
        };
        Ok(Own { question, tag })
    }

    // Judges who asks, before it is asked in turn.
    fn judge<H: Disk>(&self, rt: &H, theirs: &[u8]) -> Result<(), Fault> {
        let asked: Question<GapSet> = decode_question(rt.alloc(), theirs)?;
        let own = &self.question.hello;
        greet(&own.roster, own.own, &asked.hello)
    }
}

impl<'a> Meeting<'a> {
    // All that comes before the first call.
    fn begin<H: Disk + Net>(rt: &H, words: &VisitWords<'a>) -> Result<Meeting<'a>, Fault>
        ensures path { IfOk result (λ meeting. meeting.path.now ≡ words.now.file.now) }
    {
        let name = name_in(words.node);
        let token = read_secret(rt, words.token_file)?;
        let own = Own::read(rt, words.file)?;
        Ok(Meeting {
            path: words.file,
            own,
            caller: caller_of(rt, name, token.as_ref(), words.timeout)?,
        })
    }

    // Asks the node for its question, unless that has the own tag. There is none where neither lacks anything.
    fn ask<H: Disk + Net>(&mut self, rt: &H) -> Result<Option<Vec<u8>>, Fault>
        ensures path { self.new.path.now ≡ self.old.path.now }
    {
        let response = self.ask_by_tag(rt)?;
        let name = self.caller.name();
        if response.head.status == NOT_MODIFIED {
            if response.head.replica == Some(self.own.question.hello.own) {
                return Err(tell(rt, name, Trouble::Unfit(Fault::SameReplica)));
            }
            return Ok(None);
        }
        self.compare(rt, &response.head)?;
        match self.own.judge(rt, &response.body) {
            Ok(()) => Ok(Some(response.body)),
            Err(fault) => Err(tell(rt, name, Trouble::from(fault))),
        }
    }

    // Asks the node for its answer to the own question, and takes that into the file.
    fn bring<H: Disk + Net>(&mut self, rt: &H) -> Result<u128, Fault>
    where
        H::File: LockFile,
        ensures taken { IfOk result (IsBrought self.old.path.now) }
    {
        let question = encode_question(rt.alloc(), &self.own.question)?;
        let response = self.post(rt, Resource::Answer, &[&question])?;
        match take_file(rt, self.path, &question, &response.body) {
            Ok(done) => Ok(done.into_components()),
            Err(fault) => {
                let path = self.path;
                let _ = eprintln!(rt; "{path}: what was received isn't kept: {fault}");
                Err(fault)
            }
        }
    }

    // Gives the node the file's answer to its question, and asks it once more whether it lacks anything.
    fn give_back<H: Disk + Net>(&mut self, rt: &H, theirs: &[u8]) -> Result<(), Fault>
    where
        H::File: LockFile,
    {
        self.give(rt, theirs)?;
        self.own = Own::read(rt, self.path)?;
        let response = self.ask_by_tag(rt)?;
        self.compare(rt, &response.head)
    }

    // Gives the node the answer to its question: the length of the question in 4 bytes, big-endian, and both.
    fn give<H: Disk + Net>(&mut self, rt: &H, theirs: &[u8]) -> Result<(), Fault>
    where
        H::File: LockFile,
    {
        let answer = answer_file(rt, self.path, theirs)?.into_bytes();
        let Ok(length) = u32::try_from(theirs.len()) else {
            return Err(Fault::TooLong);
        };
        let length = length.to_be_bytes();
        self.post(rt, Resource::Take, &[&length, theirs, &answer])?;
        Ok(())
    }

    // Refuses a node that has seen the same as the file, and holds different entries.
    fn compare<H: Disk>(&self, rt: &H, head: &Head) -> Result<(), Fault> {
        match head.tag {
            Some(theirs) if self.own.tag.is_fork_of(&theirs) => {
                Standing::Forked.tell(rt, self.caller.name());
                Err(Fault::Forked)
            }
            _ => Ok(()),
        }
    }

    // Asks the node for its question, unless that has the own tag.
    fn ask_by_tag<H: Disk + Net>(&mut self, rt: &H) -> Result<Response, Fault>
        ensures path { self.new.path.now ≡ self.old.path.now }
    {
        let tag = tag_text(rt.alloc(), &self.own.tag)?;
        let request = Request {
            resource: Resource::Ask,
            path: "",
            unless: Some(tag.as_str()),
            pieces: &[],
        };
        self.call(rt, &request)
    }

    fn post<H: Disk + Net>(
        &mut self,
        rt: &H,
        resource: Resource,
        pieces: &[&[u8]],
    ) -> Result<Response, Fault>
        ensures path { self.new.path.now ≡ self.old.path.now }
    {
        let request = Request {
            resource,
            path: "",
            unless: None,
            pieces,
        };
        self.call(rt, &request)
    }

    // Makes a request, and answers the response where it was done, or where what is asked for has the tag.
    fn call<H: Disk + Net>(&mut self, rt: &H, request: &Request<'_>) -> Result<Response, Fault>
        ensures path { self.new.path.now ≡ self.old.path.now }
    {
        match self.caller.ask(rt, request) {
            Ok(response) => Ok(response),
            Err(trouble) => Err(trouble.fault()),
        }
    }
}
