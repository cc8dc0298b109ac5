//! An exchange with a peer, in which each brings the other what it lacks.
use crate::channels::Channel;
use crate::committed::Committed;
use crate::levels::Level;
use crate::patience::Wait;
use rds_client::{DONE, Destination, End, NOT_MODIFIED, Request, Resource, Response, Trouble};
use rds_fields::tag_text;
use rds_files::{Disk, LockFile};
use rds_http::{Lacks, Site};
use rds_names::Fault;
use rds_questions::Tag;
use std::alloc::Global;
use std::mem;
use std::time::Instant;

/// The status where a tag is of no question that the peer knows.
const PRECONDITION_FAILED: u16 = 412;

/// The status of a resource that an older node lacks.
const NOT_FOUND: u16 = 404;

/// Where an exchange stands.
#[derive(Drop)]
enum Step {
    /// None is under way.
    Resting,
    /// The peer is asked for its question.
    Asking,
    /// The peer is asked for its answer to the own question. Its own is kept where it lacks something too.
    Bringing {
        own: Vec<u8>,
        theirs: Option<Vec<u8>>,
    },
    /// The peer is given the answer to its question. Then it is as far as this node was.
    Giving {
        level: Option<Level>,
    },
    /// The peer is asked for the tag of its question, which was level with this node.
    Checking {
        level: Level,
    },
    /// The peer is asked for what came since it was level.
    Pulling(Pull),
    /// The peer is given what came here since it was level.
    Pushing(Push),
}

/// What goes on once a peer has told what came since it was level.
#[derive(Drop)]
struct Pull {
    level: Level,
    /// What came here since, where something did.
    answer: Option<Vec<u8>>,
    /// The own tag then.
    tag: Tag,
}

/// What is known once a peer has taken what came here since it was level.
#[derive(Drop)]
struct Push {
    level: Level,
    /// What both ask then, unless the peer was changed meanwhile.
    next: Option<Level>,
    /// Whether the peer had brought something before.
    brought: bool,
}

/// What hearing a peer came to.
#[derive(Clone, Copy, Debug, PartialEq, Eq)]
pub enum Progress {
    /// A part of an exchange. The peer may have brought what the document lacked.
    Part { brought: bool },
    /// The exchange ended. The peer may have brought what the document lacked.
    Ended { end: End, brought: bool },
    /// The peer ended the connection, which had served, while none was under way.
    Closed,
    /// The same, while an exchange began: no request of it was answered.
    InVain,
}

impl Progress {
    /// Nothing that others have to know.
    pub const NONE: Progress = Progress::Part { brought: false };
}

/// A connection with a peer, and the exchange over it.
#[derive(Drop)]
pub struct Exchange {
    alloc: Global,
    channel: Channel,
    step: Step,
    // The peer's number in its roster, where it told that.
    number: Option<u8>,
    // What both asked when they were level.
    level: Option<Level>,
    // The same of an earlier time, where the peer may not know the last one.
    earlier: Option<Level>,
    // Whether the peer may know what it asked by a tag.
    knows_tags: bool,
    // Whether an exchange over the connection was done.
    has_served: bool,
}

impl Exchange {
    /// Over a connection that was just made.
    pub fn new(alloc: Global, channel: Channel) -> Exchange {
        Exchange {
            alloc,
            channel,
            step: Step::Resting,
            number: None,
            level: None,
            earlier: None,
            knows_tags: true,
            has_served: false,
        }
    }

    /// Whether none is under way.
    pub fn is_resting(&self) -> bool {
        matches!(self.step, Step::Resting)
    }

    /// Whether the peer is to be heard again without an event.
    pub fn has_more(&self) -> bool {
        self.channel.has_more()
    }

    /// How much has come of a response that isn't whole, in bytes.
    pub fn room(&self) -> usize {
        self.channel.room()
    }

    /// How much of a request waits to be sent, in bytes.
    pub fn going(&self) -> usize {
        self.channel.going()
    }

    /// How long the peer may let wait, where it does.
    pub fn wait(&self) -> Option<Wait> {
        if self.is_resting() {
            None
        } else {
            Some(self.channel.wait())
        }
    }

    /// Begins an exchange: the peer is asked for its question, or for the tag of that where it was level. `Ended` where
    /// the peer takes no further request.
    pub fn begin<H: Disk>(
        &mut self,
        site: &mut Site<'_, H>,
        destination: &Destination<'_>,
        now: Instant,
    ) -> Result<(), Trouble>
    where
        H::File: LockFile,
    {
        let own = site.tag()?;
        match self.level.take() {
            Some(level) => {
                let tags = level.tags(self.alloc, own)?;
                self.look(destination, Resource::Tag, &tags, now)?;
                self.step = Step::Checking { level };
            }
            None => {
                let tag = tag_text(self.alloc, &own)?;
                self.look(destination, Resource::Ask, &tag, now)?;
                self.step = Step::Asking;
            }
        }
        Ok(())
    }

    // Asks for something, unless its tag is one of these.
    fn look(
        &mut self,
        destination: &Destination<'_>,
        resource: Resource,
        tags: &str,
        now: Instant,
    ) -> Result<(), Trouble> {
        let request = Request {
            resource,
            path: "",
            unless: Some(tags),
            pieces: &[],
        };
        self.channel.request(destination, &request, now)
    }

    /// Reads what the peer says, up to a limit, and goes on with what follows.
    pub fn hear<H: Disk>(
        &mut self,
        site: &mut Site<'_, H>,
        destination: &Destination<'_>,
        now: Instant,
    ) -> Result<Progress, Trouble>
    where
        H::File: LockFile,
    {
        match self.channel.hear(now) {
            Ok(Some(response)) => self.go_on(site, destination, response, now),
            Ok(None) => Ok(Progress::NONE),
            Err(trouble) => self.excuse(trouble),
        }
    }

    // Goes on with a response.
    fn go_on<H: Disk>(
        &mut self,
        site: &mut Site<'_, H>,
        destination: &Destination<'_>,
        response: Response,
        now: Instant,
    ) -> Result<Progress, Trouble>
    where
        H::File: LockFile,
    {
        let step = mem::replace(&mut self.step, Step::Resting);
        match (step, response.head.status) {
            (Step::Resting, DONE) => Ok(Progress::NONE),
            (Step::Asking, DONE) => self.compare(site, destination, response, now),
            (Step::Asking, NOT_MODIFIED) => self.agree(site, &response),
            (Step::Checking { level }, DONE | NOT_MODIFIED) => {
                self.check(site, destination, level, &response, now)
            }
            (Step::Bringing { own, theirs }, DONE) => {
                let brought = site.take(&own, &response.body)? != 0;
                self.give_back(site, destination, theirs, brought, now)
            }
            (Step::Pulling(pull), DONE) => {
                self.finish_pull(site, destination, pull, &response, now)
            }
            (Step::Giving { level }, DONE) => {
                self.level = level;
                Ok(self.end(End::Done, false))
            }
            (Step::Pushing(push), DONE) => {
                self.step_up(push.level, push.next);
                Ok(self.end(End::Done, push.brought))
            }
            (Step::Pulling(_) | Step::Pushing(_), PRECONDITION_FAILED) => {
                self.level = self.earlier.take();
                self.begin_again(site, destination, now)
            }
            (Step::Pulling(_) | Step::Pushing(_), NOT_FOUND) => {
                self.knows_tags = false;
                self.begin_again(site, destination, now)
            }
            _ => Err(Trouble::Refused(response)),
        }
    }

    // Begins again, where the peer doesn't know what was asked by a tag.
    fn begin_again<H: Disk>(
        &mut self,
        site: &mut Site<'_, H>,
        destination: &Destination<'_>,
        now: Instant,
    ) -> Result<Progress, Trouble>
    where
        H::File: LockFile,
    {
        self.begin(site, destination, now)?;
        Ok(Progress::NONE)
    }

    // Notes the peer's number. It may be this node's own replica, that runs elsewhere.
    fn note_number<H: Disk>(
        &mut self,
        site: &Site<'_, H>,
        response: &Response,
    ) -> Result<(), Trouble>
    where
        H::File: LockFile,
    {
        self.number = response.head.replica;
        if self.number == Some(site.own()) {
            return Err(Trouble::Unfit(Fault::SameReplica));
        }
        Ok(())
    }

    // The peer asks the same.
    fn agree<H: Disk>(
        &mut self,
        site: &mut Site<'_, H>,
        response: &Response,
    ) -> Result<Progress, Trouble>
    where
        H::File: LockFile,
    {
        self.note_number(site, response)?;
        if response.head.tag == Some(site.tag()?) {
            self.level = self.level_now(site)?;
        }
        Ok(self.end(End::Level, false))
    }

    // The peer and this node are as far as each other, where that can be told by a tag.
    fn level_now<H: Disk>(&self, site: &mut Site<'_, H>) -> Result<Option<Level>, Trouble>
    where
        H::File: LockFile,
    {
        match self.number {
            Some(number) if self.knows_tags => Level::of(site, number),
            _ => Ok(None),
        }
    }

    // Notes a level that the peer knows, and the next one, where it may be that.
    fn step_up(&mut self, level: Level, next: Option<Level>) {
        match next {
            Some(next) => {
                self.level = Some(next);
                self.earlier = Some(level);
            }
            None => self.level = Some(level),
        }
    }

    // A peer that was level tells the tag of what it asks now.
    fn check<H: Disk>(
        &mut self,
        site: &mut Site<'_, H>,
        destination: &Destination<'_>,
        level: Level,
        response: &Response,
        now: Instant,
    ) -> Result<Progress, Trouble>
    where
        H::File: LockFile,
    {
        self.note_number(site, response)?;
        let own = site.tag()?;
        let Some(theirs) = response.head.tag else {
            self.knows_tags = false;
            return self.begin_again(site, destination, now);
        };
        if own.is_fork_of(&theirs) {
            return Ok(self.end(End::Forked, false));
        }
        if theirs == own {
            self.level = if level.is_of(own) {
                Some(level)
            } else {
                self.level_now(site)?
            };
            return Ok(self.end(End::Level, false));
        }
        self.catch_up(site, destination, level, theirs, now)?;
        Ok(Progress::NONE)
    }

    // Gives the peer what came here since it was level, or asks it first for what came there.
    fn catch_up<H: Disk>(
        &mut self,
        site: &mut Site<'_, H>,
        destination: &Destination<'_>,
        level: Level,
        theirs: Tag,
        now: Instant,
    ) -> Result<(), Trouble>
    where
        H::File: LockFile,
    {
        let tag = site.tag()?;
        let answer = if level.is_of(tag) {
            None
        } else {
            Some(level.answer(site)?)
        };
        match answer {
            Some(answer) if level.is_of(theirs) => {
                let next = self.level_now(site)?;
                self.push(destination, &level, &answer, now)?;
                self.step = Step::Pushing(Push {
                    level,
                    next,
                    brought: false,
                });
            }
            answer => {
                self.pull(site, destination, &level, now)?;
                self.step = Step::Pulling(Pull { level, answer, tag });
            }
        }
        Ok(())
    }

    // Takes what came at the peer since it was level, and gives it what came here.
    fn finish_pull<H: Disk>(
        &mut self,
        site: &mut Site<'_, H>,
        destination: &Destination<'_>,
        pull: Pull,
        response: &Response,
        now: Instant,
    ) -> Result<Progress, Trouble>
    where
        H::File: LockFile,
    {
        let Pull { level, answer, tag } = pull;
        let is_all = site.tag()? == tag;
        let brought = level.take(site, &response.body)? != 0;
        let next = if is_all { self.level_now(site)? } else { None };
        match answer {
            None => {
                self.step_up(level, next);
                Ok(self.end(End::Done, brought))
            }
            Some(answer) => {
                self.push(destination, &level, &answer, now)?;
                self.step = Step::Pushing(Push {
                    level,
                    next,
                    brought,
                });
                Ok(Progress::NONE)
            }
        }
    }

    // Asks the peer for what came there since it was level: the tag, and the own number.
    fn pull<H: Disk>(
        &mut self,
        site: &Site<'_, H>,
        destination: &Destination<'_>,
        level: &Level,
        now: Instant,
    ) -> Result<(), Trouble>
    where
        H::File: LockFile,
    {
        let tag = level.tag_text(self.alloc)?;
        self.request(
            destination,
            Resource::Pull,
            &[tag.as_bytes(), &[site.own()]],
            now,
        )
    }

    // Gives the peer what came here since it was level: the tag, and the answer.
    fn push(
        &mut self,
        destination: &Destination<'_>,
        level: &Level,
        answer: &[u8],
        now: Instant,
    ) -> Result<(), Trouble> {
        let tag = level.tag_text(self.alloc)?;
        self.request(destination, Resource::Push, &[tag.as_bytes(), answer], now)
    }

    // Judges who asks, and goes on where one of the two lacks something.
    fn compare<H: Disk>(
        &mut self,
        site: &mut Site<'_, H>,
        destination: &Destination<'_>,
        response: Response,
        now: Instant,
    ) -> Result<Progress, Trouble>
    where
        H::File: LockFile,
    {
        self.number = response.head.replica;
        let lacks = site.lacks(&response.body)?;
        if let Some(theirs) = response.head.tag {
            if site.tag()?.is_fork_of(&theirs) {
                return Ok(self.end(End::Forked, false));
            }
        }
        self.meet(site, destination, lacks, response.body, now)
    }

    // Asks the peer for what is lacking here, or gives it what it lacks.
    fn meet<H: Disk>(
        &mut self,
        site: &mut Site<'_, H>,
        destination: &Destination<'_>,
        lacks: Lacks,
        theirs: Vec<u8>,
        now: Instant,
    ) -> Result<Progress, Trouble>
    where
        H::File: LockFile,
    {
        if !lacks.here && !lacks.there {
            self.level = self.level_now(site)?;
            return Ok(self.end(End::Level, false));
        }
        let theirs = if lacks.there { Some(theirs) } else { None };
        if !lacks.here {
            return self.give_back(site, destination, theirs, false, now);
        }
        let own = site.ask()?;
        self.request(destination, Resource::Answer, &[&own], now)?;
        self.step = Step::Bringing { own, theirs };
        Ok(Progress::NONE)
    }

    // Gives the peer what it lacks, where it lacks something.
    fn give_back<H: Disk>(
        &mut self,
        site: &mut Site<'_, H>,
        destination: &Destination<'_>,
        theirs: Option<Vec<u8>>,
        brought: bool,
        now: Instant,
    ) -> Result<Progress, Trouble>
    where
        H::File: LockFile,
    {
        let Some(theirs) = theirs else {
            self.level = self.level_now(site)?;
            return Ok(self.end(End::Done, brought));
        };
        self.give(site, destination, &theirs, now)?;
        Ok(Progress::Part { brought })
    }

    // Gives the peer the answer to its question: the length of the question in 4 bytes, big-endian, and both.
    fn give<H: Disk>(
        &mut self,
        site: &mut Site<'_, H>,
        destination: &Destination<'_>,
        theirs: &[u8],
        now: Instant,
    ) -> Result<(), Trouble>
    where
        H::File: LockFile,
    {
        let answer = site.answer(theirs)?;
        let Ok(length) = u32::try_from(theirs.len()) else {
            return Err(Trouble::TooLong);
        };
        let length = length.to_be_bytes();
        self.request(
            destination,
            Resource::Take,
            &[&length, theirs, &answer],
            now,
        )?;
        self.step = Step::Giving {
            level: self.level_now(site)?,
        };
        Ok(())
    }

    fn request(
        &mut self,
        destination: &Destination<'_>,
        resource: Resource,
        pieces: &[&[u8]],
        now: Instant,
    ) -> Result<(), Trouble> {
        let request = Request {
            resource,
            path: "",
            unless: None,
            pieces,
        };
        self.channel.request(destination, &request, now)
    }

    fn end(&mut self, end: End, brought: bool) -> Progress {
        self.has_served = true;
        Progress::Ended { end, brought }
    }

    // A peer may end a connection that has served, while no request of a further exchange was answered over it.
    fn excuse(&self, trouble: Trouble) -> Result<Progress, Trouble> {
        let has_ended = matches!(trouble, Trouble::Ended | Trouble::System(_));
        if !has_ended || !self.has_served {
            return Err(trouble);
        }
        match self.step {
            Step::Resting => Ok(Progress::Closed),
            Step::Asking | Step::Checking { .. } if !self.channel.is_answered() => {
                Ok(Progress::InVain)
            }
            _ => Err(trouble),
        }
    }

    /// Sends what waits.
    pub fn send<H: Disk>(&mut self, committed: &Committed<'_, '_, H>, now: Instant) {
        self.channel.send(committed, now);
    }
}
