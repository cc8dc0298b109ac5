//! Sessions, step by step.
use super::End;
use super::showing::{exchange_told, outcome_told};
use rds_dots::DotSet;
use rds_names::Fault;
use rds_session::{Ended, Exchanged, Input, Session};
use std::alloc::Global;

/// A session, what it has sent, and how it stands.
pub struct Course<'a, S: DotSet> {
    session: Session<'a, S>,
    sent: Vec<u8>,
    ended: Ended,
}

// Written out, so that where a course is let go a caller's proof has one call, and not a step for each part of its parts.
impl<'a, S: DotSet> Drop for Course<'a, S> {
    fn drop(self) {
        let Course {
            session: _session,
            sent: _sent,
            ended: _,
        } = self;
    }
}

impl<'a, S: DotSet> Course<'a, S> {
    /// A session that hasn't begun.
    pub fn new(alloc: Global, end: &'a End<S>) -> Course<'a, S> {
        Course {
            session: Session::new(end.side, &end.kept),
            sent: Vec::new(alloc),
            ended: Ended::Going,
        }
    }

    /// Takes a step.
    pub fn step(&mut self, alloc: Global, input: Input<'_>) -> Result<(), Fault> {
        let output = self.session.step(alloc, input);
        self.sent.extend_from_slice(&output.send)?;
        self.ended = output.ended;
        Ok(())
    }

    /// Hears the same bytes so often.
    pub fn hear_often(&mut self, alloc: Global, bytes: &[u8], count: u64) -> Result<(), Fault> {
        for _ in 0..count {
            self.step(alloc, Input::Bytes(bytes))?;
        }
        Ok(())
    }

    // Begins, and hears the bytes in pieces of this length.
    fn hear(&mut self, alloc: Global, bytes: &[u8], length: usize) -> Result<(), Fault> {
        self.step(alloc, Input::Bytes(&[]))?;
        for piece in bytes.chunks(length.max(1)) {
            self.step(alloc, Input::Bytes(piece))?;
        }
        Ok(())
    }

    /// What has come of it by now.
    pub fn told(&self, alloc: Global) -> Result<String, Fault> {
        let received = self.session.received();
        outcome_told(
            alloc,
            &self.sent,
            self.ended,
            received,
            self.session.roster(),
        )
    }

    /// What has come of it.
    pub fn into_told(self, alloc: Global) -> Result<String, Fault> {
        let Course {
            session,
            sent,
            ended,
        } = self;
        let exchanged = Exchanged::of(session, ended);
        exchange_told(alloc, &sent, &exchanged)
    }

    /// What it has sent.
    pub fn into_sent(self) -> Vec<u8> {
        let Course {
            session: _session,
            sent,
            ended: _,
        } = self;
        sent
    }
}

/// The session that has begun, and has heard the bytes in pieces of this length.
pub fn hear_in_pieces<'a, S: DotSet>(
    alloc: Global,
    end: &'a End<S>,
    bytes: &[u8],
    length: usize,
) -> Result<Course<'a, S>, Fault> {
    let mut course = Course::new(alloc, end);
    course.hear(alloc, bytes, length)?;
    Ok(course)
}
