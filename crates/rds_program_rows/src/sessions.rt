//! Rows of sessions. Each is of one end: which side it is, what it has kept, and what it hears of its peer.
mod exchanges;
mod named;
mod outcomes;
mod showing;
mod steps;
mod ways;

use exchanges::exchange_once;
use named::{Named, repeated};
use outcomes::Outcomes;
use rds_answers::values_are_least;
use rds_dots::DotSet;
use rds_keep::{Kept, Reading, read_snapshot};
use rds_names::Fault;
use rds_rows::Table;
use rds_rows::told::said;
use rds_rows::words::first;
use rds_session::{
    Input, Side, Version, a_course_is_by_messages, a_server_speaks_its_clients_version,
    a_step_of_a_session_has_one_result, limit_of_messages, streams_are_split_once, two_sessions,
};
use showing::chunks_told;
use std::alloc::Global;
use std::marker::PhantomData;
use steps::{Course, hear_in_pieces};
use ways::{each_outcome, way_of};

/// One end of a session.
#[derive(Drop)]
pub struct End<S: DotSet> {
    pub side: Side,
    pub kept: Kept<S>,
}

/// What rows of sessions have named; the sessions keep sets of dots as `S`.
#[derive(Drop)]
pub struct Sessions<S: DotSet> {
    named: Named,
    sets: PhantomData<S>,
}

impl<S: DotSet> Table for Sessions<S> {
    fn answer(&mut self, alloc: Global, word: &str, rest: &str) -> Result<String, Fault> {
        match word {
            "bytes" => {
                let (name, words) = first(rest);
                self.named.name(alloc, name, words)
            }
            "laws" => laws(alloc),
            _ => self.meet(alloc, word, rest),
        }
    }
}

impl<S: DotSet> Sessions<S> {
    /// Nothing is named.
    pub fn new(alloc: Global) -> Sessions<S> {
        Sessions {
            named: Named::new(alloc),
            sets: PhantomData,
        }
    }

    // A row whose words are the side, what it has kept, and what it hears.
    fn meet(&self, alloc: Global, word: &str, rest: &str) -> Result<String, Fault> {
        let (side, rest) = first(rest);
        let (kept, words) = first(rest);
        let end = self.end(alloc, side, kept)?;
        match word {
            "steps" => self.step_by_step(alloc, &end, words),
            "exchange" => exchange_once(alloc, &end, &self.named, words),
            _ => self.listen(alloc, &end, word, words),
        }
    }

    fn end(&self, alloc: Global, side: &str, kept: &str) -> Result<End<S>, Fault> {
        let side = side_of(side)?;
        let snapshot = self.named.bytes_of(alloc, kept)?;
        let kept = read_snapshot(alloc, &mut Reading::new(snapshot.as_slice()))?;
        Ok(End { side, kept })
    }

    // A row behind whose kept replica stands all that is heard.
    fn listen(
        &self,
        alloc: Global,
        end: &End<S>,
        word: &str,
        words: &str,
    ) -> Result<String, Fault> {
        let heard = self.named.bytes_of(alloc, words)?;
        match word {
            "chunks" => chunks_sent(alloc, end, &heard),
            _ => each_outcome(alloc, end, &heard, way_of(word)?),
        }
    }

    // A step for each word, and what has come of the session after it.
    fn step_by_step(&self, alloc: Global, end: &End<S>, words: &str) -> Result<String, Fault> {
        let mut course = Course::new(alloc, end);
        let mut outcomes = Outcomes::new(alloc);
        let mut steps = 0u64;
        for word in words.split_whitespace() {
            steps = steps.saturating_add(1);
            let outcome = self.outcome_of(alloc, &mut course, word)?;
            outcomes.note(steps, outcome)?;
        }
        Ok(outcomes.into_lines())
    }

    // What has come of the session after the steps of a word.
    fn outcome_of(
        &self,
        alloc: Global,
        course: &mut Course<'_, S>,
        word: &str,
    ) -> Result<String, Fault> {
        self.take_steps(alloc, course, word)?;
        course.told(alloc)
    }

    fn take_steps(
        &self,
        alloc: Global,
        course: &mut Course<'_, S>,
        word: &str,
    ) -> Result<(), Fault> {
        if word == "end" {
            return course.step(alloc, Input::End);
        }
        let (word, count) = repeated(word)?;
        let piece = self.named.part(alloc, word)?;
        course.hear_often(alloc, &piece, count)
    }
}

/// The side that a word names.
pub fn side_of(word: &str) -> Result<Side, Fault> {
    match word {
        "client" => Ok(Side::Client {
            version: Version::Two,
        }),
        "client_3" => Ok(Side::Client {
            version: Version::Three,
        }),
        "client_4" => Ok(Side::Client {
            version: Version::Four,
        }),
        "client_5" => Ok(Side::Client {
            version: Version::Five,
        }),
        "server" => Ok(Side::Server),
        _ => Err(Fault::Usage),
    }
}

// The lengths of the chunks that the session sends where it hears all at once.
fn chunks_sent<S: DotSet>(alloc: Global, end: &End<S>, heard: &[u8]) -> Result<String, Fault> {
    let course = hear_in_pieces(alloc, end, heard, heard.len())?;
    let sent = course.into_sent();
    chunks_told(alloc, &sent)
}

// The laws have no answer: their contracts are proved.
fn laws(alloc: Global) -> Result<String, Fault> {
    streams_are_split_once();
    a_course_is_by_messages();
    a_step_of_a_session_has_one_result();
    two_sessions();
    a_server_speaks_its_clients_version();
    values_are_least();
    limit_of_messages();
    said(alloc, "called")
}
