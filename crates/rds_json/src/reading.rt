//! What a line asks for.
ghost use Rattle.rds_json.specs.Line.{line_by, line_in};
ghost use Rattle.rds_json.specs.MayGive.{MayGive};
ghost use Rattle.serde_json.specs.View.{view};

use crate::edits::edit_line;
use crate::line::Line;
use crate::members::text_at;
use crate::parts::{answer_at, growth_at, number_alone, place_at, replica_at};
use crate::roster::roster_at;
use crate::verb::{Verb, verb_of};
use rds_names::Fault;
use serde_json::Value;
use std::alloc::Global;

/// What a line asks for, of the value that it is.
pub(crate) fn line_in(alloc: Global, line: &Value) -> Result<Line, Fault>
    ensures { MayGive result (line_in (view line.now)) }
{
    let word = match text_at(line, 0) {
        Some(word) => word,
        None => return Err(Fault::BadLine),
    };
    match verb_of(word) {
        Some(verb) => line_by(alloc, verb, line),
        None => Err(Fault::BadLine),
    }
}

fn line_by(alloc: Global, verb: Verb, line: &Value) -> Result<Line, Fault>
    ensures { MayGive result (line_by verb (view line.now)) }
{
    match verb {
        Verb::Roster => Ok(Line::Roster(roster_at(alloc, line)?)),
        Verb::Edit(verb) => edit_line(alloc, verb, line),
        Verb::Save => Ok(Line::Save(replica_at(line)?)),
        Verb::Crash => Ok(Line::Crash(replica_at(line)?)),
        Verb::Ask => Ok(Line::Ask(replica_at(line)?)),
        Verb::Answer => {
            let at = answer_at(line)?;
            Ok(Line::Answer(at.name, at.ask))
        }
        Verb::Take => Ok(Line::Take(number_alone(line)?)),
        Verb::Grow => {
            let at = growth_at(line)?;
            Ok(Line::Grow(at.name, at.newcomer))
        }
        Verb::Show => {
            let at = place_at(alloc, line)?;
            Ok(Line::Show(at.name, at.path))
        }
    }
}
