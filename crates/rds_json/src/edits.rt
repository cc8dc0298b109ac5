//! Lines that edit a replica.
ghost use Rattle.rds_json.specs.Line.{edit_line};
ghost use Rattle.rds_json.specs.MayGive.{MayGive};
ghost use Rattle.serde_json.specs.View.{view};

use crate::line::Line;
use crate::parts::{counter_at, place_at, value_at};
use crate::verb::EditVerb;
use rds_names::Fault;
use rds_state::Command;
use serde_json::Value;
use std::alloc::Global;

/// The edit that a line asks for which begins with this word.
pub fn edit_line(alloc: Global, verb: EditVerb, line: &Value) -> Result<Line, Fault>
    ensures { MayGive result (edit_line verb (view line.now)) }
{
    match verb {
        EditVerb::Set => {
            let at = value_at(alloc, line)?;
            Ok(Line::Edit(at.name, Command::Set(at.path, at.value)))
        }
        EditVerb::Add => {
            let at = value_at(alloc, line)?;
            Ok(Line::Edit(at.name, Command::Add(at.path, at.value)))
        }
        EditVerb::Del => {
            let at = value_at(alloc, line)?;
            Ok(Line::Edit(at.name, Command::Del(at.path, at.value)))
        }
        EditVerb::Clear => {
            let at = place_at(alloc, line)?;
            Ok(Line::Edit(at.name, Command::Clear(at.path)))
        }
        EditVerb::Inc => {
            let at = counter_at(alloc, line)?;
            Ok(Line::Edit(at.name, Command::Inc(at.key, at.by)))
        }
        EditVerb::Dec => {
            let at = counter_at(alloc, line)?;
            Ok(Line::Edit(at.name, Command::Dec(at.key, at.by)))
        }
    }
}
