//! Events as words.
use rds_json::{Line, LineReader};
use rds_names::{Fault, Name};
use rds_rows::words::{first, number, small};
use rds_state::Command;
use rds_world::Event;
use std::alloc::Global;

/// The event that words are. An edit's command is a line of JSON, whose name is not looked at.
pub fn event(alloc: Global, words: &str) -> Result<Event, Fault> {
    let (word, rest) = first(words);
    match word {
        "edit" => edit(alloc, rest),
        "save" => Ok(Event::Save(small(rest)?)),
        "crash" => Ok(Event::Crash(small(rest)?)),
        "ask" => Ok(Event::Ask(small(rest)?)),
        "answer" => answer(rest),
        "take" => Ok(Event::Take(number(rest)?)),
        "grow" => grow(rest),
        _ => Err(Fault::Usage),
    }
}

fn edit(alloc: Global, words: &str) -> Result<Event, Fault> {
    let (replica, line) = first(words);
    let replica = small(replica)?;
    let command = command_in(LineReader::new(alloc).command(alloc, line)?)?;
    Ok(Event::Edit(replica, command))
}

fn command_in(line: Line) -> Result<Command, Fault> {
    match line {
        Line::Edit(_, command) => Ok(command),
        _ => Err(Fault::Usage),
    }
}

fn answer(words: &str) -> Result<Event, Fault> {
    let (replica, ask) = first(words);
    Ok(Event::Answer(small(replica)?, number(ask)?))
}

fn grow(words: &str) -> Result<Event, Fault> {
    let (replica, name) = first(words);
    Ok(Event::Grow(small(replica)?, Name::new(name)?))
}
