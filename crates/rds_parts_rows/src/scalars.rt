//! Rows on the values at the leaves.
use crate::words::text;
use rds_names::{Fault, Scalar};
use rds_rows::told::{said, said_if};
use std::alloc::Global;

/// Answers a row on values.
pub fn answer(alloc: Global, asked: &str, rest: &str) -> Result<String, Fault> {
    match asked {
        "new" => shown(alloc, &scalar(alloc, rest)?),
        "copy" => copied(alloc, rest),
        "order" => order(alloc, rest),
        _ => Err(Fault::Usage),
    }
}

/// The value that is written: `null`, `false`, `true`, an integer or a text between quotes.
pub fn scalar(alloc: Global, written: &str) -> Result<Scalar, Fault> {
    match written {
        "null" => Ok(Scalar::Null),
        "false" => Ok(Scalar::Bool(false)),
        "true" => Ok(Scalar::Bool(true)),
        _ if written.starts_with('"') => Scalar::text(alloc, text(alloc, written)?.as_str()),
        _ => Ok(Scalar::Int(integer(written)?)),
    }
}

/// An integer.
pub fn integer(word: &str) -> Result<i64, Fault> {
    word.parse::<i64>().map_err(|_| Fault::Usage)
}

/// The value as rows write it.
pub fn shown(alloc: Global, scalar: &Scalar) -> Result<String, Fault> {
    match scalar {
        Scalar::Null => said(alloc, "null"),
        Scalar::Bool(value) => Ok(format!(in alloc; "{value}")?),
        Scalar::Int(value) => Ok(format!(in alloc; "{value}")?),
        Scalar::Text(text) => {
            let text = text.as_str();
            Ok(format!(in alloc; "\"{text}\"")?)
        }
    }
}

/// Whether a copy equals its value.
fn copied(alloc: Global, rest: &str) -> Result<String, Fault> {
    let value = scalar(alloc, rest)?;
    let copy = value.copy(alloc)?;
    said_if(alloc, copy.same(&value))
}

/// How each of the values stands to each, in a line for each.
fn order(alloc: Global, rest: &str) -> Result<String, Fault> {
    let values = scalars(alloc, rest)?;
    let mut lines = String::new(alloc);
    for value in &values {
        lines.push_str(if lines.is_empty() { "" } else { "\n  " })?;
        push_signs(&mut lines, value, &values)?;
    }
    Ok(lines)
}

fn scalars(alloc: Global, rest: &str) -> Result<Vec<Scalar>, Fault> {
    let mut values = Vec::new(alloc);
    for word in rest.split(' ') {
        values.push(scalar(alloc, word)?)?;
    }
    Ok(values)
}

fn push_signs(line: &mut String, value: &Scalar, others: &[Scalar]) -> Result<(), Fault> {
    for other in others {
        line.push(sign(value, other))?;
    }
    Ok(())
}

/// How two values stand to each other; '?' where they are both equal and in order.
fn sign(value: &Scalar, other: &Scalar) -> char {
    match (value < other, value.same(other)) {
        (true, true) => '?',
        (true, false) => '<',
        (false, true) => '=',
        (false, false) => '>',
    }
}
