//! What a node tells of a change, as a text of JSON, and which part of its document that is of.
ghost use Rattle.std.specs.Prelude.{◌≡◌, ◌||◌};
ghost use Rattle.std.specs.List.{starts_with};
ghost use Rattle.std.specs.Str.{bytes_eq};

use crate::troubles::Trouble;
use rds_names::{Fault, Path};
use serde_json::Value;
use std::alloc::Global;

/// Whether a text tells of a change at a path, below it or above it. Where it names no paths, any may have changed. `Foreign`
/// where no node tells it.
pub fn is_of_part(alloc: Global, text: &str, part: &Path) -> Result<bool, Trouble> {
    let value = value_in(alloc, text)?;
    let Some(paths) = value.get("paths") else {
        return Err(Trouble::Foreign);
    };
    if part.is_empty() || paths.is_null() {
        return Ok(true);
    }
    let Some(paths) = paths.as_array() else {
        return Err(Trouble::Foreign);
    };
    for path in paths {
        if is_near(&path_in(alloc, path)?, part) {
            return Ok(true);
        }
    }
    Ok(false)
}

// The value of JSON that stands in a line.
fn value_in(alloc: Global, text: &str) -> Result<Value, Trouble> {
    if text.as_bytes().iter().any(u8::is_ascii_control) {
        return Err(Trouble::Foreign);
    }
    match Value::from_str(alloc, text) {
        Ok(value) => Ok(value),
        Err(error) if error.is_memory() => Err(Trouble::Memory),
        Err(_) => Err(Trouble::Foreign),
    }
}

// The path that a value is, as a text.
fn path_in(alloc: Global, value: &Value) -> Result<Path, Trouble> {
    let Some(text) = value.as_str() else {
        return Err(Trouble::Foreign);
    };
    match Path::new(alloc, text) {
        Ok(path) => Ok(path),
        Err(Fault::Memory) => Err(Trouble::Memory),
        Err(_) => Err(Trouble::Foreign),
    }
}

// Whether one of two paths is the other, or lies below it.
fn is_near(a: &Path, b: &Path) -> bool
    ensures { result ≡ (starts_with bytes_eq a.now b.now || starts_with bytes_eq b.now a.now) }
{
    a.begins_with(b) || b.begins_with(a)
}
