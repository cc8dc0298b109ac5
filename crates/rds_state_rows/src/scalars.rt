//! Scalars as words.
use rds_names::{Fault, Scalar};
use std::alloc::Global;

/// The scalar that a word is: a whole number, `null`, `true` or `false`, else a text.
pub fn scalar(alloc: Global, word: &str) -> Result<Scalar, Fault> {
    match word {
        "null" => Ok(Scalar::Null),
        "true" => Ok(Scalar::Bool(true)),
        "false" => Ok(Scalar::Bool(false)),
        _ => integer_or_text(alloc, word),
    }
}

fn integer_or_text(alloc: Global, word: &str) -> Result<Scalar, Fault> {
    match word.parse::<i64>() {
        Ok(number) => Ok(Scalar::Int(number)),
        Err(_) => Scalar::text(alloc, word),
    }
}

/// The word of a scalar.
pub fn scalar_word(alloc: Global, scalar: &Scalar) -> Result<String, Fault> {
    match scalar {
        Scalar::Null => Ok(String::from_str(alloc, "null")?),
        Scalar::Bool(truth) => Ok(truth.to_string(alloc)?),
        Scalar::Int(number) => Ok(number.to_string(alloc)?),
        Scalar::Text(text) => Ok(String::from_str(alloc, text.as_str())?),
    }
}
