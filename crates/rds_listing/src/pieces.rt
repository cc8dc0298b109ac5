//! Lines, and the JSON that they are made of.
ghost use Rattle.std.specs.Prelude.{◌≡◌, ◌++◌, ◌∷◌, [], IfErr, IfOk, OnOk, string_bytes};
ghost use Rattle.std.specs.List.{join_with_byte};
ghost use Rattle.rds_json.specs.Show.{scalar_data};
ghost use Rattle.rds_names.specs.declared.fault.Fault.TheVariants.{Memory};
ghost use Rattle.serde_json.specs.View.{view};

use rds_names::{Fault, Key, Scalar};
use serde_json::Value;
use std::alloc::Global;

/// Adds a line and its newline.
pub fn push_line(text: &mut String, line: &str) -> Result<(), Fault>
    ensures text { OnOk result (string_bytes text.new ≡ string_bytes text.old ++ (line.now ++ 10 ∷ [])) }
    ensures memory { IfErr result (λ fault. fault ≡ Memory) }
{
    text.push_str(line)?;
    text.push_str("\n")?;
    Ok(())
}

/// The text of a path.
pub fn path_text(alloc: Global, keys: &[Key]) -> Result<String, Fault>
    ensures text { IfOk result (λ text. string_bytes text ≡ join_with_byte 47 keys.now) }
    ensures memory { IfErr result (λ fault. fault ≡ Memory) }
{
    let (first, rest) = match keys.split_first() {
        Some((first, rest)) => (first, rest),
        None => return Ok(String::new(alloc)),
    };
    let mut text = String::from_str(alloc, first.as_str())?;
    for key in rest {
        text.push_str("/")?;
        text.push_str(key.as_str())?;
    }
    Ok(text)
}

/// A value as JSON.
pub fn scalar_value(alloc: Global, scalar: &Scalar) -> Result<Value, Fault>
    ensures ok { IfOk result (λ v. view v ≡ scalar_data scalar.now) }
    ensures memory { IfErr result (λ fault. fault ≡ Memory) }
{
    match scalar {
        Scalar::Null => Ok(Value::Null),
        Scalar::Bool(truth) => Ok(Value::Bool(*truth)),
        Scalar::Int(number) => Ok(Value::from(*number)),
        Scalar::Text(text) => Ok(Value::String(String::from_str(alloc, text.as_str())?)),
    }
}
