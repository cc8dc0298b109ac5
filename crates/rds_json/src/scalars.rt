//! Scalars as JSON.
ghost use Rattle.std.specs.Prelude.{◌≡◌, ◌≢◌, None, Err};
ghost use Rattle.rds_json.specs.Scalar.{scalar_of};
ghost use Rattle.rds_names.specs.Gives.{Gives};
ghost use Rattle.rds_names.specs.declared.fault.Fault.TheVariants.{Memory};
ghost use Rattle.serde_json.specs.Find.{as_str};
ghost use Rattle.serde_json.specs.View.{view};

use rds_names::{Fault, Scalar};
use serde_json::Value;
use std::alloc::Global;

/// The scalar that a value of JSON is: null, a truth value, a whole number that fits an `i64`, or a text of at
/// most 1,024 bytes. Anything else is refused (`BadScalar`), as is a number that is written with a point, with an
/// exponent or as `-0`. Only a text wants memory.
pub fn scalar(alloc: Global, value: &Value) -> Result<Scalar, Fault>
    ensures scalar { Gives result (scalar_of (view value.now)) }
    ensures room { as_str (view value.now) ≡ None → result ≢ Err Memory }
{
    match value {
        Value::Null => Ok(Scalar::Null),
        Value::Bool(truth) => Ok(Scalar::Bool(*truth)),
        Value::Number(_) => match value.as_i64() {
            Some(number) => Ok(Scalar::Int(number)),
            None => Err(Fault::BadScalar),
        },
        Value::String(text) => Scalar::text(alloc, text.as_str()),
        Value::Array(_) | Value::Object(_) => Err(Fault::BadScalar),
    }
}
