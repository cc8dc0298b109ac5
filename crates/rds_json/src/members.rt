//! The members of an array of JSON.
ghost use Rattle.std.specs.Prelude.{◌≡◌, option_map};
ghost use Rattle.rds_json.specs.Members.{member_count, number_member, text_member};
ghost use Rattle.serde_json.specs.View.{view};

use serde_json::Value;

/// How many members there are; what is no array has none.
pub fn member_count(value: &Value) -> usize
    ensures { result ≡ member_count (view value.now) }
{
    match value.as_array() {
        Some(members) => members.len(),
        None => 0,
    }
}

/// The text at a place, of which the first is 0.
pub fn text_at(value: &Value, place: usize) -> Option<&str>
    ensures { option_map (λ s. s.now) result ≡ text_member place (view value.now) }
{
    value.get(place).and_then(Value::as_str)
}

/// The whole number at a place that fits 64 bits.
pub fn number_at(value: &Value, place: usize) -> Option<u64>
    ensures { result ≡ number_member place (view value.now) }
{
    value.get(place).and_then(Value::as_u64)
}
