//! Values of JSON that own what they hold, of those that were read from a text.
ghost use Rattle.std.specs.Prelude.{◌≡◌, ◌⊎◌, Some, None, IfErr, IfOk};
ghost use Rattle.json.specs.Value as borrowed;
ghost use Rattle.rds_names.specs.declared.fault.Fault.TheVariants.{BadLine, Memory};
ghost use Rattle.serde_json.specs.Data.{no_members};
ghost use Rattle.serde_json.specs.Read.{of_items, of_json, of_members};
ghost use Rattle.serde_json.specs.View.{items_view, members_view, view};

use crate::numbers::number_of;
use crate::showing::put;
use json::Value as Borrowed;
use rds_names::Fault;
use serde_json::{Map, Value};
use std::alloc::Global;

/// The value that owns what a borrowed one has: of a key that comes twice it has the last value. It is `BadLine` where
/// a number is too large for a float.
#[cycle(owning)]
pub(crate) fn owned(alloc: Global, value: &Borrowed<'_>) -> Result<Value, Fault>
    ensures ok { IfOk result (λ v. of_json (borrowed.value_view value.now) ≡ Some (view v)) }
    ensures err { IfErr result (λ fault. (fault ≡ Memory)
        ⊎ ((fault ≡ BadLine) × (of_json (borrowed.value_view value.now) ≡ None))) }
{
    match value {
        Borrowed::Null => Ok(Value::Null),
        Borrowed::Bool(truth) => Ok(Value::Bool(*truth)),
        Borrowed::Number(text) => match number_of(text) {
            Some(number) => Ok(Value::Number(number)),
            None => Err(Fault::BadLine),
        },
        Borrowed::String(text) => Ok(Value::String(String::from_str(alloc, text)?)),
        Borrowed::Array(items) => Ok(Value::Array(owned_items(alloc, items)?)),
        Borrowed::Object(members) => Ok(Value::Object(owned_members(alloc, members)?)),
    }
}

#[cycle(owning)]
fn owned_items(alloc: Global, items: &[Borrowed<'_>]) -> Result<Vec<Value>, Fault>
    ensures ok { IfOk result (λ found. of_items (borrowed.items_view items.now) ≡ Some (items_view found.items)) }
    ensures err { IfErr result (λ fault. (fault ≡ Memory)
        ⊎ ((fault ≡ BadLine) × (of_items (borrowed.items_view items.now) ≡ None))) }
{
    let mut found = Vec::new(alloc);
    for item in items {
        found.push(owned(alloc, item)?)?;
    }
    Ok(found)
}

#[cycle(owning)]
fn owned_members(
    alloc: Global,
    members: &[(&str, Borrowed<'_>)],
) -> Result<Map<String, Value>, Fault>
    ensures ok { IfOk result
        (λ found. of_members (borrowed.members_view members.now) no_members ≡ Some (members_view found.entries)) }
    ensures err { IfErr result (λ fault. (fault ≡ Memory)
        ⊎ ((fault ≡ BadLine) × (of_members (borrowed.members_view members.now) no_members ≡ None))) }
{
    let mut found = Map::new(alloc);
    for member in members {
        put(alloc, &mut found, member.0, owned(alloc, &member.1)?)?;
    }
    Ok(found)
}
