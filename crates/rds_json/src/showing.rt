//! Views as compact JSON.
ghost use Rattle.std.specs.Prelude.{◌≡◌, IfErr, IfOk, OnOk, string_bytes};
ghost use Rattle.rds_names.specs.declared.fault.Fault.TheVariants.{Memory};
ghost use Rattle.serde_json.specs.Data.{put};
ghost use Rattle.serde_json.specs.View.{members_view, view};
ghost use Rattle.serde_json.specs.Written.{compact_text};
ghost use Rattle.rds_tree.specs.Shown.{shown_view, maps_shown};
ghost use Rattle.rds_json.specs.Show.{IsPretty, scalar_data, scalars_data, values_data, sums_data, maps_data, data_of};

use crate::writing::{Stop, text_of, write_view};
use json::Writer;
use rds_names::{Fault, Key, Scalar};
use rds_tree::{Maps, Scalars, Sums, Values, View};
use serde_json::{Map, Value};
use std::alloc::Global;

pub(crate) fn put(
    alloc: Global,
    map: &mut Map<String, Value>,
    key: &str,
    value: Value,
) -> Result<(), Fault>
    ensures ok { OnOk result (members_view map.new.entries ≡ put key.now (view value) (members_view map.old.entries)) }
    ensures memory { IfErr result (λ fault. fault ≡ Memory) }
{
    let key = String::from_str(alloc, key)?;
    map.insert(key, value)?;
    Ok(())
}

fn scalar_value(alloc: Global, scalar: &Scalar) -> Result<Value, Fault>
    ensures ok { IfOk result (λ v. view v ≡ scalar_data scalar.now) }
    ensures memory { IfErr result (λ fault. fault ≡ Memory) }
{
    match scalar {
        Scalar::Null => Ok(Value::Null),
        Scalar::Bool(truth) => Ok(Value::Bool(*truth)),
        Scalar::Int(number) => Ok(Value::from(*number)),
        Scalar::Text(text) => Ok(Value::String(String::from_str(alloc, text.as_str())?)),
    }
}

fn scalars_value(alloc: Global, scalars: &[Scalar]) -> Result<Value, Fault>
    ensures ok { IfOk result (λ v. view v ≡ scalars_data scalars.now) }
    ensures memory { IfErr result (λ fault. fault ≡ Memory) }
{
    let mut items = Vec::new(alloc);
    for scalar in scalars {
        items.push(scalar_value(alloc, scalar)?)?;
    }
    Ok(Value::Array(items))
}

fn values_value(alloc: Global, rows: &[(Key, Scalars)]) -> Result<Value, Fault>
    ensures ok { IfOk result (λ v. view v ≡ values_data rows.now) }
    ensures memory { IfErr result (λ fault. fault ≡ Memory) }
{
    let mut map = Map::new(alloc);
    for row in rows {
        put(
            alloc,
            &mut map,
            row.0.as_str(),
            scalars_value(alloc, row.1.rows())?,
        )?;
    }
    Ok(Value::Object(map))
}

fn sums_value(alloc: Global, rows: &[(Key, i64)]) -> Result<Value, Fault>
    ensures ok { IfOk result (λ v. view v ≡ sums_data rows.now) }
    ensures memory { IfErr result (λ fault. fault ≡ Memory) }
{
    let mut map = Map::new(alloc);
    for row in rows {
        put(alloc, &mut map, row.0.as_str(), Value::from(row.1))?;
    }
    Ok(Value::Object(map))
}

#[cycle(showing)]
fn maps_value(alloc: Global, maps: &Maps) -> Result<Value, Fault>
    ensures ok { IfOk result (λ v. view v ≡ maps_data (maps_shown maps.now)) }
    ensures memory { IfErr result (λ fault. fault ≡ Memory) }
{
    let mut map = Map::new(alloc);
    let rows = maps.rows();
    for row in rows {
        put(alloc, &mut map, row.0.as_str(), view_value(alloc, &row.1)?)?;
    }
    Ok(Value::Object(map))
}

#[cycle(showing)]
fn view_value(alloc: Global, shape: &View) -> Result<Value, Fault>
    ensures ok { IfOk result (λ v. view v ≡ data_of (shown_view shape.now)) }
    ensures memory { IfErr result (λ fault. fault ≡ Memory) }
{
    let mut map = Map::new(alloc);
    if let Some(sums) = &shape.counters {
        put(alloc, &mut map, "counters", sums_value(alloc, sums.rows())?)?;
    }
    put(alloc, &mut map, "maps", maps_value(alloc, &shape.maps)?)?;
    put(
        alloc,
        &mut map,
        "regs",
        values_value(alloc, shape.regs.rows())?,
    )?;
    put(
        alloc,
        &mut map,
        "sets",
        values_value(alloc, shape.sets.rows())?,
    )?;
    Ok(Value::Object(map))
}

/// The view as compact JSON: an object with the members "counters" (at the root of the document alone), "maps", "regs"
/// and "sets". The keys ascend by their bytes, each with a view, an array of values in the view's order, or a sum;
/// `view` of `rds_tree` makes views in which these ascend too.
pub fn show(alloc: Global, view: &View) -> Result<String, Fault>
    ensures ok { IfOk result (λ text. string_bytes text ≡ compact_text (data_of (shown_view view.now))) }
    ensures memory { IfErr result (λ fault. fault ≡ Memory) }
{
    let mut out = Writer::new(Vec::new(alloc));
    match write_view(&mut out, view) {
        Ok(()) => text_of(out),
        Err(Stop::Memory) => Err(Fault::Memory),
        Err(Stop::Disorder) => show_sorted(alloc, view),
    }
}

/// The same of a view whose keys don't ascend, by a value that puts them in order.
fn show_sorted(alloc: Global, view: &View) -> Result<String, Fault>
    ensures ok { IfOk result (λ text. string_bytes text ≡ compact_text (data_of (shown_view view.now))) }
    ensures memory { IfErr result (λ fault. fault ≡ Memory) }
{
    let value = view_value(alloc, view)?;
    Ok(value.to_string(alloc)?)
}

/// The view as JSON on many lines, indented.
pub fn show_pretty(alloc: Global, view: &View) -> Result<String, Fault>
    ensures ok { IfOk result (λ text. IsPretty (string_bytes text) (data_of (shown_view view.now))) }
    ensures memory { IfErr result (λ fault. fault ≡ Memory) }
{
    let value = view_value(alloc, view)?;
    Ok(value.to_string_pretty(alloc)?)
}
