//! What stands at a key of a view, as compact JSON.
ghost use Rattle.std.specs.Prelude.{◌≡◌, IfErr, IfOk, OnOk, string_bytes};
ghost use Rattle.rds_json.specs.Standing.{counter_standing, counter_data, standing_data, sum_standing, values_at};
ghost use Rattle.rds_json.specs.Written.{AddsTokens, data_tokens};
ghost use Rattle.rds_names.specs.declared.fault.Fault.TheVariants.{Memory};
ghost use Rattle.rds_tree.specs.Shown.{shown_view};
ghost use Rattle.serde_json.specs.Written.{compact_text};

use crate::writing::{text_of, write_scalars};
use json::Writer;
use rds_names::{Fault, Key, Scalar};
use rds_tree::{Sums, Values, View};
use std::alloc::{AllocError, Global};

/// What stands at a key of a view, as compact JSON: an object with the members "counter" (null where there is none),
/// "reg" and "set" (the values under the key, in the view's order).
pub fn show_at(alloc: Global, shape: &View, key: &Key) -> Result<String, Fault>
    ensures ok { IfOk result (λ text. string_bytes text ≡ compact_text (standing_data key.now (shown_view shape.now))) }
    ensures memory { IfErr result (λ fault. fault ≡ Memory) }
{
    let mut out = Writer::new(Vec::new(alloc));
    write_standing(&mut out, shape, key)?;
    text_of(out)
}

fn write_standing(out: &mut Writer, shape: &View, key: &Key) -> Result<(), AllocError>
    ensures ok { OnOk result (AddsTokens out.old out.new (data_tokens (standing_data key.now (shown_view shape.now)))) }
{
    out.begin_object()?;
    out.key("counter")?;
    write_counter(out, counter_at(&shape.counters, key))?;
    out.key("reg")?;
    write_scalars(out, values_at(&shape.regs, key))?;
    out.key("set")?;
    write_scalars(out, values_at(&shape.sets, key))?;
    out.end_object()
}

fn write_counter(out: &mut Writer, counter: Option<i64>) -> Result<(), AllocError>
    ensures ok { OnOk result (AddsTokens out.old out.new (data_tokens (counter_data counter))) }
{
    match counter {
        Some(number) => out.i64(number),
        None => out.null(),
    }
}

/// What the counter of a key stands at, where there are counters.
pub fn counter_at(counters: &Option<Sums>, key: &Key) -> Option<i64>
    ensures { result ≡ counter_standing key.now counters.now }
{
    match counters {
        Some(sums) => sum_at(sums, key),
        None => None,
    }
}

/// What the counter of a key stands at.
fn sum_at(sums: &Sums, key: &Key) -> Option<i64>
    ensures { result ≡ sum_standing key.now sums.now }
{
    let rows = sums.rows();
    for row in rows {
        if row.0 == *key {
            return Some(row.1);
        }
    }
    None
}

/// The values under a key.
pub fn values_at<'a>(values: &'a Values, key: &Key) -> &'a [Scalar]
    ensures { result.now ≡ values_at key.now values.now }
{
    let rows = values.rows();
    for row in rows {
        if row.0 == *key {
            return row.1.rows();
        }
    }
    &[]
}
