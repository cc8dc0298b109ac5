//! Views as compact JSON, a token at a time.
ghost use Rattle.std.specs.Prelude.{◌≡◌, ◌∷◌, [], IfErr, IfOk, IsTrue, OnOk, string_bytes};
ghost use Rattle.json.specs.Token.{begin_object};
ghost use Rattle.rds_json.specs.Show.{scalar_data, scalars_data, sums_data, values_data, maps_data, data_of};
ghost use Rattle.rds_json.specs.Written.{AddsTokens, KeysAscend, TellsTokens, counters_tokens, data_tokens};
ghost use Rattle.rds_names.specs.declared.fault.Fault.TheVariants.{Memory};
ghost use Rattle.rds_tree.specs.Shown.{maps_shown, shown_view};

use json::Writer;
use rds_names::{Fault, Key, Scalar};
use rds_tree::{Maps, Scalars, Sums, View};
use std::alloc::AllocError;

/// Why a view isn't written.
#[derive(Debug, Drop)]
pub(crate) enum Stop {
    /// There is no memory.
    Memory,
    /// Keys don't ascend.
    Disorder,
}

impl From<AllocError> for Stop {
    fn from(_error: AllocError) -> Stop {
        Stop::Memory
    }
}

/// The text of what is written.
pub(crate) fn text_of(out: Writer) -> Result<String, Fault>
    requires { out.before ≡ [] }
    ensures ok { IfOk result (λ text. TellsTokens (string_bytes text) out.tokens) }
    ensures memory { IfErr result (λ fault. fault ≡ Memory) }
{
    match String::from_utf8(out.into_inner()) {
        Ok(text) => Ok(text),
        Err(_) => unreachable!(),
    }
}

pub(crate) fn write_scalar(out: &mut Writer, scalar: &Scalar) -> Result<(), AllocError>
    ensures ok { OnOk result (AddsTokens out.old out.new (data_tokens (scalar_data scalar.now))) }
{
    match scalar {
        Scalar::Null => out.null(),
        Scalar::Bool(truth) => out.boolean(*truth),
        Scalar::Int(number) => out.i64(*number),
        Scalar::Text(text) => out.string(text.as_str()),
    }
}

pub(crate) fn write_scalars(out: &mut Writer, scalars: &[Scalar]) -> Result<(), AllocError>
    ensures ok { OnOk result (AddsTokens out.old out.new (data_tokens (scalars_data scalars.now))) }
{
    out.begin_array()?;
    for scalar in scalars {
        write_scalar(out, scalar)?;
    }
    out.end_array()
}

/// Whether each key is below the next.
fn ascend<V>(rows: &[(Key, V)]) -> bool
    ensures { IsTrue result → KeysAscend rows.now }
{
    rows.is_sorted_by(|lower, upper| lower.0 < upper.0)
}

/// Begins the object of rows, whose keys have to ascend.
fn begin_rows<V>(out: &mut Writer, rows: &[(Key, V)]) -> Result<(), Stop>
    ensures ascend { OnOk result (KeysAscend rows.now) }
    ensures ok { OnOk result (AddsTokens out.old out.new (begin_object ∷ [])) }
{
    if !ascend(rows) {
        return Err(Stop::Disorder);
    }
    out.begin_object()?;
    Ok(())
}

fn write_values(out: &mut Writer, rows: &[(Key, Scalars)]) -> Result<(), Stop>
    ensures ok { OnOk result (AddsTokens out.old out.new (data_tokens (values_data rows.now))) }
{
    begin_rows(out, rows)?;
    for row in rows {
        out.key(row.0.as_str())?;
        write_scalars(out, row.1.rows())?;
    }
    out.end_object()?;
    Ok(())
}

fn write_sums(out: &mut Writer, rows: &[(Key, i64)]) -> Result<(), Stop>
    ensures ok { OnOk result (AddsTokens out.old out.new (data_tokens (sums_data rows.now))) }
{
    begin_rows(out, rows)?;
    for row in rows {
        out.key(row.0.as_str())?;
        out.i64(row.1)?;
    }
    out.end_object()?;
    Ok(())
}

fn write_counters(out: &mut Writer, counters: &Option<Sums>) -> Result<(), Stop>
    ensures ok { OnOk result (AddsTokens out.old out.new (counters_tokens counters.now)) }
{
    if let Some(sums) = counters {
        out.key("counters")?;
        write_sums(out, sums.rows())?;
    }
    Ok(())
}

#[cycle(write_view)]
fn write_maps(out: &mut Writer, maps: &Maps) -> Result<(), Stop>
    ensures ok { OnOk result (AddsTokens out.old out.new (data_tokens (maps_data (maps_shown maps.now)))) }
{
    let rows = maps.rows();
    begin_rows(out, rows)?;
    for row in rows {
        out.key(row.0.as_str())?;
        write_view(out, &row.1)?;
    }
    out.end_object()?;
    Ok(())
}

/// Writes a view whose keys ascend.
#[cycle(write_view)]
pub(crate) fn write_view(out: &mut Writer, shape: &View) -> Result<(), Stop>
    ensures ok { OnOk result (AddsTokens out.old out.new (data_tokens (data_of (shown_view shape.now)))) }
{
    out.begin_object()?;
    write_counters(out, &shape.counters)?;
    out.key("maps")?;
    write_maps(out, &shape.maps)?;
    out.key("regs")?;
    write_values(out, shape.regs.rows())?;
    out.key("sets")?;
    write_values(out, shape.sets.rows())?;
    out.end_object()?;
    Ok(())
}
