//! Texts, values and names as compact JSON.
ghost use Rattle.std.specs.Prelude.{◌≡◌, IfErr, IfOk, OnOk, string_bytes};
ghost use Rattle.rds_json.specs.Show.{scalar_data, scalars_data};
ghost use Rattle.rds_json.specs.Texts.{texts_data};
ghost use Rattle.rds_json.specs.Written.{AddsTokens, data_tokens};
ghost use Rattle.rds_names.specs.declared.fault.Fault.TheVariants.{Memory};
ghost use Rattle.serde_json.specs.Data.{string};
ghost use Rattle.serde_json.specs.Written.{compact_text};

use crate::writing::{text_of, write_scalar, write_scalars};
use json::Writer;
use rds_names::{Fault, Name, Scalar};
use std::alloc::{AllocError, Global};

/// A text as JSON.
pub fn show_text(alloc: Global, text: &str) -> Result<String, Fault>
    ensures ok { IfOk result (λ shown. string_bytes shown ≡ compact_text (string text.now)) }
    ensures memory { IfErr result (λ fault. fault ≡ Memory) }
{
    let mut out = Writer::new(Vec::new(alloc));
    out.string(text)?;
    text_of(out)
}

/// A value as JSON.
pub fn show_scalar(alloc: Global, scalar: &Scalar) -> Result<String, Fault>
    ensures ok { IfOk result (λ shown. string_bytes shown ≡ compact_text (scalar_data scalar.now)) }
    ensures memory { IfErr result (λ fault. fault ≡ Memory) }
{
    let mut out = Writer::new(Vec::new(alloc));
    write_scalar(&mut out, scalar)?;
    text_of(out)
}

/// Values as an array of JSON.
pub fn show_scalars(alloc: Global, scalars: &[Scalar]) -> Result<String, Fault>
    ensures ok { IfOk result (λ shown. string_bytes shown ≡ compact_text (scalars_data scalars.now)) }
    ensures memory { IfErr result (λ fault. fault ≡ Memory) }
{
    let mut out = Writer::new(Vec::new(alloc));
    write_scalars(&mut out, scalars)?;
    text_of(out)
}

/// Names as an array of JSON.
pub fn show_names(alloc: Global, names: &[Name]) -> Result<String, Fault>
    ensures ok { IfOk result (λ shown. string_bytes shown ≡ compact_text (texts_data names.now)) }
    ensures memory { IfErr result (λ fault. fault ≡ Memory) }
{
    let mut out = Writer::new(Vec::new(alloc));
    write_names(&mut out, names)?;
    text_of(out)
}

fn write_names(out: &mut Writer, names: &[Name]) -> Result<(), AllocError>
    ensures ok { OnOk result (AddsTokens out.old out.new (data_tokens (texts_data names.now))) }
{
    out.begin_array()?;
    for name in names {
        out.string(name.as_str())?;
    }
    out.end_array()
}
