//! What one document shows and another doesn't.
ghost use Rattle.std.specs.Prelude.{◌≡◌, ◌++◌, ◌∷◌, [], IfErr, IfOk, OnOk, map, string_bytes};
ghost use Rattle.rds_listing.specs.Differences.{kind_word, leaf_lines, only_line, only_second};
ghost use Rattle.rds_listing.specs.Pieces.{lines_text};
ghost use Rattle.rds_names.specs.declared.fault.Fault.TheVariants.{Memory};

use crate::leaves::{Leaf, behind, is_met, split_before};
use crate::pieces::{path_text, push_line};
use rds_json::{show_scalar, show_text};
use rds_names::{Fault, Kind};
use std::alloc::Global;

/// Adds the lines of what one of both has alone.
pub fn push_differing(
    alloc: Global,
    text: &mut String,
    firsts: &[Leaf],
    seconds: &[Leaf],
) -> Result<(), Fault>
    ensures text { OnOk result
        (string_bytes text.new ≡ string_bytes text.old ++ lines_text (leaf_lines firsts.now seconds.now)) }
    ensures memory { IfErr result (λ fault. fault ≡ Memory) }
{
    let mut rest = firsts;
    for leaf in seconds {
        let (earlier, later) = split_before(rest, leaf);
        push_only(alloc, text, "first", earlier)?;
        push_second(alloc, text, leaf, later)?;
        rest = behind(leaf, later);
    }
    push_only(alloc, text, "first", rest)
}

// Adds the line of a leaf of the second, where the rest of the first doesn't begin with it.
fn push_second(alloc: Global, text: &mut String, leaf: &Leaf, rest: &[Leaf]) -> Result<(), Fault>
    ensures text { OnOk result
        (string_bytes text.new ≡ string_bytes text.old ++ lines_text (only_second leaf.now rest.now)) }
    ensures memory { IfErr result (λ fault. fault ≡ Memory) }
{
    if is_met(leaf, rest) {
        return Ok(());
    }
    push_line(text, only_line(alloc, "second", leaf)?.as_str())?;
    Ok(())
}

// Adds the lines of leaves that one of both has alone.
fn push_only(alloc: Global, text: &mut String, side: &str, leaves: &[Leaf]) -> Result<(), Fault>
    ensures text { OnOk result
        (string_bytes text.new ≡ string_bytes text.old ++ lines_text (map (only_line side.now) leaves.now)) }
    ensures memory { IfErr result (λ fault. fault ≡ Memory) }
{
    for leaf in leaves {
        push_line(text, only_line(alloc, side, leaf)?.as_str())?;
    }
    Ok(())
}

fn only_line(alloc: Global, side: &str, leaf: &Leaf) -> Result<String, Fault>
    ensures text { IfOk result (λ text. string_bytes text ≡ only_line side.now leaf.now) }
    ensures memory { IfErr result (λ fault. fault ≡ Memory) }
{
    let path = path_text(alloc, leaf.path.as_slice())?;
    let path = show_text(alloc, path.as_str())?;
    let kind = kind_word(leaf.kind);
    let value = show_scalar(alloc, &leaf.value)?;
    Ok(format!(in alloc;
        "{{\"only\":\"{side}\",\"path\":{path},\"kind\":\"{kind}\",\"value\":{value}}}"
    )?)
}

fn kind_word(kind: Kind) -> &'static str
    ensures { result.now ≡ kind_word kind }
{
    match kind {
        Kind::Reg => "reg",
        Kind::Elem => "set",
    }
}
