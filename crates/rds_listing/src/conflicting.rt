//! The registers with more than one value.
ghost use Rattle.std.specs.Prelude.{◌≡◌, ◌++◌, IfErr, IfOk, OnOk, string_bytes};
ghost use Rattle.rds_listing.specs.Conflicts.{conflict_line, conflict_lines, conflicts_below, conflicts_text};
ghost use Rattle.rds_listing.specs.Pieces.{lines_text};
ghost use Rattle.rds_listing.specs.Standings.{all_stand, stands};
ghost use Rattle.rds_names.specs.declared.entry.Kind.TheVariants.{Reg};
ghost use Rattle.rds_names.specs.declared.fault.Fault.TheVariants.{Memory};
ghost use Rattle.rds_tree.specs.Shown.{shown_view};

use crate::pieces::{path_text, push_line};
use crate::standings::{path_below, split_past};
use rds_dots::DotSet;
use rds_json::{show_scalars, show_text};
use rds_names::{Fault, Key, Path};
use rds_state::State;
use rds_tree::{Scalars, View, view};
use std::alloc::Global;

/// The registers below a path of a state's document that have more than one value, each as a line of JSON with
/// its path from the root and its values. No line, so the empty text, says that there is none.
pub fn conflicts<S: DotSet>(alloc: Global, state: &State<S>, path: &Path) -> Result<String, Fault>
    ensures text { IfOk result (λ text. string_bytes text ≡ conflicts_text state.now path.now) }
    ensures memory { IfErr result (λ fault. fault ≡ Memory) }
{
    let shape = view(alloc, state, path)?;
    conflicts_shown(alloc, path, &shape)
}

/// The same of what a document shows at the path.
pub fn conflicts_shown(alloc: Global, path: &Path, shape: &View) -> Result<String, Fault>
    ensures text { IfOk result (λ text. string_bytes text ≡ conflicts_below path.now (shown_view shape.now)) }
    ensures memory { IfErr result (λ fault. fault ≡ Memory) }
{
    let mut text = String::new(alloc);
    push_conflicts(alloc, &mut text, path.keys(), shape)?;
    Ok(text)
}

// Adds the lines of a view, those of each map behind those of the registers up to its key.
fn push_conflicts(
    alloc: Global,
    text: &mut String,
    above: &[Key],
    shape: &View,
) -> Result<(), Fault>
    ensures text { OnOk result
        (string_bytes text.new ≡ string_bytes text.old ++ conflicts_below above.now (shown_view shape.now)) }
    ensures memory { IfErr result (λ fault. fault ≡ Memory) }
{
    let mut regs = shape.regs.rows();
    let maps = shape.maps.rows();
    for row in maps {
        let (here, later) = split_past(regs, &row.0);
        push_registers(alloc, text, above, here)?;
        let path = path_below(alloc, above, &row.0)?;
        push_conflicts(alloc, text, path.as_slice(), &row.1)?;
        regs = later;
    }
    push_registers(alloc, text, above, regs)
}

// Adds the lines of those registers that have more than one value.
fn push_registers(
    alloc: Global,
    text: &mut String,
    above: &[Key],
    regs: &[(Key, Scalars)],
) -> Result<(), Fault>
    ensures text { OnOk result (string_bytes text.new
        ≡ string_bytes text.old ++ lines_text (conflict_lines (all_stand above.now Reg regs.now))) }
    ensures memory { IfErr result (λ fault. fault ≡ Memory) }
{
    for row in regs {
        if 1 < row.1.rows().len() {
            push_line(text, conflict_line(alloc, above, row)?.as_str())?;
        }
    }
    Ok(())
}

fn conflict_line(alloc: Global, above: &[Key], row: &(Key, Scalars)) -> Result<String, Fault>
    ensures text { IfOk result (λ text. string_bytes text ≡ conflict_line (stands above.now Reg row.now)) }
    ensures memory { IfErr result (λ fault. fault ≡ Memory) }
{
    let path = path_below(alloc, above, &row.0)?;
    let path = path_text(alloc, path.as_slice())?;
    let path = show_text(alloc, path.as_str())?;
    let values = show_scalars(alloc, row.1.rows())?;
    Ok(format!(in alloc; "{{\"path\":{path},\"values\":{values}}}")?)
}
