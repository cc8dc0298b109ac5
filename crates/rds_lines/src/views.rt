//! What documents have at a path, as answers.
ghost use Rattle.std.specs.Prelude.{◌≡◌, IfErr, IfOk, string_bytes};
ghost use Rattle.rds_json.specs.Show.{data_of};
ghost use Rattle.rds_lines.specs.Views.{IsLaidOut, Prints, PrintsAt, ShowsView, TellsAt};
ghost use Rattle.rds_names.specs.declared.fault.Fault.TheVariants.{Memory};
ghost use Rattle.rds_tree.specs.Shown.{shown_view};

use rds_dots::DotSet;
use rds_json::{show, show_at, show_pretty};
use rds_names::{Fault, Key, Path};
use rds_output::Reply;
use rds_state::State;
use rds_tree::{View, view, view_of_key};
use std::alloc::Global;

/// How JSON is laid out.
#[derive(Clone, Copy, Debug, PartialEq, Eq)]
pub enum Layout {
    /// On one line, without spaces.
    Compact,
    /// On many lines, indented.
    Indented,
}

/// Shows what a state's document has at a path.
pub fn shown<S: DotSet>(
    alloc: Global,
    state: &State<S>,
    path: &Path,
    layout: Layout,
) -> Result<Reply, Fault>
    ensures shown { IfOk result (ShowsView layout state.now path.now) }
    ensures memory { IfErr result (λ fault. fault ≡ Memory) }
{
    let view = view(alloc, state, path)?;
    printed(alloc, &view, layout)
}

/// Shows a view.
pub fn printed(alloc: Global, view: &View, layout: Layout) -> Result<Reply, Fault>
    ensures shown { IfOk result (Prints layout (shown_view view.now)) }
    ensures memory { IfErr result (λ fault. fault ≡ Memory) }
{
    Ok(Reply::Shown(laid_out(alloc, view, layout)?))
}

// The JSON of a view.
fn laid_out(alloc: Global, view: &View, layout: Layout) -> Result<String, Fault>
    ensures text { IfOk result (λ text. IsLaidOut layout (string_bytes text) (data_of (shown_view view.now))) }
    ensures memory { IfErr result (λ fault. fault ≡ Memory) }
{
    match layout {
        Layout::Compact => show(alloc, view),
        Layout::Indented => show_pretty(alloc, view),
    }
}

/// Shows what stands at a key below a path of a state's document.
pub fn shown_at<S: DotSet>(
    alloc: Global,
    state: &State<S>,
    above: &Path,
    key: &Key,
) -> Result<Reply, Fault>
    ensures shown { IfOk result (TellsAt state.now above.now key.now) }
    ensures memory { IfErr result (λ fault. fault ≡ Memory) }
{
    let view = view_of_key(alloc, state, above, key)?;
    printed_at(alloc, &view, key)
}

// Shows what stands at a key of a view.
fn printed_at(alloc: Global, view: &View, key: &Key) -> Result<Reply, Fault>
    ensures shown { IfOk result (PrintsAt (shown_view view.now) key.now) }
    ensures memory { IfErr result (λ fault. fault ≡ Memory) }
{
    Ok(Reply::Shown(show_at(alloc, view, key)?))
}
