//! What one document shows and another doesn't.
ghost use Rattle.std.specs.Prelude.{◌≡◌, IfErr, IfOk, string_bytes};
ghost use Rattle.rds_listing.specs.Differences.{differences_text, leaves, sums_in, views_lines};
ghost use Rattle.rds_listing.specs.Pieces.{lines_text};
ghost use Rattle.rds_listing.specs.Standings.{standings};
ghost use Rattle.rds_names.specs.declared.fault.Fault.TheVariants.{Memory};
ghost use Rattle.rds_tree.specs.Shown.{shown_view};
ghost use Rattle.rds_tree.specs.Shows.{counters_in};

use crate::differing::push_differing;
use crate::leaves::{Leaf, leaves_of};
use crate::standings::standings_of;
use crate::sums::push_sums_differing;
use rds_dots::DotSet;
use rds_names::{Fault, Key, Path};
use rds_state::State;
use rds_tree::{View, view};
use std::alloc::Global;

/// What the documents of two states show differently below a path, as lines of JSON: each value that one of both has
/// alone, and where the path is the root each counter that doesn't stand at the same. No line, so the empty text, says
/// that they show the same there.
pub fn differences<S: DotSet, T: DotSet>(
    alloc: Global,
    state: &State<S>,
    other: &State<T>,
    path: &Path,
) -> Result<String, Fault>
    ensures text { IfOk result (λ text. string_bytes text ≡ differences_text state.now other.now path.now) }
    ensures memory { IfErr result (λ fault. fault ≡ Memory) }
{
    let first = view(alloc, state, path)?;
    let second = view(alloc, other, path)?;
    differences_in(alloc, path.keys(), &first, &second)
}

fn differences_in(alloc: Global, path: &[Key], first: &View, second: &View) -> Result<String, Fault>
    ensures text { IfOk result
        (λ text. string_bytes text ≡ lines_text (views_lines path.now (shown_view first.now) (shown_view second.now))) }
    ensures memory { IfErr result (λ fault. fault ≡ Memory) }
{
    let firsts = view_leaves(alloc, path, first)?;
    let seconds = view_leaves(alloc, path, second)?;
    let mut text = String::new(alloc);
    push_differing(alloc, &mut text, firsts.as_slice(), seconds.as_slice())?;
    push_sums_differing(alloc, &mut text, sums_of(first), sums_of(second))?;
    Ok(text)
}

fn view_leaves(alloc: Global, path: &[Key], shape: &View) -> Result<Vec<Leaf>, Fault>
    ensures ok { IfOk result (λ found. found.items ≡ leaves (standings path.now (shown_view shape.now))) }
    ensures memory { IfErr result (λ fault. fault ≡ Memory) }
{
    let all = standings_of(alloc, path, shape)?;
    leaves_of(alloc, all.as_slice())
}

// The counters of a view.
fn sums_of(shape: &View) -> &[(Key, i64)]
    ensures { result.now ≡ sums_in (counters_in (shown_view shape.now)) }
{
    match &shape.counters {
        Some(sums) => sums.rows(),
        None => &[],
    }
}
