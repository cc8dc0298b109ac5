//! What the counters of a document stand at.
ghost use Rattle.std.specs.Prelude.{◌≡◌, IfOk, IfErr};
ghost use Rattle.rds_names.specs.declared.fault.Fault.TheVariants.{Memory};
ghost use Rattle.rds_tree.specs.Document.{sums_of};

use crate::repeats::is_last;
use crate::views::Sums;
use rds_counts::Counts;
use rds_names::{Fault, Key};
use std::alloc::Global;

/// What each counter stands at of which some number is above 0, in the order of the keys.
pub fn sums_of(alloc: Global, counts: &Counts) -> Result<Sums, Fault>
    ensures ok { IfOk result (λ sums. sums ≡ sums_of counts.now) }
    ensures memory { IfErr result (λ fault. fault ≡ Memory) }
{
    let mut sums = Vec::new(alloc);
    let mut last: Option<&Key> = None;
    let mut rest = counts.rows();
    'adding: while let Some((row, later)) = rest.split_first() {
        if !is_last(last, &row.key) {
            sums.push((row.key.copy(alloc)?, counts.value(&row.key)))?;
            last = Some(&row.key);
        }
        rest = later;
    }
    Ok(Sums::from_rows(sums))
}
