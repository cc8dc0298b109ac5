//! What is reported of a document to scripts: the bare values that stand at a key, the registers with more than one
//! value, the edits that make it, and what another doesn't show, each as lines of bytes. Read `bare`; then `pieces` and
//! `standings`, on which `conflicting` and `dumping` stand; then `leaves`, `differing`, `sums` and `telling`. Then
//! `presence`, which says whether an edit would show nothing new, and `certificates`, which tells why each component of
//! a delta is sent.
#![tactic(auto)]

mod bare;
mod certificates;
mod conflicting;
mod differing;
mod dumping;
mod leaves;
mod pieces;
mod presence;
mod standings;
mod sums;
mod telling;

pub use bare::{Raw, Wanted, raw_of, raw_values};
pub use certificates::evidence;
pub use conflicting::{conflicts, conflicts_shown};
pub use dumping::{dump, dump_part, dump_shown, dump_values};
pub use presence::stands;
pub use telling::differences;
