//! Lives that are equal.
ghost use Rattle.std.specs.Prelude.{◌≡◌, ◌↔◌, IsTrue};

use rds_dots::{DotSet, same};
use rds_life::{LiveRows, Lives};

/// Whether each dot has the same life in both.
pub fn are_same_lives<S: DotSet>(left: &Lives<S>, right: &Lives<S>) -> bool
    ensures { IsTrue result ↔ (left.now ≡ right.now) }
{
    same(left.seen(), right.seen()) && are_same_rows(left.live(), right.live())
}

/// Whether the live dots are the same, with the same entries.
fn are_same_rows(mut left: LiveRows<'_>, mut right: LiveRows<'_>) -> bool
    ensures { IsTrue result ↔ (left.entry ≡ right.entry) }
{
    'comparing: loop {
        match (left.next(), right.next()) {
            (None, None) => return true,
            (Some((dot, entry)), Some((other, others))) => {
                if dot != other || !entry.same(others) {
                    return false;
                }
            }
            _ => return false,
        }
    }
}
