//! How many dots in a row are alike.
ghost use Rattle.std.specs.Prelude.{◌≡◌, ◌≤◌, ◌+◌};
ghost use Rattle.rds_dots.specs.declared.dot.TheConstants.{MAX_SEQ};
ghost use Rattle.rds_briefs.specs.Lives.{lives_in, stretch_at};

use rds_delta::stretch_from;
use rds_dots::{Dot, DotSet};

/// How many of so many dots, from one on, are live, or aren't, before the first that is otherwise.
pub fn stretch<S: DotSet>(live: &S, first: Dot, count: u64, is_live: bool) -> u64
    requires from_one { 1 ≤ first.seq }
    requires some { 1 ≤ count }
    requires most { first.seq + count ≤ MAX_SEQ + 1 }
    ensures { result ≡ stretch_at (lives_in (S.contents live.now) first.replica) is_live first.seq count }
{
    let alike = stretch_from(live, first);
    if alike.has != is_live {
        return 0;
    }
    let reach = alike.until + 1 - first.seq;
    if reach < count {
        return reach;
    }
    count
}
