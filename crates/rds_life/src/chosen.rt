//! Live dots chosen by a test.
ghost use Rattle.std.specs.Prelude.{◌≡◌, ◌≤◌, Bool, not, count_by, length};
ghost use Rattle.std.specs.List.{filter};
ghost use Rattle.rds_names.specs.declared.entry.Entry.{Entry};
ghost use Rattle.rds_dots.specs.declared.dot.Dot.{Dot};

use rds_dots::Dot;
use rds_names::Entry;

/// A choice among live dots.
pub trait Choice {
    /// Whether a dot with this entry is chosen.
    ghost chosen: { Self → Dot → Entry → Bool };

    /// Whether a dot with this entry is chosen.
    fn chooses(&self, dot: Dot, entry: &Entry) -> bool
        ensures { result ≡ chosen self.now dot entry.now };
}

/// Takes out the rows that are chosen, in place, and says how many there were.
pub fn remove_chosen<C: Choice>(rows: &mut Vec<(Dot, Entry)>, choice: &C) -> u64
    ensures kept { rows.new.items ≡ filter (λ r. not (C.chosen choice.now r.0 r.1)) rows.old.items }
    ensures count { result ≡ count_by (λ r. C.chosen choice.now r.0 r.1) rows.old.items }
{
    let before = rows.len();
    rows.retain(|row| !choice.chooses(row.0, &row.1));
    (before - rows.len()) as u64
}
