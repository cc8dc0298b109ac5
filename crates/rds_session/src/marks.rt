//! The mark of what a replica holds at the end of a session.
ghost use Rattle.std.specs.Prelude.{◌≡◌, IfOk, IfErr, filter, fold, not};
ghost use Rattle.std.specs.FinSet as set;
ghost use Rattle.rds_names.specs.declared.fault.Fault.TheVariants.{Memory};
ghost use Rattle.rds_bytes.specs.Reading.{ReadsExactly};
ghost use Rattle.rds_counts.specs.Drawn.{greater, greatest_rows};
ghost use Rattle.rds_delta.specs.Least.{IsAbove};
ghost use Rattle.rds_delta.specs.Ranks.{ranks};
ghost use Rattle.rds_session.specs.Marked.{mark_read, told_mark, with_delta};
ghost use Rattle.rds_state.specs.Mark.{count_mark, mark_of, no_mark, plus_count, plus_live};
ghost use Rattle.rds_state.specs.Value.{coordinates};

use crate::version::Version;
use rds_counts::CountRow;
use rds_dots::DotSet;
use rds_life::LiveRows;
use rds_names::Fault;
use rds_state::{Mark, State};
use std::alloc::Global;
use std::cmp::Ordering;

/// How many bytes a mark has.
pub const MARK_LENGTH: usize = 16;

/// The mark that these bytes are.
pub fn read_mark(bytes: &[u8]) -> Result<Mark, Fault>
    ensures { ReadsExactly (λ m. m) result (mark_read bytes.now) }
{
    if MARK_LENGTH < bytes.len() {
        return Err(Fault::Extra);
    }
    if bytes.len() < MARK_LENGTH {
        return Err(Fault::Cut);
    }
    match (bytes.first_chunk::<8>(), bytes.last_chunk::<8>()) {
        (Some(high), Some(low)) => Ok(Mark {
            high: u64::from_be_bytes(*high),
            low: u64::from_be_bytes(*low),
        }),
        _ => Err(Fault::Cut),
    }
}

/// The mark of what is kept joined with a delta that is above it. Neither is copied: the marks are added of what the
/// delta has, and of what is kept where the delta has nothing.
fn joined_mark<S: DotSet>(alloc: Global, kept: &State<S>, delta: &State<S>) -> Result<Mark, Fault>
    requires above { IsAbove (coordinates delta.now) (ranks (coordinates kept.now)) }
    ensures ok { IfOk result (λ mark. mark ≡ mark_of (with_delta kept.now delta.now)) }
    ensures memory { IfErr result (λ fault. fault ≡ Memory) }
{
    let staying = unseen_mark(kept.lives().live(), delta.lives().seen());
    let live = staying.plus_live(delta.lives().live());
    plus_greatest(alloc, live, kept.counts().rows(), delta.counts().rows())
}

/// The sum of the marks of live dots that aren't in the set.
fn unseen_mark<S: DotSet>(rows: LiveRows<'_>, seen: &S) -> Mark
    ensures { result
        ≡ fold plus_live no_mark (filter (λ r. not (set.contains (S.contents seen.now) r.0)) rows.entry) }
{
    let mut mark = Mark::empty();
    for (dot, entry) in rows {
        if !seen.contains(dot) {
            mark = mark.plus(Mark::of_live(dot, entry));
        }
    }
    mark
}

/// The mark with those of the rows of two counters in one, the greater number of each.
fn plus_greatest(
    alloc: Global,
    mark: Mark,
    mut left: &[CountRow],
    mut right: &[CountRow],
) -> Result<Mark, Fault>
    ensures ok { IfOk result (λ sum. sum ≡ fold plus_count mark (greatest_rows left.entry.now right.entry.now)) }
    ensures memory { IfErr result (λ fault. fault ≡ Memory) }
{
    let mut mark = mark;
    'joining: loop {
        match (left.split_first(), right.split_first()) {
            (None, _) => return Ok(mark.plus_counts(right)),
            (_, None) => return Ok(mark.plus_counts(left)),
            (Some((x, xs)), Some((y, ys))) => {
                match x.key.cmp(&y.key).then(x.replica.cmp(&y.replica)) {
                    Ordering::Less => {
                        mark = mark.plus(Mark::of_count(x));
                        left = xs;
                    }
                    Ordering::Equal => {
                        mark = mark.plus(greater_mark(alloc, x, y)?);
                        left = xs;
                        right = ys;
                    }
                    Ordering::Greater => {
                        mark = mark.plus(Mark::of_count(y));
                        right = ys;
                    }
                }
            }
        }
    }
}

/// The mark of a row with the greater of each number.
fn greater_mark(alloc: Global, x: &CountRow, y: &CountRow) -> Result<Mark, Fault>
    ensures ok { IfOk result (λ mark. mark ≡ count_mark (greater x.now y.now)) }
    ensures memory { IfErr result (λ fault. fault ≡ Memory) }
{
    let row = CountRow {
        key: x.key.copy(alloc)?,
        replica: x.replica,
        p: x.p.max(y.p),
        n: x.n.max(y.n),
    };
    Ok(Mark::of_count(&row))
}

/// The mark of what is kept joined with a delta that is above it, where the version tells one.
pub fn told_mark<S: DotSet>(
    alloc: Global,
    version: Version,
    kept: &State<S>,
    delta: &State<S>,
) -> Result<Option<Mark>, Fault>
    requires above { IsAbove (coordinates delta.now) (ranks (coordinates kept.now)) }
    ensures ok { IfOk result (λ mark. mark ≡ told_mark version kept.now delta.now) }
    ensures memory { IfErr result (λ fault. fault ≡ Memory) }
{
    if !version.tells_marks() {
        return Ok(None);
    }
    Ok(Some(joined_mark(alloc, kept, delta)?))
}
