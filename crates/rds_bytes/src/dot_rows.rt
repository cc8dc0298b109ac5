//! What a row of a set of dots begins with; its gaps follow, each by itself.
ghost use Rattle.std.specs.Prelude.{◌≤◌, IfOk};
ghost use Rattle.rds_bytes.specs.Reading.{ReadsExactly, row_head_at};

use crate::dots::{read_replica, read_top};
use crate::numbers::read_u32;
use rds_dots::MAX_SEQ;
use rds_names::Fault;

/// What a row begins with: its replica, its top, and how many gaps below it follow.
#[derive(Clone, Copy)]
pub struct RowHead {
    pub replica: u8,
    pub top: u64,
    pub gaps: u32,
}

/// What a row begins with, of one of so many replicas, from a least one on.
#[tactic(auto, unfolding(crate::specs::Reading::row_head_at))]
pub fn read_row_head(replicas: u16, least: u16, bytes: &[u8]) -> Result<(RowHead, &[u8]), Fault>
    ensures read { ReadsExactly (λ x. (x.0, x.1.now)) result (row_head_at replicas least bytes.now) }
    ensures from_one { IfOk result (λ x. 1 ≤ x.0.top) }
    ensures within { IfOk result (λ x. x.0.top ≤ MAX_SEQ) }
{
    let (replica, rest) = read_replica(replicas, least, bytes)?;
    let (top, rest) = read_top(rest)?;
    let (gaps, rest) = read_u32(rest)?;
    Ok((RowHead { replica, top, gaps }, rest))
}
