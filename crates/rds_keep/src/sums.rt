//! The record behind a snapshot that has the checksum of its bytes.
ghost use Rattle.std.specs.Prelude.{◌≡◌, ◌<◌, ◌≤◌, ◌+◌, ◌++◌, List, [], ℕ, length};
ghost use Rattle.std.specs.Prelude.{IfOk, IfErr, IfSome, IsFalse, IsNone, IsTrue};
ghost use Rattle.rds_names.specs.declared.fault.Fault.TheVariants.{Bad};
ghost use Rattle.rds_journal.specs.Records.{IsBegun, record_text};
ghost use Rattle.rds_journal.specs.declared.records.TheConstants.{MOST, HEAD};
ghost use Rattle.rds_keep.specs.Kept.{IsStored, new_layout};
ghost use Rattle.rds_keep.specs.Sums.{CutsSum, EncodesFile, HasNoSum, HasOtherSum, sum_payload};

use crate::leading::hold_bytes;
use rds_codec::encode_snapshot;
use rds_dots::DotSet;
use rds_journal::{first_record, put_record};
use rds_names::Fault;
use rds_state::Replica;
use sha2::{Digest, Sha256};
use std::alloc::{AllocError, Global};

/// The first byte of the payload of such a record.
const SUM: u8 = 3;

/// The bytes of such a record.
pub const SUM_LENGTH: usize = 69;

/// The bytes of a new file that holds the replica: its snapshot, and the record of its checksum.
///
/// Refuses `TooLong` where the snapshot is above the limit, which to find takes memory.
pub fn encode_file<S: DotSet>(alloc: Global, replica: &Replica<S>) -> Result<Vec<u8>, Fault>
    ensures file { EncodesFile replica.now result }
    ensures stored { IfOk result (λ bytes. IsStored bytes.items replica.now (new_layout (length bytes.items))) }
{
    let mut bytes = encode_snapshot(alloc, replica)?;
    hold_bytes(bytes.as_slice());
    let mut payload = Vec::with_capacity(alloc, 33)?;
    payload.push(SUM)?;
    payload.extend_from_slice(&Sha256::digest(bytes.as_slice()))?;
    put_record(&mut bytes, &payload)?;
    Ok(bytes)
}

/// What stands behind the record of this checksum, where it stands first. Refuses `Bad` where that of another does.
pub fn behind_sum<'a>(sum: &[u8; 32], bytes: &'a [u8]) -> Result<Option<&'a [u8]>, Fault>
    ensures some { IfOk result (λ found. IfSome found
        (λ rest. bytes.now ≡ record_text (sum_payload sum.now) ++ rest.now)) }
    ensures none { IfOk result (λ found. IsNone found → (more : List ℕ)
        → (length bytes.now ≤ MOST + HEAD → more ≡ []) → HasNoSum sum.now (bytes.now ++ more)) }
    ensures other { IfErr result (λ e. (e ≡ Bad) × HasOtherSum sum.now bytes.now) }
{
    let Some((payload, rest)) = first_record(bytes) else {
        return Ok(None);
    };
    let Some((kind, told)) = payload.split_first() else {
        return Ok(None);
    };
    if *kind != SUM {
        return Ok(None);
    }
    if told != sum.as_slice() {
        return Err(Fault::Bad);
    }
    Ok(Some(rest))
}

/// Whether the bytes are the record of a checksum, and nothing else.
fn is_sum(bytes: &[u8]) -> bool
    ensures found { IsTrue result → (told : List ℕ) × (length told ≡ 32)
        × (bytes.now ≡ record_text (sum_payload told)) }
    ensures none { IsFalse result → (told : List ℕ) → length told ≡ 32
        → bytes.now ≡ record_text (sum_payload told) → ⊥ }
{
    let Some((payload, rest)) = first_record(bytes) else {
        return false;
    };
    let Some((kind, told)) = payload.split_first() else {
        return false;
    };
    *kind == SUM && told.len() == 32 && rest.is_empty()
}

/// Whether what is behind a snapshot may be the rest of a checksum's record that begins inside of the snapshot: it is
/// shorter than one, and no record.
pub fn may_cut_sum(behind: &[u8]) -> bool
    ensures few { IsTrue result → length behind.now < SUM_LENGTH }
    ensures cuts { (bytes : List ℕ) → CutsSum bytes behind.now → IsTrue result }
    ensures some { IsTrue result → 0 < length behind.now }
    ensures none { IsTrue result → IsBegun behind.now → ⊥ }
{
    !behind.is_empty() && behind.len() < SUM_LENGTH && first_record(behind).is_none()
}

/// Whether what is behind a snapshot of these bytes is the rest of a checksum's record that begins inside of them.
pub fn cuts_sum(bytes: Vec<u8>, behind: &[u8]) -> Result<bool, AllocError>
    requires some { 0 < length behind.now }
    requires few { length behind.now < SUM_LENGTH }
    requires none { IsBegun behind.now → ⊥ }
    ensures found { IfOk result (λ cuts. IsTrue cuts → CutsSum bytes.items behind.now) }
    ensures none { IfOk result (λ cuts. IsFalse cuts → CutsSum bytes.items behind.now → ⊥) }
{
    let mut bytes = bytes;
    bytes.extend_from_slice(behind)?;
    match bytes.len().checked_sub(SUM_LENGTH) {
        Some(at) => Ok(is_sum(&bytes[at..])),
        None => Ok(false),
    }
}
