//! Records as bytes.
ghost use Rattle.std.specs.Prelude.{◌≡◌, ◌+◌, ◌≤◌, ℕ, List, length, IfSome, IsNone};
ghost use Rattle.rds_bytes.specs.Reading.{ReadsExactly, bytes_at};
ghost use Rattle.rds_bytes.specs.Writing.{Adds};
ghost use Rattle.rds_journal.specs.Records.{record_at, record_text, IsBegun, IsFirst, IsPayload};

use rds_bytes::{put_u32, read_u32};
use rds_names::Fault;
use sha2::{Digest, Sha256};
use std::alloc::AllocError;

/// The most bytes of a payload.
pub const MOST: usize = 65_536;

/// The bytes of a record before its payload: the length of that and its checksum.
pub const HEAD: usize = 36;

/// Puts a record behind what is there.
pub fn put_record(out: &mut Vec<u8>, payload: &[u8]) -> Result<(), AllocError>
    requires { IsPayload payload.now }
    ensures { Adds out.old.items out.new.items (record_text payload.now) result }
{
    put_u32(out, payload.len() as u32)?;
    out.extend_from_slice(&Sha256::digest(payload))?;
    out.extend_from_slice(payload)?;
    Ok(())
}

/// How many bytes the record of a payload of this length has.
pub fn record_length(payload: usize) -> usize
    requires { payload ≤ MOST }
    ensures sum { result ≡ payload + HEAD }
    ensures text { (r : List ℕ) → length r ≡ payload → length (record_text r) ≡ result }
{
    payload + HEAD
}

/// The payload of the record that the bytes begin with, and what stands behind it.
pub fn first_record(bytes: &[u8]) -> Option<(&[u8], &[u8])>
    ensures first { IfSome result (λ p. IsFirst bytes.now p.0.now p.1.now) }
    ensures none { IsNone result → IsBegun bytes.now → ⊥ }
{
    read_record(bytes).ok()
}

// The same, as the definition of reading says.
#[tactic(auto, unfolding(crate::specs::Records::record_at, crate::specs::Records::parts_at))]
fn read_record(bytes: &[u8]) -> Result<(&[u8], &[u8]), Fault>
    ensures { ReadsExactly (λ x. (x.0.now, x.1.now)) result (record_at bytes.now) }
{
    let (count, summed) = read_u32(bytes)?;
    let count = count as usize;
    if MOST < count {
        return Err(Fault::Bad);
    }
    let (sum, body) = read_bytes(32, summed)?;
    let (payload, behind) = read_bytes(count, body)?;
    if sum != Sha256::digest(payload).as_slice() {
        return Err(Fault::Bad);
    }
    Ok((payload, behind))
}

// As many bytes as are asked for.
fn read_bytes(count: usize, bytes: &[u8]) -> Result<(&[u8], &[u8]), Fault>
    ensures { ReadsExactly (λ x. (x.0.now, x.1.now)) result (bytes_at count bytes.now) }
{
    if bytes.len() < count {
        return Err(Fault::Cut);
    }
    Ok(bytes.split_at(count))
}
