//! The hash by which a replica says its digest.
ghost use Rattle.std.specs.Prelude.{◌≡◌, ◌<◌, ◌≤◌, length, IfOk, IfErr};
ghost use Rattle.rds_bytes.specs.Reading.{ReadsExactly};
ghost use Rattle.rds_codec.specs.DigestTexts.{digest_text};
ghost use Rattle.rds_codec.specs.Exchanged.{IsLost};
ghost use Rattle.rds_codec.specs.declared.limits.TheConstants.{LIMIT};
ghost use Rattle.rds_delta.specs.Digested.{digest_of};
ghost use Rattle.rds_answers.specs.Hashes.{digest_hash, hash_in};

use rds_codec::ask;
use rds_dots::DotSet;
use rds_names::Fault;
use rds_state::Replica;
use sha2::{Digest, Sha256};
use std::alloc::Global;

/// How many bytes a hash has.
pub const HASH_LENGTH: usize = 32;

/// The hash that these bytes are.
pub fn read_hash(bytes: &[u8]) -> Result<[u8; 32], Fault>
    ensures { ReadsExactly (λ hash. hash) result (hash_in bytes.now) }
{
    if HASH_LENGTH < bytes.len() {
        return Err(Fault::Extra);
    }
    match bytes.first_chunk::<32>() {
        Some(hash) => Ok(*hash),
        None => Err(Fault::Cut),
    }
}

/// The hash of a replica's digest. One whose text is over the limit has none (`TooLong`).
pub fn own_hash<S: DotSet>(alloc: Global, kept: &Replica<S>) -> Result<[u8; 32], Fault>
    ensures hash { IfOk result (λ hash. hash ≡ digest_hash (digest_of kept.now.state)) }
    ensures within { IfOk result (λ hash. length (digest_text (digest_of kept.now.state)) ≤ LIMIT) }
    ensures fault { IfErr result (IsLost (LIMIT < length (digest_text (digest_of kept.now.state)))) }
{
    let text = ask(alloc, kept.state())?;
    Ok(Sha256::digest(&text))
}
