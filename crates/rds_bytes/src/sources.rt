//! Where the keys of rows come from.
ghost use Rattle.std.specs.Prelude.{◌≡◌, ℕ, List, Result, IfOk, refl};
ghost use Rattle.rds_names.specs.declared.fault.Fault.{Fault};
ghost use Rattle.rds_bytes.specs.Reading.{Reads, key_at};

use crate::keys::read_key;
use rds_names::{Fault, Key};
use std::alloc::Global;

/// How the keys of rows are read: each as a short text, or by its number in a table.
pub trait KeySource {
    ghost reader: { Self → List ℕ → Result (List ℕ × List ℕ) Fault };

    // what the source is after a key was read
    ghost after: { Self → List ℕ → Self };

    /// The next key, and the bytes after it; or the fault of a key that is cut or bad.
    fn read<'a>(&mut self, alloc: Global, bytes: &'a [u8]) -> Result<(Key, &'a [u8]), Fault>
        ensures read { Reads (λ x. (x.0, x.1.now)) result (reader self.old bytes.now) }
        ensures after { IfOk result (λ x. self.new ≡ after self.old x.0) };

    /// It goes on reading in one way.
    ghost steady: { (s : Self) (key : List ℕ) → reader (after s key) ≡ reader s };
}

/// Keys of which each is a short text.
#[derive(Drop)]
pub struct SpelledKeys;

impl KeySource for SpelledKeys {
    ghost reader = { λ _. key_at };

    ghost after = { λ s _. s };

    ghost steady = { λ s key. refl };

    fn read<'a>(&mut self, alloc: Global, bytes: &'a [u8]) -> Result<(Key, &'a [u8]), Fault> {
        read_key(alloc, bytes)
    }
}
