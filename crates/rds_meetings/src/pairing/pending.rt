//! Bytes that are to be written.
ghost use Rattle.std.specs.Prelude.{◌≡◌, ◌≤◌, ◌++◌, [], true, false, length, take, drop, IfErr, OnOk, OnErr};
ghost use Rattle.rds_names.specs.declared.fault.Fault.TheVariants.{Memory};

use rds_names::Fault;
use std::marker::Model;

/// Bytes that are to be written, from the first on. Those that are written stay in memory until all
/// are, so that none is moved.
#[derive(Drop)]
pub struct Pending {
    bytes: Vec<u8>,
    written: usize,
}

impl Model for Pending {
    ghost use Rattle.std.specs.Prelude.{ℕ, ◌≤◌, List, length, drop};

    ghost Value = { List ℕ };

    ghost view = { λ p. drop p.written p.bytes.items };

    ghost invariant = { λ p. p.written ≤ length p.bytes.items };
}

impl Pending {
    /// All of these bytes.
    pub fn of(bytes: Vec<u8>) -> Pending
        ensures { result ≡ bytes.items }
    {
        Pending { bytes, written: 0 }
    }

    /// Whether none is left.
    pub fn is_empty(&self) -> bool
        ensures none { result ≡ true → self.now ≡ [] }
        ensures some { result ≡ false → 1 ≤ length self.now }
    {
        self.written == self.bytes.len()
    }

    /// The next bytes, at most so many.
    pub fn front(&self, most: usize) -> &[u8]
        ensures front { result.now ≡ take most self.now }
        ensures within { length result.now ≤ length self.now }
    {
        let (_, left) = self.bytes.as_slice().split_at(self.written);
        let (front, _) = left.split_at(most.min(left.len()));
        front
    }

    /// Takes the next bytes away, as written.
    pub fn advance(&mut self, count: usize)
        requires { count ≤ length self.old }
        ensures { self.new ≡ drop count self.old }
    {
        self.written += count;
    }

    /// Puts bytes behind those that are left.
    pub fn add(&mut self, bytes: Vec<u8>) -> Result<(), Fault>
        ensures added { OnOk result (self.new ≡ self.old ++ bytes.items) }
        ensures unchanged { OnErr result (self.new ≡ self.old) }
        ensures fault { IfErr result (λ fault. fault ≡ Memory) }
    {
        if self.is_empty() {
            *self = Pending::of(bytes);
        } else {
            self.bytes.extend_from_slice(bytes.as_slice())?;
        }
        Ok(())
    }
}
