//! The name of a replica.
ghost use Rattle.std.specs.Prelude.{◌≡◌, ◌↔◌, IsTrue};
ghost use Rattle.std.specs.List.{list_all};
ghost use Rattle.rds_names.specs.Name.{name_of, is_name as name_test, is_name_byte as name_byte};
ghost use Rattle.rds_names.specs.Name.{starts_with_letter as letter_first};

use crate::fault::Fault;
use std::hash::{Hash, Hasher};
use std::marker::Model;

/// The most bytes of a name.
const MOST_BYTES: usize = 16;

/// The name of a replica: 1 to 16 bytes, first a to z, then a to z, 0 to 9 and '-'.
#[derive(Clone, Copy, Debug)]
pub struct Name {
    bytes: [u8; MOST_BYTES],
    len: u8,
}

impl Model for Name {
    ghost use Rattle.std.specs.Prelude.{◌≡◌, ◌-◌, ◌++◌, ℕ, List, IsTrue, length, take, drop, replicate};
    ghost use Rattle.rds_names.specs.Name.{is_name};

    ghost Value = { List ℕ };

    ghost view = { λ n. take n.len n.bytes };

    ghost invariant = { λ n. (length n.bytes ≡ 16) × (length (take n.len n.bytes) ≡ n.len)
        × (drop n.len n.bytes ≡ replicate (16 - n.len) 0) × IsTrue (is_name (take n.len n.bytes)) };

    ghost inverse = { λ bs. record { bytes = bs ++ replicate (16 - length bs) 0; len = length bs } };

    ghost use Rattle.rds_names.specs.Padded.{padded_back};

    ghost inverse_ok = { λ a h. padded_back a h.1 h.2 };
}

impl Name {
    /// The name with this text; a text that is no name is refused (`BadName`).
    pub fn new(text: &str) -> Result<Name, Fault>
        ensures { result ≡ name_of text.now }
    {
        let text = text.as_bytes();
        if !is_name(text) {
            return Err(Fault::BadName);
        }
        let mut bytes = [0u8; MOST_BYTES];
        bytes[..text.len()].copy_from_slice(text);
        Ok(Name {
            bytes,
            len: text.len() as u8,
        })
    }

    /// The name's text.
    pub fn as_str(&self) -> &str
        ensures text { result.now ≡ self.now }
        ensures within { IsTrue (name_test self.now) }
    {
        match str::from_utf8(self.as_bytes()) {
            Ok(text) => text,
            Err(_) => unreachable!(),
        }
    }

    fn as_bytes(&self) -> &[u8]
        ensures bytes { result.now ≡ self.now }
        ensures within { IsTrue (name_test self.now) }
    {
        &self.bytes[..self.len as usize]
    }
}

impl PartialEq for Name {
    ghost use Rattle.std.specs.Str.{bytes_eq};
    ghost use Rattle.std.specs.Cmp.{partial_equiv_from_equiv};
    ghost use Rattle.std.specs.Cmp.Lexicographic.{nat_list_eq_equiv};

    ghost eq = { bytes_eq };

    ghost laws = { partial_equiv_from_equiv nat_list_eq_equiv };

    fn eq(&self, other: &Name) -> bool
        ensures value { result ≡ bytes_eq self.now other.now }
        ensures same { IsTrue result ↔ (self.now ≡ other.now) }
    {
        self.as_bytes() == other.as_bytes()
    }
}

impl Eq for Name {
    ghost use Rattle.std.specs.Cmp.Lexicographic.{nat_list_eq_equiv};

    ghost laws = { nat_list_eq_equiv };
}

impl Hash for Name {
    ghost use Rattle.std.specs.Hash as fed;
    ghost use Rattle.std.specs.Cmp.Rules.{hashing};
    ghost use Rattle.std.proofs.Common.{rules};

    ghost hash_input = { λ n. fed.slice fed.u8 n };

    ghost respects_eq = { Prim.search (hashing, rules) };

    fn hash<H: Hasher>(&self, state: &mut H) {
        self.as_bytes().hash(state);
    }
}

fn is_name(text: &[u8]) -> bool
    ensures { result ≡ name_test text.now }
{
    starts_with_letter(text) && text.len() <= MOST_BYTES && are_name_bytes(text)
}

fn starts_with_letter(text: &[u8]) -> bool
    ensures { result ≡ letter_first text.now }
{
    matches!(text, [b'a'..=b'z', ..])
}

fn are_name_bytes(text: &[u8]) -> bool
    ensures { result ≡ list_all name_byte text.now }
{
    text.iter().all(|b| is_name_byte(*b))
}

fn is_name_byte(byte: u8) -> bool
    ensures { result ≡ name_byte byte }
{
    matches!(byte, b'a'..=b'z' | b'0'..=b'9' | b'-')
}
