//! A key of a map.
ghost use Rattle.std.specs.Prelude.{◌≡◌, ◌≤◌, ◌↔◌, length, take, drop, true, IsTrue, IfOk, IfErr};
ghost use Rattle.std.specs.Int.{w64, from_le_bytes, from_be_bytes};
ghost use Rattle.std.specs.Ordering.{nat_cmp};
ghost use Rattle.std.specs.Cmp.Lexicographic.{slice_cmp};
ghost use Rattle.std.specs.Str.{is_utf8};
ghost use Rattle.rds_names.specs.declared.fault.Fault.TheVariants.{Memory};
ghost use Rattle.rds_names.specs.Gives.{Gives};
ghost use Rattle.rds_names.specs.Key.{is_key, key_of};

use crate::fault::Fault;
use std::alloc::Global;
use std::cmp::Ordering;
use std::hash::{Hash, Hasher};
use std::marker::Model;
use std::sync::ArcStr;

/// The most bytes of a key.
const MOST_BYTES: usize = 64;

/// The most bytes of a key that takes no memory of its own.
const MOST_INLINE: usize = 22;

/// Where a key's bytes stand.
#[derive(Debug, Drop)]
enum Form {
    /// In the key itself: the first of these, as many as the number says.
    Inline([u8; MOST_INLINE], u8),
    /// On the heap, where copies share them.
    Shared(ArcStr),
}

/// A text of 1 to 64 bytes without '/'. Keys are ordered by their bytes.
#[derive(Debug)]
pub struct Key {
    form: Form,
}

impl Drop for Key {
    fn drop(self) {
        let Key { form: _form } = self;
    }
}

impl Model for Key {
    ghost use Rattle.std.specs.Prelude.{ℕ, List, IsTrue};
    ghost use Rattle.rds_names.specs.Key.{is_key};

    ghost Value = { List ℕ };

    ghost use Rattle.rds_names.specs.Forms.{bytes_in, is_kept};

    ghost view = { λ k. bytes_in k.form };

    ghost invariant = { λ k. IsTrue (is_key (bytes_in k.form)) × IsTrue (is_kept k.form) };
}

impl Key {
    /// The key with this text; a text that is no key is refused (`BadKey`).
    pub fn new(alloc: Global, text: &str) -> Result<Key, Fault>
        ensures { Gives result (key_of text.now) }
    {
        if !Key::is_key(text) {
            return Err(Fault::BadKey);
        }
        if text.len() <= MOST_INLINE {
            return Ok(Key::new_inline(text));
        }
        Ok(Key {
            form: Form::Shared(ArcStr::from_str(alloc, text)?),
        })
    }

    /// The key with a text that is a key and has room in it.
    fn new_inline(text: &str) -> Key
        requires key { is_key text.now ≡ true }
        requires short { length text.now ≤ 22 }
        ensures { result ≡ text.now }
    {
        let text = text.as_bytes();
        let mut bytes = [0u8; MOST_INLINE];
        bytes[..text.len()].copy_from_slice(text);
        Key {
            form: Form::Inline(bytes, text.len() as u8),
        }
    }

    /// Whether a text is a key, which is what `new` tests.
    pub fn is_key(text: &str) -> bool
        ensures { result ≡ is_key text.now }
    {
        !text.is_empty() && text.len() <= MOST_BYTES && !text.as_bytes().contains(&b'/')
    }

    /// The key's text.
    pub fn as_str(&self) -> &str
        ensures text { result.now ≡ self.now }
        ensures within { IsTrue (is_key self.now) }
    {
        match &self.form {
            Form::Inline(bytes, len) => text_of(&bytes[..usize::from(*len)]),
            Form::Shared(text) => text.as_str(),
        }
    }

    /// The text's bytes. They aren't tested to be a text, as `as_str` tests those of a short key.
    pub fn as_bytes(&self) -> &[u8]
        ensures bytes { result.now ≡ self.now }
        ensures within { IsTrue (is_key self.now) }
        ensures utf8 { IsTrue (is_utf8 self.now) }
    {
        match &self.form {
            Form::Inline(bytes, len) => &bytes[..usize::from(*len)],
            Form::Shared(text) => text.as_str().as_bytes(),
        }
    }

    /// An equal key. A short one takes no memory, a longer one shares its own.
    pub fn copy(&self, _alloc: Global) -> Result<Key, Fault>
        ensures ok { IfOk result (λ key. key ≡ self.now) }
        ensures memory { IfErr result (λ fault. fault ≡ Memory) }
    {
        let form = match &self.form {
            Form::Inline(bytes, len) => Form::Inline(*bytes, *len),
            Form::Shared(text) => Form::Shared(text.clone()?),
        };
        Ok(Key { form })
    }
}

impl PartialEq for Key {
    ghost use Rattle.std.specs.Str.{bytes_eq};
    ghost use Rattle.std.specs.Cmp.{partial_equiv_from_equiv};
    ghost use Rattle.std.specs.Cmp.Lexicographic.{nat_list_eq_equiv};

    ghost eq = { bytes_eq };

    ghost laws = { partial_equiv_from_equiv nat_list_eq_equiv };

    fn eq(&self, other: &Key) -> bool
        ensures value { result ≡ bytes_eq self.now other.now }
        ensures same { IsTrue result ↔ (self.now ≡ other.now) }
    {
        match (&self.form, &other.form) {
            (Form::Inline(own, len), Form::Inline(others, other_len)) => {
                len == other_len && have_same_bytes(own, others)
            }
            _ => self.as_bytes() == other.as_bytes(),
        }
    }
}

impl Eq for Key {
    ghost use Rattle.std.specs.Cmp.Lexicographic.{nat_list_eq_equiv};

    ghost laws = { nat_list_eq_equiv };
}

impl PartialOrd for Key {
    ghost use Rattle.std.specs.Prelude.{Some};
    ghost use Rattle.std.specs.Ordering.{nat_cmp};
    ghost use Rattle.std.specs.Cmp.Lexicographic.{slice_cmp, texts_po};

    ghost partial_cmp = { λ x y. Some (slice_cmp nat_cmp x y) };

    ghost laws = { texts_po };

    fn partial_cmp(&self, other: &Key) -> Option<Ordering> {
        Some(self.cmp(other))
    }
}

impl Ord for Key {
    ghost use Rattle.std.specs.Prelude.{refl};
    ghost use Rattle.std.specs.Ordering.{nat_cmp};
    ghost use Rattle.std.specs.Cmp.Lexicographic.{slice_cmp, nat_list_cmp_total, texts_ties};

    ghost cmp = { slice_cmp nat_cmp };

    ghost total = { nat_list_cmp_total };

    ghost matches_partial_cmp = { λ x y. refl };

    ghost matches_eq = { texts_ties };

    fn cmp(&self, other: &Key) -> Ordering {
        match (&self.form, &other.form) {
            (Form::Inline(own, len), Form::Inline(that, that_len)) => match room_order(own, that) {
                Ordering::Equal => len.cmp(that_len),
                order => order,
            },
            _ => self.as_bytes().cmp(other.as_bytes()),
        }
    }
}

impl Hash for Key {
    ghost use Rattle.std.specs.Hash as fed;
    ghost use Rattle.std.specs.Cmp.Rules.{hashing};
    ghost use Rattle.std.proofs.Common.{rules};

    ghost hash_input = { λ k. fed.str k };

    ghost respects_eq = { Prim.search (hashing, rules) };

    fn hash<H: Hasher>(&self, state: &mut H) {
        self.as_str().hash(state);
    }
}

/// The eight bytes from a place on, as one number.
fn word(room: &[u8; MOST_INLINE], at: usize) -> u64
    requires { at ≤ 14 }
    ensures { result ≡ from_le_bytes w64 (take 8 (drop at room.now)) }
{
    u64::from_le_bytes([
        room[at],
        room[at + 1],
        room[at + 2],
        room[at + 3],
        room[at + 4],
        room[at + 5],
        room[at + 6],
        room[at + 7],
    ])
}

/// Whether two rooms hold the same bytes. They are compared eight at a time, of which the last overlap those before.
fn have_same_bytes(room: &[u8; MOST_INLINE], other: &[u8; MOST_INLINE]) -> bool
    ensures { IsTrue result ↔ (room.now ≡ other.now) }
{
    word(room, 0) == word(other, 0)
        && word(room, 8) == word(other, 8)
        && word(room, 14) == word(other, 14)
}

/// The eight bytes from a place on, as the number whose first digit is the first of them.
fn ordered_word(room: &[u8; MOST_INLINE], at: usize) -> u64
    requires { at ≤ 14 }
    ensures { result ≡ from_be_bytes w64 (take 8 (drop at room.now)) }
{
    u64::from_be_bytes([
        room[at],
        room[at + 1],
        room[at + 2],
        room[at + 3],
        room[at + 4],
        room[at + 5],
        room[at + 6],
        room[at + 7],
    ])
}

/// The order of two rooms by their bytes. The first word that differs decides.
fn room_order(room: &[u8; MOST_INLINE], other: &[u8; MOST_INLINE]) -> Ordering
    ensures { result ≡ slice_cmp nat_cmp room.now other.now }
{
    match ordered_word(room, 0).cmp(&ordered_word(other, 0)) {
        Ordering::Equal => match ordered_word(room, 8).cmp(&ordered_word(other, 8)) {
            Ordering::Equal => ordered_word(room, 14).cmp(&ordered_word(other, 14)),
            order => order,
        },
        order => order,
    }
}

/// The text of bytes that were a text's.
fn text_of(bytes: &[u8]) -> &str
    requires { is_utf8 bytes.now ≡ true }
    ensures { result.now ≡ bytes.now }
{
    match str::from_utf8(bytes) {
        Ok(text) => text,
        Err(_) => unreachable!(),
    }
}
