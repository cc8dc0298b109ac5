//! Where a leaf stands.
ghost use Rattle.std.specs.Prelude.{◌≡◌, ◌≤◌, ◌<◌, ◌↔◌, ◌++◌, ℕ, List, length, [], ◌∷◌, true, IsTrue, IsOk, IfOk};
ghost use Rattle.std.specs.Prelude.{IfErr, MatchOption, if◌then◌else◌, slice_get};
ghost use Rattle.std.specs.List.{list_all, starts_with};
ghost use Rattle.std.specs.Str.{bytes_eq};
ghost use Rattle.rds_names.specs.Key.{is_key};
ghost use Rattle.rds_names.specs.declared.fault.Fault.TheVariants.{Memory, BadKey};
ghost use Rattle.std.specs.Option.{option_copied};
ghost use Rattle.rds_names.specs.Gives.{Gives};
ghost use Rattle.rds_names.specs.Path.{path_of, path_of_keys, segments};

use crate::fault::Fault;
use crate::key::Key;
use std::alloc::Global;
use std::marker::Model;
use std::sync::ArcSlice;

/// The most keys of a path.
const MOST_KEYS: usize = 8;

/// At most 8 keys, from the root of the document down; the root itself has none.
#[derive(Debug)]
pub struct Path {
    keys: Option<ArcSlice<Key>>,
}

impl Drop for Path {
    fn drop(self) {
        let Path { keys: _keys } = self;
    }
}

impl Model for Path {
    ghost use Rattle.std.specs.Prelude.{ℕ, List, length, ◌≤◌, IfSome};
    ghost use Rattle.std.specs.Arc.{arc_slice_items};

    ghost Value = { List (List ℕ) };

    ghost use Rattle.rds_names.specs.Shared.{shared_items};

    ghost view = { λ p. shared_items p.keys };

    ghost invariant = { λ p. (length (shared_items p.keys) ≤ 8)
        × IfSome p.keys (λ keys. 1 ≤ length (arc_slice_items keys)) };
}

impl Path {
    /// The path of these keys; more than 8 are refused (`BadPath`). The root takes no memory.
    pub fn from_keys(keys: Vec<Key>) -> Result<Path, Fault>
        ensures value { Gives result (path_of_keys keys.items) }
        ensures root { keys.items ≡ [] → IsOk result }
    {
        if keys.len() > MOST_KEYS {
            return Err(Fault::BadPath);
        }
        Path::sharing(keys)
    }

    fn sharing(keys: Vec<Key>) -> Result<Path, Fault>
        requires { length keys.items ≤ 8 }
        ensures ok { IfOk result (λ path. path ≡ keys.items) }
        ensures memory { IfErr result (λ fault. fault ≡ Memory) }
        ensures root { keys.items ≡ [] → IsOk result }
    {
        if keys.is_empty() {
            return Ok(Path { keys: None });
        }
        Ok(Path {
            keys: Some(ArcSlice::from_vec(keys)?),
        })
    }

    /// The path whose keys stand between '/' in the text; the empty text is the root. More than 8
    /// pieces are refused first (`BadPath`), then a piece that is no key (`BadKey`). The root takes no memory.
    pub fn new(alloc: Global, text: &str) -> Result<Path, Fault>
        ensures value { Gives result (path_of text.now) }
        ensures root { text.now ≡ [] → IsOk result }
    {
        if text.is_empty() {
            return Ok(Path { keys: None });
        }
        let pieces = count_pieces(text);
        if pieces > MOST_KEYS {
            return Err(Fault::BadPath);
        }
        match keys_of(alloc, text, pieces) {
            Ok(keys) => Path::sharing(keys),
            Err(_) => Err(fault_of_pieces(text)),
        }
    }

    /// How many keys the path has.
    pub fn len(&self) -> usize
        ensures keys { result ≡ length self.now }
        ensures within { length self.now ≤ 8 }
    {
        self.keys().len()
    }

    /// Whether this is the root.
    pub fn is_empty(&self) -> bool
        ensures { IsTrue result ↔ (self.now ≡ []) }
    {
        self.keys().is_empty()
    }

    /// The keys, from the root down.
    pub fn keys(&self) -> &[Key]
        ensures keys { result.now ≡ self.now }
        ensures within { length self.now ≤ 8 }
    {
        match &self.keys {
            Some(keys) => keys.as_slice(),
            None => &[],
        }
    }

    /// The key at a place, of which the first is 0.
    pub fn key(&self, place: usize) -> Option<&Key>
        ensures { option_copied result ≡ slice_get self.now place }
    {
        self.keys().get(place)
    }

    /// Whether the other path's keys are the first of this one's, as the root's always are.
    pub fn begins_with(&self, other: &Path) -> bool
        ensures value { result ≡ starts_with bytes_eq self.now other.now }
        ensures rest { IsTrue result ↔ ((rest : List (List ℕ)) × (self.now ≡ other.now ++ rest)) }
    {
        self.keys().starts_with(other.keys())
    }

    /// An equal path, which shares the keys. The root can't fail.
    pub fn copy(&self, _alloc: Global) -> Result<Path, Fault>
        ensures ok { IfOk result (λ path. path ≡ self.now) }
        ensures memory { IfErr result (λ fault. fault ≡ Memory) }
        ensures root { self.now ≡ [] → IsOk result }
    {
        let keys = match &self.keys {
            Some(keys) => Some(keys.clone()?),
            None => None,
        };
        Ok(Path { keys })
    }
}

impl PartialEq for Path {
    ghost use Rattle.std.specs.Str.{bytes_eq};
    ghost use Rattle.std.specs.Cmp.{partial_equiv_from_equiv};
    ghost use Rattle.std.specs.Cmp.Lexicographic.{pointwise, lists_equiv, nat_list_eq_equiv};

    ghost eq = { pointwise bytes_eq };

    ghost laws = { partial_equiv_from_equiv (lists_equiv nat_list_eq_equiv) };

    fn eq(&self, other: &Path) -> bool
        ensures value { result ≡ pointwise bytes_eq self.now other.now }
        ensures same { IsTrue result ↔ (self.now ≡ other.now) }
    {
        self.keys() == other.keys()
    }
}

impl Eq for Path {
    ghost use Rattle.std.specs.Cmp.Lexicographic.{lists_equiv, nat_list_eq_equiv};

    ghost laws = { lists_equiv nat_list_eq_equiv };
}

/// How many pieces a text has. The byte of a '/' is in no other character.
fn count_pieces(text: &str) -> usize
    ensures { result ≡ length (segments text.now) }
{
    let mut pieces = 1;
    for byte in text.as_bytes() {
        if *byte == b'/' {
            pieces += 1;
        }
    }
    pieces
}

/// The text before the first '/' and the text behind it, unless there is none.
fn cut_once(text: &str) -> Option<(&str, &str)>
    ensures { MatchOption result (segments text.now ≡ text.now ∷ [])
        (λ parts. (segments text.now ≡ parts.0.now ∷ segments parts.1.now) × (length parts.1.now < length text.now)) }
{
    let at = text.as_bytes().iter().position(|byte| *byte == b'/')?;
    Some((&text[..at], &text[at + 1..]))
}

/// The pieces of a text, as keys. It fails where one is no key, and where there is no memory.
fn keys_of(alloc: Global, text: &str, pieces: usize) -> Result<Vec<Key>, Fault>
    ensures keys { IfOk result (λ keys. keys.items ≡ segments text.now) }
    ensures tested { IsOk result → IsTrue (list_all is_key (segments text.now)) }
{
    let mut keys = Vec::with_capacity(alloc, pieces)?;
    let mut rest = text;
    'cuts: while let Some((piece, after)) = cut_once(rest) {
        keys.push(Key::new(alloc, piece)?)?;
        rest = after;
    }
    keys.push(Key::new(alloc, rest)?)?;
    Ok(keys)
}

/// Why no keys could be made of a text. It is asked for only then, since it cuts the text once more.
#[inline(never)]
fn fault_of_pieces(text: &str) -> Fault
    ensures { result ≡ (if list_all is_key (segments text.now) then Memory else BadKey) }
{
    if text.split('/').all(|piece| Key::is_key(piece)) {
        Fault::Memory
    } else {
        Fault::BadKey
    }
}
