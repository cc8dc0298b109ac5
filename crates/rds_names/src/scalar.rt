//! The values at the leaves.
ghost use Rattle.std.specs.Prelude.{◌≡◌, ◌≤◌, ◌↔◌, length, IsTrue, IfOk, IfErr};
ghost use Rattle.rds_names.specs.declared.fault.Fault.TheVariants.{Memory};
ghost use Rattle.rds_names.specs.Gives.{Gives};
ghost use Rattle.rds_names.specs.Text.{text_of};

use crate::fault::Fault;
use std::alloc::Global;
use std::cmp::Ordering;
use std::marker::Model;
use std::sync::ArcStr;

/// The most bytes of a text.
const MOST_BYTES: usize = 1024;

/// A text of at most 1,024 bytes. Texts are ordered by their bytes.
#[derive(Debug)]
pub struct Text {
    text: ArcStr,
}

impl Drop for Text {
    fn drop(self) {
        let Text { text: _text } = self;
    }
}

impl Model for Text {
    ghost use Rattle.std.specs.Prelude.{ℕ, List, length, ◌≤◌};
    ghost use Rattle.std.specs.Arc.{arc_str_bytes};

    ghost Value = { List ℕ };

    ghost view = { λ t. arc_str_bytes t.text };

    ghost invariant = { λ t. length (arc_str_bytes t.text) ≤ 1024 };
}

impl Text {
    fn new(alloc: Global, text: &str) -> Result<Text, Fault>
        ensures { Gives result (text_of text.now) }
    {
        if text.len() > MOST_BYTES {
            return Err(Fault::BadScalar);
        }
        Ok(Text {
            text: ArcStr::from_str(alloc, text)?,
        })
    }

    /// The text.
    pub fn as_str(&self) -> &str
        ensures text { result.now ≡ self.now }
        ensures within { length self.now ≤ 1024 }
    {
        self.text.as_str()
    }

    /// An equal text, which shares the bytes.
    pub fn copy(&self, _alloc: Global) -> Result<Text, Fault>
        ensures ok { IfOk result (λ text. text ≡ self.now) }
        ensures memory { IfErr result (λ fault. fault ≡ Memory) }
    {
        Ok(Text {
            text: self.text.clone()?,
        })
    }
}

impl PartialEq for Text {
    ghost use Rattle.std.specs.Str.{bytes_eq};
    ghost use Rattle.std.specs.Cmp.{partial_equiv_from_equiv};
    ghost use Rattle.std.specs.Cmp.Lexicographic.{nat_list_eq_equiv};

    ghost eq = { bytes_eq };

    ghost laws = { partial_equiv_from_equiv nat_list_eq_equiv };

    fn eq(&self, other: &Text) -> bool
        ensures value { result ≡ bytes_eq self.now other.now }
        ensures same { IsTrue result ↔ (self.now ≡ other.now) }
    {
        self.text == other.text
    }
}

impl Eq for Text {
    ghost use Rattle.std.specs.Cmp.Lexicographic.{nat_list_eq_equiv};

    ghost laws = { nat_list_eq_equiv };
}

impl PartialOrd for Text {
    ghost use Rattle.std.specs.Prelude.{Some};
    ghost use Rattle.std.specs.Ordering.{nat_cmp};
    ghost use Rattle.std.specs.Cmp.Lexicographic.{slice_cmp, texts_po};

    ghost partial_cmp = { λ x y. Some (slice_cmp nat_cmp x y) };

    ghost laws = { texts_po };

    fn partial_cmp(&self, other: &Text) -> Option<Ordering> {
        Some(self.cmp(other))
    }
}

impl Ord for Text {
    ghost use Rattle.std.specs.Prelude.{refl};
    ghost use Rattle.std.specs.Ordering.{nat_cmp};
    ghost use Rattle.std.specs.Cmp.Lexicographic.{slice_cmp, nat_list_cmp_total, texts_ties};

    ghost cmp = { slice_cmp nat_cmp };

    ghost total = { nat_list_cmp_total };

    ghost matches_partial_cmp = { λ x y. refl };

    ghost matches_eq = { texts_ties };

    fn cmp(&self, other: &Text) -> Ordering {
        self.text.cmp(&other.text)
    }
}

/// What a leaf may hold. Scalars are ordered thus: null, false, true, integers by size, texts by bytes.
#[derive(Debug, PartialEq, Eq, PartialOrd, Ord, Drop)]
pub enum Scalar {
    Null,
    Bool(bool),
    Int(i64),
    Text(Text),
}

impl Scalar {
    ghost use Rattle.rds_names.specs.Scalar.{IsText, scalar_of_text};

    /// The scalar that is this text; one of more than 1,024 bytes is refused (`BadScalar`).
    pub fn text(alloc: Global, text: &str) -> Result<Scalar, Fault>
        ensures { Gives result (scalar_of_text text.now) }
    {
        Ok(Scalar::Text(Text::new(alloc, text)?))
    }

    /// An equal scalar, which shares the text if it is one. Only then can it fail.
    pub fn copy(&self, alloc: Global) -> Result<Scalar, Fault>
        ensures ok { IfOk result (λ scalar. scalar ≡ self.now) }
        ensures memory { IfErr result (λ fault. fault ≡ Memory) }
        ensures room { IfErr result (λ _. IsText self.now) }
    {
        Ok(match self {
            Scalar::Null => Scalar::Null,
            Scalar::Bool(value) => Scalar::Bool(*value),
            Scalar::Int(value) => Scalar::Int(*value),
            Scalar::Text(text) => Scalar::Text(text.copy(alloc)?),
        })
    }

    /// Whether the two are equal.
    pub fn same(&self, other: &Scalar) -> bool
        ensures { IsTrue result ↔ (self.now ≡ other.now) }
    {
        self == other
    }
}
