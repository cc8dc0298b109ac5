//! What is fed: values that are read as the bytes of their texts come.
ghost use Rattle.std.specs.Prelude.{◌≡◌, ℕ, List, Result};
ghost use Rattle.rds_names.specs.declared.fault.Fault.{Fault};
ghost use Rattle.rds_codec.specs.Kinds.{Kind};
ghost use Rattle.rds_codec.specs.declared.formats.Format.{Format};
ghost use Rattle.rds_keep.specs.Feeding.{DecodesTexts};

use rds_codec::Format;
use rds_feeds::Unfinished;
use std::alloc::Global;

/// A value of which a prefix of its text was read, where values of its kind have texts.
pub trait Fed: Unfinished {
    /// The kind of texts, in a format and of a roster of so many replicas.
    ghost kind: { Format → ℕ → Kind Self.Whole };

    /// How these texts are read.
    ghost reader: { Format → ℕ → List ℕ → Result (Self.Whole × List ℕ) Fault };

    /// A value of which nothing was read yet. Takes no memory.
    fn begin(alloc: Global, format: Format, replicas: u16) -> Self
        ensures { (bytes : List ℕ) → Self.finish result bytes ≡ reader format replicas bytes };

    /// To read all of the bytes so is to decode them.
    ghost decodes: { (format : Format) (replicas : ℕ) → DecodesTexts (kind format replicas) (reader format replicas) };
}
