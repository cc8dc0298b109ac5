//! The laws of texts.
ghost use Rattle.std.specs.Prelude.{◌≡◌, ℕ, List, ◌++◌, Ok};
ghost use Rattle.rds_state.specs.Fits.{ReplicaValue};
ghost use Rattle.rds_state.specs.Value.{StateValue};
ghost use Rattle.rds_bytes.specs.Reading.{key_at};
ghost use Rattle.rds_bytes.specs.Spelling.{short_text};
ghost use Rattle.rds_codec.specs.AnswerValues.{AnswerValue};
ghost use Rattle.rds_codec.specs.CertificateTexts.{certificate_kind, certificate_at};
ghost use Rattle.rds_codec.specs.Decoding.{all_of};
ghost use Rattle.rds_codec.specs.DigestTexts.{digest_kind, digest_at};
ghost use Rattle.rds_codec.specs.FormatTexts.{
  state_kind_in,
  state_text_in,
  state_at_in,
  answer_kind_in,
  answer_text_in,
  answer_at_in,
  Snapshot,
  snapshot_text_in,
  snapshot_kind_in,
  snapshot_in_at,
};
ghost use Rattle.rds_codec.specs.HelloTexts.{hello_kind, hello_at};
ghost use Rattle.rds_codec.specs.Laws.{DecodesOnce, HasText, IsSameAmongMore, StandApart};
ghost use Rattle.rds_codec.specs.StateTexts.{body_at, body_text};
ghost use Rattle.rds_codec.specs.declared.formats.Format.{Format};
ghost use Rattle.rds_codec.specs.declared.formats.Format.TheVariants.{One, Two};
ghost use Rattle.rds_codec.specs.declared.hellos.TheConstants.{VERSION};
ghost use Rattle.rds_codec.specs.declared.limits.TheConstants.{LIMIT};

/// No text of a kind begins another of that kind, and one text has one value: of states and answers within each format,
/// of snapshots in both formats together. No snapshot of one format begins one of the other, however long they are.
/// That a value has one text in a format needs no law: its text is a function of it. The function does nothing: its
/// contract is these laws.
pub fn texts_stand_apart()
    ensures states { (format : Format) (replicas : ℕ) → StandApart (state_kind_in format replicas) }
    ensures snapshots { StandApart snapshot_kind_in }
    ensures formats { (v w : ReplicaValue) (x y : List ℕ)
        → snapshot_text_in One v ++ x ≡ snapshot_text_in Two w ++ y → ⊥ }
    ensures digests { (replicas : ℕ) → StandApart (digest_kind replicas) }
    ensures certificates { (replicas : ℕ) → StandApart (certificate_kind replicas) }
    ensures answers { (format : Format) (replicas : ℕ) → StandApart (answer_kind_in format replicas) }
    ensures hellos { StandApart hello_kind }
{}

/// The parts of a state of format 2 are those of format 1, but for how their keys are spelled and read. The function
/// does nothing: its contract is this law.
pub fn formats_have_the_same_parts()
    ensures texts { (v : StateValue) → body_text short_text v ≡ state_text_in One v }
    ensures readers { (replicas : ℕ) → body_at key_at replicas ≡ state_at_in One replicas }
{}

/// In each format all of a value's text within the limit is read as this value, and a snapshot as this replica in this
/// format. The function does nothing: its contract is these laws.
pub fn formats_are_read_again()
    ensures states { (format : Format) (replicas : ℕ) (v : StateValue) → HasText (state_kind_in format replicas) v
        → all_of (state_at_in format replicas) (state_text_in format v) ≡ Ok v }
    ensures answers { (format : Format) (replicas : ℕ) (a : AnswerValue) → HasText (answer_kind_in format replicas) a
        → all_of (answer_at_in format replicas) (answer_text_in format a) ≡ Ok a }
    ensures snapshots { (s : Snapshot) → HasText snapshot_kind_in s
        → all_of snapshot_in_at (snapshot_text_in s.0 s.1) ≡ Ok s }
{}

/// What decoding promises leaves one answer to the same bytes, but for `Memory`: which of `Cut` and `Bad` a
/// refusal is follows from the bytes. The function does nothing: its contract is these laws.
pub fn decoding_has_one_result()
    ensures states { (format : Format) (replicas : ℕ)
        → DecodesOnce (state_kind_in format replicas) (state_at_in format replicas) }
    ensures snapshots { DecodesOnce snapshot_kind_in snapshot_in_at }
    ensures digests { (replicas : ℕ) → DecodesOnce (digest_kind replicas) (digest_at replicas) }
    ensures certificates { (replicas : ℕ) → DecodesOnce (certificate_kind replicas) (certificate_at replicas) }
    ensures answers { (format : Format) (replicas : ℕ)
        → DecodesOnce (answer_kind_in format replicas) (answer_at_in format replicas) }
    ensures hellos { DecodesOnce hello_kind hello_at }
{}

/// A text whose reader knows a roster by its length is, under a longer roster, still the text of the same value. So
/// what a replica told can be read with the roster that its group has grown to. The function does nothing: its contract
/// is these laws.
pub fn texts_outlive_growth()
    ensures states { (format : Format) → IsSameAmongMore (state_kind_in format) }
    ensures digests { IsSameAmongMore digest_kind }
    ensures certificates { IsSameAmongMore certificate_kind }
    ensures answers { (format : Format) → IsSameAmongMore (answer_kind_in format) }
{}

/// The greatest length of a text, 256 MiB, and the version that a session begins with. The function does nothing: its
/// contract is these numbers.
pub fn limits_of_texts()
    ensures length { LIMIT ≡ 268435456 }
    ensures version { VERSION ≡ 2 }
{}
