//! The law of reading texts as their bytes come.
ghost use Rattle.std.specs.Prelude.{ℕ};
ghost use Rattle.rds_bytes.specs.Steady.{IsSteady};
ghost use Rattle.rds_codec.specs.CertificateTexts.{certificate_row_at, certificate_at};
ghost use Rattle.rds_codec.specs.DigestTexts.{digest_at};
ghost use Rattle.rds_codec.specs.FormatTexts.{state_at_in, answer_at_in, snapshot_in_at};
ghost use Rattle.rds_codec.specs.HelloTexts.{hello_at};
ghost use Rattle.rds_codec.specs.declared.formats.Format.{Format};

/// What is read of a text stays read whatever follows. A fault other than `Cut` stays that fault whatever follows:
/// bytes are refused (`Bad`) only where no continuation of them would be read. The function does nothing: its contract
/// is the law.
pub fn texts_are_read_steadily()
    ensures states { (format : Format) (replicas : ℕ) → IsSteady (state_at_in format replicas) }
    ensures snapshots { IsSteady snapshot_in_at }
    ensures digests { (replicas : ℕ) → IsSteady (digest_at replicas) }
    ensures rows { (replicas : ℕ) → IsSteady (certificate_row_at replicas) }
    ensures certificates { (replicas : ℕ) → IsSteady (certificate_at replicas) }
    ensures answers { (format : Format) (replicas : ℕ) → IsSteady (answer_at_in format replicas) }
    ensures hellos { IsSteady hello_at }
{}
