//! The laws of briefs.
ghost use Rattle.std.specs.Prelude.{ℕ};
ghost use Rattle.rds_codec.specs.Laws.{StandApart};
ghost use Rattle.rds_briefs.specs.Briefs.{brief_kind};
ghost use Rattle.rds_briefs.specs.ReadBriefs.{ReadsTexts, brief_at};

/// No brief within the limit begins another one, and each has one digest: where bytes begin with the briefs of
/// two digests of as many replicas, these are one. The function does nothing: its contract is this law.
pub fn briefs_stand_apart()
    ensures { (replicas : ℕ) → StandApart (brief_kind replicas) }
{}

/// What is read as a brief is the brief of what is read, whatever follows it, and each brief within the limit is read
/// so. The function does nothing: its contract is this law.
pub fn briefs_are_read()
    ensures { (replicas : ℕ) → ReadsTexts (brief_kind replicas) (brief_at replicas) }
{}
