//! What is sent and judged as values.
ghost use Rattle.rds_answers.specs.Checked.{IsLeastDelta, IsOwnCertificate, PassesExactly};

/// What is sent and judged as values is what the laws of deltas speak of: the least delta, its certificate, and what
/// passes. The function does nothing: its contract is these laws.
pub fn values_are_least()
    ensures least { IsLeastDelta }
    ensures certificate { IsOwnCertificate }
    ensures passes { PassesExactly }
{}
