//! The two numbers of a key and a replica.
use rds_names::Key;

/// The greatest number that a replica counts under one key.
pub const MAX_COUNT: u64 = 281_474_976_710_655;

/// Which of a replica's two numbers is meant.
#[derive(Clone, Copy, Debug, PartialEq, Eq)]
pub enum Which {
    /// The sum of its increments.
    P,
    /// The sum of its decrements.
    N,
}

/// What one replica has counted under one key.
#[derive(Debug, PartialEq, Eq, Drop)]
pub struct CountRow {
    /// The counter's key.
    pub key: Key,
    /// The replica's number.
    pub replica: u8,
    /// The sum of its increments.
    pub p: u64,
    /// The sum of its decrements.
    pub n: u64,
}
