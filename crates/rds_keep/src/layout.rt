//! Where the parts of a file stand.
use rds_codec::Format;

/// Where the parts of a file stand, in bytes.
#[derive(Clone, Copy, Debug, PartialEq, Eq)]
pub struct Layout {
    /// The format of the snapshot.
    pub format: Format,
    /// Where the snapshot ends, with the record of its checksum where it has one.
    pub snapshot: u64,
    /// Where the last whole record ends: what stands behind it is a torn end.
    pub whole: u64,
    /// How many bytes there are.
    pub length: u64,
}
