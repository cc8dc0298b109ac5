//! How far a dot has come.

/// How far a dot has come. It only ever goes on, from unseen to live to dead; the entry of a live
/// dot never changes.
#[derive(Clone, Copy, Debug, PartialEq, Eq)]
pub enum Rank {
    /// Nothing is known of the dot.
    Unseen,
    /// The dot has an entry.
    Live,
    /// The dot's entry was removed, for good.
    Dead,
}
