//! One event of a replica, and a run of them.

/// The greatest number of a dot.
pub const MAX_SEQ: u64 = 281_474_976_710_655;

/// A dot: the event `seq` of a replica (Almeida, Shoker, Baquero 2018). An event's number is 1 to
/// `MAX_SEQ`; a value may hold any. Dots are ordered by replica, then number.
#[derive(Clone, Copy, Debug, PartialEq, Eq, PartialOrd, Ord)]
pub struct Dot {
    pub replica: u8,
    pub seq: u64,
}

/// The dots `lo` to `hi` of a replica, both among them.
#[derive(Clone, Copy, Debug, PartialEq, Eq)]
pub struct Run {
    pub replica: u8,
    pub lo: u64,
    pub hi: u64,
}

impl Run {
    ghost use Rattle.std.specs.Prelude.{◌≡◌};
    ghost use Rattle.rds_dots.specs.Dots.{first_of, last_of};

    /// The run's least dot.
    pub fn first(&self) -> Dot
        ensures { result ≡ first_of self.now }
    {
        Dot {
            replica: self.replica,
            seq: self.lo,
        }
    }

    /// The run's greatest dot.
    pub fn last(&self) -> Dot
        ensures { result ≡ last_of self.now }
    {
        Dot {
            replica: self.replica,
            seq: self.hi,
        }
    }
}
