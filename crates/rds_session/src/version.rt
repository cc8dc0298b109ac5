//! The versions of a session.
ghost use Rattle.std.specs.Prelude.{◌≡◌};
ghost use Rattle.rds_session.specs.Versions.{delta_format, says_briefs, says_hashes, tells_marks, version_byte, version_said};

use rds_codec::Format;

/// A version of a session: a client says it, and its server speaks it.
#[derive(Clone, Copy, Debug, PartialEq, Eq)]
pub enum Version {
    /// Deltas are in format 1.
    One,
    /// Deltas are in format 2.
    Two,
    /// As version 2. The last message of each side says the mark of what it holds then, so that forks are told.
    Three,
    /// As version 3. A digest is said by its hash, and whole where the peer has another one.
    Four,
    /// As version 4, but that a digest which is said whole is its brief, and a client that knows the server's says what it
    /// wants of it in place of its own.
    Five,
}

impl Version {
    /// The byte by which a HELLO says it.
    pub fn byte(self) -> u8
        ensures { result ≡ version_byte self }
    {
        match self {
            Version::One => 1,
            Version::Two => 2,
            Version::Three => 3,
            Version::Four => 4,
            Version::Five => 5,
        }
    }

    /// The version that this byte says.
    pub fn from_byte(byte: u8) -> Option<Version>
        ensures { result ≡ version_said byte }
    {
        match byte {
            1 => Some(Version::One),
            2 => Some(Version::Two),
            3 => Some(Version::Three),
            4 => Some(Version::Four),
            5 => Some(Version::Five),
            _ => None,
        }
    }

    /// The format of its deltas.
    pub fn format(self) -> Format
        ensures { result ≡ delta_format self }
    {
        match self {
            Version::One => Format::One,
            Version::Two | Version::Three | Version::Four | Version::Five => Format::Two,
        }
    }

    /// Whether each side tells the mark of what it holds at the end.
    pub fn tells_marks(self) -> bool
        ensures { result ≡ tells_marks self }
    {
        match self {
            Version::One | Version::Two => false,
            Version::Three | Version::Four | Version::Five => true,
        }
    }

    /// Whether each side says its digest by a hash, as far as that is enough.
    pub fn says_hashes(self) -> bool
        ensures { result ≡ says_hashes self }
    {
        match self {
            Version::One | Version::Two | Version::Three => false,
            Version::Four | Version::Five => true,
        }
    }

    /// Whether a digest that is said whole is its brief, and behind another one what is wanted of that.
    pub fn says_briefs(self) -> bool
        ensures { result ≡ says_briefs self }
    {
        match self {
            Version::One | Version::Two | Version::Three | Version::Four => false,
            Version::Five => true,
        }
    }
}
