//! A new text that is to take an old one's place.
ghost use Rattle.std.specs.Prelude.{◌≡◌, Bool, true, OnOk};
ghost use Rattle.std.specs.Io.KnownBytes.{Keeps};

use std::io;
use std::io::Write;

/// A new text that is to take an old one's place, as a file that is written beside another, synced
/// and then renamed to it. After a write nothing is known of whether it is synced or renamed.
pub trait Place: Write {
    /// All that was written is where it outlasts the program.
    ghost synced: { Self → Bool };

    /// It has taken the old text's place.
    ghost renamed: { Self → Bool };

    /// Makes it synced.
    fn sync(&mut self) -> io::Result<()>
        ensures synced { OnOk result (synced self.new ≡ true) }
        ensures bytes { Keeps (Self.contents self.old) (Self.contents self.new) };

    /// Makes it renamed. Its caller gives a place that was synced and not written to since.
    fn rename(&mut self) -> io::Result<()>
        requires { synced self.old ≡ true }
        ensures renamed { OnOk result (renamed self.new ≡ true) }
        ensures bytes { Keeps (Self.contents self.old) (Self.contents self.new) };
}
