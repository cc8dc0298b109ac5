//! Texts whose bytes come in pieces. What was read of them is held as a value, and of a text that is refused nothing.
ghost use Rattle.std.specs.Prelude.{◌≡◌, ◌≤◌, ℕ, List, [], ◌++◌, length, IfOk, IfErr};
ghost use Rattle.rds_names.specs.declared.fault.Fault.TheVariants.{Memory};
ghost use Rattle.rds_bytes.specs.Reading.{Reader, Reads};
ghost use Rattle.rds_codec.specs.declared.limits.TheConstants.{LIMIT};
ghost use Rattle.rds_codec.specs.Decoding.{all_of};
ghost use Rattle.rds_session.specs.Coming.{HoldsText};

use crate::came::Came;
use rds_codec::Format;
use rds_keep::{Fed, Feed};
use rds_names::Fault;
use std::alloc::Global;
use std::marker::Model;

/// What has come of a text in a format, of a roster of so many replicas: a feed of its bytes, or why no text begins
/// with them.
pub struct Coming<U: Fed> {
    format: Format,
    replicas: u16,
    text: Result<Feed<U>, Fault>,
    came: Came,
}

// Written out, so that where it is let go a caller's proof has one call.
impl<U: Fed> Drop for Coming<U> {
    fn drop(self) {
        let Coming {
            format: _,
            replicas: _,
            text: _text,
            came: _came,
        } = self;
    }
}

impl<U: Fed> Model for Coming<U> {
    ghost use Rattle.rds_session.specs.Coming.{ComingValue, HoldsText};

    ghost Value = { ComingValue };

    ghost view = { λ c. record { format = c.format; replicas = c.replicas; came = c.came.bytes } };

    ghost invariant = { λ c. HoldsText U.finish (U.reader c.format c.replicas) c.text c.came.bytes };
}

// The feed with the next bytes. But for `Memory`, a fault comes in its place.
fn fed_with<U: Fed>(
    text: Result<Feed<U>, Fault>,
    piece: &[u8],
) -> Result<Result<Feed<U>, Fault>, Fault>
    ensures ok { IfOk result (λ new. (reader : Reader U.Whole) (came : List ℕ) → HoldsText U.finish reader text came
        → HoldsText U.finish reader new (came ++ piece.now)) }
    ensures memory { IfErr result (λ e. e ≡ Memory) }
{
    match text {
        Err(fault) => Ok(Err(fault)),
        Ok(feed) => {
            let mut feed = feed;
            match feed.feed(piece) {
                Ok(()) => Ok(Ok(feed)),
                Err(fault) => match fault {
                    Fault::Memory => Err(Fault::Memory),
                    fault => Ok(Err(fault)),
                },
            }
        }
    }
}

impl<U: Fed> Coming<U> {
    /// Nothing of a text. Takes no memory.
    pub fn new(alloc: Global, format: Format, replicas: u16) -> Coming<U>
        ensures { result ≡ record { format = format; replicas = replicas; came = [] } }
    {
        Coming {
            format,
            replicas,
            text: Ok(Feed::new(alloc, format, replicas)),
            came: Came::nothing(),
        }
    }

    /// The same with the next bytes. What they can't become is refused at the end.
    pub fn add(self, piece: &[u8]) -> Result<Coming<U>, Fault>
        ensures ok { IfOk result (λ new. new
            ≡ record { format = self.format; replicas = self.replicas; came = self.came ++ piece.now }) }
        ensures memory { IfErr result (λ e. e ≡ Memory) }
    {
        let Coming {
            format,
            replicas,
            text,
            came,
        } = self;
        let mut came = came;
        came.add(piece);
        let text = fed_with(text, piece)?;
        Ok(Coming {
            format,
            replicas,
            text,
            came,
        })
    }

    /// What reading all of the bytes gives.
    pub fn end(self) -> Result<U::Whole, Fault>
        ensures read { length self.came ≤ LIMIT
            → Reads (λ v. v) result (all_of (U.reader self.format self.replicas) self.came) }
    {
        let Coming {
            format: _,
            replicas: _,
            text,
            came: _came,
        } = self;
        match text {
            Ok(feed) => feed.end(),
            Err(fault) => Err(fault),
        }
    }
}
