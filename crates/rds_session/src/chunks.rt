//! Messages on a stream of bytes: a message comes in chunks, each a length and that many bytes, and ends with a chunk
//! of length 0.
ghost use Rattle.std.specs.Prelude.{◌≡◌, IfOk, IfErr};
ghost use Rattle.rds_names.specs.declared.fault.Fault.TheVariants.{Memory};
ghost use Rattle.rds_session.specs.Chunks.{place_left};

use crate::content::Expected;
use crate::message::Message;
use rds_codec::LIMIT;
use rds_dots::DotSet;
use rds_names::Fault;
use std::alloc::Global;
use std::marker::Model;

/// The greatest length of a message, without the lengths of its chunks.
pub const MESSAGE_LIMIT: usize = LIMIT;

/// Where the next byte stands in its chunk.
#[derive(Clone, Copy, Debug, PartialEq, Eq)]
pub enum Place {
    /// It is the first byte of the chunk's length.
    First,
    /// It is the second byte of the length, of which this is the first.
    Second(u8),
    /// It is one of so many bytes of the chunk that are still to come.
    Within(u16),
}

/// What has come of a message: the place in its chunk, how many of its bytes came, and what they are read as.
pub struct Chunks<S: DotSet> {
    place: Place,
    count: usize,
    message: Message<S>,
}

// Written out, so that where it is let go a caller's proof has one call.
impl<S: DotSet> Drop for Chunks<S> {
    fn drop(self) {
        let Chunks {
            place: _,
            count: _,
            message: _message,
        } = self;
    }
}

impl<S: DotSet> Model for Chunks<S> {
    ghost use Rattle.std.specs.Prelude.{◌≡◌, length};
    ghost use Rattle.rds_session.specs.Arriving.{Reading, IsPlace, IsHeld};

    ghost Value = { Reading };

    ghost view = { λ c. record {
      expected = c.message.expected;
      under = record { place = c.place; held = c.message.came };
    } };

    ghost invariant = { λ c. IsPlace c.place × IsHeld c.message.came × (c.count ≡ length c.message.came) };
}

/// What bytes made of a message.
pub enum Scanned<'a, S: DotSet> {
    /// All of them belong to it, and more are to come.
    More(Chunks<S>),
    /// It has ended. These bytes follow it.
    Whole(Message<S>, &'a [u8]),
    /// It passed the limit.
    Long,
}

// Where the next byte stands once so many bytes of a chunk are still to come.
fn place_of(left: u16) -> Place
    ensures { result ≡ place_left left }
{
    if left == 0 {
        Place::First
    } else {
        Place::Within(left)
    }
}

impl<S: DotSet> Chunks<S> {
    ghost use Rattle.rds_session.specs.Chunks.{start_of_chunks, scan};
    ghost use Rattle.rds_session.specs.Scanning.{IsScan, MessageIsWithin};

    /// Nothing of a message. Takes no memory.
    pub fn new(expected: Expected) -> Chunks<S>
        ensures { result ≡ record { expected = expected; under = start_of_chunks } }
    {
        Chunks {
            place: Place::First,
            count: 0,
            message: Message::new(expected),
        }
    }

    /// Takes bytes up to the end of a message, or to the byte by which it passes the limit.
    #[tactic(auto, unfolding(crate::specs::Chunks::scan))]
    pub fn take<'a>(self, alloc: Global, piece: &'a [u8]) -> Result<Scanned<'a, S>, Fault>
        ensures ok { IfOk result (IsScan self.expected (scan piece.now self.under)) }
        ensures within { IfOk result MessageIsWithin }
        ensures err { IfErr result (λ e. e ≡ Memory) }
    {
        let Chunks {
            place,
            count,
            message,
        } = self;
        let mut place = place;
        let mut count = count;
        let mut message = message;
        let mut rest = piece;
        'bytes: while let Some((byte, more)) = rest.split_first() {
            let bytes = rest;
            rest = more;
            match place {
                Place::First => place = Place::Second(*byte),
                Place::Second(high) => {
                    let left = u16::from(high) * 256 + u16::from(*byte);
                    if left == 0 {
                        return Ok(Scanned::Whole(message, rest));
                    }
                    place = Place::Within(left);
                }
                Place::Within(left) => {
                    let length = usize::from(left).min(bytes.len());
                    if MESSAGE_LIMIT - count < length {
                        return Ok(Scanned::Long);
                    }
                    let (run, behind) = bytes.split_at(length);
                    message = message.add(alloc, run)?;
                    count += length;
                    place = place_of(left - length as u16);
                    rest = behind;
                }
            }
        }
        Ok(Scanned::More(Chunks {
            place,
            count,
            message,
        }))
    }
}
