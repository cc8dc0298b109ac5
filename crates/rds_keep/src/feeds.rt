//! Texts that are decoded as their bytes come. The bytes come in pieces, and what they can't become is refused when
//! that is known.
ghost use Rattle.std.specs.Prelude.{◌≡◌, ◌==◌, if◌then◌else◌, ℕ, List, [], ◌++◌, length};
ghost use Rattle.std.specs.Prelude.{Result, Ok, Err, OnOk, IfOk, IfErr, IsOk, MatchResult};
ghost use Rattle.rds_names.specs.declared.fault.Fault.{Fault};
ghost use Rattle.rds_names.specs.declared.fault.Fault.TheVariants.{Memory, Extra};
ghost use Rattle.rds_bytes.specs.Reading.{Reads, Reader};
ghost use Rattle.rds_codec.specs.Decoding.{Decodes, all_of};
ghost use Rattle.rds_codec.specs.declared.formats.Format.{Format};
ghost use Rattle.rds_keep.specs.Feeding.{AddsPiece, Ends, GoesOn, RefusesPiece, StandsFor, decoding, read_on};

use crate::fed::Fed;
use rds_codec::{Format, LIMIT};
use rds_feeds::{Progress, Unfinished};
use rds_names::Fault;
use std::alloc::Global;
use std::marker::Model;

/// How many bytes of a piece are read at once: so many are held beside what is there of a part.
const BLOCK: usize = 4_096;

/// A text that is decoded as its bytes come.
///
/// It stands for the bytes that it was given, as long as it has no fault: however they go on, it ends as decoding all
/// of them does. What was read of them it holds as a value, and as bytes only what is there of the next part.
#[derive(Drop)]
pub struct Feed<U: Unfinished> {
    alloc: Global,
    progress: Result<Progress<U, U::Whole>, Fault>,
    rest: Vec<u8>,
    left: usize,
}

impl<U: Unfinished> Model for Feed<U> {
    ghost use Rattle.rds_keep.specs.Feeding.{FeedValue};

    ghost Value = { FeedValue U U.Whole };

    ghost view = { λ f. record { progress = f.progress; rest = f.rest.items; left = f.left } };
}

// How far reading has come by a block of bytes, behind those that are held. Nothing may be behind a whole value.
fn read_block<U: Unfinished>(
    alloc: Global,
    progress: Progress<U, U::Whole>,
    rest: &mut Vec<u8>,
    block: &[u8],
) -> Result<Progress<U, U::Whole>, Fault>
    ensures ok { IfOk result (λ new. GoesOn U.finish progress rest.old.items block.now new rest.new.items) }
    ensures err { IfErr result (Ends U.finish progress rest.old.items block.now) }
{
    let mut bytes = std::mem::replace(rest, Vec::new(alloc));
    bytes.extend_from_slice(block)?;
    match progress {
        Progress::Whole(whole) => {
            if !bytes.is_empty() {
                return Err(Fault::Extra);
            }
            Ok(Progress::Whole(whole))
        }
        Progress::More(unfinished) => {
            let (reached, behind) = unfinished.read_on(alloc, &bytes)?;
            match reached {
                Progress::Whole(whole) => {
                    if !behind.is_empty() {
                        return Err(Fault::Extra);
                    }
                    Ok(Progress::Whole(whole))
                }
                Progress::More(unfinished) => {
                    *rest = Vec::from_slice(alloc, behind)?;
                    Ok(Progress::More(unfinished))
                }
            }
        }
    }
}

// How far reading has come by a piece, which is read in blocks.
fn read_piece<U: Unfinished>(
    alloc: Global,
    progress: Progress<U, U::Whole>,
    rest: &mut Vec<u8>,
    piece: &[u8],
) -> Result<Progress<U, U::Whole>, Fault>
    ensures ok { IfOk result (λ new. GoesOn U.finish progress rest.old.items piece.now new rest.new.items) }
    ensures err { IfErr result (Ends U.finish progress rest.old.items piece.now) }
{
    let mut reached = progress;
    let mut bytes = piece;
    'reading: while !bytes.is_empty() {
        let (block, after) = bytes.split_at(bytes.len().min(BLOCK));
        reached = read_block(alloc, reached, rest, block)?;
        bytes = after;
    }
    Ok(reached)
}

// The value, where nothing is behind it.
fn read_whole<V: Drop>(whole: V, after: &[u8]) -> Result<V, Fault>
    ensures { result ≡ (if length after.now == 0 then Ok whole else Err Extra) }
{
    if !after.is_empty() {
        return Err(Fault::Extra);
    }
    Ok(whole)
}

// The value, where the bytes that are held end it.
fn read_end<U: Unfinished>(
    alloc: Global,
    progress: Progress<U, U::Whole>,
    rest: &[u8],
) -> Result<U::Whole, Fault>
    ensures { Reads (λ v. v) result (all_of (read_on U.finish progress) rest.now) }
{
    match progress {
        Progress::Whole(whole) => read_whole(whole, rest),
        Progress::More(unfinished) => {
            let (reached, after) = unfinished.read_on(alloc, rest)?;
            match reached {
                Progress::Whole(whole) => read_whole(whole, after),
                Progress::More(_) => Err(Fault::Cut),
            }
        }
    }
}

impl<U: Unfinished> Feed<U> {
    /// A feed that was given no bytes yet, of a value of which nothing was read. Takes no memory.
    pub fn of(alloc: Global, unfinished: U) -> Feed<U>
        ensures { StandsFor U.finish (U.finish unfinished) result [] }
    {
        Feed {
            alloc,
            progress: Ok(Progress::More(unfinished)),
            rest: Vec::new(alloc),
            left: LIMIT,
        }
    }

    /// How many bytes may still come.
    pub(crate) fn left(&self) -> usize
        ensures { result ≡ self.now.left }
    {
        self.left
    }

    /// Takes the next bytes, which are added to those that it stands for.
    ///
    /// Refuses `TooLong` where a text can't have so many bytes, before any of them is read; and else only where
    /// decoding refuses the bytes up to these so, and no bytes that may follow make a text of them, or memory runs out.
    /// A fault is kept for good: each later call answers the same.
    pub fn feed(&mut self, piece: &[u8]) -> Result<(), Fault>
        ensures adds { OnOk result (AddsPiece U.finish self.old self.new piece.now) }
        ensures refuses { IfErr result (RefusesPiece U.finish self.old piece.now) }
        ensures kept { MatchResult result (λ _. IsOk self.new.progress) (λ e. self.new.progress ≡ Err e) }
        ensures again { IfErr self.old.progress (λ e. result ≡ Err e) }
    {
        match std::mem::replace(&mut self.progress, Err(Fault::Memory)) {
            Err(fault) => {
                self.progress = Err(fault);
                Err(fault)
            }
            Ok(_) if self.left < piece.len() => {
                self.progress = Err(Fault::TooLong);
                Err(Fault::TooLong)
            }
            Ok(progress) => match read_piece(self.alloc, progress, &mut self.rest, piece) {
                Err(fault) => {
                    self.progress = Err(fault);
                    Err(fault)
                }
                Ok(progress) => {
                    self.progress = Ok(progress);
                    self.left -= piece.len();
                    Ok(())
                }
            },
        }
    }
}

impl<U: Fed> Feed<U> {
    /// A feed of texts in a format, of a roster of so many replicas, that was given no bytes yet. Takes no memory.
    pub fn new(alloc: Global, format: Format, replicas: u16) -> Feed<U>
        ensures { StandsFor U.finish (U.reader format replicas) result [] }
    {
        Feed::of(alloc, U::begin(alloc, format, replicas))
    }

    /// The value whose text the bytes are, or the fault that decoding gives of them. After a fault it is that one.
    pub fn end(self) -> Result<U::Whole, Fault>
        ensures text { (format : Format) (replicas : ℕ) (came : List ℕ)
            → StandsFor U.finish (U.reader format replicas) self came → Decodes (U.kind format replicas) came result }
        ensures read { (reader : Reader U.Whole) (came : List ℕ) → StandsFor U.finish reader self came
            → Reads (λ v. v) result (decoding reader came) }
        ensures again { IfErr self.progress (λ e. result ≡ Err e) }
    {
        let Feed {
            alloc,
            progress,
            rest,
            left: _left,
        } = self;
        read_end(alloc, progress?, &rest)
    }
}
