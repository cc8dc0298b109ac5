//! A value that is being read in one of the formats.
ghost use Rattle.rds_codec.specs.InFormat.{finish_in};

use rds_feeds::{Progress, Unfinished};
use rds_names::Fault;
use std::alloc::Global;

/// A value that is being read, in format 1 or format 2.
#[derive(Drop)]
pub enum InFormat<A, B> {
    One(A),
    Two(B),
}

impl<W: Drop, A: Unfinished<Whole = W>, B: Unfinished<Whole = W>> Unfinished for InFormat<A, B> {
    type Whole = W;

    ghost finish = { finish_in A.finish B.finish };

    fn read_on<'a>(
        self,
        alloc: Global,
        bytes: &'a [u8],
    ) -> Result<(Progress<Self, W>, &'a [u8]), Fault> {
        match self {
            InFormat::One(one) => {
                let (progress, rest) = one.read_on(alloc, bytes)?;
                match progress {
                    Progress::More(one) => Ok((Progress::More(InFormat::One(one)), rest)),
                    Progress::Whole(whole) => Ok((Progress::Whole(whole), rest)),
                }
            }
            InFormat::Two(two) => {
                let (progress, rest) = two.read_on(alloc, bytes)?;
                match progress {
                    Progress::More(two) => Ok((Progress::More(InFormat::Two(two)), rest)),
                    Progress::Whole(whole) => Ok((Progress::Whole(whole), rest)),
                }
            }
        }
    }
}
