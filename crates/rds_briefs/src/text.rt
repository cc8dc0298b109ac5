//! A text that is written without knowing how long it gets.
ghost use Rattle.std.specs.Prelude.{◌≡◌, ◌≤◌, ◌+◌, true, List, [], ◌∷◌, ◌++◌, ℕ};
ghost use Rattle.rds_bytes.specs.Packed.{packed_text};
ghost use Rattle.rds_bytes.specs.Spelling.{counters_text};
ghost use Rattle.rds_codec.specs.Writing.{Encodes};
ghost use Rattle.rds_briefs.specs.Texts.{HoldsBriefText, Extends, capped};

use rds_bytes::{MAX_PACKED, counters_length, packed_length, put_byte, put_counters, put_packed};
use rds_codec::LIMIT;
use rds_counts::Counts;
use rds_names::Fault;
use std::alloc::Global;

/// The bytes of a text while they are kept, and how many they are. To write never fails: what can't be kept is counted.
#[derive(Drop)]
pub struct Text {
    bytes: Vec<u8>,
    length: u64,
    is_kept: bool,
}

impl Text {
    /// No bytes as yet, of a text that is kept.
    pub fn new(alloc: Global) -> Text
        ensures { HoldsBriefText result [] }
    {
        Text {
            bytes: Vec::new(alloc),
            length: 0,
            is_kept: true,
        }
    }

    /// No bytes as yet, of a text that is only counted.
    pub fn counted(alloc: Global) -> Text
        ensures { HoldsBriefText result [] }
    {
        Text {
            bytes: Vec::new(alloc),
            length: 0,
            is_kept: false,
        }
    }

    /// How many bytes the text has, as far as the number goes.
    pub fn length(&self) -> u64
        ensures { result ≡ self.now.length }
    {
        self.length
    }

    fn lengthen(&mut self, count: u64)
        ensures length { self.new.length ≡ capped (self.old.length + count) }
        ensures bytes { self.new.bytes ≡ self.old.bytes }
        ensures kept { self.new.is_kept ≡ self.old.is_kept }
    {
        self.length = self.length.saturating_add(count);
    }

    /// A byte.
    pub fn put_byte(&mut self, byte: u8)
        ensures { Extends self.old self.new (byte ∷ []) }
    {
        self.lengthen(1);
        if self.is_kept {
            self.is_kept = put_byte(&mut self.bytes, byte).is_ok();
        }
    }

    /// A packed number.
    pub fn put_packed(&mut self, number: u64)
        requires { number ≤ MAX_PACKED }
        ensures { Extends self.old self.new (packed_text number) }
    {
        self.lengthen(packed_length(number) as u64);
        if self.is_kept {
            self.is_kept = put_packed(&mut self.bytes, number).is_ok();
        }
    }

    /// The text and the counters behind it. Above the limit both are refused (`TooLong`).
    pub fn with_counters(self, counts: &Counts) -> Result<Vec<u8>, Fault>
        ensures { (t : List ℕ) → HoldsBriefText self t → Encodes (t ++ counters_text counts.now) result }
    {
        let Text {
            bytes,
            length,
            is_kept,
        } = self;
        let total = u128::from(length) + counters_length(counts);
        if u128::from(LIMIT as u64) < total {
            return Err(Fault::TooLong);
        }
        if !is_kept {
            return Err(Fault::Memory);
        }
        let mut whole = bytes;
        put_counters(&mut whole, counts)?;
        Ok(whole)
    }
}
