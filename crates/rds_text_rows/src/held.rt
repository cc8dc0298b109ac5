//! The snapshot that is held from row to row.
use crate::{exchanges, journal, places, reading, stored, texts};
use rds_codec::{
    Format, decoding_has_one_result, formats_are_read_again, formats_have_the_same_parts,
    limits_of_texts, readers_are_steady, rows_are_read_in_steps, texts_are_read_steadily,
    texts_outlive_growth, texts_stand_apart,
};
use rds_dots::DotSet;
use rds_journal::{journals_outlast_crashes, records_outlast_appends};
use rds_names::Fault;
use rds_rows::Table;
use rds_rows::told::said;
use rds_rows::words::bytes_of;
use std::alloc::Global;
use std::marker::PhantomData;

/// The text that later rows are on. What it says is read over sets of this kind.
#[derive(Drop)]
pub struct Held<S: DotSet> {
    text: Vec<u8>,
    set: PhantomData<S>,
}

impl<S: DotSet> Table for Held<S> {
    fn answer(&mut self, alloc: Global, name: &str, rest: &str) -> Result<String, Fault> {
        match name {
            "hold" => self.hold(alloc, rest),
            "ask" => exchanges::ask::<S>(alloc, &self.text),
            "answer" => exchanges::answer::<S>(alloc, Format::Two, &self.text, rest),
            "answer-1" => exchanges::answer::<S>(alloc, Format::One, &self.text, rest),
            "exchange" => exchanges::exchanged::<S>(alloc, &self.text, rest),
            "length" => exchanges::length::<S>(alloc, &self.text),
            "place" => places::answer::<S>(alloc, &self.text, rest),
            "read" => reading::answer::<S>(alloc, &self.text, rest),
            "stored" => stored::answer::<S>(alloc, rest),
            "laws" => laws(alloc),
            "record"
            | "records"
            | "record-cuts"
            | "record-flips"
            | "record-appended"
            | "torn-times" => journal::answer(alloc, name, rest),
            _ => texts::answer::<S>(alloc, name, rest),
        }
    }
}

impl<S: DotSet> Held<S> {
    /// No byte yet.
    pub fn new(alloc: Global) -> Held<S> {
        Held {
            text: Vec::new(alloc),
            set: PhantomData,
        }
    }

    /// `hold DIGITS`: rows on what is held are on this text from here on, a snapshot or not.
    fn hold(&mut self, alloc: Global, digits: &str) -> Result<String, Fault> {
        self.text = bytes_of(alloc, digits)?;
        said(alloc, "held")
    }
}

/// `laws`: the functions whose contracts are the laws of texts are called.
fn laws(alloc: Global) -> Result<String, Fault> {
    texts_stand_apart();
    texts_outlive_growth();
    formats_have_the_same_parts();
    formats_are_read_again();
    limits_of_texts();
    decoding_has_one_result();
    readers_are_steady();
    rows_are_read_in_steps();
    texts_are_read_steadily();
    journals_outlast_crashes();
    records_outlast_appends();
    said(alloc, "called")
}
