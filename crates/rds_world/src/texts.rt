//! The bytes of asks and answers.
use rds_names::Roster;
use std::marker::Model;

/// An ask: who asked, how many names it had kept, and the text of the digest.
#[derive(Drop)]
pub struct Asking {
    pub asker: u8,
    pub names: u16,
    pub bytes: Vec<u8>,
}

impl Model for Asking {
    ghost use Rattle.rds_world.specs.Stored.{AskText, coded_ask};

    ghost Value = { AskText };

    ghost coded = { coded_ask };

    ghost view = { λ a. record { asker = a.asker; names = a.names; bytes = a.bytes.items } };
}

/// An answer: the number of its ask, who asked, the roster that its maker had kept, and the text.
#[derive(Drop)]
pub struct Answering {
    pub question: u64,
    pub asker: u8,
    pub roster: Roster,
    pub bytes: Vec<u8>,
}

impl Model for Answering {
    ghost use Rattle.rds_world.specs.Stored.{AnswerText, coded_answer_text};

    ghost Value = { AnswerText };

    ghost coded = { coded_answer_text };

    ghost view = { λ a. record { question = a.question; asker = a.asker; roster = a.roster; bytes = a.bytes.items } };
}
