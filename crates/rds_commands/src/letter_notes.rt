//! What is written on standard error of questions and answers that are refused: which of the two texts it is.
use crate::notes::note_file;
use rds_files::Disk;
use rds_gaps::GapSet;
use rds_names::Fault;
use rds_questions::{Question, decode_question, receive};
use std::alloc::Global;

/// What is refused of a question and its answer.
#[derive(Clone, Copy, Debug)]
enum Refused {
    /// The question.
    Question(Fault),
    /// The answer.
    Answer(Fault),
    /// Neither.
    Neither,
}

// Which of the two texts is refused, and why. They are judged once more, as `take` judges them.
fn refused_of(alloc: Global, question: &[u8], answer: &[u8]) -> Refused {
    let asked: Question<GapSet> = match decode_question(alloc, question) {
        Ok(asked) => asked,
        Err(fault) => return Refused::Question(fault),
    };
    match receive(alloc, &asked, answer) {
        Ok(_received) => Refused::Neither,
        Err(fault) => Refused::Answer(fault),
    }
}

/// Tells why a file doesn't answer a question.
pub fn note_answer<H: Disk>(rt: &H, path: &str, question: &[u8], fault: Fault) {
    let asked: Result<Question<GapSet>, Fault> = decode_question(rt.alloc(), question);
    match asked {
        Ok(_asked) => note_file(rt, path, fault),
        Err(fault) => note_question(rt, fault),
    }
}

/// Tells why a file doesn't take an answer.
pub fn note_take<H: Disk>(rt: &H, path: &str, question: &[u8], answer: &[u8], fault: Fault) {
    match refused_of(rt.alloc(), question, answer) {
        Refused::Question(fault) => note_question(rt, fault),
        Refused::Answer(fault) => note_response(rt, fault),
        Refused::Neither => note_taker(rt, path, fault),
    }
}

/// Tells that what a file took told a fork, and what is to be done.
pub fn note_fork<H: Eprint>(rt: &H, path: &str) {
    let _ = eprintln!(rt; "{path} and who answered hold different entries of one replica");
    let _ = eprintln!(rt;
        "edit neither; let ONE file grow by a new name for each place, make replicas from it: docs/FAULTS.md, 'A copy'"
    );
}

/// Tells why nothing is reported of an answer.
pub fn note_check<H: Disk>(rt: &H, question: &[u8], answer: &[u8], fault: Fault) {
    match refused_of(rt.alloc(), question, answer) {
        Refused::Question(fault) => note_question(rt, fault),
        Refused::Answer(fault) => note_response(rt, fault),
        Refused::Neither => {
            let _ = eprintln!(rt; "{fault}");
        }
    }
}

fn note_question<H: Eprint>(rt: &H, fault: Fault) {
    let _ = eprintln!(rt; "QUESTION isn't what 'rds_node ask' wrote: {fault}");
}

fn note_response<H: Eprint>(rt: &H, fault: Fault) {
    let _ = eprintln!(rt; "ANSWER isn't what 'rds_node answer' wrote to this question: {fault}");
}

// Tells why the replica in a file can't take what it asked for.
fn note_taker<H: Disk>(rt: &H, path: &str, fault: Fault) {
    match fault {
        Fault::WrongAsker => {
            let _ = eprintln!(rt;
                "QUESTION isn't that of {path}, or {path} is older than when it asked: ask anew"
            );
        }
        Fault::OwnAhead(_) => {
            let _ = eprintln!(rt;
                "{path} lacks something of its own that it had when it asked: a backup was put back"
            );
        }
        _ => note_file(rt, path, fault),
    }
}
