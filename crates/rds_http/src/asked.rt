//! What a replica has asked, so that others may speak of it by its tag.
ghost use Rattle.std.specs.Prelude.{◌≡◌, IfSome};
ghost use Rattle.rds_http.specs.Asked.{HasTag};

use rds_questions::Tag;
use std::alloc::{AllocError, Global};
use std::collections::VecDeque;
use std::marker::Model;

/// The most questions that are kept.
const MOST: usize = 64;

/// A question of more bytes isn't kept.
pub const LONGEST_QUESTION: usize = 1_048_576;

/// What this replica asked, and the tag of that.
pub struct Asked {
    tag: Tag,
    question: Vec<u8>,
}

impl Drop for Asked {
    fn drop(self) {
        let Asked {
            tag: _,
            question: _question,
        } = self;
    }
}

impl Model for Asked {
    ghost use Rattle.rds_http.specs.Asked.{AskedValue, HasTag, coded_asked};

    ghost Value = { AskedValue };

    ghost coded = { coded_asked };

    ghost view = { λ a. record { tag = a.tag; question = a.question.items } };

    ghost invariant = { λ a. HasTag a.question.items a.tag };
}

impl Asked {
    /// The text of the question.
    pub fn question(&self) -> &[u8]
        ensures text { result.now ≡ self.now.question }
        ensures tag { HasTag self.now.question self.now.tag }
    {
        &self.question
    }
}

/// What this replica asked last, the latest last.
#[derive(Drop)]
pub struct Past {
    asked: VecDeque<Asked>,
}

impl Past {
    /// Nothing.
    pub fn new(alloc: Global) -> Past {
        Past {
            asked: VecDeque::new(alloc),
        }
    }

    /// The question that has this tag, where it is kept.
    pub fn find(&self, tag: Tag) -> Option<&Asked>
        ensures { IfSome result (λ asked. asked.now.tag ≡ tag) }
    {
        for asked in self.asked.iter() {
            if asked.tag == tag {
                return Some(asked);
            }
        }
        None
    }

    /// Keeps a question. The oldest one goes where there are too many. One that is too long isn't kept.
    pub fn note(&mut self, tag: Tag, question: Vec<u8>) -> Result<(), AllocError>
        requires { HasTag question.items tag }
    {
        if LONGEST_QUESTION < question.len() {
            return Ok(());
        }
        if MOST <= self.asked.len() {
            let _oldest = self.asked.pop_front();
        }
        match self.asked.push_back(Asked { tag, question }) {
            Ok(()) => Ok(()),
            Err(_) => Err(AllocError),
        }
    }
}
