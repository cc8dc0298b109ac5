//! The hash of what a question tells.
ghost use Rattle.std.specs.Prelude.{◌≡◌, length, IfOk, IfErr};
ghost use Rattle.rds_bytes.specs.Spelling.{roster_text};
ghost use Rattle.rds_briefs.specs.Briefs.{brief_text};
ghost use Rattle.rds_codec.specs.Writing.{IsUnwritten};
ghost use Rattle.rds_names.specs.declared.fault.Fault.TheVariants.{Memory};
ghost use Rattle.rds_questions.specs.Hashed.{question_hash};

use crate::questions::Question;
use rds_briefs::encode_brief;
use rds_bytes::{member_length, put_member};
use rds_dots::DotSet;
use rds_names::{Fault, Roster};
use sha2::{Digest, Sha256};
use std::alloc::Global;

impl<S: DotSet> Question<S> {
    /// The SHA-256 of what the question tells: of the text of its roster, and of its digest's brief behind it. So it is
    /// that of all of the question but who asks. Where the brief is above the limit it is refused (`TooLong`).
    #[tactic(auto, unfolding(crate::specs::Hashed::question_hash, crate::specs::Hashed::told_text))]
    pub fn hash(&self, alloc: Global) -> Result<[u8; 32], Fault>
        ensures hash { IfOk result (λ hash. hash ≡ question_hash self.now) }
        ensures fault { IfErr result (IsUnwritten (length (brief_text self.now.digest))) }
    {
        let brief = encode_brief(alloc, &self.digest)?;
        let roster = roster_bytes(alloc, &self.hello.roster)?;
        let mut hasher = Sha256::new();
        hasher.update(roster.as_slice());
        hasher.update(brief.as_slice());
        Ok(hasher.finalize())
    }
}

/// The text of a roster: that of one of its replicas without its number, which is the last byte.
fn roster_bytes(alloc: Global, roster: &Roster) -> Result<Vec<u8>, Fault>
    ensures text { IfOk result (λ bytes. bytes.items ≡ roster_text roster.now) }
    ensures memory { IfErr result (λ fault. fault ≡ Memory) }
{
    let length = member_length(roster, 0);
    let mut text = Vec::with_capacity(alloc, length)?;
    put_member(&mut text, roster, 0)?;
    text.truncate(length - 1);
    Ok(text)
}
