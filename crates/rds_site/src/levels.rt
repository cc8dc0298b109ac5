//! What a node and a peer asked when they were level.
use rds_client::Trouble;
use rds_fields::tag_text;
use rds_files::{Disk, LockFile};
use rds_http::{LONGEST_QUESTION, Site};
use rds_questions::Tag;
use std::alloc::{AllocError, Global};

/// What a node asked when it was level with a peer: its question, and the tag of that. The peer asked the same then, but
/// for its number. What came since goes over by the tag.
#[derive(Drop)]
pub struct Level {
    tag: Tag,
    question: Vec<u8>,
    number: u8,
}

impl Level {
    /// A site as it is now, and a peer of this number that is as far. None where their questions are too long to be kept.
    pub fn of<H: Disk>(site: &mut Site<'_, H>, number: u8) -> Result<Option<Level>, Trouble>
    where
        H::File: LockFile,
    {
        let question = site.ask()?;
        if LONGEST_QUESTION < question.len() {
            return Ok(None);
        }
        Ok(Some(Level {
            tag: site.tag()?,
            question,
            number,
        }))
    }

    /// Whether they had this tag.
    pub fn is_of(&self, tag: Tag) -> bool {
        self.tag == tag
    }

    /// The text of the tag.
    pub fn tag_text(&self, alloc: Global) -> Result<String, AllocError> {
        tag_text(alloc, &self.tag)
    }

    /// The tags with which a peer has nothing for a site that has this one: that, and the one of the level.
    pub fn tags(&self, alloc: Global, own: Tag) -> Result<String, AllocError> {
        if self.is_of(own) {
            return self.tag_text(alloc);
        }
        let own = tag_text(alloc, &own)?;
        let level = self.tag_text(alloc)?;
        format!(in alloc; "{own}, {level}")
    }

    /// What the site answers what the peer asked.
    pub fn answer<H: Disk>(&self, site: &Site<'_, H>) -> Result<Vec<u8>, Trouble>
    where
        H::File: LockFile,
    {
        Ok(site.answer_as(self.number, &self.question)?)
    }

    /// Has the site take what the peer answered its question, and tells how many components that brought.
    pub fn take<H: Disk>(&self, site: &mut Site<'_, H>, answer: &[u8]) -> Result<u128, Trouble>
    where
        H::File: LockFile,
    {
        Ok(site.take(&self.question, answer)?)
    }
}
