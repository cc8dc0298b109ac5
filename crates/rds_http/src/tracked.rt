//! A document in its file, and what is known of it between one keep and the next.
ghost use Rattle.std.specs.Prelude.{◌≡◌, None, IfErr, IfOk, IfSome, OnErr, OnOk};
ghost use Rattle.rds_files.specs.Files.{IsUnkept};
ghost use Rattle.rds_lines.specs.Editing.{EditsLines};
ghost use Rattle.rds_lines.specs.Lines.{lines_in};
ghost use Rattle.rds_names.specs.declared.fault.Fault.TheVariants.{Memory};
ghost use Rattle.rds_offline.specs.Letters.{TakesResponse};
ghost use Rattle.rds_store.specs.Documents.{IsGrownBy, RefusesGrowth};
ghost use Rattle.rds_store.specs.Meetings.{RefusesTaking};
ghost use Rattle.rds_questions.specs.Tags.{IsTagOf, RefusesTag};
ghost use Rattle.rds_http.specs.Changes.{IsOfAsked, IsOfOther, RefusesAsking};
ghost use Rattle.rds_http.specs.Site.{KeepsFile};

use crate::asked::Past;
use crate::touched::Touched;
use rds_fields::{split_tag, tag_text};
use rds_files::{Disk, LockFile, Whereabouts};
use rds_json::LineReader;
use rds_lines::{Edits, edit_lines};
use rds_names::{Fault, Roster};
use rds_output::Reply;
use rds_questions::Tag;
use rds_state::{Command, Edited};
use rds_store::{Document, DocumentFile};
use std::alloc::Global;
use std::marker::Model;
use std::mem;

/// A document in its file, with the tag of what it asks, where that is known, what it asked before, and the paths at which
/// it changed, where somebody wants to know them.
pub struct Tracked<'a, H: Disk> {
    alloc: Global,
    file: DocumentFile<'a, H>,
    tag: Option<Tag>,
    past: Past,
    touched: Touched,
    is_watched: bool,
}

impl<H: Disk> Drop for Tracked<'_, H> {
    fn drop(self) {
        let Tracked {
            alloc: _alloc,
            file: _file,
            tag: _tag,
            past: _past,
            touched: _touched,
            is_watched: _,
        } = self;
    }
}

impl<'a, H: Disk> Model for Tracked<'a, H> {
    ghost use Rattle.std.specs.Prelude.{IfSome};
    ghost use Rattle.rds_store.specs.Files.{OpenValue, coded_open};
    ghost use Rattle.rds_questions.specs.Tags.{IsTagOf};

    ghost Value = { OpenValue };

    ghost coded = { coded_open };

    ghost view = { λ t. t.file };

    ghost invariant = { λ t. IfSome t.tag (IsTagOf t.file.document) };
}

impl<'a, H: Disk> Tracked<'a, H>
where
    H::File: LockFile,
{
    /// Keeps the document in its file. Refuses as [`DocumentFile::keep`] does.
    pub fn keep(&mut self, rt: &H) -> Result<(), Fault>
        ensures kept { OnOk result (self.new.kept ≡ self.old.document) }
        ensures document { self.new.document ≡ self.old.document }
        ensures path { self.new.path ≡ self.old.path }
        ensures err { OnErr result (self.new ≡ self.old) }
        ensures fault { IfErr result (IsUnkept self.old.document) }
    {
        self.file.keep(rt)
    }

    /// What became of the file, as [`DocumentFile::whereabouts`] has it.
    pub fn whereabouts(&self, rt: &H) -> Whereabouts {
        self.file.whereabouts(rt)
    }
}

impl<'a, H: Disk> Tracked<'a, H> {
    /// A file whose document nothing has changed yet.
    pub fn new(alloc: Global, file: DocumentFile<'a, H>) -> Tracked<'a, H>
        ensures { result ≡ file.entry }
    {
        Tracked {
            alloc,
            file,
            tag: None,
            past: Past::new(alloc),
            touched: Touched::new(alloc),
            is_watched: false,
        }
    }

    /// The document.
    pub fn document(&self) -> &Document
        ensures { result.now ≡ self.now.document }
    {
        self.file.document()
    }

    /// The document, with what wasn't kept. The file is let go.
    pub fn into_document(self) -> Document
        ensures { result ≡ self.entry.document }
    {
        let Tracked {
            alloc: _alloc,
            file,
            tag: _tag,
            past: _past,
            touched: _touched,
            is_watched: _,
        } = self;
        file.into_document()
    }

    /// The tag of what the document asks. It is made anew only where the document may have changed.
    pub fn tag(&mut self) -> Result<Tag, Fault>
        ensures tag { IfOk result (IsTagOf self.old.document) }
        ensures fault { IfErr result (RefusesTag self.old.document) }
        ensures same { self.new ≡ self.old }
    {
        if let Some(tag) = self.tag {
            return Ok(tag);
        }
        let tag = tag_of(self.file.document())?;
        self.tag = Some(tag);
        Ok(tag)
    }

    /// Keeps what the document asks, so that others may speak of it by its tag.
    pub fn note_asked(&mut self) -> Result<(), Fault>
        ensures { self.new ≡ self.old }
    {
        let tag = self.tag()?;
        if self.past.find(tag).is_some() {
            return Ok(());
        }
        let question = self.file.document().ask()?;
        self.past.note(tag, question)?;
        Ok(())
    }

    /// The question whose tag stands at the front of these bytes, and what stands behind that. What the document asks now
    /// is always known, and of what it asked before some may be.
    pub fn asked_at<'b>(&mut self, bytes: &'b [u8]) -> Result<Option<(Vec<u8>, &'b [u8])>, Fault>
        ensures some { IfOk result (λ found. IfSome found (λ asked. IsOfAsked bytes.now asked.0.items asked.1.now)) }
        ensures none { IfOk result (λ found. found ≡ None → IsOfOther bytes.now self.old.document) }
        ensures fault { IfErr result (RefusesAsking self.old.document) }
        ensures same { self.new ≡ self.old }
    {
        let tag = self.tag()?;
        let text = tag_text(self.alloc, &tag)?;
        if let Some(rest) = bytes.strip_prefix(text.as_bytes()) {
            return Ok(Some((self.file.document().ask()?, rest)));
        }
        let Some((tag, rest)) = split_tag(bytes) else {
            return Ok(None);
        };
        match self.past.find(tag) {
            Some(asked) => Ok(Some((Vec::from_slice(self.alloc, asked.question())?, rest))),
            None => Ok(None),
        }
    }

    /// Edits the document as lines say, which the reader reads.
    pub fn edit_lines(&mut self, reader: &mut LineReader, lines: &[u8]) -> Result<Vec<Reply>, Fault>
        ensures edited { IfOk result
            (λ replies. EditsLines (lines_in lines.now) self.old.document self.new.document replies.items) }
        ensures memory { IfErr result (λ fault. fault ≡ Memory) }
        ensures file { KeepsFile self.old self.new }
        ensures err { OnErr result (self.new ≡ self.old) }
    {
        edit_lines(self.alloc, reader, self, lines)
    }

    /// Puts a name last in the roster, as [`Document::grow`] does. No path shows the roster, so none is touched.
    pub fn grow(&mut self, name: &str) -> Result<(), Fault>
        ensures grown { OnOk result (IsGrownBy name.now self.old.document self.new.document) }
        ensures fault { IfErr result (RefusesGrowth name.now self.old.document) }
        ensures file { KeepsFile self.old self.new }
        ensures err { OnErr result (self.new ≡ self.old) }
    {
        self.tag = None;
        self.file.grow(name)
    }

    /// Takes what answers a question of this replica's.
    pub fn take(&mut self, question: &[u8], answer: &[u8]) -> Result<u128, Fault>
        ensures taken { IfOk result
            (TakesResponse question.now answer.now self.old.document self.new.document) }
        ensures fault { IfErr result (RefusesTaking question.now answer.now self.old.document) }
        ensures file { KeepsFile self.old self.new }
        ensures err { OnErr result (self.new ≡ self.old) }
    {
        let touched = self.touched_by(question, answer);
        self.tag = None;
        let components = self.file.take(question, answer)?;
        self.touched.note_all(&touched);
        // Who brought that knows what is asked now. Where it can't be kept, that one sends its question again.
        let _kept = self.note_asked();
        Ok(components)
    }

    /// What an answer touches, where somebody wants to know it.
    fn touched_by(&self, question: &[u8], answer: &[u8]) -> Touched {
        if self.is_watched {
            Touched::by_answer(self.alloc, self.file.document(), question, answer)
        } else {
            Touched::unlisted(self.alloc)
        }
    }

    /// Says whether anybody wants to know the paths at which the document changes from here on.
    pub fn watch(&mut self, is_watched: bool)
        ensures { self.new ≡ self.old }
    {
        self.is_watched = is_watched;
    }

    /// The paths at which the document changed since they were taken last.
    pub fn take_touched(&mut self) -> Touched
        ensures { self.new ≡ self.old }
    {
        mem::replace(&mut self.touched, Touched::new(self.alloc))
    }

    /// Notes that any path may have changed.
    pub fn forget_touched(&mut self)
        ensures { self.new ≡ self.old }
    {
        self.touched.forget();
    }
}

impl<H: Disk> Edits for Tracked<'_, H> {
    ghost use Rattle.std.specs.Prelude.{◌≡◌};
    ghost use Rattle.std.proofs.Common.{◌∙◌, refl};
    ghost use Rattle.rds_http.specs.Site.{KeepsFile};

    ghost replica = { λ tracked. tracked.document };

    ghost stays = { λ old new. KeepsFile old new };

    fn roster(&self) -> &Roster {
        self.file.document().replica().roster()
    }

    fn edit_by(&mut self, command: &Command) -> Result<Edited, Fault> {
        let own = command.copy(self.alloc)?;
        self.tag = None;
        let edited = self.file.edit(own)?;
        self.touched.note_command(command, self.is_watched);
        Ok(edited)
    }

    ghost same = { λ tracked. record { path = refl; kept = refl } };

    ghost then = { λ a b c first later. record { path = later.path ∙ first.path; kept = later.kept ∙ first.kept } };
}

/// The tag of what a document asks.
fn tag_of(document: &Document) -> Result<Tag, Fault>
    ensures tag { IfOk result (IsTagOf document.now) }
    ensures fault { IfErr result (RefusesTag document.now) }
{
    Ok(Tag {
        hash: document.question_hash()?,
        mark: document.mark(),
    })
}
