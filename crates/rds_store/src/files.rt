//! Documents in files.
ghost use Rattle.std.specs.Prelude.{◌≡◌, ◌⊎◌, Ok, IfErr, IfOk, OnErr, OnOk};
ghost use Rattle.rds_files.specs.Files.{IsHeldAt, IsUnkept, RefusesFile, RefusesLock};
ghost use Rattle.rds_json.specs.Unnamed.{edit_of};
ghost use Rattle.rds_lines.specs.Editing.{EditsLines};
ghost use Rattle.rds_lines.specs.Lines.{lines_in};
ghost use Rattle.rds_names.specs.declared.fault.Fault.TheVariants.{Memory};
ghost use Rattle.rds_offline.specs.Letters.{TakesResponse};
ghost use Rattle.rds_store.specs.Documents.{IsGrownBy, RefusesGrowth};
ghost use Rattle.rds_store.specs.Edits.{MayEdit};
ghost use Rattle.rds_store.specs.Meetings.{MergesSnapshot, RefusesSnapshot, RefusesTaking};

use crate::document::Document;
use crate::drafts::Draft;
use rds_files::{CreatedFile, Disk, EmptiedFile, LockFile, LockedFile, Whereabouts};
use rds_gaps::GapSet;
use rds_names::Fault;
use rds_output::Reply;
use rds_state::{Command, Edited};
use std::marker::Model;

/// Makes a file of this path that holds the document. Refuses as [`CreatedFile::create`] does: `Usage` where something
/// is there already, or the path ends in `.new`.
pub fn create_file<'a, H: Disk>(
    rt: &H,
    path: &'a str,
    document: Document,
) -> Result<CreatedFile<'a, GapSet>, Fault>
where
    H::File: LockFile,
    ensures made { IfOk result (λ file. file ≡ record { path = path.now; kept = document }) }
    ensures fault { IfErr result (RefusesFile document) }
{
    CreatedFile::create(rt, path, document.into_replica())
}

/// A document that was read from a file, whose lock is held as long as this is: nobody else changes the file. It is
/// edited, and kept in the file as often as one wants. What isn't kept is lost.
pub struct DocumentFile<'a, H: Disk> {
    draft: Draft,
    file: EmptiedFile<'a, H, GapSet>,
}

// Written out, so that where a file is let go a caller's proof has one call.
impl<H: Disk> Drop for DocumentFile<'_, H> {
    fn drop(self) {
        let DocumentFile {
            draft: _draft,
            file: _file,
        } = self;
    }
}

impl<'a, H: Disk> Model for DocumentFile<'a, H> {
    ghost use Rattle.std.specs.Prelude.{◌≡◌};
    ghost use Rattle.rds_store.specs.Files.{OpenValue, coded_open};

    ghost Value = { OpenValue };

    ghost coded = { coded_open };

    ghost view = { λ f. record { path = f.file.path; document = f.draft.document; kept = f.file.kept } };

    ghost invariant = { λ f. f.draft.kept ≡ f.file.kept };
}

impl<'a, H: Disk> DocumentFile<'a, H>
where
    H::File: LockFile,
{
    /// Locks the file of this path, and reads its document. Refuses as [`LockedFile::open`] does; another that has the
    /// lock is waited for some ten seconds, but not a node: its address is reported at once.
    pub fn open(rt: &H, path: &'a str) -> Result<DocumentFile<'a, H>, Fault>
        ensures held { IfOk result (λ f. IsHeldAt path.now (record { path = f.path; kept = f.kept })) }
        ensures document { IfOk result (λ f. f.document ≡ f.kept) }
        ensures fault { IfErr result (λ fault. (fault ≡ Memory) ⊎ RefusesLock path.now fault) }
    {
        let locked: LockedFile<'a, H, GapSet> = LockedFile::open(rt, path)?;
        let (replica, file) = locked.into_parts();
        let mut opened = Draft::of(Document::of(rt.alloc(), replica)?);
        opened.set_kept();
        Ok(DocumentFile {
            draft: opened,
            file,
        })
    }

    /// Keeps the document in its file, which it may be again and again: what changed since it was kept last is written
    /// behind what the file has, or the file is written anew where that is shorter. What is kept lasts, whatever
    /// becomes of the machine. Refuses as [`EmptiedFile::keep_on`] does. The file then has what it had, but after
    /// `Unsure`: then it may have the document, and a later keep makes it sure.
    pub fn keep(&mut self, rt: &H) -> Result<(), Fault>
        ensures kept { OnOk result (self.new.kept ≡ self.old.document) }
        ensures document { self.new.document ≡ self.old.document }
        ensures path { self.new.path ≡ self.old.path }
        ensures err { OnErr result (self.new ≡ self.old) }
        ensures fault { IfErr result (IsUnkept self.old.document) }
    {
        keep_in(rt, &mut self.draft, &mut self.file)
    }

    /// What became of the file, as [`EmptiedFile::whereabouts`] has it.
    pub fn whereabouts(&self, rt: &H) -> Whereabouts {
        self.file.whereabouts(rt)
    }
}

impl<H: Disk> DocumentFile<'_, H> {
    /// The document.
    pub fn document(&self) -> &Document
        ensures { result.now ≡ self.now.document }
    {
        self.draft.document()
    }

    /// The document, with what wasn't kept. The file is let go, and so is its lock.
    pub fn into_document(self) -> Document
        ensures { result ≡ self.entry.document }
    {
        let DocumentFile { draft, file: _file } = self;
        draft.into_document()
    }

    /// Edits the document, as [`Document::edit`] does. To note what it changes takes memory.
    pub fn edit(&mut self, command: Command) -> Result<Edited, Fault>
        ensures edited { MayEdit (Ok command) self.old.document result self.new.document }
        ensures file { (self.new.path ≡ self.old.path) × (self.new.kept ≡ self.old.kept) }
        ensures err { OnErr result (self.new ≡ self.old) }
    {
        self.draft.edit(command)
    }

    /// Edits the document as a line of JSON says, as [`Document::edit_line`] does.
    pub fn edit_line(&mut self, line: &str) -> Result<Edited, Fault>
        ensures edited { MayEdit (edit_of line.now) self.old.document result self.new.document }
        ensures file { (self.new.path ≡ self.old.path) × (self.new.kept ≡ self.old.kept) }
        ensures err { OnErr result (self.new ≡ self.old) }
    {
        self.draft.edit_line(line)
    }

    /// Edits the document as lines of JSON say, as [`Document::edit_lines`] does.
    pub fn edit_lines(&mut self, lines: &[u8]) -> Result<Vec<Reply>, Fault>
        ensures edited { IfOk result
            (λ answers. EditsLines (lines_in lines.now) self.old.document self.new.document answers.items) }
        ensures memory { IfErr result (λ fault. fault ≡ Memory) }
        ensures file { (self.new.path ≡ self.old.path) × (self.new.kept ≡ self.old.kept) }
        ensures err { OnErr result (self.new ≡ self.old) }
    {
        self.draft.edit_lines(lines)
    }

    /// Puts a name last in the roster, as [`Document::grow`] does.
    pub fn grow(&mut self, name: &str) -> Result<(), Fault>
        ensures grown { OnOk result (IsGrownBy name.now self.old.document self.new.document) }
        ensures fault { IfErr result (RefusesGrowth name.now self.old.document) }
        ensures file { (self.new.path ≡ self.old.path) × (self.new.kept ≡ self.old.kept) }
        ensures err { OnErr result (self.new ≡ self.old) }
    {
        self.draft.grow(name)
    }

    /// Takes what answers a question of this replica's, as [`Document::take`] does.
    pub fn take(&mut self, question: &[u8], answer: &[u8]) -> Result<u128, Fault>
        ensures taken { IfOk result
            (TakesResponse question.now answer.now self.old.document self.new.document) }
        ensures fault { IfErr result (RefusesTaking question.now answer.now self.old.document) }
        ensures file { (self.new.path ≡ self.old.path) × (self.new.kept ≡ self.old.kept) }
        ensures err { OnErr result (self.new ≡ self.old) }
    {
        self.draft.take(question, answer)
    }

    /// Joins all that the replica of a snapshot has seen, as [`Document::merge`] does.
    pub fn merge(&mut self, snapshot: &[u8]) -> Result<u128, Fault>
        ensures merged { IfOk result (MergesSnapshot snapshot.now self.old.document self.new.document) }
        ensures fault { IfErr result (RefusesSnapshot snapshot.now self.old.document) }
        ensures file { (self.new.path ≡ self.old.path) × (self.new.kept ≡ self.old.kept) }
        ensures err { OnErr result (self.new ≡ self.old) }
    {
        self.draft.merge(snapshot)
    }
}

/// Keeps a document in its file, and notes from there on what changes it.
fn keep_in<H: Disk>(
    rt: &H,
    draft: &mut Draft,
    file: &mut EmptiedFile<'_, H, GapSet>,
) -> Result<(), Fault>
where
    H::File: LockFile,
    requires noted { draft.old.kept ≡ file.old.kept }
    ensures noted { draft.new.kept ≡ file.new.kept }
    ensures kept { OnOk result (file.new.kept ≡ draft.old.document) }
    ensures document { draft.new.document ≡ draft.old.document }
    ensures path { file.new.path ≡ file.old.path }
    ensures err { OnErr result (file.new ≡ file.old) }
    ensures fault { IfErr result (IsUnkept draft.old.document) }
{
    write_in(rt, draft, file)?;
    draft.set_kept();
    Ok(())
}

/// Writes a document to its file, by what changed it where that is noted.
fn write_in<H: Disk>(
    rt: &H,
    draft: &Draft,
    file: &mut EmptiedFile<'_, H, GapSet>,
) -> Result<(), Fault>
where
    H::File: LockFile,
    requires noted { draft.now.kept ≡ file.old.kept }
    ensures kept { OnOk result (file.new ≡ record { path = file.old.path; kept = draft.now.document }) }
    ensures err { OnErr result (file.new ≡ file.old) }
    ensures fault { IfErr result (IsUnkept draft.now.document) }
{
    let replica = draft.document().replica();
    match draft.noted() {
        Some(noted) => file.keep_on(rt, replica, noted.change()),
        None => file.replace_on(rt, replica),
    }
}
