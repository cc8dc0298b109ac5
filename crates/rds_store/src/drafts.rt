//! A document, with what changed it since it was kept.
ghost use Rattle.std.specs.Prelude.{◌≡◌, None, Ok, Some, IfErr, IfOk, IfSome, OnErr, OnOk};
ghost use Rattle.rds_json.specs.Unnamed.{edit_of};
ghost use Rattle.rds_lines.specs.Editing.{EditsLines};
ghost use Rattle.rds_lines.specs.Lines.{lines_in};
ghost use Rattle.rds_names.specs.declared.fault.Fault.TheVariants.{Memory};
ghost use Rattle.rds_offline.specs.Letters.{TakesResponse};
ghost use Rattle.rds_keep.specs.Changes.{IsChanged};
ghost use Rattle.rds_store.specs.Documents.{IsGrownBy, RefusesGrowth};
ghost use Rattle.rds_store.specs.Edits.{MayEdit};
ghost use Rattle.rds_store.specs.Meetings.{MergesSnapshot, RefusesSnapshot, RefusesTaking};
ghost use Rattle.rds_store.specs.Noting.{AreSince};

use crate::changes::{Changes, joined};
use crate::document::Document;
use crate::meeting::{merge_snapshot, take_answer};
use rds_gaps::GapSet;
use rds_json::LineReader;
use rds_keep::Change;
use rds_lines::{Edits, edit_lines};
use rds_names::{Fault, Roster};
use rds_output::Reply;
use rds_state::{Command, Edited, State};
use std::marker::Model;

/// A document that is edited between one time that it is kept and the next. What changed it since is noted, so that a
/// keep costs by that, and not by what lives. After very many edits no more is noted, until the document is kept.
pub struct Draft {
    document: Document,
    changes: Changes,
}

// Written out, so that where a draft is let go a caller's proof has one call.
impl Drop for Draft {
    fn drop(self) {
        let Draft {
            document: _document,
            changes: _changes,
        } = self;
    }
}

impl Model for Draft {
    ghost use Rattle.rds_store.specs.Changes.{DraftValue, coded_draft};
    ghost use Rattle.rds_store.specs.Noting.{AreSince};

    ghost Value = { DraftValue };

    ghost coded = { coded_draft };

    ghost view = { λ d. record { document = d.document; kept = d.changes.kept.value } };

    ghost invariant = { λ d. AreSince d.changes d.document };
}

impl Draft {
    /// Of a document that is kept nowhere: what changes it isn't noted. Takes no memory.
    pub fn of(document: Document) -> Draft
        ensures { result ≡ record { document = document; kept = document } }
    {
        let changes = Changes::unnoted(&document);
        Draft { document, changes }
    }

    /// The document.
    pub fn document(&self) -> &Document
        ensures { result.now ≡ self.now.document }
    {
        &self.document
    }

    /// The document alone.
    pub fn into_document(self) -> Document
        ensures { result ≡ self.document }
    {
        let Draft {
            document,
            changes: _changes,
        } = self;
        document
    }

    /// The document was kept as it is now: from here on what changes it is noted. Takes no memory.
    pub fn set_kept(&mut self)
        ensures { self.new ≡ record { document = self.old.document; kept = self.old.document } }
    {
        self.changes = Changes::none(self.document.alloc, &self.document);
    }

    /// What changed the document since it was kept, in one. `None` where that isn't noted, or there is no memory for
    /// it.
    pub fn noted(&self) -> Option<Noted<'_>>
        ensures { IfSome result (λ noted. IsChanged self.now.kept noted self.now.document) }
    {
        noted_in(&self.document, &self.changes)
    }

    /// Edits the document, as [`Document::edit`] does. To note what it changes takes memory.
    pub fn edit(&mut self, command: Command) -> Result<Edited, Fault>
        ensures edited { MayEdit (Ok command) self.old.document result self.new.document }
        ensures kept { self.new.kept ≡ self.old.kept }
        ensures err { OnErr result (self.new ≡ self.old) }
    {
        edit_noted(&mut self.document, &mut self.changes, &command)
    }

    /// Edits the document as a line of JSON says, as [`Document::edit_line`] does.
    pub fn edit_line(&mut self, line: &str) -> Result<Edited, Fault>
        ensures edited { MayEdit (edit_of line.now) self.old.document result self.new.document }
        ensures kept { self.new.kept ≡ self.old.kept }
        ensures err { OnErr result (self.new ≡ self.old) }
    {
        let command = self.document.read_edit(line)?;
        self.edit(command)
    }

    /// Edits the document as lines of JSON say, as [`Document::edit_lines`] does.
    pub fn edit_lines(&mut self, lines: &[u8]) -> Result<Vec<Reply>, Fault>
        ensures edited { IfOk result
            (λ answers. EditsLines (lines_in lines.now) self.old.document self.new.document answers.items) }
        ensures memory { IfErr result (λ fault. fault ≡ Memory) }
        ensures kept { self.new.kept ≡ self.old.kept }
        ensures err { OnErr result (self.new ≡ self.old) }
    {
        let alloc = self.document.alloc;
        let mut reader = LineReader::new(alloc);
        edit_lines(alloc, &mut reader, self, lines)
    }

    /// Puts a name last in the roster, as [`Document::grow`] does.
    pub fn grow(&mut self, name: &str) -> Result<(), Fault>
        ensures grown { OnOk result (IsGrownBy name.now self.old.document self.new.document) }
        ensures fault { IfErr result (RefusesGrowth name.now self.old.document) }
        ensures kept { self.new.kept ≡ self.old.kept }
        ensures err { OnErr result (self.new ≡ self.old) }
    {
        grow_noted(&mut self.document, &mut self.changes, name)
    }

    /// Takes what answers a question of this replica's, as [`Document::take`] does.
    pub fn take(&mut self, question: &[u8], answer: &[u8]) -> Result<u128, Fault>
        ensures taken { IfOk result
            (TakesResponse question.now answer.now self.old.document self.new.document) }
        ensures fault { IfErr result (RefusesTaking question.now answer.now self.old.document) }
        ensures kept { self.new.kept ≡ self.old.kept }
        ensures err { OnErr result (self.new ≡ self.old) }
    {
        take_answer(&mut self.document, &mut self.changes, question, answer)
    }

    /// Joins all that the replica of a snapshot has seen, as [`Document::merge`] does.
    pub fn merge(&mut self, snapshot: &[u8]) -> Result<u128, Fault>
        ensures merged { IfOk result (MergesSnapshot snapshot.now self.old.document self.new.document) }
        ensures fault { IfErr result (RefusesSnapshot snapshot.now self.old.document) }
        ensures kept { self.new.kept ≡ self.old.kept }
        ensures err { OnErr result (self.new ≡ self.old) }
    {
        merge_snapshot(&mut self.document, &mut self.changes, snapshot)
    }
}

impl Edits for Draft {
    ghost use Rattle.std.proofs.Common.{◌≡◌, ◌∙◌, refl};

    ghost replica = { λ draft. draft.document };

    ghost stays = { λ old new. new.kept ≡ old.kept };

    fn roster(&self) -> &Roster {
        self.document.replica().roster()
    }

    fn edit_by(&mut self, command: &Command) -> Result<Edited, Fault> {
        edit_noted(&mut self.document, &mut self.changes, command)
    }

    ghost same = { λ draft. refl };

    ghost then = { λ a b c first later. later ∙ first };
}

/// What changed a document: the roster where it grew, and the deltas that it was joined with, as one.
#[derive(Drop)]
pub struct Noted<'a> {
    roster: Option<&'a Roster>,
    delta: State<GapSet>,
}

impl<'a> Model for Noted<'a> {
    ghost use Rattle.std.specs.Prelude.{option_map};
    ghost use Rattle.rds_keep.specs.Changes.{ChangeValue, coded_change};

    ghost Value = { ChangeValue };

    ghost coded = { coded_change };

    ghost view = { λ n. record { roster = option_map (λ r. r.now) n.roster; delta = n.delta } };
}

impl<'a> Noted<'a> {
    /// The same, as a file takes it.
    pub fn change(&self) -> Change<'_, GapSet>
        ensures { result ≡ self.now }
    {
        Change {
            roster: self.roster,
            delta: &self.delta,
        }
    }
}

/// What changed a document, in one.
fn noted_in<'a>(document: &'a Document, changes: &Changes) -> Option<Noted<'a>>
    requires since { AreSince changes.now document.now }
    ensures { IfSome result (λ noted. IsChanged changes.now.kept.value noted document.now) }
{
    let deltas = changes.deltas.as_ref()?;
    let _within = document.replica().state();
    match joined(document.alloc, deltas) {
        Ok(delta) => Some(Noted {
            roster: changes.roster(document),
            delta,
        }),
        Err(_) => None,
    }
}

/// Edits a document, and notes what that changed.
fn edit_noted(
    document: &mut Document,
    changes: &mut Changes,
    command: &Command,
) -> Result<Edited, Fault>
    requires since { AreSince changes.old document.old }
    ensures since { AreSince changes.new document.new }
    ensures edited { MayEdit (Ok command.now) document.old result document.new }
    ensures err { OnErr result (document.new ≡ document.old) }
    ensures kept { changes.new.kept.value ≡ changes.old.kept.value }
{
    changes.make_room()?;
    if changes.deltas.is_none() {
        return document.edit_by(command);
    }
    let (edited, delta) = document.edit_with_delta(command)?;
    changes.note(delta, false);
    Ok(edited)
}

/// Puts a name last in the roster of a document, and notes that.
fn grow_noted(document: &mut Document, changes: &mut Changes, name: &str) -> Result<(), Fault>
    requires since { AreSince changes.old document.old }
    ensures since { AreSince changes.new document.new }
    ensures grown { OnOk result (IsGrownBy name.now document.old document.new) }
    ensures fault { IfErr result (RefusesGrowth name.now document.old) }
    ensures err { OnErr result (document.new ≡ document.old) }
    ensures kept { changes.new.kept.value ≡ changes.old.kept.value }
{
    document.grow(name)?;
    changes.note_grown();
    Ok(())
}
