//! One replica of a document, with what finds its entries.
ghost use Rattle.std.specs.Prelude.{◌≡◌, ◌∷◌, [], false, length, max, Ok, Err, IfOk, IfErr, MatchResult, OnErr, OnOk};
ghost use Rattle.std.specs.Prelude.{◌⊎◌, map};
ghost use Rattle.std.specs.Result.{result_map_both};
ghost use Rattle.rds_json.specs.MayGive.{MayGive};
ghost use Rattle.rds_json.specs.Unnamed.{edit_of};
ghost use Rattle.rds_keep.specs.Kept.{IsStored, RefusesBytes};
ghost use Rattle.rds_keep.specs.Sums.{EncodesFile};
ghost use Rattle.rds_names.specs.declared.fault.Fault.TheVariants.{Memory};
ghost use Rattle.rds_state.specs.Fits.{Fits};
ghost use Rattle.rds_state.specs.Results.{EditsReplica, TakesDeltaWith};
ghost use Rattle.rds_state.specs.Value.{coordinates};
ghost use Rattle.rds_store.specs.Documents.{IsGrownBy, IsHeldBy, RefusesGrowth, first_replica, named_roster, names_in};
ghost use Rattle.rds_tree.specs.EditsWithDelta.{EditsWithDelta};

use rds_gaps::GapSet;
use rds_json::LineReader;
use rds_keep::{Layout, Stored, decode_stored, encode_file};
use rds_names::{Fault, Key, Name, Roster};
use rds_state::{Command, Edited, Replica, State};
use rds_tree::Index;
use std::alloc::Global;
use std::marker::Model;

/// A replica of a document, in memory: what it has seen of all replicas, and which of them it is. Its contracts speak
/// of it as of the replica. Some 16 kB of it are for reading lines.
pub struct Document {
    pub(crate) alloc: Global,
    pub(crate) index: Index<GapSet>,
    pub(crate) reader: LineReader,
}

// Written out, so that where a document is let go a caller's proof has one call.
impl Drop for Document {
    fn drop(self) {
        let Document {
            alloc: _alloc,
            index: _index,
            reader: _reader,
        } = self;
    }
}

impl Model for Document {
    ghost use Rattle.rds_state.specs.Fits.{ReplicaValue, coded_replica};

    ghost Value = { ReplicaValue };

    ghost coded = { coded_replica };

    ghost view = { λ d. d.index };
}

impl Document {
    /// An empty replica of a group: the one with this number, from 0, among the names. The texts are judged from left
    /// to right (`BadKey` for the group, `BadName`), then the roster, and the number in it (`BadRoster`).
    pub fn new(alloc: Global, group: &str, names: &[&str], own: u8) -> Result<Document, Fault>
        ensures { MayGive result (first_replica (named_roster group.now (map (λ n. n.now) names.now)) own) }
    {
        let roster = roster_named(alloc, group, names)?;
        Document::first(alloc, roster, own)
    }

    /// An empty replica: the one with this number in the roster. A number that isn't below its length is refused
    /// (`BadRoster`).
    pub fn first(alloc: Global, roster: Roster, own: u8) -> Result<Document, Fault>
        ensures { MayGive result (first_replica (Ok roster) own) }
    {
        Document::of(alloc, Replica::new(alloc, roster, own)?)
    }

    /// The document of a replica.
    pub fn of(alloc: Global, replica: Replica<GapSet>) -> Result<Document, Fault>
        ensures ok { IfOk result (λ document. document ≡ replica) }
        ensures memory { IfErr result (λ fault. fault ≡ Memory) }
    {
        Ok(Document {
            alloc,
            index: Index::of(alloc, replica)?,
            reader: LineReader::new(alloc),
        })
    }

    /// The document of a file's bytes: a snapshot in whichever format, and records behind it. What [`snapshot`] gives
    /// is such a file without records, and what `rds_node` writes is one. Bytes that are none are refused: `TooLong`
    /// above the limit, `Cut` where they end inside of the snapshot, `Bad` elsewhere.
    ///
    /// [`snapshot`]: Document::snapshot
    pub fn open(alloc: Global, bytes: &[u8]) -> Result<Document, Fault>
        ensures held { IfOk result (IsHeldBy bytes.now) }
        ensures fault { IfErr result (RefusesBytes bytes.now) }
    {
        let (document, _layout) = Document::open_stored(alloc, bytes)?;
        Ok(document)
    }

    /// The same, and where the parts of the file stand.
    pub fn open_stored(alloc: Global, bytes: &[u8]) -> Result<(Document, Layout), Fault>
        ensures stored { IfOk result (λ opened. IsStored bytes.now opened.0 opened.1) }
        ensures fault { IfErr result (RefusesBytes bytes.now) }
    {
        let (replica, layout) = decode_file(alloc, bytes)?;
        let document = Document::of(alloc, replica)?;
        Ok((document, layout))
    }

    /// The replica. Takes no memory.
    pub fn replica(&self) -> &Replica<GapSet>
        ensures { result.now ≡ self.now }
    {
        self.index.replica()
    }

    /// The replica alone. Takes no memory.
    pub fn into_replica(self) -> Replica<GapSet>
        ensures { result ≡ self }
    {
        let Document {
            alloc: _,
            index,
            reader: _reader,
        } = self;
        index.into_replica()
    }

    /// The bytes of a new file: the snapshot, and the record of its checksum. A snapshot above the limit is refused
    /// (`TooLong`). A file of these bytes holds this very replica.
    pub fn snapshot(&self) -> Result<Vec<u8>, Fault>
        ensures file { EncodesFile self.now result }
        ensures held { IfOk result (λ bytes. IsHeldBy bytes.items self.now) }
    {
        encode_file(self.alloc, self.index.replica())
    }

    /// Puts a name last in the roster. A text that is no name is refused (`BadName`), and a name that is there already,
    /// or the 257th (`BadRoster`).
    pub fn grow(&mut self, name: &str) -> Result<(), Fault>
        ensures grown { OnOk result (IsGrownBy name.now self.old self.new) }
        ensures fault { IfErr result (RefusesGrowth name.now self.old) }
        ensures err { OnErr result (self.new ≡ self.old) }
    {
        let names = [Name::new(name)?];
        let roster = self.index.replica().roster().grown(self.alloc, &names)?;
        match self.index.grow(roster) {
            Ok(()) => Ok(()),
            Err(_) => Err(Fault::Memory),
        }
    }
}

/// The steps of what changes a document.
impl Document {
    /// The edit that a line of JSON asks for.
    pub(crate) fn read_edit(&mut self, line: &str) -> Result<Command, Fault>
        ensures read { MayGive result (edit_of line.now) }
        ensures same { self.new ≡ self.old }
    {
        self.reader.edit(self.alloc, line)
    }

    /// Edits the document, by a command that the caller keeps.
    pub(crate) fn edit_by(&mut self, command: &Command) -> Result<Edited, Fault>
        ensures { EditsReplica self.old command.now result self.new }
    {
        self.index.edit_by(command)
    }

    /// Edits the document, and hands out what that changed.
    pub(crate) fn edit_with_delta(
        &mut self,
        command: &Command,
    ) -> Result<(Edited, State<GapSet>), Fault>
        ensures { EditsWithDelta self.old command.now result self.new }
    {
        self.index.edit_with_delta(command)
    }

    /// Takes a delta that comes with a roster, and tells whether its own roster grew by that.
    pub(crate) fn take_with(&mut self, roster: Roster, delta: &State<GapSet>) -> Result<bool, Fault>
        requires { Fits (max (length self.old.roster.names) (length roster.names)) (coordinates delta.now) }
        ensures taken { TakesDeltaWith self.old roster delta.now
            (result_map_both (λ _. tt) (λ fault. fault) result) self.new }
        ensures grew { IfOk result (λ grew. grew ≡ false → self.new.roster ≡ self.old.roster) }
    {
        let names = self.index.replica().roster().len();
        self.index.take_with(roster, delta)?;
        Ok(names < self.index.replica().roster().len())
    }
}

/// The replica that a file's bytes hold, and where their parts stand.
pub fn decode_file(alloc: Global, bytes: &[u8]) -> Result<(Replica<GapSet>, Layout), Fault>
    ensures stored { IfOk result (λ opened. IsStored bytes.now opened.0 opened.1) }
    ensures fault { IfErr result (RefusesBytes bytes.now) }
{
    match decode_stored(alloc, bytes) {
        Ok(stored) => {
            let Stored { kept, layout } = stored;
            Ok((kept.replica(), layout))
        }
        Err(refused) => Err(refused.fault),
    }
}

/// The roster of a group and the names of its replicas.
fn roster_named(alloc: Global, group: &str, names: &[&str]) -> Result<Roster, Fault>
    ensures { MayGive result (named_roster group.now (map (λ n. n.now) names.now)) }
{
    let group = Key::new(alloc, group)?;
    let names = names_in(alloc, names)?;
    Roster::new(alloc, group, names.as_slice())
}

/// The names that texts are.
fn names_in(alloc: Global, texts: &[&str]) -> Result<Vec<Name>, Fault>
    ensures { let due = names_in (map (λ t. t.now) texts.now) in
        MatchResult result (λ names. due ≡ Ok names.items) (λ fault. (fault ≡ Memory) ⊎ (due ≡ Err fault)) }
{
    let mut names = Vec::new(alloc);
    for text in texts {
        names.push(Name::new(text)?)?;
    }
    Ok(names)
}
