//! Commands on the replica in a file.
ghost use Rattle.std.specs.Prelude.{◌≡◌, ◌⊎◌, None, Err, IfErr, IfOk, IsOk, MatchResult, OnErr, OnOk};
ghost use Rattle.rds_keep.specs.Changes.{IsChanged};
ghost use Rattle.rds_names.specs.declared.fault.Fault.TheVariants.{Memory};
ghost use Rattle.rds_names.specs.Gives.{Refuses};
ghost use Rattle.rds_names.specs.Path.{path_of};
ghost use Rattle.rds_names.specs.Roster.{grown_of};
ghost use Rattle.rds_state.specs.Edit.{IsDue};
ghost use Rattle.rds_commands.specs.Edits.{
  CompactsFile,
  delta_alone,
  edit_refusal,
  EditsFile,
  EditsIfChanged,
  GrowsFile,
  InitsFile,
  AnswersEdited,
  IsGrownByNames,
  RefusesCompact,
  RefusesEdit,
  RefusesEditIn,
  RefusesGrow,
  RefusesGrowIn,
  RefusesInit,
  RefusesShow,
  ShowsFile,
};
ghost use Rattle.rds_output.specs.declared.reply.Reply.TheVariants.{Done};
ghost use Rattle.rds_words.specs.Meaning.{IsCommand, names_for, roster_for};

use crate::visits::is_site;
use rds_dots::DotSet;
use rds_files::{CreatedFile, Disk, LockFile, LockedFile, ReplacedFile, ReplicaFile};
use rds_gaps::GapSet;
use rds_keep::Change;
use rds_lines::{Layout, shown};
use rds_listing::stands;
use rds_names::{Fault, Name, Path, Roster};
use rds_output::Reply;
use rds_state::{Command, Replica, State};
use rds_tree::edit_with_delta;
use rds_words::{EditWords, GrowWords, InitWords, command_of, names_in, roster_in};
use std::alloc::Global;

/// A file as a command left it, and what the command is answered.
#[derive(Drop)]
pub struct FileAnswer<F> {
    /// The file.
    pub file: F,
    /// The answer.
    pub answer: Reply,
}

impl<F: Drop> FileAnswer<F> {
    /// The answer alone: the file is let go.
    pub fn into_answer(self) -> Reply
        ensures { result ≡ self.answer }
    {
        self.answer
    }
}

/// Makes a file that holds an empty replica of a group. The words are judged first, as `roster_in` does; then a file
/// that is there already, or whose name ends in `.new`, is `Usage`, and one that can't be made is `Device`.
pub fn init_file<'a, H: Disk>(
    rt: &H,
    words: &InitWords<'a>,
) -> Result<FileAnswer<CreatedFile<'a, GapSet>>, Fault>
where
    H::File: LockFile,
    ensures made { IfOk result (λ done. InitsFile words.now done.file done.answer) }
    ensures words { (fault : Fault) → roster_for words.now ≡ Err fault
        → (result ≡ Err Memory) ⊎ (result ≡ Err fault) }
    ensures fault { IfErr result (RefusesInit words.now) }
{
    let alloc = rt.alloc();
    let (roster, own) = roster_in(alloc, words.group, words.own, &words.names)?;
    let replica = Replica::new(alloc, roster, own)?;
    let file = CreatedFile::create(rt, words.file, replica)?;
    Ok(FileAnswer {
        file,
        answer: Reply::Done,
    })
}

/// Adds replicas to the group of the replica in a file. The names are judged first, as `names_in` does; then the file is
/// locked and read, and its replica grown and kept.
pub fn grow_file<'a, H: Disk>(
    rt: &H,
    words: &GrowWords<'a>,
) -> Result<FileAnswer<ReplacedFile<'a, GapSet>>, Fault>
where
    H::File: LockFile,
    ensures grown { IfOk result (λ done. GrowsFile words.now done.file done.answer) }
    ensures words { (fault : Fault) → names_for words.now ≡ Err fault
        → (result ≡ Err Memory) ⊎ (result ≡ Err fault) }
    ensures fault { IfErr result (RefusesGrow words.now) }
{
    let names = names_in(rt.alloc(), &words.names)?;
    let opened = LockedFile::open(rt, words.file)?;
    let done = grow_in(rt, opened, names.as_slice())?;
    Ok(done)
}

/// Adds replicas to the group of the replica in the file, and answers once that is kept in its place. Refuses as
/// growing does, and where that doesn't refuse, as keeping does.
pub fn grow_in<'a, H: Disk>(
    rt: &H,
    file: LockedFile<'a, H, GapSet>,
    names: &[Name],
) -> Result<FileAnswer<ReplacedFile<'a, GapSet>>, Fault>
where
    H::File: LockFile,
    ensures path { IfOk result (λ done. done.file.path ≡ file.entry.path) }
    ensures before { IfOk result (λ done. done.file.before ≡ file.entry.kept) }
    ensures grown { IfOk result (λ done. IsGrownByNames names.now file.entry.kept done.file.kept) }
    ensures told { IfOk result (λ done. done.answer ≡ Done) }
    ensures fault { IfErr result (RefusesGrowIn names.now file.entry.kept) }
{
    let alloc = rt.alloc();
    let (mut replica, emptied) = file.into_parts();
    let roster = grow(alloc, &mut replica, names)?;
    let nothing = State::empty(alloc);
    let change = Change {
        roster: Some(&roster),
        delta: &nothing,
    };
    let file = emptied.keep(rt, replica, change)?;
    Ok(FileAnswer {
        file,
        answer: Reply::Done,
    })
}

/// Writes the file of a replica anew, as one snapshot without records. The file is locked and read first, and what it
/// holds stays.
pub fn compact_file<'a, H: Disk>(
    rt: &H,
    path: &'a str,
) -> Result<FileAnswer<ReplacedFile<'a, GapSet>>, Fault>
where
    H::File: LockFile,
    ensures same { IfOk result (λ done. CompactsFile path.now done.file done.answer) }
    ensures fault { IfErr result (RefusesCompact path.now) }
{
    let held = LockedFile::open(rt, path)?;
    let (replica, emptied) = held.into_parts();
    let file = emptied.replace(rt, replica)?;
    Ok(FileAnswer {
        file,
        answer: Reply::Done,
    })
}

/// Edits the replica in a file. The words are judged first, as `command_of` does; then the file is
/// locked and read, its replica edited and kept, and only then is the edit answered.
pub fn edit_file<'a, H: Disk>(
    rt: &H,
    path: &'a str,
    words: &EditWords<'_>,
) -> Result<FileAnswer<ReplacedFile<'a, GapSet>>, Fault>
where
    H::File: LockFile,
    ensures edited { IfOk result (λ done. EditsFile path.now words.now done.file done.answer) }
    ensures words { (fault : Fault) → IsCommand words.now (Err fault)
        → (result ≡ Err Memory) ⊎ (result ≡ Err fault) }
    ensures fault { IfErr result (RefusesEdit path.now words.now) }
{
    let command = command_of(rt.alloc(), words)?;
    let opened = LockedFile::open(rt, path)?;
    let done = edit_in(rt, opened, command)?;
    Ok(done)
}

/// Edits the replica in the file, and answers once that is kept in its place. Refuses as the edit does,
/// and where that doesn't refuse, as keeping does.
pub fn edit_in<'a, H: Disk>(
    rt: &H,
    file: LockedFile<'a, H, GapSet>,
    command: Command,
) -> Result<FileAnswer<ReplacedFile<'a, GapSet>>, Fault>
where
    H::File: LockFile,
    ensures path { IfOk result (λ done. done.file.path ≡ file.entry.path) }
    ensures before { IfOk result (λ done. done.file.before ≡ file.entry.kept) }
    ensures edited { IfOk result (λ done. AnswersEdited command file.entry.kept done.file.kept done.answer) }
    ensures due { IfOk result (λ _. edit_refusal file.entry.kept command ≡ None) }
    ensures fault { IfErr result (RefusesEditIn command file.entry.kept) }
{
    let (mut replica, file) = file.into_parts();
    let (answer, delta) = edited(rt.alloc(), &mut replica, &command)?;
    let change = Change {
        roster: None,
        delta: &delta,
    };
    let file = file.keep(rt, replica, change)?;
    Ok(FileAnswer { file, answer })
}

/// Edits the replica in a file as `edit_file` does, unless what the edit says stands there already: then the file is
/// left as it is, and none is answered. An address of a site is no file's path (`Device`).
pub fn edit_if_changed<'a, H: Disk>(
    rt: &H,
    path: &'a str,
    words: &EditWords<'_>,
) -> Result<FileAnswer<Option<ReplacedFile<'a, GapSet>>>, Fault>
where
    H::File: LockFile,
    ensures edited { IfOk result (λ done. EditsIfChanged path.now words.now done.file done.answer) }
    ensures fault { IfErr result (RefusesEdit path.now words.now) }
{
    let alloc = rt.alloc();
    let command = command_of(alloc, words)?;
    if is_site(path) {
        return Err(Fault::Device);
    }
    let opened: LockedFile<'a, H, GapSet> = LockedFile::open(rt, path)?;
    let same = stands(alloc, opened.kept().view_of().state(), &command)?;
    if same {
        opened.make_last(rt)?;
        return Ok(FileAnswer {
            file: None,
            answer: Reply::Edited {
                dot: None,
                killed: 0,
            },
        });
    }
    let FileAnswer { file, answer } = edit_in(rt, opened, command)?;
    Ok(FileAnswer {
        file: Some(file),
        answer,
    })
}

/// Shows what the document of the replica in a file has at the path of a text. The path is judged
/// first: `BadPath`, then `BadKey`.
pub fn show_file<'a, H: Disk>(
    rt: &H,
    path: &'a str,
    text: &str,
    layout: Layout,
) -> Result<FileAnswer<ReplicaFile<'a, GapSet>>, Fault>
    ensures shown { IfOk result (λ done. ShowsFile layout path.now text.now done.file done.answer) }
    ensures path { (fault : Fault) → path_of text.now ≡ Err fault → result ≡ Err fault }
    ensures fault { IfErr result (RefusesShow text.now) }
{
    let alloc = rt.alloc();
    let keys = Path::new(alloc, text)?;
    let file = ReplicaFile::open(rt, path)?;
    let answer = shown(alloc, file.kept().view_of().state(), &keys, layout)?;
    Ok(FileAnswer { file, answer })
}

/// Edits a replica, and answers which dot is new and how many entries were taken away, and the delta that it was joined
/// with. Refuses as the edit does, and then nothing is changed.
pub fn edited<S: DotSet>(
    alloc: Global,
    replica: &mut Replica<S>,
    command: &Command,
) -> Result<(Reply, State<S>), Fault>
    ensures edited { IfOk result (λ done. AnswersEdited command.now replica.old replica.new done.0) }
    ensures changed { IfOk result (λ done. IsChanged replica.old (delta_alone done.1) replica.new) }
    ensures refusal { let due = edit_refusal replica.old command.now in
        MatchResult result (λ _. due ≡ None) (IsDue due) }
    ensures err { OnErr result (replica.new ≡ replica.old) }
{
    let (edited, delta) = edit_with_delta(alloc, replica, command)?;
    let answer = Reply::of_edit(replica.roster(), &edited);
    Ok((answer, delta))
}

/// Puts names behind those of a replica's roster, and answers the roster. Refuses `BadRoster` where there is none, where
/// one stands twice and where there are more than 256 in all, and then nothing is changed.
pub fn grow<S: DotSet>(
    alloc: Global,
    replica: &mut Replica<S>,
    names: &[Name],
) -> Result<Roster, Fault>
    ensures grown { IfOk result (λ _. IsGrownByNames names.now replica.old replica.new) }
    ensures roster { IfOk result (λ roster. roster ≡ replica.new.roster) }
    ensures refusal { let due = grown_of replica.old.roster names.now in
        MatchResult result (λ _. IsOk due) (λ fault. Refuses fault due) }
    ensures err { OnErr result (replica.new ≡ replica.old) }
{
    let grown = replica.roster().grown(alloc, names)?;
    let roster = grown.copy(alloc)?;
    replica.grow(grown)?;
    Ok(roster)
}
