//! A file that takes a copy of another, and a file that is made from another, or from a copy of its bytes.
ghost use Rattle.std.specs.Prelude.{◌≡◌, Err, IfErr, IfOk, false};
ghost use Rattle.rds_files.specs.Files.{is_beside};
ghost use Rattle.rds_names.specs.declared.fault.Fault.{Fault as Refusal};
ghost use Rattle.rds_names.specs.Name.{name_of};
ghost use Rattle.rds_offline.specs.Copies.{
  InitsFrom,
  InitsFromCopy,
  MergesFile,
  RefusesInitFrom,
  RefusesInitFromCopy,
  RefusesMergeFile,
  RefusesMergeIn,
  RefusesNextIn,
};
ghost use Rattle.rds_offline.specs.Merging.{CountsLacking, IsMergedFrom};
ghost use Rattle.rds_offline.specs.Next.{IsNextOf};

use crate::changes::change_by;
use crate::merging::merge;
use crate::next::next_replica;
use rds_files::{CreatedFile, Disk, LockFile, LockedFile, ReplacedFile, ReplicaFile};
use rds_gaps::GapSet;
use rds_keep::decode_stored;
use rds_names::{Fault, Name};
use rds_state::Replica;

/// A file that took components, and how many.
#[derive(Drop)]
pub struct TakenFile<'a> {
    /// The file.
    pub file: ReplacedFile<'a, GapSet>,
    /// How many components it took.
    pub components: u128,
}

impl TakenFile<'_> {
    /// How many components it took: the file is let go.
    pub fn into_components(self) -> u128
        ensures { result ≡ self.entry.components }
    {
        self.components
    }
}

/// Joins into a file all that the replica in another file has seen. The other file is read as `open_lasting` does, and
/// not written; then the file is locked and read, and its replica joined and kept. It answers how many components were
/// lacking.
///
/// Where the other file is a copy of the same replica, it is taken if the file has all of its own dots and counters'
/// numbers, and else refused (`OwnAhead`): then the file is the older one.
pub fn merge_file<'a, H: Disk>(rt: &H, path: &'a str, from: &str) -> Result<TakenFile<'a>, Fault>
where
    H::File: LockFile,
    ensures merged { IfOk result (λ done. MergesFile path.now from.now done.file done.components) }
    ensures fault { IfErr result (RefusesMergeFile path.now) }
{
    let source: ReplicaFile<'_, GapSet> = ReplicaFile::open_lasting(rt, from)?;
    let opened: LockedFile<'a, H, GapSet> = LockedFile::open(rt, path)?;
    let done = merge_in(rt, opened, source.kept().view_of())?;
    Ok(done)
}

// Joins all that a replica has seen into the one in the file, and answers once that is kept in its place.
fn merge_in<'a, H: Disk>(
    rt: &H,
    file: LockedFile<'a, H, GapSet>,
    source: &Replica<GapSet>,
) -> Result<TakenFile<'a>, Fault>
where
    H::File: LockFile,
    ensures path { IfOk result (λ done. done.file.path ≡ file.entry.path) }
    ensures before { IfOk result (λ done. done.file.before ≡ file.entry.kept) }
    ensures merged { IfOk result (λ done. IsMergedFrom source.now file.entry.kept done.file.kept) }
    ensures counted { IfOk result (λ done. CountsLacking source.now file.entry.kept done.components) }
    ensures fault { IfErr result (RefusesMergeIn source.now file.entry.kept) }
{
    let (mut replica, emptied) = file.into_parts();
    let replicas = replica.roster().len();
    let lacking = merge(rt.alloc(), &mut replica, source)?;
    let components = lacking.components();
    let change = change_by(replicas, source.roster(), &lacking);
    let file = emptied.keep(rt, replica, change)?;
    Ok(TakenFile { file, components })
}

/// Makes a file that holds the replica of this name in the group of the replica in another file, with all that that has
/// seen. The name is judged first (`BadName`); then the other file is read as `open_lasting` does. Refuses `NoSuch`
/// where the name is none of the group's, `SameReplica` where it is used, and else as `CreatedFile::create` does.
pub fn init_from<'a, H: Disk>(
    rt: &H,
    path: &'a str,
    from: &str,
    own: &str,
) -> Result<CreatedFile<'a, GapSet>, Fault>
where
    H::File: LockFile,
    ensures made { IfOk result (InitsFrom path.now from.now own.now) }
    ensures name { (fault : Refusal) → name_of own.now ≡ Err fault → result ≡ Err fault }
    ensures fault { IfErr result (RefusesInitFrom own.now) }
{
    let name = Name::new(own)?;
    let source: ReplicaFile<'_, GapSet> = ReplicaFile::open_lasting(rt, from)?;
    let file = create_next(rt, path, source.kept().view_of(), name)?;
    Ok(file)
}

/// Makes a file that holds the replica of this name in the group of the replica whose file these bytes are, with all
/// that that has seen. The name is judged first (`BadName`); then the bytes, which are refused as those of a file are:
/// `TooLong`, `Cut` or `Bad`. Else it refuses as `init_from` does.
pub fn init_from_copy<'a, H: Disk>(
    rt: &H,
    path: &'a str,
    copy: &[u8],
    own: &str,
) -> Result<CreatedFile<'a, GapSet>, Fault>
where
    H::File: LockFile,
    ensures made { IfOk result (InitsFromCopy path.now copy.now own.now) }
    ensures name { (fault : Refusal) → name_of own.now ≡ Err fault → result ≡ Err fault }
    ensures fault { IfErr result (RefusesInitFromCopy copy.now own.now) }
{
    let name = Name::new(own)?;
    match decode_stored(rt.alloc(), copy) {
        Ok(stored) => create_next(rt, path, stored.kept.view_of(), name),
        Err(refused) => Err(refused.fault),
    }
}

// Makes a file that holds the replica of this name in the group of another, with all that the other has seen.
fn create_next<'a, H: Disk>(
    rt: &H,
    path: &'a str,
    source: &Replica<GapSet>,
    name: Name,
) -> Result<CreatedFile<'a, GapSet>, Fault>
where
    H::File: LockFile,
    ensures path { IfOk result (λ file. file.path ≡ path.now) }
    ensures place { IfOk result (λ _. is_beside path.now ≡ false) }
    ensures next { IfOk result (λ file. IsNextOf source.now name file.kept) }
    ensures fault { IfErr result (RefusesNextIn source.now name) }
{
    let next = next_replica(rt.alloc(), source, name)?;
    let file = CreatedFile::create(rt, path, next)?;
    Ok(file)
}
