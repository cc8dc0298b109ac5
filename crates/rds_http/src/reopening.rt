//! A site of which what had changed couldn't be kept: its file is read anew.
ghost use Rattle.std.specs.Prelude.{◌≡◌, ◌⊎◌, IfErr, IfOk};
ghost use Rattle.rds_files.specs.Files.{IsHeldAt, RefusesLock};
ghost use Rattle.rds_names.specs.declared.fault.Fault.TheVariants.{Memory};
ghost use Rattle.rds_names.specs.Roster.{Begins};
ghost use Rattle.rds_state.specs.Mark.{mark_of};

use rds_files::{Disk, LockFile};
use rds_names::{Fault, Roster};
use rds_state::Mark;
use rds_store::DocumentFile;

/// Opens the file of this path. `Device` also where its document has another mark than this one, or is of another
/// replica than the one of this number and roster, which may have grown.
pub fn open_same<'a, H: Disk>(
    rt: &H,
    path: &'a str,
    kept: Mark,
    own: u8,
    roster: &Roster,
) -> Result<DocumentFile<'a, H>, Fault>
where
    H::File: LockFile,
    ensures held { IfOk result (λ file. IsHeldAt path.now (record { path = file.path; kept = file.kept })) }
    ensures document { IfOk result (λ file. file.document ≡ file.kept) }
    ensures mark { IfOk result (λ file. mark_of file.kept.state ≡ kept) }
    ensures own { IfOk result (λ file. file.kept.own ≡ own) }
    ensures roster { IfOk result (λ file. Begins file.kept.roster roster.now) }
    ensures fault { IfErr result (λ fault. (fault ≡ Memory) ⊎ RefusesLock path.now fault) }
{
    let file = DocumentFile::open(rt, path)?;
    let document = file.document();
    let replica = document.replica();
    if document.mark() == kept && replica.own() == own && replica.roster().begins(roster) {
        return Ok(file);
    }
    let _ = eprintln!(rt; "{path}: holds another document by now, and is left as it is");
    Err(Fault::Device)
}
