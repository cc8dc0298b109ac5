//! What a node held whose file was written over or removed: FILE.left, where nothing else has it any more.
ghost use Rattle.std.specs.Prelude.{◌≡◌, ◌⊎◌, IfErr};
ghost use Rattle.rds_names.specs.declared.fault.Fault.TheVariants.{Device, Memory};

use rds_files::{Disk, LockFile, is_there};
use rds_http::Site;
use rds_names::Fault;
use std::alloc::{AllocError, Global};

/// Refuses `Device` where something is at FILE.left: what a node that had the file acknowledged may be there alone, and
/// each edit of the file would fork it. Standard error says what to do.
pub fn check_remains<H: Disk>(rt: &H, file: &str) -> Result<(), Fault>
where
    H::File: LockFile,
    ensures fault { IfErr result (λ fault. (fault ≡ Memory) ⊎ (fault ≡ Device)) }
{
    let name = remains_of(rt.alloc(), file)?;
    if !is_there(rt, name.as_str())? {
        return Ok(());
    }
    let _ = eprintln!(rt;
        "{name}: is what a node held whose file was written over: put it back, or elsewhere (docs/FAULTS.md, 24)"
    );
    Err(Fault::Device)
}

/// Leaves what a site has in FILE.left, where its file was removed or written over. Standard error says whether that is
/// done.
pub fn leave<H: Disk>(rt: &H, file: &str, site: Site<'_, H>)
where
    H::File: LockFile,
{
    let Ok(name) = remains_of(rt.alloc(), file) else {
        return;
    };
    let _ = match site.leave(rt, name.as_str()) {
        Ok(_left) => eprintln!(rt; "{file}: what it held is in {name}"),
        Err(_) => eprintln!(rt; "{file}: what it held can't be left in {name}"),
    };
}

// The path at which what was held of this file is left.
fn remains_of(alloc: Global, file: &str) -> Result<String, AllocError> {
    format!(in alloc; "{file}.left")
}
