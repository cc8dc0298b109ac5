//! Replicas in files, to which records are appended. Read `disk`, `locks`, `targets`, `standing`, `beside`, `appending`,
//! `holders`, `lasting`, `reading` and then `files`.
#![tactic(auto)]

mod appending;
mod beside;
mod disk;
mod files;
mod holders;
mod lasting;
mod locks;
mod reading;
mod standing;
mod targets;

pub use disk::{Disk, note};
pub use files::{
    CreatedFile, EmptiedFile, FilePath, LockedFile, ReplacedFile, ReplicaFile, is_beside, is_there,
};
pub use holders::HolderNote;
pub use locks::LockFile;
pub use standing::{Whereabouts, check_writing};
