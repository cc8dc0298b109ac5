//! Where the path of a file leads. A symbolic link is followed, so that what is behind it is locked, read and replaced,
//! and never the link.
ghost use Rattle.std.specs.Prelude.{◌≡◌, IfErr};
ghost use Rattle.rds_names.specs.declared.fault.Fault.TheVariants.{Device};

use crate::disk::{Disk, note};
use rds_names::Fault;
use std::fs;
use std::rt::Files;

/// The file that a path leads to. A link is followed once, when this is made: one that is changed later changes
/// nothing. No clause ties it to the path, since none speaks of links.
pub struct Target<'a> {
    path: &'a str,
    behind: Option<String>,
}

// Written out, so that where it is let go a caller's proof has one call.
impl<'a> Drop for Target<'a> {
    fn drop(self) {
        let Target {
            path: _,
            behind: _behind,
        } = self;
    }
}

impl<'a> Target<'a> {
    /// Follows the path. `Device` where nothing is there, or where a link leads nowhere or can't be followed.
    pub fn find<H: Disk>(rt: &H, path: &'a str) -> Result<Target<'a>, Fault>
        ensures fault { IfErr result (λ e. e ≡ Device) }
    {
        match fs::symlink_metadata(rt, path) {
            Ok(about) if about.is_symlink() => Target::behind(rt, path),
            Ok(_) => Ok(Target { path, behind: None }),
            Err(error) => {
                note(rt, "cannot open", path, &error);
                Err(Fault::Device)
            }
        }
    }

    // What the link of this path leads to.
    fn behind<H: Disk>(rt: &H, path: &'a str) -> Result<Target<'a>, Fault>
        ensures fault { IfErr result (λ e. e ≡ Device) }
    {
        match rt.canonicalize(rt.alloc(), path) {
            Ok(behind) => Ok(Target {
                path,
                behind: Some(behind.into_string()),
            }),
            Err(error) => {
                note(rt, "cannot follow the link", path, &error);
                Err(Fault::Device)
            }
        }
    }

    /// The path of the file, with no link at its end.
    pub fn path(&self) -> &str {
        match &self.behind {
            Some(behind) => behind.as_str(),
            None => self.path,
        }
    }
}
