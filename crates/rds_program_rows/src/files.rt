//! Files and folders that rows make, look at and remove.
use rds_names::Fault;
use rds_rows::told::{digits_of, said};
use rds_rows::words::{bytes_of, cut, first};
use std::fs::Permissions;
use std::os::unix::fs::PermissionsExt;
use std::rt::Files;
use std::{fs, io};

/// `put FILE HEX`: writes the bytes of these hex digits into a file.
pub fn put(rt: &HostRuntime, rest: &str) -> Result<String, Fault> {
    let (file, digits) = first(rest);
    let bytes = bytes_of(rt.alloc(), digits)?;
    told_done(rt, fs::write(rt, file, bytes.as_slice()))
}

/// `hold FILE`: the hex digits of a file's bytes.
pub fn hold(rt: &HostRuntime, file: &str) -> Result<String, Fault> {
    match fs::read(rt, file) {
        Ok(bytes) => digits_of(rt.alloc(), &bytes),
        Err(_) => said(rt.alloc(), "no file"),
    }
}

/// `copy FILE NAME`: writes what a file has into the file of this name.
pub fn copy(rt: &HostRuntime, rest: &str) -> Result<String, Fault> {
    let (file, name) = cut(rest)?;
    match fs::read(rt, file) {
        Ok(bytes) => told_done(rt, fs::write(rt, name, bytes.as_slice())),
        Err(_) => said(rt.alloc(), "not done"),
    }
}

/// `folder NAME`: makes a folder.
pub fn make_folder(rt: &HostRuntime, name: &str) -> Result<String, Fault> {
    told_done(rt, fs::create_dir(rt, name))
}

/// `remove FILE`: removes a file.
pub fn remove_file(rt: &HostRuntime, file: &str) -> Result<String, Fault> {
    told_done(rt, fs::remove_file(rt, file))
}

/// `remove_folder NAME`: removes a folder that holds nothing.
pub fn remove_folder(rt: &HostRuntime, name: &str) -> Result<String, Fault> {
    told_done(rt, fs::remove_dir(rt, name))
}

/// `mode FILE`: who may read and write a file, in octal digits.
pub fn mode(rt: &HostRuntime, file: &str) -> Result<String, Fault> {
    match fs::metadata(rt, file) {
        Ok(about) => {
            let mode = about.permissions().mode() & 0o777;
            Ok(format!(in rt.alloc(); "{mode:o}")?)
        }
        Err(_) => said(rt.alloc(), "no file"),
    }
}

/// `set_mode MODE FILE`: lets those read and write a file that the octal digits say.
pub fn set_mode(rt: &HostRuntime, rest: &str) -> Result<String, Fault> {
    let (digits, file) = cut(rest)?;
    let Ok(mode) = u32::from_str_radix(digits, 8) else {
        return Err(Fault::Usage);
    };
    told_done(
        rt,
        fs::set_permissions(rt, file, Permissions::from_mode(mode)),
    )
}

/// `link FILE NAME`: makes a symbolic link of this name that leads to the file.
pub fn link(rt: &HostRuntime, rest: &str) -> Result<String, Fault> {
    let (file, name) = cut(rest)?;
    told_done(rt, rt.symlink(file, name))
}

/// `name FILE NAME`: gives a file one name more.
pub fn name(rt: &HostRuntime, rest: &str) -> Result<String, Fault> {
    let (file, name) = cut(rest)?;
    told_done(rt, fs::hard_link(rt, file, name))
}

/// `leads NAME`: what a symbolic link leads to.
pub fn leads(rt: &HostRuntime, name: &str) -> Result<String, Fault> {
    match fs::read_link(rt, name) {
        Ok(path) => Ok(path.into_string()),
        Err(_) => said(rt.alloc(), "no link"),
    }
}

fn told_done(rt: &HostRuntime, done: io::Result<()>) -> Result<String, Fault> {
    match done {
        Ok(()) => said(rt.alloc(), "done"),
        Err(_) => said(rt.alloc(), "not done"),
    }
}
