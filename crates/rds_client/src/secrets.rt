//! The token of a site, in a file.
ghost use Rattle.std.specs.Prelude.{◌≡◌, IfOk, IsSome, OnErr, is_some};

use crate::troubles::Trouble;
use rds_fields::Token;
use rds_files::Disk;
use rds_names::Fault;
use std::io::Read;
use std::{fs, io};

/// So many bytes of a token's file are read at most: more than a token may have.
const LONGEST: u64 = 256;

/// Reads the token in the file of this path, where there is a path, as [`read_token`] does.
pub fn read_secret<H: Disk>(rt: &H, path: Option<&str>) -> Result<Option<Token>, Fault>
    ensures token { IfOk result (λ token. is_some token ≡ is_some path.entry) }
    ensures none { OnErr result (IsSome path.entry) }
{
    match path {
        Some(path) => Ok(Some(read_token(rt, path)?)),
        None => Ok(None),
    }
}

/// Reads the token in the file of this path. What is no token is refused, and a file that can't be read (`Device`),
/// with a line on standard error.
fn read_token<H: Disk>(rt: &H, path: &str) -> Result<Token, Fault> {
    let bytes = match read_file(rt, path) {
        Ok(bytes) => bytes,
        Err(error) => {
            let _ = eprintln!(rt; "cannot read {path}: {error}");
            return Err(Trouble::from(error).fault());
        }
    };
    match Token::read(rt.alloc(), &bytes) {
        Ok(token) => Ok(token),
        Err(fault) => {
            if matches!(fault, Fault::Usage) {
                let _ = eprintln!(rt;
                    "{path} holds no token: that is 16 to 128 bytes of A-Z a-z 0-9 - . _ ~"
                );
            }
            Err(fault)
        }
    }
}

// The first bytes of a file.
fn read_file<H: Disk>(rt: &H, path: &str) -> io::Result<Vec<u8>> {
    let mut bytes = Vec::new(rt.alloc());
    fs::open(rt, path)?.take(LONGEST).read_to_end(&mut bytes)?;
    Ok(bytes)
}
