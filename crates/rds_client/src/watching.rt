//! A node that a command follows: what it tells of its changes is printed as it comes.
use crate::asking::AskWords;
use crate::calling::{Caller, caller_of, name_in};
use crate::changes::is_of_part;
use crate::feed::{Came, Feed};
use crate::secrets::read_secret;
use crate::troubles::{Trouble, tell};
use bytes::Buf;
use rds_files::Disk;
use rds_names::{Fault, Path};
use std::io;
use std::io::{ErrorKind, Read, Write};
use std::net::{Net, OpenStream};
use std::random::RandomSource;
use std::time::Duration;
use websocket::handshake::client::generate_key;

/// After so many seconds without a byte a node is given up: it sends a ping after 20 quiet ones.
const QUIET: u64 = 60;

/// The room that a read is given, in bytes.
const ROOM: usize = 4096;

/// A node that is followed: the connection that it has handed over, and what is said over it.
#[derive(Drop)]
struct Watch<T: Drop> {
    stream: T,
    feed: Feed,
}

/// Follows a node over its HTTP until a fault ends that, which is answered. Each text that it tells of changes is printed
/// as a line, where it tells of a path that is the part, lies below it or above it, or of any path.
///
/// `Usage` where the text names no host and port, or the token's file has none. `Device` where the node can't be reached, lets wait
/// too long until it hands the connection over, is silent for 60 seconds then, or the output can't be written; `PeerEnded`
/// where it ends the connection or refuses the request; `OutOfTurn` where it is no node; `TooLong` of a response, or a
/// text. Standard error has a line that says why, but not of the output.
pub fn watch_node<H: Disk + Net + RandomSource + Print>(
    rt: &H,
    words: &AskWords<'_>,
    part: &Path,
) -> Fault {
    match try_watch(rt, words, part) {
        Ok(()) => Fault::Device,
        Err(fault) => fault,
    }
}

// The same. It ends without a fault of its own where the output can't be written.
fn try_watch<H: Disk + Net + RandomSource + Print>(
    rt: &H,
    words: &AskWords<'_>,
    part: &Path,
) -> Result<(), Fault> {
    let name = name_in(words.node);
    let token = read_secret(rt, words.token_file)?;
    let mut caller = caller_of(rt, name, token.as_ref(), Some(words.timeout))?;
    match follow(rt, &mut caller, part) {
        Ok(()) => Ok(()),
        Err(trouble) => Err(tell(rt, name, trouble)),
    }
}

// Follows a node until the output can't be written.
fn follow<H: Disk + Net + RandomSource + Print>(
    rt: &H,
    caller: &mut Caller<'_>,
    part: &Path,
) -> Result<(), Trouble> {
    let mut nonce = [0; 16];
    rt.fill_bytes(&mut nonce)?;
    let (stream, input) = caller.open_live(rt, &generate_key(nonce))?;
    let timeout = Some(Duration::from_secs(QUIET));
    stream.set_read_timeout(timeout)?;
    stream.set_write_timeout(timeout)?;
    let mut watch = Watch {
        stream,
        feed: Feed::new(rt.alloc(), input),
    };
    for _ in 0..u64::MAX {
        if !watch.turn(rt, part)? {
            return Ok(());
        }
    }
    Ok(())
}

impl<T: Read + Write + Drop> Watch<T> {
    // Prints what came, answers it, and reads once. Answers whether the output could be written.
    fn turn<H: RandomSource + Print + AllocGlobal>(
        &mut self,
        rt: &H,
        part: &Path,
    ) -> Result<bool, Trouble> {
        for _ in 0..u64::MAX {
            match self.feed.take(rt)? {
                Some(Came::Text(text)) => {
                    if is_of_part(rt.alloc(), &text, part)? && !print_line(rt, text)? {
                        return Ok(false);
                    }
                }
                Some(Came::Close) => {
                    let _ = self.send();
                    return Err(Trouble::Ended);
                }
                Some(Came::Other) => (),
                None => break,
            }
        }
        self.send()?;
        self.receive()?;
        Ok(true)
    }

    // Sends what waits.
    fn send(&mut self) -> Result<(), Trouble> {
        for _ in 0..u64::MAX {
            if self.feed.output.is_empty() {
                return Ok(());
            }
            match self.stream.write(self.feed.output.as_slice()) {
                Ok(0) => return Err(Trouble::Ended),
                Ok(count) => {
                    let len = self.feed.output.len();
                    self.feed.output.advance(count.min(len));
                }
                Err(error) => check_wait(error)?,
            }
        }
        Ok(())
    }

    // Reads once.
    fn receive(&mut self) -> Result<(), Trouble> {
        self.feed.input.reserve(ROOM)?;
        match self.feed.input.read_from(&mut self.stream) {
            Ok(0) => Err(Trouble::Ended),
            Ok(_) => Ok(()),
            Err(error) => check_wait(error),
        }
    }
}

// Why a call failed, which may be that it took too long. One that was interrupted is made again.
fn check_wait(error: io::Error) -> Result<(), Trouble> {
    match error.kind() {
        ErrorKind::Interrupted => Ok(()),
        ErrorKind::WouldBlock | ErrorKind::TimedOut => Err(Trouble::Silence(QUIET)),
        _ => Err(Trouble::from(error)),
    }
}

// Prints a text as a line. Answers whether that could be done.
fn print_line<H: Print>(rt: &H, mut text: String) -> Result<bool, Trouble> {
    text.push('\n')?;
    Ok(print!(rt; "{text}").is_ok())
}
