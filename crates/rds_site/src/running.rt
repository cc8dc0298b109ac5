//! A site from its words to the fault that ends it.
ghost use Rattle.std.specs.Prelude.{◌≡◌, ◌⊎◌, IfErr, IfOk, OnOk, is_some};
ghost use Rattle.rds_names.specs.declared.fault.Fault.TheVariants.{Usage};
ghost use Rattle.rds_site.specs.Addresses.{NamesPlace};

use crate::addresses::{check_reach, read_address};
use crate::arrivals::Door;
use crate::logging::{Hearing, Log, LoggedSite};
use crate::peer_table::Peers;
use crate::remains::check_remains;
use crate::reserve::Reserve;
use crate::table::Clients;
use crate::turns::Turns;
use crate::words::SiteWords;
use rds_client::{Trouble, find_peers, read_secret};
use rds_files::{Disk, HolderNote, LockFile, check_writing};
use rds_http::{Access, Site};
use rds_names::Fault;
use rds_store::DocumentFile;
use std::alloc::Global;
use std::hash::RandomState;
use std::io;
use std::net::{Net, SocketAddr};
use std::random::RandomSource;
use std::time::Instant;

/// Serves the document of a file over HTTP until a fault ends that, which is answered. The file is opened under its
/// lock, and kept before anything is answered, since who wrote it may not have made it last. An answer goes out once
/// all that came before it is kept.
///
/// While it serves, it has a note beside the file, by which a command that finds the file locked tells who has it.
///
/// It meets each peer, another node, over that one's HTTP: at the start, 20 ms after what others changed, and every so
/// many seconds. The peer takes what it lacks, and brings what this node lacks; a peer needs the same token. Where both
/// have seen the same, and hold different entries, that is `Forked`: standard error tells of it once, and nothing is
/// changed.
///
/// `Usage` where the words name no place for a site or no peers, or the token's file has none. What
/// [`DocumentFile::open`] and [`DocumentFile::keep`] refuse with. `Device` where the token's file can't be read, the
/// document's can't be written, the address can't be had, or the system can't be waited for. `Memory` where there is
/// none to begin. Standard error has a line once the site serves, and one that says why it ended, but where memory
/// lacked. What a client or a peer does wrong ends its connection alone.
///
/// Where what changed can't be written, as where the disk is full, it goes on with what the file has: looks are
/// answered, and changes are refused (507, as the fault `Device`) until one that is tried is written. Standard error has
/// a line where that begins and ends. A sync that fails ends the site, and so does a file that isn't as it was kept.
///
/// Where a meeting shows that the file is older than what its replica has sent, edits are refused from then on (409, as
/// the fault `OwnAhead`), and standard error says so: each would fork the replica.
///
/// There are at most 1,024 clients. Where there is no place or descriptor for another, one is let go: one that was
/// answered nothing yet, or else one that waits between two requests, or else one with a request or an answer under
/// way. Of several it is the one that has got no byte of an answer for longest. Who is told of changes keeps its place,
/// and where all are, the other one is let go. However many descriptors connections take, enough are left to keep the
/// document. Each client has 30 seconds for a whole request or 32 kB more of it, and to take a byte of an answer; and
/// a second more for each 16 kB that the system took of answers since it was last heard, 270 at most. A body has at
/// most 64 MB, and what waits unread of all clients 256 MB: who sends more is let go. A listener for which 256 kB wait is let go,
/// and one that was sent nothing for 20 seconds is sent a ping.
///
/// Where the words ask for a log, standard output has a line for each request that the site was asked: the client's
/// address, the method, the target, the status, how many bytes the answer's body has, and how many microseconds passed
/// from when the turn began until its changes were kept. Of the method and the target it has 200 bytes each at most. It
/// is written once the answer was sent, and where it can't be the site goes on. What is no request of HTTP has no line,
/// nor has one whose answer was replaced.
///
/// There are at most 64 peers. One that can't be found or met, that refuses, or that brings what is refused is tried
/// again after 1, 2, 4, and then each 8 seconds. Its name is looked up again where no connection could be made.
/// Standard error has a line where that begins and ends, and `/status` says how each peer stands. The responses that
/// are under way have at most 256 MB. Every 30 seconds a byte has to go, or 1 kB to come, or a response to begin or to
/// end; behind much that the system took there is more time, as for clients.
pub fn run_site<H: Disk + Net + RandomSource + Print>(rt: &H, words: &SiteWords<'_>) -> Fault
where
    H::File: LockFile,
    ensures place { (result ≡ Usage) ⊎ NamesPlace words.now }
{
    let mut turns = match begin(rt, words) {
        Ok(turns) => turns,
        Err(fault) => return fault,
    };
    let _note = note_holder(rt, words.file, &turns);
    for _ in 0..u64::MAX {
        match turns.turn(rt) {
            Ok(true) => (),
            Ok(false) => match turns.reopen(rt) {
                Ok(again) => turns = again,
                Err(fault) => return fault,
            },
            Err(fault) => return fault,
        }
    }
    Fault::Device
}

// All that comes before the first turn.
fn begin<'a, H: Disk + Net + RandomSource>(
    rt: &H,
    words: &SiteWords<'a>,
) -> Result<Turns<'a, H>, Fault>
where
    H::File: LockFile,
    ensures place { OnOk result (NamesPlace words.now) }
    ensures token { IfOk result (λ turns. is_some turns.logged.site.access.token ≡ is_some words.now.token_file) }
    ensures fault { IfErr result (λ fault. (fault ≡ Usage) ⊎ NamesPlace words.now) }
{
    let address = read_address(rt, words.http)?;
    let token = read_secret(rt, words.token_file)?;
    check_reach(rt, address, token.is_some(), words.is_open)?;
    let destinations = find_peers(rt, words.peers, address, token.as_ref())?;
    let clients = Clients::new(rt.alloc())?;
    check_remains(rt, words.file)?;
    let mut file = DocumentFile::open(rt, words.file)?;
    check_writing(rt, words.file)?;
    file.keep(rt)?;
    let (door, now) = open_door(rt, address)?;
    let peers = Peers::new(rt.alloc(), destinations, words.every, now)?;
    let mut reserve = Reserve::new(rt.alloc())?;
    reserve.fill(rt);
    let address = door.address().unwrap_or(address);
    let access = Access::new(address, token, words.is_open);
    let logged = LoggedSite {
        alloc: rt.alloc(),
        file: words.file,
        site: Site::new(rt.alloc(), file, access),
        log: log_of(rt.alloc(), words.log),
        hearing: Hearing::of(address),
        forks: 0,
        is_behind: false,
        stalled: None,
        is_trying: false,
        is_crowded: false,
    };
    let _ = eprintln!(rt; "listening on http://{address}/");
    Ok(Turns::new(logged, door, clients, peers, reserve, now))
}

// The log, where one is wished.
fn log_of(alloc: Global, is_wished: bool) -> Option<Log> {
    if is_wished {
        Some(Log::new(alloc))
    } else {
        None
    }
}

// Notes beside the file where the site serves, for commands that find it locked.
fn note_holder<H: Disk>(rt: &H, path: &str, turns: &Turns<'_, H>) -> Option<HolderNote<H>>
where
    H::File: LockFile,
{
    HolderNote::write(rt, path, turns.address().ok()?)
}

// Opens the place where clients come in, and looks at the time.
fn open_door<H: Disk + Net + RandomSource>(
    rt: &H,
    address: SocketAddr,
) -> Result<(Door, Instant), Fault> {
    match try_door(rt, address) {
        Ok(opened) => Ok(opened),
        Err(error) => {
            let _ = eprintln!(rt; "cannot listen at {address}: {error}");
            Err(Trouble::from(error).fault())
        }
    }
}

fn try_door<H: Disk + Net + RandomSource>(
    rt: &H,
    address: SocketAddr,
) -> io::Result<(Door, Instant)> {
    let keys = RandomState::new(rt)?;
    let door = Door::open(rt, keys, address)?;
    Ok((door, Instant::now(rt)?))
}
