//! Where clients come in.
use crate::clients::Client;
use crate::peer_table::{Peers, shorter};
use crate::sockets::{LEAST_ROOM, Socket};
use crate::table::{Clients, MOST_CLIENTS};
use http_server::{Config, Connection};
use mio::net::{TcpListener, TcpStream};
use mio::{Events, Interest, Poll, Registry, Token};
use rds_names::Fault;
use std::alloc::Global;
use std::hash::RandomState;
use std::io;
use std::io::ErrorKind;
use std::net::{Net, SocketAddr};
use std::time::{Duration, Instant};

/// By this the system tells that clients come.
const ARRIVALS: Token = Token(usize::MAX);

/// One wait brings so many events at most; the others come with the next.
const EVENTS: usize = 256;

/// The longest body of a request, in bytes.
const LONGEST_BODY: usize = 67_108_864;

/// While more bytes than this wait for a client, its requests wait.
const MOST_PENDING: usize = 1_048_576;

/// The errors of a system and of a process that have no further descriptor: `ENFILE`, `EMFILE`.
const NO_DESCRIPTOR: [Option<i32>; 2] = [Some(23), Some(24)];

/// How many milliseconds are waited at most while there are clients, or the next one can't be accepted.
const TICK: u64 = 1000;

/// Whether clients wait to be accepted.
#[derive(Clone, Copy, Debug, PartialEq, Eq)]
enum Arrivals {
    /// None, until an event tells of one.
    None,
    /// Some may wait.
    Some,
    /// Some may wait, and can't be accepted for now.
    Later,
}

/// Where clients come in: the address at which they call, and what tells of them.
#[derive(Drop)]
pub struct Door {
    alloc: Global,
    keys: RandomState,
    poll: Poll,
    events: Events,
    listener: TcpListener,
    arrivals: Arrivals,
}

impl Door {
    /// Opens at an address.
    pub fn open<H: Net + AllocGlobal>(
        rt: &H,
        keys: RandomState,
        address: SocketAddr,
    ) -> io::Result<Door> {
        let alloc = rt.alloc();
        let poll = Poll::new(rt)?;
        let mut listener = TcpListener::bind(rt, address)?;
        poll.registry()
            .register(&mut listener, ARRIVALS, Interest::READABLE)?;
        Ok(Door {
            alloc,
            keys,
            poll,
            events: Events::with_capacity(alloc, EVENTS)?,
            listener,
            arrivals: Arrivals::Some,
        })
    }

    /// The address at which clients call, with its port.
    pub fn address(&self) -> io::Result<SocketAddr> {
        self.listener.local_addr()
    }

    /// By what the system is asked to tell of connections.
    pub fn registry(&self) -> &Registry {
        self.poll.registry()
    }

    /// Waits for events, or until something is to be done for a peer. Lists the clients and peers that events tell of,
    /// for the turn that begins so.
    pub fn wait(
        &mut self,
        clients: &mut Clients,
        peers: &mut Peers<'_>,
        now: Instant,
    ) -> io::Result<()> {
        let timeout = shorter(self.timeout(clients, now), peers.pause(now));
        clients.begin_turn(now);
        self.poll.poll(&mut self.events, timeout)?;
        for event in self.events.iter() {
            let token = event.token();
            if token == ARRIVALS {
                self.arrivals = Arrivals::Some;
            } else if !peers.list(token) {
                clients.list(token, event.is_read_closed());
            }
        }
        Ok(())
    }

    // How long to wait for an event, as far as clients go.
    fn timeout(&self, clients: &Clients, now: Instant) -> Option<Duration> {
        if self.arrivals == Arrivals::Some {
            Some(Duration::ZERO)
        } else if clients.is_empty() && self.arrivals == Arrivals::None {
            None
        } else {
            shorter(clients.pause(now), Some(Duration::from_millis(TICK)))
        }
    }

    /// Where a client couldn't be accepted, it is tried again.
    pub fn try_again(&mut self) {
        if self.arrivals == Arrivals::Later {
            self.arrivals = Arrivals::Some;
        }
    }

    /// Accepts clients that wait. Where there is no place or descriptor for one, another is given up for it, or else it
    /// is let go at once.
    pub fn accept(&mut self, clients: &mut Clients, now: Instant) {
        if self.arrivals != Arrivals::Some {
            return;
        }
        let mut lacks = false;
        for _ in 0..MOST_CLIENTS {
            match self.listener.accept() {
                Ok((stream, address)) => {
                    lacks = false;
                    self.admit(stream, address, clients, now);
                }
                Err(error) => match error.kind() {
                    ErrorKind::WouldBlock => {
                        self.arrivals = Arrivals::None;
                        return;
                    }
                    ErrorKind::ConnectionAborted | ErrorKind::Interrupted => (),
                    _ => {
                        if lacks || !lacks_descriptor(&error) || !clients.make_room() {
                            self.arrivals = Arrivals::Later;
                            return;
                        }
                        lacks = true;
                    }
                },
            }
        }
    }

    // Takes a client in, where there is a place for it or another is given up. One that can't be watched is let go.
    fn admit(&self, stream: TcpStream, address: SocketAddr, clients: &mut Clients, now: Instant) {
        if clients.is_full() && !clients.make_room() {
            return;
        }
        let mut socket = Socket::new(stream);
        let token = clients.next_token();
        if socket.register(self.poll.registry(), token).is_ok() {
            let connection = Connection::new(self.alloc, self.keys, config());
            clients.put(Client::new(address, socket, connection, now));
        }
    }
}

// Whether an error says that there is no further descriptor.
fn lacks_descriptor(error: &io::Error) -> bool {
    NO_DESCRIPTOR.contains(&error.raw_os_error())
}

// The limits of a connection.
fn config() -> Config {
    Config {
        max_body_len: LONGEST_BODY,
        max_pending: MOST_PENDING,
        read_size: LEAST_ROOM,
        ..Config::default()
    }
}
