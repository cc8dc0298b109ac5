//! A session of two replicas over a connection of the program to itself.
ghost use Rattle.std.specs.Prelude.{◌≡◌, ◌≤◌, ◌<◌, [], true, length, IfErr, OnOk};
ghost use Rattle.rds_names.specs.declared.fault.Fault.TheVariants.{Device};
ghost use Rattle.rds_session.specs.declared.step.Ended.TheVariants.{Going};
ghost use Rattle.rds_session.specs.declared.talk.Side.TheVariants.{Client, Server};
ghost use Rattle.rds_session.specs.declared.version.Version.TheVariants.{Two};
ghost use Rattle.rds_session.specs.Leaving.{Leaves};
ghost use Rattle.rds_session.specs.Received.{delivery_of};
ghost use Rattle.rds_session.specs.Steps.{IsOver};
ghost use Rattle.rds_meetings.specs.Pairing.{StaysEnd};

use super::end::End;
use rds_dots::DotSet;
use rds_keep::Kept;
use rds_names::Fault;
use rds_session::{Exchanged, Side, Version};
use std::alloc::Global;
use std::io;
use std::io::{ErrorKind, Read, Write};
use std::net::{Net, OpenListener, OpenStream, SocketAddr, TcpListener, TcpStream};

/// The two ends of a connection.
#[derive(Drop)]
pub struct Link<T> {
    /// The end that connected.
    pub client: T,
    /// The end that was accepted.
    pub server: T,
}

/// A TCP connection of the program to itself on 127.0.0.1. What is written is sent at once.
pub fn connect<H: Net>(rt: &H) -> Result<Link<H::Stream>, Fault>
    ensures fault { IfErr result (λ fault. fault ≡ Device) }
{
    match linked(rt) {
        Ok(link) => Ok(link),
        Err(_) => Err(Fault::Device),
    }
}

fn linked<H: Net>(rt: &H) -> io::Result<Link<H::Stream>> {
    let listener = TcpListener::bind(rt, "127.0.0.1:0")?;
    let client = TcpStream::connect(rt, listener.local_addr()?)?;
    let server = accept(&listener, client.local_addr()?)?;
    client.set_nodelay(true)?;
    server.set_nodelay(true)?;
    Ok(Link { client, server })
}

// Accepts a connection from this address. Another program that was the first to connect is refused.
fn accept<L: OpenListener>(listener: &L, wanted: SocketAddr) -> io::Result<L::Stream> {
    match listener.accept() {
        Ok((stream, address)) if address == wanted => Ok(stream),
        Ok(_) => Err(io::Error::from(ErrorKind::ConnectionRefused)),
        Err(error) => Err(error),
    }
}

/// One session of two kept replicas over a connection, by turns: an end writes some of what it has to
/// say, and the other reads just that. An end that has said all and is over shuts down writing. There
/// are at most so many turns; an end that goes on then has failed with `Device`. Where a call on the
/// connection fails, its end has failed with `Device`, and the other takes that as the end.
pub fn meet<T: Read + Write + OpenStream + Drop, S: DotSet>(
    alloc: Global,
    turns: u64,
    first: &Kept<S>,
    second: &Kept<S>,
    link: Link<T>,
) -> (Exchanged<S>, Exchanged<S>)
    ensures client { Leaves (Client Two) first.now (delivery_of result.0.received result.0.roster) result.0.ended }
    ensures server { Leaves Server second.now (delivery_of result.1.received result.1.roster) result.1.ended }
{
    let side = Side::Client {
        version: Version::Two,
    };
    let mut client = End::begin(alloc, side, first, link.client);
    let mut server = End::begin(alloc, Side::Server, second, link.server);
    talk(alloc, turns, &mut client, &mut server);
    (client.leave(), server.leave())
}

// Turns, to the end of both. Where a call on the connection fails, it has ended for both.
fn talk<T: Read + Write + OpenStream + Drop, S: DotSet>(
    alloc: Global,
    turns: u64,
    client: &mut End<'_, T, S>,
    server: &mut End<'_, T, S>,
)
    ensures client { StaysEnd client.old.session client.old.ended client.new.session client.new.ended }
    ensures server { StaysEnd server.old.session server.old.ended server.new.session server.new.ended }
{
    match take_turns(alloc, turns, client, server) {
        Ok(()) => {}
        Err(_) => {
            client.cut(alloc);
            server.cut(alloc);
        }
    }
}

// Turns, until both ends have shut down writing.
fn take_turns<T: Read + Write + OpenStream + Drop, S: DotSet>(
    alloc: Global,
    turns: u64,
    client: &mut End<'_, T, S>,
    server: &mut End<'_, T, S>,
) -> Result<(), Fault>
    ensures client { StaysEnd client.old.session client.old.ended client.new.session client.new.ended }
    ensures server { StaysEnd server.old.session server.old.ended server.new.session server.new.ended }
    ensures fault { IfErr result (λ e. e ≡ Device) }
{
    'turns: for _ in 0..turns {
        if client.is_shut() && server.is_shut() {
            return Ok(());
        }
        pass(alloc, client, server)?;
        pass(alloc, server, client)?;
    }
    Ok(())
}

// One end says what is next, or that it has ended, and the other hears just that.
fn pass<T: Read + Write + OpenStream + Drop, S: DotSet>(
    alloc: Global,
    from: &mut End<'_, T, S>,
    to: &mut End<'_, T, S>,
) -> Result<(), Fault>
    ensures from { StaysEnd from.old.session from.old.ended from.new.session from.new.ended }
    ensures to { StaysEnd to.old.session to.old.ended to.new.session to.new.ended }
    ensures said { OnOk result (1 ≤ length from.old.pending → length from.new.pending < length from.old.pending) }
    ensures shut { OnOk result (from.old.pending ≡ [] → IsOver from.old.ended → from.new.is_shut ≡ true) }
    ensures open { OnOk result (from.old.ended ≡ Going → from.new.is_shut ≡ from.old.is_shut) }
    ensures fault { IfErr result (λ e. e ≡ Device) }
{
    if from.has_pending() {
        let count = from.say()?;
        return to.hear(alloc, count);
    }
    if from.is_over() && !from.is_shut() {
        from.shut_down()?;
        return to.hear(alloc, 1);
    }
    Ok(())
}
