//! Runs of the program at an address.
use crate::runs::run_spaced;
use rds_names::Fault;
use rds_rows::told::said;
use std::io;
use std::net::{SocketAddr, TcpListener};

/// `busy WORDS`: runs the program on these words, of which ADDR stands for an address where somebody listens.
pub fn run_busy(rt: &HostRuntime, words: &str) -> Result<String, Fault> {
    match listening(rt) {
        Ok((listener, addr)) => {
            let answer = run_at(rt, words, addr);
            drop(listener);
            answer
        }
        Err(_) => said(rt.alloc(), "no listener"),
    }
}

/// `away WORDS`: the same where nobody listens.
pub fn run_away(rt: &HostRuntime, words: &str) -> Result<String, Fault> {
    match listening(rt) {
        Ok((listener, addr)) => {
            drop(listener);
            run_at(rt, words, addr)
        }
        Err(_) => said(rt.alloc(), "no listener"),
    }
}

// A listener, and its address.
fn listening(rt: &HostRuntime) -> io::Result<(TcpListener, SocketAddr)> {
    let listener = TcpListener::bind(rt, "127.0.0.1:0")?;
    let addr = listener.local_addr()?;
    Ok((listener, addr))
}

fn run_at(rt: &HostRuntime, words: &str, addr: SocketAddr) -> Result<String, Fault> {
    let addr = addr.to_string(rt.alloc())?;
    let words = words.replace(rt.alloc(), "ADDR", addr.as_str())?;
    run_spaced(rt, words.as_str(), &[])
}
