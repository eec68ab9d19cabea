//! The feed and the port of a command, as files and sockets.
ghost use Rattle.std.specs.Prelude.{◌≡◌, ◌⊎◌, length, IfOk, IfErr};

use crate::status::Status;
use mt_io::TcpAcceptor;
use std::alloc::{AllocError, Global};
use std::fs::{File, OpenOptions};
use std::io::{Error, ErrorKind};
use std::net::{Ipv4Addr, TcpListener};
use std::sync::Arc;
use std::time::Duration;

/// The status where the store, the feed or the port cannot be opened.
pub const UNOPENED: u8 = 11;

/// The longest wait for one read or one write of a connection, in seconds.
pub const PATIENCE: u64 = 10;

/// The file at the path, to whose end lines are written, or the status where it cannot be opened.
pub fn open_feed(rt: &HostRuntime, path: &str) -> Result<File, u8>
    ensures { IfErr result (λ status. (status ≡ 1) ⊎ (status ≡ 11)) }
{
    OpenOptions::new()
        .append(true)
        .create(true)
        .open(rt, path)
        .map_err(unopened)
}

/// So many acceptors that share a listener at this port of 127.0.0.1, or the status where it cannot
/// be opened. A read or a write of their connections that waits longer than [`PATIENCE`] is a fault.
pub fn listen(rt: &HostRuntime, port: u16, count: u32) -> Result<Vec<TcpAcceptor>, u8>
    ensures acceptors { IfOk result (λ acceptors. length acceptors.items ≡ count) }
    ensures status { IfErr result (λ status. (status ≡ 1) ⊎ (status ≡ 11)) }
{
    let listener = TcpListener::bind(rt, (Ipv4Addr::LOCALHOST, port)).map_err(unopened)?;
    acceptors_of(rt.alloc(), listener, count).map_err(wanting)
}

// So many acceptors over the listener.
fn acceptors_of(
    alloc: Global,
    listener: TcpListener,
    count: u32,
) -> Result<Vec<TcpAcceptor>, AllocError>
    ensures { IfOk result (λ acceptors. length acceptors.items ≡ count) }
{
    let listener = Arc::new(alloc, listener)?;
    let patience = Some(Duration::from_secs(PATIENCE));
    let mut acceptors = Vec::new(alloc);
    for _worker in 0..count {
        acceptors.push(TcpAcceptor::new(listener.clone()?, patience))?;
    }
    Ok(acceptors)
}

// The status for what cannot be opened.
fn unopened(error: Error) -> u8
    ensures { (result ≡ 1) ⊎ (result ≡ 11) }
{
    match error.kind() {
        ErrorKind::OutOfMemory => Status::Memory.number(),
        _ => UNOPENED,
    }
}

// The status for want of memory.
fn wanting(_error: AllocError) -> u8
    ensures { result ≡ 1 }
{
    Status::Memory.number()
}
