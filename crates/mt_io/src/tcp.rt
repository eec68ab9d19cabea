//! Links over TCP, and an acceptor that gives them.
ghost use Rattle.std.specs.Prelude.{◌≡◌, ◌<◌, Some, None, refl, length};
ghost use Rattle.std.specs.Io.{ReadsAtMost};
ghost use Rattle.mt_io.specs.Counts.{CountsFaults, CountsLines};
ghost use Rattle.mt_io.specs.Faults.{HasCause};
ghost use Rattle.mt_io.specs.Streams.{Takes, Appends};

use crate::counted::{read_counted, write_counted};
use crate::{Acceptor, Failed, Link, Sink, Source};
use std::io;
use std::net::{TcpListener, TcpStream};
use std::sync::Arc;
use std::time::Duration;

/// A connection over TCP as a link. It tells no bytes, since what a real connection holds is not
/// known.
#[derive(Drop)]
pub struct TcpLink {
    stream: TcpStream,
    read_faults: u64,
    write_faults: u64,
}

impl TcpLink {
    /// A link over the connection, with no fault.
    pub fn new(stream: TcpStream) -> TcpLink
        ensures { result ≡ record { stream = stream; read_faults = 0; write_faults = 0 } }
    {
        TcpLink {
            stream,
            read_faults: 0,
            write_faults: 0,
        }
    }
}

impl Source for TcpLink {
    ghost left = { λ _. None };

    ghost faults = { λ link. link.read_faults };

    ghost rest = { λ link. Some (record { bytes = None; faults = link.write_faults }) };

    /// Reads once. Each error is a fault, also that of a read which waited too long.
    fn read(&mut self, buf: &mut [u8]) -> Result<usize, Failed>
        requires { 0 < length buf.old }
        ensures bound { ReadsAtMost result buf.new }
        ensures bytes { Takes None None result buf.new }
        ensures cause { HasCause self.old.read_faults self.new.read_faults result }
        ensures count { CountsFaults self.old.read_faults self.new.read_faults result }
        ensures writes { self.new.write_faults ≡ self.old.write_faults }
    {
        read_counted(&mut self.stream, &mut self.read_faults, buf)
    }
}

impl Sink for TcpLink {
    ghost written = { λ _. None };

    ghost faults = { λ link. link.write_faults };

    ghost rest = { λ link. Some (record { bytes = None; faults = link.read_faults }) };

    /// Writes piece after piece until all bytes are taken. Each error is a fault, also that of a
    /// write which waited too long, and so is a write that takes nothing.
    fn write_all(&mut self, bytes: &[u8]) -> Result<(), Failed>
        ensures bytes { Appends None None result bytes.now }
        ensures cause { HasCause self.old.write_faults self.new.write_faults result }
        ensures count { CountsFaults self.old.write_faults self.new.write_faults result }
        ensures reads { self.new.read_faults ≡ self.old.read_faults }
    {
        write_counted(&mut self.stream, &mut self.write_faults, bytes)
    }
}

impl Link for TcpLink {
    ghost sink_is_rest = { λ _. refl };

    ghost source_is_rest = { λ _. refl };
}

/// An acceptor over a listener, which others may share.
#[derive(Drop)]
pub struct TcpAcceptor {
    listener: Arc<TcpListener>,
    patience: Option<Duration>,
    accepted: u64,
    faults: u64,
}

impl TcpAcceptor {
    /// An acceptor over the listener. A read or a write of its lines that waits longer than
    /// `patience` is a fault; with `None` each may wait for ever.
    pub fn new(listener: Arc<TcpListener>, patience: Option<Duration>) -> TcpAcceptor
        ensures { result ≡ record { listener = listener; patience = patience; accepted = 0; faults = 0 } }
    {
        TcpAcceptor {
            listener,
            patience,
            accepted: 0,
            faults: 0,
        }
    }

    // The next connection.
    fn connection(&self) -> io::Result<TcpStream> {
        let (stream, _) = self.listener.accept()?;
        stream.set_read_timeout(self.patience)?;
        stream.set_write_timeout(self.patience)?;
        Ok(stream)
    }
}

impl Acceptor for TcpAcceptor {
    type Line = TcpLink;

    ghost faults = { λ a. a.faults };

    ghost accepted = { λ a. a.accepted };

    /// Waits for the next connection. Each error is a fault. It accepts no more where the count of
    /// lines is `u64::MAX`, and a call is then a fault.
    fn accept(&mut self) -> Result<TcpLink, Failed>
        ensures cause { HasCause self.old.faults self.new.faults result }
        ensures count { CountsLines self.old.accepted self.new.accepted result }
        ensures fault_count { CountsFaults self.old.faults self.new.faults result }
    {
        if self.accepted < u64::MAX {
            if let Ok(stream) = self.connection() {
                self.accepted += 1;
                return Ok(TcpLink::new(stream));
            }
        }
        self.faults = self.faults.saturating_add(1);
        Err(Failed)
    }
}
