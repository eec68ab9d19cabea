//! Links in memory, and an acceptor that gives them.
ghost use Rattle.std.specs.Prelude.{◌≡◌, ◌<◌, ◌≤◌, ◌+◌, ◌^◌, Some, refl, length};
ghost use Rattle.std.specs.Io.{ReadsAtMost};
ghost use Rattle.std.specs.Vec.Iter.{into_iter_items, into_iter_len};
ghost use Rattle.mt_io.specs.Counts.{CountsLines};
ghost use Rattle.mt_io.specs.Faults.{HasCause};
ghost use Rattle.mt_io.specs.Lines.{MemoryAcceptorState, IsMemoryAccept};
ghost use Rattle.mt_io.specs.Memory.{IsMemoryRead, IsMemoryWrite};
ghost use Rattle.mt_io.specs.Streams.{Takes, Appends};

use crate::{Acceptor, Failed, Link, MemorySink, MemorySource, Sink, Source};
use std::alloc::Global;
use std::marker::Model;
use std::vec::IntoIter;

/// A source and a sink in memory, which fail as each of them does.
#[derive(Debug, Drop)]
pub struct MemoryLink {
    source: MemorySource,
    sink: MemorySink,
}

impl MemoryLink {
    /// A link of these two.
    pub fn new(source: MemorySource, sink: MemorySink) -> MemoryLink
        ensures { result ≡ record { source = source; sink = sink } }
    {
        MemoryLink { source, sink }
    }

    /// The bytes written so far.
    pub fn bytes(&self) -> &[u8]
        ensures { result.now ≡ self.now.sink.written }
    {
        self.sink.bytes()
    }
}

impl Source for MemoryLink {
    ghost left = { λ link. Some link.source.left };

    ghost faults = { λ link. link.source.faults };

    ghost rest = { λ link. Some (record { bytes = Some link.sink.written; faults = link.sink.faults }) };

    /// Reads as the source does.
    fn read(&mut self, buf: &mut [u8]) -> Result<usize, Failed>
        requires { 0 < length buf.old }
        ensures bound { ReadsAtMost result buf.new }
        ensures bytes { Takes (Some self.old.source.left) (Some self.new.source.left) result buf.new }
        ensures cause { HasCause self.old.source.faults self.new.source.faults result }
        ensures exact { IsMemoryRead self.old.source self.new.source result buf.old buf.new }
        ensures sink { self.new.sink ≡ self.old.sink }
    {
        self.source.read(buf)
    }
}

impl Sink for MemoryLink {
    ghost written = { λ link. Some link.sink.written };

    ghost faults = { λ link. link.sink.faults };

    ghost rest = { λ link. Some (record { bytes = Some link.source.left; faults = link.source.faults }) };

    /// Writes as the sink does.
    fn write_all(&mut self, bytes: &[u8]) -> Result<(), Failed>
        ensures bytes { Appends (Some self.old.sink.written) (Some self.new.sink.written) result bytes.now }
        ensures cause { HasCause self.old.sink.faults self.new.sink.faults result }
        ensures exact { IsMemoryWrite self.old.sink self.new.sink result bytes.now }
        ensures source { self.new.source ≡ self.old.source }
    {
        self.sink.write_all(bytes)
    }
}

impl Link for MemoryLink {
    ghost sink_is_rest = { λ _. refl };

    ghost source_is_rest = { λ _. refl };
}

/// An acceptor that gives links in memory, in their order, and fails where none is left.
#[derive(Drop)]
pub struct MemoryAcceptor {
    links: IntoIter<MemoryLink, Global>,
    accepted: u64,
    faults: u64,
}

impl Model for MemoryAcceptor {
    ghost Value = { MemoryAcceptorState };

    ghost view = { λ a. record { links = into_iter_items a.links; accepted = a.accepted; faults = a.faults } };

    ghost invariant = { λ a. a.accepted + into_iter_len a.links < 2 ^ 64 };
}

impl MemoryAcceptor {
    /// An acceptor of these links.
    pub fn new(links: Vec<MemoryLink>) -> MemoryAcceptor
        ensures { result ≡ record { links = links.items; accepted = 0; faults = 0 } }
    {
        MemoryAcceptor {
            links: links.into_iter(),
            accepted: 0,
            faults: 0,
        }
    }
}

impl Acceptor for MemoryAcceptor {
    type Line = MemoryLink;

    ghost faults = { λ a. a.faults };

    ghost accepted = { λ a. a.accepted };

    /// The next link.
    fn accept(&mut self) -> Result<MemoryLink, Failed>
        ensures cause { HasCause self.old.faults self.new.faults result }
        ensures count { CountsLines self.old.accepted self.new.accepted result }
        ensures exact { IsMemoryAccept self.old self.new result }
    {
        match self.links.next() {
            Some(link) => {
                self.accepted += 1;
                Ok(link)
            }
            None => {
                self.faults = self.faults.saturating_add(1);
                Err(Failed)
            }
        }
    }
}
