//! What the program reads from and writes to, as traits that count their faults.
#![tactic(auto)]

ghost use Rattle.std.specs.Prelude.{◌≡◌, ℕ, ◌<◌, List, Option, Some, None, length};
ghost use Rattle.std.specs.Io.{ReadsAtMost};
ghost use Rattle.mt_io.specs.Counts.{CountsLines};
ghost use Rattle.mt_io.specs.Faults.{HasCause};
ghost use Rattle.mt_io.specs.Streams.{Side, Takes, Appends};

mod adapters;
mod counted;
mod links;
mod memory;
mod pieces;
mod steady;
mod tcp;

pub use adapters::{StdSink, StdSource};
pub use links::{MemoryAcceptor, MemoryLink};
pub use memory::{MemorySink, MemorySource};
pub use steady::{SteadySink, SteadySource};
pub use tcp::{TcpAcceptor, TcpLink};
use thiserror::Error;

/// How many seconds a read or a write of a [`TcpLink`] may wait, where a program has no number of its own.
pub const PATIENCE_SECONDS: u64 = 30;

/// A read or a write failed.
#[derive(Clone, Copy, PartialEq, Eq, Debug, Error)]
#[error("a read or a write failed")]
pub struct Failed;

/// A stream of bytes to read. `left` is the bytes that are left, where the object tells them;
/// `faults` counts its failures.
pub trait Source {
    ghost left: { Self → Option (List ℕ) };

    ghost faults: { Self → ℕ };

    /// The other side, of a source that is a [`Link`]. Any other has none.
    ghost rest: { Self → Option Side } = { λ _. None };

    /// Takes bytes from the beginning of those left, puts them at the beginning of `buf`, and answers how
    /// many they are: 0 exactly where none is left.
    fn read(&mut self, buf: &mut [u8]) -> Result<usize, Failed>
        requires { 0 < length buf.old }
        ensures bound { ReadsAtMost result buf.new }
        ensures bytes { Takes (left self.old) (left self.new) result buf.new }
        ensures cause { HasCause (faults self.old) (faults self.new) result }
        ensures rest { rest self.new ≡ rest self.old };
}

/// A stream of bytes to write. `written` is the bytes written so far, where the object tells them;
/// `faults` counts its failures.
pub trait Sink {
    ghost written: { Self → Option (List ℕ) };

    ghost faults: { Self → ℕ };

    /// The other side, of a sink that is a [`Link`]. Any other has none.
    ghost rest: { Self → Option Side } = { λ _. None };

    /// Appends all bytes. After `Failed` a prefix of them was appended.
    fn write_all(&mut self, bytes: &[u8]) -> Result<(), Failed>
        ensures bytes { Appends (written self.old) (written self.new) result bytes.now }
        ensures cause { HasCause (faults self.old) (faults self.new) result }
        ensures rest { rest self.new ≡ rest self.old };
}

/// A source and a sink in one, as a connection is. Each of them is the other's rest, so a read
/// leaves what was written and the count of failed writes as they are, and a write leaves what is
/// left to read and the count of failed reads.
pub trait Link: Source + Sink {
    ghost sink_is_rest: { (link : Self) → Self.Source.rest link
        ≡ Some (record { bytes = Self.written link; faults = Self.Sink.faults link }) };

    ghost source_is_rest: { (link : Self) → Self.Sink.rest link
        ≡ Some (record { bytes = Self.left link; faults = Self.Source.faults link }) };
}

/// What gives one line after another, each a link to somebody who asked for it. `faults` counts
/// its failures, and `accepted` the lines.
pub trait Acceptor {
    type Line: Link + Drop;

    ghost faults: { Self → ℕ };

    ghost accepted: { Self → ℕ };

    /// The next line.
    fn accept(&mut self) -> Result<Self::Line, Failed>
        ensures cause { HasCause (faults self.old) (faults self.new) result }
        ensures count { CountsLines (accepted self.old) (accepted self.new) result };
}

#[cfg(test)]
mod tests;
