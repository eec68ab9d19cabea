//! Reads and writes of std that count their faults.
ghost use Rattle.std.specs.Prelude.{◌≡◌, ◌<◌, length};
ghost use Rattle.std.specs.Io.{ReadsAtMost};
ghost use Rattle.std.specs.Io.KnownBytes.{ReadConsumes};
ghost use Rattle.mt_io.specs.Adapters.{AppendsAllOrPrefix};
ghost use Rattle.mt_io.specs.Counts.{CountsFaults};
ghost use Rattle.mt_io.specs.Faults.{HasCause};

use crate::Failed;
use std::io::{Read, Write};

// Reads once. Each error of the reader is a fault, also that of an interrupted call.
pub(crate) fn read_counted<R: Read>(
    reader: &mut R,
    faults: &mut u64,
    buf: &mut [u8],
) -> Result<usize, Failed>
    requires { 0 < length buf.old }
    ensures bound { ReadsAtMost result buf.new }
    ensures inner { ReadConsumes (R.remaining reader.old) (R.remaining reader.new) result buf.new }
    ensures count { CountsFaults faults.old faults.new result }
    ensures cause { HasCause faults.old faults.new result }
{
    match reader.read(buf) {
        Ok(count) => Ok(count),
        Err(_) => {
            *faults = faults.saturating_add(1);
            Err(Failed)
        }
    }
}

// Writes piece after piece until all bytes are taken. An error of the writer is a fault, also that
// of an interrupted call, and so is a write that takes nothing.
// No flush: std's standard output has no buffer, each write goes to the system, and its flush does
// nothing; nor has a socket one.
pub(crate) fn write_counted<W: Write>(
    writer: &mut W,
    faults: &mut u64,
    bytes: &[u8],
) -> Result<(), Failed>
    ensures inner { AppendsAllOrPrefix (W.contents writer.old) (W.contents writer.new) result bytes.now }
    ensures count { CountsFaults faults.old faults.new result }
    ensures cause { HasCause faults.old faults.new result }
{
    let mut at = 0;
    while at < bytes.len() {
        match writer.write(&bytes[at..]) {
            Ok(count) if count > 0 => at += count,
            _ => {
                *faults = faults.saturating_add(1);
                return Err(Failed);
            }
        }
    }
    Ok(())
}
