//! The input of a command.
ghost use Rattle.std.specs.Prelude.{◌≡◌, ◌+◌, ◌<◌, ◌≤◌, length, take, drop, IfOk, OnErr, IsErrOf};
ghost use Rattle.mt_io.specs.Faults.{Rose, HasCause};
ghost use Rattle.mt_io.specs.Streams.{Takes};
ghost use Rattle.mint.specs.Input.{IsInput, TakesAtMost};

use mt_io::{Failed, Source};
use std::alloc::{AllocError, Global};

/// Why an input was not read.
#[derive(Clone, Copy, PartialEq, Eq, Debug)]
pub enum InputRefused {
    /// Want of memory, before the first read.
    Memory,
    /// A read failed.
    Fault,
}

impl From<AllocError> for InputRefused {
    ghost use Rattle.mint.specs.declared.input.InputRefused.TheVariants.{Memory};

    ghost from_gives = { λ _ r. r ≡ Memory };

    fn from(_: AllocError) -> InputRefused {
        InputRefused::Memory
    }
}

/// Reads the input to its end, or `most` bytes of it.
pub fn read_input<R: Source>(
    alloc: Global,
    input: &mut R,
    most: usize,
) -> Result<Vec<u8>, InputRefused>
    ensures text { IfOk result
        (λ text. IsInput most (R.left input.old) (R.left input.new) text.items) }
    ensures few { TakesAtMost most (R.left input.old) (R.left input.new) }
    ensures fault { IsErrOf result InputRefused.Fault
        → Rose (R.faults input.old) (R.faults input.new) }
{
    let mut buffer = vec![in alloc; 0u8; most]?;
    let filled = fill(input, &mut buffer).map_err(|_| InputRefused::Fault)?;
    buffer.truncate(filled);
    Ok(buffer)
}

// Reads the input to its end, or until the buffer is full, and answers how many bytes were read.
fn fill<R: Source>(input: &mut R, buffer: &mut [u8]) -> Result<usize, Failed>
    ensures within { IfOk result (λ n. n ≤ length buffer.new) }
    ensures text { IfOk result
        (λ n. IsInput (length buffer.new) (R.left input.old) (R.left input.new) (take n
        buffer.new)) }
    ensures few { TakesAtMost (length buffer.new) (R.left input.old) (R.left input.new) }
    ensures fault { OnErr result (Rose (R.faults input.old) (R.faults input.new)) }
{
    let mut filled = 0;
    while filled < buffer.len() {
        let count = read_behind(input, buffer, filled)?;
        if count == 0 {
            break;
        }
        filled += count;
    }
    Ok(filled)
}

// Reads once, into the buffer from this place on.
fn read_behind<R: Source>(input: &mut R, buffer: &mut [u8], from: usize) -> Result<usize, Failed>
    requires { from < length buffer.old }
    ensures within { IfOk result (λ n. from + n ≤ length buffer.new) }
    ensures prefix { take from buffer.new ≡ take from buffer.old }
    ensures bytes { Takes (R.left input.old) (R.left input.new) result (drop from buffer.new) }
    ensures cause { HasCause (R.faults input.old) (R.faults input.new) result }
{
    input.read(&mut buffer[from..])
}
