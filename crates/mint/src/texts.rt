//! The texts that the program writes.
ghost use Rattle.std.specs.Prelude.{◌≡◌, IfOk};
ghost use Rattle.mint.specs.Texts.{holds_text};

use std::alloc::{AllocError, Global};

pub const USAGE: &[u8] = b"usage: mint STORE FEED M,S COMMAND\n";

/// The line for a claim of this name that holds.
pub fn holds_line(alloc: Global, name: &[u8]) -> Result<Vec<u8>, AllocError>
    ensures { IfOk result (λ text. text.items ≡ holds_text name.now) }
{
    let mut text = Vec::from_slice(alloc, b"holds ")?;
    text.extend_from_slice(name)?;
    text.push(b'\n')?;
    Ok(text)
}
