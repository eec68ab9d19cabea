//! Why a text is refused.
ghost use Rattle.std.specs.Prelude.{◌≡◌};

use std::alloc::AllocError;
use std::fmt;
use thiserror::Error;

/// What the refused line should have been.
#[derive(Clone, Copy, PartialEq, Eq, Debug)]
pub enum Wanted {
    /// The header, on line 1.
    Header,
    /// A source line, on line 2.
    Source,
    /// A row.
    Row,
    /// A line of blanks, behind the rows or behind a line that withdraws a name.
    Blank,
}

impl fmt::Display for Wanted {
    fn fmt<W: fmt::Write>(&self, f: &mut fmt::Formatter<W>) -> fmt::Result {
        match self {
            Wanted::Header => write!(f, "no header"),
            Wanted::Source => write!(f, "no source"),
            Wanted::Row => write!(f, "no row"),
            Wanted::Blank => write!(f, "not blank"),
        }
    }
}

/// Why a text is no import text, or no event.
#[derive(Clone, Copy, PartialEq, Eq, Debug, Error)]
pub enum FormRefused {
    /// It has more than [`MOST_BYTES`](crate::MOST_BYTES) bytes.
    #[error("more than 65536 bytes")]
    TooLong,
    /// This line, counted from 1, is the first that is missing or is not what it should be.
    #[error("line {line} is {wanted}")]
    Line { line: u32, wanted: Wanted },
}

/// Why no claim, or no event, was read.
#[derive(Debug, Drop, Error)]
pub enum ImportRefused {
    /// The text is no import text, or no event.
    #[error("{0}")]
    Form(FormRefused),
    /// Want of memory.
    #[error("want of memory")]
    Memory,
}

impl From<FormRefused> for ImportRefused {
    ghost use Rattle.mt_import.specs.declared.refusals.ImportRefused.TheVariants.{Form};

    ghost from_gives = { λ e r. r ≡ Form e };

    fn from(refused: FormRefused) -> ImportRefused {
        ImportRefused::Form(refused)
    }
}

impl From<AllocError> for ImportRefused {
    ghost use Rattle.mt_import.specs.declared.refusals.ImportRefused.TheVariants.{Memory};

    ghost from_gives = { λ _ r. r ≡ Memory };

    fn from(_: AllocError) -> ImportRefused {
        ImportRefused::Memory
    }
}
