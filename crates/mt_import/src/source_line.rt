//! The source line.
ghost use Rattle.std.specs.Prelude.{◌≡◌, slice_index};
ghost use Rattle.mt_import.specs.Lines.{is_blank};
ghost use Rattle.mt_import.specs.SourceAnswers.{IsSourceAnswer};

use crate::lines::{from_word, is_blank, trimmed};
use mt_system::Note;

/// What a line is where the source line may stand.
pub enum SourceLine {
    /// It does not begin as a source line.
    Absent,
    /// It begins as a source line and is none.
    Refused,
    /// A source line with this note.
    Found(Note),
}

/// What this line is.
pub fn read_source_line(line: &[u8]) -> SourceLine
    ensures { IsSourceAnswer line.now result }
{
    let Some(rest) = from_word(line).strip_prefix(b"source") else {
        return SourceLine::Absent;
    };
    if !starts_blank(rest) {
        return SourceLine::Refused;
    }
    let note = trimmed(rest);
    if note.is_empty() {
        return SourceLine::Refused;
    }
    match Note::of(note) {
        Some(note) => SourceLine::Found(note),
        None => SourceLine::Refused,
    }
}

// Whether the first byte is a blank.
fn starts_blank(line: &[u8]) -> bool
    ensures { result ≡ is_blank (slice_index line.now 0) }
{
    match line {
        [] => false,
        [first, ..] => is_blank(*first),
    }
}
