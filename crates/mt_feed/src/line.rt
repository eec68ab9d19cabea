//! The line of a change, formed in place.
ghost use Rattle.std.specs.Prelude.{◌≡◌, ◌+◌, ◌≤◌, ◌++◌, ◌∷◌, decimal};
ghost use Rattle.arrayvec.specs.ArrayString.{array_string_len};
ghost use Rattle.mt_cells.specs.Texts.{cell_text};
ghost use Rattle.mt_feed.specs.Lines.{change_line};

use crate::Change;
use arrayvec::ArrayString;
use itoa::Buffer;
use mt_cells::Cell;

// The most bytes of a line, at ten digits for each of its six numbers.
const MOST_BYTES: usize = 72;

/// A text with room for any line.
pub(crate) type Line = ArrayString<MOST_BYTES>;

/// The line of the change.
pub(crate) fn line_of(change: &Change) -> Line
    ensures { result.bytes ≡ change_line change.now }
{
    let mut line = Line::new();
    push_number(&mut line, change.version);
    line.push_str(" ");
    push_cell(&mut line, change.cell);
    line.push_str(" k ");
    push_number(&mut line, change.k as u32);
    line.push_str("\n");
    line
}

// Appends the text of the cell.
fn push_cell(line: &mut Line, cell: Cell)
    requires { array_string_len line.old ≤ 11 }
    ensures text { line.new.bytes ≡ line.old.bytes ++ cell_text cell }
    ensures short { array_string_len line.new ≤ array_string_len line.old + 47 }
{
    match cell {
        Cell::Ooa { order, m, s, depth } => {
            line.push_str("ooa");
            push_word(line, order.number());
            push_word(line, m);
            push_word(line, s);
            push_word(line, depth);
        }
        Cell::Seq { order, m, s } => {
            line.push_str("seq");
            push_word(line, order.number());
            push_word(line, m);
            push_word(line, s);
        }
    }
}

// Appends a space and the number.
fn push_word(line: &mut Line, number: u8)
    requires { array_string_len line.old + 11 ≤ 72 }
    ensures text { line.new.bytes ≡ line.old.bytes ++ 32 ∷ decimal number }
    ensures short { array_string_len line.new ≤ array_string_len line.old + 11 }
{
    line.push_str(" ");
    push_number(line, number as u32);
}

// Appends the number in decimal.
fn push_number(line: &mut Line, number: u32)
    requires { array_string_len line.old + 10 ≤ 72 }
    ensures text { line.new.bytes ≡ line.old.bytes ++ decimal number }
    ensures short { array_string_len line.new ≤ array_string_len line.old + 10 }
{
    let mut buffer = Buffer::new();
    line.push_str(buffer.format(number));
}
