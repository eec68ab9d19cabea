//! Rows of digits, and blank lines.
ghost use Rattle.std.specs.Prelude.{◌≡◌, ℕ, ◌+◌, ◌<◌, ◌≤◌, [], ◌∷◌, ◌++◌, length, IsTrue, ◌↔◌, OnOk, All};
ghost use Rattle.mt_import.specs.Lines.{digit_zero, is_blank, without_blanks};
ghost use Rattle.mt_import.specs.Texts.{IsRow, IsBlankLine, digits_of};

use crate::lines::is_blank;
use std::alloc::AllocError;

/// Whether the line is a row of `m` digits below `q`, with blanks anywhere.
pub fn is_row(line: &[u8], q: u8, m: usize) -> bool
    requires { q ≤ 9 }
    ensures { IsTrue result ↔ IsRow q m line.now }
{
    count_marks(line) == m && are_digits(line, q)
}

// How many bytes are no blanks.
fn count_marks(line: &[u8]) -> usize
    ensures { result ≡ length (without_blanks line.now) }
{
    line.iter().filter(|byte| !is_blank(**byte)).count()
}

// Whether all bytes but blanks are digits below `q`.
fn are_digits(line: &[u8], q: u8) -> bool
    requires { q ≤ 9 }
    ensures { IsTrue result ↔ All (λ b. (digit_zero ≤ b) × (b < digit_zero + q)) (without_blanks line.now) }
{
    for byte in line {
        if !is_blank(*byte) && !is_digit(*byte, q) {
            return false;
        }
    }
    true
}

fn is_digit(byte: u8, q: u8) -> bool
    requires { q ≤ 9 }
    ensures { IsTrue result ↔ ((digit_zero ≤ byte) × (byte < digit_zero + q)) }
{
    (b'0'..b'0' + q).contains(&byte)
}

/// Adds the digits of a row.
pub fn push_digits(line: &[u8], digits: &mut Vec<u8>) -> Result<(), AllocError>
    requires row { All (λ b. digit_zero ≤ b) (without_blanks line.now) }
    ensures added { OnOk result (digits.new.items ≡ digits.old.items ++ digits_of line.now) }
{
    for byte in line {
        if !is_blank(*byte) {
            digits.push(*byte - b'0')?;
        }
    }
    Ok(())
}

/// Whether the line has only blanks.
pub fn is_blank_line(line: &[u8]) -> bool
    ensures { IsTrue result ↔ IsBlankLine line.now }
{
    count_marks(line) == 0
}
