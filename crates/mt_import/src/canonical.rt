//! The canonical text of a claim.
ghost use Rattle.std.specs.Prelude.{◌≡◌, ℕ, ◌+◌, ◌*◌, ◌<◌, ◌≤◌, ◌∷◌, ◌++◌, length, map, flat_map, decimal, All, IfOk, OnOk};
ghost use Rattle.mt_system.specs.Statements.{statement_of};
ghost use Rattle.mt_system.specs.Notes.{IsNote};
ghost use Rattle.mt_import.specs.declared.import_text.TheConstants.{MOST_BYTES};
ghost use Rattle.mt_import.specs.Lines.{space, digit_zero};
ghost use Rattle.mt_import.specs.Headers.{numbers_by};
ghost use Rattle.mt_import.specs.Canonical.{header_of, source_text, rows_text, canonical_text, IsTextOf};

use mt_system::{Claim, Form, Note};
use std::alloc::{AllocError, Global};

/// The canonical text of the claim.
pub fn print_import(alloc: Global, claim: &Claim) -> Result<Vec<u8>, AllocError>
    ensures text { IfOk result (λ t. t.items ≡ canonical_text (statement_of claim.now)) }
    ensures reads { IfOk result (λ t. length t.items ≤ MOST_BYTES
        → IsTextOf t.items (statement_of claim.now)) }
{
    let mut text = format!(in alloc; "{}", claim.form)?.into_bytes();
    push_sizes(alloc, &mut text, claim)?;
    text.push(b' ')?;
    text.extend_from_slice(claim.name.bytes())?;
    text.push(b'\n')?;
    push_source(&mut text, &claim.note)?;
    push_rows(&mut text, claim.system.digits(), claim.system.m())?;
    Ok(text)
}

// Adds the numbers of the header, with a space before each.
fn push_sizes(alloc: Global, text: &mut Vec<u8>, claim: &Claim) -> Result<(), AllocError>
    ensures { OnOk result (text.new.items ≡ text.old.items
        ++ flat_map (λ n. space ∷ decimal n) (numbers_by claim.now.form (header_of (statement_of claim.now)))) }
{
    let system = &claim.system;
    let (q, m, s) = (system.order().number(), system.m(), system.s());
    match claim.form {
        Form::Ooa => push_numbers(alloc, text, &[q, m, s, system.depth(), claim.k]),
        Form::Net | Form::Seq => push_numbers(alloc, text, &[q, m, s, m - claim.k]),
    }
}

// Adds the numbers in decimal, with a space before each.
fn push_numbers(alloc: Global, text: &mut Vec<u8>, numbers: &[u8]) -> Result<(), AllocError>
    ensures { OnOk result (text.new.items ≡ text.old.items
        ++ flat_map (λ n. space ∷ decimal n) numbers.now) }
{
    for number in numbers {
        text.push(b' ')?;
        push_number(alloc, text, *number)?;
    }
    Ok(())
}

// Adds the number in decimal.
fn push_number(alloc: Global, text: &mut Vec<u8>, number: u8) -> Result<(), AllocError>
    ensures { OnOk result (text.new.items ≡ text.old.items ++ decimal number) }
{
    let digits = format!(in alloc; "{number}")?;
    text.extend_from_slice(digits.as_bytes())?;
    Ok(())
}

// Adds the source line of this note, where it says anything.
fn push_source(text: &mut Vec<u8>, note: &Note) -> Result<(), AllocError>
    ensures added { OnOk result (text.new.items ≡ text.old.items ++ source_text note.now) }
    ensures form { IsNote note.now }
{
    let note = note.bytes();
    if note.is_empty() {
        return Ok(());
    }
    text.extend_from_slice(b"source ")?;
    text.extend_from_slice(note)?;
    text.push(b'\n')?;
    Ok(())
}

// Adds these digits as rows of `m`, with a line feed behind each.
fn push_rows(text: &mut Vec<u8>, digits: &[u8], m: u8) -> Result<(), AllocError>
    requires columns { 0 < m }
    requires small { All (λ d. d < 10) digits.now }
    ensures { OnOk result ((n : ℕ) → length digits.now ≡ n * m
        → text.new.items ≡ text.old.items ++ rows_text m n digits.now) }
{
    for row in digits.chunks(m as usize) {
        push_row(text, row)?;
        text.push(b'\n')?;
    }
    Ok(())
}

// Adds the digits as characters.
fn push_row(text: &mut Vec<u8>, row: &[u8]) -> Result<(), AllocError>
    requires { All (λ d. d < 10) row.now }
    ensures { OnOk result (text.new.items ≡ text.old.items ++ map (λ d. digit_zero + d) row.now) }
{
    for digit in row {
        text.push(b'0' + *digit)?;
    }
    Ok(())
}
