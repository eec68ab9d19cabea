//! Withdrawal texts, and the canonical one of a name.
ghost use Rattle.std.specs.Prelude.{◌≡◌, ℕ, List, IfOk, IfSome, Some, MatchOption};
ghost use Rattle.mt_import.specs.Withdrawals.{IsWithdrawLine, IsWithdrawal, withdraw_text};
ghost use Rattle.mt_import.specs.WithdrawalAnswers.{IsWithdrawAnswer};

use crate::import_text::{MOST_BYTES, read_end};
use crate::lines::{split_line, split_word};
use crate::refusals::FormRefused;
use mt_system::Name;
use std::alloc::{AllocError, Global};

/// The name that the text withdraws. `None` where it is no withdrawal text.
pub fn withdraws(bytes: &[u8]) -> Option<Name>
    ensures found { IfSome result (IsWithdrawal bytes.now) }
    ensures only { (name : List ℕ) → IsWithdrawal bytes.now name → result ≡ Some name }
{
    match read_withdrawal(bytes) {
        Ok(name) => name,
        Err(_) => None,
    }
}

/// The name that the text withdraws, or the first refused line. `None` where line 1 withdraws no
/// name, or where the text has more than [`MOST_BYTES`] bytes.
pub fn read_withdrawal(bytes: &[u8]) -> Result<Option<Name>, FormRefused>
    ensures { IsWithdrawAnswer bytes.now result }
{
    if bytes.len() > MOST_BYTES {
        return Ok(None);
    }
    let Some((line, rest)) = split_line(bytes) else {
        return Ok(None);
    };
    let Some(name) = read_line(line) else {
        return Ok(None);
    };
    read_end(rest, 2)?;
    Ok(Some(name))
}

// The name that this line withdraws.
fn read_line(line: &[u8]) -> Option<Name>
    ensures { MatchOption result ((name : List ℕ) → ¬ IsWithdrawLine line.now name)
        (λ name. IsWithdrawLine line.now name) }
{
    let (word, line) = split_word(line)?;
    if word != b"withdraw".as_slice() {
        return None;
    }
    let (word, line) = split_word(line)?;
    let name = Name::of(word)?;
    let None = split_word(line) else {
        return None;
    };
    Some(name)
}

/// The canonical text of the withdrawal of this name.
pub fn print_withdraw(alloc: Global, name: Name) -> Result<Vec<u8>, AllocError>
    ensures text { IfOk result (λ t. t.items ≡ withdraw_text name) }
    ensures reads { IfOk result (λ t. IsWithdrawal t.items name) }
{
    let mut text = Vec::from_slice(alloc, b"withdraw ")?;
    text.extend_from_slice(name.bytes())?;
    text.push(b'\n')?;
    Ok(text)
}
