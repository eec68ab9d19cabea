//! Laws of the grammar.
ghost use Rattle.std.specs.Prelude.{ℕ, List};
ghost use Rattle.mt_import.specs.Laws.{HasOneImport, IsNotBoth, HasOneRefusal};
ghost use Rattle.mt_import.specs.EventLaws.{HasOneWithdrawal, HasOneKind, IsNotRefusedEvent, HasOneEventRefusal, IsNoImport, IsWithdrawalOrRefused, IsImportEvent, IsImportRefusal};

/// A text has at most one reading: one header with one note and one list of digits, or one cause for
/// which it is refused, and not both.
pub fn one_reading()
    ensures import { (text : List ℕ) → HasOneImport text }
    ensures either { (text : List ℕ) → IsNotBoth text }
    ensures refusal { (text : List ℕ) → HasOneRefusal text }
{}

/// A text has at most one reading as an event: it is an import text, or a withdrawal text with one
/// name, or refused for one cause, and no two of these.
pub fn one_event()
    ensures withdrawal { (text : List ℕ) → HasOneWithdrawal text }
    ensures kind { (text : List ℕ) → HasOneKind text }
    ensures either { (text : List ℕ) → IsNotRefusedEvent text }
    ensures refusal { (text : List ℕ) → HasOneEventRefusal text }
{}

/// The first word decides: where it is `withdraw` a text is read as a withdrawal text, and else as an
/// import text.
pub fn first_word()
    ensures no_import { (text : List ℕ) → IsNoImport text }
    ensures withdrawal { (text : List ℕ) → IsWithdrawalOrRefused text }
    ensures import { (text : List ℕ) → IsImportEvent text }
    ensures refusal { (text : List ℕ) → IsImportRefusal text }
{}
