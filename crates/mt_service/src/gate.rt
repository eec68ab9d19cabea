//! The claims that texts make within bounds.
ghost use Rattle.std.specs.Prelude.{◌≤◌, IfOk, MatchOption, MatchResult};
ghost use Rattle.mt_system.specs.Statements.{statement_of};
ghost use Rattle.mt_import.specs.Texts.{IsImport};
ghost use Rattle.mt_service.specs.Gate.{IsSizeOver, Reads, IsTooLarge, IsUnread};

use crate::outcomes::Outcome;
use mt_cells::{Bounds, Part};
use mt_import::{Header, ImportText};
use mt_strength::choices_of;
use mt_system::Claim;
use std::alloc::{AllocError, Global};

/// The most choices that a check tries.
pub const MOST_CHOICES: u64 = 4_000_000;

/// Reads the claim of an import text whose system may have `m_max` columns and `s_max` coordinates
/// of the bounds. The text is refused by its form, then by m, then by s, then by the number of
/// choices that a check may try.
pub fn read_claim(
    alloc: Global,
    bounds: Bounds,
    text: &[u8],
) -> Result<Result<Claim, Outcome>, AllocError>
    ensures { IfOk result (λ read. MatchResult read
        (λ claim. Reads bounds text.now (statement_of claim)) (IsUnread bounds text.now)) }
{
    match ImportText::of(text) {
        Ok(import) => claim_within(alloc, bounds, text, &import),
        Err(refused) => Ok(Err(Outcome::Form(refused))),
    }
}

/// The claim of the import text, or why it is too large.
pub(crate) fn claim_within(
    alloc: Global,
    bounds: Bounds,
    _text: &[u8],
    import: &ImportText,
) -> Result<Result<Claim, Outcome>, AllocError>
    requires { IsImport _text.now import.now.header import.now.note import.now.digits }
    ensures { IfOk result (λ read. MatchResult read
        (λ claim. Reads bounds _text.now (statement_of claim)) (IsTooLarge bounds _text.now)) }
{
    if let Some((name, number, limit)) = size_over(&import.header(), bounds) {
        return Ok(Err(Outcome::Range {
            name,
            number,
            limit,
        }));
    }
    let claim = import.claim(alloc)?;
    let count = choices_of(&claim);
    if count > MOST_CHOICES {
        return Ok(Err(Outcome::TooManyChoices { count }));
    }
    Ok(Ok(claim))
}

// The first size of the header that is over its limit, its number and the limit.
fn size_over(header: &Header, bounds: Bounds) -> Option<(Part, u8, u8)>
    ensures { MatchOption result ((header.now.m ≤ bounds.m_max) × (header.now.s ≤ bounds.s_max))
        (λ r. IsSizeOver bounds header.now r.0 r.1 r.2) }
{
    if header.m > bounds.m_max as u16 {
        return Some((Part::M, header.m.min(255) as u8, bounds.m_max));
    }
    if header.s > bounds.s_max as u16 {
        return Some((Part::S, header.s.min(255) as u8, bounds.s_max));
    }
    None
}
