//! The check of an import text.
ghost use Rattle.std.specs.Prelude.{IfOk, MatchResult};
ghost use Rattle.mt_strength.specs.Statements.{Holds};
ghost use Rattle.mt_service.specs.Gate.{Reads};
ghost use Rattle.mt_service.specs.Checks.{IsRefused};

use crate::gate::read_claim;
use crate::outcomes::Outcome;
use mt_cells::Bounds;
use mt_strength::{Checked, Tested};
use std::alloc::{AllocError, Global};

/// Checks the claim of an import text, which [`read_claim`] reads within the bounds: it holds, or
/// the text is refused, for the first dependent choice where the claim was read.
pub fn check_text(
    alloc: Global,
    bounds: Bounds,
    text: &[u8],
) -> Result<Result<Checked, Outcome>, AllocError>
    ensures { IfOk result (λ found. MatchResult found
        (λ claim. Reads bounds text.now claim × Holds claim) (IsRefused bounds text.now)) }
{
    let claim = match read_claim(alloc, bounds, text)? {
        Ok(claim) => claim,
        Err(outcome) => return Ok(Err(outcome)),
    };
    let form = claim.form;
    match Checked::of(alloc, claim)? {
        Tested::Good(checked) => Ok(Ok(checked)),
        Tested::Dependent {
            part,
            choice,
            coefficients,
        } => Ok(Err(Outcome::Dependent {
            form,
            part,
            choice,
            coefficients,
        })),
    }
}
