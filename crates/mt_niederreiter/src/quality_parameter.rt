//! The quality parameter.
ghost use Rattle.std.specs.Prelude.{IfOk};
ghost use Rattle.mt_niederreiter.specs.Matrices.{IsShownQuality, AreQualities};

use mt_linear::Order;
use mt_poly::coprime_list;
use std::alloc::{AllocError, Global};

/// The quality parameter t of the sequence of the first `s` polynomials of the coprime list: the
/// sum of their degrees less 1 (Niederreiter, 1988). It stops at the greatest u32.
pub fn quality(alloc: Global, order: Order, s: u8) -> Result<u32, AllocError>
    ensures { IfOk result (IsShownQuality order s) }
{
    let qualities = qualities(alloc, order, s)?;
    Ok(qualities.last().copied().unwrap_or(0))
}

/// The quality parameters of the sequences of the first 1, 2, .. and `most` polynomials, from one
/// walk through the coprime list. Each stops at the greatest u32.
pub fn qualities(alloc: Global, order: Order, most: u8) -> Result<Vec<u32>, AllocError>
    ensures { IfOk result (λ list. AreQualities order most list.items) }
{
    let list = coprime_list(alloc, order, most as u32)?;
    let mut qualities = Vec::with_capacity(alloc, list.len())?;
    let mut quality = 0u32;
    for poly in &list {
        let excess = poly.coefficients().len() - 2;
        let excess = if excess < u32::MAX as usize {
            excess as u32
        } else {
            u32::MAX
        };
        quality = quality.saturating_add(excess);
        qualities.push(quality)?;
    }
    Ok(qualities)
}
