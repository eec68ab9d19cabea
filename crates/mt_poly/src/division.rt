//! Division with remainder.
ghost use Rattle.std.specs.Prelude.{◌≡◌, ◌≢◌, ℕ, ◌-◌, ◌<◌, length, slice_index, IfOk};
ghost use Rattle.mt_linear.specs.Linear.{AllElements};
ghost use Rattle.mt_poly.specs.Polynomials.{IsDivision};

use crate::Poly;
use crate::lists::add_multiple;
use mt_linear::Order;
use std::alloc::{AllocError, Global};

/// A quotient and the remainder, which is shorter than the divisor.
#[derive(Debug, Drop)]
pub struct DivRem {
    pub quotient: Poly,
    pub remainder: Poly,
}

/// Divides `a` by `b`, which is not zero and of the same order: `a` is `b` times the quotient, and
/// the remainder.
pub fn div_rem(alloc: Global, a: &Poly, b: &Poly) -> Result<DivRem, AllocError>
    requires orders { a.now.order ≡ b.now.order }
    requires not_zero { 0 < length b.now.coefficients }
    ensures quotient_order { IfOk result (λ r. r.quotient.order ≡ a.now.order) }
    ensures remainder_order { IfOk result (λ r. r.remainder.order ≡ a.now.order) }
    ensures division { IfOk result (λ r. IsDivision a.now.order a.now.coefficients
        b.now.coefficients r.quotient.coefficients r.remainder.coefficients) }
{
    let order = a.order();
    let divided = divide(alloc, order, a.coefficients(), b.coefficients())?;
    let Divided { quotient, rest } = divided;
    Ok(DivRem {
        quotient: Poly::trimmed(order, quotient),
        remainder: Poly::trimmed(order, rest),
    })
}

// A quotient and a rest, with zeros at their ends.
#[derive(Debug, Drop)]
struct Divided {
    quotient: Vec<u8>,
    rest: Vec<u8>,
}

// Takes the coefficients of `a` from the last one on: what is left of those so far, times x and
// with one more, is reduced by a multiple of `b`.
fn divide(alloc: Global, order: Order, a: &[u8], b: &[u8]) -> Result<Divided, AllocError>
    requires left { AllElements order a.now }
    requires right { AllElements order b.now }
    requires not_zero { 0 < length b.now }
    requires lead { slice_index b.now (length b.now - 1) ≢ 0 }
    ensures division { IfOk result (λ r. IsDivision order a.now b.now r.quotient.items
        r.rest.items) }
    ensures quotient_in { IfOk result (λ r. AllElements order r.quotient.items) }
    ensures rest_in { IfOk result (λ r. AllElements order r.rest.items) }
{
    let degree = b.len() - 1;
    let scale = order.inv(b[degree]);
    let mut quotient = vec![in alloc; 0u8; a.len()]?;
    let mut rest = vec![in alloc; 0u8; degree]?;
    let mut i = a.len();
    while i > 0 {
        i -= 1;
        rest.insert(0, a[i])?;
        let factor = order.mul(rest[degree], scale);
        add_multiple(order, &mut rest, order.neg(factor), b);
        rest.truncate(degree);
        quotient[i] = factor;
    }
    Ok(Divided { quotient, rest })
}
