//! Greatest common divisors, by Euclid's algorithm.
ghost use Rattle.std.specs.Prelude.{◌≡◌, ◌≢◌, ℕ, [], ◌+◌, ◌<◌, length, IfOk};
ghost use Rattle.mt_poly.specs.Polynomials.{IsGreatest};

use crate::arithmetic::{combined, mul};
use crate::division::{DivRem, div_rem};
use crate::{Gcd, Poly};
use std::alloc::{AllocError, Global};

/// The monic greatest common divisor of two polynomials of one order, not both zero, with the
/// factors that give it. It calls itself at most once for each coefficient of `b`.
pub fn gcd(alloc: Global, a: &Poly, b: &Poly) -> Result<Gcd, AllocError>
    requires orders { a.now.order ≡ b.now.order }
    requires not_zero { 0 < length a.now.coefficients + length b.now.coefficients }
    ensures divisor_order { IfOk result (λ g. g.divisor.order ≡ a.now.order) }
    ensures left_order { IfOk result (λ g. g.left.order ≡ a.now.order) }
    ensures right_order { IfOk result (λ g. g.right.order ≡ a.now.order) }
    ensures greatest { IfOk result (λ g. IsGreatest a.now.order a.now.coefficients
        b.now.coefficients g.left.coefficients g.right.coefficients g.divisor.coefficients) }
{
    if b.coefficients().is_empty() {
        return made_monic(alloc, a, b);
    }
    let division = div_rem(alloc, a, b)?;
    let DivRem {
        quotient,
        remainder,
    } = division;
    let lower = gcd(alloc, b, &remainder)?;
    let Gcd {
        divisor,
        left,
        right,
    } = lower;
    let product = mul(alloc, &right, &quotient)?;
    let minus_one = a.order().neg(1);
    let factor = combined(alloc, &left, minus_one, &product)?;
    Ok(Gcd {
        divisor,
        left: right,
        right: factor,
    })
}

// The divisor of `a` and zero: `a` divided by its last coefficient.
fn made_monic(alloc: Global, a: &Poly, b: &Poly) -> Result<Gcd, AllocError>
    requires not_zero { 0 < length a.now.coefficients }
    requires zero { b.now.coefficients ≡ [] }
    ensures divisor_order { IfOk result (λ g. g.divisor.order ≡ a.now.order) }
    ensures left_order { IfOk result (λ g. g.left.order ≡ a.now.order) }
    ensures right_order { IfOk result (λ g. g.right.order ≡ a.now.order) }
    ensures greatest { IfOk result (λ g. IsGreatest a.now.order a.now.coefficients
        b.now.coefficients g.left.coefficients g.right.coefficients g.divisor.coefficients) }
{
    let order = a.order();
    let list = a.coefficients();
    let scale = order.inv(list[list.len() - 1]);
    let zero = Poly::trimmed(order, Vec::new(alloc));
    let divisor = combined(alloc, &zero, scale, a)?;
    let left = Poly::trimmed(order, vec![in alloc; scale]?);
    Ok(Gcd {
        divisor,
        left,
        right: zero,
    })
}
