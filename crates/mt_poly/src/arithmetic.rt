//! Sums and products.
ghost use Rattle.std.specs.Prelude.{◌≡◌, ◌≢◌, ℕ, ◌+◌, ◌<◌, length, slice_index, IfOk};
ghost use Rattle.mt_linear.specs.Field.{add_of, mul_of, number_of};
ghost use Rattle.mt_poly.specs.Polynomials.{IsProduct, IsSum};

use crate::Poly;
use crate::lists::{product, with_multiple};
use std::alloc::{AllocError, Global};

/// The sum of two polynomials of one order.
pub fn add(alloc: Global, a: &Poly, b: &Poly) -> Result<Poly, AllocError>
    requires { a.now.order ≡ b.now.order }
    ensures order { IfOk result (λ r. r.order ≡ a.now.order) }
    ensures sum { IfOk result (λ r. IsSum a.now.order a.now.coefficients b.now.coefficients
        r.coefficients) }
{
    combined(alloc, a, 1, b)
}

/// The product of two polynomials of one order.
pub fn mul(alloc: Global, a: &Poly, b: &Poly) -> Result<Poly, AllocError>
    requires { a.now.order ≡ b.now.order }
    ensures order { IfOk result (λ r. r.order ≡ a.now.order) }
    ensures product { IfOk result (λ r. IsProduct a.now.order a.now.coefficients b.now.coefficients
        r.coefficients) }
{
    let order = a.order();
    let coefficients = product(alloc, order, a.coefficients(), b.coefficients())?;
    Ok(Poly::trimmed(order, coefficients))
}

/// `a`, and `factor` times `b`.
pub(crate) fn combined(alloc: Global, a: &Poly, factor: u8, b: &Poly) -> Result<Poly, AllocError>
    requires orders { a.now.order ≡ b.now.order }
    requires factor_in { factor < number_of a.now.order }
    ensures order { IfOk result (λ r. r.order ≡ a.now.order) }
    ensures sum { IfOk result (λ r. (i : ℕ) → slice_index r.coefficients i
        ≡ add_of a.now.order (slice_index a.now.coefficients i)
        (mul_of a.now.order factor (slice_index b.now.coefficients i))) }
{
    let order = a.order();
    let coefficients = with_multiple(alloc, order, a.coefficients(), factor, b.coefficients())?;
    Ok(Poly::trimmed(order, coefficients))
}
