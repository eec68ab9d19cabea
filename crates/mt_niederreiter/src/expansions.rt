//! Expansions in powers of 1/x.
ghost use Rattle.std.specs.Prelude.{◌≡◌, ℕ, ◌-◌, ◌<◌, ◌≤◌, length, slice_index, IfOk};
ghost use Rattle.mt_linear.specs.Field.{mul_of, number_of};
ghost use Rattle.mt_linear.specs.Linear.{AllElements};
ghost use Rattle.mt_poly.specs.Polynomials.{IsMonic, sum_to};
ghost use Rattle.mt_niederreiter.specs.Expansions.{Expands, monomial};

use mt_linear::Order;
use std::alloc::{AllocError, Global};

/// The expansion of x^u / D, for a monic D of degree above u: its first `least` terms or more, and
/// at least as many as the degree. Each term follows from those before it, since the product with
/// D is x^u.
pub fn expansion(
    alloc: Global,
    order: Order,
    divisor: &[u8],
    u: usize,
    least: usize,
) -> Result<Vec<u8>, AllocError>
    requires elements { AllElements order divisor.now }
    requires monic { IsMonic divisor.now (length divisor.now - 1) }
    requires numerator { u < length divisor.now - 1 }
    ensures terms { IfOk result (λ w. Expands order (monomial u) divisor.now
        (length divisor.now - 1) w.items) }
    ensures enough { IfOk result (λ w. least ≤ length w.items) }
{
    let degree = divisor.len() - 1;
    let first = degree - 1 - u;
    let count = if least < degree { degree } else { least };
    let mut terms = Vec::with_capacity(alloc, count)?;
    for l in 0..count {
        let known = if l < degree { l } else { degree };
        let sum = sum_of_products(
            order,
            &divisor[degree - known..degree],
            &terms[l - known..l],
        );
        terms.push(order.add((l == first) as u8, order.neg(sum)))?;
    }
    Ok(terms)
}

// The sum of the products of the elements of two lists of one length.
fn sum_of_products(order: Order, a: &[u8], b: &[u8]) -> u8
    requires lengths { length a.now ≡ length b.now }
    requires left { AllElements order a.now }
    requires right { AllElements order b.now }
    ensures value { result ≡ sum_to order (length a.now)
        (λ k. mul_of order (slice_index a.now k) (slice_index b.now k)) }
    ensures element { result < number_of order }
{
    let mut sum = 0;
    for k in 0..a.len() {
        sum = order.add(sum, order.mul(a[k], b[k]));
    }
    sum
}
