//! Whether two polynomials are coprime, by Euclid's algorithm in place.
ghost use Rattle.std.specs.Prelude.{◌≡◌, ◌<◌, ◌≤◌, ◌↔◌, length, IsTrue, IfOk};
ghost use Rattle.mt_poly.specs.Polynomials.{HaveSameDivisors, IsCoprime, IsPolynomial};

use crate::lists::{add_multiple_at, trimmed_length};
use mt_linear::Order;
use std::alloc::AllocError;

// Whether `a` and `b`, which is not zero, are coprime. The two lists that follow are room to work
// in, and keep nothing.
pub fn are_coprime(
    order: Order,
    a: &[u8],
    b: &[u8],
    dividend: &mut Vec<u8>,
    divisor: &mut Vec<u8>,
) -> Result<bool, AllocError>
    requires left { IsPolynomial order a.now }
    requires right { IsPolynomial order b.now }
    requires not_zero { 0 < length b.now }
    ensures answer { IfOk result (λ y. IsTrue y ↔ IsCoprime order a.now b.now) }
{
    dividend.clear();
    dividend.extend_from_slice(b)?;
    divisor.clear();
    divisor.extend_from_slice(a)?;
    Ok(coprime_in_place(order, dividend, divisor))
}

// The same for the two lists themselves. It calls itself at most once for each coefficient of the
// divisor.
fn coprime_in_place(order: Order, dividend: &mut Vec<u8>, divisor: &mut Vec<u8>) -> bool
    requires left { IsPolynomial order divisor.old.items }
    requires right { IsPolynomial order dividend.old.items }
    requires not_zero { 0 < length dividend.old.items }
    ensures answer { IsTrue result ↔ IsCoprime order divisor.old.items dividend.old.items }
{
    if divisor.is_empty() {
        return dividend.len() == 1;
    }
    if divisor.len() == 1 {
        return true;
    }
    reduce(order, dividend, divisor);
    coprime_in_place(order, divisor, dividend)
}

// Leaves the remainder of `rest` by the divisor.
fn reduce(order: Order, rest: &mut Vec<u8>, divisor: &[u8])
    requires polynomial { IsPolynomial order rest.old.items }
    requires divisor { IsPolynomial order divisor.now }
    requires not_zero { 0 < length divisor.now }
    ensures same { HaveSameDivisors order divisor.now rest.old.items rest.new.items }
    ensures polynomial { IsPolynomial order rest.new.items }
    ensures short { length rest.new.items < length divisor.now }
{
    while rest.len() >= divisor.len() {
        reduce_once(order, rest, divisor);
    }
}

// Takes the multiple of the divisor from `rest` that cancels its last coefficient.
fn reduce_once(order: Order, rest: &mut Vec<u8>, divisor: &[u8])
    requires polynomial { IsPolynomial order rest.old.items }
    requires divisor { IsPolynomial order divisor.now }
    requires not_zero { 0 < length divisor.now }
    requires long { length divisor.now ≤ length rest.old.items }
    ensures same { HaveSameDivisors order divisor.now rest.old.items rest.new.items }
    ensures polynomial { IsPolynomial order rest.new.items }
    ensures shorter { length rest.new.items < length rest.old.items }
{
    let last = rest.len() - 1;
    let degree = divisor.len() - 1;
    let factor = order.mul(rest[last], order.inv(divisor[degree]));
    add_multiple_at(order, rest, last - degree, order.neg(factor), divisor);
    rest.truncate(trimmed_length(rest));
}
