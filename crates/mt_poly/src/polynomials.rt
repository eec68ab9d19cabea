//! Polynomials.
ghost use Rattle.std.specs.Prelude.{◌≡◌, ◌≢◌, ℕ, ◌+◌, ◌-◌, ◌*◌, ◌^◌, ◌<◌, ◌≤◌, length, slice_index, IfOk};
ghost use Rattle.mt_linear.specs.Field.{number_of};
ghost use Rattle.mt_linear.specs.Linear.{AllElements};
ghost use Rattle.mt_poly.specs.CoprimeLists.{number_by};

use crate::lists::trimmed_length;
use mt_linear::Order;
use std::alloc::{AllocError, Global};
use std::marker::Model;

/// A polynomial over the field of one order: its coefficients, the constant first. The last one is
/// not 0; the zero polynomial has none.
#[derive(Debug, Drop)]
pub struct Poly {
    order: Order,
    coefficients: Vec<u8>,
}

impl Model for Poly {
    ghost use Rattle.mt_poly.specs.Polynomials.{Polynomial, IsPolynomial};

    ghost Value = { Polynomial };

    ghost view = { λ p. record { order = p.order; coefficients = p.coefficients.items } };

    ghost invariant = { λ p. IsPolynomial p.order p.coefficients.items };
}

impl Poly {
    ghost use Rattle.mt_poly.specs.Polynomials.{Polynomial, IsPolynomial};

    /// The polynomial whose coefficients are the digits of `n` in base q, the number of elements.
    pub fn of_number(alloc: Global, order: Order, n: u64) -> Result<Poly, AllocError>
        ensures order { IfOk result (λ p. p.order ≡ order) }
        ensures number { IfOk result (λ p. number_by (number_of order) p.coefficients ≡ n) }
        ensures polynomial { IfOk result (λ p. IsPolynomial order p.coefficients) }
    {
        let coefficients = digits_of(alloc, order, n)?;
        Ok(Poly {
            order,
            coefficients,
        })
    }

    /// The polynomial with these coefficients, without the zeros at the end.
    pub(crate) fn trimmed(order: Order, coefficients: Vec<u8>) -> Poly
        requires { AllElements order coefficients.items }
        ensures order { result.order ≡ order }
        ensures same { (i : ℕ) → slice_index result.coefficients i
            ≡ slice_index coefficients.items i }
        ensures within { length result.coefficients ≤ length coefficients.items }
    {
        let mut coefficients = coefficients;
        let end = trimmed_length(&coefficients);
        coefficients.truncate(end);
        Poly {
            order,
            coefficients,
        }
    }

    /// The polynomial of the next number.
    pub(crate) fn next(self) -> Result<Poly, AllocError>
        ensures order { IfOk result (λ p. p.order ≡ self.order) }
        ensures number { IfOk result (λ p. number_by (number_of self.order) p.coefficients
            ≡ number_by (number_of self.order) self.coefficients + 1) }
    {
        let order = self.order;
        let coefficients = counted_up(order, self.coefficients)?;
        Ok(Poly {
            order,
            coefficients,
        })
    }

    /// The same polynomial once more.
    pub(crate) fn copy(&self) -> Result<Poly, AllocError>
        ensures { IfOk result (λ p. p ≡ self.now) }
    {
        Ok(Poly {
            order: self.order,
            coefficients: self.coefficients.clone()?,
        })
    }

    /// The order of its field.
    pub fn order(&self) -> Order
        ensures { result ≡ self.now.order }
    {
        self.order
    }

    /// The coefficients, the constant first.
    pub fn coefficients(&self) -> &[u8]
        ensures value { result.now ≡ self.now.coefficients }
        ensures system { IsPolynomial self.now.order self.now.coefficients }
    {
        self.coefficients.as_slice()
    }
}

// The digits of `n` in base q, the lowest first.
fn digits_of(alloc: Global, order: Order, n: u64) -> Result<Vec<u8>, AllocError>
    ensures number { IfOk result (λ v. number_by (number_of order) v.items ≡ n) }
    ensures elements { IfOk result (λ v. AllElements order v.items) }
    ensures lead { IfOk result (λ v. 0 < length v.items
        → slice_index v.items (length v.items - 1) ≢ 0) }
{
    let number = order.number() as u64;
    let mut rest = n;
    let mut digits = Vec::new(alloc);
    while rest > 0 {
        digits.push((rest % number) as u8)?;
        rest /= number;
    }
    Ok(digits)
}

// The digits of the next number.
fn counted_up(order: Order, digits: Vec<u8>) -> Result<Vec<u8>, AllocError>
    requires elements { AllElements order digits.items }
    requires lead { 0 < length digits.items
        → slice_index digits.items (length digits.items - 1) ≢ 0 }
    ensures number { IfOk result (λ v. number_by (number_of order) v.items
        ≡ number_by (number_of order) digits.items + 1) }
    ensures elements { IfOk result (λ v. AllElements order v.items) }
    ensures lead { IfOk result (λ v. 0 < length v.items
        → slice_index v.items (length v.items - 1) ≢ 0) }
{
    let number = order.number();
    let mut digits = digits;
    for i in 0..digits.len() {
        let next = digits[i] + 1;
        if next < number {
            digits[i] = next;
            return Ok(digits);
        }
        digits[i] = 0;
    }
    digits.push(1)?;
    Ok(digits)
}
