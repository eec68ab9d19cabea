//! What a greatest common divisor comes with.
use crate::Poly;

/// The monic greatest common divisor of two polynomials a and b, with factors such that
/// `left * a + right * b` is the divisor.
#[derive(Debug, Drop)]
pub struct Gcd {
    pub divisor: Poly,
    pub left: Poly,
    pub right: Poly,
}
