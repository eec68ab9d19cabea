//! Polynomials over the seven fields: sums, products, division, greatest common divisors, and the
//! list of pairwise coprime monic polynomials.
#![tactic(auto)]

mod arithmetic;
mod coprimality;
mod coprime_polynomials;
mod division;
mod divisors;
mod euclid;
mod lists;
mod polynomials;
#[cfg(test)]
mod tests;

pub use arithmetic::{add, mul};
pub use coprime_polynomials::coprime_list;
pub use division::{DivRem, div_rem};
pub use divisors::Gcd;
pub use euclid::gcd;
pub use polynomials::Poly;
