//! The list of pairwise coprime monic polynomials.
ghost use Rattle.std.specs.Prelude.{◌≡◌, ◌≢◌, ℕ, ◌+◌, ◌<◌, ◌↔◌, length, map, All, AllPairs, IsTrue, IfOk};
ghost use Rattle.mt_linear.specs.Field.{number_of};
ghost use Rattle.mt_poly.specs.Polynomials.{IsCoprime, IsMember, IsPolynomial};
ghost use Rattle.mt_poly.specs.CoprimeLists.{IsCoprimeList, IsLeast, IsNext, MayFollow};

use crate::Poly;
use crate::coprimality::are_coprime;
use mt_linear::Order;
use std::alloc::{AllocError, Global};

/// The first `count` members of the list in which each is the polynomial of the least number, by
/// its coefficients as digits in base q, that is monic, of degree 1 or more and coprime to all
/// before it.
pub fn coprime_list(alloc: Global, order: Order, count: u32) -> Result<Vec<Poly>, AllocError>
    ensures size { IfOk result (λ v. length v.items ≡ count) }
    ensures orders { IfOk result (λ v. All (λ p. p.order ≡ order) v.items) }
    ensures list { IfOk result (λ v. IsCoprimeList order (map (λ p. p.coefficients) v.items)) }
    ensures members { IfOk result (λ v. All (IsMember order) (map (λ p. p.coefficients) v.items)) }
    ensures coprime { IfOk result (λ v. AllPairs (IsCoprime order)
        (map (λ p. p.coefficients) v.items)) }
{
    let mut list = Vec::with_capacity(alloc, count as usize)?;
    let mut candidate = Poly::of_number(alloc, order, order.number() as u64)?;
    for _ in 0..count {
        let next = next_member(alloc, order, &list, candidate)?;
        candidate = next.copy()?.next()?;
        list.push(next)?;
    }
    Ok(list)
}

// The next member after those kept, from a candidate on that none of those which may follow has a
// lesser number than.
fn next_member(
    alloc: Global,
    order: Order,
    kept: &[Poly],
    candidate: Poly,
) -> Result<Poly, AllocError>
    requires orders { All (λ p. p.order ≡ order) kept.now }
    requires members { All (IsMember order) (map (λ p. p.coefficients) kept.now) }
    requires candidate_order { candidate.order ≡ order }
    requires least { IsLeast order (map (λ p. p.coefficients) kept.now) candidate.coefficients }
    ensures order { IfOk result (λ p. p.order ≡ order) }
    ensures next { IfOk result (λ p. IsNext order (map (λ p. p.coefficients) kept.now)
        p.coefficients) }
{
    let mut candidate = candidate;
    loop {
        if may_follow(alloc, order, kept, &candidate)? {
            return Ok(candidate);
        }
        candidate = candidate.next()?;
    }
}

// Whether the candidate may follow those kept.
fn may_follow(
    alloc: Global,
    order: Order,
    kept: &[Poly],
    candidate: &Poly,
) -> Result<bool, AllocError>
    requires candidate_order { candidate.now.order ≡ order }
    requires orders { All (λ p. p.order ≡ order) kept.now }
    ensures answer { IfOk result (λ y. IsTrue y
        ↔ MayFollow order (map (λ p. p.coefficients) kept.now) candidate.now.coefficients) }
    ensures polynomial { IsPolynomial candidate.now.order candidate.now.coefficients }
{
    let coefficients = candidate.coefficients();
    let length = coefficients.len();
    if length < 2 || coefficients[length - 1] != 1 {
        return Ok(false);
    }
    let mut dividend = Vec::with_capacity(alloc, length)?;
    let mut divisor = Vec::with_capacity(alloc, length)?;
    for poly in kept {
        let member = poly.coefficients();
        if !are_coprime(order, member, coefficients, &mut dividend, &mut divisor)? {
            return Ok(false);
        }
    }
    Ok(true)
}
