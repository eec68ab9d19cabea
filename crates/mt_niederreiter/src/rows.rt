//! The rows of one polynomial.
ghost use Rattle.std.specs.Prelude.{◌≡◌, ℕ, suc, ◌+◌, ◌*◌, ◌/◌, ◌<◌, ◌≤◌, length, map, All, IfOk};
ghost use Rattle.mt_poly.specs.Polynomials.{IsMember, IsPower};
ghost use Rattle.mt_niederreiter.specs.Expansions.{degree_of};
ghost use Rattle.mt_niederreiter.specs.Rows.{AreRows, times_over};

use crate::expansions::expansion;
use mt_linear::Order;
use mt_poly::{Poly, mul};
use std::alloc::{AllocError, Global};

/// Adds the first `m` terms of each of the first `m` rows of one polynomial of the list to those of
/// the polynomials before it.
pub fn push_rows(
    alloc: Global,
    order: Order,
    list: &[Poly],
    coordinate: usize,
    m: u8,
    digits: &mut Vec<u8>,
) -> Result<(), AllocError>
    requires coordinate_in { coordinate < length list.now }
    requires orders { All (λ p. p.order ≡ order) list.now }
    requires members { All (IsMember order) (map (λ p. p.coefficients) list.now) }
    requires rows_before { AreRows order m (map (λ p. p.coefficients) list.now) (coordinate * m)
        digits.old.items }
    ensures rows { IfOk result (λ _. AreRows order m (map (λ p. p.coefficients) list.now)
        ((coordinate + 1) * m) digits.new.items) }
{
    let poly = &list[coordinate];
    let degree = poly.coefficients().len() - 1;
    let mut power = Poly::of_number(alloc, order, 1)?;
    for row in 0..m {
        power = power_of_row(alloc, poly, power, row)?;
        let u = row as usize % degree;
        let terms = expansion(alloc, order, power.coefficients(), u, m as usize)?;
        digits.extend_from_slice(&terms[..m as usize])?;
    }
    Ok(())
}

// The power of the polynomial that stands below the fractions of a row: that of the row before, or
// the next one.
fn power_of_row(alloc: Global, poly: &Poly, power: Poly, row: u8) -> Result<Poly, AllocError>
    requires order { power.order ≡ poly.now.order }
    requires member { IsMember poly.now.order poly.now.coefficients }
    requires power { IsPower poly.now.order poly.now.coefficients
        (times_over row (degree_of poly.now.coefficients)) power.coefficients }
    ensures order { IfOk result (λ p. p.order ≡ poly.now.order) }
    ensures power { IfOk result (λ p. IsPower poly.now.order poly.now.coefficients
        (suc (row / degree_of poly.now.coefficients)) p.coefficients) }
{
    let degree = poly.coefficients().len() - 1;
    if row as usize % degree > 0 {
        return Ok(power);
    }
    mul(alloc, &power, poly)
}
