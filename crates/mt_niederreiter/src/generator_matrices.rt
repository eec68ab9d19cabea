//! The generator matrices.
ghost use Rattle.std.specs.Prelude.{ℕ, ◌-◌, ◌≤◌, IfOk};
ghost use Rattle.mt_system.specs.Rows.{SequenceStrength};
ghost use Rattle.mt_niederreiter.specs.Matrices.{IsMatricesOf, IsQuality};

use crate::rows::push_rows;
use mt_linear::Order;
use mt_poly::coprime_list;
use mt_system::System;
use std::alloc::{AllocError, Global};

/// Niederreiter's generator matrices of the first `s` polynomials of the coprime list, one of `m`
/// rows and `m` columns for each (Niederreiter, 1988). `m` and `s` are at least 1.
///
/// The result has sequence strength m - t, where t is the quality parameter.
pub fn matrices(alloc: Global, order: Order, m: u8, s: u8) -> Result<System, AllocError>
    requires columns { 1 ≤ m }
    requires coordinates { 1 ≤ s }
    ensures rows { IfOk result (IsMatricesOf order m s) }
    ensures strength { IfOk result (λ a. (t : ℕ) → IsQuality order s t
        → SequenceStrength a (m - t)) }
{
    let list = coprime_list(alloc, order, s as u32)?;
    let depth = m as usize;
    let mut digits = Vec::with_capacity(alloc, s as usize * depth * depth)?;
    for coordinate in 0..list.len() {
        push_rows(alloc, order, &list, coordinate, m, &mut digits)?;
    }
    Ok(System::of_elements(order, m, s, m, digits))
}
