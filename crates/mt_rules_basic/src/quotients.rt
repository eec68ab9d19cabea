//! Rows modulo the first row of the first coordinate.
ghost use Rattle.std.specs.Prelude.{◌≡◌, ◌≢◌, ℕ, suc, ◌+◌, ◌-◌, ◌<◌, ◌≤◌, slice_index, IfOk};
ghost use Rattle.mt_linear.specs.Field.{number_of};
ghost use Rattle.mt_linear.specs.Linear.{AllElements};
ghost use Rattle.mt_system.specs.Rows.{IsSystem, Strength, row_of};
ghost use Rattle.mt_rules_basic.specs.Rules.{IsPivot, modulo_first, remaining_row, IsQuotientKeep, IsQuotientDrop};

use mt_system::{Formula, Sizes, System, make};
use std::alloc::{AllocError, Global};

// A digit of a row modulo the first row of the first coordinate, whose first column that is not 0
// is the pivot and left out. All are counted from 0.
fn digit_modulo_first(parent: &System, pivot: u8, coordinate: u8, row: u8, column: u8) -> u8
    requires pivot { IsPivot (row_of parent.now 0 0) pivot }
    requires coordinate_in { coordinate < parent.now.coordinates }
    requires row_in { row < parent.now.depth }
    requires column_in { column + 1 < parent.now.columns }
    ensures value { result ≡ modulo_first parent.now pivot coordinate row column }
    ensures element { result < number_of parent.now.order }
{
    let order = parent.order();
    let column = if column < pivot { column } else { column + 1 };
    let inverse = order.inv(parent.digit(0, 0, pivot));
    let factor = order.mul(parent.digit(coordinate, row, pivot), inverse);
    let multiple = order.mul(factor, parent.digit(0, 0, column));
    order.add(parent.digit(coordinate, row, column), order.neg(multiple))
}

// The rows but the first of the first coordinate and the last of the others.
#[derive(Drop)]
struct QuotientKeep<'a> {
    parent: &'a System,
    pivot: u8,
}

impl<'a> Formula for QuotientKeep<'a> {
    ghost sizes_of = { λ f. record {
      order = f.parent.now.order;
      columns = f.parent.now.columns - 1;
      coordinates = f.parent.now.coordinates;
      depth = f.parent.now.depth - 1;
    } };

    ghost digit_of = { λ f i j c. modulo_first f.parent.now f.pivot i (remaining_row i j) c };

    ghost is_valid = { λ f. IsPivot (row_of f.parent.now 0 0) f.pivot
        × (f.parent.now.depth ≤ 255) };

    fn sizes(&self) -> Sizes {
        Sizes {
            order: self.parent.order(),
            columns: self.parent.m() - 1,
            coordinates: self.parent.s(),
            depth: self.parent.depth() - 1,
        }
    }

    fn digit(&self, coordinate: u8, row: u8, column: u8) -> u8 {
        let row = if coordinate == 0 { row + 1 } else { row };
        digit_modulo_first(self.parent, self.pivot, coordinate, row, column)
    }
}

// The rows of all coordinates but the first.
#[derive(Drop)]
struct QuotientDrop<'a> {
    parent: &'a System,
    pivot: u8,
}

impl<'a> Formula for QuotientDrop<'a> {
    ghost sizes_of = { λ f. record {
      order = f.parent.now.order;
      columns = f.parent.now.columns - 1;
      coordinates = f.parent.now.coordinates - 1;
      depth = f.parent.now.depth;
    } };

    ghost digit_of = { λ f i j c. modulo_first f.parent.now f.pivot (suc i) j c };

    ghost is_valid = { λ f. IsPivot (row_of f.parent.now 0 0) f.pivot
        × (f.parent.now.coordinates ≤ 255) };

    fn sizes(&self) -> Sizes {
        Sizes {
            order: self.parent.order(),
            columns: self.parent.m() - 1,
            coordinates: self.parent.s() - 1,
            depth: self.parent.depth(),
        }
    }

    fn digit(&self, coordinate: u8, row: u8, column: u8) -> u8 {
        digit_modulo_first(self.parent, self.pivot, coordinate + 1, row, column)
    }
}

// The first column in which the first row of the first coordinate is not 0.
fn pivot_of(parent: &System) -> u8
    requires { (c : ℕ) × (slice_index (row_of parent.now 0 0) c ≢ 0) }
    ensures pivot { IsPivot (row_of parent.now 0 0) result }
    ensures elements { AllElements parent.now.order (row_of parent.now 0 0) }
    ensures system { IsSystem parent.now.order parent.now.columns parent.now.coordinates
        parent.now.depth parent.now.digits }
{
    let columns = parent.m();
    let first = parent.row(1, 1);
    for column in 0..columns {
        if first[column as usize] != 0 {
            return column;
        }
    }
    unreachable!()
}

/// The rows but the first of the first coordinate and the last of the others, modulo the first row
/// of the first coordinate, whose pivot column is left out. `parent` has at least 2 columns and a
/// depth of at least 2, and its very first row is not zero.
///
/// The result has each strength of its parent less 1: it is the residual of the first row.
pub fn quotient_keep(alloc: Global, parent: &System) -> Result<System, AllocError>
    requires columns { 2 ≤ parent.now.columns }
    requires rows { 2 ≤ parent.now.depth }
    requires first_row { (c : ℕ) × (slice_index (row_of parent.now 0 0) c ≢ 0) }
    ensures rows { IfOk result (λ a. IsQuotientKeep parent.now a) }
    ensures strength { IfOk result (λ a. (k : ℕ) → Strength parent.now k → Strength a (k - 1)) }
{
    let pivot = pivot_of(parent);
    make(alloc, &QuotientKeep { parent, pivot })
}

/// The rows of all coordinates but the first, modulo the first row of the first, whose pivot column
/// is left out. `parent` has at least 2 columns and 2 coordinates, and its very first row is not
/// zero.
///
/// The result has each strength of its parent less 1: it is the residual of the first row.
pub fn quotient_drop(alloc: Global, parent: &System) -> Result<System, AllocError>
    requires columns { 2 ≤ parent.now.columns }
    requires coordinates { 2 ≤ parent.now.coordinates }
    requires first_row { (c : ℕ) × (slice_index (row_of parent.now 0 0) c ≢ 0) }
    ensures rows { IfOk result (λ a. IsQuotientDrop parent.now a) }
    ensures strength { IfOk result (λ a. (k : ℕ) → Strength parent.now k → Strength a (k - 1)) }
{
    let pivot = pivot_of(parent);
    make(alloc, &QuotientDrop { parent, pivot })
}
