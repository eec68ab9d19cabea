//! A system made by a formula for its digits.
ghost use Rattle.std.specs.Prelude.{◌≡◌, ℕ, ◌<◌, ◌≤◌, IfOk};
ghost use Rattle.mt_linear.specs.Field.{number_of};
ghost use Rattle.mt_system.specs.Digits.{HasDigits};

use crate::system::System;
use mt_linear::Order;
use std::alloc::{AllocError, Global};

/// The sizes of a system.
#[derive(Clone, Copy, PartialEq, Eq, Debug)]
pub struct Sizes {
    pub order: Order,
    pub columns: u8,
    pub coordinates: u8,
    pub depth: u8,
}

/// A system that is to be made: `sizes_of` its sizes, and `digit_of` its digits, by coordinate, row
/// and column. `is_valid` is what a digit needs beside its place.
pub trait Formula {
    ghost use Rattle.mt_system.specs.declared.formula.Sizes.{Sizes};

    ghost sizes_of: { Self → Sizes };

    ghost digit_of: { Self → ℕ → ℕ → ℕ → ℕ };

    ghost is_valid: { Self → Type 0 };

    /// The sizes of the system.
    fn sizes(&self) -> Sizes
        ensures { result ≡ sizes_of self.now };

    /// Digit `column` of row `row` of a coordinate, all counted from 0.
    fn digit(&self, coordinate: u8, row: u8, column: u8) -> u8
        requires valid { is_valid self.now }
        requires coordinate_in { coordinate < (sizes_of self.now).coordinates }
        requires row_in { row < (sizes_of self.now).depth }
        requires column_in { column < (sizes_of self.now).columns }
        ensures value { result ≡ digit_of self.now coordinate row column }
        ensures element { result < number_of (sizes_of self.now).order };
}

/// The system of a formula, by coordinate, row and column. Its sizes are at least 1.
pub fn make<F: Formula>(alloc: Global, formula: &F) -> Result<System, AllocError>
    requires valid { F.is_valid formula.now }
    requires columns { 0 < (F.sizes_of formula.now).columns }
    requires coordinates { 0 < (F.sizes_of formula.now).coordinates }
    requires rows { 0 < (F.sizes_of formula.now).depth }
    ensures { IfOk result (λ a. HasDigits a (F.sizes_of formula.now).order
        (F.sizes_of formula.now).columns (F.sizes_of formula.now).coordinates
        (F.sizes_of formula.now).depth (F.digit_of formula.now)) }
{
    let sizes = formula.sizes();
    let (columns, depth) = (sizes.columns as usize, sizes.depth as usize);
    let count = sizes.coordinates as usize * depth * columns;
    let mut digits = Vec::with_capacity(alloc, count)?;
    for place in 0..count {
        let row = place / columns;
        let digit = formula.digit(
            (row / depth) as u8,
            (row % depth) as u8,
            (place % columns) as u8,
        );
        digits.push(digit)?;
    }
    Ok(System::of_elements(
        sizes.order,
        sizes.columns,
        sizes.coordinates,
        sizes.depth,
        digits,
    ))
}
