//! The direct product of two parents.
ghost use Rattle.std.specs.Prelude.{◌≡◌, ℕ, ◌+◌, ◌<◌, ◌≤◌, min, IfOk};
ghost use Rattle.mt_linear.specs.Field.{number_of};
ghost use Rattle.mt_system.specs.Rows.{Strength};
ghost use Rattle.mt_rules_pair.specs.Pairs.{product_digit, IsProduct, deepened_strength};

use crate::rows::deepened_digit;
use mt_system::{Formula, Sizes, System, make};
use std::alloc::{AllocError, Global};

// The rows of `a` and those of `b`, in columns of their own.
#[derive(Drop)]
struct ProductRows<'a> {
    a: &'a System,
    b: &'a System,
    columns: u8,
    coordinates: u8,
}

impl<'a> Formula for ProductRows<'a> {
    ghost sizes_of = { λ f. record {
      order = f.b.now.order;
      columns = f.columns;
      coordinates = f.coordinates;
      depth = f.b.now.depth;
    } };

    ghost digit_of = { λ f. product_digit f.a.now f.b.now };

    ghost is_valid = { λ f. (f.a.now.order ≡ f.b.now.order)
        × (f.columns ≡ f.a.now.columns + f.b.now.columns)
        × (f.coordinates ≡ f.a.now.coordinates + f.b.now.coordinates) };

    fn sizes(&self) -> Sizes {
        Sizes {
            order: self.b.order(),
            columns: self.columns,
            coordinates: self.coordinates,
            depth: self.b.depth(),
        }
    }

    fn digit(&self, coordinate: u8, row: u8, column: u8) -> u8 {
        let (a, b) = (self.a, self.b);
        let (s, m) = (a.s(), a.m());
        match (coordinate < s, column < m) {
            (true, true) => deepened_digit(a, coordinate, row, column),
            (false, false) => b.digit(coordinate - s, row, column - m),
            _ => 0,
        }
    }
}

/// The direct product: for each coordinate of `a` its rows with zeros behind them, and then for
/// each coordinate of `b` its rows with zeros before them. Rows that `a` lacks are zero. `a` and
/// `b` have one order, `a` is not deeper than `b`, and together they have fewer than 256 columns
/// and fewer than 256 coordinates.
///
/// The result has the lesser of any strength of `a` and any strength of `b`, where the one of `a`
/// counts up to the depth of `a` if `b` is deeper.
pub fn product(alloc: Global, a: &System, b: &System) -> Result<System, AllocError>
    requires order { a.now.order ≡ b.now.order }
    requires rows { a.now.depth ≤ b.now.depth }
    requires columns { a.now.columns + b.now.columns < 256 }
    requires coordinates { a.now.coordinates + b.now.coordinates < 256 }
    ensures rows { IfOk result (λ r. IsProduct a.now b.now r) }
    ensures strength { IfOk result (λ r. (j k : ℕ) → Strength a.now j → Strength b.now k
        → Strength r (min (deepened_strength a.now.depth b.now.depth j) k)) }
{
    let columns = a.m() + b.m();
    let coordinates = a.s() + b.s();
    make(
        alloc,
        &ProductRows {
            a,
            b,
            columns,
            coordinates,
        },
    )
}
