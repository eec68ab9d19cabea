//! Sequences cut, and nets of sequences.
ghost use Rattle.std.specs.Prelude.{◌≡◌, ℕ, ◌+◌, ◌-◌, ◌<◌, ◌≤◌, ◌==◌, cond, ltb, IfOk};
ghost use Rattle.mt_system.specs.Rows.{Strength, SequenceStrength};
ghost use Rattle.mt_system.specs.Digits.{digit_of, unit};
ghost use Rattle.mt_rules_basic.specs.Rules.{IsFewer, IsCut, IsNet};

use crate::rows::{Resized, fewer};
use mt_system::{Formula, Sizes, System, make};
use std::alloc::{AllocError, Global};

// A sequence's matrices, and one more whose rows are the unit vectors from the last to the first.
#[derive(Drop)]
struct WithNetRows<'a> {
    parent: &'a System,
    coordinates: u8,
    last_column: u8,
}

impl<'a> Formula for WithNetRows<'a> {
    ghost sizes_of = { λ f. record {
      order = f.parent.now.order;
      columns = f.parent.now.columns;
      coordinates = f.coordinates;
      depth = f.parent.now.depth;
    } };

    ghost digit_of = { λ f i j c. cond (ltb i f.parent.now.coordinates)
        (digit_of f.parent.now i j c) (unit (f.parent.now.columns - 1 - j) c) };

    ghost is_valid = { λ f. f.last_column ≡ f.parent.now.columns - 1 };

    fn sizes(&self) -> Sizes {
        Sizes {
            order: self.parent.order(),
            columns: self.parent.m(),
            coordinates: self.coordinates,
            depth: self.parent.depth(),
        }
    }

    fn digit(&self, coordinate: u8, row: u8, column: u8) -> u8 {
        if coordinate < self.parent.s() {
            self.parent.digit(coordinate, row, column)
        } else {
            (column == self.last_column.saturating_sub(row)) as u8
        }
    }
}

/// The last coordinate of a sequence's matrices is dropped. `parent` has at least 2, and as many
/// rows as columns.
///
/// The result has each strength of its parent as a sequence.
pub fn seq_fewer(alloc: Global, parent: &System) -> Result<System, AllocError>
    requires coordinates { 2 ≤ parent.now.coordinates }
    requires square { parent.now.depth ≡ parent.now.columns }
    ensures rows { IfOk result (λ a. IsFewer parent.now a) }
    ensures strength { IfOk result (λ a. (u : ℕ) → SequenceStrength parent.now u
        → SequenceStrength a u) }
{
    fewer(alloc, parent)
}

/// The last column and the last row of each of a sequence's matrices are dropped. `parent` has at
/// least 2 columns, and as many rows.
///
/// The result has, as a sequence, each strength of its parent less 1: the same quality parameter t.
pub fn seq_cut(alloc: Global, parent: &System) -> Result<System, AllocError>
    requires columns { 2 ≤ parent.now.columns }
    requires square { parent.now.depth ≡ parent.now.columns }
    ensures rows { IfOk result (λ a. IsCut parent.now a) }
    ensures strength { IfOk result (λ a. (u : ℕ) → SequenceStrength parent.now u
        → SequenceStrength a (u - 1)) }
{
    let columns = parent.m() - 1;
    make(
        alloc,
        &Resized {
            parent,
            columns,
            coordinates: parent.s(),
            depth: columns,
        },
    )
}

/// The net of a sequence: a last coordinate is added, whose rows are the unit vectors from the last
/// to the first. `parent` has fewer than 255 coordinates, and as many rows as columns.
///
/// The result has, as a net, each strength of its parent as a sequence (Niederreiter, 1987).
pub fn seq_to_net(alloc: Global, parent: &System) -> Result<System, AllocError>
    requires coordinates { parent.now.coordinates < 255 }
    requires square { parent.now.depth ≡ parent.now.columns }
    ensures rows { IfOk result (λ a. IsNet parent.now a) }
    ensures strength { IfOk result (λ a. (u : ℕ) → u ≤ parent.now.columns
        → SequenceStrength parent.now u → Strength a u) }
{
    let coordinates = parent.s() + 1;
    let last_column = parent.m() - 1;
    make(
        alloc,
        &WithNetRows {
            parent,
            coordinates,
            last_column,
        },
    )
}
