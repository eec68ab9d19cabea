//! Coordinates, rows and columns dropped or added.
ghost use Rattle.std.specs.Prelude.{◌≡◌, ℕ, ◌+◌, ◌-◌, ◌<◌, ◌≤◌, min, IfOk};
ghost use Rattle.mt_system.specs.Rows.{Strength};
ghost use Rattle.mt_system.specs.Digits.{padded};
ghost use Rattle.mt_rules_basic.specs.Rules.{IsFewer, IsShallower, IsDeeper, IsLonger};

use mt_system::{Formula, Sizes, System, make};
use std::alloc::{AllocError, Global};

// A parent's digits in other sizes, with zeros outside its own.
#[derive(Drop)]
pub(crate) struct Resized<'a> {
    pub(crate) parent: &'a System,
    pub(crate) columns: u8,
    pub(crate) coordinates: u8,
    pub(crate) depth: u8,
}

impl<'a> Formula for Resized<'a> {
    ghost sizes_of = { λ f. record {
      order = f.parent.now.order;
      columns = f.columns;
      coordinates = f.coordinates;
      depth = f.depth;
    } };

    ghost digit_of = { λ f. padded f.parent.now };

    ghost is_valid = { λ f. Unit {0} };

    fn sizes(&self) -> Sizes {
        Sizes {
            order: self.parent.order(),
            columns: self.columns,
            coordinates: self.coordinates,
            depth: self.depth,
        }
    }

    fn digit(&self, coordinate: u8, row: u8, column: u8) -> u8 {
        let parent = self.parent;
        if coordinate < parent.s() && row < parent.depth() && column < parent.m() {
            parent.digit(coordinate, row, column)
        } else {
            0
        }
    }
}

/// The last coordinate is dropped. `parent` has at least 2.
///
/// The result has each strength of its parent.
pub fn fewer(alloc: Global, parent: &System) -> Result<System, AllocError>
    requires { 2 ≤ parent.now.coordinates }
    ensures rows { IfOk result (λ a. IsFewer parent.now a) }
    ensures strength { IfOk result (λ a. (k : ℕ) → Strength parent.now k → Strength a k) }
{
    let coordinates = parent.s() - 1;
    make(
        alloc,
        &Resized {
            parent,
            columns: parent.m(),
            coordinates,
            depth: parent.depth(),
        },
    )
}

/// The last row of each coordinate is dropped. `parent` has a depth of at least 2.
///
/// The result has each strength of its parent.
pub fn shallower(alloc: Global, parent: &System) -> Result<System, AllocError>
    requires { 2 ≤ parent.now.depth }
    ensures rows { IfOk result (λ a. IsShallower parent.now a) }
    ensures strength { IfOk result (λ a. (k : ℕ) → Strength parent.now k → Strength a k) }
{
    let depth = parent.depth() - 1;
    make(
        alloc,
        &Resized {
            parent,
            columns: parent.m(),
            coordinates: parent.s(),
            depth,
        },
    )
}

/// A zero row is added to each coordinate. `parent` has a depth below 255.
///
/// The result has each strength of its parent, up to the parent's depth.
pub fn deeper(alloc: Global, parent: &System) -> Result<System, AllocError>
    requires { parent.now.depth < 255 }
    ensures rows { IfOk result (λ a. IsDeeper parent.now a) }
    ensures strength { IfOk result (λ a. (k : ℕ) → Strength parent.now k
        → Strength a (min k parent.now.depth)) }
{
    let depth = parent.depth() + 1;
    make(
        alloc,
        &Resized {
            parent,
            columns: parent.m(),
            coordinates: parent.s(),
            depth,
        },
    )
}

/// A zero column is added at the right. `parent` has fewer than 255 columns.
///
/// The result has each strength of its parent.
pub fn longer(alloc: Global, parent: &System) -> Result<System, AllocError>
    requires { parent.now.columns < 255 }
    ensures rows { IfOk result (λ a. IsLonger parent.now a) }
    ensures strength { IfOk result (λ a. (k : ℕ) → Strength parent.now k → Strength a k) }
{
    let columns = parent.m() + 1;
    make(
        alloc,
        &Resized {
            parent,
            columns,
            coordinates: parent.s(),
            depth: parent.depth(),
        },
    )
}
