//! Systems that need no parent.
ghost use Rattle.std.specs.Prelude.{◌≡◌, ℕ, zero, suc, ◌+◌, ◌<◌, ◌==◌, cond, ltb, IfOk};
ghost use Rattle.mt_system.specs.Rows.{Strength, SequenceStrength};
ghost use Rattle.mt_system.specs.Digits.{unit};
ghost use Rattle.mt_rules_basic.specs.Axioms.{IsZero, IsConstant, IsIdentity, IsParity};

use mt_linear::Order;
use mt_system::{Formula, Sizes, System, make};
use std::alloc::{AllocError, Global};

#[derive(Drop)]
struct ZeroRows {
    sizes: Sizes,
}

impl Formula for ZeroRows {
    ghost sizes_of = { λ f. f.sizes };

    ghost digit_of = { λ f i j c. 0 };

    ghost is_valid = { λ f. Unit {0} };

    fn sizes(&self) -> Sizes {
        self.sizes
    }

    fn digit(&self, _coordinate: u8, _row: u8, _column: u8) -> u8 {
        0
    }
}

#[derive(Drop)]
struct ConstantRows {
    sizes: Sizes,
}

impl Formula for ConstantRows {
    ghost sizes_of = { λ f. f.sizes };

    ghost digit_of = { λ f i j c. cond (j == 0) (unit 0 c) 0 };

    ghost is_valid = { λ f. Unit {0} };

    fn sizes(&self) -> Sizes {
        self.sizes
    }

    fn digit(&self, _coordinate: u8, row: u8, column: u8) -> u8 {
        (row == 0 && column == 0) as u8
    }
}

#[derive(Drop)]
struct UnitRows {
    sizes: Sizes,
}

impl Formula for UnitRows {
    ghost sizes_of = { λ f. f.sizes };

    ghost digit_of = { λ f i j c. unit j c };

    ghost is_valid = { λ f. Unit {0} };

    fn sizes(&self) -> Sizes {
        self.sizes
    }

    fn digit(&self, _coordinate: u8, row: u8, column: u8) -> u8 {
        (column == row) as u8
    }
}

#[derive(Drop)]
struct ParityRows {
    sizes: Sizes,
}

impl Formula for ParityRows {
    ghost sizes_of = { λ f. f.sizes };

    ghost digit_of = { λ f i j c. cond (ltb i f.sizes.columns) (unit i c) 1 };

    ghost is_valid = { λ f. Unit {0} };

    fn sizes(&self) -> Sizes {
        self.sizes
    }

    fn digit(&self, coordinate: u8, _row: u8, column: u8) -> u8 {
        (coordinate >= self.sizes.columns || column == coordinate) as u8
    }
}

/// The system whose rows are all zero, of strength 0, also as a sequence. The sizes are at least 1.
pub fn zero(alloc: Global, order: Order, m: u8, s: u8, depth: u8) -> Result<System, AllocError>
    requires columns { 0 < m }
    requires coordinates { 0 < s }
    requires rows { 0 < depth }
    ensures rows { IfOk result (λ a. IsZero order m s depth a) }
    ensures strength { IfOk result (λ a. Strength a 0) }
    ensures sequence { IfOk result (λ a. SequenceStrength a 0) }
{
    let sizes = Sizes {
        order,
        columns: m,
        coordinates: s,
        depth,
    };
    make(alloc, &ZeroRows { sizes })
}

/// The system whose first row of each coordinate is the first unit vector, and whose other rows are
/// zero, of strength 1. The sizes are at least 1.
pub fn constant(alloc: Global, order: Order, m: u8, s: u8, depth: u8) -> Result<System, AllocError>
    requires columns { 0 < m }
    requires coordinates { 0 < s }
    requires rows { 0 < depth }
    ensures rows { IfOk result (λ a. IsConstant order m s depth a) }
    ensures strength { IfOk result (λ a. Strength a 1) }
{
    let sizes = Sizes {
        order,
        columns: m,
        coordinates: s,
        depth,
    };
    make(alloc, &ConstantRows { sizes })
}

/// One coordinate whose rows are the `m` unit vectors, of strength `m`, which is at least 1.
pub fn identity(alloc: Global, order: Order, m: u8) -> Result<System, AllocError>
    requires { 0 < m }
    ensures rows { IfOk result (λ a. IsIdentity order m a) }
    ensures strength { IfOk result (λ a. Strength a m) }
{
    let sizes = Sizes {
        order,
        columns: m,
        coordinates: 1,
        depth: m,
    };
    make(alloc, &UnitRows { sizes })
}

/// One row for each of `m + 1` coordinates, the `m` unit vectors and their sum, of strength `m`,
/// which is at least 1 and below 255: the dual of the repetition code.
pub fn parity(alloc: Global, order: Order, m: u8) -> Result<System, AllocError>
    requires from { 0 < m }
    requires to { m < 255 }
    ensures rows { IfOk result (λ a. IsParity order m a) }
    ensures strength { IfOk result (λ a. Strength a m) }
{
    let sizes = Sizes {
        order,
        columns: m,
        coordinates: m + 1,
        depth: 1,
    };
    make(alloc, &ParityRows { sizes })
}
