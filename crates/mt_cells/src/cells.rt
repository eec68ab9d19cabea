//! Cells and their numbers.
ghost use Rattle.std.specs.Prelude.{◌≡◌, ◌+◌, ◌*◌, ◌<◌, ◌≤◌, ◌↔◌, IsSome, IfSome};
ghost use Rattle.mt_cells.specs.Cells.{InBounds, columns_of, order_of, number, index_of, arrays_of, per_order_of, cells_of};

use crate::asks::Kind;
use crate::bounds::Bounds;
use mt_linear::Order;
use std::fmt;

/// A cell of the table.
#[derive(Clone, Copy, PartialEq, Eq, Debug)]
pub enum Cell {
    /// Ordered orthogonal arrays over a field of this order, with `m` columns and `s` coordinates of
    /// `depth` rows. Its value is a strength.
    Ooa {
        order: Order,
        m: u8,
        s: u8,
        depth: u8,
    },
    /// Digital sequences of `s` coordinates up to `m` rows and columns. Its value is `m - t`.
    Seq {
        order: Order,
        m: u8,
        s: u8,
    },
}

impl Cell {
    /// The number of columns of its systems.
    pub fn columns(self) -> u8
        ensures { result ≡ columns_of self }
    {
        match self {
            Cell::Ooa { m, .. } | Cell::Seq { m, .. } => m,
        }
    }

    // The order of the field.
    #[inline(always)]
    pub(crate) fn order(self) -> Order
        ensures { result ≡ order_of self }
    {
        match self {
            Cell::Ooa { order, .. } | Cell::Seq { order, .. } => order,
        }
    }

    /// The number of the cell among those of the bounds, in their order, from 0.
    #[inline(always)]
    pub fn number(self, bounds: Bounds) -> u32
        requires { InBounds bounds self }
        ensures value { result ≡ number bounds self }
        ensures below { result < cells_of bounds }
    {
        match self {
            Cell::Ooa { order, m, s, depth } => {
                let rest = (s as u32 - 1) * m as u32 + (depth as u32 - 1);
                index(order) * bounds.per_order() + (bounds.arrays_below(m) + rest)
            }
            Cell::Seq { order, m, s } => {
                let rest = (m as u32 - 1) * bounds.s_max as u32 + (s as u32 - 1);
                index(order) * bounds.per_order() + (bounds.arrays() + rest)
            }
        }
    }

    /// The cell with this number, or `None` from the number of cells on.
    pub fn of_number(bounds: Bounds, n: u32) -> Option<Cell>
        ensures taken { IsSome result ↔ (n < cells_of bounds) }
        ensures inside { IfSome result (λ c. InBounds bounds c) }
        ensures number { IfSome result (λ c. number bounds c ≡ n) }
    {
        if n < bounds.cells() {
            Some(Cell::at(bounds, n))
        } else {
            None
        }
    }

    /// The cell with this number.
    pub fn at(bounds: Bounds, n: u32) -> Cell
        requires { n < cells_of bounds }
        ensures inside { InBounds bounds result }
        ensures number { number bounds result ≡ n }
    {
        let order = order_at(n / bounds.per_order());
        let before = n % bounds.per_order();
        if before < bounds.arrays() {
            array_at(bounds, order, before)
        } else {
            sequence_at(bounds, order, before - bounds.arrays())
        }
    }
}

impl fmt::Display for Cell {
    ghost use Rattle.std.specs.Prelude.{Some};
    ghost use Rattle.mt_cells.specs.Texts.{cell_text};

    ghost output = { λ cell. Some (cell_text cell) };

    fn fmt<W: fmt::Write>(&self, f: &mut fmt::Formatter<W>) -> fmt::Result {
        match *self {
            Cell::Ooa { order, m, s, depth } => {
                let (kind, q) = (Kind::Ooa, order.number());
                write!(f, "{kind} {q} {m} {s} {depth}")
            }
            Cell::Seq { order, m, s } => {
                let (kind, q) = (Kind::Seq, order.number());
                write!(f, "{kind} {q} {m} {s}")
            }
        }
    }
}

// The index of the order among the seven.
#[inline(always)]
fn index(order: Order) -> u32
    ensures value { result ≡ index_of order }
    ensures below { result < 7 }
{
    match order {
        Order::Q2 => 0,
        Order::Q3 => 1,
        Order::Q4 => 2,
        Order::Q5 => 3,
        Order::Q7 => 4,
        Order::Q8 => 5,
        Order::Q9 => 6,
    }
}

fn order_at(index: u32) -> Order
    requires { index < 7 }
    ensures { index_of result ≡ index }
{
    match index {
        0 => Order::Q2,
        1 => Order::Q3,
        2 => Order::Q4,
        3 => Order::Q5,
        4 => Order::Q7,
        5 => Order::Q8,
        _ => Order::Q9,
    }
}

// The array with so many arrays of its order before it.
fn array_at(bounds: Bounds, order: Order, before: u32) -> Cell
    requires { before < arrays_of bounds }
    ensures inside { InBounds bounds result }
    ensures number { number bounds result ≡ index_of order * per_order_of bounds + before }
{
    let mut rest = before;
    let mut m: u8 = 1;
    while bounds.s_max as u32 * m as u32 <= rest {
        rest -= bounds.s_max as u32 * m as u32;
        m += 1;
    }
    Cell::Ooa {
        order,
        m,
        s: (rest / m as u32 + 1) as u8,
        depth: (rest % m as u32 + 1) as u8,
    }
}

// The sequence with so many sequences of its order before it.
fn sequence_at(bounds: Bounds, order: Order, before: u32) -> Cell
    requires { before < bounds.m_max * bounds.s_max }
    ensures inside { InBounds bounds result }
    ensures number { number bounds result
        ≡ index_of order * per_order_of bounds + (arrays_of bounds + before) }
{
    let width = bounds.s_max as u32;
    Cell::Seq {
        order,
        m: (before / width + 1) as u8,
        s: (before % width + 1) as u8,
    }
}
