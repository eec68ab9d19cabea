//! Systems that are drawn at random.
ghost use Rattle.std.specs.Prelude.{◌≡◌, ℕ, ◌%◌, ◌<◌, length, slice_index, IfOk};
ghost use Rattle.mt_linear.specs.Field.{number_of};
ghost use Rattle.mt_linear.specs.Linear.{AllElements};
ghost use Rattle.mt_cells.specs.Cells.{index_of};
ghost use Rattle.mt_gen.specs.Generated.{state_after, word_at, IsDrawn, words_of};

use mt_cells::Bounds;
use mt_linear::Order;
use mt_system::System;
use rand_core::utils::NextWord;
use rand_xoshiro::SplitMix64;
use std::alloc::{AllocError, Global};

/// The most columns of a drawn system.
pub const MOST_DRAWN_COLUMNS: u8 = 8;

/// The most coordinates of a drawn system.
pub const MOST_DRAWN_COORDINATES: u8 = 6;

// The next system of the stream: its order, columns, coordinates and depth take a word each, and so
// does each of its digits.
pub(crate) fn drawn_system(
    alloc: Global,
    bounds: Bounds,
    stream: &mut SplitMix64,
) -> Result<System, AllocError>
    ensures system { IfOk result (IsDrawn bounds stream.old) }
    ensures stream { IfOk result (λ a. stream.new ≡ state_after stream.old (words_of a)) }
{
    let order = order_at(below(stream, 7));
    let m = 1 + below(stream, bounds.m_max.min(MOST_DRAWN_COLUMNS));
    let s = 1 + below(stream, bounds.s_max.min(MOST_DRAWN_COORDINATES));
    let depth = 1 + below(stream, m);
    let count = s as usize * depth as usize * m as usize;
    let digits = drawn_digits(alloc, order, count, stream)?;
    Ok(System::of_elements(order, m, s, depth, digits))
}

// A number below the limit, from the next word.
fn below(stream: &mut SplitMix64, limit: u8) -> u8
    requires { 0 < limit }
    ensures value { result ≡ word_at stream.old 0 % limit }
    ensures below { result < limit }
    ensures stream { stream.new ≡ state_after stream.old 1 }
{
    (stream.next_word() % limit as u64) as u8
}

// So many digits, each from one word.
fn drawn_digits(
    alloc: Global,
    order: Order,
    count: usize,
    stream: &mut SplitMix64,
) -> Result<Vec<u8>, AllocError>
    ensures size { IfOk result (λ digits. length digits.items ≡ count) }
    ensures elements { IfOk result (λ digits. AllElements order digits.items) }
    ensures digits { IfOk result (λ digits. (n : ℕ) → n < count
        → slice_index digits.items n ≡ word_at stream.old n % number_of order) }
    ensures stream { IfOk result (λ _. stream.new ≡ state_after stream.old count) }
{
    let mut digits = Vec::with_capacity(alloc, count)?;
    for _place in 0..count {
        digits.push(below(stream, order.number()))?;
    }
    Ok(digits)
}

// The order of this index among the seven.
fn order_at(index: u8) -> Order
    requires { index < 7 }
    ensures { index_of result ≡ index }
{
    match index {
        0 => Order::Q2,
        1 => Order::Q3,
        2 => Order::Q4,
        3 => Order::Q5,
        4 => Order::Q7,
        5 => Order::Q8,
        _ => Order::Q9,
    }
}
