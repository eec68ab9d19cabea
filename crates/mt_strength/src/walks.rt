// The walk over all choices in the order of their lists, each decided by the rows that are left.
ghost use Rattle.std.specs.Prelude.{◌≡◌, ◌≢◌, ℕ, ◌+◌, ◌*◌, ◌-◌, ◌^◌, ◌<◌, ◌≤◌, length, drop, slice_index, [], MatchOption};
ghost use Rattle.std.specs.Bool.{OnTrue, OnFalse};
ghost use Rattle.mt_system.specs.Rows.{rows_by};
ghost use Rattle.mt_strength.specs.Lanes.{row_at, IsLanes, digit_at};
ghost use Rattle.mt_strength.specs.Pivots.{IsPivot, IsCleared};
ghost use Rattle.mt_strength.specs.Searches.{AllIndependent, IsFound};
ghost use Rattle.mt_strength.specs.Walks.{IsLaid, IsLeft, SomeLeft, NoneLeft, AreLeft, IsLastGone, OthersIndependent, start_of, count_of, digits_in};

use crate::byte_rows::{put_row, read_row};
use crate::lanes::first_nonzero;
use crate::pivots::{cleared, factor_of, fill_multiples};
use mt_linear::Order;
use std::simd::prelude::*;

// Clears `count` rows from `from` on into `next` from `at` on.
#[inline(always)]
fn clear_run(
    order: Order,
    v: u8x32,
    place: usize,
    factor: u8,
    all: &[u8],
    rows: &[u8],
    from: usize,
    count: usize,
    next: &mut [u8],
    at: usize,
)
    requires pivot { IsPivot order v place factor all.now }
    requires from { 32 * (from + count) ≤ length rows.now }
    requires at { 32 * (at + count) ≤ length next.old }
    requires lanes { (j : ℕ) → j < count → IsLanes order (row_at rows.now (from + j)) }
    ensures size { length next.new ≡ length next.old }
    ensures done { (j : ℕ) → j < count → IsCleared order v place factor
        (row_at rows.now (from + j)) (row_at next.new (at + j)) }
    ensures before { (j : ℕ) → j < at → row_at next.new j ≡ row_at next.old j }
{
    for j in 0..count {
        let lane = rows[32 * (from + j) + place];
        let w = cleared(order, v, place, factor, all, read_row(rows, from + j), lane);
        put_row(next, at + j, w);
    }
}

// Clears all rows that may follow: `kept` of the first coordinate behind its first row, and `width`
// of each other.
fn clear_all(
    order: Order,
    place: usize,
    rows: &[u8],
    first: usize,
    others: usize,
    each: usize,
    kept: usize,
    width: usize,
    next: &mut [u8],
    all: &mut [u8],
)
    requires laid { IsLaid order rows.now first others each }
    requires kept { kept < first }
    requires width { width ≤ each }
    requires room { length next.old ≡ 32 * (kept + others * width) }
    requires multiples { 288 ≤ length all.old }
    requires place { place < 32 }
    requires some_digit { digit_at order (row_at rows.now 0) place ≢ 0 }
    ensures size { length next.new ≡ length next.old }
    ensures multiples { length all.new ≡ length all.old }
    ensures left { IsLeft order rows.now first others each place next.new kept width }
{
    let v = read_row(rows, 0);
    let factor = factor_of(order, rows[place]);
    fill_multiples(order, v, all);
    clear_run(order, v, place, factor, all, rows, 1, kept, next, 0);
    for i in 0..others {
        clear_run(
            order,
            v,
            place,
            factor,
            all,
            rows,
            first + i * each,
            width,
            next,
            kept + i * width,
        );
    }
}

// Whether something is left of row `j`, once it is cleared.
#[inline(always)]
fn is_left(
    order: Order,
    v: u8x32,
    place: usize,
    factor: u8,
    all: &[u8],
    rows: &[u8],
    j: usize,
) -> bool
    requires pivot { IsPivot order v place factor all.now }
    requires within { 32 * j + 32 ≤ length rows.now }
    requires lanes { IsLanes order (row_at rows.now j) }
    requires first { v ≡ row_at rows.now 0 }
    ensures left { OnTrue result (SomeLeft order rows.now place j) }
    ensures none { OnFalse result (NoneLeft order rows.now place j) }
{
    let lane = rows[32 * j + place];
    let w = cleared(order, v, place, factor, all, read_row(rows, j), lane);
    match first_nonzero(w) {
        Some(_) => true,
        None => false,
    }
}

// The last coordinate of whose row that may come next nothing is left, once it is cleared.
#[inline(always)]
fn last_gone(
    order: Order,
    place: usize,
    rows: &[u8],
    first: usize,
    others: usize,
    each: usize,
    all: &mut [u8],
) -> Option<usize>
    requires laid { IsLaid order rows.now first others each }
    requires some { 0 < first }
    requires multiples { 288 ≤ length all.old }
    requires place { place < 32 }
    requires some_digit { digit_at order (row_at rows.now 0) place ≢ 0 }
    ensures multiples { length all.new ≡ length all.old }
    ensures gone { MatchOption result (AreLeft order rows.now first others each place 0)
        (IsLastGone order rows.now first others each place) }
{
    let v = read_row(rows, 0);
    let factor = factor_of(order, rows[place]);
    fill_multiples(order, v, all);
    let mut i = if each == 0 { 0 } else { others };
    while i > 0 {
        let j = first + (i - 1) * each;
        if !is_left(order, v, place, factor, all, rows, j) {
            return Some(i);
        }
        i -= 1;
    }
    if first > 1 && !is_left(order, v, place, factor, all, rows, 1) {
        return Some(0);
    }
    None
}

// As `walk_first`, for choices of at most two rows, where the first row is not zero.
#[inline(always)]
fn walk_pairs(
    order: Order,
    place: usize,
    rows: &[u8],
    first: usize,
    others: usize,
    each: usize,
    sizes: &mut [u8],
    all: &mut [u8],
) -> bool
    requires laid { IsLaid order rows.now first others each }
    requires some { 0 < first }
    requires sizes { length sizes.old ≡ 1 + others }
    requires multiples { 288 ≤ length all.old }
    requires place { place < 32 }
    requires some_digit { digit_at order (row_at rows.now 0) place ≢ 0 }
    requires others { OthersIndependent order
        (rows_by (digits_in order rows.now first each)) first others each 2 }
    ensures independent { OnTrue result (AllIndependent order
        (rows_by (digits_in order rows.now first each)) first others each 2) }
    ensures found { OnFalse result (IsFound order
        (rows_by (digits_in order rows.now first each)) first others each 2 sizes.new) }
    ensures size { length sizes.new ≡ length sizes.old }
    ensures multiples { length all.new ≡ length all.old }
{
    let Some(i) = last_gone(order, place, rows, first, others, each, all) else {
        return true;
    };
    sizes.fill(0);
    sizes[i] = 1;
    sizes[0] += 1;
    false
}

// As `walk`, where each choice without a row of the first coordinate is known to be independent.
#[cycle(walking)]
#[inline(always)]
fn walk_first(
    order: Order,
    rows: &[u8],
    first: usize,
    others: usize,
    each: usize,
    n: usize,
    sizes: &mut [u8],
    room: &mut [u8],
    all: &mut [u8],
) -> bool
    requires laid { IsLaid order rows.now first others each }
    requires some { 0 < n }
    requires few { n < 256 }
    requires sizes { length sizes.old ≡ 1 + others }
    requires room { (n - 1) * length rows.now ≤ length room.old }
    requires multiples { 288 ≤ length all.old }
    requires others { OthersIndependent order
        (rows_by (digits_in order rows.now first each)) first others each n }
    ensures independent { OnTrue result (AllIndependent order
        (rows_by (digits_in order rows.now first each)) first others each n) }
    ensures found { OnFalse result (IsFound order
        (rows_by (digits_in order rows.now first each)) first others each n sizes.new) }
    ensures size { length sizes.new ≡ length sizes.old }
{
    if first == 0 {
        return true;
    }
    let Some(place) = first_nonzero(read_row(rows, 0)) else {
        sizes.fill(0);
        sizes[0] = 1;
        return false;
    };
    if n == 1 {
        return true;
    }
    if n == 2 {
        return walk_pairs(order, place, rows, first, others, each, sizes, all);
    }
    let kept = (first - 1).min(n - 1);
    let width = each.min(n - 1);
    let (next, rest) = room.split_at_mut(32 * (kept + others * width));
    clear_all(
        order, place, rows, first, others, each, kept, width, next, all,
    );
    if walk(order, next, kept, others, width, n - 1, sizes, rest, all) {
        return true;
    }
    sizes[0] += 1;
    false
}

// Where the rows of coordinate `i` begin.
#[inline(always)]
fn start(first: usize, each: usize, i: usize) -> usize
    requires { start_of first each i < 2 ^ 64 }
    ensures { result ≡ start_of first each i }
{
    if i == 0 { 0 } else { first + (i - 1) * each }
}

// The rows from coordinate `i` on.
#[inline(always)]
fn rows_from(rows: &[u8], first: usize, each: usize, i: usize) -> &[u8]
    requires { 32 * start_of first each i ≤ length rows.now }
    ensures { result.now ≡ drop (32 * start_of first each i) rows.now }
{
    &rows[32 * start(first, each, i)..]
}

// How many rows coordinate `i` has.
#[inline(always)]
fn count(first: usize, each: usize, i: usize) -> usize
    ensures { result ≡ count_of first each i }
{
    if i == 0 { first } else { each }
}

// Whether each choice of at most `n` rows is independent. Else it writes the sizes of that with the
// least list that is not.
//
// What is left of the rows, once a choice's first is cleared, goes to the front of `room`.
#[cycle(walking)]
pub(crate) fn walk(
    order: Order,
    rows: &[u8],
    first: usize,
    others: usize,
    each: usize,
    n: usize,
    sizes: &mut [u8],
    room: &mut [u8],
    all: &mut [u8],
) -> bool
    requires laid { IsLaid order rows.now first others each }
    requires few { n < 256 }
    requires sizes { length sizes.old ≡ 1 + others }
    requires room { (n - 1) * length rows.now ≤ length room.old }
    requires multiples { 288 ≤ length all.old }
    ensures independent { OnTrue result (AllIndependent order
        (rows_by (digits_in order rows.now first each)) first others each n) }
    ensures found { OnFalse result (IsFound order
        (rows_by (digits_in order rows.now first each)) first others each n sizes.new) }
    ensures size { length sizes.new ≡ length sizes.old }
{
    if n == 0 {
        return true;
    }
    let mut i = others + 1;
    while i > 0 {
        i -= 1;
        let rest = rows_from(rows, first, each, i);
        let own = count(first, each, i);
        if !walk_first(
            order,
            rest,
            own,
            others - i,
            each,
            n,
            &mut sizes[i..],
            room,
            all,
        ) {
            sizes[..i].fill(0);
            return false;
        }
    }
    true
}
