// Rows of up to 32 digits as vectors of bytes.
ghost use Rattle.std.specs.Prelude.{◌≡◌, ◌≢◌, ℕ, ◌+◌, ◌*◌, ◌-◌, ◌<◌, ◌%◌, ◌≤◌, length, slice_index, slice_index_or, [], MatchOption, bit_xor, bit_and};
ghost use Rattle.mt_linear.specs.declared.order.Order.{Order};
ghost use Rattle.mt_linear.specs.Field.{number_of, prime_of, add_of, mul_of};
ghost use Rattle.mt_strength.specs.Lanes.{lane_of, digit_of, digit_at, IsLane, IsLanes, HasLanes, double, fold, sum_of_nine, times_x_of_nine};

use mt_linear::Order;
use std::simd::prelude::*;

// One multiple of `p` less, where a lane is `p` or more.
#[inline(always)]
fn folded(v: u8x32, p: u8) -> u8x32
    ensures { HasLanes result (λ k. fold p (slice_index v k)) }
{
    v.simd_min(v - u8x32::splat(p))
}

#[inline(always)]
fn xored(x: u8x32, y: u8x32) -> u8x32
    ensures { HasLanes result (λ k. bit_xor (slice_index x k) (slice_index y k)) }
{
    x ^ y
}

// The sums modulo `p`.
#[inline(always)]
fn summed(x: u8x32, y: u8x32, p: u8) -> u8x32
    ensures { HasLanes result (λ k. fold p ((slice_index x k + slice_index y k) % 256)) }
{
    folded(x + y, p)
}

// The three lowest bits.
#[inline(always)]
fn low_three(v: u8x32) -> u8x32
    ensures { HasLanes result (λ k. bit_and (slice_index v k) 7) }
{
    v & u8x32::splat(7)
}

// The sums over 9.
#[inline(always)]
fn summed_nine(x: u8x32, y: u8x32) -> u8x32
    ensures { HasLanes result (λ k. sum_of_nine (slice_index x k) (slice_index y k)) }
{
    let sums = summed(x, y, 24);
    let low = low_three(sums);
    sums - low + folded(low, 3)
}

// Twice the lanes, and `modulus` taken away by digits in base 2 where that makes them less.
#[inline(always)]
fn doubled(v: u8x32, modulus: u8) -> u8x32
    ensures { HasLanes result (λ k. double modulus (slice_index v k)) }
{
    let twice = v + v;
    twice.simd_min(twice ^ u8x32::splat(modulus))
}

#[inline(always)]
fn turned_nine(v: u8x32) -> u8x32
    ensures { HasLanes result (λ k. times_x_of_nine (slice_index v k)) }
{
    let high = v >> 3;
    (low_three(v) << 3) + summed(high, high, 3)
}

#[inline(always)]
pub(crate) fn added(order: Order, x: u8x32, y: u8x32) -> u8x32
    requires x { IsLanes order x }
    requires y { IsLanes order y }
    ensures { HasLanes result (λ k.
        lane_of order (add_of order (digit_at order x k) (digit_at order y k))) }
{
    match order {
        Order::Q2 | Order::Q4 | Order::Q8 => xored(x, y),
        Order::Q3 => summed(x, y, 3),
        Order::Q5 => summed(x, y, 5),
        Order::Q7 => summed(x, y, 7),
        Order::Q9 => summed_nine(x, y),
    }
}

// The products with `x`, over 4, 8 and 9.
#[inline(always)]
pub(crate) fn times_x(order: Order, v: u8x32) -> u8x32
    requires lanes { IsLanes order v }
    requires extension { prime_of order < number_of order }
    ensures { HasLanes result (λ k.
        lane_of order (mul_of order (prime_of order) (digit_at order v k))) }
{
    match order {
        Order::Q4 => doubled(v, 7),
        Order::Q8 => doubled(v, 11),
        Order::Q9 => turned_nine(v),
        Order::Q2 | Order::Q3 | Order::Q5 | Order::Q7 => v,
    }
}

// The place of the first lane that is not 0.
#[inline(always)]
pub(crate) fn first_nonzero(v: u8x32) -> Option<usize>
    ensures { MatchOption result ((k : ℕ) → slice_index v k ≡ 0)
        (λ p. (p < 32) × (slice_index v p ≢ 0)) }
{
    let mask = v.simd_ne(u8x32::splat(0)).to_bitmask();
    if mask == 0 {
        None
    } else {
        Some(mask.trailing_zeros() as usize)
    }
}
