// A row whose multiples clear one place of other rows.
ghost use Rattle.std.specs.Prelude.{◌≡◌, ◌≢◌, ℕ, ◌+◌, ◌*◌, ◌-◌, ◌<◌, ◌≤◌, length, slice_index};
ghost use Rattle.mt_linear.specs.Field.{number_of, prime_of, add_of, mul_of, neg_of, inv_of};
ghost use Rattle.mt_strength.specs.Lanes.{row_at, lane_of, digit_of, digit_at, IsLane, IsLanes, HasLanes};
ghost use Rattle.mt_strength.specs.Pivots.{HasMultiples, IsPivot, IsCleared};

use crate::byte_rows::{put_row, read_row};
use crate::lanes::{added, times_x};
use mt_linear::Order;
use std::simd::prelude::*;

#[inline(always)]
fn prime(order: Order) -> usize
    ensures { result ≡ prime_of order }
{
    match order {
        Order::Q2 | Order::Q4 | Order::Q8 => 2,
        Order::Q3 | Order::Q9 => 3,
        Order::Q5 => 5,
        Order::Q7 => 7,
    }
}

#[inline(always)]
fn digit(order: Order, lane: u8) -> u8
    requires { IsLane order lane }
    ensures value { result ≡ digit_of order lane }
    ensures element { result < number_of order }
{
    match order {
        Order::Q9 => lane % 8 + 3 * (lane / 8),
        Order::Q2 | Order::Q3 | Order::Q4 | Order::Q5 | Order::Q7 | Order::Q8 => lane,
    }
}

// Puts all multiples of `v`, each at its factor.
#[inline(always)]
pub(crate) fn fill_multiples(order: Order, v: u8x32, all: &mut [u8])
    requires lanes { IsLanes order v }
    requires room { 288 ≤ length all.old }
    ensures size { length all.new ≡ length all.old }
    ensures multiples { HasMultiples order v all.new }
{
    let prime = prime(order);
    put_row(all, 0, u8x32::splat(0));
    let mut high = 0;
    let mut low = 0;
    for passed in 0..order.number() as usize - 1 {
        low += 1;
        let next = if low == prime {
            low = 0;
            high += 1;
            times_x(order, read_row(all, high))
        } else {
            added(order, read_row(all, passed), v)
        };
        put_row(all, passed + 1, next);
    }
}

// With this factor the digit of `lane` is cleared.
#[inline(always)]
pub(crate) fn factor_of(order: Order, lane: u8) -> u8
    requires lane { IsLane order lane }
    requires some { digit_of order lane ≢ 0 }
    ensures { result ≡ neg_of order (inv_of order (digit_of order lane)) }
{
    order.neg(order.inv(digit(order, lane)))
}

// The row less its part in `v`, where `lane` is the row's byte at the place.
#[inline(always)]
pub(crate) fn cleared(
    order: Order,
    v: u8x32,
    place: usize,
    factor: u8,
    all: &[u8],
    row: u8x32,
    lane: u8,
) -> u8x32
    requires pivot { IsPivot order v place factor all.now }
    requires row { IsLanes order row }
    requires lane { lane ≡ slice_index row place }
    ensures { IsCleared order v place factor row result }
{
    let _pivot = (v, place);
    added(
        order,
        row,
        read_row(all, order.mul(digit(order, lane), factor) as usize),
    )
}
