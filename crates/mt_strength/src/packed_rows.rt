// The rows of a system as rows of bytes.
ghost use Rattle.std.specs.Prelude.{◌≡◌, ◌+◌, ◌*◌, ◌-◌, ◌<◌, ◌≤◌, length, slice_index, IfOk};
ghost use Rattle.mt_linear.specs.Field.{number_of};
ghost use Rattle.mt_linear.specs.Linear.{AllElements};
ghost use Rattle.mt_strength.specs.Lanes.{lane_of, HasLanes};
ghost use Rattle.mt_strength.specs.PackedRows.{IsPacked};

use crate::byte_rows::put_row;
use mt_linear::Order;
use mt_system::System;
use std::alloc::{AllocError, Global};
use std::simd::prelude::*;

fn lane(order: Order, digit: u8) -> u8
    requires { digit < number_of order }
    ensures { result ≡ lane_of order digit }
{
    match order {
        Order::Q9 => digit % 3 + 8 * (digit / 3),
        Order::Q2 | Order::Q3 | Order::Q4 | Order::Q5 | Order::Q7 | Order::Q8 => digit,
    }
}

fn lanes_of(order: Order, digits: &[u8]) -> u8x32
    requires few { length digits.now ≤ 32 }
    requires elements { AllElements order digits.now }
    ensures { HasLanes result (λ k. lane_of order (slice_index digits.now k)) }
{
    let mut lanes = [0u8; 32];
    for k in 0..digits.len() {
        lanes[k] = lane(order, digits[k]);
    }
    u8x32::from_array(lanes)
}

// Puts the first `width` digits of the first `each` rows of coordinate `i`, counted from 1, behind
// those before.
fn put_rows(system: &System, width: u8, each: u8, i: u8, rows: &mut [u8])
    requires narrow { width ≤ system.now.columns }
    requires lanes { width ≤ 32 }
    requires few { each ≤ system.now.depth }
    requires coordinate_from { 0 < i }
    requires coordinate_to { i ≤ system.now.coordinates }
    requires size { length rows.old ≡ 32 * (system.now.coordinates * each) }
    requires before { IsPacked system.now width each (i - 1) rows.old }
    ensures size { length rows.new ≡ length rows.old }
    ensures packed { IsPacked system.now width each i rows.new }
{
    for j in 0..each {
        let row = system.row(i, j + 1);
        let v = lanes_of(system.order(), &row[..width as usize]);
        put_row(rows, (i as usize - 1) * each as usize + j as usize, v);
    }
}

// The first `width` digits of the first `each` rows of all coordinates.
pub(crate) fn packed(
    alloc: Global,
    system: &System,
    width: u8,
    each: u8,
) -> Result<Vec<u8>, AllocError>
    requires narrow { width ≤ system.now.columns }
    requires lanes { width ≤ 32 }
    requires few { each ≤ system.now.depth }
    ensures size { IfOk result (λ v. length v.items ≡ 32 * (system.now.coordinates * each)) }
    ensures packed { IfOk result (λ v.
        IsPacked system.now width each system.now.coordinates v.items) }
{
    let mut rows = vec![in alloc; 0u8; 32 * (system.s() as usize * each as usize)]?;
    for i in 0..system.s() {
        put_rows(system, width, each, i + 1, &mut rows);
    }
    Ok(rows)
}
