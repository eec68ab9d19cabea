//! Small systems, worked out by hand.
ghost use Rattle.std.specs.Prelude.{◌≡◌, ◌<◌, IfOk};

use super::*;
use mt_linear::Order;
use mt_system::System;
use std::alloc::Global;
use std::process::Abort;
use std::test::Fail;

// A system of `m` columns and `s` coordinates of `depth` rows.
fn system_of(
    alloc: Global,
    order: Order,
    m: u8,
    s: u8,
    depth: u8,
    digits: &[u8],
) -> Result<System, Fail>
    requires columns { 0 < m }
    requires coordinates { 0 < s }
    requires rows { 0 < depth }
    ensures order { IfOk result (λ a. a.order ≡ order) }
    ensures columns { IfOk result (λ a. a.columns ≡ m) }
    ensures coordinates { IfOk result (λ a. a.coordinates ≡ s) }
    ensures rows { IfOk result (λ a. a.depth ≡ depth) }
{
    let digits = Vec::from_slice(alloc, digits)?;
    match System::new(order, m, s, depth, digits) {
        Ok(system) => Ok(system),
        Err(_) => Err("no system".into()),
    }
}

// `sizes` are the columns, the coordinates and the rows of each.
fn assert_is(rt: &impl Abort, system: &System, sizes: (u8, u8, u8), digits: &[u8]) {
    assert_eq!(rt; (system.m(), system.s(), system.depth()), sizes);
    assert_eq!(rt; system.digits(), digits);
}

#[test]
fn uuv_with_itself(rt: HostRuntime) -> Result<(), Fail> {
    let alloc = rt.alloc();
    let one = system_of(alloc, Order::Q3, 1, 1, 1, &[1])?;
    assert_is(&rt, &uuv(alloc, &one, &one)?, (2, 2, 1), &[1, 2, 0, 1]);
    Ok(())
}

#[test]
fn product_of_different_depths(rt: HostRuntime) -> Result<(), Fail> {
    let alloc = rt.alloc();
    let a = system_of(alloc, Order::Q2, 1, 1, 1, &[1])?;
    let b = system_of(alloc, Order::Q2, 2, 1, 2, &[1, 0, 0, 1])?;
    let wanted = [1, 0, 0, 0, 0, 0, 0, 1, 0, 0, 0, 1];
    assert_is(&rt, &product(alloc, &a, &b)?, (3, 2, 2), &wanted);
    Ok(())
}

#[test]
fn uuv_of_different_depths(rt: HostRuntime) -> Result<(), Fail> {
    let alloc = rt.alloc();
    let a = system_of(alloc, Order::Q2, 2, 1, 1, &[1, 1])?;
    let b = system_of(alloc, Order::Q2, 2, 2, 2, &[1, 0, 0, 1, 0, 1, 1, 1])?;
    let wanted = [
        1, 1, 1, 0, 0, 0, 0, 1, 0, 0, 1, 0, 0, 0, 0, 1, 0, 0, 0, 1, 0, 0, 1, 1,
    ];
    assert_is(&rt, &uuv(alloc, &a, &b)?, (4, 3, 2), &wanted);
    Ok(())
}
