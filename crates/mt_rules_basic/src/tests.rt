//! Small systems, worked out by hand.
ghost use Rattle.std.specs.Prelude.{◌≡◌, ◌≢◌, ◌<◌, ℕ, slice_index, IfOk};
ghost use Rattle.mt_system.specs.Rows.{row_of};

use super::*;
use mt_linear::Order;
use mt_system::System;
use std::alloc::Global;
use std::process::Abort;
use std::test::Fail;

// A system of `m` columns and `s` coordinates of `depth` rows.
fn system_of(
    alloc: Global,
    order: Order,
    m: u8,
    s: u8,
    depth: u8,
    digits: &[u8],
) -> Result<System, Fail>
    requires columns { 0 < m }
    requires coordinates { 0 < s }
    requires rows { 0 < depth }
    ensures columns { IfOk result (λ a. a.columns ≡ m) }
    ensures coordinates { IfOk result (λ a. a.coordinates ≡ s) }
    ensures rows { IfOk result (λ a. a.depth ≡ depth) }
{
    let digits = Vec::from_slice(alloc, digits)?;
    match System::new(order, m, s, depth, digits) {
        Ok(system) => Ok(system),
        Err(_) => Err("no system".into()),
    }
}

// `sizes` are the columns, the coordinates and the rows of each.
fn assert_is(rt: &impl Abort, system: &System, sizes: (u8, u8, u8), digits: &[u8]) {
    assert_eq!(rt; (system.m(), system.s(), system.depth()), sizes);
    assert_eq!(rt; system.digits(), digits);
}

fn assert_pivot(rt: &impl Abort, parent: &System, column: usize)
    ensures { (c : ℕ) × (slice_index (row_of parent.now 0 0) c ≢ 0) }
{
    let (s, depth) = (parent.s(), parent.depth());
    assert!(rt; s > 0 && depth > 0);
    let first = parent.row(1, 1);
    assert!(rt; column < first.len());
    assert!(rt; first[column] != 0);
}

#[test]
fn axioms_by_hand(rt: HostRuntime) -> Result<(), Fail> {
    let alloc = rt.alloc();
    assert_is(&rt, &zero(alloc, Order::Q2, 1, 1, 1)?, (1, 1, 1), &[0]);
    assert_is(
        &rt,
        &constant(alloc, Order::Q3, 2, 2, 2)?,
        (2, 2, 2),
        &[1, 0, 0, 0, 1, 0, 0, 0],
    );
    assert_is(
        &rt,
        &identity(alloc, Order::Q3, 2)?,
        (2, 1, 2),
        &[1, 0, 0, 1],
    );
    assert_is(
        &rt,
        &parity(alloc, Order::Q2, 2)?,
        (2, 3, 1),
        &[1, 0, 0, 1, 1, 1],
    );
    Ok(())
}

#[test]
fn sizes_changed(rt: HostRuntime) -> Result<(), Fail> {
    let alloc = rt.alloc();
    let system = constant(alloc, Order::Q2, 2, 2, 1)?;
    let system = deeper(alloc, &system)?;
    assert_is(&rt, &system, (2, 2, 2), &[1, 0, 0, 0, 1, 0, 0, 0]);
    let system = longer(alloc, &system)?;
    let system = fewer(alloc, &system)?;
    assert_is(&rt, &system, (3, 1, 2), &[1, 0, 0, 0, 0, 0]);
    Ok(())
}

#[test]
fn quotients_by_a_first_column(rt: HostRuntime) -> Result<(), Fail> {
    let alloc = rt.alloc();
    let parent = system_of(alloc, Order::Q2, 2, 2, 2, &[1, 1, 0, 1, 1, 0, 0, 1])?;
    assert_pivot(&rt, &parent, 0);
    assert_is(&rt, &quotient_keep(alloc, &parent)?, (1, 2, 1), &[1, 1]);

    let parent = shallower(alloc, &parent)?;
    assert_pivot(&rt, &parent, 0);
    assert_is(&rt, &quotient_drop(alloc, &parent)?, (1, 1, 1), &[1]);
    Ok(())
}

#[test]
fn quotients_by_a_later_column(rt: HostRuntime) -> Result<(), Fail> {
    let alloc = rt.alloc();
    // the second row is reduced by 2 times the first, the third by 3 times the first
    let digits = [0, 2, 3, 1, 3, 3, 2, 1, 1, 0, 0, 1];
    let parent = system_of(alloc, Order::Q4, 3, 2, 2, &digits)?;
    assert_pivot(&rt, &parent, 1);
    assert_is(
        &rt,
        &quotient_keep(alloc, &parent)?,
        (2, 2, 1),
        &[1, 2, 2, 3],
    );

    // the second row is reduced by 8 times the first
    let parent = system_of(alloc, Order::Q9, 3, 2, 1, &[0, 3, 1, 4, 7, 2])?;
    assert_pivot(&rt, &parent, 1);
    assert_is(&rt, &quotient_drop(alloc, &parent)?, (2, 1, 1), &[4, 3]);
    Ok(())
}

#[test]
fn sequences_by_hand(rt: HostRuntime) -> Result<(), Fail> {
    let alloc = rt.alloc();
    let digits = [1, 2, 0, 0, 1, 2, 2, 2, 1, 2, 0, 1, 1, 1, 0, 0, 2, 2];
    let parent = system_of(alloc, Order::Q3, 3, 2, 3, &digits)?;
    assert_is(&rt, &seq_fewer(alloc, &parent)?, (3, 1, 3), &digits[..9]);
    assert_is(
        &rt,
        &seq_cut(alloc, &parent)?,
        (2, 2, 2),
        &[1, 2, 0, 1, 2, 0, 1, 1],
    );

    let net = seq_to_net(alloc, &parent)?;
    let wanted = [
        1, 2, 0, 0, 1, 2, 2, 2, 1, 2, 0, 1, 1, 1, 0, 0, 2, 2, 0, 0, 1, 0, 1, 0, 1, 0, 0,
    ];
    assert_is(&rt, &net, (3, 3, 3), &wanted);
    Ok(())
}
