//! Values that a plain program computed.
use super::*;
use mt_linear::Order;
use std::test::Fail;

#[test]
fn first_qualities_of_order_two(rt: HostRuntime) -> Result<(), Fail> {
    let alloc = rt.alloc();
    let wanted = [0u32, 0, 1, 3, 5, 8, 11, 14];
    for (i, t) in wanted.iter().enumerate() {
        assert_eq!(rt; quality(alloc, Order::Q2, i as u8 + 1)?, *t);
    }
    assert_eq!(rt;
        qualities(alloc, Order::Q2, 8)?.as_slice(),
        wanted.as_slice()
    );
    assert_eq!(rt; quality(alloc, Order::Q2, 0)?, 0);
    Ok(())
}

#[test]
fn three_coordinates_of_order_three(rt: HostRuntime) -> Result<(), Fail> {
    let alloc = rt.alloc();
    let system = matrices(alloc, Order::Q3, 2, 3)?;
    assert_eq!(rt;
        (system.order(), system.m(), system.s(), system.depth()),
        (Order::Q3, 2, 3, 2)
    );
    assert_eq!(rt;
        system.digits(),
        [1u8, 0, 0, 1, 1, 2, 0, 1, 1, 1, 0, 1].as_slice()
    );
    Ok(())
}

#[test]
fn three_coordinates_of_order_two(rt: HostRuntime) -> Result<(), Fail> {
    let alloc = rt.alloc();
    let system = matrices(alloc, Order::Q2, 3, 3)?;
    let first = [1u8, 0, 0, 0, 1, 0, 0, 0, 1];
    let second = [1u8, 1, 1, 0, 1, 0, 0, 0, 1];
    let third = [0u8, 1, 1, 1, 1, 0, 0, 0, 0];
    assert_eq!(rt; &system.digits()[..9], first.as_slice());
    assert_eq!(rt; &system.digits()[9..18], second.as_slice());
    assert_eq!(rt; &system.digits()[18..], third.as_slice());
    Ok(())
}
