//! Values from outside.
use super::*;
use mt_linear::Order;
use std::test::Fail;

#[test]
fn divisor_of_two_numbers(rt: HostRuntime) -> Result<(), Fail> {
    let alloc = rt.alloc();
    let square = Poly::of_number(alloc, Order::Q2, 5)?;
    let linear = Poly::of_number(alloc, Order::Q2, 3)?;
    assert_eq!(rt; square.coefficients(), [1u8, 0, 1].as_slice());
    assert_eq!(rt; linear.coefficients(), [1u8, 1].as_slice());
    assert_eq!(rt; linear.order(), Order::Q2);
    let found = gcd(alloc, &square, &linear)?;
    assert_eq!(rt; found.divisor.coefficients(), [1u8, 1].as_slice());
    Ok(())
}

#[test]
fn cube_by_a_linear_polynomial(rt: HostRuntime) -> Result<(), Fail> {
    let alloc = rt.alloc();
    let cube = Poly::of_number(alloc, Order::Q3, 27)?;
    let linear = Poly::of_number(alloc, Order::Q3, 4)?;
    let division = div_rem(alloc, &cube, &linear)?;
    assert_eq!(rt; division.quotient.coefficients(), [1u8, 2, 1].as_slice());
    assert_eq!(rt; division.remainder.coefficients(), [2u8].as_slice());
    let product = mul(alloc, &linear, &division.quotient)?;
    assert_eq!(rt; product.coefficients(), [1u8, 0, 0, 1].as_slice());
    Ok(())
}

#[test]
fn sum_loses_its_last_coefficient(rt: HostRuntime) -> Result<(), Fail> {
    let alloc = rt.alloc();
    let left = Poly::of_number(alloc, Order::Q3, 3)?;
    let right = Poly::of_number(alloc, Order::Q3, 7)?;
    let sum = add(alloc, &left, &right)?;
    assert_eq!(rt; sum.coefficients(), [1u8].as_slice());
    Ok(())
}

#[test]
fn first_five_of_order_two(rt: HostRuntime) -> Result<(), Fail> {
    let alloc = rt.alloc();
    let list = coprime_list(alloc, Order::Q2, 5)?;
    assert_eq!(rt; list.len(), 5);
    for (i, number) in [2u64, 3, 7, 11, 13].iter().enumerate() {
        let wanted = Poly::of_number(alloc, Order::Q2, *number)?;
        assert_eq!(rt; list[i].coefficients(), wanted.coefficients());
    }
    Ok(())
}

#[test]
fn first_four_of_order_three(rt: HostRuntime) -> Result<(), Fail> {
    let alloc = rt.alloc();
    let list = coprime_list(alloc, Order::Q3, 4)?;
    assert_eq!(rt; list.len(), 4);
    for (i, number) in [3u64, 4, 5, 10].iter().enumerate() {
        let wanted = Poly::of_number(alloc, Order::Q3, *number)?;
        assert_eq!(rt; list[i].coefficients(), wanted.coefficients());
    }
    Ok(())
}
