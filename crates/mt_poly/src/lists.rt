//! Lists of coefficients, the constant first. Past the end they read as 0.
ghost use Rattle.std.specs.Prelude.{◌≡◌, ◌≢◌, ℕ, ◌+◌, ◌-◌, ◌<◌, ◌≤◌, length, slice_index, IfOk};
ghost use Rattle.mt_linear.specs.Field.{add_of, mul_of, number_of};
ghost use Rattle.mt_linear.specs.Linear.{AllElements};
ghost use Rattle.mt_poly.specs.Polynomials.{IsProduct, product_at};

use mt_linear::Order;
use std::alloc::{AllocError, Global};

// Coefficient `i`.
pub fn at(list: &[u8], i: usize) -> u8
    ensures { result ≡ slice_index list.now i }
{
    if i < list.len() { list[i] } else { 0 }
}

// The length without the zeros at the end.
pub fn trimmed_length(list: &[u8]) -> usize
    ensures zeros { (i : ℕ) → result ≤ i → slice_index list.now i ≡ 0 }
    ensures lead { 0 < result → slice_index list.now (result - 1) ≢ 0 }
    ensures within { result ≤ length list.now }
{
    let mut end = list.len();
    while end > 0 {
        if list[end - 1] != 0 {
            return end;
        }
        end -= 1;
    }
    0
}

// Adds `factor` times `source` to `target`, as far as `target` goes.
pub fn add_multiple(order: Order, target: &mut [u8], factor: u8, source: &[u8])
    requires factor_in { factor < number_of order }
    requires target_in { AllElements order target.old }
    requires source_in { AllElements order source.now }
    ensures sum { (i : ℕ) → i < length target.old → slice_index target.new i
        ≡ add_of order (slice_index target.old i) (mul_of order factor (slice_index source.now i)) }
    ensures elements { AllElements order target.new }
{
    for i in 0..target.len() {
        target[i] = order.add(target[i], order.mul(factor, at(source, i)));
    }
}

// Adds `factor` times `source` to `target` from `place` on.
pub fn add_multiple_at(order: Order, target: &mut [u8], place: usize, factor: u8, source: &[u8])
    requires factor_in { factor < number_of order }
    requires target_in { AllElements order target.old }
    requires source_in { AllElements order source.now }
    requires room { place + length source.now ≤ length target.old }
    ensures before { (i : ℕ) → i < place → slice_index target.new i ≡ slice_index target.old i }
    ensures sum { (i : ℕ) → slice_index target.new (place + i) ≡ add_of order
        (slice_index target.old (place + i)) (mul_of order factor (slice_index source.now i)) }
    ensures elements { AllElements order target.new }
{
    for i in 0..source.len() {
        let sum = order.add(target[place + i], order.mul(factor, source[i]));
        target[place + i] = sum;
    }
}

// `a`, and `factor` times `b`.
pub fn with_multiple(
    alloc: Global,
    order: Order,
    a: &[u8],
    factor: u8,
    b: &[u8],
) -> Result<Vec<u8>, AllocError>
    requires factor_in { factor < number_of order }
    requires left { AllElements order a.now }
    requires right { AllElements order b.now }
    ensures sum { IfOk result (λ v. (i : ℕ) → slice_index v.items i
        ≡ add_of order (slice_index a.now i) (mul_of order factor (slice_index b.now i))) }
    ensures elements { IfOk result (λ v. AllElements order v.items) }
{
    let length = if a.len() < b.len() { b.len() } else { a.len() };
    let mut sum = Vec::with_capacity(alloc, length)?;
    for i in 0..length {
        sum.push(order.add(at(a, i), order.mul(factor, at(b, i))))?;
    }
    Ok(sum)
}

// Coefficient `n` of the product.
pub fn coefficient(order: Order, a: &[u8], b: &[u8], n: usize) -> u8
    requires room { n < length a.now + length b.now }
    requires left { AllElements order a.now }
    requires right { AllElements order b.now }
    ensures value { result ≡ product_at order a.now b.now n }
    ensures element { result < number_of order }
{
    let mut sum = 0;
    for i in 0..n + 1 {
        sum = order.add(sum, order.mul(at(a, i), at(b, n - i)));
    }
    sum
}

// The product.
pub fn product(alloc: Global, order: Order, a: &[u8], b: &[u8]) -> Result<Vec<u8>, AllocError>
    requires left { AllElements order a.now }
    requires right { AllElements order b.now }
    ensures product { IfOk result (λ v. IsProduct order a.now b.now v.items) }
    ensures elements { IfOk result (λ v. AllElements order v.items) }
{
    let length = a.len() + b.len();
    let mut product = Vec::with_capacity(alloc, length)?;
    for n in 0..length {
        product.push(coefficient(order, a, b, n))?;
    }
    Ok(product)
}
