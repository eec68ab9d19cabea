// The one combination to zero of rows of which the last depends on the others.
ghost use Rattle.std.specs.Prelude.{◌≡◌, ◌+◌, ◌-◌, ◌<◌, ◌≤◌, length, take, IfOk, OnOk, MatchOption};
ghost use Rattle.mt_linear.specs.Linear.{Independent};
ghost use Rattle.mt_strength.specs.Dependence.{lists_of, AllOf, IsRelation};

use mt_linear::{Basis, Inserted, Order, Steps, Vector, negated};
use std::alloc::{AllocError, Global};
use std::marker::Brand;
use std::sync::ledger::{Blank, Ledger};

// The coefficients of the one combination to zero, where the last row depends on the others.
// Each row is one step at most.
pub(crate) fn dependence<L: Ledger>(
    alloc: Global,
    order: Order,
    m: u8,
    rows: &[Vector],
    steps: &mut Steps<L>,
) -> Result<Option<Vector>, AllocError>
    requires all { AllOf order m rows.now }
    requires prefix { Independent order (take (length rows.now - 1) (lists_of rows.now)) }
    ensures independent { IfOk result (λ r. MatchOption r
        (Independent order (lists_of rows.now))
        (λ c. (c.order ≡ order) × IsRelation order (lists_of rows.now) c.digits)) }
    ensures steps { OnOk result (steps.new ≤ steps.old + length rows.now) }
{
    let mut basis = Basis::new(alloc, order, m)?;
    for row in rows {
        match basis.insert(alloc, row, steps)? {
            Inserted::Fresh => {}
            Inserted::Depends(coefficients) => {
                let digits = Vec::from_slice(alloc, coefficients.digits())?;
                let mut digits = negated(order, digits);
                digits.push(1)?;
                return Ok(Some(Vector::of_elements(order, digits)));
            }
        }
    }
    Ok(None)
}

// The same, by steps of this ledger.
fn dependence_by<L: Ledger>(
    alloc: Global,
    order: Order,
    m: u8,
    rows: &[Vector],
    blank: Blank,
) -> Result<Option<Vector>, AllocError>
    requires name { blank.name ≡ L.name }
    requires parts { blank.parts ≡ L.parts }
    requires some { 0 < L.parts }
    requires all { AllOf order m rows.now }
    requires prefix { Independent order (take (length rows.now - 1) (lists_of rows.now)) }
    ensures { IfOk result (λ r. MatchOption r
        (Independent order (lists_of rows.now))
        (λ c. (c.order ≡ order) × IsRelation order (lists_of rows.now) c.digits)) }
{
    let mut steps = Steps::<L>::of(blank);
    dependence(alloc, order, m, rows, &mut steps)
}

// The same, by steps that nobody counts.
pub(crate) fn uncounted_dependence(
    alloc: Global,
    order: Order,
    m: u8,
    rows: &[Vector],
) -> Result<Option<Vector>, AllocError>
    requires all { AllOf order m rows.now }
    requires prefix { Independent order (take (length rows.now - 1) (lists_of rows.now)) }
    ensures { IfOk result (λ r. MatchOption r
        (Independent order (lists_of rows.now))
        (λ c. (c.order ≡ order) × IsRelation order (lists_of rows.now) c.digits)) }
{
    dependence_by::<Brand>(alloc, order, m, rows, Blank::new(1))
}
