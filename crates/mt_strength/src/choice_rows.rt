// The rows of a choice.
ghost use Rattle.std.specs.Prelude.{◌≡◌, ◌++◌, ◌-◌, ◌<◌, ◌≤◌, IfOk, OnOk};
ghost use Rattle.mt_system.specs.Choices.{IsChoice};
ghost use Rattle.mt_system.specs.Rows.{rows_by, part_rows, first_rows};
ghost use Rattle.mt_strength.specs.Dependence.{lists_of, AllOf};

use mt_linear::Vector;
use mt_system::{Choice, System};
use std::alloc::{AllocError, Global};

// Adds the first `width` digits of the first `count` rows of coordinate `i`, counted from 1.
fn push_rows(
    alloc: Global,
    system: &System,
    width: u8,
    i: u8,
    count: u8,
    rows: &mut Vec<Vector>,
) -> Result<(), AllocError>
    requires narrow { width ≤ system.now.columns }
    requires coordinate_from { 0 < i }
    requires coordinate_to { i ≤ system.now.coordinates }
    requires few { count ≤ system.now.depth }
    requires all { AllOf system.now.order width rows.old.items }
    ensures added { OnOk result (lists_of rows.new.items ≡ lists_of rows.old.items
        ++ first_rows (part_rows system.now width (i - 1)) count) }
    ensures all { AllOf system.now.order width rows.new.items }
{
    for j in 0..count {
        let row = system.row(i, j + 1);
        let digits = Vec::from_slice(alloc, &row[..width as usize])?;
        rows.push(Vector::of_elements(system.order(), digits))?;
    }
    Ok(())
}

// The first `width` digits of the rows of a choice, by coordinate and then by row.
pub(crate) fn choice_rows(
    alloc: Global,
    system: &System,
    width: u8,
    depth: u8,
    choice: &Choice,
) -> Result<Vec<Vector>, AllocError>
    requires narrow { width ≤ system.now.columns }
    requires few { depth ≤ system.now.depth }
    requires choice { IsChoice system.now.coordinates depth choice.now }
    ensures rows { IfOk result (λ r. lists_of r.items
        ≡ rows_by (part_rows system.now width) choice.now) }
    ensures all { IfOk result (λ r. AllOf system.now.order width r.items) }
{
    let mut rows = Vec::new(alloc);
    let sizes = choice.sizes();
    for i in 0..sizes.len() {
        push_rows(alloc, system, width, (i + 1) as u8, sizes[i], &mut rows)?;
    }
    Ok(rows)
}
