//! A check whose elimination is shared: each choice is decided by one insertion more.
ghost use Rattle.std.specs.Prelude.{◌≡◌, true, ◌+◌, ◌-◌, ◌<◌, ◌≤◌, [], ◌∷◌, List, length, sum, replicate, slice_set, slice_index, IfOk, OnOk};
ghost use Rattle.mt_linear.specs.Linear.{Independent};
ghost use Rattle.mt_system.specs.Choices.{IsChoice};
ghost use Rattle.mt_system.specs.Counts.{number_of_choices};
ghost use Rattle.mt_system.specs.Rows.{rows_by, part_rows};
ghost use Rattle.mt_strength.specs.Dependence.{IsVector};
ghost use Rattle.mt_strength.specs.Verdicts.{IsVerdict, IsVerdictAmong};
ghost use Rattle.mt_strength.specs.CountedSearch.{rows_after, number_taken, IsSearched, IsSearchedBehind, IsSearchedWhole, IsLeastOf, most_search_steps, most_steps};

use crate::choice_rows::choice_rows;
use crate::dependence::dependence;
use crate::verdicts::Verdict;
use mt_linear::{Basis, Inserted, Steps, Vector};
use mt_system::{Choice, System};
use std::alloc::{AllocError, Global};
use std::sync::ledger::Ledger;

// The first `width` digits of row `j` of coordinate `i`, both counted from 1.
fn part_row(alloc: Global, system: &System, width: u8, i: u8, j: u8) -> Result<Vector, AllocError>
    requires narrow { width ≤ system.now.columns }
    requires coordinate_from { 0 < i }
    requires coordinate_to { i ≤ system.now.coordinates }
    requires row_from { 0 < j }
    requires row_to { j ≤ system.now.depth }
    ensures digits { IfOk result (λ v. v.digits ≡ part_rows system.now width (i - 1) (j - 1)) }
    ensures vector { IfOk result (IsVector system.now.order width) }
{
    let row = system.row(i, j);
    let digits = Vec::from_slice(alloc, &row[..width as usize])?;
    Ok(Vector::of_elements(system.order(), digits))
}

// The sizes of one row of the first coordinate alone.
fn take_one(sizes: &mut [u8])
    requires { 0 < length sizes.old }
    ensures { sizes.new ≡ 1 ∷ replicate (length sizes.old - 1) 0 }
{
    sizes.fill(0);
    sizes[0] = 1;
}

// Searches the choices of at most `n` rows from row `j` of coordinate `i` on, in the order of their
// lists of sizes, each with the vectors of the basis before it; answers whether all are independent.
#[cycle(searching)]
fn search<L: Ledger>(
    alloc: Global,
    system: &System,
    width: u8,
    depth: u8,
    i: u8,
    j: u8,
    n: u8,
    basis: &mut Basis,
    sizes: &mut [u8],
    steps: &mut Steps<L>,
) -> Result<bool, AllocError>
    requires narrow { width ≤ system.now.columns }
    requires few { depth ≤ system.now.depth }
    requires coordinate_from { 0 < i }
    requires coordinate_to { i ≤ system.now.coordinates }
    requires row { j ≤ depth }
    requires order { basis.old.order ≡ system.now.order }
    requires columns { basis.old.columns ≡ width }
    requires independent { Independent system.now.order basis.old.vectors }
    requires sizes { length sizes.old + i ≡ system.now.coordinates + 1 }
    ensures searched { IfOk result (IsSearched system.now.order
        (rows_after basis.old.vectors (part_rows system.now width) (i - 1) j)
        (depth - j) (system.now.coordinates - i) depth n sizes.new) }
    ensures basis { OnOk result (basis.new ≡ basis.old) }
    ensures steps { OnOk result (steps.new
        < steps.old + number_taken (depth - j) (system.now.coordinates - i) depth n) }
{
    if !search_behind(alloc, system, width, depth, i, j, n, basis, sizes, steps)? {
        return Ok(false);
    }
    if j == depth || n == 0 {
        return Ok(true);
    }
    search_with(alloc, system, width, depth, i, j, n, basis, sizes, steps)
}

// The choices without a row of coordinate `i`.
#[cycle(searching)]
fn search_behind<L: Ledger>(
    alloc: Global,
    system: &System,
    width: u8,
    depth: u8,
    i: u8,
    j: u8,
    n: u8,
    basis: &mut Basis,
    sizes: &mut [u8],
    steps: &mut Steps<L>,
) -> Result<bool, AllocError>
    requires narrow { width ≤ system.now.columns }
    requires few { depth ≤ system.now.depth }
    requires coordinate_from { 0 < i }
    requires coordinate_to { i ≤ system.now.coordinates }
    requires row { j ≤ depth }
    requires order { basis.old.order ≡ system.now.order }
    requires columns { basis.old.columns ≡ width }
    requires independent { Independent system.now.order basis.old.vectors }
    requires sizes { length sizes.old + i ≡ system.now.coordinates + 1 }
    ensures searched { IfOk result (IsSearchedBehind system.now.order
        (rows_after basis.old.vectors (part_rows system.now width) (i - 1) j)
        (depth - j) (system.now.coordinates - i) depth n sizes.new) }
    ensures basis { OnOk result (basis.new ≡ basis.old) }
    ensures steps { OnOk result (steps.new
        < steps.old + number_of_choices (system.now.coordinates - i) depth n) }
{
    let s = system.s();
    if i == s {
        return Ok(true);
    }
    let others = &mut sizes[1..];
    let holds = search(
        alloc,
        system,
        width,
        depth,
        i + 1,
        0,
        n,
        basis,
        others,
        steps,
    )?;
    sizes[0] = 0;
    Ok(holds)
}

// The choices with a row of coordinate `i`, once those without are independent.
#[cycle(searching)]
fn search_with<L: Ledger>(
    alloc: Global,
    system: &System,
    width: u8,
    depth: u8,
    i: u8,
    j: u8,
    n: u8,
    basis: &mut Basis,
    sizes: &mut [u8],
    steps: &mut Steps<L>,
) -> Result<bool, AllocError>
    requires narrow { width ≤ system.now.columns }
    requires few { depth ≤ system.now.depth }
    requires coordinate_from { 0 < i }
    requires coordinate_to { i ≤ system.now.coordinates }
    requires row { j < depth }
    requires some { 0 < n }
    requires order { basis.old.order ≡ system.now.order }
    requires columns { basis.old.columns ≡ width }
    requires independent { Independent system.now.order basis.old.vectors }
    requires sizes { length sizes.old + i ≡ system.now.coordinates + 1 }
    requires behind { IsSearchedBehind system.now.order
        (rows_after basis.old.vectors (part_rows system.now width) (i - 1) j)
        (depth - j) (system.now.coordinates - i) depth n sizes.old true }
    ensures searched { IfOk result (IsSearched system.now.order
        (rows_after basis.old.vectors (part_rows system.now width) (i - 1) j)
        (depth - j) (system.now.coordinates - i) depth n sizes.new) }
    ensures basis { OnOk result (basis.new ≡ basis.old) }
    ensures steps { OnOk result (steps.new
        ≤ steps.old + number_taken (depth - (j + 1)) (system.now.coordinates - i) depth (n - 1)) }
{
    let mark = basis.mark();
    let row = part_row(alloc, system, width, i, j + 1)?;
    match basis.insert(alloc, &row, steps)? {
        Inserted::Fresh => {}
        Inserted::Depends(_) => {
            take_one(sizes);
            return Ok(false);
        }
    }
    let holds = search(
        alloc,
        system,
        width,
        depth,
        i,
        j + 1,
        n - 1,
        basis,
        sizes,
        steps,
    )?;
    basis.back(mark);
    if holds {
        return Ok(true);
    }
    sizes[0] += 1;
    Ok(false)
}

// Searches all choices of at most `n` rows for the first dependent one by its list of sizes.
fn search_whole<L: Ledger>(
    alloc: Global,
    system: &System,
    width: u8,
    depth: u8,
    n: u8,
    basis: &mut Basis,
    steps: &mut Steps<L>,
) -> Result<Option<Choice>, AllocError>
    requires narrow { width ≤ system.now.columns }
    requires few { depth ≤ system.now.depth }
    requires order { basis.old.order ≡ system.now.order }
    requires columns { basis.old.columns ≡ width }
    requires empty { basis.old.vectors ≡ [] }
    ensures searched { IfOk result (IsSearchedWhole system.now.order system.now.coordinates depth n
        (rows_by (part_rows system.now width))) }
    ensures basis { OnOk result (basis.new ≡ basis.old) }
    ensures steps { OnOk result (steps.new
        < steps.old + number_of_choices system.now.coordinates depth n) }
{
    let _system = system.order();
    let mut sizes = vec![in alloc; 0u8; system.s() as usize]?;
    if search(
        alloc, system, width, depth, 1, 0, n, basis, &mut sizes, steps,
    )? {
        return Ok(None);
    }
    Ok(Some(Choice::of(sizes)))
}

// The number of rows of a choice.
fn size_of(choice: &Choice) -> u32
    ensures { result ≡ sum choice.now }
{
    let mut total: u32 = 0;
    let sizes = choice.sizes();
    for size in sizes {
        total += *size as u32;
    }
    total
}

// The first dependent choice of at most `n` rows, by size and then by list: what a search finds, or
// else what is found among the choices of fewer rows.
fn first_below<L: Ledger>(
    alloc: Global,
    system: &System,
    width: u8,
    depth: u8,
    n: u8,
    basis: &mut Basis,
    steps: &mut Steps<L>,
) -> Result<Option<Choice>, AllocError>
    requires narrow { width ≤ system.now.columns }
    requires few { depth ≤ system.now.depth }
    requires order { basis.old.order ≡ system.now.order }
    requires columns { basis.old.columns ≡ width }
    requires empty { basis.old.vectors ≡ [] }
    ensures first { IfOk result (IsLeastOf system.now.order system.now.coordinates depth n
        (rows_by (part_rows system.now width))) }
    ensures steps { IfOk result (λ r. steps.new ≤ steps.old
        + most_search_steps n (number_of_choices system.now.coordinates depth n) r) }
{
    let Some(choice) = search_whole(alloc, system, width, depth, n, basis, steps)? else {
        return Ok(None);
    };
    let fewer = (size_of(&choice) - 1) as u8;
    match first_below(alloc, system, width, depth, fewer, basis, steps)? {
        Some(lesser) => Ok(Some(lesser)),
        None => Ok(Some(choice)),
    }
}

// As `check_with`, where each coordinate has only its first `depth` rows, and of these only the
// first `width` digits.
pub(crate) fn counted_first_dependent<L: Ledger>(
    alloc: Global,
    system: &System,
    width: u8,
    depth: u8,
    k: u8,
    steps: &mut Steps<L>,
) -> Result<Verdict, AllocError>
    requires narrow { width ≤ system.now.columns }
    requires few { depth ≤ system.now.depth }
    ensures verdict { IfOk result (IsVerdictAmong system.now.order system.now.coordinates depth k
        (rows_by (part_rows system.now width))) }
    ensures steps { IfOk result (λ v. steps.new ≤ steps.old
        + most_steps k (number_of_choices system.now.coordinates depth k) v) }
{
    let mut basis = Basis::new(alloc, system.order(), width)?;
    let Some(choice) = first_below(alloc, system, width, depth, k, &mut basis, steps)? else {
        return Ok(Verdict::Holds);
    };
    let rows = choice_rows(alloc, system, width, depth, &choice)?;
    let Some(coefficients) = dependence(alloc, system.order(), width, &rows, steps)? else {
        unreachable!()
    };
    Ok(Verdict::Dependent {
        choice,
        coefficients,
    })
}

/// As `check`, with elimination shared between the choices, and each insertion into the basis
/// counted.
///
/// Of `n` choices it takes at most `n - 1` steps where it holds, and else at most `(k + 1) * n`.
pub fn check_with<L: Ledger>(
    alloc: Global,
    system: &System,
    k: u8,
    steps: &mut Steps<L>,
) -> Result<Verdict, AllocError>
    ensures verdict { IfOk result (IsVerdict system.now k) }
    ensures steps { IfOk result (λ v. steps.new ≤ steps.old
        + most_steps k (number_of_choices system.now.coordinates system.now.depth k) v) }
{
    counted_first_dependent(alloc, system, system.m(), system.depth(), k, steps)
}
