//! Whether a system has a strength, and the first dependent choice where it has not.
ghost use Rattle.std.specs.Prelude.{◌≡◌, ◌<◌, ◌≤◌, IfOk};
ghost use Rattle.mt_system.specs.Rows.{rows_by, part_rows};
ghost use Rattle.mt_strength.specs.Verdicts.{IsVerdict, IsVerdictAmong, IsGreatestStrength};

use crate::choice_rows::choice_rows;
use crate::counted_search::counted_first_dependent;
use crate::dependence::uncounted_dependence;
use crate::searches::first_choice;
use mt_linear::{Steps, Vector};
use mt_system::{Choice, System};
use std::alloc::{AllocError, Global};
use std::marker::Brand;
use std::sync::ledger::{Blank, Ledger};

/// What `check` found.
#[derive(Debug, Drop)]
pub enum Verdict {
    /// Every choice of at most `k` rows is independent.
    Holds,
    /// The first dependent choice, and the one combination of its rows to zero whose last
    /// coefficient is 1.
    Dependent {
        choice: Choice,
        coefficients: Vector,
    },
}

// The first dependent choice of at most `k` rows, where each coordinate has only its first `depth`
// rows, and of these only the first `width` digits.
pub(crate) fn first_dependent(
    alloc: Global,
    system: &System,
    width: u8,
    depth: u8,
    k: u8,
) -> Result<Verdict, AllocError>
    requires narrow { width ≤ system.now.columns }
    requires few { depth ≤ system.now.depth }
    ensures { IfOk result (IsVerdictAmong system.now.order system.now.coordinates depth k
        (rows_by (part_rows system.now width))) }
{
    if width > 32 || k > 32 {
        return first_in_turn::<Brand>(alloc, system, width, depth, k, Blank::new(1));
    }
    let Some(choice) = first_choice(alloc, system, width, depth, k)? else {
        return Ok(Verdict::Holds);
    };
    let rows = choice_rows(alloc, system, width, depth, &choice)?;
    let coefficients = uncounted_dependence(alloc, system.order(), width, &rows)?.unwrap();
    Ok(Verdict::Dependent {
        choice,
        coefficients,
    })
}

// The same over one basis, by steps of this ledger that nobody counts.
fn first_in_turn<L: Ledger>(
    alloc: Global,
    system: &System,
    width: u8,
    depth: u8,
    k: u8,
    blank: Blank,
) -> Result<Verdict, AllocError>
    requires name { blank.name ≡ L.name }
    requires parts { blank.parts ≡ L.parts }
    requires some { 0 < L.parts }
    requires narrow { width ≤ system.now.columns }
    requires few { depth ≤ system.now.depth }
    ensures { IfOk result (IsVerdictAmong system.now.order system.now.coordinates depth k
        (rows_by (part_rows system.now width))) }
{
    let mut steps = Steps::<L>::of(blank);
    counted_first_dependent(alloc, system, width, depth, k, &mut steps)
}

/// Whether the system has strength `k`: every choice of at most `k` first rows, taken over its
/// coordinates, is linearly independent (Niederreiter, 1987; with fewer than `k` rows in a
/// coordinate Lawrence, 1996, and Mullen and Schmid, 1996).
///
/// Else it answers the first dependent choice, by size and then by the list of its sizes.
pub fn check(alloc: Global, system: &System, k: u8) -> Result<Verdict, AllocError>
    ensures { IfOk result (IsVerdict system.now k) }
{
    first_dependent(alloc, system, system.m(), system.depth(), k)
}

/// The greatest strength that the system has, up to its number of columns, `m`.
///
/// Where each coordinate has `m` rows this is `m - t`, with the least quality parameter `t` of the
/// digital net (Niederreiter, 1987). It refuses only for want of memory.
pub fn strength_of(alloc: Global, system: &System) -> Result<u8, AllocError>
    ensures { IfOk result (IsGreatestStrength system.now) }
{
    for passed in 0..system.m() {
        match check(alloc, system, passed + 1)? {
            Verdict::Holds => {}
            Verdict::Dependent { .. } => {
                return Ok(passed);
            }
        }
    }
    Ok(system.m())
}
