// The first dependent choice, by searches among ever fewer rows.
ghost use Rattle.std.specs.Prelude.{◌≡◌, ◌+◌, ◌-◌, ◌*◌, ◌<◌, ◌≤◌, length, sum, IfOk, MatchOption};
ghost use Rattle.std.specs.Bool.{OnTrue, OnFalse};
ghost use Rattle.mt_system.specs.Rows.{rows_by};
ghost use Rattle.mt_strength.specs.FirstChoices.{IsLeastFound, AllChoicesIndependent, IsFirstChoice};
ghost use Rattle.mt_strength.specs.Searches.{AllIndependent};
ghost use Rattle.mt_strength.specs.Walks.{IsLaid, digits_in};

use crate::packed_rows::packed;
use crate::walks::walk;
use mt_linear::Order;
use mt_system::{Choice, System};
use std::alloc::{AllocError, Global};

fn total(sizes: &[u8]) -> u8
    requires { sum sizes.now < 256 }
    ensures { result ≡ sum sizes.now }
{
    sizes.iter().sum()
}

// Whether each choice of at most `k` rows is independent. Else it writes the first that is not, by
// size and then by list: a walk finds the first by list, and the next one goes through choices of
// fewer rows.
fn search(
    order: Order,
    rows: &[u8],
    others: usize,
    each: usize,
    k: usize,
    sizes: &mut [u8],
    found: &mut [u8],
    room: &mut [u8],
    all: &mut [u8],
) -> bool
    requires laid { IsLaid order rows.now each others each }
    requires few { k < 256 }
    requires sizes { length sizes.old ≡ 1 + others }
    requires found { length found.old ≡ 1 + others }
    requires room { (k - 1) * length rows.now ≤ length room.old }
    requires multiples { 288 ≤ length all.old }
    ensures independent { OnTrue result (AllIndependent order
        (rows_by (digits_in order rows.now each each)) each others each k) }
    ensures first { OnFalse result (IsLeastFound order
        (rows_by (digits_in order rows.now each each)) others each k found.new) }
{
    if walk(order, rows, each, others, each, k, sizes, room, all) {
        return true;
    }
    'fewer: loop {
        found.copy_from_slice(sizes);
        let n = total(found) as usize - 1;
        if walk(order, rows, each, others, each, n, sizes, room, all) {
            return false;
        }
    }
}

// The first dependent choice of at most `k` rows, where each coordinate has only its first `depth`
// rows, and of these only the first `width` digits.
pub(crate) fn first_choice(
    alloc: Global,
    system: &System,
    width: u8,
    depth: u8,
    k: u8,
) -> Result<Option<Choice>, AllocError>
    requires narrow { width ≤ system.now.columns }
    requires few { depth ≤ system.now.depth }
    requires lanes { width ≤ 32 }
    requires rows { k ≤ 32 }
    ensures { IfOk result (λ r. MatchOption r (AllChoicesIndependent system.now width depth k)
        (IsFirstChoice system.now width depth k)) }
{
    let each = depth.min(k);
    let s = system.s() as usize;
    let rows = packed(alloc, system, width, each)?;
    let mut room = vec![in alloc; 0u8; rows.len() * (k as usize).saturating_sub(1)]?;
    let mut sizes = vec![in alloc; 0u8; s]?;
    let mut found = vec![in alloc; 0u8; s]?;
    let mut all = [0u8; 288];
    let each = each as usize;
    let holds = search(
        system.order(),
        &rows,
        s - 1,
        each,
        k as usize,
        &mut sizes,
        &mut found,
        &mut room,
        &mut all,
    );
    if holds {
        return Ok(None);
    }
    Ok(Some(Choice::of(found)))
}
