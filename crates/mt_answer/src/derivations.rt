//! Derivations as lists of their nodes.
ghost use Rattle.std.specs.Prelude.{ℕ, Contains, IfOk};
ghost use Rattle.mt_cells.specs.Cells.{InBounds};
ghost use Rattle.mt_derive.specs.Nodes.{IsParent};
ghost use Rattle.mt_answer.specs.Facts.{IsDerivation};
ghost use Rattle.mt_answer.specs.Places.{IsAscending, StandsAt, IsMadeAmong};

use mt_cells::Cell;
use mt_derive::{Made, Node, reachable};
use mt_table::Table;
use std::alloc::{AllocError, Global};

/// The nodes of the derivation of the cell's value.
pub(crate) fn derivation(alloc: Global, table: &Table, cell: Cell) -> Result<Vec<Node>, AllocError>
    requires { InBounds table.now.bounds cell }
    ensures { IfOk result (λ nodes. IsDerivation table.now.bounds table.now.rules table.now.events cell
        nodes.items) }
{
    let nodes = table.nodes();
    let numbers = reachable(alloc, nodes, table.node_of(cell))?;
    let mut list = Vec::with_capacity(alloc, numbers.len())?;
    for number in &numbers {
        let node = nodes.get(*number);
        list.push(Node {
            made: made_among(&numbers, node.made),
            cell: node.cell,
            k: node.k,
        })?;
    }
    Ok(list)
}

// The same, with the places of the parents among these numbers.
fn made_among(numbers: &[u32], made: Made) -> Made
    requires ascending { IsAscending numbers.now }
    requires parents { (p : ℕ) → IsParent made p → Contains numbers.now p }
    ensures { IsMadeAmong numbers.now made result }
{
    match made {
        Made::One(rule, parent) => Made::One(rule, place_of(numbers, parent)),
        Made::Two(rule, first, second) => {
            Made::Two(rule, place_of(numbers, first), place_of(numbers, second))
        }
        Made::Zero
        | Made::Constant
        | Made::Identity
        | Made::Parity
        | Made::Niederreiter
        | Made::Import(_) => made,
    }
}

// Where the number stands, counted from 0.
fn place_of(numbers: &[u32], number: u32) -> u32
    requires ascending { IsAscending numbers.now }
    requires there { Contains numbers.now number }
    ensures { StandsAt numbers.now result number }
{
    match numbers.binary_search(&number) {
        Ok(place) => place as u32,
        Err(_) => unreachable!(),
    }
}
