//! Generator matrices, with what is claimed of them.
ghost use Rattle.std.specs.Prelude.{◌≡◌, IfOk};
ghost use Rattle.mt_cells.specs.Asks.{IsAsked};
ghost use Rattle.mt_answer.specs.Facts.{IsClaimed, form_of as form_by};

use mt_cells::{Ask, Cell, Kind};
use mt_derive::build;
use mt_system::{Claim, Form, Name};
use mt_table::Table;
use std::alloc::{AllocError, Global};

/// The claim that the system of the derivation of the cell's value has this value.
pub(crate) fn claim_of(
    alloc: Global,
    table: &Table,
    ask: &Ask,
    cell: Cell,
) -> Result<Claim, AllocError>
    requires { IsAsked table.now.bounds ask.now cell }
    ensures { IfOk result (IsClaimed table.now.bounds table.now.rules table.now.events ask.now.kind cell) }
{
    let (nodes, n) = (table.nodes(), table.node_of(cell));
    let system = build(alloc, nodes, table.imports(), n)?;
    let Some(name) = Name::of(b"mint") else {
        unreachable!();
    };
    match Claim::new(form_of(ask.kind), name, nodes.get(n).k, system) {
        Some(claim) => Ok(claim),
        None => unreachable!(),
    }
}

fn form_of(kind: Kind) -> Form
    ensures { result ≡ form_by kind }
{
    match kind {
        Kind::Net => Form::Net,
        Kind::Oa | Kind::Ooa => Form::Ooa,
        Kind::Seq => Form::Seq,
    }
}
