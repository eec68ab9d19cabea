//! The values of all cells, as comma-separated values.
ghost use Rattle.std.specs.Prelude.{◌≡◌, [], ◌∷◌, ◌++◌, decimal, IfOk, OnOk};
ghost use Rattle.mt_answer.specs.Sheets.{line_text, cell_fields, IsExportText};

use crate::sheets::Sheet;
use mt_cells::{Cell, Kind};
use mt_table::Table;
use std::alloc::{AllocError, Global};

/// The values of all cells, a line for each, in the order of cells.
pub(crate) fn export_lines(alloc: Global, table: &Table) -> Result<Vec<u8>, AllocError>
    ensures { IfOk result (λ text. IsExportText table.now.bounds table.now.rules
        table.now.events text.items) }
{
    let mut sheet = Sheet::new(alloc);
    sheet.push(&[b"kind", b"q", b"m", b"s", b"depth", b"k", b"since"], &[])?;
    let bounds = table.bounds();
    for number in 0..bounds.cells() {
        let cell = Cell::at(bounds, number);
        push_cell(&mut sheet, cell, table.value(cell), table.since(cell))?;
    }
    sheet.into_bytes()
}

// Adds the line of a cell.
fn push_cell(sheet: &mut Sheet, cell: Cell, k: u8, since: u32) -> Result<(), AllocError>
    ensures { OnOk result (sheet.new ≡ sheet.old
        ++ line_text (cell_fields cell ++ decimal k ∷ decimal since ∷ [])) }
{
    let (kind, order, m, s, depth) = match cell {
        Cell::Ooa { order, m, s, depth } => (Kind::Ooa, order, m, s, depth),
        Cell::Seq { order, m, s } => (Kind::Seq, order, m, s, m),
    };
    let (q, m, s, depth) = (order.number() as u64, m as u64, s as u64, depth as u64);
    sheet.push(
        &[kind.word().as_bytes()],
        &[q, m, s, depth, k as u64, since as u64],
    )
}
