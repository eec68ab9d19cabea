//! The values of one order and one number of columns, as comma-separated values.
ghost use Rattle.std.specs.Prelude.{◌≡◌, ◌++◌, List, ℕ, IfOk, OnOk};
ghost use Rattle.mt_cells.specs.Asks.{IsFrom1};
ghost use Rattle.mt_answer.specs.Sheets.{line_text, IsTableRow, IsTableText};

use crate::sheets::Sheet;
use mt_cells::Cell;
use mt_linear::Order;
use mt_table::Table;
use std::alloc::{AllocError, Global};

/// The values of the nets, the orthogonal arrays and the sequences over a field of this order with
/// m columns, a line for each number of coordinates.
pub(crate) fn table_lines(
    alloc: Global,
    table: &Table,
    order: Order,
    m: u8,
) -> Result<Vec<u8>, AllocError>
    requires { IsFrom1 table.now.bounds.m_max m }
    ensures { IfOk result (λ text. IsTableText table.now.bounds table.now.rules
        table.now.events order m text.items) }
{
    let mut sheet = Sheet::new(alloc);
    sheet.push(&[b"s", b"net_k", b"net_t", b"oa_k", b"seq_t"], &[])?;
    for place in 0..table.bounds().s_max {
        push_values(&mut sheet, table, order, m, place + 1)?;
    }
    sheet.into_bytes()
}

// Adds the line for s coordinates.
fn push_values(
    sheet: &mut Sheet,
    table: &Table,
    order: Order,
    m: u8,
    s: u8,
) -> Result<(), AllocError>
    requires m { IsFrom1 table.now.bounds.m_max m }
    requires s { IsFrom1 table.now.bounds.s_max s }
    ensures { OnOk result ((fields : List (List ℕ)) × IsTableRow table.now.bounds table.now.rules
        table.now.events order m s fields
        × (sheet.new ≡ sheet.old ++ line_text fields)) }
{
    let net_k = table.value(Cell::Ooa {
        order,
        m,
        s,
        depth: m,
    }) as u64;
    let oa_k = table.value(Cell::Ooa {
        order,
        m,
        s,
        depth: 1,
    }) as u64;
    let seq_k = table.value(Cell::Seq { order, m, s }) as u64;
    let net_t = (m as u64).saturating_sub(net_k);
    let seq_t = (m as u64).saturating_sub(seq_k);
    sheet.push(&[], &[s as u64, net_k, net_t, oa_k, seq_t])
}
