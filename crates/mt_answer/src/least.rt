//! The least nets of a value.
ghost use Rattle.mt_cells.specs.Asks.{IsFrom1};
ghost use Rattle.mt_answer.specs.Facts.{IsLeastM};

use mt_cells::Cell;
use mt_linear::Order;
use mt_table::Table;

/// The least m whose net with m columns and s coordinates, over a field of this order, has value `k`
/// or more; `None` where no m within the bounds has.
pub fn least_m(table: &Table, order: Order, s: u8, k: u64) -> Option<u8>
    requires { IsFrom1 table.now.bounds.s_max s }
    ensures { IsLeastM table.now.bounds table.now.rules table.now.events order s k result }
{
    for before in 0..table.bounds().m_max {
        let m = before + 1;
        let net = Cell::Ooa {
            order,
            m,
            s,
            depth: m,
        };
        if k <= table.value(net) as u64 {
            return Some(m);
        }
    }
    None
}
