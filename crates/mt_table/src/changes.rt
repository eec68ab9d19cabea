//! The last events at which the values of cells changed.
ghost use Rattle.std.specs.Prelude.{◌≡◌, ℕ, ◌<◌, List, length, get_or, replicate, IfOk};
ghost use Rattle.mt_cells.specs.Cells.{InBounds, number, cells_of};
ghost use Rattle.mt_table.specs.Marks.{IsMarked, AreOther};

use mt_cells::{Bounds, Cell};
use std::alloc::{AllocError, Global};

// By the numbers of cells: the last event at which the value changed, counted from 1, or 0, and the
// value from before the event that comes.
#[derive(Drop)]
pub(crate) struct Changes {
    pub(crate) bounds: Bounds,
    pub(crate) sinces: Vec<u32>,
    kept: Vec<u8>,
    ghost counted: { length sinces.items ≡ cells_of bounds },
    ghost kept_counted: { length kept.items ≡ cells_of bounds },
}

impl Changes {
    // No value has changed.
    pub(crate) fn new(alloc: Global, bounds: Bounds) -> Result<Changes, AllocError>
        ensures bounds { IfOk result (λ c. c.bounds ≡ bounds) }
        ensures sinces { IfOk result (λ c. c.sinces.items ≡ replicate (cells_of bounds) 0) }
    {
        let cells = bounds.cells() as usize;
        let sinces = vec![in alloc; 0u32; cells]?;
        let kept = vec![in alloc; 0u8; cells]?;
        Ok(Changes {
            bounds,
            sinces,
            kept,
        })
    }

    // A copy, with as much room.
    pub(crate) fn copy(&self) -> Result<Changes, AllocError>
        ensures bounds { IfOk result (λ c. c.bounds ≡ self.now.bounds) }
        ensures sinces { IfOk result (λ c. c.sinces.items ≡ self.now.sinces.items) }
    {
        Ok(Changes {
            bounds: self.bounds,
            sinces: self.sinces.clone()?,
            kept: self.kept.clone()?,
        })
    }

    // The last event at which the cell's value changed.
    pub(crate) fn since(&self, cell: Cell) -> u32
        requires { InBounds self.now.bounds cell }
        ensures { result ≡ get_or self.now.sinces.items (number self.now.bounds cell) 0 }
    {
        self.sinces[cell.number(self.bounds) as usize]
    }

    // Keeps the values from before an event.
    pub(crate) fn keep(&mut self, values: &[u8])
        requires { length values.now ≡ cells_of self.old.bounds }
        ensures bounds { self.new.bounds ≡ self.old.bounds }
        ensures sinces { self.new.sinces.items ≡ self.old.sinces.items }
        ensures kept { self.new.kept.items ≡ values.now }
    {
        self.kept.copy_from_slice(values);
    }

    // Marks the cells whose values are not as before with this event, and counts them.
    pub(crate) fn mark(&mut self, values: &[u8], event: u32) -> u32
        requires { length values.now ≡ cells_of self.old.bounds }
        ensures bounds { self.new.bounds ≡ self.old.bounds }
        ensures marked { (n : ℕ) → n < cells_of self.old.bounds → IsMarked self.old.kept.items values.now
            self.old.sinces.items self.new.sinces.items event n }
        ensures count { (cells : List Cell) × AreOther self.old.bounds self.old.kept.items values.now
            (cells_of self.old.bounds) cells × (result ≡ length cells) }
    {
        let mut count = 0;
        for n in 0..self.bounds.cells() {
            if self.kept[n as usize] != values[n as usize] {
                let _cell = Cell::at(self.bounds, n);
                self.sinces[n as usize] = event;
                count += 1;
            }
        }
        count
    }
}
