//! A keeper in memory that fails at the calls that it is told.
ghost use Rattle.std.specs.Prelude.{◌≡◌, ◌≤◌, Some, false, IsTrue};
ghost use Rattle.mt_io.specs.Faults.{Rose};
ghost use Rattle.mt_keeper.specs.Faults.{HasKeeperCause};
ghost use Rattle.mt_keeper.specs.Keeping.{IsNext, Loads, Puts};
ghost use Rattle.mt_keeper.specs.Memory.{MemoryKeeperState, Passes, Fails, IsMemoryLoad, IsMemoryPut};

use crate::{Keeper, KeeperRefused, Records};
use std::alloc::Global;
use std::marker::Model;

/// A keeper of records in memory. It tells them.
#[derive(Debug, Drop)]
pub struct MemoryKeeper {
    records: Records,
    failing: Vec<u32>,
    calls: u32,
    faults: u64,
}

impl Model for MemoryKeeper {
    ghost Value = { MemoryKeeperState };

    ghost view = { λ k. record {
      records = k.records;
      failing = k.failing.items;
      calls = k.calls;
      faults = k.faults;
    } };
}

impl MemoryKeeper {
    /// A keeper of these records, which fails at the calls whose numbers stand in `failing`. Loads
    /// and puts are counted together, from 1, and the number of a call stops at `u32::MAX`.
    pub fn new(records: Records, failing: Vec<u32>) -> MemoryKeeper
        ensures { result ≡ record {
          records = records;
          failing = failing.items;
          calls = 0;
          faults = 0;
        } }
    {
        MemoryKeeper {
            records,
            failing,
            calls: 0,
            faults: 0,
        }
    }

    // Counts a call, and a fault where it fails, and answers whether it passes.
    fn passes(&mut self) -> bool
        ensures passes { IsTrue result → Passes self.old self.new self.old.records }
        ensures fails { result ≡ false → Fails self.old self.new }
        ensures later { self.old.faults ≤ self.new.faults }
        ensures rose { result ≡ false → Rose self.old.faults self.new.faults }
    {
        self.calls = self.calls.saturating_add(1);
        if self.failing.contains(&self.calls) {
            self.faults = self.faults.saturating_add(1);
            return false;
        }
        true
    }
}

impl Keeper for MemoryKeeper {
    ghost records = { λ k. Some k.records };

    ghost faults = { λ k. k.faults };

    /// Gives a copy of the records.
    fn load(&mut self, alloc: Global) -> Result<Records, KeeperRefused>
        ensures records { Loads (Some self.old.records) (Some self.new.records) result }
        ensures cause { HasKeeperCause self.old.faults self.new.faults result }
        ensures exact { IsMemoryLoad self.old self.new result }
    {
        if !self.passes() {
            return Err(KeeperRefused::Fault);
        }
        Ok(self.records.copy(alloc)?)
    }

    /// Appends a copy of the text.
    fn put(&mut self, alloc: Global, _number: u32, text: &[u8]) -> Result<(), KeeperRefused>
        requires { IsNext (Some self.old.records) _number }
        ensures records { Puts (Some self.old.records) (Some self.new.records) result text.now }
        ensures cause { HasKeeperCause self.old.faults self.new.faults result }
        ensures exact { IsMemoryPut self.old self.new result text.now }
    {
        if !self.passes() {
            return Err(KeeperRefused::Fault);
        }
        Ok(self.records.push(alloc, text)?)
    }
}
