//! A keeper in memory that never fails.
ghost use Rattle.std.specs.Prelude.{◌≡◌, ℕ, List, Some};
ghost use Rattle.mt_keeper.specs.Faults.{HasKeeperCause};
ghost use Rattle.mt_keeper.specs.Keeping.{IsNext, Loads, Puts};

use crate::{Keeper, KeeperRefused, Records};
use std::alloc::Global;
use std::marker::Model;

/// A keeper of records in memory that never fails. It tells them.
#[derive(Debug, Drop)]
pub struct SteadyKeeper {
    records: Records,
}

impl Model for SteadyKeeper {
    ghost Value = { List (List ℕ) };

    ghost view = { λ k. k.records };
}

impl SteadyKeeper {
    /// A keeper of these records.
    pub fn new(records: Records) -> SteadyKeeper
        ensures { result ≡ records }
    {
        SteadyKeeper { records }
    }
}

impl Keeper for SteadyKeeper {
    ghost records = { λ k. Some k };

    ghost faults = { λ _. 0 };

    /// Gives a copy of the records.
    fn load(&mut self, alloc: Global) -> Result<Records, KeeperRefused>
        ensures records { Loads (Some self.old) (Some self.new) result }
        ensures cause { HasKeeperCause 0 0 result }
    {
        Ok(self.records.copy(alloc)?)
    }

    /// Appends a copy of the text.
    fn put(&mut self, alloc: Global, _number: u32, text: &[u8]) -> Result<(), KeeperRefused>
        requires { IsNext (Some self.old) _number }
        ensures records { Puts (Some self.old) (Some self.new) result text.now }
        ensures cause { HasKeeperCause 0 0 result }
    {
        Ok(self.records.push(alloc, text)?)
    }
}
