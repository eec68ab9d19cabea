//! Keepers of records: lists of texts that outlast the program, as a trait that counts its faults.
#![tactic(auto)]

ghost use Rattle.std.specs.Prelude.{ℕ, List, Option};
ghost use Rattle.mt_keeper.specs.Faults.{HasKeeperCause};
ghost use Rattle.mt_keeper.specs.Keeping.{IsNext, Loads, Puts};

mod memory;
mod records;
mod refusals;
mod steady;
#[cfg(test)]
mod tests;

pub use memory::MemoryKeeper;
pub use records::Records;
pub use refusals::KeeperRefused;
use std::alloc::Global;
pub use steady::SteadyKeeper;

/// A list of texts that is kept. `records` is the list, where the object tells it; `faults` counts
/// its failures.
pub trait Keeper {
    ghost records: { Self → Option (List (List ℕ)) };

    ghost faults: { Self → ℕ };

    /// Gives the records. The list stays as it is, whatever the answer.
    fn load(&mut self, alloc: Global) -> Result<Records, KeeperRefused>
        ensures records { Loads (records self.old) (records self.new) result }
        ensures cause { HasKeeperCause (faults self.old) (faults self.new) result };

    /// Appends the text as the record of this number, counted from 1. A refusal changes no record.
    fn put(&mut self, alloc: Global, number: u32, text: &[u8]) -> Result<(), KeeperRefused>
        requires { IsNext (records self.old) number }
        ensures records { Puts (records self.old) (records self.new) result text.now }
        ensures cause { HasKeeperCause (faults self.old) (faults self.new) result };
}
