//! Why a keeper refuses.
ghost use Rattle.std.specs.Prelude.{◌≡◌};

use std::alloc::AllocError;
use thiserror::Error;

/// Why a keeper refused.
#[derive(Clone, Copy, PartialEq, Eq, Debug, Error)]
pub enum KeeperRefused {
    /// The keeper failed.
    #[error("the keeper failed")]
    Fault,
    /// Want of memory.
    #[error("want of memory")]
    Memory,
}

impl From<AllocError> for KeeperRefused {
    ghost use Rattle.mt_keeper.specs.declared.refusals.KeeperRefused.TheVariants.{Memory};

    ghost from_gives = { λ _ r. r ≡ Memory };

    fn from(_: AllocError) -> KeeperRefused {
        KeeperRefused::Memory
    }
}
