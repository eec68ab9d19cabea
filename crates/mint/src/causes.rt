//! Why a command is given up.
ghost use Rattle.std.specs.Prelude.{◌≡◌};
ghost use Rattle.mint.specs.Doing.{status_given_up};

use crate::input::InputRefused;
use crate::status::Status;
use std::alloc::AllocError;

/// Why a command is given up.
#[derive(Clone, Copy)]
pub(crate) enum Cause {
    Memory,
    ReadFault,
    KeeperFault,
}

impl Cause {
    /// The status of a command that is given up for it.
    pub(crate) fn status(self) -> Status
        ensures { result ≡ status_given_up self }
    {
        match self {
            Cause::Memory => Status::Memory,
            Cause::ReadFault => Status::ReadFault,
            Cause::KeeperFault => Status::KeeperFault,
        }
    }
}

impl From<AllocError> for Cause {
    ghost use Rattle.mint.specs.declared.causes.Cause.TheVariants.{Memory};

    ghost from_gives = { λ _ r. r ≡ Memory };

    fn from(_: AllocError) -> Cause {
        Cause::Memory
    }
}

impl From<InputRefused> for Cause {
    ghost use Rattle.mint.specs.Doing.{cause_of};

    ghost from_gives = { λ e r. r ≡ cause_of e };

    fn from(refused: InputRefused) -> Cause {
        match refused {
            InputRefused::Memory => Cause::Memory,
            InputRefused::Fault => Cause::ReadFault,
        }
    }
}
