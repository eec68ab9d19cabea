//! How a command ends.
ghost use Rattle.std.specs.Prelude.{◌≡◌};
ghost use Rattle.mint.specs.Statuses.{number_of_status};

/// How a command ended. The program ends with its number.
#[derive(Clone, Copy, PartialEq, Eq, Debug)]
pub enum Status {
    /// The command was done, and its text written.
    Ok,
    /// Want of memory. Nothing was written.
    Memory,
    /// The words are no command.
    Words,
    /// The text or its claim is refused.
    Refused,
    /// The input failed. Nothing was written.
    ReadFault,
    /// The output failed. A prefix of the text was written.
    WriteFault,
    /// The keeper of the records failed. Nothing was written.
    KeeperFault,
    /// The records of the store are refused.
    BadStore,
    /// The question is outside the bounds.
    Outside,
    /// What gives connections failed.
    Device,
}

impl Status {
    /// The number with which the program ends.
    pub fn number(self) -> u8
        ensures { result ≡ number_of_status self }
    {
        match self {
            Status::Ok => 0,
            Status::Memory => 1,
            Status::Words => 2,
            Status::Refused => 3,
            Status::ReadFault => 4,
            Status::WriteFault => 5,
            Status::KeeperFault => 6,
            Status::BadStore => 7,
            Status::Outside => 8,
            Status::Device => 9,
        }
    }
}
