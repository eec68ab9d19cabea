//! Feeds: who is told of the values that change, as a trait that counts its faults.
#![tactic(auto)]

ghost use Rattle.std.specs.Prelude.{◌≢◌, ◌↔◌, ℕ, List, Option, IsTrue};
ghost use Rattle.mt_io.specs.Faults.{HasCause};
ghost use Rattle.mt_io.specs.Streams.{Appends};
ghost use Rattle.mt_feed.specs.Lines.{change_line};

mod line;
mod lines;
mod lists;
mod telling;
#[cfg(test)]
mod tests;

pub use lines::LinesFeed;
pub use lists::ListFeed;
use mt_cells::Cell;
use mt_io::Failed;
pub use telling::tell_unless_failed;

/// The value `k` that a cell has from a version on.
#[derive(Clone, Copy, PartialEq, Eq, Debug)]
pub struct Change {
    pub version: u32,
    pub cell: Cell,
    pub k: u8,
}

/// Who is told of changes. `told` is the text of the lines that it was told, where the object tells
/// it; `failures` counts its failures. No call takes memory.
pub trait Feed: Drop {
    ghost told: { Self → Option (List ℕ) };

    ghost failures: { Self → ℕ };

    /// Appends the line of the change. After `Failed` a prefix of it was appended.
    fn tell(&mut self, change: &Change) -> Result<(), Failed>
        ensures line { Appends (told self.old) (told self.new) result (change_line change.now) }
        ensures cause { HasCause (failures self.old) (failures self.new) result };

    /// Whether it has ever failed.
    fn failed(&self) -> bool
        ensures { IsTrue result ↔ (failures self.now ≢ 0) };

    /// The changes that it keeps, for tests. Which they are is left to each feed.
    fn kept(&self) -> &[Change];
}
