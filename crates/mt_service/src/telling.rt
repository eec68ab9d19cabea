//! Telling feeds of the last event.
ghost use Rattle.std.specs.Prelude.{◌≡◌, ◌∷◌, ◌++◌, [], List, ℕ};
ghost use Rattle.mt_derive.specs.declared.events.Event.{Event};
ghost use Rattle.mt_cells.specs.Cells.{InBounds};
ghost use Rattle.mt_feed.specs.declared.Change.{Change};
ghost use Rattle.mt_feed.specs.Lines.{change_lines};
ghost use Rattle.mt_feed.specs.Faring.{Fares};
ghost use Rattle.mt_service.specs.Telling.{AreChanges, AreTold};
ghost use Rattle.mt_service.specs.Accepting.{TellsCell};

use mt_cells::Cell;
use mt_feed::{Change, Feed, tell_unless_failed};
use mt_table::Table;

/// Tells each feed that has not failed what the last event changed, in the order of cells.
pub(crate) fn tell_all(feeds: &mut Vec<Box<dyn Feed + Send>>, table: &Table)
    ensures { (E : List Event) (e : Event) → table.now.events ≡ E ++ e ∷ []
        → AreTold table.now.bounds table.now.rules (λ b. told b) (λ b. failures b)
        E table.now.events feeds.old.items feeds.new.items }
{
    for i in 0..feeds.len() {
        tell_feed(&mut feeds[i], table);
    }
}

// Tells the feed each cell that the last event changed.
fn tell_feed(feed: &mut Box<dyn Feed + Send>, table: &Table)
    ensures { (E : List Event) (e : Event) → table.now.events ≡ E ++ e ∷ []
        → (changes : List Change) × AreChanges table.now.bounds table.now.rules E table.now.events changes
        × Fares (λ b. told b) (λ b. failures b) (change_lines changes) feed.old feed.new }
{
    for n in 0..table.bounds().cells() {
        tell_cell(feed, table, Cell::at(table.bounds(), n));
    }
}

// Tells the feed the cell's value, where the last event changed it.
fn tell_cell(feed: &mut Box<dyn Feed + Send>, table: &Table, cell: Cell)
    requires { InBounds table.now.bounds cell }
    ensures { (E : List Event) (e : Event) → table.now.events ≡ E ++ e ∷ []
        → TellsCell table.now.bounds table.now.rules (λ b. told b) (λ b. failures b)
        E table.now.events cell feed.old feed.new }
{
    let version = table.version();
    if table.since(cell) == version {
        let k = table.value(cell);
        tell_unless_failed(feed, &Change { version, cell, k });
    }
}
