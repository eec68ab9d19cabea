//! A table as a value that can be published.
ghost use Rattle.std.specs.Prelude.{◌≡◌, ◌<◌, ◌++◌, [], ◌∷◌};
ghost use Rattle.mt_derive.specs.Events.{Follows};

use crate::table::Table;
use mt_cells::{Bounds, RuleSet, Steps};
use mt_derive::Event;
use mt_publish::Growing;
use std::marker::Brand;
use std::sync::ledger::{Blank, Ledger};

/// What never changes of a table.
#[derive(Clone, Copy, PartialEq, Eq, Debug)]
pub struct Base {
    pub bounds: Bounds,
    pub rules: RuleSet,
}

/// Its entries are the events, of which those can be appended that fit.
impl Growing<Event> for Table {
    type Base = Base;

    ghost base = { λ t. record { bounds = t.bounds; rules = t.rules } };

    ghost listed = { λ t. t.events };

    ghost fits = { λ b E e. Follows b.bounds E e };

    /// Applies an event that fits, and leaves the table as it is for another.
    fn grow(&mut self, entry: &Event) {
        if self.fits(entry) {
            grown::<Brand>(self, entry, Blank::new(1));
        }
    }

    fn entries(&self) -> u32 {
        self.version()
    }
}

// Applies the event, whose steps nobody counts.
fn grown<L: Ledger>(table: &mut Table, entry: &Event, blank: Blank)
    requires name { blank.name ≡ L.name }
    requires parts { blank.parts ≡ L.parts }
    requires some { 0 < L.parts }
    requires fits { Follows table.old.bounds table.old.events entry.now }
    ensures bounds { table.new.bounds ≡ table.old.bounds }
    ensures rules { table.new.rules ≡ table.old.rules }
    ensures events { table.new.events ≡ table.old.events ++ entry.now ∷ [] }
{
    let mut steps = Steps::<L>::of(blank);
    table.apply(entry, &mut steps);
}
