//! Telling a feed that may have failed.
ghost use Rattle.std.specs.Prelude.{◌≡◌, ◌≢◌, false, IsTrue, OnErr};
ghost use Rattle.mt_io.specs.Streams.{Appends};
ghost use Rattle.mt_feed.specs.Faring.{Fares};
ghost use Rattle.mt_feed.specs.Lines.{change_line};

use crate::{Change, Feed};
use mt_io::Failed;

/// Tells the feed the change, where it has not failed.
pub fn tell_unless_failed(feed: &mut Box<dyn Feed + Send>, change: &Change)
    ensures { Fares (λ b. told b) (λ b. failures b) (change_line change.now) feed.old feed.new }
{
    if has_failed(feed) {
        return;
    }
    // A failure is kept by the feed, and asked for before each change.
    let _ = tell_one(feed, change);
}

// Whether the feed has failed.
fn has_failed(feed: &Box<dyn Feed + Send>) -> bool
    ensures failed { IsTrue result → failures feed.now ≢ 0 }
    ensures sound { result ≡ false → failures feed.now ≡ 0 }
{
    feed.failed()
}

// Tells the feed the change.
fn tell_one(feed: &mut Box<dyn Feed + Send>, change: &Change) -> Result<(), Failed>
    ensures line { Appends (told feed.old) (told feed.new) result (change_line change.now) }
    ensures fault { OnErr result (failures feed.new ≢ 0) }
{
    feed.tell(change)
}
