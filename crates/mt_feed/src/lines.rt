//! A feed that writes lines.
ghost use Rattle.std.specs.Prelude.{◌≡◌, ◌≢◌, ◌↔◌, [], IsTrue};
ghost use Rattle.mt_io.specs.Counts.{CountsFaults};
ghost use Rattle.mt_io.specs.Faults.{HasCause};
ghost use Rattle.mt_io.specs.Streams.{Appends};
ghost use Rattle.mt_feed.specs.Lines.{change_line};
ghost use Rattle.mt_feed.specs.Written.{feed_faults, feed_sink};

use crate::line::line_of;
use crate::{Change, Feed};
use mt_io::{Failed, Sink};

/// A feed that writes the line of each change to a sink. It tells what the sink tells, and keeps no
/// change.
#[derive(Drop)]
pub struct LinesFeed<W> {
    sink: W,
    faults: u64,
}

impl<W> LinesFeed<W> {
    /// A feed over the sink, which has not failed.
    pub fn new(sink: W) -> LinesFeed<W>
        ensures sink { feed_sink result ≡ sink }
        ensures faults { feed_faults result ≡ 0 }
    {
        LinesFeed { sink, faults: 0 }
    }
}

impl<W: Sink + Drop> Feed for LinesFeed<W> {
    ghost told = { λ f. W.written (feed_sink f) };

    ghost failures = { feed_faults };

    /// Writes the line at once. It fails where the sink fails.
    fn tell(&mut self, change: &Change) -> Result<(), Failed>
        ensures line { Appends (W.written (feed_sink self.old)) (W.written (feed_sink self.new))
            result (change_line change.now) }
        ensures cause { HasCause (feed_faults self.old) (feed_faults self.new) result }
        ensures count { CountsFaults (feed_faults self.old) (feed_faults self.new) result }
        ensures sink { HasCause (W.faults (feed_sink self.old)) (W.faults (feed_sink self.new)) result }
    {
        let line = line_of(change);
        match self.sink.write_all(line.as_str().as_bytes()) {
            Ok(()) => Ok(()),
            Err(Failed) => {
                self.faults = self.faults.saturating_add(1);
                Err(Failed)
            }
        }
    }

    fn failed(&self) -> bool
        ensures { IsTrue result ↔ (feed_faults self.now ≢ 0) }
    {
        self.faults != 0
    }

    fn kept(&self) -> &[Change]
        ensures { result.now ≡ [] }
    {
        &[]
    }
}
