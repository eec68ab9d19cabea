//! A feed that keeps its changes.
ghost use Rattle.std.specs.Prelude.{◌≡◌, ◌≢◌, ◌≤◌, ◌↔◌, [], Some, IsTrue, IsOk, IfOk, vec_len, vec_capacity};
ghost use Rattle.mt_io.specs.Faults.{HasCause};
ghost use Rattle.mt_io.specs.Streams.{Appends};
ghost use Rattle.mt_feed.specs.Kept.{ListFeedState, IsListTold};
ghost use Rattle.mt_feed.specs.Lines.{change_line, change_lines};

use crate::{Change, Feed};
use mt_io::Failed;
use std::alloc::{AllocError, Global};
use std::marker::Model;

/// A feed that keeps the changes that it is told. It tells their lines.
#[derive(Debug, Drop)]
pub struct ListFeed {
    changes: Vec<Change>,
    room: u32,
    failing: Vec<u32>,
    calls: u32,
    faults: u64,
}

impl Model for ListFeed {
    ghost Value = { ListFeedState };

    ghost view = { λ f. record {
      kept = f.changes.items;
      room = f.room;
      failing = f.failing.items;
      calls = f.calls;
      faults = f.faults;
    } };

    ghost invariant = { λ f. (vec_len f.changes ≤ f.room) × (f.room ≤ vec_capacity f.changes) };
}

impl ListFeed {
    /// A feed with room for `room` changes, which fails at the calls of `tell` whose numbers stand
    /// in `failing`, counted from 1. The number of a call stops at `u32::MAX`. It takes memory here
    /// alone, and fails where there is none.
    pub fn new(alloc: Global, room: u32, failing: Vec<u32>) -> Result<ListFeed, AllocError>
        ensures feed { IfOk result (λ feed. feed ≡ record {
          kept = [];
          room = room;
          failing = failing.items;
          calls = 0;
          faults = 0;
        }) }
        ensures succeeds { room ≡ 0 → IsOk result }
    {
        Ok(ListFeed {
            changes: Vec::with_capacity(alloc, room as usize)?,
            room,
            failing,
            calls: 0,
            faults: 0,
        })
    }
}

impl Feed for ListFeed {
    ghost told = { λ f. Some (change_lines f.kept) };

    ghost failures = { λ f. f.faults };

    /// Keeps the change. It fails, and keeps nothing, at a call that is told to fail and where the
    /// room is full.
    fn tell(&mut self, change: &Change) -> Result<(), Failed>
        ensures line { Appends (Some (change_lines self.old.kept)) (Some (change_lines self.new.kept))
            result (change_line change.now) }
        ensures cause { HasCause self.old.faults self.new.faults result }
        ensures exact { IsListTold self.old self.new result change.now }
    {
        self.calls = self.calls.saturating_add(1);
        if self.failing.contains(&self.calls) || self.changes.len() == self.room as usize {
            self.faults = self.faults.saturating_add(1);
            return Err(Failed);
        }
        self.changes.push_reserved(*change);
        Ok(())
    }

    fn failed(&self) -> bool
        ensures { IsTrue result ↔ (self.now.faults ≢ 0) }
    {
        self.faults != 0
    }

    /// Each change whose `tell` answered Ok, in their order.
    fn kept(&self) -> &[Change]
        ensures { result.now ≡ self.now.kept }
    {
        &self.changes
    }
}
