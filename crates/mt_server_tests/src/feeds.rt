//! Feeds of a desk, one of which fails.
use crate::connections::{bounds, empty};
use crate::exchanges::CAPS7;
use mt_cells::{Bounds, Cell, RuleSet};
use mt_feed::{Change, Feed, ListFeed};
use mt_keeper::Keeper;
use mt_linear::Order;
use mt_server::{Desk, OpenDesk};
use std::alloc::Global;
use std::process::Abort;
use std::sync::Wait;
use std::test::Fail;

// The columns, the depth and the new value of each array that the import changes, as a plain Python
// program computes them.
const RAISED: [(u8, u8, u8); 5] = [(3, 2, 2), (3, 3, 2), (4, 2, 3), (4, 3, 3), (4, 4, 3)];

// The changes are the first of those raised.
fn assert_first(rt: &impl Abort, changes: &[Change], count: usize) {
    assert_eq!(rt; changes.len(), count);
    for (change, (m, depth, k)) in changes.iter().zip(&RAISED) {
        let cell = Cell::Ooa {
            order: Order::Q2,
            m: *m,
            s: 7,
            depth: *depth,
        };
        assert_eq!(rt;
            *change,
            Change {
                version: 1,
                cell,
                k: *k
            }
        );
    }
}

// The first feed has failed and keeps so many changes, and the other keeps all.
fn assert_told<K: Keeper>(rt: &impl Abort, desk: &Desk<K>, told: usize) {
    assert_eq!(rt; desk.feeds.len(), 2);
    for (feed, (failed, count)) in desk.feeds.iter().zip(&[(true, told), (false, 5)]) {
        assert_eq!(rt; feed.failed(), *failed);
        assert_first(rt, feed.kept(), *count);
    }
}

// The feeds are told so of an import.
fn assert_import<R: Wait + Abort>(
    rt: &R,
    alloc: Global,
    bounds: Bounds,
    feeds: Vec<Box<dyn Feed + Send>>,
    told: usize,
) -> Result<(), Fail> {
    match Desk::open(alloc, empty(alloc), feeds, bounds, RuleSet::all(), 1) {
        Ok(OpenDesk { mut desk, .. }) => {
            desk.import(rt, alloc, CAPS7.as_bytes());
            assert_told(rt, &desk, told);
            Ok(())
        }
        Err(_) => Err("the desk is refused")?,
    }
}

// The first feed fails at each of its calls in turn, and is told nothing behind it. The other is told
// all.
#[test]
fn each_call_of_a_feed_fails(rt: HostRuntime) -> Result<(), Fail> {
    let (alloc, bounds) = (rt.alloc(), bounds()?);
    for told in 0..5u32 {
        let mut feeds: Vec<Box<dyn Feed + Send>> = Vec::new(alloc);
        for failing in [told + 1, 0] {
            let feed = ListFeed::new(alloc, 16, Vec::from_slice(alloc, &[failing])?)?;
            feeds.push(Box::new(alloc, feed)?)?;
        }
        assert_import(&rt, alloc, bounds, feeds, told as usize)?;
    }
    Ok(())
}
