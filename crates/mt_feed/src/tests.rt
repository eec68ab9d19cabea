use super::*;
use mt_io::MemorySink;
use mt_linear::Order;
use std::test::Fail;

const ARRAY: Change = Change {
    version: 1,
    cell: Cell::Ooa {
        order: Order::Q2,
        m: 3,
        s: 7,
        depth: 2,
    },
    k: 2,
};

const SEQUENCE: Change = Change {
    version: 4294967295,
    cell: Cell::Seq {
        order: Order::Q9,
        m: 255,
        s: 254,
    },
    k: 0,
};

#[test]
fn list_feed_keeps_until_it_fails(rt: HostRuntime) -> Result<(), Fail> {
    let failing = [2].to_vec(rt.alloc())?;
    let mut feed = ListFeed::new(rt.alloc(), 2, failing)?;
    assert_eq!(rt; feed.failed(), false);
    for (change, result, kept) in [
        (ARRAY, Ok(()), 1),
        (ARRAY, Err(Failed), 1),
        (SEQUENCE, Ok(()), 2),
        (ARRAY, Err(Failed), 2),
    ] {
        assert_eq!(rt; feed.tell(&change), result);
        assert_eq!(rt; feed.kept().len(), kept);
    }
    assert_eq!(rt; feed.kept(), [ARRAY, SEQUENCE].as_slice());
    assert_eq!(rt; feed.failed(), true);
    Ok(())
}

#[test]
fn lines_feed_writes_lines(rt: HostRuntime) -> Result<(), Fail> {
    let mut bytes = Vec::new(rt.alloc());
    let mut feed = LinesFeed::new(mt_io::StdSink::new(&mut bytes));
    for change in [ARRAY, SEQUENCE] {
        assert_eq!(rt; feed.tell(&change), Ok(()));
    }
    assert_eq!(rt; feed.failed(), false);
    assert_eq!(rt; feed.kept().len(), 0);
    let text = b"1 ooa 2 3 7 2 k 2\n4294967295 seq 9 255 254 k 0\n";
    assert_eq!(rt; bytes.as_slice(), text.as_slice());
    Ok(())
}

// One feed fails at the first line, after three bytes, and one at the second line.
#[test]
fn failed_feed_is_told_nothing(rt: HostRuntime) -> Result<(), Fail> {
    let sink = MemorySink::new(rt.alloc(), 60, [1].to_vec(rt.alloc())?, 3)?;
    let mut lines: Box<dyn Feed + Send> = Box::new(rt.alloc(), LinesFeed::new(sink))?;
    let list = ListFeed::new(rt.alloc(), 3, [2].to_vec(rt.alloc())?)?;
    let mut list: Box<dyn Feed + Send> = Box::new(rt.alloc(), list)?;
    for (change, has_failed) in [(ARRAY, false), (SEQUENCE, true), (ARRAY, true)] {
        tell_unless_failed(&mut lines, &change);
        assert_eq!(rt; lines.failed(), true);
        tell_unless_failed(&mut list, &change);
        assert_eq!(rt; list.failed(), has_failed);
        assert_eq!(rt; list.kept(), [ARRAY].as_slice());
    }
    Ok(())
}
