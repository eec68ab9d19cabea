ghost use Rattle.std.specs.Prelude.{◌≡◌, ◌<◌, ◌≤◌, ◌++◌, ◌∷◌, [], All, length, IfOk, IfSome, vec_len, vec_capacity};
ghost use mathlib.Core.List.{IsPrefix};
ghost use Rattle.mt_publish.specs.States.{IsNew};

use crate::{Front, Growing, Opened, Publisher, Viewer, open};
use crossbeam_utils::Backoff;
use std::alloc::{AllocError, Global};
use std::sync::Wait;
use std::sync::atomic::{AtomicBool, Ordering};
use std::test::Fail;
use std::thread::join;

/// At most so many numbers.
const ROOM: usize = 64;

/// So many numbers are published.
const PUBLISHED: usize = 60;

/// A loop that waits for another thread gives up after so many turns.
const TURNS: u32 = 10_000_000;

/// Up to 64 numbers.
#[derive(Drop)]
struct Numbers {
    items: Vec<u64>,
    ghost room: { 64 ≤ vec_capacity items },
    ghost small: { vec_len items ≤ 64 },
}

impl Growing<u64> for Numbers {
    type Base = ();

    ghost base = { λ _. tt };

    ghost listed = { λ n. n.items.items };

    ghost fits = { λ _ xs _. length xs < 64 };

    fn grow(&mut self, entry: &u64) {
        if self.items.len() < ROOM {
            self.items.push_reserved(*entry);
        }
    }

    fn entries(&self) -> u32 {
        self.items.len() as u32
    }
}

impl Numbers {
    fn empty(alloc: Global) -> Result<Numbers, AllocError>
        ensures { IfOk result (λ n. n.items.items ≡ []) }
    {
        Ok(Numbers {
            items: Vec::with_capacity(alloc, ROOM)?,
        })
    }
}

/// A viewer with a front of its publication, whose list is the first numbers.
#[derive(Drop)]
struct Watcher {
    viewer: Viewer<Numbers, u64>,
    front: Front<Numbers, u64>,
    ghost one: { front.identity ≡ viewer.publication.identity },
}

/// The last of the new viewers, where there is one.
fn pop_new(
    viewers: &mut Vec<Viewer<Numbers, u64>>,
    publisher: &Publisher<Numbers, u64>,
) -> Option<Viewer<Numbers, u64>>
    requires { All (IsNew publisher.now.publication) viewers.old.items }
    ensures viewer { IfSome result (IsNew publisher.now.publication) }
    ensures others { All (IsNew publisher.now.publication) viewers.new.items }
{
    viewers.pop()
}

/// Publishes the number, where there is room, for a viewer that has not learnt it yet.
fn told_watcher<R: Wait>(
    rt: &R,
    publisher: &mut Publisher<Numbers, u64>,
    viewer: Viewer<Numbers, u64>,
    entry: u64,
) -> Option<Watcher>
    requires { viewer.publication ≡ publisher.old.publication }
    ensures { publisher.new.publication ≡ publisher.old.publication }
{
    if publisher.front().len() >= ROOM as u32 {
        return None;
    }
    let front = publisher.publish(rt, entry).ok()?;
    Some(Watcher { viewer, front })
}

/// Publishes an entry and tells the viewer, whose next view has it.
fn tell_and_view<R: Wait>(
    rt: &R,
    publisher: &mut Publisher<Numbers, u64>,
    viewer: &mut Viewer<Numbers, u64>,
    entry: u64,
) -> Option<u32>
    requires one { viewer.old.publication ≡ publisher.old.publication }
    requires fits { length publisher.old.list < 64 }
    ensures told { IfSome result (λ _. IsPrefix (publisher.old.list ++ entry ∷ []) viewer.new.seen) }
    ensures seen { IfSome result (λ _. IsPrefix viewer.old.seen viewer.new.seen) }
    ensures answer { IfSome result (λ n. n ≡ length viewer.new.seen) }
{
    let front = publisher.publish(rt, entry).ok()?;
    viewer.learn(front);
    viewer.view(|numbers: &Numbers| numbers.entries())
}

/// Publishes the number, where there is room, and gives the length of the front.
fn add<R: Wait>(rt: &R, publisher: &mut Publisher<Numbers, u64>, entry: u64) -> Option<u32> {
    if publisher.front().len() >= ROOM as u32 {
        return None;
    }
    Some(publisher.publish(rt, entry).ok()?.len())
}

/// Publishes the numbers from one up to another, and gives the length of the last front.
fn add_numbers<R: Wait>(
    rt: &R,
    publisher: &mut Publisher<Numbers, u64>,
    from: u64,
    to: u64,
) -> Option<u32> {
    let mut length = None;
    for entry in from..to {
        length = add(rt, publisher, entry);
    }
    length
}

/// Whether the list begins with the one before, which it then replaces.
fn follows(numbers: &Numbers, last: &mut Vec<u64>) -> bool {
    if !numbers.items.starts_with(last.as_slice()) {
        return false;
    }
    for i in last.len()..numbers.items.len() {
        if last.push(numbers.items[i]).is_err() {
            return false;
        }
    }
    true
}

/// The viewer where its first list begins with the front's, each list with the one before, and the
/// last one is whole.
fn watch(alloc: Global, watcher: Watcher) -> Option<Viewer<Numbers, u64>> {
    let Watcher { mut viewer, front } = watcher;
    let mut last = Vec::new(alloc);
    for entry in 0..u64::from(front.len()) {
        last.push(entry).ok()?;
    }
    viewer.learn(front);
    let backoff = Backoff::new();
    for _ in 0..TURNS {
        let before = last.len();
        if !viewer
            .view(|numbers: &Numbers| follows(numbers, &mut last))
            .unwrap_or(true)
        {
            return None;
        }
        if last.len() == PUBLISHED {
            return Some(viewer);
        }
        if last.len() == before {
            backoff.snooze();
        }
    }
    None
}

#[test]
fn viewers_beside_the_publisher(rt: HostRuntime) -> Result<(), Fail> {
    let alloc = rt.alloc();
    let (first, second) = (Numbers::empty(alloc)?, Numbers::empty(alloc)?);
    let Opened {
        mut publisher,
        mut viewers,
    } = open(alloc, first, second, 3)?;
    let Some(a) = pop_new(&mut viewers, &publisher) else {
        return Err(Fail::new("no viewer"));
    };
    let Some(b) = pop_new(&mut viewers, &publisher) else {
        return Err(Fail::new("one viewer"));
    };
    let Some(c) = pop_new(&mut viewers, &publisher) else {
        return Err(Fail::new("two viewers"));
    };
    assert_eq!(rt; (a.shown(), a.missed()), (0, 0));
    let a = told_watcher(&rt, &mut publisher, a, 0);
    let b = told_watcher(&rt, &mut publisher, b, 1);
    let c = told_watcher(&rt, &mut publisher, c, 2);
    let (Some(a), Some(b), Some(c)) = (a, b, c) else {
        return Err(Fail::new("no room"));
    };
    let (published, (a, (b, c))) = join(
        &rt,
        || add_numbers(&rt, &mut publisher, 3, PUBLISHED as u64),
        || {
            join(
                &rt,
                || watch(alloc, a),
                || join(&rt, || watch(alloc, b), || watch(alloc, c)),
            )
        },
    );
    assert_eq!(rt; published, Some(PUBLISHED as u32));
    let (Some(mut a), Some(b), Some(c)) = (a, b, c) else {
        return Err(Fail::new("a list that does not follow"));
    };
    assert_eq!(rt; (a.shown(), b.shown(), c.shown()), (60, 60, 60));
    publisher.end(&rt);
    assert_eq!(rt; a.view(|numbers: &Numbers| numbers.entries()), Some(60));
    Ok(())
}

/// Whether the flag is set within some turns.
fn is_set(flag: &AtomicBool) -> bool {
    let backoff = Backoff::new();
    for _ in 0..TURNS {
        if flag.load(Ordering::SeqCst) {
            return true;
        }
        backoff.snooze();
    }
    false
}

/// Views until the first entry is there.
fn sees_the_first(viewer: &mut Viewer<Numbers, u64>) -> bool {
    let backoff = Backoff::new();
    for _ in 0..TURNS {
        if viewer.view(|numbers: &Numbers| numbers.entries()) == Some(1) {
            return true;
        }
        backoff.snooze();
    }
    false
}

/// The publisher waits for the reader, and the viewer, whose slot comes before, sees the entry meanwhile.
#[test]
fn a_view_beside_a_publish_that_waits(rt: HostRuntime) -> Result<(), Fail> {
    let alloc = rt.alloc();
    let (first, second) = (Numbers::empty(alloc)?, Numbers::empty(alloc)?);
    let Opened {
        mut publisher,
        mut viewers,
    } = open(alloc, first, second, 2)?;
    let (Some(mut reader), Some(mut viewer)) = (viewers.pop(), viewers.pop()) else {
        return Err(Fail::new("no viewer"));
    };
    let (reads, was_seen) = (AtomicBool::new(false), AtomicBool::new(false));
    let (published, (read, viewed)) = join(
        &rt,
        || {
            let reads = is_set(&reads);
            (
                reads,
                add_numbers(&rt, &mut publisher, 0, 1),
                was_seen.load(Ordering::SeqCst),
            )
        },
        || {
            join(
                &rt,
                || {
                    reader.view(|numbers: &Numbers| {
                        reads.store(true, Ordering::SeqCst);
                        (is_set(&was_seen), numbers.entries())
                    })
                },
                || {
                    let sees = sees_the_first(&mut viewer);
                    was_seen.store(sees, Ordering::SeqCst);
                    sees
                },
            )
        },
    );
    assert_eq!(rt; published, (true, Some(1), true));
    assert_eq!(rt; read, Some((true, 0)));
    assert!(rt; viewed);
    Ok(())
}

#[test]
fn a_learnt_front_is_seen(rt: HostRuntime) -> Result<(), Fail> {
    let alloc = rt.alloc();
    let (first, second) = (Numbers::empty(alloc)?, Numbers::empty(alloc)?);
    let Opened {
        mut publisher,
        mut viewers,
    } = open(alloc, first, second, 1)?;
    let Some(mut viewer) = viewers.pop() else {
        return Err(Fail::new("no viewer"));
    };
    let front = publisher.publish(&rt, 5)?;
    viewer.learn(front);
    assert_eq!(rt; (viewer.shown(), viewer.missed()), (1, 0));
    assert_eq!(rt; tell_and_view(&rt, &mut publisher, &mut viewer, 6), Some(2));
    Ok(())
}
