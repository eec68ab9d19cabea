//! Two workers side by side, each of which goes on once the other has come as far.
ghost use Rattle.std.specs.Prelude.{◌≡◌, ℕ, map, vec_len, string_bytes, None, Some, refl};
ghost use Rattle.mt_cells.specs.declared.bounds.Bounds.{Bounds};
ghost use Rattle.mint.specs.Serving.{AskToServe};

use crate::serve_tests::as_many;
use crate::serving::run_serve;
use crate::status::Status;
use crate::tests::words;
use crossbeam_utils::Backoff;
use mt_io::{Acceptor, Failed, Link, Sink, Source, SteadySink, SteadySource};
use mt_keeper::{Keeper, KeeperRefused, Records};
use std::alloc::{AllocError, Global};
use std::sync::atomic::{AtomicBool, Ordering};
use std::sync::{Arc, Wait};
use std::test::Fail;
use std::thread::Threads;

// A loop that waits for another thread gives up after so many turns.
const TURNS: u32 = 10_000_000;

// Whether the flag is set within some turns.
fn is_set(flag: &AtomicBool) -> bool {
    let backoff = Backoff::new();
    for _ in 0..TURNS {
        if flag.load(Ordering::SeqCst) {
            return true;
        }
        backoff.snooze();
    }
    false
}

// A keeper without records, whose put says that it has begun and waits for another flag. It tells no
// records.
#[derive(Drop)]
struct WaitingKeeper {
    begun: Arc<AtomicBool>,
    awaited: Arc<AtomicBool>,
    faults: u64,
}

impl Keeper for WaitingKeeper {
    ghost records = { λ _. None };

    ghost faults = { λ k. k.faults };

    fn load(&mut self, alloc: Global) -> Result<Records, KeeperRefused> {
        Ok(Records::new(Vec::new(alloc)))
    }

    fn put(&mut self, _alloc: Global, _number: u32, _text: &[u8]) -> Result<(), KeeperRefused> {
        self.begun.store(true, Ordering::SeqCst);
        if is_set(&self.awaited) {
            return Ok(());
        }
        self.faults = self.faults.saturating_add(1);
        Err(KeeperRefused::Fault)
    }
}

// A link whose reads wait for a flag, and which sets another one where the answer is written whole. It
// tells no bytes.
#[derive(Drop)]
struct WaitingLink {
    source: SteadySource,
    awaited: Arc<AtomicBool>,
    answer: Vec<u8>,
    answered: Arc<AtomicBool>,
    faults: u64,
}

impl Source for WaitingLink {
    ghost left = { λ _. None };

    ghost faults = { λ link. link.faults };

    ghost rest = { λ _. Some (record { bytes = None; faults = 0 }) };

    fn read(&mut self, buf: &mut [u8]) -> Result<usize, Failed> {
        if is_set(&self.awaited) {
            if let Ok(count) = self.source.read(buf) {
                return Ok(count);
            }
        }
        self.faults = self.faults.saturating_add(1);
        Err(Failed)
    }
}

impl Sink for WaitingLink {
    ghost written = { λ _. None };

    ghost faults = { λ _. 0 };

    ghost rest = { λ link. Some (record { bytes = None; faults = link.faults }) };

    fn write_all(&mut self, bytes: &[u8]) -> Result<(), Failed> {
        if bytes == self.answer.as_slice() {
            self.answered.store(true, Ordering::SeqCst);
        }
        Ok(())
    }
}

impl Link for WaitingLink {
    ghost sink_is_rest = { λ _. refl };

    ghost source_is_rest = { λ _. refl };
}

// An acceptor that gives one link.
#[derive(Drop)]
struct OneLink {
    link: Option<WaitingLink>,
    accepted: u64,
    faults: u64,
}

impl Acceptor for OneLink {
    type Line = WaitingLink;

    ghost faults = { λ a. a.faults };

    ghost accepted = { λ a. a.accepted };

    fn accept(&mut self) -> Result<WaitingLink, Failed> {
        if self.accepted < u64::MAX {
            if let Some(link) = self.link.take() {
                self.accepted += 1;
                return Ok(link);
            }
        }
        self.faults = self.faults.saturating_add(1);
        Err(Failed)
    }
}

// A request, and what is answered.
type Exchange = (&'static [u8], &'static [u8]);

const POST: Exchange = (
    b"POST /import HTTP/1.1\r\nContent-Length: 21\r\n\r\nooa 2 2 1 1 2 one\n10\n",
    b"HTTP/1.1 200 OK\r\nContent-Type: application/json\r\nContent-Length: 57\r\n\r\n\
{\"import\":1,\"name\":\"one\",\"outcome\":\"accepted\",\"raised\":0}",
);

const GET: Exchange = (
    b"GET /version HTTP/1.1\r\n\r\n",
    b"HTTP/1.1 200 OK\r\nContent-Type: application/json\r\nContent-Length: 13\r\n\r\n{\"version\":0}",
);

// A link with the request, whose reads wait for one flag and whose response sets another.
fn one_link(
    alloc: Global,
    exchange: Exchange,
    awaited: &Arc<AtomicBool>,
    answered: &Arc<AtomicBool>,
) -> Result<OneLink, AllocError> {
    let (request, answer) = exchange;
    let link = WaitingLink {
        source: SteadySource::new(Vec::from_slice(alloc, request)?, 100),
        awaited: Arc::try_clone(awaited)?,
        answer: Vec::from_slice(alloc, answer)?,
        answered: Arc::try_clone(answered)?,
        faults: 0,
    };
    Ok(OneLink {
        link: Some(link),
        accepted: 0,
        faults: 0,
    })
}

fn flag_of(alloc: Global, value: bool) -> Result<Arc<AtomicBool>, AllocError> {
    Ok(Arc::new(alloc, AtomicBool::new(value))?)
}

// How serving by these ends, and how many workers were not given a view.
fn serve_by<R: Threads + Wait + Sync>(
    rt: &R,
    alloc: Global,
    words: &[String],
    keeper: WaitingKeeper,
    acceptors: Vec<OneLink>,
    output: &mut SteadySink,
) -> (Status, usize)
    requires { (b : Bounds) (workers connections : ℕ)
        → AskToServe (map string_bytes words.now) b workers connections
        → vec_len acceptors ≡ workers }
{
    let hall = run_serve(rt, alloc, words, keeper, Vec::new(alloc), acceptors, output);
    let missed = hall
        .workers
        .iter()
        .filter(|w| w.viewer.missed() > 0)
        .count();
    (hall.status, missed)
}

// The question comes once the import's put has begun, which ends once the question is answered.
#[test]
fn a_question_beside_a_put_that_waits(rt: HostRuntime) -> Result<(), Fail> {
    let alloc = rt.alloc();
    let (ready, begun) = (flag_of(alloc, true)?, flag_of(alloc, false)?);
    let (imported, answered) = (flag_of(alloc, false)?, flag_of(alloc, false)?);
    let mut acceptors = Vec::new(alloc);
    acceptors.push(one_link(alloc, POST, &ready, &imported)?)?;
    acceptors.push(one_link(alloc, GET, &begun, &answered)?)?;
    let keeper = WaitingKeeper {
        begun,
        awaited: Arc::try_clone(&answered)?,
        faults: 0,
    };
    let words = words(alloc, &["4,8", "serve", "8080", "2", "1"])?;
    let words = words.as_slice();
    let acceptors = as_many(words, acceptors)?;
    let mut output = SteadySink::new(alloc, 64)?;
    let ended = serve_by(&rt, alloc, words, keeper, acceptors, &mut output);
    assert_eq!(rt; ended, (Status::Ok, 0));
    assert!(rt; answered.load(Ordering::SeqCst));
    assert!(rt; imported.load(Ordering::SeqCst));
    Ok(())
}
