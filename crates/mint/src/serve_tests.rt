//! Serving by one worker, over a link in memory.
ghost use Rattle.std.specs.Prelude.{◌≡◌, ℕ, map, vec_len, string_bytes, IfOk};
ghost use Rattle.mt_cells.specs.declared.bounds.Bounds.{Bounds};
ghost use Rattle.mint.specs.Serving.{AskToServe};

use crate::serving::{Hall, read_serving, run_serve};
use crate::status::Status;
use crate::tests::words;
use mt_io::{MemoryAcceptor, MemoryLink, MemorySink, MemorySource, SteadySink};
use mt_keeper::{Records, SteadyKeeper};
use std::alloc::Global;
use std::process::Abort;
use std::sync::Wait;
use std::test::Fail;
use std::thread::Threads;

// Links with these streams.
fn links(alloc: Global, streams: &[&[u8]]) -> Result<Vec<MemoryLink>, Fail> {
    let mut links = Vec::new(alloc);
    for stream in streams {
        let source = MemorySource::new(Vec::from_slice(alloc, stream)?, 7, Vec::new(alloc));
        let sink = MemorySink::new(alloc, 4096, Vec::new(alloc), 0)?;
        links.push(MemoryLink::new(source, sink))?;
    }
    Ok(links)
}

/// The acceptors, where the words ask for as many workers or don't ask to serve.
pub(crate) fn as_many<A: Drop>(words: &[String], acceptors: Vec<A>) -> Result<Vec<A>, Fail>
    ensures { IfOk result (λ acceptors. (b : Bounds) (workers connections : ℕ)
        → AskToServe (map string_bytes words.now) b workers connections
        → vec_len acceptors ≡ workers) }
{
    if let Some(serving) = read_serving(words) {
        if serving.workers as usize != acceptors.len() {
            return Err("as many acceptors as workers")?;
        }
    }
    Ok(acceptors)
}

// The status, the number of workers, and how many connections are left to the first.
fn end_of(hall: Hall<SteadyKeeper, MemoryAcceptor>) -> (Status, usize, u64) {
    let left = match hall.workers.first() {
        Some(worker) => worker.left,
        None => 0,
    };
    (hall.status, hall.workers.len(), left)
}

// Serves by these acceptors, over no records.
fn serve_by<R: Threads + Wait + Sync>(
    rt: &R,
    alloc: Global,
    words: &[String],
    acceptors: Vec<MemoryAcceptor>,
    output: &mut SteadySink,
) -> (Status, usize, u64)
    requires { (b : Bounds) (workers connections : ℕ)
        → AskToServe (map string_bytes words.now) b workers connections
        → vec_len acceptors ≡ workers }
{
    let keeper = SteadyKeeper::new(Records::new(Vec::new(alloc)));
    end_of(run_serve(rt, alloc, words, keeper, Vec::new(alloc), acceptors, output))
}

// Serving ends so, and so much is written.
fn assert_served<R: Threads + Wait + Sync + Abort>(
    rt: &R,
    alloc: Global,
    texts: &[&str],
    streams: &[&[u8]],
    end: (Status, usize, u64),
    written: &[u8],
) -> Result<(), Fail> {
    let words = words(alloc, texts)?;
    let words = words.as_slice();
    let mut acceptors = Vec::new(alloc);
    acceptors.push(MemoryAcceptor::new(links(alloc, streams)?))?;
    let acceptors = as_many(words, acceptors)?;
    let mut output = SteadySink::new(alloc, 64)?;
    assert_eq!(rt; serve_by(rt, alloc, words, acceptors, &mut output), end);
    assert_eq!(rt; output.bytes(), written);
    Ok(())
}

const VERSION: &[u8] = b"GET /version HTTP/1.1\r\n\r\n";

#[test]
fn a_worker_serves_its_connections(rt: HostRuntime) -> Result<(), Fail> {
    let (rt, alloc) = (&rt, rt.alloc());
    let serve = ["4,8", "serve", "8080", "1", "1"];
    assert_served(rt, alloc, &serve, &[VERSION], (Status::Ok, 1, 0), b"")?;
    assert_served(rt, alloc, &serve, &[], (Status::Device, 1, 1), b"")?;
    let twice = ["4,8", "serve", "8080", "1", "2"];
    assert_served(rt, alloc, &twice, &[VERSION], (Status::Device, 1, 1), b"")?;
    let usage = b"usage: mint STORE FEED M,S COMMAND\n";
    assert_served(
        rt,
        alloc,
        &["4,8", "check"],
        &[VERSION],
        (Status::Words, 0, 0),
        usage,
    )
}
