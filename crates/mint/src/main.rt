//! mint: a parameter server for digital nets.
#![tactic(auto)]

mod causes;
mod command;
#[cfg(test)]
mod event_tests;
#[cfg(test)]
mod full_tests;
mod generating;
#[cfg(test)]
mod import_tests;
mod input;
mod opening;
#[cfg(test)]
mod sequence_tests;
mod sequences;
#[cfg(test)]
mod serve_tests;
#[cfg(test)]
mod served_tests;
mod serving;
mod start;
mod status;
#[cfg(test)]
mod store_tests;
mod stores;
#[cfg(test)]
mod table_tests;
#[cfg(test)]
mod tests;
mod texts;
#[cfg(test)]
mod waiting_tests;
mod words;

use command::{run_command, write_answer};
use mt_feed::{Feed, LinesFeed};
use mt_io::{Sink, StdSink, StdSource};
use mt_keeper::{Keeper, Records, SteadyKeeper};
use mt_keeper_sql::{SqlKeeper, Unopened};
use opening::{UNOPENED, listen, open_feed};
use serving::{Hall, read_serving, run_serve};
use start::{Start, Store, start_of};
use status::Status;
use std::env;
use std::io::ErrorKind;
use std::process::ExitCode;
use std::sync::Wait;
use std::thread::Threads;
use texts::USAGE;

fn main(rt: HostRuntime) -> ExitCode {
    let mut output = StdSink::new(rt.stdout());
    let words = match env::args(&rt) {
        Ok(words) => words,
        Err(error) if error.kind() == ErrorKind::OutOfMemory => {
            return ExitCode::from(Status::Memory.number());
        }
        Err(_) => return ExitCode::from(write_answer(&mut output, Status::Words, USAGE).number()),
    };
    let Ok(words) = words.collect::<Vec<String>>(rt.alloc()) else {
        return ExitCode::from(Status::Memory.number());
    };
    ExitCode::from(match start_of(&words) {
        Start::Usage => write_answer(&mut output, Status::Words, USAGE).number(),
        Start::Command { store, feed, words } => with_store(
            &rt,
            &rt,
            store,
            feed,
            words,
            &mut output,
        ),
    })
}

// Runs the command over its store, which is opened before the feed.
fn with_store<W: Sink, R: Threads + Wait + Sync>(
    rt: &HostRuntime,
    threads: &R,
    store: Store<'_>,
    feed: Option<&str>,
    words: &[String],
    output: &mut W,
) -> u8 {
    match store {
        Store::Memory => {
            let keeper = SteadyKeeper::new(Records::new(Vec::new(rt.alloc())));
            with_feed(rt, threads, keeper, feed, words, output).0
        }
        Store::Path(path) => with_file(rt, threads, path, feed, words, output),
    }
}

// Runs the command over the store at the path, which is closed behind it.
fn with_file<W: Sink, R: Threads + Wait + Sync>(
    rt: &HostRuntime,
    threads: &R,
    path: &str,
    feed: Option<&str>,
    words: &[String],
    output: &mut W,
) -> u8 {
    let keeper = match SqlKeeper::open(rt, path) {
        Ok(keeper) => keeper,
        Err(Unopened::Memory) => return Status::Memory.number(),
        Err(_) => return UNOPENED,
    };
    let (status, keeper) = with_feed(rt, threads, keeper, feed, words, output);
    // Where this fails, the records lie in the file and its log together.
    let _ = keeper.close();
    status
}

// Opens the feed and runs the words over it and the keeper's records. The keeper comes back.
fn with_feed<K: Keeper + Send, W: Sink, R: Threads + Wait + Sync>(
    rt: &HostRuntime,
    threads: &R,
    keeper: K,
    feed: Option<&str>,
    words: &[String],
    output: &mut W,
) -> (u8, K) {
    let mut feeds: Vec<Box<dyn Feed + Send>> = Vec::new(rt.alloc());
    if let Some(path) = feed {
        let file = match open_feed(rt, path) {
            Ok(file) => file,
            Err(status) => return (status, keeper),
        };
        let Ok(lines) = Box::new(rt.alloc(), LinesFeed::new(StdSink::new(file))) else {
            return (Status::Memory.number(), keeper);
        };
        let lines: Box<dyn Feed + Send> = lines;
        if feeds.push(lines).is_err() {
            return (Status::Memory.number(), keeper);
        }
    }
    run_over(rt, threads, keeper, feeds, words, output)
}

// Runs the words over the keeper's records and the feeds. The keeper comes back.
fn run_over<K: Keeper + Send, W: Sink, R: Threads + Wait + Sync>(
    rt: &HostRuntime,
    threads: &R,
    keeper: K,
    feeds: Vec<Box<dyn Feed + Send>>,
    words: &[String],
    output: &mut W,
) -> (u8, K) {
    if let Some(serving) = read_serving(words) {
        return match listen(rt, serving.port, serving.workers) {
            Ok(acceptors) => {
                let hall = run_serve(threads, rt.alloc(), words, keeper, feeds, acceptors, output);
                let Hall { status, keeper, .. } = hall;
                (status.number(), keeper)
            }
            Err(status) => (status, keeper),
        };
    }
    let (mut keeper, mut feeds) = (keeper, feeds);
    let mut input = StdSource::new(rt.stdin());
    let status = run_command(
        rt.alloc(),
        words,
        &mut keeper,
        &mut feeds,
        &mut input,
        output,
    );
    (status.number(), keeper)
}
