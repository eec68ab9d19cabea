//! Workers that serve connections side by side.
ghost use Rattle.std.specs.Prelude.{◌≡◌, ◌≢◌, ◌<◌, ◌≤◌, ◌-◌, ◌^◌, ℕ, All, length, slice_index_or, vec_len};
ghost use Rattle.mt_server.specs.Workers.{AreServed, Worked};
ghost use Rattle.mt_server.specs.declared.workers.WorkerEnd.TheVariants as worker_end;

use crate::connection::serve_connection;
use crate::shared::{LockedOffice, Naming, Shared};
use mt_derive::Event;
use mt_io::Acceptor;
use mt_keeper::Keeper;
use mt_publish::Viewer;
use mt_table::Table;
use std::alloc::Global;
use std::sync::{Mutex, Wait};
use std::thread;
use std::thread::Threads;

/// How a worker ended.
#[derive(Clone, Copy, PartialEq, Eq, Debug)]
pub enum WorkerEnd {
    /// It has not begun.
    Ready,
    /// It served all its connections.
    Served,
    /// Its acceptor failed.
    AcceptFault,
}

/// What serves connections one after the other: how many are left, and how it ended.
#[derive(Drop)]
pub struct Worker<A: Acceptor> {
    pub acceptor: A,
    pub viewer: Viewer<Table, Event>,
    pub left: u64,
    pub end: WorkerEnd,
}

/// How workers ended together.
#[derive(Clone, Copy, PartialEq, Eq, Debug)]
pub enum ServeEnd {
    /// Each served all its connections.
    Served,
    /// This worker is the first whose acceptor failed, counted from 1.
    AcceptFault { worker: u32 },
}

// Accepts and serves connections until none is left.
fn work<A: Acceptor, K: Keeper, N: Naming, R: Wait>(
    rt: &R,
    alloc: Global,
    desk: &Mutex<Shared<K, N>>,
    worker: &mut Worker<A>,
)
    requires { worker.old.viewer.publication ≡ N.publication }
    ensures publication { worker.new.viewer.publication ≡ worker.old.viewer.publication }
    ensures worked { Worked worker.old.left worker.new.left (A.accepted worker.old.acceptor)
        (A.accepted worker.new.acceptor) (A.faults worker.old.acceptor)
        (A.faults worker.new.acceptor) worker.new.end }
{
    while worker.left > 0 {
        let Ok(mut line) = worker.acceptor.accept() else {
            worker.end = WorkerEnd::AcceptFault;
            return;
        };
        worker.left -= 1;
        let mut office = LockedOffice::new(rt, desk);
        serve_connection(alloc, &mut worker.viewer, &mut office, &mut line);
    }
    worker.end = WorkerEnd::Served;
}

/// Serves the connections of each worker, one after the other, each worker in a thread of its own, and
/// joins them. A worker ends where its acceptor fails.
pub fn serve<
    A: Acceptor + Send,
    K: Keeper + Send,
    N: Naming + Send + Sync,
    R: Threads + Wait + Sync,
>(rt: &R, alloc: Global, desk: &Mutex<Shared<K, N>>, workers: &mut Vec<Worker<A>>) -> ServeEnd
where
    A::Line: Send,
    requires few { vec_len workers.old < 2 ^ 32 }
    requires publication { All (λ w. w.viewer.publication ≡ N.publication) workers.old.items }
    ensures count { length workers.new.items ≡ length workers.old.items }
    ensures each { (i : ℕ) (d : _) → i < length workers.old.items
        → let w = slice_index_or workers.old.items i d in
        let w' = slice_index_or workers.new.items i d in
        Worked w.left w'.left (A.accepted w.acceptor) (A.accepted w'.acceptor)
        (A.faults w.acceptor) (A.faults w'.acceptor) w'.end }
    ensures ended { AreServed (λ w. w.end) workers.new.items result }
{
    let count = workers.len();
    if count == 0 {
        return ServeEnd::Served;
    }
    thread::for_each_mut(
        rt,
        workers.as_mut_slice(),
        count,
        &|_: usize, w: &mut Worker<A>|
            requires { w.now.viewer.publication ≡ N.publication }
            ensures { Worked w.entry.now.left w.exit.now.left (A.accepted w.entry.now.acceptor)
                (A.accepted w.exit.now.acceptor) (A.faults w.entry.now.acceptor)
                (A.faults w.exit.now.acceptor) w.exit.now.end }
        { work(rt, alloc, desk, w) },
    );
    first_fault(workers)
}

// The first worker whose acceptor failed.
fn first_fault<A: Acceptor>(workers: &Vec<Worker<A>>) -> ServeEnd
    requires few { vec_len workers.now < 2 ^ 32 }
    requires ended { All (λ w. w.end ≢ worker_end.Ready) workers.now.items }
    ensures { AreServed (λ w. w.end) workers.now.items result }
{
    for i in 0..workers.len() {
        if workers[i].end == WorkerEnd::AcceptFault {
            return ServeEnd::AcceptFault {
                worker: i as u32 + 1,
            };
        }
    }
    ServeEnd::Served
}
