//! The top call of serving: a desk is opened, and workers serve it.
ghost use Rattle.std.specs.Prelude.{◌≡◌, ◌≢◌, ◌<◌, ◌≤◌, ◌^◌, ℕ, List, [], All, map, length, slice_index_or, vec_len, vec_capacity, string_bytes, MatchOption, None};
ghost use Rattle.mt_io.specs.Faults.{Rose};
ghost use Rattle.mt_cells.specs.declared.bounds.Bounds.{Bounds};
ghost use Rattle.mt_derive.specs.declared.events.Event.{Event};
ghost use Rattle.mt_publish.specs.States.{Publication};
ghost use Rattle.mt_table.specs.declared.published.Base.{Base};
ghost use Rattle.mt_service.specs.Records.{IsKept};
ghost use Rattle.mt_service.specs.Texts.{open_text};
ghost use Rattle.mt_server.specs.declared.workers.ServeEnd.{ServeEnd};
ghost use Rattle.mt_server.specs.Workers.{AreServed, Worked};
ghost use Rattle.mint.specs.declared.words.Task.TheVariants as task;
ghost use Rattle.mint.specs.Output.{Wrote, WrotePrefix};
ghost use Rattle.mint.specs.Serving.{AskToServe, AskForNoServing, IsTurnedAway, HasBegun, status_of_serving};
ghost use Rattle.mint.specs.Statuses.{Finished, CutOff, GivenUp, ending};
ghost use Rattle.mint.specs.Store.{AreLeft};
ghost use Rattle.mint.specs.Words.{IsCommand};

use crate::command::write_answer;
use crate::status::Status;
use crate::stores::bad_store;
use crate::texts::USAGE;
use crate::words::{Command, Task, read_words};
use mt_cells::{Bounds, RuleSet};
use mt_derive::Event;
use mt_feed::Feed;
use mt_io::{Acceptor, Sink};
use mt_keeper::Keeper;
use mt_publish::Viewer;
use mt_server::{Desk, DeskRefused, Naming, OpenDesk, ServeEnd, Shared, Worker, WorkerEnd, serve};
use mt_service::OpenRefused;
use mt_table::Table;
use std::alloc::Global;
use std::marker::Brand;
use std::sync::{Mutex, Wait};
use std::thread::Threads;

/// What is there when serving ends: how it ended, what was given to it, and the workers, where any
/// began. The acceptors are theirs then.
#[derive(Drop)]
pub struct Hall<K: Keeper, A: Acceptor> {
    pub status: Status,
    pub keeper: K,
    pub feeds: Vec<Box<dyn Feed + Send>>,
    pub acceptors: Vec<A>,
    pub workers: Vec<Worker<A>>,
}

/// What words ask for that ask to serve.
#[derive(Clone, Copy)]
pub struct Serving {
    pub bounds: Bounds,
    pub port: u16,
    pub workers: u32,
    pub connections: u64,
}

/// What the words ask for, where they ask to serve: `M,S serve PORT WORKERS CONNECTIONS`.
pub fn read_serving(words: &[String]) -> Option<Serving>
    ensures { MatchOption result (AskForNoServing (map string_bytes words.now))
        (λ s. IsCommand (map string_bytes words.now) (record {
          bounds = s.bounds;
          task = task.Serve s.port s.workers s.connections;
        }) × (0 < s.workers) × (s.workers ≤ 16)
        × ((b : Bounds) (workers connections : ℕ)
        → AskToServe (map string_bytes words.now) b workers connections → workers ≡ s.workers)) }
{
    let Command { bounds, task } = read_words(words)?;
    match task {
        Task::Serve {
            port,
            workers,
            connections,
        } => Some(Serving {
            bounds,
            port,
            workers,
            connections,
        }),
        _ => None,
    }
}

/// Opens a desk over the records of this keeper, and serves connections: `M,S serve PORT WORKERS
/// CONNECTIONS` makes a worker for each acceptor, which serves CONNECTIONS connections, all side by
/// side, and ends when they have ended. Where the records are refused it writes why, and all other
/// words give the usage; no worker begins then.
pub fn run_serve<K: Keeper + Send, A: Acceptor + Send + Drop, W: Sink, R: Threads + Wait + Sync>(
    rt: &R,
    alloc: Global,
    words: &[String],
    keeper: K,
    feeds: Vec<Box<dyn Feed + Send>>,
    acceptors: Vec<A>,
    output: &mut W,
) -> Hall<K, A>
where
    A::Line: Send,
    requires { (b : Bounds) (workers connections : ℕ)
        → AskToServe (map string_bytes words.now) b workers connections
        → vec_len acceptors ≡ workers }

    // Workers began, over records that stand for a list where the keepers of this type tell them:
    // one for each acceptor, in their order, of which each did what it says.
    ensures opened { HasBegun result.status → ((k : K) → K.records k ≢ None)
        → (b : Bounds) × (workers connections : ℕ)
        × AskToServe (map string_bytes words.now) b workers connections
        × ((L : List Event) × IsKept b (K.records keeper) L) }
    ensures served { HasBegun result.status → (b : Bounds) × (workers connections : ℕ)
        × AskToServe (map string_bytes words.now) b workers connections
        × ((M : List Event) × IsKept b (K.records result.keeper) M)
        × ((i : ℕ) (d : _) → i < length acceptors.items
        → let w = slice_index_or result.workers.items i d in
        let a = slice_index_or acceptors.items i d.acceptor in
        Worked connections w.left (A.accepted a) (A.accepted w.acceptor) (A.faults a)
        (A.faults w.acceptor) w.end) }
    ensures ended { HasBegun result.status → (end : ServeEnd)
        × AreServed (λ w. w.end) result.workers.items end
        × (result.status ≡ status_of_serving end) }
    ensures handed { HasBegun result.status → (result.acceptors.items ≡ [])
        × (length result.workers.items ≡ length acceptors.items) }
    ensures unwritten { HasBegun result.status → output.new ≡ output.old }

    // No worker began: the text for that was written whole, or a prefix of it, or nothing.
    ensures done { ending result.status ≡ Finished → ¬ HasBegun result.status → (text : List ℕ)
        × IsTurnedAway (map string_bytes words.now) (K.records keeper)
        (K.records result.keeper) result.status text
        × Wrote (W.written output.old) (W.written output.new) text }
    ensures cut { ending result.status ≡ CutOff → (status : Status) × (text : List ℕ)
        × IsTurnedAway (map string_bytes words.now) (K.records keeper)
        (K.records result.keeper) status text
        × WrotePrefix (W.written output.old) (W.written output.new) text }
    ensures given_up { ending result.status ≡ GivenUp → (b : Bounds)
        × (workers connections : ℕ)
        × AskToServe (map string_bytes words.now) b workers connections
        × AreLeft (K.records keeper) (K.records result.keeper) × (output.new ≡ output.old) }
    ensures unbegun { ¬ HasBegun result.status → (result.workers.items ≡ [])
        × (result.acceptors ≡ acceptors) × (result.feeds ≡ feeds) }
    ensures untouched { AskForNoServing (map string_bytes words.now)
        → result.keeper ≡ keeper }

    // It doesn't give up by itself, and reads no input.
    ensures unread { result.status ≢ Status.ReadFault }
    ensures write_fault { result.status ≡ Status.WriteFault
        → Rose (W.faults output.old) (W.faults output.new) }
    ensures keeper_fault { result.status ≡ Status.KeeperFault
        → Rose (K.faults keeper) (K.faults result.keeper) }
{
    let Some(serving) = read_serving(words) else {
        return Hall {
            status: write_answer(output, Status::Words, USAGE),
            keeper,
            feeds,
            acceptors,
            workers: Vec::new(alloc),
        };
    };
    let Ok(workers) = Vec::with_capacity(alloc, acceptors.len()) else {
        return Hall {
            status: Status::Memory,
            keeper,
            feeds,
            acceptors,
            workers: Vec::new(alloc),
        };
    };
    let (bounds, rules) = (serving.bounds, RuleSet::all());
    match Desk::open(alloc, keeper, feeds, bounds, rules, serving.workers) {
        Ok(OpenDesk { desk, viewers }) => {
            let workers = hire(workers, acceptors, viewers, serving.connections);
            let (end, desk, workers) = staffed::<K, A, Brand, R>(rt, alloc, desk, workers);
            let (keeper, feeds) = desk.close(rt);
            Hall {
                status: status_of(end),
                keeper,
                feeds,
                acceptors: Vec::new(alloc),
                workers,
            }
        }
        Err(DeskRefused { why, keeper, feeds }) => Hall {
            status: write_refusal(alloc, why, output),
            keeper,
            feeds,
            acceptors,
            workers,
        },
    }
}

// How serving ends whose workers end so.
fn status_of(end: ServeEnd) -> Status
    ensures { result ≡ status_of_serving end }
{
    match end {
        ServeEnd::Served => Status::Ok,
        ServeEnd::AcceptFault { .. } => Status::Device,
    }
}

// Writes why the records are refused, and answers how that ends.
fn write_refusal<W: Sink>(alloc: Global, why: OpenRefused, output: &mut W) -> Status
    ensures done { ending result ≡ Finished → (result ≡ Status.BadStore)
        × Wrote (W.written output.old) (W.written output.new) (open_text why) }
    ensures cut { ending result ≡ CutOff
        → WrotePrefix (W.written output.old) (W.written output.new) (open_text why) }
    ensures known { ending result ≢ GivenUp
        → (why ≢ OpenRefused.KeeperFault) × (why ≢ OpenRefused.Memory) }
    ensures unwritten { ending result ≡ GivenUp → output.new ≡ output.old }
    ensures unbegun { ¬ HasBegun result }
    ensures unread { result ≢ Status.ReadFault }
    ensures keeper_fault { result ≡ Status.KeeperFault → why ≡ OpenRefused.KeeperFault }
    ensures write_fault { result ≡ Status.WriteFault
        → Rose (W.faults output.old) (W.faults output.new) }
{
    match bad_store(alloc, why) {
        Ok(answer) => write_answer(output, answer.status, &answer.text),
        Err(cause) => cause.status(),
    }
}

// A worker for each acceptor, in their order.
fn hire<A: Acceptor + Drop>(
    mut workers: Vec<Worker<A>>,
    mut acceptors: Vec<A>,
    mut viewers: Vec<Viewer<Table, Event>>,
    connections: u64,
) -> Vec<Worker<A>>
    requires room { (workers.items ≡ []) × (vec_len acceptors ≤ vec_capacity workers) }
    requires count { vec_len viewers ≡ vec_len acceptors }
    ensures acceptors { map (λ w. w.acceptor) result.items ≡ acceptors.items }
    ensures left { All (λ w. w.left ≡ connections) result.items }
    ensures publication { (p : Publication Base) → All (λ v. v.publication ≡ p) viewers.items
        → All (λ w. w.viewer.publication ≡ p) result.items }
{
    while !acceptors.is_empty() {
        let acceptor = acceptors.remove(0);
        let viewer = viewers.remove(0);
        workers.push_reserved(Worker {
            acceptor,
            viewer,
            left: connections,
            end: WorkerEnd::Ready,
        });
    }
    workers
}

// Serves the desk, whose publication is the one that `N` names, by the workers.
fn staffed<K: Keeper + Send, A: Acceptor + Send, N: Naming + Send + Sync, R: Threads + Wait + Sync>(
    rt: &R,
    alloc: Global,
    desk: Desk<K>,
    mut workers: Vec<Worker<A>>,
) -> (ServeEnd, Desk<K>, Vec<Worker<A>>)
where
    A::Line: Send,
    requires named { desk.history.publication ≡ N.publication }
    requires few { vec_len workers < 2 ^ 32 }
    requires publication { All (λ w. w.viewer.publication ≡ desk.history.publication)
        workers.items }
    ensures publication { result.1.history.publication ≡ desk.history.publication }
    ensures count { length result.2.items ≡ length workers.items }
    ensures each { (i : ℕ) (d : _) → i < length workers.items
        → let w = slice_index_or workers.items i d in
        let w' = slice_index_or result.2.items i d in
        Worked w.left w'.left (A.accepted w.acceptor) (A.accepted w'.acceptor)
        (A.faults w.acceptor) (A.faults w'.acceptor) w'.end }
    ensures ended { AreServed (λ w. w.end) result.2.items result.0 }
{
    let shared: Mutex<Shared<K, N>> = Mutex::new(Shared::new(desk));
    let end = serve(rt, alloc, &shared, &mut workers);
    (end, shared.into_inner().into_desk(), workers)
}
