//! A store whose files stop, one after the other, after each number of calls.
ghost use Rattle.mt_service.specs.Records.{IsKept};

use mt_cells::{Bounds, RuleSet};
use mt_keeper::{Keeper, Records};
use mt_keeper_sql::SqlKeeper;
use mt_service::{Outcome, Service};
use sqlite::{Connection, FileStore, Files, Options};
use sqlite_disk::{Crash, Disk, Fuse, Memory};
use std::alloc::Global;
use std::process::Abort;
use std::test::Fail;

pub(crate) const CAPS7: &[u8] = b"net 2 4 7 1 caps7\n\
1001\n0001\n0010\n0000\n1010\n0010\n0001\n0000\n1011\n0011\n0001\n0000\n\
1100\n0100\n0001\n0000\n1101\n0101\n0001\n0000\n1110\n0110\n0001\n0000\n1111\n0111\n0001\n0000\n";

pub(crate) const ONE: &[u8] = b"ooa 2 2 1 1 2 one\n10\n";

// More calls than a run makes of a file.
const MANY_CALLS: u64 = 1000;

// The file that stops.
#[derive(Clone, Copy)]
enum Stopping {
    Log,
    Database,
}

// What becomes of the files behind a run.
#[derive(Clone, Copy)]
enum Ending {
    // The program ends, and they keep all that was written.
    Program,
    // The machine stops, and they lose what was not flushed.
    Machine,
}

// The empty files of a store, of which one stops after so many calls.
fn stopping_files(alloc: Global, stopping: Stopping, calls: u64) -> Files<Fuse<Memory>> {
    let (log, db) = match stopping {
        Stopping::Log => (calls, u64::MAX),
        Stopping::Database => (u64::MAX, calls),
    };
    Files {
        log: Fuse::new(Memory::new(alloc), log),
        db: Fuse::new(Memory::new(alloc), db),
    }
}

// A keeper over the files, or the files where they cannot be opened.
fn opened<D: Disk + Drop>(
    alloc: Global,
    files: Files<D>,
) -> Result<SqlKeeper<FileStore<D>>, Files<D>> {
    if !files.may_be_used() {
        return Err(files);
    }
    match Connection::open_files(alloc, files, Options::new(1)) {
        Ok(connection) => Ok(SqlKeeper::adopt(connection, false)),
        Err((_, left)) => Err(left.into_files()),
    }
}

// The files of the keeper, which is closed where they let it.
fn closed<D: Disk + Drop>(keeper: SqlKeeper<FileStore<D>>) -> Files<D> {
    match keeper.into_connection().close_files() {
        Ok(files) => files,
        Err((_, store)) => store.close(),
    }
}

// Whether the text was answered as accepted.
fn is_accepted<K: Keeper>(alloc: Global, service: &mut Service, keeper: &mut K, text: &[u8]) -> bool
    requires { IsKept service.old.bounds (K.records keeper.old) service.old.events }
    ensures { IsKept service.new.bounds (K.records keeper.new) service.new.events }
{
    let outcome = service.import(alloc, keeper, &mut Vec::new(alloc), text);
    matches!(outcome, Outcome::Accepted { .. })
}

// Imports both texts, and answers how many records there have to be: the number of the last one that
// was accepted.
fn least_by<K: Keeper>(alloc: Global, service: &mut Service, keeper: &mut K) -> u32
    requires { IsKept service.old.bounds (K.records keeper.old) service.old.events }
{
    let first = is_accepted(alloc, service, keeper, CAPS7);
    let second = is_accepted(alloc, service, keeper, ONE);
    if second { 2 } else { u32::from(first) }
}

// The same of the keeper's records.
fn least_of<K: Keeper>(alloc: Global, keeper: &mut K) -> u32 {
    let Some(bounds) = Bounds::new(4, 8) else {
        return 0;
    };
    match Service::open(alloc, keeper, bounds, RuleSet::all()) {
        Ok(mut service) => least_by(alloc, &mut service, keeper),
        Err(_) => 0,
    }
}

// A run over the files: how many records there have to be, and the files behind it.
fn run<D: Disk + Drop>(alloc: Global, files: Files<D>) -> (u32, Files<D>) {
    match opened(alloc, files) {
        Ok(mut keeper) => {
            let least = least_of(alloc, &mut keeper);
            (least, closed(keeper))
        }
        Err(files) => (0, files),
    }
}

// Whether one of the files has stopped, or does so at its next call.
fn have_stopped<D: Disk>(files: &mut Files<D>) -> bool {
    !files.may_be_used() || files.log.len().is_err() || files.db.len().is_err()
}

// A file of these bytes.
fn file_of(alloc: Global, bytes: &[u8]) -> Result<Memory, Fail> {
    let mut file = Memory::new(alloc);
    file.write_at(0, bytes)?;
    Ok(file)
}

// The records that are found behind this ending.
fn found(alloc: Global, files: &mut Files<Fuse<Memory>>, ending: Ending) -> Result<Records, Fail> {
    match ending {
        Ending::Program => {}
        Ending::Machine => {
            files.log.crash();
            files.db.crash();
        }
    }
    let copies = Files {
        log: file_of(alloc, files.log.inner().bytes())?,
        db: file_of(alloc, files.db.inner().bytes())?,
    };
    let mut keeper = opened(alloc, copies).ok().ok_or("the store is not opened")?;
    Ok(keeper.load(alloc)?)
}

// The records are the first of both texts, and at least so many.
fn assert_first(rt: &impl Abort, records: &Records, least: u32) {
    let count = records.len();
    assert!(rt; least <= count && count <= 2);
    if count >= 1 {
        assert_eq!(rt; records.get(1), CAPS7);
    }
    if count >= 2 {
        assert_eq!(rt; records.get(2), ONE);
    }
}

// A run with a file that stops after so many calls. Answers whether it did.
fn assert_run(
    rt: &impl Abort,
    alloc: Global,
    stopping: Stopping,
    calls: u64,
    ending: Ending,
) -> Result<bool, Fail> {
    let (least, mut files) = run(alloc, stopping_files(alloc, stopping, calls));
    let stopped = have_stopped(&mut files);
    let records = found(alloc, &mut files, ending)?;
    assert_first(rt, &records, least);
    assert!(rt; stopped || least == 2);
    Ok(stopped)
}

// Runs until one is not stopped.
fn assert_runs(
    rt: &impl Abort,
    alloc: Global,
    stopping: Stopping,
    ending: Ending,
) -> Result<(), Fail> {
    for calls in 0..MANY_CALLS {
        if !assert_run(rt, alloc, stopping, calls, ending)? {
            return Ok(());
        }
    }
    Err("each run is stopped")?
}

#[test]
fn a_log_that_stops(rt: HostRuntime) -> Result<(), Fail> {
    assert_runs(&rt, rt.alloc(), Stopping::Log, Ending::Program)?;
    assert_runs(&rt, rt.alloc(), Stopping::Log, Ending::Machine)
}

#[test]
fn a_database_that_stops(rt: HostRuntime) -> Result<(), Fail> {
    assert_runs(&rt, rt.alloc(), Stopping::Database, Ending::Program)?;
    assert_runs(&rt, rt.alloc(), Stopping::Database, Ending::Machine)
}
