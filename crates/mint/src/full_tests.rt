//! Stores with as many records as there may be, and more.
use crate::status::Status;
use crate::store_tests::{Case, assert_runs, empty};
use mt_keeper::{Records, SteadyKeeper};
use std::alloc::Global;
use std::test::Fail;

const IMPORT: &[&str] = &["1,1", "import"];

const VALUE: &[&str] = &["1,1", "value", "net", "2", "1", "1"];

const NEW: &[u8] = b"ooa 2 1 1 1 1 new\n1\n";

const FIFTH: &[u8] = b"ooa 2 1 1 1 1 n5\n1\n";

const FULL: &[u8] = b"refused: full at 1024 imports\n";

// More records than a test has.
const MANY: usize = 4096;

// A keeper of so many imports, named n1 and so on, of which the first so many are withdrawn, each
// before the next is imported.
fn keeper_of(alloc: Global, imports: u32, withdrawals: u32) -> Result<SteadyKeeper, Fail> {
    let mut texts = Vec::new(alloc);
    for n in 0..imports {
        let text = format!(in alloc; "ooa 2 1 1 1 1 n{}\n1\n", n + 1)?;
        texts.push(text.into_bytes())?;
        if n < withdrawals {
            let text = format!(in alloc; "withdraw n{}\n", n + 1)?;
            texts.push(text.into_bytes())?;
        }
    }
    if texts.len() > MANY {
        return Err("too many records")?;
    }
    Ok(SteadyKeeper::new(Records::new(texts)))
}

// A withdrawal makes no room.
#[test]
fn a_store_full_of_imports(rt: HostRuntime) -> Result<(), Fail> {
    let alloc = rt.alloc();
    let cases: [Case<'_>; 5] = [
        (IMPORT, NEW, Status::Refused, FULL),
        (IMPORT, FIFTH, Status::Ok, b"already 5 n5\n"),
        (
            IMPORT,
            b"withdraw n1024\n",
            Status::Ok,
            b"withdrawn 1024 n1024: lowered 0\n",
        ),
        (IMPORT, NEW, Status::Refused, FULL),
        (
            VALUE,
            b"",
            Status::Ok,
            b"net 2 1 1: k 1, t 0, since 0, version 1025\n",
        ),
    ];
    let mut keeper = keeper_of(alloc, 1024, 0)?;
    assert_runs(&rt, alloc, &mut keeper, &mut Vec::new(alloc), &cases)
}

// Each import is withdrawn.
#[test]
fn a_store_full_of_events(rt: HostRuntime) -> Result<(), Fail> {
    let alloc = rt.alloc();
    let cases: [Case<'_>; 4] = [
        (
            VALUE,
            b"",
            Status::Ok,
            b"net 2 1 1: k 1, t 0, since 0, version 2048\n",
        ),
        (IMPORT, NEW, Status::Refused, FULL),
        (
            IMPORT,
            FIFTH,
            Status::Refused,
            b"refused: import 5 n5 is withdrawn\n",
        ),
        (
            IMPORT,
            b"withdraw n5\n",
            Status::Ok,
            b"already withdrawn 5 n5\n",
        ),
    ];
    let mut keeper = keeper_of(alloc, 1024, 1024)?;
    assert_runs(&rt, alloc, &mut keeper, &mut Vec::new(alloc), &cases)
}

#[test]
fn stores_of_too_many_records(rt: HostRuntime) -> Result<(), Fail> {
    let alloc = rt.alloc();
    for (imports, withdrawals, line) in [
        (1025, 0, b"store: record 1025: full\n".as_slice()),
        (1025, 1024, b"store: 2049 records, more than 2048\n"),
    ] {
        let cases: [Case<'_>; 2] = [
            (VALUE, b"", Status::BadStore, line),
            (IMPORT, FIFTH, Status::BadStore, line),
        ];
        let mut keeper = keeper_of(alloc, imports, withdrawals)?;
        assert_runs(&rt, alloc, &mut keeper, &mut Vec::new(alloc), &cases)?;
    }
    Ok(())
}

// As many claims as there may be imports.
#[test]
fn a_store_full_of_generated_claims(rt: HostRuntime) -> Result<(), Fail> {
    let alloc = rt.alloc();
    let words: &[&str] = &["16,32", "generate", "1", "1024"];
    let cases: [Case<'_>; 2] = [
        (
            words,
            b"",
            Status::Ok,
            b"generated 1024: accepted 1024, already 0, refused 0, score 215577, tried 0\n",
        ),
        (
            words,
            b"",
            Status::Ok,
            b"generated 1024: accepted 0, already 1024, refused 0, score 215577, tried 0\n",
        ),
    ];
    assert_runs(&rt, alloc, &mut empty(alloc), &mut Vec::new(alloc), &cases)
}
