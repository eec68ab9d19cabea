//! Links and keepers that fail.
use crate::connections::{Case, assert_rows, assert_served, bounds, empty};
use crate::exchanges::{
    CAPS7, Exchange, IMPORT, JSON, OK, Row, answer_of, exchanges_of, stream_of, whole_in,
};
use mt_cells::RuleSet;
use mt_keeper::{MemoryKeeper, Records};
use mt_server::{Desk, DeskRefused, Ended};
use mt_service::OpenRefused;
use std::alloc::Global;
use std::process::Abort;
use std::sync::Wait;
use std::test::Fail;

const ACCEPTED: &str = "{\"import\":1,\"name\":\"caps7\",\"outcome\":\"accepted\",\"raised\":5}";

const ALREADY: &str = "{\"import\":1,\"name\":\"caps7\",\"outcome\":\"already\"}";

// A question, an import, and the question again.
const ROWS: [Row; 3] = [
    (
        "GET /net/2/4/7",
        "",
        OK,
        JSON,
        "{\"depth\":4,\"k\":2,\"kind\":\"net\",\"m\":4,\"q\":2,\"s\":7,\"since\":0,\"t\":2,\"version\":0}",
    ),
    (IMPORT, CAPS7, OK, JSON, ACCEPTED),
    (
        "GET /net/2/4/7?at_least=1",
        "",
        OK,
        JSON,
        "{\"depth\":4,\"k\":3,\"kind\":\"net\",\"m\":4,\"q\":2,\"s\":7,\"since\":1,\"t\":1,\"version\":1}",
    ),
];

// The requests in the bytes of so many reads are answered whole, and the next read fails if there is one.
fn assert_read_fails<R: Wait + Abort>(
    rt: &R,
    alloc: Global,
    exchanges: &[Exchange],
    piece: usize,
    reads: u32,
    ended: Ended,
) -> Result<(), Fail> {
    let stream = stream_of(alloc, exchanges)?;
    let whole = whole_in(exchanges, piece.saturating_mul(reads as usize));
    let answer = answer_of(alloc, exchanges, whole, 0)?;
    let case = Case {
        reads: &[reads.saturating_add(1)],
        ..Case::steady(&stream, piece, &answer, ended)
    };
    assert_served(rt, alloc, bounds()?, empty(alloc), &[case])
}

// Each read fails in turn, that of the end too, and none behind it.
#[test]
fn each_read_fails(rt: HostRuntime) -> Result<(), Fail> {
    let alloc = rt.alloc();
    let exchanges = exchanges_of(alloc, &ROWS)?;
    for (piece, all) in [(9, 36), (8192, 2)] {
        for reads in 0..all {
            assert_read_fails(&rt, alloc, &exchanges, piece, reads, Ended::Read)?;
        }
        assert_read_fails(&rt, alloc, &exchanges, piece, all, Ended::Done)?;
    }
    Ok(())
}

// So many responses are written, and of the next so many bytes. Then the text comes through another link.
fn assert_write_fails<R: Wait + Abort>(
    rt: &R,
    alloc: Global,
    exchanges: &[Exchange],
    writes: u32,
    taken: usize,
) -> Result<(), Fail> {
    let stream = stream_of(alloc, exchanges)?;
    let answer = answer_of(alloc, exchanges, writes as usize, taken)?;
    let body = if writes < 1 { ACCEPTED } else { ALREADY };
    let repeat = exchanges_of(alloc, &[(IMPORT, CAPS7, OK, JSON, body)])?;
    let text = stream_of(alloc, &repeat)?;
    let outcome = answer_of(alloc, &repeat, 1, 0)?;
    let cases = [
        Case {
            writes: &[writes.saturating_add(1)],
            taken,
            ..Case::steady(&stream, 100, &answer, Ended::Write)
        },
        Case::steady(&text, 100, &outcome, Ended::Done),
    ];
    assert_served(rt, alloc, bounds()?, empty(alloc), &cases)
}

// Each write fails in turn. A text that was accepted before, or whose response is cut, stays accepted.
#[test]
fn each_write_fails(rt: HostRuntime) -> Result<(), Fail> {
    let alloc = rt.alloc();
    let exchanges = exchanges_of(alloc, &ROWS)?;
    for writes in 0..3 {
        for taken in [0, 1, 7] {
            assert_write_fails(&rt, alloc, &exchanges, writes, taken)?;
        }
    }
    Ok(())
}

const ONE: &str = "ooa 2 2 1 1 2 one\n10\n";

const TWO: &str = "ooa 2 2 1 1 2 two\n01\n";

const UNAVAILABLE: &str = "503 Service Unavailable";

const KEEPER: &str = "{\"error\":\"keeper\"}";

// Two texts, and both again, where the put of the first fails.
const FIRST_FAILS: [Row; 4] = [
    (IMPORT, ONE, UNAVAILABLE, JSON, KEEPER),
    (
        IMPORT,
        TWO,
        OK,
        JSON,
        "{\"import\":1,\"name\":\"two\",\"outcome\":\"accepted\",\"raised\":0}",
    ),
    (
        IMPORT,
        ONE,
        OK,
        JSON,
        "{\"import\":2,\"name\":\"one\",\"outcome\":\"accepted\",\"raised\":0}",
    ),
    (
        IMPORT,
        TWO,
        OK,
        JSON,
        "{\"import\":1,\"name\":\"two\",\"outcome\":\"already\"}",
    ),
];

// The same, where the put of the second fails.
const SECOND_FAILS: [Row; 4] = [
    (
        IMPORT,
        ONE,
        OK,
        JSON,
        "{\"import\":1,\"name\":\"one\",\"outcome\":\"accepted\",\"raised\":0}",
    ),
    (IMPORT, TWO, UNAVAILABLE, JSON, KEEPER),
    (
        IMPORT,
        ONE,
        OK,
        JSON,
        "{\"import\":1,\"name\":\"one\",\"outcome\":\"already\"}",
    ),
    (
        IMPORT,
        TWO,
        OK,
        JSON,
        "{\"import\":2,\"name\":\"two\",\"outcome\":\"accepted\",\"raised\":0}",
    ),
];

// The same, where no put fails.
const NONE_FAILS: [Row; 4] = [
    (
        IMPORT,
        ONE,
        OK,
        JSON,
        "{\"import\":1,\"name\":\"one\",\"outcome\":\"accepted\",\"raised\":0}",
    ),
    (
        IMPORT,
        TWO,
        OK,
        JSON,
        "{\"import\":2,\"name\":\"two\",\"outcome\":\"accepted\",\"raised\":0}",
    ),
    (
        IMPORT,
        ONE,
        OK,
        JSON,
        "{\"import\":1,\"name\":\"one\",\"outcome\":\"already\"}",
    ),
    (
        IMPORT,
        TWO,
        OK,
        JSON,
        "{\"import\":2,\"name\":\"two\",\"outcome\":\"already\"}",
    ),
];

// Each put fails in turn, for its text alone, and the text is accepted afterwards. The load is the
// first call of the keeper.
#[test]
fn each_put_fails(rt: HostRuntime) -> Result<(), Fail> {
    let alloc = rt.alloc();
    let cases: [(u32, &[Row]); 3] = [(2, &FIRST_FAILS), (3, &SECOND_FAILS), (4, &NONE_FAILS)];
    for (call, rows) in cases {
        let failing = Vec::from_slice(alloc, &[call])?;
        let keeper = MemoryKeeper::new(Records::new(Vec::new(alloc)), failing);
        assert_rows(&rt, alloc, bounds()?, keeper, rows)?;
    }
    Ok(())
}

// The load fails. The keeper and the feeds come back, and the next desk of the keeper is open.
#[test]
fn the_load_fails(rt: HostRuntime) -> Result<(), Fail> {
    let (alloc, bounds) = (rt.alloc(), bounds()?);
    let failing = Vec::from_slice(alloc, &[1])?;
    let keeper = MemoryKeeper::new(Records::new(Vec::new(alloc)), failing);
    match Desk::open(alloc, keeper, Vec::new(alloc), bounds, RuleSet::all(), 1) {
        Ok(_) => Err("a desk is open")?,
        Err(DeskRefused { why, keeper, .. }) => {
            assert_eq!(rt; why, OpenRefused::KeeperFault);
            assert_rows(&rt, alloc, bounds, keeper, &NONE_FAILS)
        }
    }
}
