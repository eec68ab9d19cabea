//! Commands one after the other over one store.
use crate::command::run_command;
use crate::status::Status;
use crate::tests::{CAPS, NO_HEADER, ONE, TWIN, text_of, words};
use mt_cells::Cell;
use mt_feed::{Change, Feed, ListFeed};
use mt_io::{MemorySink, MemorySource, SteadySink, SteadySource};
use mt_keeper::{Keeper, MemoryKeeper, Records, SteadyKeeper};
use mt_linear::Order;
use std::alloc::{AllocError, Global};
use std::process::Abort;
use std::test::Fail;

pub(crate) const IMPORT: &[&str] = &["4,8", "import"];

pub(crate) const VALUE: &[&str] = &["4,8", "value", "net", "2", "4", "7"];

const GENERATE: &[&str] = &["1,1", "generate", "7", "3"];

const WITHDRAW: &[u8] = b"withdraw caps7\n";

pub(crate) const RAISED: &[u8] = b"accepted 1 caps7: raised 5\n";

// The words of a command, its input, and its status and output.
pub(crate) type Case<'a> = (&'a [&'static str], &'a [u8], Status, &'a [u8]);

pub(crate) fn caps7(alloc: Global) -> Result<Vec<u8>, AllocError> {
    text_of(alloc, &[(b"net 2 4 7 1 caps7\n", 1), (CAPS, 1)])
}

// The text with a carriage return before each line feed.
fn with_returns(alloc: Global, text: &[u8]) -> Result<Vec<u8>, AllocError> {
    let mut bytes = Vec::new(alloc);
    for byte in text {
        if *byte == b'\n' {
            bytes.push(b'\r')?;
        }
        bytes.push(*byte)?;
    }
    Ok(bytes)
}

pub(crate) fn empty(alloc: Global) -> SteadyKeeper {
    SteadyKeeper::new(Records::new(Vec::new(alloc)))
}

// Runs the commands one after the other.
pub(crate) fn assert_runs(
    rt: &impl Abort,
    alloc: Global,
    keeper: &mut impl Keeper,
    feeds: &mut Vec<Box<dyn Feed + Send>>,
    cases: &[Case<'_>],
) -> Result<(), Fail> {
    for (texts, text, status, line) in cases {
        let words = words(alloc, texts)?;
        let mut input = SteadySource::new(Vec::from_slice(alloc, text)?, 4096);
        let mut output = SteadySink::new(alloc, 4096)?;
        let answer = run_command(alloc, &words, keeper, feeds, &mut input, &mut output);
        assert_eq!(rt; answer, *status);
        assert_eq!(rt; output.bytes(), *line);
    }
    Ok(())
}

#[test]
fn imports_are_kept(rt: HostRuntime) -> Result<(), Fail> {
    let alloc = rt.alloc();
    let caps7 = caps7(alloc)?;
    let other = text_of(
        alloc,
        &[
            (b"net 2 4 7 1 caps7\n", 1),
            (&CAPS[..CAPS.len() - 5], 1),
            (b"0001\n", 1),
        ],
    )?;
    let wide = text_of(
        alloc,
        &[(b"net 2 16 16 0 wide\n", 1), (b"0000000000000000\n", 256)],
    )?;
    let cases: [Case<'_>; 9] = [
        (IMPORT, &caps7, Status::Ok, RAISED),
        (
            VALUE,
            b"",
            Status::Ok,
            b"net 2 4 7: k 3, t 1, since 1, version 1\n",
        ),
        (IMPORT, &caps7, Status::Ok, b"already 1 caps7\n"),
        (
            IMPORT,
            &other,
            Status::Refused,
            b"refused: name caps7 is taken by import 1\n",
        ),
        (IMPORT, ONE, Status::Ok, b"accepted 2 one: raised 0\n"),
        (
            IMPORT,
            b"ooa 2 2 1 1 1 bad\n12\n",
            Status::Refused,
            b"refused: line 2 is no row\n",
        ),
        (
            IMPORT,
            b"seq 2 2 2 0 twice\n10\n01\n10\n01\n",
            Status::Refused,
            b"refused: part 2 choice 1,1 depends with 1,1\n",
        ),
        (IMPORT, &wide, Status::Refused, b"refused: m 16 is over 4\n"),
        (
            VALUE,
            b"",
            Status::Ok,
            b"net 2 4 7: k 3, t 1, since 1, version 2\n",
        ),
    ];
    assert_runs(&rt, alloc, &mut empty(alloc), &mut Vec::new(alloc), &cases)
}

#[test]
fn withdrawals_are_kept(rt: HostRuntime) -> Result<(), Fail> {
    let alloc = rt.alloc();
    let caps7 = caps7(alloc)?;
    let cases: [Case<'_>; 9] = [
        (
            IMPORT,
            WITHDRAW,
            Status::Refused,
            b"refused: no import caps7\n",
        ),
        (IMPORT, &caps7, Status::Ok, RAISED),
        (
            IMPORT,
            b"withdraw none\n",
            Status::Refused,
            b"refused: no import none\n",
        ),
        (IMPORT, b"withdraw\n", Status::Refused, NO_HEADER),
        (&["4,8", "check"], WITHDRAW, Status::Refused, NO_HEADER),
        (
            IMPORT,
            WITHDRAW,
            Status::Ok,
            b"withdrawn 1 caps7: lowered 5\n",
        ),
        (IMPORT, WITHDRAW, Status::Ok, b"already withdrawn 1 caps7\n"),
        (
            IMPORT,
            &caps7,
            Status::Refused,
            b"refused: import 1 caps7 is withdrawn\n",
        ),
        (
            VALUE,
            b"",
            Status::Ok,
            b"net 2 4 7: k 2, t 2, since 2, version 2\n",
        ),
    ];
    assert_runs(&rt, alloc, &mut empty(alloc), &mut Vec::new(alloc), &cases)
}

#[test]
fn generated_claims_are_kept(rt: HostRuntime) -> Result<(), Fail> {
    let alloc = rt.alloc();
    let cases: [Case<'_>; 2] = [
        (
            GENERATE,
            b"",
            Status::Ok,
            b"generated 3: accepted 3, already 0, refused 0, score 14, tried 0\n",
        ),
        (
            GENERATE,
            b"",
            Status::Ok,
            b"generated 3: accepted 0, already 3, refused 0, score 14, tried 0\n",
        ),
    ];
    assert_runs(&rt, alloc, &mut empty(alloc), &mut Vec::new(alloc), &cases)
}

// Another claim has the name of the first.
#[test]
fn a_generated_claim_is_refused(rt: HostRuntime) -> Result<(), Fail> {
    let alloc = rt.alloc();
    let cases: [Case<'_>; 2] = [
        (
            &["1,1", "import"],
            b"ooa 2 1 1 1 1 g-7-1\n1\n",
            Status::Ok,
            b"accepted 1 g-7-1: raised 0\n",
        ),
        (
            GENERATE,
            b"",
            Status::Ok,
            b"generated 3: accepted 2, already 0, refused 1, score 14, tried 0\n",
        ),
    ];
    assert_runs(&rt, alloc, &mut empty(alloc), &mut Vec::new(alloc), &cases)
}

// The put of the second claim fails, and the first stays.
#[test]
fn a_failing_keeper_of_generated_claims(rt: HostRuntime) -> Result<(), Fail> {
    let alloc = rt.alloc();
    let failing = Vec::from_slice(alloc, &[3])?;
    let mut keeper = MemoryKeeper::new(Records::new(Vec::new(alloc)), failing);
    let cases: [Case<'_>; 2] = [
        (GENERATE, b"", Status::KeeperFault, b""),
        (
            GENERATE,
            b"",
            Status::Ok,
            b"generated 3: accepted 2, already 1, refused 0, score 14, tried 0\n",
        ),
    ];
    assert_runs(&rt, alloc, &mut keeper, &mut Vec::new(alloc), &cases)
}

// Each call of the keeper fails in turn: the load and the put of the first import, and those of the
// second. The same text is accepted afterwards.
#[test]
fn a_failing_keeper(rt: HostRuntime) -> Result<(), Fail> {
    let alloc = rt.alloc();
    let caps7 = caps7(alloc)?;
    let accepted: &[u8] = b"accepted 1 one: raised 0\n";
    let raised: &[u8] = b"accepted 2 caps7: raised 5\n";
    let first: [Case<'_>; 3] = [
        (IMPORT, ONE, Status::KeeperFault, b""),
        (IMPORT, ONE, Status::Ok, accepted),
        (IMPORT, &caps7, Status::Ok, raised),
    ];
    let second: [Case<'_>; 3] = [
        (IMPORT, ONE, Status::Ok, accepted),
        (IMPORT, &caps7, Status::KeeperFault, b""),
        (IMPORT, &caps7, Status::Ok, raised),
    ];
    for (call, cases) in [(1, &first), (2, &first), (3, &second), (4, &second)] {
        let failing = Vec::from_slice(alloc, &[call])?;
        let mut keeper = MemoryKeeper::new(Records::new(Vec::new(alloc)), failing);
        assert_runs(&rt, alloc, &mut keeper, &mut Vec::new(alloc), cases)?;
    }
    Ok(())
}

#[test]
fn bad_records_are_told(rt: HostRuntime) -> Result<(), Fail> {
    let alloc = rt.alloc();
    let mut records = Vec::new(alloc);
    records.push(Vec::from_slice(alloc, ONE)?)?;
    records.push(Vec::from_slice(alloc, TWIN)?)?;
    let cases: [Case<'_>; 2] = [
        (
            VALUE,
            b"",
            Status::BadStore,
            b"store: record 2: dependent\n",
        ),
        (
            IMPORT,
            ONE,
            Status::BadStore,
            b"store: record 2: dependent\n",
        ),
    ];
    let mut keeper = SteadyKeeper::new(Records::new(records));
    assert_runs(&rt, alloc, &mut keeper, &mut Vec::new(alloc), &cases)
}

// One source fails at its second read, and one sink after three bytes of the line of what was put.
#[test]
fn failing_sides_of_an_import(rt: HostRuntime) -> Result<(), Fail> {
    let alloc = rt.alloc();
    let mut keeper = empty(alloc);
    let mut feeds = Vec::new(alloc);
    for (reads, status, bytes) in [
        ([2].as_slice(), Status::ReadFault, b"".as_slice()),
        (&[], Status::WriteFault, b"acc"),
    ] {
        let words = words(alloc, IMPORT)?;
        let failing = Vec::from_slice(alloc, reads)?;
        let mut input = MemorySource::new(caps7(alloc)?, 100, failing);
        let mut output = MemorySink::new(alloc, 200, Vec::from_slice(alloc, &[1])?, 3)?;
        assert_eq!(rt;
            run_command(
                alloc,
                &words,
                &mut keeper,
                &mut feeds,
                &mut input,
                &mut output
            ),
            status
        );
        assert_eq!(rt; output.bytes(), bytes);
    }
    let cases: [Case<'_>; 1] = [(
        VALUE,
        b"",
        Status::Ok,
        b"net 2 4 7: k 3, t 1, since 1, version 1\n",
    )];
    assert_runs(&rt, alloc, &mut keeper, &mut feeds, &cases)
}

// The value `k` of an array of seven coordinates over two elements.
fn change(version: u32, m: u8, depth: u8, k: u8) -> Change {
    Change {
        version,
        cell: Cell::Ooa {
            order: Order::Q2,
            m,
            s: 7,
            depth,
        },
        k,
    }
}

// The first feed fails at its second line, and is told nothing after it. A claim that is there already
// is told to none.
#[test]
fn feeds_are_told(rt: HostRuntime) -> Result<(), Fail> {
    let alloc = rt.alloc();
    let mut feeds: Vec<Box<dyn Feed + Send>> = Vec::new(alloc);
    for failing in [[2].as_slice(), &[]] {
        let feed = ListFeed::new(alloc, 16, Vec::from_slice(alloc, failing)?)?;
        feeds.push(Box::new(alloc, feed)?)?;
    }
    let caps7 = caps7(alloc)?;
    let again = with_returns(alloc, &caps7)?;
    let cases: [Case<'_>; 3] = [
        (IMPORT, &caps7, Status::Ok, RAISED),
        (IMPORT, &again, Status::Ok, b"already 1 caps7\n"),
        (
            IMPORT,
            WITHDRAW,
            Status::Ok,
            b"withdrawn 1 caps7: lowered 5\n",
        ),
    ];
    assert_runs(&rt, alloc, &mut empty(alloc), &mut feeds, &cases)?;
    let told = [
        change(1, 3, 2, 2),
        change(1, 3, 3, 2),
        change(1, 4, 2, 3),
        change(1, 4, 3, 3),
        change(1, 4, 4, 3),
        change(2, 3, 2, 1),
        change(2, 3, 3, 1),
        change(2, 4, 2, 2),
        change(2, 4, 3, 2),
        change(2, 4, 4, 2),
    ];
    for (feed, (failed, kept)) in feeds.iter().zip(&[(true, &told[..1]), (false, &told[..])]) {
        assert_eq!(rt; feed.failed(), *failed);
        assert_eq!(rt; feed.kept(), *kept);
    }
    Ok(())
}
