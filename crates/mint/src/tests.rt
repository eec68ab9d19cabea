//! Runs of the top call over memory, with texts from outside.
use crate::command::run_command;
use crate::start::{Start, Store, start_of};
use crate::status::Status;
use crate::words::{Task, read_words};
use mt_io::{MemorySink, MemorySource, Sink, Source, SteadySink, SteadySource};
use mt_keeper::{Records, SteadyKeeper};
use std::alloc::{AllocError, Global};
use std::process::Abort;
use std::test::Fail;

pub(crate) const ONE: &[u8] = b"ooa 2 2 1 1 2 one\n10\n";

pub(crate) const TWIN: &[u8] = b"ooa 2 2 2 2 2 twin\n10\n01\n10\n01\n";

const SAME: &[u8] = b"ooa 3 2 2 1 2 same\n12\n12\n";

const USAGE: &[u8] = b"usage: mint STORE FEED M,S COMMAND\n";

const HOLDS: &[u8] = b"holds one\n";

pub(crate) const TOO_LONG: &[u8] = b"refused: more than 65536 bytes\n";

pub(crate) const NO_HEADER: &[u8] = b"refused: line 1 is no header\n";

pub(crate) const NO_ROW: &[u8] = b"refused: line 2 is no row\n";

pub(crate) fn words(alloc: Global, texts: &[&str]) -> Result<Vec<String>, AllocError> {
    let mut words = Vec::new(alloc);
    for text in texts {
        words.push(String::from_str(alloc, text)?)?;
    }
    Ok(words)
}

// Runs the words over a store in memory without records, with no feed.
fn run_over(
    alloc: Global,
    texts: &[&str],
    input: &mut impl Source,
    output: &mut impl Sink,
) -> Result<Status, AllocError> {
    let words = words(alloc, texts)?;
    let mut keeper = SteadyKeeper::new(Records::new(Vec::new(alloc)));
    let mut feeds = Vec::new(alloc);
    Ok(run_command(alloc, &words, &mut keeper, &mut feeds, input, output))
}

// The status and the output of a run, the input being given in pieces.
pub(crate) fn run(
    alloc: Global,
    texts: &[&str],
    text: &[u8],
    piece: usize,
) -> Result<(Status, Vec<u8>), AllocError> {
    let mut input = SteadySource::new(Vec::from_slice(alloc, text)?, piece.max(1));
    let mut output = SteadySink::new(alloc, 4096)?;
    let status = run_over(alloc, texts, &mut input, &mut output)?;
    Ok((status, Vec::from_slice(alloc, output.bytes())?))
}

// A text of parts, each repeated so many times.
pub(crate) fn text_of(alloc: Global, parts: &[(&[u8], usize)]) -> Result<Vec<u8>, AllocError> {
    let mut text = Vec::new(alloc);
    for (part, times) in parts {
        for _ in 0..*times {
            text.extend_from_slice(part)?;
        }
    }
    Ok(text)
}

#[test]
fn texts_get_their_answers(rt: HostRuntime) -> Result<(), Fail> {
    for (text, status, output) in [
        (ONE, Status::Ok, b"holds one\n".as_slice()),
        (
            TWIN,
            Status::Refused,
            b"refused: choice 1,1 depends with 1,1\n",
        ),
        (
            SAME,
            Status::Refused,
            b"refused: choice 1,1 depends with 2,1\n",
        ),
        (
            b"seq 2 2 2 0 twice\n10\n01\n10\n01\n",
            Status::Refused,
            b"refused: part 2 choice 1,1 depends with 1,1\n",
        ),
        (b"seq 2 2 1 0 whole\n10\n01\n", Status::Ok, b"holds whole\n"),
        (
            b"ooa 9 2 2 1 2 nine\n14\n28\n",
            Status::Refused,
            b"refused: choice 1,1 depends with 1,1\n",
        ),
        (b"", Status::Refused, b"refused: line 1 is no header\n"),
    ] {
        for piece in [1usize, 7, 65537] {
            let answer = run(rt.alloc(), &["16,32", "check"], text, piece)?;
            assert_eq!(rt; answer.0, status, "in pieces of {piece}");
            assert_eq!(rt; answer.1.as_slice(), output);
        }
    }
    Ok(())
}

#[test]
fn bounds_hold_for_checks(rt: HostRuntime) -> Result<(), Fail> {
    let answer = run(rt.alloc(), &["4,8", "check"], ONE, 7)?;
    assert_eq!(rt; answer.1.as_slice(), b"holds one\n".as_slice());
    let wide = text_of(
        rt.alloc(),
        &[(b"net 2 16 16 0 wide\n", 1), (b"0000000000000000\n", 256)],
    )?;
    let answer = run(rt.alloc(), &["4,8", "check"], &wide, 4096)?;
    assert_eq!(rt; answer.0, Status::Refused);
    assert_eq!(rt;
        answer.1.as_slice(),
        b"refused: m 16 is over 4\n".as_slice()
    );
    let big = text_of(
        rt.alloc(),
        &[(b"net 2 21 2 0 big\n", 1), (b"000000000000000000000\n", 42)],
    )?;
    let answer = run(rt.alloc(), &["20,48", "check"], &big, 4096)?;
    assert_eq!(rt; answer.0, Status::Refused);
    assert_eq!(rt;
        answer.1.as_slice(),
        b"refused: m 21 is over 20\n".as_slice()
    );
    Ok(())
}

// The rows of caps7: seven points of which no three are on a line, with three more rows each.
pub(crate) const CAPS: &[u8] =
    b"1001\n0001\n0010\n0000\n1010\n0010\n0001\n0000\n1011\n0011\n0001\n0000\n\
1100\n0100\n0001\n0000\n1101\n0101\n0001\n0000\n1110\n0110\n0001\n0000\n1111\n0111\n0001\n0000\n";

#[test]
fn source_lines_are_read(rt: HostRuntime) -> Result<(), Fail> {
    let header = b"net 2 4 7 1 caps7\n";
    for (source, line) in [
        (b"".as_slice(), b"holds caps7\n".as_slice()),
        (b"source  Rows by hand \n", b"holds caps7\n"),
        (b"source\n", b"refused: line 2 is no source\n"),
        (b"sourcex\n", b"refused: line 2 is no source\n"),
        (b"Source by hand\n", b"refused: line 2 is no row\n"),
    ] {
        let text = text_of(rt.alloc(), &[(header, 1), (source, 1), (CAPS, 1)])?;
        let answer = run(rt.alloc(), &["4,8", "check"], &text, 7)?;
        assert_eq!(rt; answer.1.as_slice(), line);
    }
    Ok(())
}

// Runs each question, and compares its text.
pub(crate) fn assert_answers(
    rt: &impl Abort,
    alloc: Global,
    status: Status,
    cases: &[(&[&str], &[u8])],
) -> Result<(), Fail> {
    for (texts, line) in cases {
        let answer = run(alloc, texts, ONE, 7)?;
        assert_eq!(rt; answer.0, status);
        assert_eq!(rt; answer.1.as_slice(), *line);
    }
    Ok(())
}

#[test]
fn nets_get_their_values(rt: HostRuntime) -> Result<(), Fail> {
    let cases: [(&[&str], &[u8]); 8] = [
        (
            &["20,48", "value", "net", "2", "20", "3"],
            b"net 2 20 3: k 20, t 0, since 0, version 0\n",
        ),
        (
            &["4,8", "value", "net", "2", "3", "1"],
            b"net 2 3 1: k 3, t 0, since 0, version 0\n",
        ),
        (
            &["4,8", "value", "net", "2", "3", "3"],
            b"net 2 3 3: k 3, t 0, since 0, version 0\n",
        ),
        (
            &["4,8", "value", "net", "2", "3", "4"],
            b"net 2 3 4: k 2, t 1, since 0, version 0\n",
        ),
        (
            &["4,8", "value", "net", "2", "4", "6"],
            b"net 2 4 6: k 3, t 1, since 0, version 0\n",
        ),
        (
            &["4,8", "value", "net", "2", "4", "7"],
            b"net 2 4 7: k 2, t 2, since 0, version 0\n",
        ),
        (
            &["4,8", "value", "net", "3", "2", "4"],
            b"net 3 2 4: k 2, t 0, since 0, version 0\n",
        ),
        (
            &["16,32", "value", "net", "2", "10", "4"],
            b"net 2 10 4: k 9, t 1, since 0, version 0\n",
        ),
    ];
    assert_answers(&rt, rt.alloc(), Status::Ok, &cases)
}

#[test]
fn arrays_and_sequences_get_their_values(rt: HostRuntime) -> Result<(), Fail> {
    let cases: [(&[&str], &[u8]); 6] = [
        (
            &["4,8", "value", "oa", "2", "3", "3"],
            b"oa 2 3 3: k 3, t 0, since 0, version 0\n",
        ),
        (
            &["4,8", "value", "oa", "2", "3", "4"],
            b"oa 2 3 4: k 3, t 0, since 0, version 0\n",
        ),
        (
            &["4,8", "value", "oa", "2", "4", "8"],
            b"oa 2 4 8: k 3, t 1, since 0, version 0\n",
        ),
        (
            &["4,8", "value", "seq", "2", "3", "1"],
            b"seq 2 3 1: k 3, t 0, since 0, version 0\n",
        ),
        (
            &["4,8", "value", "seq", "2", "4", "3"],
            b"seq 2 4 3: k 3, t 1, since 0, version 0\n",
        ),
        (
            &["16,32", "value", "ooa", "9", "16", "32", "7"],
            b"ooa 9 16 32 7: k 7, t 9, since 0, version 0\n",
        ),
    ];
    assert_answers(&rt, rt.alloc(), Status::Ok, &cases)
}

#[test]
fn questions_outside_name_their_part(rt: HostRuntime) -> Result<(), Fail> {
    let cases: [(&[&str], &[u8]); 7] = [
        (&["4,8", "value", "net", "2", "5", "3"], b"outside: m 5\n"),
        (&["4,8", "value", "net", "6", "2", "2"], b"outside: q 6\n"),
        (
            &["4,8", "value", "net", "18446744073709551615", "3", "1"],
            b"outside: q 18446744073709551615\n",
        ),
        (&["4,8", "tree", "seq", "2", "4", "9"], b"outside: s 9\n"),
        (
            &["4,8", "matrix", "ooa", "2", "3", "2", "4"],
            b"outside: depth 4\n",
        ),
        (&["4,8", "table", "2", "0"], b"outside: m 0\n"),
        (&["4,8", "niederreiter", "6", "5", "9"], b"outside: q 6\n"),
    ];
    assert_answers(&rt, rt.alloc(), Status::Outside, &cases)
}

#[test]
fn other_words_get_the_usage(rt: HostRuntime) -> Result<(), Fail> {
    for texts in [
        [].as_slice(),
        &["4,8", "frob"],
        &["21,8", "export"],
        &["check"],
        &["16,32", "check", "now"],
        &["4,49", "check"],
        &["4, 8", "check"],
        &["4,8", "value", "pet", "2", "3", "1"],
        &["4,8", "value", "ooa", "2", "3", "1"],
        &["4,8", "tree", "net", "02", "3", "1"],
        &["4,8", "matrix", "net", "2", "3", "18446744073709551616"],
        &["4,8", "table", "net", "2", "3"],
        &["4,8", "niederreiter", "2", "3"],
        &["4,8", "generate", "7", "0"],
        &["4,8", "generate", "7", "1025"],
        &["4,8", "generate", "18446744073709551616", "1"],
    ] {
        let answer = run(rt.alloc(), texts, ONE, 7)?;
        assert_eq!(rt; answer.0, Status::Words);
        assert_eq!(rt; answer.1.as_slice(), USAGE);
    }
    Ok(())
}

#[test]
fn seeds_and_counts_at_their_limits(rt: HostRuntime) -> Result<(), Fail> {
    for (seed, text) in [(0, "0"), (u64::MAX, "18446744073709551615")] {
        for (count, number) in [(1, "1"), (1024, "1024")] {
            let words = words(rt.alloc(), &["4,8", "generate", text, number])?;
            let task = read_words(&words).map(|command| command.task);
            assert_eq!(rt; task, Some(Task::Generate { seed, count }));
        }
    }
    Ok(())
}

#[test]
fn the_store_and_the_feed_are_looked_at(rt: HostRuntime) -> Result<(), Fail> {
    let alloc = rt.alloc();
    let few = words(alloc, &["mint", ":memory:"])?;
    assert!(rt; matches!(start_of(&few), Start::Usage));
    for (store, feed, path, lines) in [
        (":memory:", "-", None, None),
        (":memory:", "lines.txt", None, Some("lines.txt")),
        ("store.db", "-", Some("store.db"), None),
        ("-", ":memory:", Some("-"), Some(":memory:")),
    ] {
        let command = words(alloc, &["mint", store, feed, "4,8", "export"])?;
        let Start::Command { store, feed, words } = start_of(&command) else {
            return Err("the words start no command")?;
        };
        let file = match store {
            Store::Memory => None,
            Store::Path(path) => Some(path),
        };
        assert_eq!(rt; file, path);
        assert_eq!(rt; feed, lines);
        assert_eq!(rt; words.len(), 2);
    }
    Ok(())
}

#[test]
fn failing_input_writes_nothing(rt: HostRuntime) -> Result<(), Fail> {
    let alloc = rt.alloc();
    for call in 1..4u32 {
        let mut input = MemorySource::new(
            Vec::from_slice(alloc, ONE)?,
            10,
            Vec::from_slice(alloc, &[call])?,
        );
        let mut output = MemorySink::new(alloc, 200, Vec::new(alloc), 0)?;
        assert_eq!(rt;
            run_over(alloc, &["16,32", "check"], &mut input, &mut output)?,
            Status::ReadFault
        );
        assert_eq!(rt; output.bytes(), b"".as_slice());
    }
    Ok(())
}

#[test]
fn failing_output_has_a_prefix(rt: HostRuntime) -> Result<(), Fail> {
    let alloc = rt.alloc();
    let check: &[&str] = &["16,32", "check"];
    let value: &[&str] = &["4,8", "value", "net", "2", "3", "3"];
    for (texts, text, prefix) in [
        (check, ONE, b"hol".as_slice()),
        (check, TWIN, b"ref"),
        (value, b"", b"net"),
    ] {
        let mut input = MemorySource::new(Vec::from_slice(alloc, text)?, 100, Vec::new(alloc));
        let mut output = MemorySink::new(alloc, 200, Vec::from_slice(alloc, &[1])?, 3)?;
        assert_eq!(rt;
            run_over(alloc, texts, &mut input, &mut output)?,
            Status::WriteFault
        );
        assert_eq!(rt; output.bytes(), prefix);
    }
    Ok(())
}

// Checks each text, given as parts that are repeated, and compares the one line that is answered.
fn assert_lines(
    rt: &impl Abort,
    alloc: Global,
    cases: &[(&[(&[u8], usize)], &[u8])],
) -> Result<(), Fail> {
    for (parts, line) in cases {
        let text = text_of(alloc, parts)?;
        let answer = run(alloc, &["16,32", "check"], &text, 4096)?;
        assert_eq!(rt; answer.1.as_slice(), *line);
        let status = if line.starts_with(b"holds") {
            Status::Ok
        } else {
            Status::Refused
        };
        assert_eq!(rt; answer.0, status);
    }
    Ok(())
}

#[test]
fn texts_of_much_white_space(rt: HostRuntime) -> Result<(), Fail> {
    let cases: [(&[(&[u8], usize)], &[u8]); 8] = [
        (&[(ONE, 1), (b"\n", 65515)], HOLDS),
        (&[(ONE, 1), (b"\n", 65516)], TOO_LONG),
        (&[(b"\n", 70000)], TOO_LONG),
        (&[(b"\n", 65536)], NO_HEADER),
        (&[(b"\r", 3)], NO_HEADER),
        (&[(b"\0", 100)], NO_HEADER),
        (&[(b" ", 60000)], NO_HEADER),
        (
            &[(b"ooa", 1), (b" ", 60000), (b"2 2 1 1 2 one\n10\n", 1)],
            HOLDS,
        ),
    ];
    assert_lines(&rt, rt.alloc(), &cases)
}

#[test]
fn headers_of_a_hostile_user(rt: HostRuntime) -> Result<(), Fail> {
    let cases: [(&[(&[u8], usize)], &[u8]); 7] = [
        (&[(b"ooa 2 2 000 1 2 one\n10\n", 1)], NO_HEADER),
        (&[(b"ooa 2 2 01 1 2 one\n10\n", 1)], NO_HEADER),
        (&[(b"ooa 2 2 0 1 2 one\n10\n", 1)], NO_HEADER),
        (&[(b"ooa 2 1000 1 1 2 big\n", 1), (b"1", 1000)], NO_HEADER),
        (
            &[(b"ooa 2 2 1 1 2 ", 1), (b"n", 41), (b"\n10\n", 1)],
            NO_HEADER,
        ),
        (&[(b"ooa 2 2 1 3 2 deep\n10\n01\n11\n", 1)], NO_HEADER),
        (&[(b"ooa 2 2 1 1 2 one\r\r\n10\n", 1)], NO_HEADER),
    ];
    assert_lines(&rt, rt.alloc(), &cases)
}

#[test]
fn claims_over_a_limit(rt: HostRuntime) -> Result<(), Fail> {
    let cases: [(&[(&[u8], usize)], &[u8]); 5] = [
        (
            &[(b"net 2 12 10 0 mid\n", 1), (b"000000000000\n", 120)],
            b"refused: choice 0,0,0,0,0,0,0,0,0,1 depends with 1\n",
        ),
        (
            &[(b"ooa 2 999 1 1 2 big\n", 1), (b"1", 999)],
            b"refused: m 255 is over 16\n",
        ),
        (
            &[(b"ooa 2 2 300 1 0 wide\n", 1), (b"10\n", 300)],
            b"refused: s 255 is over 32\n",
        ),
        (
            &[(b"ooa 2 2 33 1 0 wide\n", 1), (b"10\n", 33)],
            b"refused: s 33 is over 32\n",
        ),
        (
            &[(b"net 2 16 16 0 wide\n", 1), (b"0000000000000000\n", 256)],
            b"refused: 601080390 choices, more than 4000000\n",
        ),
    ];
    assert_lines(&rt, rt.alloc(), &cases)
}

#[test]
fn rows_of_a_hostile_user(rt: HostRuntime) -> Result<(), Fail> {
    let cases: [(&[(&[u8], usize)], &[u8]); 12] = [
        (&[(b"ooa 2 999 1 1 2 big\n", 1), (b"1", 998)], NO_ROW),
        (&[(b"ooa 2 2 1 1 2 one\n\t1\t0 \n", 1)], HOLDS),
        (&[(b"ooa 9 2 1 1 2 one\n19\n", 1)], NO_ROW),
        (&[(b"ooa 2 2 1 1 1 bad\n12\n", 1)], NO_ROW),
        (&[(b"ooa 2 2 1 1 2 one\n1\r0\n", 1)], NO_ROW),
        (&[(b"ooa 2 2 1 1 2 one\n10\r\r\n", 1)], NO_ROW),
        (
            &[(b"ooa 2 2 1 2 2 cut\n10\n0", 1)],
            b"refused: line 3 is no row\n",
        ),
        (&[(b"ooa 2 2 1 1 2 one\r\n10", 1)], HOLDS),
        (&[(ONE, 1), (b" \t\r\n", 9), (b" ", 3)], HOLDS),
        (&[(b"ooa 2 2 1 1 2 one\nsource by hand\n10\n", 1)], HOLDS),
        (
            &[(b"ooa 2 2 1 1 2 one\nsourcex\n10\n", 1)],
            b"refused: line 2 is no source\n",
        ),
        (
            &[(ONE, 1), (b"\n", 2), (b"x", 1)],
            b"refused: line 5 is not blank\n",
        ),
    ];
    assert_lines(&rt, rt.alloc(), &cases)
}
