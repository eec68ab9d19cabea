//! Texts that are imported or refused by their form, their size and their source line.
use crate::status::Status;
use crate::store_tests::{Case, IMPORT, RAISED, VALUE, assert_runs, empty};
use crate::tests::{CAPS, NO_HEADER, NO_ROW, ONE, TOO_LONG, text_of};
use mt_keeper::Keeper;
use std::test::Fail;

#[test]
fn texts_of_another_form_are_refused(rt: HostRuntime) -> Result<(), Fail> {
    let alloc = rt.alloc();
    let long = text_of(alloc, &[(ONE, 1), (b"\n", 65516)])?;
    let cases: [Case<'_>; 6] = [
        (IMPORT, b"", Status::Refused, NO_HEADER),
        (IMPORT, b"ooa 2 2 1 1 1 bad\n12\n", Status::Refused, NO_ROW),
        (
            IMPORT,
            b"ooa 2 2 1 2 2 cut\n10\n0",
            Status::Refused,
            b"refused: line 3 is no row\n",
        ),
        (
            IMPORT,
            b"ooa 2 2 1 1 2 one\n10\nx\n",
            Status::Refused,
            b"refused: line 3 is not blank\n",
        ),
        (IMPORT, &long, Status::Refused, TOO_LONG),
        (
            VALUE,
            b"",
            Status::Ok,
            b"net 2 4 7: k 2, t 2, since 0, version 0\n",
        ),
    ];
    assert_runs(&rt, alloc, &mut empty(alloc), &mut Vec::new(alloc), &cases)
}

// Too many choices, a dependent claim of 646,646 choices, and a size over the greatest bounds.
#[test]
fn large_texts_are_refused(rt: HostRuntime) -> Result<(), Fail> {
    let alloc = rt.alloc();
    let wide = text_of(
        alloc,
        &[(b"net 2 16 16 0 wide\n", 1), (b"0000000000000000\n", 256)],
    )?;
    let mid = text_of(
        alloc,
        &[(b"net 2 12 10 0 mid\n", 1), (b"000000000000\n", 120)],
    )?;
    let big = text_of(
        alloc,
        &[(b"net 2 21 2 0 big\n", 1), (b"000000000000000000000\n", 42)],
    )?;
    let cases: [Case<'_>; 3] = [
        (
            &["16,32", "import"],
            &wide,
            Status::Refused,
            b"refused: 601080390 choices, more than 4000000\n",
        ),
        (
            &["16,32", "import"],
            &mid,
            Status::Refused,
            b"refused: choice 0,0,0,0,0,0,0,0,0,1 depends with 1\n",
        ),
        (
            &["20,48", "import"],
            &big,
            Status::Refused,
            b"refused: m 21 is over 20\n",
        ),
    ];
    assert_runs(&rt, alloc, &mut empty(alloc), &mut Vec::new(alloc), &cases)
}

// The note is a part of the claim, and of its record.
#[test]
fn source_lines_are_kept(rt: HostRuntime) -> Result<(), Fail> {
    let alloc = rt.alloc();
    let header = b"net 2 4 7 1 caps7\n";
    let noted = text_of(
        alloc,
        &[(header, 1), (b"source  Rows by hand \n", 1), (CAPS, 1)],
    )?;
    let canonical = text_of(
        alloc,
        &[(header, 1), (b"source Rows by hand\n", 1), (CAPS, 1)],
    )?;
    let bare = text_of(alloc, &[(header, 1), (CAPS, 1)])?;
    let unsaid = text_of(alloc, &[(header, 1), (b"source\n", 1), (CAPS, 1)])?;
    let cases: [Case<'_>; 4] = [
        (IMPORT, &noted, Status::Ok, RAISED),
        (
            IMPORT,
            &bare,
            Status::Refused,
            b"refused: name caps7 is taken by import 1\n",
        ),
        (
            IMPORT,
            &unsaid,
            Status::Refused,
            b"refused: line 2 is no source\n",
        ),
        (IMPORT, &canonical, Status::Ok, b"already 1 caps7\n"),
    ];
    let mut keeper = empty(alloc);
    assert_runs(&rt, alloc, &mut keeper, &mut Vec::new(alloc), &cases)?;
    let records = keeper.load(alloc)?;
    assert_eq!(rt; records.len(), 1);
    assert_eq!(rt; records.get(1), canonical.as_slice());
    Ok(())
}

// Niederreiter's matrices, as the program writes them.
#[test]
fn served_sequences_are_imported(rt: HostRuntime) -> Result<(), Fail> {
    let alloc = rt.alloc();
    let sequence: &[u8] =
        b"seq 2 3 3 1 niederreiter\n100\n010\n001\n111\n010\n001\n011\n110\n000\n";
    let cases: [Case<'_>; 2] = [
        (
            &["4,8", "niederreiter", "2", "3", "3"],
            b"",
            Status::Ok,
            sequence,
        ),
        (
            IMPORT,
            sequence,
            Status::Ok,
            b"accepted 1 niederreiter: raised 0\n",
        ),
    ];
    assert_runs(&rt, alloc, &mut empty(alloc), &mut Vec::new(alloc), &cases)
}
