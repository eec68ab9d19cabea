//! Derivations and generator matrices that are served.
use crate::event_tests::table_of;
use crate::status::Status;
use crate::tests::assert_answers;
use mt_answer::text;
use mt_cells::{Ask, Bounds, Cell, Kind, Question};
use mt_service::check_text;
use mt_table::Table;
use std::alloc::Global;
use std::marker::Brand;
use std::sync::ledger::Blank;
use std::test::Fail;

#[test]
fn derivations_as_they_are_shown(rt: HostRuntime) -> Result<(), Fail> {
    let cases: [(&[&str], &[u8]); 5] = [
        (
            &["3,4", "tree", "oa", "2", "3", "4"],
            b"1 parity - ooa 2 3 4 1 k 3\n",
        ),
        (
            &["3,4", "tree", "net", "2", "3", "3"],
            b"1 niederreiter - seq 2 3 2 k 3\n2 seq_to_net 1 ooa 2 3 3 3 k 3\n",
        ),
        (
            &["4,8", "tree", "ooa", "3", "4", "1", "3"],
            b"1 identity - ooa 3 4 1 4 k 4\n2 shallower 1 ooa 3 4 1 3 k 4\n",
        ),
        (
            &["4,8", "tree", "seq", "9", "3", "2"],
            b"1 niederreiter - seq 9 3 2 k 3\n",
        ),
        (
            &["4,8", "tree", "seq", "2", "3", "4"],
            b"1 zero - seq 2 3 4 k 0\n",
        ),
    ];
    assert_answers(&rt, rt.alloc(), Status::Ok, &cases)
}

#[test]
fn matrices_as_they_are_shown(rt: HostRuntime) -> Result<(), Fail> {
    let cases: [(&[&str], &[u8]); 4] = [
        (
            &["3,4", "matrix", "oa", "2", "3", "4"],
            b"ooa 2 3 4 1 3 mint\n100\n010\n001\n111\n",
        ),
        (
            &["4,8", "matrix", "net", "5", "2", "1"],
            b"net 5 2 1 0 mint\n10\n01\n",
        ),
        (
            &["4,8", "matrix", "ooa", "2", "3", "1", "2"],
            b"ooa 2 3 1 2 3 mint\n100\n010\n",
        ),
        (
            &["4,8", "matrix", "seq", "2", "2", "1"],
            b"seq 2 2 1 0 mint\n10\n01\n",
        ),
    ];
    assert_answers(&rt, rt.alloc(), Status::Ok, &cases)
}

// A question for the cell.
fn ask_for(cell: Cell) -> Ask {
    match cell {
        Cell::Ooa { order, m, s, depth } => Ask {
            kind: if depth == m { Kind::Net } else { Kind::Ooa },
            q: order.number() as u64,
            m: m as u64,
            s: s as u64,
            depth: depth as u64,
        },
        Cell::Seq { order, m, s } => Ask {
            kind: Kind::Seq,
            q: order.number() as u64,
            m: m as u64,
            s: s as u64,
            depth: 0,
        },
    }
}

// The matrices that are served for the cell.
fn served(alloc: Global, table: &Table, cell: Cell) -> Result<Vec<u8>, Fail> {
    let question = Question::Matrix(ask_for(cell));
    match question.outside(table.bounds()) {
        None => Ok(text(alloc, table, &question)?),
        Some(_) => Err("a cell is outside")?,
    }
}

// For each cell the matrices that are served are an import text whose claim is the value, and holds.
#[test]
fn all_matrices_hold(rt: HostRuntime) -> Result<(), Fail> {
    let alloc = rt.alloc();
    let bounds = Bounds::new(5, 6).ok_or("bounds")?;
    let table = table_of::<Brand>(alloc, bounds, Blank::new(1))?;
    for n in 0..bounds.cells() {
        let cell = Cell::at(bounds, n);
        let text = served(alloc, &table, cell)?;
        let Ok(checked) = check_text(alloc, bounds, &text)? else {
            return Err("a served matrix does not hold")?;
        };
        assert_eq!(rt; checked.claim().k, table.value(cell));
    }
    Ok(())
}
